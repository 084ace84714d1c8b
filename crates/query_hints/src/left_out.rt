//! What to write in place of the words of SQL that are left out.

/// A sentence by the word in lower case.
pub fn in_place_of(word: &str) -> &'static str {
    match word {
        "all" => "leave ALL out: rows are kept without it, and UNION isn't there",
        "any" => "write each comparison out, with OR between them",
        "cross" => "join each table by its key: `JOIN d ON v = d.k`",
        "escape" => "LIKE has no ESCAPE: `_` stands for any character, also for itself",
        "except" | "intersect" | "union" =>
            "run one query for each part, and put the results together",
        "exists" => "join the table by its key; rows that meet none are left out",
        "fetch" => "write LIMIT",
        "full" | "right" => "name the fact first, and join the dimension by LEFT JOIN or JOIN",
        "natural" => "write JOIN with ON: `JOIN d ON v = d.k`",
        "nulls" => "NULL is first, and last with DESC",
        "offset" => "LIMIT takes the first rows alone; leave earlier ones out of the output",
        "over" | "window" =>
            "there are no windows; an aggregate has one row for each group of GROUP BY",
        "rollup" => "run one query for each set of keys",
        "using" => "write ON: `JOIN d ON v = d.k`",
        "with" => "there is no WITH; put the condition into WHERE or HAVING",
        "%" => "there is no remainder; `a - a / b * b` is the same",
        "||" => "texts aren't joined; show the columns one beside the other",
        "\"" => "a name has no quotes, and a text has single ones",
        _ => "leave it out",
    }
}
