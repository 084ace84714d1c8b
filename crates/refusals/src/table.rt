//! What each line means by which a command is refused, or a file passed over.
ghost use Rattle.std.specs.Prelude.{◌≡◌, ◌==◌, ◌||◌, IfSome, codes, is_some};
ghost use Rattle.refusals.specs.Codes.{is_from_to};
ghost use Rattle.refusals.specs.Lines.{IsOf, IsOfCode};
ghost use Rattle.refusals.specs.Texts.{is_of_command, is_plain};

use crate::entries::Entry;
use crate::reports::of_report;

/// A line without an error code, by its words.
pub fn of_words(words: &str) -> Option<Entry>
    ensures known { is_some result ≡ is_plain words.now }
    ensures line { IfSome result (IsOf words.now) }
{
    if let Some(entry) = of_command(words) {
        return Some(entry);
    }
    of_report(words)
}

/// A line by which a command is refused, by its words.
fn of_command(words: &str) -> Option<Entry>
    ensures known { is_some result ≡ is_of_command words.now }
    ensures line { IfSome result (IsOf words.now) }
{
    match words {
        "memory" => Some(Entry {
            lines: "memory",
            meaning: "memory ran out",
            smallest_input: "",
            advice: "free memory, or load shorter fragments: a smaller `--rows`; in place of `whole`, use `load`, `work` and `gather`",
        }),
        "cannot read" => Some(Entry {
            lines: "cannot read PATH",
            meaning: "the file isn't there or can't be read; a journal can't be made or opened, or another run has it open",
            smallest_input: "a folder without `catalog.txt`, or without a table's CSV file",
            advice: "`cut.xcl`: load first (`xcols load`); `NAME.K.xcf`: K is below the number of fragments that `load` printed; `catalog.txt`: `xcols init DIR` writes one; else check the name of the folder and of the file",
        }),
        "cannot write" => Some(Entry {
            lines: "cannot write PATH",
            meaning: "the file can't be created, written, renamed or, of a fragment that a new cut doesn't have, removed",
            smallest_input: "a folder without the right to write",
            advice: "check rights and room on the disk; remove parts that killed runs left, `PATH.*.part`",
        }),
        "cannot write standard error" => Some(Entry {
            lines: "cannot write standard error",
            meaning: "standard error failed, on which a file that is passed over is named",
            smallest_input: "a closed pipe",
            advice: "send it to a file: `2>FILE`",
        }),
        "cannot write standard output" => Some(Entry {
            lines: "cannot write standard output",
            meaning: "standard output failed",
            smallest_input: "a closed pipe",
            advice: "make room on its disk; where a program as `head` reads only the first lines, nothing is wrong",
        }),
        "usage" => Some(usage()),
        "error:" => Some(usage()),
        _ => None,
    }
}

fn usage() -> Entry
    ensures { result.lines.now ≡ codes "usage, error: TEXT" }
{
    Entry {
        lines: "usage, error: TEXT",
        meaning: "the words after `xcols` are no command: a word is missing, unknown or there twice, or a number is out of its range; the status is 2",
        smallest_input: "`xcols whole shop`",
        advice: "`xcols --help` lists the commands, and `xcols COMMAND --help` the words of one",
    }
}

pub fn of_catalog(number: u8) -> Option<Entry>
    ensures known { is_some result ≡ is_from_to 1 6 number }
    ensures line { IfSome result (IsOfCode (codes "catalog") number) }
{
    match number {
        1 => Some(Entry {
            lines: "catalog 1",
            meaning: "the catalogue isn't UTF-8",
            smallest_input: "a byte `FF`",
            advice: "save `catalog.txt` as UTF-8",
        }),
        2 => Some(Entry {
            lines: "catalog 2 LINE",
            meaning: "the line has no known form, or a name of another form",
            smallest_input: "`column v int`",
            advice: "write `fact N`, `dim N key C` or `col N TYPE [null]`; TYPE is `int` or `text`; names are of lower-case letters, digits and underscores, and no word of SQL",
        }),
        3 => Some(Entry {
            lines: "catalog 3 LINE",
            meaning: "the line declares a name for the second time",
            smallest_input: "`col v int` twice",
            advice: "rename or remove one of the two",
        }),
        4 => Some(Entry {
            lines: "catalog 4",
            meaning: "not just one fact table",
            smallest_input: "no line `fact N`",
            advice: "declare the largest table by `fact N`, and each other by `dim N key C`",
        }),
        5 => Some(Entry {
            lines: "catalog 5",
            meaning: "a dimension's key column is missing, or may be NULL",
            smallest_input: "`dim d key k` without a column `k`",
            advice: "declare the key's column under its `dim` line, without `null`",
        }),
        6 => Some(Entry {
            lines: "catalog 6",
            meaning: "a name over 64 bytes, a table with no column or over 64, or over 16 dimensions",
            smallest_input: "`fact n` alone",
            advice: "shorten the name, or leave tables or columns out of the catalogue and the CSV files",
        }),
        _ => None,
    }
}

pub fn of_cut(number: u8) -> Option<Entry>
    ensures known { is_some result ≡ is_from_to 1 3 number }
    ensures line { IfSome result (IsOfCode (codes "cut") number) }
{
    match number {
        1 | 3 => Some(Entry {
            lines: "cut 1, cut 3",
            meaning: "no fragment; a fragment of over 1,048,576 rows",
            smallest_input: "none: an even cut has neither",
            advice: "nothing: no command makes such a cut",
        }),
        2 => Some(Entry {
            lines: "cut 2",
            meaning: "over 4,096 fragments",
            smallest_input: "4,097 rows with `--rows 1`",
            advice: "a greater `--rows`: at least the fact's rows divided by 4,096",
        }),
        _ => None,
    }
}

/// What a query's text has in it.
fn of_tokens(number: u8) -> Option<Entry>
    ensures known { is_some result ≡ is_from_to 1 4 number }
    ensures line { IfSome result (IsOfCode (codes "sql") number) }
{
    match number {
        1 => Some(Entry {
            lines: "sql 1",
            meaning: "the query isn't UTF-8",
            smallest_input: "none: such a word is a usage fault",
            advice: "write the query as UTF-8",
        }),
        2 => Some(Entry {
            lines: "sql 2 OFFSET",
            meaning: "a character that xcols' SQL doesn't use",
            smallest_input: "`SELECT #`",
            advice: "remove it; a text is in single quotes, a name in none",
        }),
        3 => Some(Entry {
            lines: "sql 3 OFFSET",
            meaning: "a text isn't closed; the offset is that of its opening quote",
            smallest_input: "`SELECT 'a`",
            advice: "close it by `'`; a quote in a text is written twice",
        }),
        4 => Some(Entry {
            lines: "sql 4 OFFSET",
            meaning: "an integer out of range",
            smallest_input: "`SELECT 9223372036854775808`",
            advice: "write an integer of 64 bits, -9223372036854775808 to 9223372036854775807, or a text in quotes",
        }),
        _ => None,
    }
}

/// How a query is put together, and how much of it there is.
fn of_grammar(number: u8) -> Option<Entry>
    ensures known { is_some result ≡ is_from_to 5 8 number }
    ensures line { IfSome result (IsOfCode (codes "sql") number) }
{
    match number {
        5 => Some(Entry {
            lines: "sql 5 OFFSET",
            meaning: "this word or sign can't come here",
            smallest_input: "`SELECT FROM n`",
            advice: "there is no `SELECT *`, no decimal and no subquery, and no function but COUNT, SUM, MIN, MAX, AVG and COALESCE; `xcols explain DIR --query Q` shows the place, and often what to write",
        }),
        6 => Some(Entry {
            lines: "sql 6",
            meaning: "a tree deeper than 128, or more than 256 brackets, CASEs, NOTs and minus signs open at once",
            smallest_input: "257 brackets round a column",
            advice: "fewer brackets; in place of a long chain of OR, `IN (..)`",
        }),
        7 => Some(Entry {
            lines: "sql 7",
            meaning: "the query, or its canonical text, has over 65,535 bytes",
            smallest_input: "a long comment",
            advice: "shorten it: a query in several parts, or a dimension in place of a long IN list",
        }),
        8 => Some(Entry {
            lines: "sql 8 OFFSET WORD",
            meaning: "a part of SQL that is left out",
            smallest_input: "`SELECT ALL v FROM n`",
            advice: "leave it out, or write it otherwise; `xcols explain DIR --query Q` says how",
        }),
        _ => None,
    }
}

pub fn of_sql(number: u8) -> Option<Entry>
    ensures known { is_some result ≡ is_from_to 1 8 number }
    ensures line { IfSome result (IsOfCode (codes "sql") number) }
{
    if number <= 4 {
        return of_tokens(number);
    }
    of_grammar(number)
}

/// The names of a query.
fn of_names(number: u8) -> Option<Entry>
    ensures known { is_some result ≡ is_from_to 1 3 number }
    ensures line { IfSome result (IsOfCode (codes "plan") number) }
{
    match number {
        1 => Some(Entry {
            lines: "plan 1",
            meaning: "a table that the catalogue doesn't have",
            smallest_input: "`SELECT COUNT(*) FROM m`",
            advice: "use a name of `catalog.txt`; `xcols explain DIR --query Q` shows the name, and near ones",
        }),
        2 => Some(Entry {
            lines: "plan 2",
            meaning: "a column that no table of FROM has",
            smallest_input: "`SELECT SUM(w) FROM n`",
            advice: "use a column of these tables, or add its table to FROM; `xcols explain DIR --query Q` shows the name, and near ones",
        }),
        3 => Some(Entry {
            lines: "plan 3",
            meaning: "a name that refers to several things: a column of two tables, an alias twice, two headers in ORDER BY",
            smallest_input: "`SELECT v AS a, v AS a FROM n ORDER BY a`",
            advice: "put the table's name before the column's, as `n.v`, or take another alias; `xcols explain DIR --query Q` shows the name",
        }),
        _ => None,
    }
}

/// Types, and how the tables are joined.
fn of_joins(number: u8) -> Option<Entry>
    ensures known { is_some result ≡ is_from_to 4 7 number }
    ensures line { IfSome result (IsOfCode (codes "plan") number) }
{
    match number {
        4 => Some(Entry {
            lines: "plan 4",
            meaning: "a text where an integer belongs or the reverse, or a condition where a value belongs",
            smallest_input: "SUM of a text column",
            advice: "compare a text with a text in quotes; SUM, AVG and arithmetic take integers; a column's type is in `catalog.txt`; `xcols explain DIR --query Q` often shows the column",
        }),
        5 => Some(Entry {
            lines: "plan 5",
            meaning: "a dimension without an equality of its key with a column of the fact",
            smallest_input: "`SELECT v FROM n, d`",
            advice: "join the dimension by the key that `catalog.txt` gives it: `ON v = d.k`, v a column of the fact; or change the key there; `xcols explain DIR --query Q` shows the key",
        }),
        6 => Some(Entry {
            lines: "plan 6",
            meaning: "two such equalities for one dimension",
            smallest_input: "`ON v = k AND k = v`",
            advice: "keep one, and compare the fact's columns in place of the other: for `v = k AND w = k` write `v = k AND v = w`",
        }),
        7 => Some(Entry {
            lines: "plan 7",
            meaning: "the fact table isn't named just once",
            smallest_input: "`SELECT COUNT(*) FROM d`",
            advice: "name the fact table of `catalog.txt` once in FROM; for a query of a dimension alone, a folder whose catalogue declares it as the fact",
        }),
        _ => None,
    }
}

/// Groups, positions and limits.
fn of_groups(number: u8) -> Option<Entry>
    ensures known { is_some result ≡ is_from_to 8 11 number }
    ensures line { IfSome result (IsOfCode (codes "plan") number) }
{
    match number {
        8 => Some(Entry {
            lines: "plan 8",
            meaning: "a column that isn't grouped, in a query with groups",
            smallest_input: "`SELECT v, COUNT(*) FROM n`",
            advice: "add the column to GROUP BY, or put it into MIN or MAX; `xcols explain DIR --query Q` shows the column",
        }),
        9 => Some(Entry {
            lines: "plan 9",
            meaning: "an aggregate in WHERE, ON, GROUP BY or inside another",
            smallest_input: "`SELECT v FROM n WHERE COUNT(*) > 1`",
            advice: "test an aggregate in HAVING; in WHERE test columns",
        }),
        10 => Some(Entry {
            lines: "plan 10",
            meaning: "a position in GROUP BY; in ORDER BY a position without an item, or a name that no item has",
            smallest_input: "`SELECT v FROM n ORDER BY 2`",
            advice: "GROUP BY takes columns and expressions; ORDER BY takes the name of an item (`AS total`) or its place, from 1: add what it is to be ordered by to SELECT; `xcols explain DIR --query Q` shows it and the items' names",
        }),
        11 => Some(Entry {
            lines: "plan 11",
            meaning: "over 16 joins, 64 keys or 64 aggregates",
            smallest_input: "",
            advice: "ask for fewer aggregates at once, in two queries",
        }),
        _ => None,
    }
}

/// LEFT JOIN.
fn of_left_joins(number: u8) -> Option<Entry>
    ensures known { is_some result ≡ is_from_to 12 13 number }
    ensures line { IfSome result (IsOfCode (codes "plan") number) }
{
    match number {
        12 => Some(Entry {
            lines: "plan 12",
            meaning: "the ON of a LEFT JOIN isn't just one equality of its dimension's key with a column of the fact",
            smallest_input: "`SELECT v FROM n LEFT JOIN d ON v > k`",
            advice: "join it `ON v = k`, and put other conditions after WHERE",
        }),
        13 => Some(Entry {
            lines: "plan 13",
            meaning: "the table of a LEFT JOIN isn't a dimension, or the fact isn't before it in FROM",
            smallest_input: "`SELECT v FROM d LEFT JOIN n ON v = k`",
            advice: "name the fact first",
        }),
        _ => None,
    }
}

pub fn of_plan(number: u8) -> Option<Entry>
    ensures known { is_some result ≡ is_from_to 1 13 number }
    ensures line { IfSome result (IsOfCode (codes "plan") number) }
{
    if number <= 3 {
        return of_names(number);
    }
    if number <= 7 {
        return of_joins(number);
    }
    if number <= 11 {
        return of_groups(number);
    }
    of_left_joins(number)
}

/// The header and the records of a CSV file.
fn of_records(number: u8) -> Option<Entry>
    ensures known { is_some result ≡ is_from_to 1 3 number }
    ensures line { IfSome result (IsOfCode (codes "load") number) }
{
    match number {
        1 => Some(Entry {
            lines: "load 1",
            meaning: "the header doesn't have each declared column once",
            smallest_input: "`w` for `v`",
            advice: "make the CSV file's first line the names of `catalog.txt`; `xcols check DIR` says which file and name",
        }),
        2 => Some(Entry {
            lines: "load 2 ROW",
            meaning: "the row doesn't have a field for each column",
            smallest_input: "`2,3` in a table of one column",
            advice: "`xcols check DIR` says which file and line; a comma or quote in a field has to be quoted",
        }),
        3 => Some(Entry {
            lines: "load 3 ROW COLUMN",
            meaning: "not an integer of 64 bits",
            smallest_input: "`x`",
            advice: "correct the field, or declare the column `text`; `xcols check DIR` shows file, line and field",
        }),
        _ => None,
    }
}

/// The values of a record.
fn of_values(number: u8) -> Option<Entry>
    ensures known { is_some result ≡ is_from_to 4 6 number }
    ensures line { IfSome result (IsOfCode (codes "load") number) }
{
    match number {
        4 => Some(Entry {
            lines: "load 4 ROW COLUMN",
            meaning: "NULL in a column without `null`",
            smallest_input: "`\\N`",
            advice: "declare the column `null`, or fill the field; `xcols check DIR` shows file and line",
        }),
        5 => Some(Entry {
            lines: "load 5 ROW COLUMN",
            meaning: "a text of over 65,535 bytes",
            smallest_input: "65,536 letters",
            advice: "shorten it; `xcols check DIR` shows file and line: often a quote isn't closed",
        }),
        6 => Some(Entry {
            lines: "load 6 ROW COLUMN",
            meaning: "not UTF-8",
            smallest_input: "a byte `FF`",
            advice: "save the file as UTF-8, as by `iconv -f latin1 -t utf-8`; `xcols check DIR` shows file and line",
        }),
        _ => None,
    }
}

/// The rows of a table together.
fn of_rows(number: u8) -> Option<Entry>
    ensures known { is_some result ≡ is_from_to 7 9 number }
    ensures line { IfSome result (IsOfCode (codes "load") number) }
{
    match number {
        7 => Some(Entry {
            lines: "load 7 ROW",
            meaning: "the row has the key of an earlier row",
            smallest_input: "the key 1 twice",
            advice: "remove the row, or declare another key in `catalog.txt`; `xcols check DIR` shows file and line",
        }),
        8 => Some(Entry {
            lines: "load 8",
            meaning: "a dimension of over 1,048,576 rows, or a fact's file that grew while it was loaded",
            smallest_input: "",
            advice: "make the larger table the fact, in `catalog.txt`; write no file while it is loaded; `xcols check DIR` says which file",
        }),
        9 => Some(Entry {
            lines: "load 9",
            meaning: "fewer rows than the cut has",
            smallest_input: "none: the rows are counted first, so the file got shorter while it was loaded",
            advice: "load again, and write no file while it is loaded; then `xcols check DIR`",
        }),
        _ => None,
    }
}

pub fn of_load(number: u8) -> Option<Entry>
    ensures known { is_some result ≡ is_from_to 1 9 number }
    ensures line { IfSome result (IsOfCode (codes "load") number) }
{
    if number <= 3 {
        return of_records(number);
    }
    if number <= 6 {
        return of_values(number);
    }
    of_rows(number)
}

pub fn of_file(number: u8) -> Option<Entry>
    ensures known { is_some result ≡ (is_from_to 1 4 number || number == 7) }
    ensures line { IfSome result (IsOfCode (codes "file") number) }
{
    match number {
        1 => Some(Entry {
            lines: "file 1",
            meaning: "the file of the cut doesn't begin as one",
            smallest_input: "a text in `cut.xcl`",
            advice: "load again",
        }),
        2 | 3 | 4 => Some(Entry {
            lines: "file 2, file 3, file 4",
            meaning: "it ends too early; there are bytes after its end; its seal isn't that of its bytes",
            smallest_input: "a file that was cut short, lengthened or damaged",
            advice: "load again",
        }),
        7 => Some(Entry {
            lines: "file 7",
            meaning: "it has no fragment, over 4,096 of them, or one of over 1,048,576 rows",
            smallest_input: "",
            advice: "load again",
        }),
        _ => None,
    }
}

pub fn of_work(number: u8) -> Option<Entry>
    ensures known { is_some result ≡ is_from_to 1 5 number }
    ensures line { IfSome result (IsOfCode (codes "work") number) }
{
    match number {
        1 => Some(Entry {
            lines: "work 1",
            meaning: "the file isn't that of this fragment or dimension, of this load",
            smallest_input: "another load's file under the name",
            advice: "load again, or copy all files of one load together",
        }),
        2 => Some(Entry {
            lines: "work 2",
            meaning: "a column that the query uses isn't where the catalogue has it in the file, with its name and type",
            smallest_input: "a catalogue that changed after `load`",
            advice: "load again",
        }),
        3 => Some(Entry {
            lines: "work 3 N, work 3 5 GROUP COLUMN",
            meaning: "the fragment's or a dimension's file is damaged: N is 1 to 4 as in the lines of `file`, 6 for a header or numbers of rows that don't fit, 7 over a limit; 5 where the block of this column in this row group is damaged",
            smallest_input: "a file that was cut short; a byte that changed",
            advice: "`xcols show FILE` says where; copy the file again, or load again",
        }),
        4 => Some(Entry {
            lines: "work 4",
            meaning: "a vector's length isn't from 1 to 4,096",
            smallest_input: "none: such a length is a usage fault",
            advice: "nothing: `--vector` takes no such length",
        }),
        5 => Some(Entry {
            lines: "work 5",
            meaning: "a dimension's file has a key twice",
            smallest_input: "none that `load` writes",
            advice: "load again",
        }),
        _ => None,
    }
}

pub fn of_journal(number: u8) -> Option<Entry>
    ensures known { is_some result ≡ is_from_to 12 16 number }
    ensures line { IfSome result (IsOfCode (codes "journal") number) }
{
    match number {
        12 | 13 => Some(Entry {
            lines: "journal 12, journal 13",
            meaning: "a call on the journal's file failed; the disk is full, which the program reports as 12",
            smallest_input: "a full disk",
            advice: "make room, check the disk, and gather again: the journal has what was taken before",
        }),
        14 => Some(Entry {
            lines: "journal 14",
            meaning: "the file is no journal of this query over this load: it doesn't begin as one, it ends before a closed gate, a record is no answer for the job, or there are over 2^20 records",
            smallest_input: "a text under the path",
            advice: "another path for another query or load; remove a file that a run left which was stopped while it made it",
        }),
        15 => Some(Entry {
            lines: "journal 15",
            meaning: "the disk failed before",
            smallest_input: "none: the program ends at the first failure",
            advice: "make room, check the disk, and gather again",
        }),
        16 => Some(Entry {
            lines: "journal 16",
            meaning: "an answer of over 4,294,967,295 bytes",
            smallest_input: "",
            advice: "gather it without `--journal`",
        }),
        _ => None,
    }
}

pub fn of_gather(number: u8) -> Option<Entry>
    ensures known { is_some result ≡ is_from_to 1 10 number }
    ensures line { IfSome result (IsOfCode (codes "gather") number) }
{
    match number {
        1 => Some(Entry {
            lines: "gather 1 PATH",
            meaning: "the file begins neither as an answer nor as a state; with `--journal`, it is no answer, as a state is none",
            smallest_input: "",
            advice: "give files that `work --out` or `gather --save` wrote; with `--journal` only those of `work`",
        }),
        2 | 3 | 4 => Some(Entry {
            lines: "gather 2 PATH, gather 3 PATH, gather 4 PATH",
            meaning: "it ends too early; there are bytes after its end; its seal isn't that of its bytes",
            smallest_input: "",
            advice: "copy the file again, or answer its fragment again by `xcols work`; `xcols show PATH` says where it is damaged",
        }),
        5 | 6 | 7 => Some(Entry {
            lines: "gather 5 PATH, gather 6 PATH, gather 7 PATH",
            meaning: "it is of another load, of another query, of another cut",
            smallest_input: "",
            advice: "answer the fragment again by `xcols work` with the same query, after the last `load`; `xcols show PATH` says what the file is of",
        }),
        8 => Some(Entry {
            lines: "gather 8 PATH",
            meaning: "its groups don't ascend by their keys, or a set by its values",
            smallest_input: "",
            advice: "answer the fragment again by `xcols work`: no program of ours writes such a file",
        }),
        9 | 10 => Some(Entry {
            lines: "gather 9 PATH, gather 10 PATH",
            meaning: "its groups aren't of the query's form; its numbers can't be those of its rows",
            smallest_input: "",
            advice: "answer the fragment again by `xcols work`, with the files and the query that `gather` gets",
        }),
        _ => None,
    }
}
