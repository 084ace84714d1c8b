//! What the lines mean that stand in place of a query's result.
ghost use Rattle.std.specs.Prelude.{◌≡◌, IfSome, codes, is_some};
ghost use Rattle.refusals.specs.Lines.{IsOf};
ghost use Rattle.refusals.specs.Texts.{is_of_report};

use crate::entries::Entry;

/// A line that stands in place of a query's result, by its words.
pub fn of_report(words: &str) -> Option<Entry>
    ensures known { is_some result ≡ is_of_report words.now }
    ensures line { IfSome result (IsOf words.now) }
{
    match words {
        "missing" => Some(missing()),
        "missing:" => Some(missing()),
        "conflict" => Some(conflict()),
        "conflict:" => Some(conflict()),
        "arithmetic" => Some(arithmetic()),
        "arithmetic:" => Some(arithmetic()),
        "arithmetic: overflow" => Some(overflow()),
        "arithmetic: division by zero" => Some(division()),
        "arithmetic: sum out of range" => Some(sum()),
        _ => None,
    }
}

fn missing() -> Entry
    ensures { result.lines.now ≡ codes "missing: NUMBERS" }
{
    Entry {
        lines: "missing: NUMBERS",
        meaning: "these fragments have no answer yet",
        smallest_input: "`gather` of one answer, where there are two fragments",
        advice: "answer each by `xcols work` with `--fragment`, and gather all answers; `--preview` prints the result over those that are there",
    }
}

fn conflict() -> Entry
    ensures { result.lines.now ≡ codes "conflict: NUMBERS" }
{
    Entry {
        lines: "conflict: NUMBERS",
        meaning: "these fragments have two answers that differ",
        smallest_input: "an answer from before and one from after a file was changed, under one number of `--load`",
        advice: "load again under a new number of `--load`, as `$(date +%s)`, answer all fragments again, and gather them into a new state or journal",
    }
}

fn arithmetic() -> Entry
    ensures { result.lines.now ≡ codes "arithmetic: FAULT" }
{
    Entry {
        lines: "arithmetic: FAULT",
        meaning: "the query's arithmetic failed: `overflow`, `division by zero` or `sum out of range`; `at row N` is the row of the fact table, counted from 0, and without it the fault is in HAVING or in an item over groups",
        smallest_input: "",
        advice: "`xcols refusal` says more of the whole line; `WHERE` or `CASE` keeps a row from the arithmetic",
    }
}

fn overflow() -> Entry
    ensures { result.lines.now ≡ codes "arithmetic: overflow, arithmetic: overflow at row N" }
{
    Entry {
        lines: "arithmetic: overflow, arithmetic: overflow at row N",
        meaning: "a sum, difference, product or negation is outside 64 bits; rows of the fact table count from 0",
        smallest_input: "`p * 2`, where p is 9223372036854775807",
        advice: "correct the row's value, or leave such rows out by WHERE or CASE",
    }
}

fn division() -> Entry
    ensures { result.lines.now
        ≡ codes "arithmetic: division by zero, arithmetic: division by zero at row N" }
{
    Entry {
        lines: "arithmetic: division by zero, arithmetic: division by zero at row N",
        meaning: "a division by 0; rows of the fact table count from 0",
        smallest_input: "`p / q`, where q is 0",
        advice: "leave such rows out by `WHERE q <> 0`, or write `CASE WHEN q <> 0 THEN p / q END`",
    }
}

fn sum() -> Entry
    ensures { result.lines.now ≡ codes "arithmetic: sum out of range" }
{
    Entry {
        lines: "arithmetic: sum out of range",
        meaning: "the total of a SUM is outside 64 bits",
        smallest_input: "SUM of 9223372036854775807 and 1",
        advice: "sum smaller values, as `SUM(p / 1000)`, or groups of rows by GROUP BY",
    }
}
