//! Loops over lanes: a line a lane, at most eight.
mod arithmetic;
mod lengths;
mod lines;
mod tests;
mod texts;
mod truths;
mod two_columns;

use std::alloc::{AllocError, Global};

/// What each lane holds behind the loop that the words name.
pub fn show_lane_loop(alloc: Global, words: &[&str], body: &str) -> Result<String, AllocError> {
    let mut shown = String::new(alloc);
    show_into(alloc, &mut shown, words, body)?;
    Ok(shown)
}

fn show_into(
    alloc: Global,
    shown: &mut String,
    words: &[&str],
    body: &str,
) -> Result<(), AllocError> {
    match words {
        [operator] => show_plain(alloc, shown, operator, body),
        _ => show_with(shown, words, body),
    }
}

fn show_plain(
    alloc: Global,
    shown: &mut String,
    operator: &str,
    body: &str,
) -> Result<(), AllocError> {
    match operator {
        "null" => tests::null(shown, body),
        "not-null" => tests::not_null(shown, body),
        "lengths" => lengths::show(shown, body),
        "positions" => truths::positions(shown, body),
        "choose" => truths::choose_lanes(shown, body),
        "batch" => two_columns::show(alloc, shown, body),
        _ => arithmetic::show(alloc, shown, operator, body),
    }
}

fn show_with(shown: &mut String, words: &[&str], body: &str) -> Result<(), AllocError> {
    match words {
        ["flagged", operator] => arithmetic::show_flagged(shown, operator, body),
        ["compare", operator] => tests::compare(shown, operator, body),
        ["compare", operator, "to", int] => tests::compare_to(shown, operator, int, body),
        ["compare-texts", operator] => texts::compare(shown, operator, body),
        ["compare-texts", operator, "to", text] => texts::compare_to(shown, operator, text, body),
        ["like", pattern] => texts::like(shown, pattern, body),
        _ => shown.push_str("(no such loop)\n"),
    }
}
