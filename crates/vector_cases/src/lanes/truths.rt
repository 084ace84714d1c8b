//! AND, OR and NOT, positions of a mask, and choice.
use crate::lanes::lines::{Lines, first_word, int_of, lines_of, second_word};
use crate::lanes::tests::show_truths;
use crate::words::truth_of;
use lane_loops::{
    and_truths, choose, mask_to_places, not_truths, or_truths, true_lanes, truths_of_bits,
};
use meaning::Truth;
use std::alloc::AllocError;
use std::fmt::Write;

fn first_truths(lines: &[&str; 8]) -> [Truth; 8] {
    let mut truths = [Truth::Unknown; 8];
    for i in 0..8 {
        truths[i] = truth_of(first_word(lines[i]));
    }
    truths
}

fn second_truths(lines: &[&str; 8]) -> [Truth; 8] {
    let mut truths = [Truth::Unknown; 8];
    for i in 0..8 {
        truths[i] = truth_of(second_word(lines[i]));
    }
    truths
}

fn bits_of(lines: &[&str; 8]) -> [u8; 8] {
    let mut bits = [0u8; 8];
    for i in 0..8 {
        bits[i] = lines[i].parse().unwrap_or(0);
    }
    bits
}

/// The truths of an operator.
pub fn show(
    shown: &mut String,
    operator: &str,
    lines: &[&str; 8],
    count: usize,
) -> Result<(), AllocError> {
    let (left, right) = (first_truths(lines), second_truths(lines));
    let mut out = [Truth::Unknown; 8];
    match operator {
        "and" => and_truths(&left, &right, &mut out),
        "or" => or_truths(&left, &right, &mut out),
        "not" => not_truths(&left, &mut out),
        "bits" => truths_of_bits(&bits_of(lines), &mut out),
        _ => return shown.push_str("(no such loop)\n"),
    }
    show_truths(shown, &out, count)
}

/// The positions of the lines that aren't 0.
pub fn positions(shown: &mut String, body: &str) -> Result<(), AllocError> {
    let Lines { lines, .. } = lines_of(body);
    let mut positions = [0u32; 8];
    let count = mask_to_places(&bits_of(&lines), &mut positions);
    shown.push_str("positions")?;
    for position in &positions[..count] {
        write!(shown, " {position}")?;
    }
    shown.push_str("\n")
}

/// A line has a truth and two integers: the first where it is TRUE, else the second.
pub fn choose_lanes(shown: &mut String, body: &str) -> Result<(), AllocError> {
    let Lines { lines, count } = lines_of(body);
    let (mut these, mut those) = ([0i64; 8], [0i64; 8]);
    for i in 0..8 {
        let ints = second_word(lines[i]);
        these[i] = int_of(first_word(ints));
        those[i] = int_of(second_word(ints));
    }
    let mut mask = [false; 8];
    true_lanes(&first_truths(&lines), &mut mask);
    let mut out = [0i64; 8];
    choose(&mask, &these, &those, &mut out);
    for i in 0..8 {
        if i < count {
            writeln!(shown, "{}", out[i])?;
        }
    }
    Ok(())
}
