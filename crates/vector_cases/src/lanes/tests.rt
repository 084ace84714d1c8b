//! Comparisons of integers, and IS NULL.
use crate::lanes::lines::{Lines, first_word, int_of, is_null, lines_of, operator_of, second_word};
use crate::words::truth_word;
use lane_loops::{are_not_null, are_null, compare_ints, compare_ints_to, truths_unless_null};
use meaning::Truth;
use std::alloc::AllocError;
use std::fmt::Write;

/// A line for each of the first truths.
pub fn show_truths(
    shown: &mut String,
    truths: &[Truth; 8],
    count: usize,
) -> Result<(), AllocError> {
    for i in 0..8 {
        if i < count {
            writeln!(shown, "{}", truth_word(truths[i]))?;
        }
    }
    Ok(())
}

/// The truths of bits, UNKNOWN where a lane is NULL.
pub fn show_bits(
    shown: &mut String,
    nulls: &[bool; 8],
    bits: &[u8; 8],
    count: usize,
) -> Result<(), AllocError> {
    let mut truths = [Truth::Unknown; 8];
    truths_unless_null(nulls, bits, &mut truths);
    show_truths(shown, &truths, count)
}

pub fn first_ints(lines: &[&str; 8]) -> [i64; 8] {
    let mut ints = [0i64; 8];
    for i in 0..8 {
        ints[i] = int_of(first_word(lines[i]));
    }
    ints
}

fn second_ints(lines: &[&str; 8]) -> [i64; 8] {
    let mut ints = [0i64; 8];
    for i in 0..8 {
        ints[i] = int_of(second_word(lines[i]));
    }
    ints
}

pub fn first_nulls(lines: &[&str; 8]) -> [bool; 8] {
    let mut nulls = [false; 8];
    for i in 0..8 {
        nulls[i] = is_null(first_word(lines[i]));
    }
    nulls
}

/// Which lines have a word that is NULL.
pub fn nulls_of(lines: &[&str; 8]) -> [bool; 8] {
    let mut nulls = [false; 8];
    for i in 0..8 {
        nulls[i] = is_null(first_word(lines[i])) | is_null(second_word(lines[i]));
    }
    nulls
}

pub fn compare(shown: &mut String, operator: &str, body: &str) -> Result<(), AllocError> {
    let Lines { lines, count } = lines_of(body);
    let mut bits = [0u8; 8];
    compare_ints(
        operator_of(operator),
        &first_ints(&lines),
        &second_ints(&lines),
        &mut bits,
    );
    show_bits(shown, &nulls_of(&lines), &bits, count)
}

pub fn compare_to(
    shown: &mut String,
    operator: &str,
    int: &str,
    body: &str,
) -> Result<(), AllocError> {
    let Lines { lines, count } = lines_of(body);
    let mut bits = [0u8; 8];
    compare_ints_to(
        operator_of(operator),
        &first_ints(&lines),
        int_of(int),
        &mut bits,
    );
    show_bits(shown, &nulls_of(&lines), &bits, count)
}

pub fn null(shown: &mut String, body: &str) -> Result<(), AllocError> {
    let Lines { lines, count } = lines_of(body);
    let mut truths = [Truth::Unknown; 8];
    are_null(&nulls_of(&lines), &mut truths);
    show_truths(shown, &truths, count)
}

pub fn not_null(shown: &mut String, body: &str) -> Result<(), AllocError> {
    let Lines { lines, count } = lines_of(body);
    let mut truths = [Truth::Unknown; 8];
    are_not_null(&nulls_of(&lines), &mut truths);
    show_truths(shown, &truths, count)
}
