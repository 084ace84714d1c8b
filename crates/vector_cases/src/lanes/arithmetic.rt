//! Arithmetic, with NULL lanes and faults; and the three-valued operators, whose words stand where
//! theirs do.
ghost use Rattle.std.specs.Prelude.{◌≡◌, IfOk};

use crate::lanes::lines::{Lines, first_word, int_of, is_null, lines_of, second_word};
use crate::lanes::truths;
use lane_loops::{
    add_ints, clear_flags, div_ints, div_ints_at, first_flagged, has_flag, mul_ints, neg_ints,
    or_nulls, sub_ints,
};
use std::alloc::{AllocError, Global};
use std::fmt::Write;
use vectors::Selection;

#[derive(Drop)]
struct Operands {
    left: [i64; 8],
    right: [i64; 8],
    left_nulls: [bool; 8],
    right_nulls: [bool; 8],
}

fn operands_of(lines: &[&str; 8]) -> Operands {
    let (mut left, mut right) = ([0i64; 8], [0i64; 8]);
    let (mut left_nulls, mut right_nulls) = ([false; 8], [false; 8]);
    for i in 0..8 {
        let (first, second) = (first_word(lines[i]), second_word(lines[i]));
        left[i] = int_of(first);
        right[i] = int_of(second);
        left_nulls[i] = is_null(first);
        right_nulls[i] = is_null(second);
    }
    Operands {
        left,
        right,
        left_nulls,
        right_nulls,
    }
}

fn run(operator: &str, operands: &Operands, out: &mut [i64; 8], codes: &mut [u8; 8]) -> bool {
    let (left, right) = (&operands.left, &operands.right);
    match operator {
        "add" => add_ints(left, right, out, codes),
        "sub" => sub_ints(left, right, out, codes),
        "mul" => mul_ints(left, right, out, codes),
        "div" => div_ints(left, right, out, codes),
        "div-at-2-0" => div_ints_at(left, right, &[2, 0], out, codes),
        "neg" => neg_ints(left, out, codes),
        _ => return false,
    }
    true
}

fn show_lane(shown: &mut String, null: bool, code: u8, int: i64) -> Result<(), AllocError> {
    if null {
        return shown.push_str("\\N\n");
    }
    match code {
        0 => writeln!(shown, "{int}"),
        1 => shown.push_str("overflow\n"),
        _ => shown.push_str("division by zero\n"),
    }
}

/// The first lanes, which have lines.
fn lanes_with_lines(alloc: Global, count: usize) -> Result<Selection, AllocError>
    ensures { IfOk result (λ s. s.below ≡ 8) }
{
    let mut selection = Selection::all(alloc, 8)?;
    if count < 8 {
        let mut mask = [false; 8];
        for i in 0..8 {
            mask[i] = i < count;
        }
        selection.keep_marked(&mask);
    }
    Ok(selection)
}

fn show_first(
    alloc: Global,
    shown: &mut String,
    codes: &[u8; 8],
    count: usize,
) -> Result<(), AllocError> {
    if !has_flag(codes) {
        return shown.push_str("no fault\n");
    }
    let selection = lanes_with_lines(alloc, count)?;
    match first_flagged(codes, &selection) {
        Some(position) => writeln!(shown, "fault at {position}"),
        None => shown.push_str("no fault\n"),
    }
}

/// The results of an operator, NULL where an operand is, or its fault; then the first lane that has
/// one.
pub fn show(
    alloc: Global,
    shown: &mut String,
    operator: &str,
    body: &str,
) -> Result<(), AllocError> {
    let Lines { lines, count } = lines_of(body);
    let operands = operands_of(&lines);
    let (mut out, mut codes) = ([0i64; 8], [0u8; 8]);
    if !run(operator, &operands, &mut out, &mut codes) {
        return truths::show(shown, operator, &lines, count);
    }
    let mut nulls = [false; 8];
    or_nulls(&operands.left_nulls, &operands.right_nulls, &mut nulls);
    clear_flags(&nulls, &mut codes);
    for i in 0..8 {
        if i < count {
            show_lane(shown, nulls[i], codes[i], out[i])?;
        }
    }
    show_first(alloc, shown, &codes, count)
}

/// What an operator leaves of each line: the integer, also where 64 bits don't hold the result, and
/// the flag.
pub fn show_flagged(shown: &mut String, operator: &str, body: &str) -> Result<(), AllocError> {
    let Lines { lines, count } = lines_of(body);
    let operands = operands_of(&lines);
    let (mut out, mut codes) = ([0i64; 8], [0u8; 8]);
    if !run(operator, &operands, &mut out, &mut codes) {
        return shown.push_str("(no such loop)\n");
    }
    for i in 0..8 {
        if i < count {
            writeln!(shown, "{} {}", out[i], codes[i])?;
        }
    }
    Ok(())
}
