//! Kernels of integers beside plain loops, at each length up to 130 and from eight starts.
ghost use Rattle.std.specs.Prelude.{◌≡◌, ◌≤◌, length};

use crate::lanes::lines::{first_word, int_of, operator_of, second_word};
use lane_loops::{add_ints, compare_ints, compare_ints_to, mask_to_places, sub_ints};
use meaning::ComparisonOperator;
use std::alloc::AllocError;
use std::fmt::Write;

const LONGEST: usize = 130;

const STARTS: usize = 8;

const INTS: [i64; 11] = [
    i64::MIN,
    -1,
    0,
    1,
    i64::MAX,
    -7,
    9_223_372_036_854_775_806,
    5,
    -4_611_686_018_427_387_905,
    4_611_686_018_427_387_904,
    7,
];

/// All pairs of these integers, and some again.
#[derive(Drop)]
struct Pairs {
    left: [i64; 138],
    right: [i64; 138],
}

fn all_pairs() -> Pairs {
    let (mut left, mut right) = ([0i64; 138], [0i64; 138]);
    for i in 0..138 {
        left[i] = INTS[i % 11];
        right[i] = INTS[(i + i / 11) % 11];
    }
    Pairs { left, right }
}

fn sums_alike(left: &[i64], right: &[i64]) -> bool
    requires same { length right.now ≡ length left.now }
    requires few { length left.now ≤ 130 }
{
    let (mut out, mut over) = ([3i64; LONGEST], [3u8; LONGEST]);
    add_ints(left, right, &mut out[..left.len()], &mut over[..left.len()]);
    let mut alike = true;
    for i in 0..left.len() {
        let (sum, is_over) = left[i].overflowing_add(right[i]);
        alike &= (out[i] == sum) & (over[i] == u8::from(is_over));
    }
    alike
}

fn differences_alike(left: &[i64], right: &[i64]) -> bool
    requires same { length right.now ≡ length left.now }
    requires few { length left.now ≤ 130 }
{
    let (mut out, mut over) = ([3i64; LONGEST], [3u8; LONGEST]);
    sub_ints(left, right, &mut out[..left.len()], &mut over[..left.len()]);
    let mut alike = true;
    for i in 0..left.len() {
        let (difference, is_over) = left[i].overflowing_sub(right[i]);
        alike &= (out[i] == difference) & (over[i] == u8::from(is_over));
    }
    alike
}

fn holds(op: ComparisonOperator, left: i64, right: i64) -> bool {
    match op {
        ComparisonOperator::Equal => left == right,
        ComparisonOperator::NotEqual => left != right,
        ComparisonOperator::Less => left < right,
        ComparisonOperator::LessOrEqual => left <= right,
        ComparisonOperator::Greater => left > right,
        ComparisonOperator::GreaterOrEqual => left >= right,
    }
}

fn bits_alike(op: ComparisonOperator, left: &[i64], right: &[i64]) -> bool
    requires same { length right.now ≡ length left.now }
    requires few { length left.now ≤ 130 }
{
    let mut bits = [3u8; LONGEST];
    compare_ints(op, left, right, &mut bits[..left.len()]);
    let mut alike = true;
    for i in 0..left.len() {
        alike &= bits[i] == u8::from(holds(op, left[i], right[i]));
    }
    alike
}

fn bits_to_alike(op: ComparisonOperator, left: &[i64], right: i64) -> bool
    requires { length left.now ≤ 130 }
{
    let mut bits = [3u8; LONGEST];
    compare_ints_to(op, left, right, &mut bits[..left.len()]);
    let mut alike = true;
    for i in 0..left.len() {
        alike &= bits[i] == u8::from(holds(op, left[i], right));
    }
    alike
}

fn is_at(positions: &[u32], k: usize, i: usize) -> bool {
    match positions.get(k) {
        Some(position) => *position as usize == i,
        None => false,
    }
}

/// Of the integers that are less than the other one, and of those below zero.
fn positions_alike(left: &[i64], right: &[i64]) -> bool
    requires same { length right.now ≡ length left.now }
    requires few { length left.now ≤ 130 }
{
    let mut mask = [0u8; LONGEST];
    for i in 0..left.len() {
        mask[i] = u8::from(left[i] < right[i]) + 254 * u8::from(left[i] < 0);
    }
    let mut positions = [0u32; LONGEST];
    let count = mask_to_places(&mask[..left.len()], &mut positions[..left.len()]);
    are_positions(&mask[..left.len()], &positions, count)
}

fn are_positions(mask: &[u8], positions: &[u32], count: usize) -> bool {
    let mut alike = true;
    let mut k: usize = 0;
    for i in 0..mask.len() {
        if mask[i] != 0 {
            alike &= is_at(positions, k, i);
            k = k.wrapping_add(1);
        }
    }
    alike & (k == count)
}

/// Whether the kernel of this line gives the same as a plain loop.
fn is_alike(line: &str, left: &[i64], right: &[i64]) -> bool
    requires same { length right.now ≡ length left.now }
    requires few { length left.now ≤ 130 }
{
    let (first, second) = (first_word(line), second_word(line));
    match first {
        "add" => sums_alike(left, right),
        "sub" => differences_alike(left, right),
        "positions" => positions_alike(left, right),
        _ if second == "" => bits_alike(operator_of(first), left, right),
        _ => bits_to_alike(operator_of(first), left, int_of(second)),
    }
}

fn starts_alike(line: &str, pairs: &Pairs, length: usize) -> u64
    requires { length ≤ 130 }
{
    let mut count: u64 = 0;
    for start in 0..STARTS {
        let end = start + length;
        let alike = is_alike(line, &pairs.left[start..end], &pairs.right[start..end]);
        count = count.wrapping_add(u64::from(alike));
    }
    count
}

/// How many of 131 lengths from eight starts are alike.
fn count_alike(line: &str, pairs: &Pairs) -> u64 {
    let mut count: u64 = 0;
    for length in 0..LONGEST + 1 {
        count = count.wrapping_add(starts_alike(line, pairs, length));
    }
    count
}

/// A line has a kernel. Behind it comes how often it gives what a plain loop gives.
pub fn show(shown: &mut String, body: &str) -> Result<(), AllocError> {
    let pairs = all_pairs();
    for line in body.lines() {
        writeln!(shown, "{line}: {} alike", count_alike(line, &pairs))?;
    }
    Ok(())
}
