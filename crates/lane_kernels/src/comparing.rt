//! Comparisons of integers lane by lane.
ghost use Rattle.std.specs.Prelude.{◌≡◌, ◌<◌, ◌≤◌, ◌+◌, length, map, cond, int_lt};
ghost use Rattle.std.specs.Ordering.{int_cmp, int_eq};
ghost use Rattle.std.specs.Int.{from_bool};
ghost use Rattle.std.specs.Simd.Lanes.{chunk, zip2};
ghost use Rattle.meaning.specs.Operators.{test};
ghost use Rattle.lane_kernels.specs.Lanes.{AreFilled, AreLanes, compared_bit, compared_to_bit};

use crate::looking::{look_at, look_at_eight};
use meaning::ComparisonOperator;
use std::simd::prelude::*;

/// One number in each of eight lanes where both are equal, the other one elsewhere.
#[inline(always)]
fn choose_equal(left: &[i64], right: &[i64], start: usize, equal: u64, other: u64) -> u64x8
    requires left { start + 8 ≤ length left.now }
    requires right { start + 8 ≤ length right.now }
    ensures { result ≡ zip2 (λ a b. cond (int_eq a b) equal other) (chunk start 8 left.now)
        (chunk start 8 right.now) }
{
    look_at_eight(left, start);
    look_at_eight(right, start);
    i64x8::from_slice(&left[start..])
        .simd_eq(i64x8::from_slice(&right[start..]))
        .select(u64x8::splat(equal), u64x8::splat(other))
}

/// One number in each of eight lanes where the left integer is less, the other one elsewhere.
#[inline(always)]
fn choose_less(left: &[i64], right: &[i64], start: usize, less: u64, other: u64) -> u64x8
    requires left { start + 8 ≤ length left.now }
    requires right { start + 8 ≤ length right.now }
    ensures { result ≡ zip2 (λ a b. cond (int_lt a b) less other) (chunk start 8 left.now)
        (chunk start 8 right.now) }
{
    look_at_eight(left, start);
    look_at_eight(right, start);
    i64x8::from_slice(&left[start..])
        .simd_lt(i64x8::from_slice(&right[start..]))
        .select(u64x8::splat(less), u64x8::splat(other))
}

/// 1 in each of eight lanes where the comparison holds, else 0.
#[inline(always)]
fn bits_of_eight(op: ComparisonOperator, left: &[i64], right: &[i64], start: usize) -> u64x8
    requires left { start + 8 ≤ length left.now }
    requires right { start + 8 ≤ length right.now }
    ensures { result ≡ zip2 (λ a b. from_bool (test op (int_cmp a b))) (chunk start 8 left.now)
        (chunk start 8 right.now) }
{
    match op {
        ComparisonOperator::Equal => choose_equal(left, right, start, 1, 0),
        ComparisonOperator::NotEqual => choose_equal(left, right, start, 0, 1),
        ComparisonOperator::Less => choose_less(left, right, start, 1, 0),
        ComparisonOperator::LessOrEqual => choose_less(right, left, start, 0, 1),
        ComparisonOperator::Greater => choose_less(right, left, start, 1, 0),
        ComparisonOperator::GreaterOrEqual => choose_less(left, right, start, 0, 1),
    }
}

/// The bits of eight lanes more.
#[inline(always)]
fn compare_eight(op: ComparisonOperator, left: &[i64], right: &[i64], start: usize, out: &mut [u8])
    requires left { length left.now ≡ length out.old }
    requires right { length right.now ≡ length out.old }
    requires within { start + 8 ≤ length out.old }
    requires filled { AreFilled 0 (length out.old) start (compared_bit op left.now right.now)
        out.old }
    ensures { AreFilled 0 (length out.old) (start + 8) (compared_bit op left.now right.now) out.new }
{
    let bits = bits_of_eight(op, left, right, start);
    bits.cast::<u8>().copy_to_slice(&mut out[start..]);
}

/// Whether a comparison holds of two integers.
#[inline(always)]
fn holds(op: ComparisonOperator, left: i64, right: i64) -> bool
    ensures { result ≡ test op (int_cmp left right) }
{
    match op {
        ComparisonOperator::Equal => left == right,
        ComparisonOperator::NotEqual => left != right,
        ComparisonOperator::Less => left < right,
        ComparisonOperator::LessOrEqual => left <= right,
        ComparisonOperator::Greater => left > right,
        ComparisonOperator::GreaterOrEqual => left >= right,
    }
}

#[inline(always)]
fn bit_at(op: ComparisonOperator, left: &[i64], right: &[i64], lane: usize) -> u8
    requires left { lane < length left.now }
    requires right { lane < length right.now }
    ensures { result ≡ compared_bit op left.now right.now lane }
{
    u8::from(holds(op, left[lane], right[lane]))
}

#[inline(always)]
fn compare_by(op: ComparisonOperator, left: &[i64], right: &[i64], out: &mut [u8])
    requires left { length left.now ≡ length out.old }
    requires right { length right.now ≡ length out.old }
    ensures { AreLanes 0 (length out.old) (compared_bit op left.now right.now) out.new }
{
    let eights = out.len() / 8;
    for eight in 0..eights {
        compare_eight(op, left, right, 8 * eight, out);
    }
    for lane in 8 * eights..out.len() {
        out[lane] = bit_at(op, left, right, lane);
    }
}

/// 1 in each lane where the comparison holds, else 0.
pub fn compare_ints(op: ComparisonOperator, left: &[i64], right: &[i64], out: &mut [u8])
    requires left { length left.now ≡ length out.old }
    requires right { length right.now ≡ length out.old }
    ensures { AreLanes 0 (length out.old) (compared_bit op left.now right.now) out.new }
{
    // A loop for each operator, so that none is looked at in each lane.
    match op {
        ComparisonOperator::Equal => compare_by(ComparisonOperator::Equal, left, right, out),
        ComparisonOperator::NotEqual => compare_by(ComparisonOperator::NotEqual, left, right, out),
        ComparisonOperator::Less => compare_by(ComparisonOperator::Less, left, right, out),
        ComparisonOperator::LessOrEqual => {
            compare_by(ComparisonOperator::LessOrEqual, left, right, out)
        }
        ComparisonOperator::Greater => compare_by(ComparisonOperator::Greater, left, right, out),
        ComparisonOperator::GreaterOrEqual => {
            compare_by(ComparisonOperator::GreaterOrEqual, left, right, out)
        }
    }
}

/// One number in each of eight lanes where it equals the integer, the other one elsewhere.
#[inline(always)]
fn choose_equal_to(left: &[i64], start: usize, right: &i64, equal: u64, other: u64) -> u64x8
    requires { start + 8 ≤ length left.now }
    ensures { result ≡ map (λ a. cond (int_eq a right.now) equal other) (chunk start 8 left.now) }
{
    look_at_eight(left, start);
    look_at(right);
    i64x8::from_slice(&left[start..])
        .simd_eq(i64x8::splat(*right))
        .select(u64x8::splat(equal), u64x8::splat(other))
}

/// One number in each of eight lanes where it is less than the integer, the other one elsewhere.
#[inline(always)]
fn choose_less_than(left: &[i64], start: usize, right: &i64, less: u64, other: u64) -> u64x8
    requires { start + 8 ≤ length left.now }
    ensures { result ≡ map (λ a. cond (int_lt a right.now) less other) (chunk start 8 left.now) }
{
    look_at_eight(left, start);
    look_at(right);
    i64x8::from_slice(&left[start..])
        .simd_lt(i64x8::splat(*right))
        .select(u64x8::splat(less), u64x8::splat(other))
}

/// One number in each of eight lanes where it is greater than the integer, the other one elsewhere.
#[inline(always)]
fn choose_greater_than(left: &[i64], start: usize, right: &i64, greater: u64, other: u64) -> u64x8
    requires { start + 8 ≤ length left.now }
    ensures { result ≡ map (λ a. cond (int_lt right.now a) greater other) (chunk start 8 left.now) }
{
    look_at_eight(left, start);
    look_at(right);
    i64x8::splat(*right)
        .simd_lt(i64x8::from_slice(&left[start..]))
        .select(u64x8::splat(greater), u64x8::splat(other))
}

/// 1 in each of eight lanes where the comparison with the integer holds, else 0.
#[inline(always)]
fn bits_of_eight_to(op: ComparisonOperator, left: &[i64], start: usize, right: &i64) -> u64x8
    requires { start + 8 ≤ length left.now }
    ensures { result ≡ map (λ a. from_bool (test op (int_cmp a right.now))) (chunk start 8 left.now) }
{
    match op {
        ComparisonOperator::Equal => choose_equal_to(left, start, right, 1, 0),
        ComparisonOperator::NotEqual => choose_equal_to(left, start, right, 0, 1),
        ComparisonOperator::Less => choose_less_than(left, start, right, 1, 0),
        ComparisonOperator::LessOrEqual => choose_greater_than(left, start, right, 0, 1),
        ComparisonOperator::Greater => choose_greater_than(left, start, right, 1, 0),
        ComparisonOperator::GreaterOrEqual => choose_less_than(left, start, right, 0, 1),
    }
}

/// The bits of eight lanes more.
#[inline(always)]
fn compare_eight_to(op: ComparisonOperator, left: &[i64], right: &i64, start: usize, out: &mut [u8])
    requires long { length left.now ≡ length out.old }
    requires within { start + 8 ≤ length out.old }
    requires filled { AreFilled 0 (length out.old) start (compared_to_bit op left.now right.now)
        out.old }
    ensures { AreFilled 0 (length out.old) (start + 8) (compared_to_bit op left.now right.now)
        out.new }
{
    let bits = bits_of_eight_to(op, left, start, right);
    bits.cast::<u8>().copy_to_slice(&mut out[start..]);
}

#[inline(always)]
fn bit_beside(op: ComparisonOperator, left: &[i64], lane: usize, right: &i64) -> u8
    requires { lane < length left.now }
    ensures { result ≡ compared_to_bit op left.now right.now lane }
{
    u8::from(holds(op, left[lane], *right))
}

#[inline(always)]
fn compare_to_by(op: ComparisonOperator, left: &[i64], right: &i64, out: &mut [u8])
    requires { length left.now ≡ length out.old }
    ensures { AreLanes 0 (length out.old) (compared_to_bit op left.now right.now) out.new }
{
    let eights = out.len() / 8;
    for eight in 0..eights {
        compare_eight_to(op, left, right, 8 * eight, out);
    }
    for lane in 8 * eights..out.len() {
        out[lane] = bit_beside(op, left, lane, right);
    }
}

/// 1 in each lane where the comparison with the integer holds, else 0.
pub fn compare_ints_to(op: ComparisonOperator, left: &[i64], right: i64, out: &mut [u8])
    requires { length left.now ≡ length out.old }
    ensures { AreLanes 0 (length out.old) (compared_to_bit op left.now right) out.new }
{
    match op {
        ComparisonOperator::Equal => compare_to_by(ComparisonOperator::Equal, left, &right, out),
        ComparisonOperator::NotEqual => {
            compare_to_by(ComparisonOperator::NotEqual, left, &right, out)
        }
        ComparisonOperator::Less => compare_to_by(ComparisonOperator::Less, left, &right, out),
        ComparisonOperator::LessOrEqual => {
            compare_to_by(ComparisonOperator::LessOrEqual, left, &right, out)
        }
        ComparisonOperator::Greater => {
            compare_to_by(ComparisonOperator::Greater, left, &right, out)
        }
        ComparisonOperator::GreaterOrEqual => {
            compare_to_by(ComparisonOperator::GreaterOrEqual, left, &right, out)
        }
    }
}
