//! Sums and differences of integers lane by lane, with a flag where 64 bits don't hold them.
ghost use Rattle.std.specs.Prelude.{◌≡◌, ◌<◌, ◌≤◌, ◌+◌, ◌+ℤ◌, ◌-ℤ◌, length, pos};
ghost use Rattle.std.specs.Int.{int_wrap, w64};
ghost use Rattle.lane_kernels.specs.Lanes.{AreFilled, AreLanes, int_at, overflow_bit};

use crate::looking::look_at_eight;
use std::simd::prelude::*;

/// The sums of eight lanes more, and their flags: a sum wrapped where either it is less than the
/// left integer or the right one is negative. Both are stored last, so that each lane is loaded
/// once.
#[inline(always)]
fn put_sums(left: &[i64], right: &[i64], start: usize, out: &mut [i64], over: &mut [u8])
    requires left { length left.now ≡ length out.old }
    requires right { length right.now ≡ length out.old }
    requires long { length over.old ≡ length out.old }
    requires within { start + 8 ≤ length out.old }
    requires sums { AreFilled (pos 0) (length out.old) start
        (λ i. int_wrap w64 (int_at left.now i +ℤ int_at right.now i)) out.old }
    requires flags { AreFilled 0 (length out.old) start
        (λ i. overflow_bit (int_at left.now i +ℤ int_at right.now i)) over.old }
    ensures sums { AreFilled (pos 0) (length out.old) (start + 8)
        (λ i. int_wrap w64 (int_at left.now i +ℤ int_at right.now i)) out.new }
    ensures flags { AreFilled 0 (length out.old) (start + 8)
        (λ i. overflow_bit (int_at left.now i +ℤ int_at right.now i)) over.new }
{
    look_at_eight(left, start);
    look_at_eight(right, start);
    let l = i64x8::from_slice(&left[start..]);
    let r = i64x8::from_slice(&right[start..]);
    let sums = l + r;
    let flags = (sums.simd_lt(l) ^ r.simd_lt(i64x8::splat(0))).select(
        u64x8::splat(1),
        u64x8::splat(0),
    );
    sums.copy_to_slice(&mut out[start..]);
    flags.cast::<u8>().copy_to_slice(&mut over[start..]);
}

#[inline(always)]
fn wrapped_sum(left: i64, right: i64) -> i64
    ensures { result ≡ int_wrap w64 (left +ℤ right) }
{
    left.wrapping_add(right)
}

#[inline(always)]
fn sum_of(left: &[i64], right: &[i64], lane: usize) -> i64
    requires left { lane < length left.now }
    requires right { lane < length right.now }
    ensures { result ≡ int_wrap w64 (int_at left.now lane +ℤ int_at right.now lane) }
{
    wrapped_sum(left[lane], right[lane])
}

#[inline(always)]
fn sum_overflow(left: &[i64], right: &[i64], lane: usize) -> u8
    requires left { lane < length left.now }
    requires right { lane < length right.now }
    ensures { result ≡ overflow_bit (int_at left.now lane +ℤ int_at right.now lane) }
{
    let (_, is_over) = left[lane].overflowing_add(right[lane]);
    u8::from(is_over)
}

/// The sums, wrapped to 64 bits, and 1 in `over` where the exact one isn't held by these, else 0.
pub fn add_ints(left: &[i64], right: &[i64], out: &mut [i64], over: &mut [u8])
    requires left { length left.now ≡ length out.old }
    requires right { length right.now ≡ length out.old }
    requires over { length over.old ≡ length out.old }
    ensures wrapped { AreLanes (pos 0) (length out.old)
        (λ i. int_wrap w64 (int_at left.now i +ℤ int_at right.now i)) out.new }
    ensures over { AreLanes 0 (length out.old)
        (λ i. overflow_bit (int_at left.now i +ℤ int_at right.now i)) over.new }
{
    let eights = out.len() / 8;
    for eight in 0..eights {
        put_sums(left, right, 8 * eight, out, over);
    }
    for lane in 8 * eights..out.len() {
        over[lane] = sum_overflow(left, right, lane);
    }
    for lane in 8 * eights..out.len() {
        out[lane] = sum_of(left, right, lane);
    }
}

/// The differences of eight lanes more, and their flags: one wrapped where either it is negative or
/// the left integer is less than the right one.
#[inline(always)]
fn put_differences(left: &[i64], right: &[i64], start: usize, out: &mut [i64], over: &mut [u8])
    requires left { length left.now ≡ length out.old }
    requires right { length right.now ≡ length out.old }
    requires long { length over.old ≡ length out.old }
    requires within { start + 8 ≤ length out.old }
    requires differences { AreFilled (pos 0) (length out.old) start
        (λ i. int_wrap w64 (int_at left.now i -ℤ int_at right.now i)) out.old }
    requires flags { AreFilled 0 (length out.old) start
        (λ i. overflow_bit (int_at left.now i -ℤ int_at right.now i)) over.old }
    ensures differences { AreFilled (pos 0) (length out.old) (start + 8)
        (λ i. int_wrap w64 (int_at left.now i -ℤ int_at right.now i)) out.new }
    ensures flags { AreFilled 0 (length out.old) (start + 8)
        (λ i. overflow_bit (int_at left.now i -ℤ int_at right.now i)) over.new }
{
    look_at_eight(left, start);
    look_at_eight(right, start);
    let l = i64x8::from_slice(&left[start..]);
    let r = i64x8::from_slice(&right[start..]);
    let differences = l - r;
    let flags = (l.simd_lt(r) ^ differences.simd_lt(i64x8::splat(0))).select(
        u64x8::splat(1),
        u64x8::splat(0),
    );
    differences.copy_to_slice(&mut out[start..]);
    flags.cast::<u8>().copy_to_slice(&mut over[start..]);
}

#[inline(always)]
fn wrapped_difference(left: i64, right: i64) -> i64
    ensures { result ≡ int_wrap w64 (left -ℤ right) }
{
    left.wrapping_sub(right)
}

#[inline(always)]
fn difference_of(left: &[i64], right: &[i64], lane: usize) -> i64
    requires left { lane < length left.now }
    requires right { lane < length right.now }
    ensures { result ≡ int_wrap w64 (int_at left.now lane -ℤ int_at right.now lane) }
{
    wrapped_difference(left[lane], right[lane])
}

#[inline(always)]
fn difference_overflow(left: &[i64], right: &[i64], lane: usize) -> u8
    requires left { lane < length left.now }
    requires right { lane < length right.now }
    ensures { result ≡ overflow_bit (int_at left.now lane -ℤ int_at right.now lane) }
{
    let (_, is_over) = left[lane].overflowing_sub(right[lane]);
    u8::from(is_over)
}

/// The differences, wrapped to 64 bits, and 1 in `over` where the exact one isn't held by these,
/// else 0.
pub fn sub_ints(left: &[i64], right: &[i64], out: &mut [i64], over: &mut [u8])
    requires left { length left.now ≡ length out.old }
    requires right { length right.now ≡ length out.old }
    requires over { length over.old ≡ length out.old }
    ensures wrapped { AreLanes (pos 0) (length out.old)
        (λ i. int_wrap w64 (int_at left.now i -ℤ int_at right.now i)) out.new }
    ensures over { AreLanes 0 (length out.old)
        (λ i. overflow_bit (int_at left.now i -ℤ int_at right.now i)) over.new }
{
    let eights = out.len() / 8;
    for eight in 0..eights {
        put_differences(left, right, 8 * eight, out, over);
    }
    for lane in 8 * eights..out.len() {
        over[lane] = difference_overflow(left, right, lane);
    }
    for lane in 8 * eights..out.len() {
        out[lane] = difference_of(left, right, lane);
    }
}
