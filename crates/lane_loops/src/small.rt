//! Arithmetic on small integers, of which no result is beyond 64 bits: no flag is kept of a
//! lane.
ghost use Rattle.std.specs.Prelude.{◌≡◌, ◌<◌, ◌+ℤ◌, ◌-ℤ◌, ◌*ℤ◌, true, false, length, set};
ghost use Rattle.std.specs.Int.{int_wrap, w64};
ghost use Rattle.lane_loops.specs.Lanes.{int_at};
ghost use Rattle.lane_loops.specs.Small.{AreSmall, AreResults, IsSmall, IsShort, arith_int, limit_of};

use crate::multiplying::wrapped_product;
use meaning::ArithmeticOperator;

#[inline(always)]
fn wrapped_sum(left: i64, right: i64) -> i64
    ensures { result ≡ int_wrap w64 (left +ℤ right) }
{
    left.wrapping_add(right)
}

#[inline(always)]
fn wrapped_difference(left: i64, right: i64) -> i64
    ensures { result ≡ int_wrap w64 (left -ℤ right) }
{
    left.wrapping_sub(right)
}

/// How far the integer is above -2^62. Where it isn't within 2^62 of zero, that is 2^63 or more.
#[inline(always)]
fn distance(int: &i64) -> u64
    ensures { result < 9223372036854775808 → IsSmall int.now }
{
    int.abs_diff(i64::MIN)
        .wrapping_sub(4_611_686_018_427_387_904)
}

/// How far it is above -2^31. Where 32 bits don't hold it, that is 2^32 or more.
#[inline(always)]
fn short_distance(int: &i64) -> u64
    ensures { result < 4294967296 → IsShort int.now }
{
    int.abs_diff(i64::MIN)
        .wrapping_sub(9_223_372_034_707_292_160)
}

/// The bits of how far both operands are: below the limit 64 bits hold the result.
#[inline(always)]
fn distance_bits(op: ArithmeticOperator, left: &i64, right: &i64) -> u64
    ensures { result < limit_of op → AreSmall op left.now right.now }
{
    match op {
        ArithmeticOperator::Add => distance(left) | distance(right),
        ArithmeticOperator::Subtract => distance(left) | distance(right),
        ArithmeticOperator::Multiply => short_distance(left) | short_distance(right),
        ArithmeticOperator::Divide => 0,
    }
}

#[inline(always)]
fn limit(op: ArithmeticOperator) -> u64
    ensures { result ≡ limit_of op }
{
    match op {
        ArithmeticOperator::Add => 9_223_372_036_854_775_808,
        ArithmeticOperator::Subtract => 9_223_372_036_854_775_808,
        ArithmeticOperator::Multiply => 4_294_967_296,
        ArithmeticOperator::Divide => 0,
    }
}

/// The integer, where 32 bits hold it: what its lowest 32 bits say. So the compiler sees that a
/// product of two such is one of 32 bits by 32, for which the processor has an instruction.
#[inline(always)]
fn shortened(int: i64) -> i64
    ensures { IsShort int → result ≡ int }
{
    wrapped_product(int, 4_294_967_296) >> 32
}

#[inline(always)]
fn short_product(left: i64, right: i64) -> i64
    ensures { IsShort left → IsShort right → result ≡ int_wrap w64 (left *ℤ right) }
{
    wrapped_product(shortened(left), shortened(right))
}

#[inline(always)]
fn small_result(op: ArithmeticOperator, left: i64, right: i64) -> i64
    ensures { AreSmall op left right → result ≡ arith_int op left right }
{
    match op {
        ArithmeticOperator::Add => wrapped_sum(left, right),
        ArithmeticOperator::Subtract => wrapped_difference(left, right),
        ArithmeticOperator::Multiply => short_product(left, right),
        ArithmeticOperator::Divide => left,
    }
}

/// The integer, where the bits are below the limit. An integer that is one for all lanes would be
/// shortened before the loop, and in the loop the compiler would no longer see that 32 bits hold
/// it; what depends on the lane's bits it shortens there.
#[inline(always)]
fn kept(op: ArithmeticOperator, int: i64, bits: u64) -> i64
    ensures { bits < limit_of op → result ≡ int }
{
    match op {
        ArithmeticOperator::Multiply => int.wrapping_add_unsigned(bits >> 32),
        _ => int,
    }
}

/// Puts the result into its lane. It may be another one where the bits are at the limit or above.
#[inline(always)]
fn put_result(op: ArithmeticOperator, left: &i64, right: &i64, lane: usize, out: &mut [i64]) -> u64
    requires { lane < length out.old }
    ensures long { length out.new ≡ length out.old }
    ensures small { result < limit_of op → AreSmall op left.now right.now }
    ensures put { result < limit_of op
        → out.new ≡ set out.old lane (arith_int op left.now right.now) }
{
    // Before the write, so that no operand is read again behind it.
    let bits = distance_bits(op, left, right);
    out[lane] = small_result(op, *left, *right);
    bits
}

#[inline(always)]
fn put_of_two(
    op: ArithmeticOperator,
    left: &[i64],
    right: &[i64],
    lane: usize,
    out: &mut [i64],
) -> u64
    requires left { lane < length left.now }
    requires right { lane < length right.now }
    requires out { lane < length out.old }
    ensures long { length out.new ≡ length out.old }
    ensures small { result < limit_of op
        → AreSmall op (int_at left.now lane) (int_at right.now lane) }
    ensures put { result < limit_of op
        → out.new ≡ set out.old lane (arith_int op (int_at left.now lane) (int_at right.now lane)) }
{
    put_result(op, &left[lane], &right[lane], lane, out)
}

#[inline(always)]
fn operate_by(op: ArithmeticOperator, left: &[i64], right: &[i64], out: &mut [i64]) -> bool
    requires left { length left.now ≡ length out.old }
    requires right { length right.now ≡ length out.old }
    ensures long { length out.new ≡ length out.old }
    ensures small { result ≡ false
        → AreResults op (length out.old) (length out.old) (int_at left.now) (int_at right.now)
        out.new }
{
    let mut bits = 0;
    for i in 0..out.len() {
        bits |= put_of_two(op, left, right, i, out);
    }
    bits >= limit(op)
}

/// The results of an operator lane by lane, where none is beyond 64 bits. True where that isn't
/// clear; `out` is open then. Of division it never is.
pub fn operate_small(op: ArithmeticOperator, left: &[i64], right: &[i64], out: &mut [i64]) -> bool
    requires left { length left.now ≡ length out.old }
    requires right { length right.now ≡ length out.old }
    ensures long { length out.new ≡ length out.old }
    ensures small { result ≡ false
        → AreResults op (length out.old) (length out.old) (int_at left.now) (int_at right.now)
        out.new }
{
    // A loop for each operator, so that none is looked at in each lane.
    match op {
        ArithmeticOperator::Add => operate_by(ArithmeticOperator::Add, left, right, out),
        ArithmeticOperator::Subtract => operate_by(ArithmeticOperator::Subtract, left, right, out),
        ArithmeticOperator::Multiply => operate_by(ArithmeticOperator::Multiply, left, right, out),
        ArithmeticOperator::Divide => true,
    }
}

#[inline(always)]
fn put_beside(
    op: ArithmeticOperator,
    left: &[i64],
    lane: usize,
    right: &i64,
    out: &mut [i64],
) -> u64
    requires left { lane < length left.now }
    requires out { lane < length out.old }
    ensures long { length out.new ≡ length out.old }
    ensures small { result < limit_of op → AreSmall op (int_at left.now lane) right.now }
    ensures put { result < limit_of op
        → out.new ≡ set out.old lane (arith_int op (int_at left.now lane) right.now) }
{
    let bits = distance_bits(op, &left[lane], right);
    out[lane] = small_result(op, left[lane], kept(op, *right, bits));
    bits
}

#[inline(always)]
fn operate_to_by(op: ArithmeticOperator, left: &[i64], right: &i64, out: &mut [i64]) -> bool
    requires { length left.now ≡ length out.old }
    ensures long { length out.new ≡ length out.old }
    ensures small { result ≡ false
        → AreResults op (length out.old) (length out.old) (int_at left.now)
        (λ _. right.now) out.new }
{
    let mut bits = 0;
    for i in 0..out.len() {
        bits |= put_beside(op, left, i, right, out);
    }
    bits >= limit(op)
}

/// The same with one integer on the right.
pub fn operate_small_to(op: ArithmeticOperator, left: &[i64], right: &i64, out: &mut [i64]) -> bool
    requires { length left.now ≡ length out.old }
    ensures long { length out.new ≡ length out.old }
    ensures small { result ≡ false
        → AreResults op (length out.old) (length out.old) (int_at left.now)
        (λ _. right.now) out.new }
{
    // A copy that no write to `out` can touch.
    let right = *right;
    match op {
        ArithmeticOperator::Add => operate_to_by(ArithmeticOperator::Add, left, &right, out),
        ArithmeticOperator::Subtract => operate_to_by(
            ArithmeticOperator::Subtract,
            left,
            &right,
            out,
        ),
        ArithmeticOperator::Multiply => operate_to_by(
            ArithmeticOperator::Multiply,
            left,
            &right,
            out,
        ),
        ArithmeticOperator::Divide => true,
    }
}

#[inline(always)]
fn put_behind(
    op: ArithmeticOperator,
    left: &i64,
    right: &[i64],
    lane: usize,
    out: &mut [i64],
) -> u64
    requires right { lane < length right.now }
    requires out { lane < length out.old }
    ensures long { length out.new ≡ length out.old }
    ensures small { result < limit_of op → AreSmall op left.now (int_at right.now lane) }
    ensures put { result < limit_of op
        → out.new ≡ set out.old lane (arith_int op left.now (int_at right.now lane)) }
{
    let bits = distance_bits(op, left, &right[lane]);
    out[lane] = small_result(op, kept(op, *left, bits), right[lane]);
    bits
}

#[inline(always)]
fn operate_from_by(op: ArithmeticOperator, left: &i64, right: &[i64], out: &mut [i64]) -> bool
    requires { length right.now ≡ length out.old }
    ensures long { length out.new ≡ length out.old }
    ensures small { result ≡ false
        → AreResults op (length out.old) (length out.old) (λ _. left.now)
        (int_at right.now) out.new }
{
    let mut bits = 0;
    for i in 0..out.len() {
        bits |= put_behind(op, left, right, i, out);
    }
    bits >= limit(op)
}

/// The same with one integer on the left.
pub fn operate_small_from(
    op: ArithmeticOperator,
    left: &i64,
    right: &[i64],
    out: &mut [i64],
) -> bool
    requires { length right.now ≡ length out.old }
    ensures long { length out.new ≡ length out.old }
    ensures small { result ≡ false
        → AreResults op (length out.old) (length out.old) (λ _. left.now)
        (int_at right.now) out.new }
{
    let left = *left;
    match op {
        ArithmeticOperator::Add => operate_from_by(ArithmeticOperator::Add, &left, right, out),
        ArithmeticOperator::Subtract => operate_from_by(
            ArithmeticOperator::Subtract,
            &left,
            right,
            out,
        ),
        ArithmeticOperator::Multiply => operate_from_by(
            ArithmeticOperator::Multiply,
            &left,
            right,
            out,
        ),
        ArithmeticOperator::Divide => true,
    }
}
