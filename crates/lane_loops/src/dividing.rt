//! Division and negation lane by lane, with the code of the fault where a lane has one.
ghost use Rattle.std.specs.Prelude.{◌≡◌, ◌<◌, pos, neg_ℤ, length, set, All};
ghost use Rattle.std.specs.Int.{int_wrap, w64};
ghost use Rattle.meaning.specs.declared.expr.ArithmeticOperator.TheVariants.{Divide};
ghost use Rattle.meaning.specs.Operators.{of_integers};
ghost use Rattle.lane_loops.specs.Lanes.{AreLanes, AreLanesAt, fault_code, int_at, overflow_bit, quotient};

#[inline(always)]
fn division_code(dividend: i64, divisor: i64) -> u8
    ensures { result ≡ fault_code (of_integers Divide dividend divisor) }
{
    if divisor == 0 {
        return 2;
    }
    u8::from(dividend.checked_div(divisor).is_none())
}

#[inline(always)]
fn quotient_or_dividend(dividend: i64, divisor: i64) -> i64
    ensures { result ≡ quotient dividend divisor }
{
    match dividend.checked_div(divisor) {
        Some(quotient) => quotient,
        None => dividend,
    }
}

#[inline(always)]
fn put_quotient(left: &[i64], right: &[i64], lane: usize, out: &mut [i64], codes: &mut [u8])
    requires left { lane < length left.now }
    requires right { lane < length right.now }
    requires out { lane < length out.old }
    requires codes { lane < length codes.old }
    ensures value { out.new ≡ set out.old lane
        (quotient (int_at left.now lane) (int_at right.now lane)) }
    ensures code { codes.new
        ≡ set codes.old lane (fault_code
        (of_integers Divide (int_at left.now lane) (int_at right.now lane))) }
{
    codes[lane] = division_code(left[lane], right[lane]);
    out[lane] = quotient_or_dividend(left[lane], right[lane]);
}

/// The quotients, rounded towards zero, and 0 in `codes`. Where there is none, the lane holds
/// the dividend and `codes` the fault's code: 1 where 64 bits don't hold the quotient, 2 where the
/// divisor is 0.
pub fn div_ints(left: &[i64], right: &[i64], out: &mut [i64], codes: &mut [u8])
    requires left { length left.now ≡ length out.old }
    requires right { length right.now ≡ length out.old }
    requires codes { length codes.old ≡ length out.old }
    ensures value { AreLanes (pos 0) (length out.old)
        (λ i. quotient (int_at left.now i) (int_at right.now i)) out.new }
    ensures code { AreLanes 0 (length out.old)
        (λ i. fault_code (of_integers Divide (int_at left.now i) (int_at right.now i))) codes.new }
{
    for i in 0..out.len() {
        put_quotient(left, right, i, out, codes);
    }
}

/// The same in the lanes at these positions. What stands in the other lanes is open.
pub fn div_ints_at(
    left: &[i64],
    right: &[i64],
    positions: &[u32],
    out: &mut [i64],
    codes: &mut [u8],
)
    requires left { length left.now ≡ length out.old }
    requires right { length right.now ≡ length out.old }
    requires codes { length codes.old ≡ length out.old }
    requires within { All (λ p. p < length out.old) positions.now }
    ensures value { AreLanesAt (pos 0) positions.now
        (λ i. quotient (int_at left.now i) (int_at right.now i)) out.new }
    ensures code { AreLanesAt 0 positions.now
        (λ i. fault_code (of_integers Divide (int_at left.now i) (int_at right.now i))) codes.new }
{
    for position in positions {
        put_quotient(left, right, *position as usize, out, codes);
    }
}

#[inline(always)]
fn negation_overflow(ints: &[i64], lane: usize) -> u8
    requires { lane < length ints.now }
    ensures { result ≡ overflow_bit (neg_ℤ (int_at ints.now lane)) }
{
    let (_, is_over) = ints[lane].overflowing_neg();
    u8::from(is_over)
}

#[inline(always)]
fn wrapped_negation(int: i64) -> i64
    ensures { result ≡ int_wrap w64 (neg_ℤ int) }
{
    int.wrapping_neg()
}

#[inline(always)]
fn put_negation(ints: &[i64], lane: usize, out: &mut [i64], over: &mut [u8])
    requires ints { lane < length ints.now }
    requires out { lane < length out.old }
    requires over { lane < length over.old }
    ensures wrapped { out.new ≡ set out.old lane (int_wrap w64 (neg_ℤ (int_at ints.now lane))) }
    ensures over { over.new ≡ set over.old lane (overflow_bit (neg_ℤ (int_at ints.now lane))) }
{
    over[lane] = negation_overflow(ints, lane);
    out[lane] = wrapped_negation(ints[lane]);
}

/// Each integer negated and wrapped to 64 bits, and 1 in `over` where the exact one isn't held by
/// these, else 0.
pub fn neg_ints(ints: &[i64], out: &mut [i64], over: &mut [u8])
    requires ints { length ints.now ≡ length out.old }
    requires over { length over.old ≡ length out.old }
    ensures wrapped { AreLanes (pos 0) (length out.old)
        (λ i. int_wrap w64 (neg_ℤ (int_at ints.now i))) out.new }
    ensures over { AreLanes 0 (length out.old) (λ i. overflow_bit (neg_ℤ (int_at ints.now i)))
        over.new }
{
    for i in 0..out.len() {
        put_negation(ints, i, out, over);
    }
}
