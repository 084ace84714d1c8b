//! NULLs of lanes.
ghost use Rattle.std.specs.Prelude.{◌≡◌, ◌<◌, ◌||◌, false, not, length};
ghost use Rattle.meaning.specs.declared.outcome.Truth.TheVariants.{Unknown};
ghost use Rattle.meaning.specs.Truth.{known};
ghost use Rattle.lane_loops.specs.Lanes.{AreLanes, null_at};

use meaning::Truth;

#[inline(always)]
fn either_at(left: &[bool], right: &[bool], lane: usize) -> bool
    requires left { lane < length left.now }
    requires right { lane < length right.now }
    ensures { result ≡ (null_at left.now lane || null_at right.now lane) }
{
    left[lane] | right[lane]
}

/// Which lanes are NULL of an operator that gives NULL where either operand is.
pub fn or_nulls(left: &[bool], right: &[bool], out: &mut [bool])
    requires left { length left.now ≡ length out.old }
    requires right { length right.now ≡ length out.old }
    ensures { AreLanes false (length out.old) (λ i. null_at left.now i || null_at right.now i)
        out.new }
{
    for i in 0..out.len() {
        out[i] = either_at(left, right, i);
    }
}

#[inline(always)]
fn known(test: bool) -> Truth
    ensures { result ≡ known test }
{
    if test { Truth::True } else { Truth::False }
}

#[inline(always)]
fn null_test(nulls: &[bool], lane: usize) -> Truth
    requires { lane < length nulls.now }
    ensures { result ≡ known (null_at nulls.now lane) }
{
    known(nulls[lane])
}

/// IS NULL of each lane. Never UNKNOWN.
pub fn are_null(nulls: &[bool], out: &mut [Truth])
    requires { length nulls.now ≡ length out.old }
    ensures { AreLanes Unknown (length out.old) (λ i. known (null_at nulls.now i)) out.new }
{
    for i in 0..out.len() {
        out[i] = null_test(nulls, i);
    }
}

#[inline(always)]
fn value_test(nulls: &[bool], lane: usize) -> Truth
    requires { lane < length nulls.now }
    ensures { result ≡ known (not (null_at nulls.now lane)) }
{
    known(!nulls[lane])
}

/// IS NOT NULL of each lane. Never UNKNOWN.
pub fn are_not_null(nulls: &[bool], out: &mut [Truth])
    requires { length nulls.now ≡ length out.old }
    ensures { AreLanes Unknown (length out.old) (λ i. known (not (null_at nulls.now i))) out.new }
{
    for i in 0..out.len() {
        out[i] = value_test(nulls, i);
    }
}
