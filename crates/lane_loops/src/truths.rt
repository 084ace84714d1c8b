//! Three-valued AND, OR and NOT, lane by lane.
ghost use Rattle.std.specs.Prelude.{◌≡◌, ◌<◌, length};
ghost use Rattle.meaning.specs.declared.outcome.Truth.TheVariants.{Unknown};
ghost use Rattle.meaning.specs.Truth.{and3, not3, or3};
ghost use Rattle.lane_loops.specs.Lanes.{AreLanes, truth_at};

use meaning::Truth;

#[inline(always)]
fn and(left: Truth, right: Truth) -> Truth
    ensures { result ≡ and3 left right }
{
    // No short circuit, so that there is no branch.
    if matches!(left, Truth::False) | matches!(right, Truth::False) {
        return Truth::False;
    }
    if matches!(left, Truth::Unknown) | matches!(right, Truth::Unknown) {
        return Truth::Unknown;
    }
    Truth::True
}

#[inline(always)]
fn or(left: Truth, right: Truth) -> Truth
    ensures { result ≡ or3 left right }
{
    if matches!(left, Truth::True) | matches!(right, Truth::True) {
        return Truth::True;
    }
    if matches!(left, Truth::Unknown) | matches!(right, Truth::Unknown) {
        return Truth::Unknown;
    }
    Truth::False
}

#[inline(always)]
fn and_at(left: &[Truth], right: &[Truth], lane: usize) -> Truth
    requires left { lane < length left.now }
    requires right { lane < length right.now }
    ensures { result ≡ and3 (truth_at left.now lane) (truth_at right.now lane) }
{
    and(left[lane], right[lane])
}

/// AND of each two lanes.
pub fn and_truths(left: &[Truth], right: &[Truth], out: &mut [Truth])
    requires left { length left.now ≡ length out.old }
    requires right { length right.now ≡ length out.old }
    ensures { AreLanes Unknown (length out.old)
        (λ i. and3 (truth_at left.now i) (truth_at right.now i)) out.new }
{
    for i in 0..out.len() {
        out[i] = and_at(left, right, i);
    }
}

#[inline(always)]
fn or_at(left: &[Truth], right: &[Truth], lane: usize) -> Truth
    requires left { lane < length left.now }
    requires right { lane < length right.now }
    ensures { result ≡ or3 (truth_at left.now lane) (truth_at right.now lane) }
{
    or(left[lane], right[lane])
}

/// OR of each two lanes.
pub fn or_truths(left: &[Truth], right: &[Truth], out: &mut [Truth])
    requires left { length left.now ≡ length out.old }
    requires right { length right.now ≡ length out.old }
    ensures { AreLanes Unknown (length out.old)
        (λ i. or3 (truth_at left.now i) (truth_at right.now i)) out.new }
{
    for i in 0..out.len() {
        out[i] = or_at(left, right, i);
    }
}

#[inline(always)]
fn not_at(truths: &[Truth], lane: usize) -> Truth
    requires { lane < length truths.now }
    ensures { result ≡ not3 (truth_at truths.now lane) }
{
    match truths[lane] {
        Truth::True => Truth::False,
        Truth::False => Truth::True,
        Truth::Unknown => Truth::Unknown,
    }
}

/// NOT of each lane.
pub fn not_truths(truths: &[Truth], out: &mut [Truth])
    requires { length truths.now ≡ length out.old }
    ensures { AreLanes Unknown (length out.old) (λ i. not3 (truth_at truths.now i)) out.new }
{
    for i in 0..out.len() {
        out[i] = not_at(truths, i);
    }
}
