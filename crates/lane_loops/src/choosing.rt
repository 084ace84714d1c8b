//! Choice between lanes, and between truths and masks: for CASE, COALESCE and conditions.
ghost use Rattle.std.specs.Prelude.{◌≡◌, ◌<◌, false, length, if◌then◌else◌};
ghost use Rattle.meaning.specs.declared.outcome.Truth.TheVariants.{Unknown};
ghost use Rattle.meaning.specs.Truth.{is_true};
ghost use Rattle.lane_loops.specs.Lanes.{AreChosen, AreLanes, chosen_lane, not_false_at, not_true_at, truth_at, truth_of_bit, truth_or_unknown};

use meaning::Truth;

#[inline(always)]
fn chosen_at<T: Copy>(mask: &[bool], yes: &[T], no: &[T], lane: usize) -> T
    requires mask { lane < length mask.now }
    requires yes { lane < length yes.now }
    requires no { lane < length no.now }
    ensures { (d : T) → result ≡ chosen_lane d mask.now yes.now no.now lane }
{
    // Both are read, so that there is no branch.
    let (this, that) = (yes[lane], no[lane]);
    if mask[lane] { this } else { that }
}

/// The lane of `yes` where the mask marks it, else that of `no`. CASE chooses by which lanes are
/// TRUE (`true_lanes`), COALESCE by which are NULL; both choose cells and NULLs alike.
pub fn choose<T: Copy>(mask: &[bool], yes: &[T], no: &[T], out: &mut [T])
    requires mask { length mask.now ≡ length out.old }
    requires yes { length yes.now ≡ length out.old }
    requires no { length no.now ≡ length out.old }
    ensures { AreChosen (length out.old) mask.now yes.now no.now out.new }
{
    for i in 0..out.len() {
        out[i] = chosen_at(mask, yes, no, i);
    }
}

#[inline(always)]
fn is_true_at(truths: &[Truth], lane: usize) -> bool
    requires { lane < length truths.now }
    ensures { result ≡ is_true (truth_at truths.now lane) }
{
    matches!(truths[lane], Truth::True)
}

/// Which lanes are TRUE.
pub fn true_lanes(truths: &[Truth], out: &mut [bool])
    requires { length truths.now ≡ length out.old }
    ensures { AreLanes false (length out.old) (λ i. is_true (truth_at truths.now i)) out.new }
{
    for i in 0..out.len() {
        out[i] = is_true_at(truths, i);
    }
}

#[inline(always)]
fn is_not_false_at(truths: &[Truth], lane: usize) -> bool
    requires { lane < length truths.now }
    ensures { result ≡ not_false_at truths.now lane }
{
    !matches!(truths[lane], Truth::False)
}

/// Which lanes aren't FALSE: those on which AND has its right side evaluated.
pub fn not_false_lanes(truths: &[Truth], out: &mut [bool])
    requires { length truths.now ≡ length out.old }
    ensures { AreLanes false (length out.old) (not_false_at truths.now) out.new }
{
    for i in 0..out.len() {
        out[i] = is_not_false_at(truths, i);
    }
}

#[inline(always)]
fn is_not_true_at(truths: &[Truth], lane: usize) -> bool
    requires { lane < length truths.now }
    ensures { result ≡ not_true_at truths.now lane }
{
    !matches!(truths[lane], Truth::True)
}

/// Which lanes aren't TRUE: those on which OR has its right side evaluated.
pub fn not_true_lanes(truths: &[Truth], out: &mut [bool])
    requires { length truths.now ≡ length out.old }
    ensures { AreLanes false (length out.old) (not_true_at truths.now) out.new }
{
    for i in 0..out.len() {
        out[i] = is_not_true_at(truths, i);
    }
}

#[inline(always)]
fn known_at(bits: &[u8], lane: usize) -> Truth
    requires { lane < length bits.now }
    ensures { result ≡ truth_of_bit bits.now lane }
{
    if bits[lane] == 0 {
        Truth::False
    } else {
        Truth::True
    }
}

/// FALSE where the bit is 0, else TRUE.
pub fn truths_of_bits(bits: &[u8], out: &mut [Truth])
    requires { length bits.now ≡ length out.old }
    ensures { AreLanes Unknown (length out.old) (truth_of_bit bits.now) out.new }
{
    for i in 0..out.len() {
        out[i] = known_at(bits, i);
    }
}

#[inline(always)]
fn known_unless_null(nulls: &[bool], bits: &[u8], lane: usize) -> Truth
    requires nulls { lane < length nulls.now }
    requires bits { lane < length bits.now }
    ensures { result ≡ truth_or_unknown nulls.now bits.now lane }
{
    // Read in any case, so that there is no branch.
    let known = known_at(bits, lane);
    if nulls[lane] { Truth::Unknown } else { known }
}

/// UNKNOWN where the lane is NULL; else FALSE where the bit is 0, and TRUE where it isn't.
pub fn truths_unless_null(nulls: &[bool], bits: &[u8], out: &mut [Truth])
    requires nulls { length nulls.now ≡ length out.old }
    requires bits { length bits.now ≡ length out.old }
    ensures { AreLanes Unknown (length out.old) (truth_or_unknown nulls.now bits.now) out.new }
{
    for i in 0..out.len() {
        out[i] = known_unless_null(nulls, bits, i);
    }
}
