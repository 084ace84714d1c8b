//! Three-valued operators on lanes, and which lanes they leave to be evaluated.
ghost use Rattle.std.specs.Prelude.{◌≡◌, ◌<◌, ℕ, false, length, true, IfOk};
ghost use Rattle.meaning.specs.declared.outcome.Truth.TheVariants.{Unknown};
ghost use Rattle.meaning.specs.Operators.{and_of, not_of, not_if, or_of, truth_of};
ghost use Rattle.meaning.specs.Typing.{Boolean};
ghost use Rattle.lane_loops.specs.Lanes.{null_at};
ghost use Rattle.vector_operators.specs.Given.{AreNarrowed, IsLong, given_at, is_not_false, is_not_true, is_null_lane, is_of_kind, is_true_lane};

use crate::broadcast::{broadcast_truths, null_lanes};
use crate::given::Given;
use crate::lane_set::LaneSet;
use lane_loops::{and_truths, not_false_lanes, not_true_lanes, not_truths, or_truths, true_lanes};
use meaning::Truth;
use std::alloc::{AllocError, Global};
use std::mem::drop;
use vectors::{TruthCells, Truths};

/// AND of each two lanes.
pub fn and(
    alloc: Global,
    left: &Given<'_>,
    right: &Given<'_>,
    lanes: usize,
) -> Result<Given<'static>, AllocError>
    requires left { IsLong lanes left.now }
    requires right { IsLong lanes right.now }
    ensures value { IfOk result (λ g. (i : ℕ) → i < lanes
        → given_at g i ≡ and_of (given_at left.now i) (given_at right.now i)) }
    ensures long { IfOk result (IsLong lanes) }
    ensures kind { IfOk result (λ g. is_of_kind Boolean g ≡ true) }
{
    let left = broadcast_truths(alloc, left, lanes)?;
    let right = broadcast_truths(alloc, right, lanes)?;
    let mut out = vec![in alloc; Truth::Unknown; lanes]?;
    and_truths(left.as_slice(), right.as_slice(), out.as_mut_slice());
    Ok(Given::Truths(Truths::new(TruthCells::Owned(out))))
}

/// OR of each two lanes.
pub fn or(
    alloc: Global,
    left: &Given<'_>,
    right: &Given<'_>,
    lanes: usize,
) -> Result<Given<'static>, AllocError>
    requires left { IsLong lanes left.now }
    requires right { IsLong lanes right.now }
    ensures value { IfOk result (λ g. (i : ℕ) → i < lanes
        → given_at g i ≡ or_of (given_at left.now i) (given_at right.now i)) }
    ensures long { IfOk result (IsLong lanes) }
    ensures kind { IfOk result (λ g. is_of_kind Boolean g ≡ true) }
{
    let left = broadcast_truths(alloc, left, lanes)?;
    let right = broadcast_truths(alloc, right, lanes)?;
    let mut out = vec![in alloc; Truth::Unknown; lanes]?;
    or_truths(left.as_slice(), right.as_slice(), out.as_mut_slice());
    Ok(Given::Truths(Truths::new(TruthCells::Owned(out))))
}

/// NOT of each lane.
pub fn not(alloc: Global, given: &Given<'_>, lanes: usize) -> Result<Given<'static>, AllocError>
    requires { IsLong lanes given.now }
    ensures value { IfOk result (λ g. (i : ℕ) → i < lanes
        → given_at g i ≡ not_of (given_at given.now i)) }
    ensures long { IfOk result (IsLong lanes) }
    ensures kind { IfOk result (λ g. is_of_kind Boolean g ≡ true) }
{
    let truths = broadcast_truths(alloc, given, lanes)?;
    let mut out = vec![in alloc; Truth::Unknown; lanes]?;
    not_truths(truths.as_slice(), out.as_mut_slice());
    Ok(Given::Truths(Truths::new(TruthCells::Owned(out))))
}

/// NOT of each lane, where it is negated.
pub fn not_if<'a>(
    alloc: Global,
    negated: bool,
    given: Given<'a>,
    lanes: usize,
) -> Result<Given<'a>, AllocError>
    requires { IsLong lanes given }
    ensures value { IfOk result (λ g. (i : ℕ) → i < lanes
        → given_at g i ≡ not_if negated (given_at given.entry i)) }
    ensures long { IfOk result (IsLong lanes) }
    ensures kind { is_of_kind Boolean given.entry ≡ true
        → IfOk result (λ g. is_of_kind Boolean g ≡ true) }
{
    if !negated {
        return Ok(given);
    }
    let result = not(alloc, &given, lanes);
    drop(given);
    result
}

/// The selected lanes that aren't FALSE, on which AND has its right side evaluated.
pub fn unless_false(
    alloc: Global,
    given: &Given<'_>,
    selection: &LaneSet,
) -> Result<LaneSet, AllocError>
    requires { IsLong selection.now.below given.now }
    ensures { IfOk result (AreNarrowed (λ i. is_not_false (given_at given.now i)) selection.now) }
{
    let truths = broadcast_truths(alloc, given, selection.below())?;
    let mut mask = vec![in alloc; false; selection.below()]?;
    not_false_lanes(truths.as_slice(), mask.as_mut_slice());
    selection.narrowed(alloc, mask)
}

/// The selected lanes that aren't TRUE, on which OR has its right side evaluated.
pub fn unless_true(
    alloc: Global,
    given: &Given<'_>,
    selection: &LaneSet,
) -> Result<LaneSet, AllocError>
    requires { IsLong selection.now.below given.now }
    ensures { IfOk result (AreNarrowed (λ i. is_not_true (given_at given.now i)) selection.now) }
{
    let truths = broadcast_truths(alloc, given, selection.below())?;
    let mut mask = vec![in alloc; false; selection.below()]?;
    not_true_lanes(truths.as_slice(), mask.as_mut_slice());
    selection.narrowed(alloc, mask)
}

/// The selected lanes that are TRUE, which take the value behind a WHEN.
pub fn where_true(
    alloc: Global,
    given: &Given<'_>,
    selection: &LaneSet,
) -> Result<LaneSet, AllocError>
    requires { IsLong selection.now.below given.now }
    ensures { IfOk result (AreNarrowed (λ i. is_true_lane (given_at given.now i)) selection.now) }
{
    let truths = broadcast_truths(alloc, given, selection.below())?;
    let mut chosen = vec![in alloc; false; selection.below()]?;
    true_lanes(truths.as_slice(), chosen.as_mut_slice());
    selection.narrowed(alloc, chosen)
}

/// The selected lanes that are NULL, on which COALESCE goes on.
pub fn where_null(
    alloc: Global,
    given: &Given<'_>,
    selection: &LaneSet,
) -> Result<LaneSet, AllocError>
    requires { IsLong selection.now.below given.now }
    ensures { IfOk result (AreNarrowed (λ i. is_null_lane (given_at given.now i)) selection.now) }
{
    let nulls = null_lanes(alloc, given, selection.below())?;
    let mask = Vec::from_slice(alloc, nulls.as_slice())?;
    selection.narrowed(alloc, mask)
}
