//! Cells one by one, as loops take them.
ghost use Rattle.std.specs.Prelude.{◌≡◌, ◌<◌, ℕ, [], pos, true, false, length, map, replicate, slice_index_or, IfOk};
ghost use Rattle.meaning.specs.declared.outcome.Truth.TheVariants.{Unknown};
ghost use Rattle.meaning.specs.declared.value.Value.TheVariants.{Int, Null, Text};
ghost use Rattle.meaning.specs.Operators.{truth_of};
ghost use Rattle.meaning.specs.Order.{is_null};
ghost use Rattle.vectors.specs.Lanes.{ints_of, nulls_of, texts_of};
ghost use Rattle.lane_loops.specs.Lanes.{AreLanes};
ghost use Rattle.vector_operators.specs.Given.{IsLong, given_at, is_null_lane};
ghost use Rattle.vector_operators.specs.Broadcast.{AreEither, AreParts, broadcast_cells};

use crate::given::Given;
use lane_loops::or_nulls;
use meaning::Truth;
use std::alloc::{AllocError, Global};
use vectors::{IntCells, Ints, Nulls, TextCells, Texts, TruthCells, Truths};

/// Cells that stand one by one, elsewhere or here.
#[derive(Drop)]
pub enum Broadcast<'a, T> {
    Lent(&'a [T]),
    Owned(Vec<T>),
}

impl<'a, T> Broadcast<'a, T> {
    pub fn as_slice(&self) -> &[T]
        ensures { result.now ≡ broadcast_cells self.now }
    {
        match self {
            Broadcast::Lent(cells) => cells,
            Broadcast::Owned(cells) => cells.as_slice(),
        }
    }
}

pub fn broadcast_ints<'a>(
    alloc: Global,
    cells: &'a IntCells<'_>,
) -> Result<Broadcast<'a, i64>, AllocError>
    ensures { IfOk result (λ s. broadcast_cells s ≡ ints_of cells.now) }
{
    match cells {
        IntCells::Lent(cells) => Ok(Broadcast::Lent(cells)),
        IntCells::Owned(cells) => Ok(Broadcast::Lent(cells.as_slice())),
        IntCells::Repeated { cell, lanes } => Ok(Broadcast::Owned(vec![in alloc; *cell; *lanes]?)),
    }
}

pub fn broadcast_texts<'a, 't>(
    alloc: Global,
    cells: &'a TextCells<'t>,
) -> Result<Broadcast<'a, &'t [u8]>, AllocError>
    ensures { IfOk result (λ s. map (λ t. t.now) (broadcast_cells s) ≡ texts_of cells.now) }
{
    match cells {
        TextCells::Lent(cells) => Ok(Broadcast::Lent(cells)),
        TextCells::Owned(cells) => Ok(Broadcast::Lent(cells.as_slice())),
        TextCells::Repeated { cell, lanes } => Ok(Broadcast::Owned(vec![in alloc; *cell; *lanes]?)),
    }
}

pub fn broadcast_nulls<'a>(
    alloc: Global,
    nulls: &'a Nulls<'_>,
    lanes: usize,
) -> Result<Broadcast<'a, bool>, AllocError>
    ensures { IfOk result (λ s. broadcast_cells s ≡ nulls_of lanes nulls.now) }
{
    match nulls {
        Nulls::None => Ok(Broadcast::Owned(vec![in alloc; false; lanes]?)),
        Nulls::Lent(mask) => Ok(Broadcast::Lent(mask)),
        Nulls::Owned(mask) => Ok(Broadcast::Lent(mask.as_slice())),
    }
}

fn broadcast_truth_cells<'a>(
    alloc: Global,
    truths: &'a Truths,
) -> Result<Broadcast<'a, Truth>, AllocError>
    ensures { IfOk result (λ s. broadcast_cells s ≡ truths.now) }
{
    match truths.cells() {
        TruthCells::Owned(cells) => Ok(Broadcast::Lent(cells.as_slice())),
        TruthCells::Repeated { truth, lanes } => Ok(Broadcast::Owned(
            vec![in alloc; *truth; *lanes]?,
        )),
    }
}

fn unknown_truths<'a>(alloc: Global, lanes: usize) -> Result<Broadcast<'a, Truth>, AllocError>
    ensures { IfOk result (λ s. broadcast_cells s ≡ replicate lanes Unknown) }
{
    Ok(Broadcast::Owned(vec![in alloc; Truth::Unknown; lanes]?))
}

/// The truths of the lanes; UNKNOWN where these are no truths, as types would have it.
pub fn broadcast_truths<'a>(
    alloc: Global,
    given: &'a Given<'_>,
    lanes: usize,
) -> Result<Broadcast<'a, Truth>, AllocError>
    requires { IsLong lanes given.now }
    ensures { IfOk result (λ s. AreLanes Unknown lanes (λ i. truth_of (given_at given.now i))
        (broadcast_cells s)) }
{
    match given {
        Given::Truths(truths) => broadcast_truth_cells(alloc, truths),
        _ => unknown_truths(alloc, lanes),
    }
}

fn or_masks(alloc: Global, left: &[bool], right: &[bool]) -> Result<Nulls<'static>, AllocError>
    requires { length left.now ≡ length right.now }
    ensures { IfOk result (AreEither left.now right.now (length left.now)) }
{
    let mut either = vec![in alloc; false; left.len()]?;
    or_nulls(left, right, either.as_mut_slice());
    Ok(Nulls::Owned(either))
}

fn copied_mask(alloc: Global, mask: &[bool]) -> Result<Nulls<'static>, AllocError>
    ensures { IfOk result (λ nulls. nulls_of (length mask.now) nulls ≡ mask.now) }
{
    Ok(Nulls::Owned(Vec::from_slice(alloc, mask)?))
}

/// Which lanes are NULL of an operator that gives NULL where either operand is.
pub fn either_null(
    alloc: Global,
    left: &Nulls<'_>,
    right: &Nulls<'_>,
    lanes: usize,
) -> Result<Nulls<'static>, AllocError>
    requires left { length (nulls_of lanes left.now) ≡ lanes }
    requires right { length (nulls_of lanes right.now) ≡ lanes }
    ensures { IfOk result (AreEither (nulls_of lanes left.now) (nulls_of lanes right.now) lanes) }
{
    match (left.mask(), right.mask()) {
        (None, None) => Ok(Nulls::None),
        (Some(mask), None) => copied_mask(alloc, mask),
        (None, Some(mask)) => copied_mask(alloc, mask),
        (Some(left), Some(right)) => or_masks(alloc, left, right),
    }
}

/// The same lanes NULL.
pub fn same_nulls(
    alloc: Global,
    nulls: &Nulls<'_>,
    lanes: usize,
) -> Result<Nulls<'static>, AllocError>
    requires { length (nulls_of lanes nulls.now) ≡ lanes }
    ensures { IfOk result (λ same. nulls_of lanes same ≡ nulls_of lanes nulls.now) }
{
    match nulls.mask() {
        None => Ok(Nulls::None),
        Some(mask) => copied_mask(alloc, mask),
    }
}

/// The cells and NULLs of lanes, as contracts of this crate see them.
pub fn int_parts<'s, 'a>(ints: &'s Ints<'a>) -> (&'s IntCells<'a>, &'s Nulls<'a>)
    ensures { AreParts Int (pos 0) ints.now (ints_of result.0.now) result.1.now }
{
    ints.parts()
}

/// The same of texts.
pub fn text_parts<'s, 'a>(texts: &'s Texts<'a>) -> (&'s TextCells<'a>, &'s Nulls<'a>)
    ensures { AreParts Text [] texts.now (texts_of result.0.now) result.1.now }
{
    texts.parts()
}

fn int_nulls<'a>(alloc: Global, ints: &'a Ints<'_>) -> Result<Broadcast<'a, bool>, AllocError>
    ensures { IfOk result (λ s. AreLanes false (length ints.now)
        (λ i. is_null (slice_index_or ints.now i Null)) (broadcast_cells s)) }
{
    let (_, nulls) = ints.parts();
    broadcast_nulls(alloc, nulls, ints.len())
}

fn text_nulls<'a>(alloc: Global, texts: &'a Texts<'_>) -> Result<Broadcast<'a, bool>, AllocError>
    ensures { IfOk result (λ s. AreLanes false (length texts.now)
        (λ i. is_null (slice_index_or texts.now i Null)) (broadcast_cells s)) }
{
    let (_, nulls) = texts.parts();
    broadcast_nulls(alloc, nulls, texts.len())
}

fn all_null<'a>(alloc: Global, lanes: usize) -> Result<Broadcast<'a, bool>, AllocError>
    ensures { IfOk result (λ s. broadcast_cells s ≡ replicate lanes true) }
{
    Ok(Broadcast::Owned(vec![in alloc; true; lanes]?))
}

/// Which lanes are NULL. Truths, which types rule out here, count as NULL.
pub fn null_lanes<'a>(
    alloc: Global,
    given: &'a Given<'_>,
    lanes: usize,
) -> Result<Broadcast<'a, bool>, AllocError>
    requires { IsLong lanes given.now }
    ensures { IfOk result (λ s. AreLanes false lanes (λ i. is_null_lane (given_at given.now i))
        (broadcast_cells s)) }
{
    match given {
        Given::Ints(ints) => int_nulls(alloc, ints),
        Given::Texts(texts) => text_nulls(alloc, texts),
        _ => all_null(alloc, lanes),
    }
}
