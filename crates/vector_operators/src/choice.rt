//! Choice between lanes, for CASE and COALESCE.
ghost use Rattle.std.specs.Prelude.{◌≡◌, ◌<◌, ℕ, [], pos, true, false, length, map, replicate, slice_index_or, IfOk};
ghost use Rattle.meaning.specs.declared.value.ColType.{ColType};
ghost use Rattle.meaning.specs.declared.value.ColType.TheVariants as of_type;
ghost use Rattle.meaning.specs.declared.value.Value.TheVariants.{Int, Null, Text};
ghost use Rattle.meaning.specs.declared.outcome.Outcome.TheVariants as gives;
ghost use Rattle.meaning.specs.Operators.{coalesce_of};
ghost use Rattle.meaning.specs.Typing.{Valued};
ghost use Rattle.lane_loops.specs.Lanes.{AreChosen, AreLanes};
ghost use Rattle.vector_operators.specs.declared.given.Given.TheVariants as given;
ghost use Rattle.vector_operators.specs.Given.{AreCellsOf, AreChosenCells, AreChosenLanes, AreChosenNulls, AreGivenCells, ArePut, IsLong, chosen_at, given_at, is_null_lane, is_of_kind};
ghost use Rattle.meaning.specs.Order.{is_null};
ghost use Rattle.vector_operators.specs.Broadcast.{IsNeverNull, broadcast_cells};

use crate::broadcast::{
    Broadcast, broadcast_ints, broadcast_texts, int_parts, null_lanes, text_parts,
};
use crate::given::Given;
use crate::lane_set::LaneSet;
use lane_loops::choose;
use std::alloc::{AllocError, Global};
use std::mem::drop;
use vectors::{IntCells, Ints, Nulls, TextCells, Texts};

fn blank_ints<'a>(alloc: Global, lanes: usize) -> Result<Broadcast<'a, i64>, AllocError>
    ensures { IfOk result (λ s. broadcast_cells s ≡ replicate lanes (pos 0)) }
{
    Ok(Broadcast::Owned(vec![in alloc; 0i64; lanes]?))
}

fn cells_of_ints<'a>(alloc: Global, ints: &'a Ints<'_>) -> Result<Broadcast<'a, i64>, AllocError>
    ensures { IfOk result (λ s. AreCellsOf Int (pos 0) ints.now (broadcast_cells s)) }
{
    let (cells, _) = int_parts(ints);
    broadcast_ints(alloc, cells)
}

/// The integers of the lanes; 0 where the lanes aren't integers.
fn int_cells<'a>(
    alloc: Global,
    given: &'a Given<'_>,
    lanes: usize,
) -> Result<Broadcast<'a, i64>, AllocError>
    requires { IsLong lanes given.now }
    ensures long { IfOk result (λ s. length (broadcast_cells s) ≡ lanes) }
    ensures value { is_of_kind (Valued of_type.Int) given.now ≡ true
        → IfOk result (λ s. AreGivenCells Int (pos 0) lanes given.now (broadcast_cells s)) }
{
    match given {
        Given::Ints(ints) => cells_of_ints(alloc, ints),
        _ => blank_ints(alloc, lanes),
    }
}

fn blank_texts<'a, 't>(alloc: Global, lanes: usize) -> Result<Broadcast<'a, &'t [u8]>, AllocError>
    ensures { IfOk result (λ s. map (λ t. t.now) (broadcast_cells s) ≡ replicate lanes []) }
{
    let blank: &[u8] = &[];
    Ok(Broadcast::Owned(vec![in alloc; blank; lanes]?))
}

fn cells_of_texts<'a, 't>(
    alloc: Global,
    texts: &'a Texts<'t>,
) -> Result<Broadcast<'a, &'t [u8]>, AllocError>
    ensures { IfOk result (λ s. AreCellsOf Text [] texts.now (map (λ t. t.now) (broadcast_cells s))) }
{
    let (cells, _) = text_parts(texts);
    broadcast_texts(alloc, cells)
}

/// The texts of the lanes; the empty one where the lanes aren't texts.
fn text_cells<'a, 't>(
    alloc: Global,
    given: &'a Given<'t>,
    lanes: usize,
) -> Result<Broadcast<'a, &'t [u8]>, AllocError>
    requires { IsLong lanes given.now }
    ensures long { IfOk result (λ s. length (broadcast_cells s) ≡ lanes) }
    ensures value { is_of_kind (Valued of_type.Text) given.now ≡ true
        → IfOk result (λ s. AreGivenCells Text [] lanes given.now
        (map (λ t. t.now) (broadcast_cells s))) }
{
    if let Given::Texts(texts) = given {
        return cells_of_texts(alloc, texts);
    }
    blank_texts(alloc, lanes)
}

fn chosen<T: Copy>(
    alloc: Global,
    mask: &[bool],
    these: &[T],
    those: &[T],
) -> Result<Vec<T>, AllocError>
    requires these { length these.now ≡ length mask.now }
    requires those { length those.now ≡ length mask.now }
    ensures { IfOk result (λ out. AreChosen (length mask.now) mask.now these.now those.now
        out.items) }
{
    let mut out = Vec::from_slice(alloc, those)?;
    choose(mask, these, those, out.as_mut_slice());
    Ok(out)
}

fn has_no_mask(nulls: &Nulls<'_>) -> bool
    ensures { result ≡ true → IsNeverNull nulls.now }
{
    match nulls {
        Nulls::None => true,
        Nulls::Lent(_) => false,
        Nulls::Owned(_) => false,
    }
}

fn are_ints(ints: &Ints<'_>) -> bool
    ensures { result ≡ true → (i : ℕ) → i < length ints.now
        → is_null (slice_index_or ints.now i Null) ≡ false }
{
    let (_, nulls) = int_parts(ints);
    has_no_mask(nulls)
}

fn are_texts(texts: &Texts<'_>) -> bool
    ensures { result ≡ true → (i : ℕ) → i < length texts.now
        → is_null (slice_index_or texts.now i Null) ≡ false }
{
    let (_, nulls) = text_parts(texts);
    has_no_mask(nulls)
}

/// Whether it is clear that no lane is NULL.
fn are_present(given: &Given<'_>, lanes: usize) -> bool
    requires { IsLong lanes given.now }
    ensures { result ≡ true → (i : ℕ) → i < lanes → is_null_lane (given_at given.now i) ≡ false }
{
    match given {
        Given::Ints(ints) => are_ints(ints),
        Given::Texts(texts) => are_texts(texts),
        Given::Null => false,
        Given::Truths(_) => false,
    }
}

fn chosen_mask(
    alloc: Global,
    mask: &[bool],
    these: &Given<'_>,
    those: &Given<'_>,
) -> Result<Vec<bool>, AllocError>
    requires these { IsLong (length mask.now) these.now }
    requires those { IsLong (length mask.now) those.now }
    ensures { IfOk result (λ out. AreLanes false (length mask.now)
        (λ i. is_null_lane (chosen_at mask.now these.now those.now i)) out.items) }
{
    let these = null_lanes(alloc, these, mask.len())?;
    let those = null_lanes(alloc, those, mask.len())?;
    chosen(alloc, mask, these.as_slice(), those.as_slice())
}

/// Which of the lanes chosen are NULL: none where that is clear of both operands.
fn chosen_nulls(
    alloc: Global,
    mask: &[bool],
    these: &Given<'_>,
    those: &Given<'_>,
) -> Result<Nulls<'static>, AllocError>
    requires these { IsLong (length mask.now) these.now }
    requires those { IsLong (length mask.now) those.now }
    ensures { IfOk result (AreChosenNulls mask.now these.now those.now) }
{
    if !are_present(these, mask.len()) {
        return Ok(Nulls::Owned(chosen_mask(alloc, mask, these, those)?));
    }
    if !are_present(those, mask.len()) {
        return Ok(Nulls::Owned(chosen_mask(alloc, mask, these, those)?));
    }
    Ok(Nulls::None)
}

fn int_cells_chosen(
    alloc: Global,
    mask: &[bool],
    these: &Given<'_>,
    those: &Given<'_>,
) -> Result<Vec<i64>, AllocError>
    requires these { IsLong (length mask.now) these.now }
    requires those { IsLong (length mask.now) those.now }
    ensures long { IfOk result (λ out. length out.items ≡ length mask.now) }
    ensures value { is_of_kind (Valued of_type.Int) these.now ≡ true
        → is_of_kind (Valued of_type.Int) those.now ≡ true
        → IfOk result (λ out. AreChosenCells Int (pos 0) mask.now these.now those.now out.items) }
{
    let these = int_cells(alloc, these, mask.len())?;
    let those = int_cells(alloc, those, mask.len())?;
    chosen(alloc, mask, these.as_slice(), those.as_slice())
}

fn choose_ints(
    alloc: Global,
    mask: &[bool],
    these: &Given<'_>,
    those: &Given<'_>,
) -> Result<Ints<'static>, AllocError>
    requires these { IsLong (length mask.now) these.now }
    requires those { IsLong (length mask.now) those.now }
    ensures long { IfOk result (λ ints. length ints ≡ length mask.now) }
    ensures value { is_of_kind (Valued of_type.Int) these.now ≡ true
        → is_of_kind (Valued of_type.Int) those.now ≡ true
        → IfOk result (λ ints. AreChosenLanes mask.now these.now those.now
        (λ i. gives.Value (slice_index_or ints i Null))) }
{
    let cells = int_cells_chosen(alloc, mask, these, those)?;
    let nulls = chosen_nulls(alloc, mask, these, those)?;
    Ok(Ints::new(IntCells::Owned(cells), nulls))
}

fn text_cells_chosen<'t>(
    alloc: Global,
    mask: &[bool],
    these: &Given<'t>,
    those: &Given<'t>,
) -> Result<Vec<&'t [u8]>, AllocError>
    requires these { IsLong (length mask.now) these.now }
    requires those { IsLong (length mask.now) those.now }
    ensures long { IfOk result (λ out. length out.items ≡ length mask.now) }
    ensures value { is_of_kind (Valued of_type.Text) these.now ≡ true
        → is_of_kind (Valued of_type.Text) those.now ≡ true
        → IfOk result (λ out. AreChosenCells Text [] mask.now these.now those.now
        (map (λ t. t.now) out.items)) }
{
    let these = text_cells(alloc, these, mask.len())?;
    let those = text_cells(alloc, those, mask.len())?;
    chosen(alloc, mask, these.as_slice(), those.as_slice())
}

fn choose_texts<'t>(
    alloc: Global,
    mask: &[bool],
    these: &Given<'t>,
    those: &Given<'t>,
) -> Result<Texts<'t>, AllocError>
    requires these { IsLong (length mask.now) these.now }
    requires those { IsLong (length mask.now) those.now }
    ensures long { IfOk result (λ texts. length texts ≡ length mask.now) }
    ensures value { is_of_kind (Valued of_type.Text) these.now ≡ true
        → is_of_kind (Valued of_type.Text) those.now ≡ true
        → IfOk result (λ texts. AreChosenLanes mask.now these.now those.now
        (λ i. gives.Value (slice_index_or texts i Null))) }
{
    let cells = text_cells_chosen(alloc, mask, these, those)?;
    let nulls = chosen_nulls(alloc, mask, these, those)?;
    Ok(Texts::new(TextCells::Owned(cells), nulls))
}

/// The lanes of `those`, NULL where the mask marks it.
fn null_or<'t>(
    alloc: Global,
    mask: &[bool],
    nulls: &Given<'t>,
    those: &Given<'t>,
) -> Result<Given<'t>, AllocError>
    requires nulls { nulls.now ≡ given.Null }
    requires long { IsLong (length mask.now) those.now }
    ensures long { IfOk result (IsLong (length mask.now)) }
    ensures value { (kind : ColType) → is_of_kind (Valued kind) those.now ≡ true
        → IfOk result (λ g. AreChosenLanes mask.now given.Null those.now (given_at g)) }
    ensures kind { (kind : ColType) → is_of_kind (Valued kind) those.now ≡ true
        → IfOk result (λ g. is_of_kind (Valued kind) g ≡ true) }
{
    match those {
        Given::Ints(_) => Ok(Given::Ints(choose_ints(alloc, mask, nulls, those)?)),
        Given::Texts(_) => Ok(Given::Texts(choose_texts(alloc, mask, nulls, those)?)),
        Given::Null => Ok(Given::Null),
        Given::Truths(_) => Ok(Given::Null),
    }
}

/// The lane of `these` where the mask marks it, else that of `those`, both of one type.
pub fn choose_lanes<'t>(
    alloc: Global,
    mask: &[bool],
    these: &Given<'t>,
    those: &Given<'t>,
) -> Result<Given<'t>, AllocError>
    requires these { IsLong (length mask.now) these.now }
    requires those { IsLong (length mask.now) those.now }
    ensures long { IfOk result (IsLong (length mask.now)) }
    ensures value { (kind : ColType) → is_of_kind (Valued kind) these.now ≡ true
        → is_of_kind (Valued kind) those.now ≡ true
        → IfOk result (λ g. AreChosenLanes mask.now these.now those.now (given_at g)) }
    ensures kind { (kind : ColType) → is_of_kind (Valued kind) these.now ≡ true
        → is_of_kind (Valued kind) those.now ≡ true
        → IfOk result (λ g. is_of_kind (Valued kind) g ≡ true) }
{
    match these {
        Given::Ints(_) => Ok(Given::Ints(choose_ints(alloc, mask, these, those)?)),
        Given::Texts(_) => Ok(Given::Texts(choose_texts(alloc, mask, these, those)?)),
        Given::Null => null_or(alloc, mask, these, those),
        Given::Truths(_) => Ok(Given::Null),
    }
}

fn chosen_unless_null<'a>(
    alloc: Global,
    first: &Given<'a>,
    second: &Given<'a>,
    lanes: usize,
) -> Result<Given<'a>, AllocError>
    requires first { IsLong lanes first.now }
    requires second { IsLong lanes second.now }
    ensures long { IfOk result (IsLong lanes) }
    ensures value { (kind : ColType) → is_of_kind (Valued kind) first.now ≡ true
        → is_of_kind (Valued kind) second.now ≡ true
        → IfOk result (λ g. (i : ℕ) → i < lanes
        → given_at g i ≡ coalesce_of (given_at first.now i) (given_at second.now i)) }
    ensures kind { (kind : ColType) → is_of_kind (Valued kind) first.now ≡ true
        → is_of_kind (Valued kind) second.now ≡ true
        → IfOk result (λ g. is_of_kind (Valued kind) g ≡ true) }
{
    let mask = null_lanes(alloc, first, lanes)?;
    choose_lanes(alloc, mask.as_slice(), second, first)
}

/// The first lane, and where it is NULL the second, both of one type.
pub fn coalesce<'a>(
    alloc: Global,
    first: &Given<'a>,
    second: Given<'a>,
    lanes: usize,
) -> Result<Given<'a>, AllocError>
    requires first { IsLong lanes first.now }
    requires second { IsLong lanes second }
    ensures long { IfOk result (IsLong lanes) }
    ensures value { (kind : ColType) → is_of_kind (Valued kind) first.now ≡ true
        → is_of_kind (Valued kind) second.entry ≡ true
        → IfOk result (λ g. (i : ℕ) → i < lanes
        → given_at g i ≡ coalesce_of (given_at first.now i) (given_at second.entry i)) }
    ensures kind { (kind : ColType) → is_of_kind (Valued kind) first.now ≡ true
        → is_of_kind (Valued kind) second.entry ≡ true
        → IfOk result (λ g. is_of_kind (Valued kind) g ≡ true) }
{
    match first {
        Given::Null => Ok(second),
        _ => {
            let result = chosen_unless_null(alloc, first, &second, lanes);
            drop(second);
            result
        }
    }
}

/// The lanes of `these` at the selected positions, elsewhere those of `those`, both of one type.
pub fn put<'a>(
    alloc: Global,
    selection: &LaneSet,
    these: &Given<'a>,
    those: &Given<'a>,
) -> Result<Given<'a>, AllocError>
    requires these { IsLong selection.now.below these.now }
    requires those { IsLong selection.now.below those.now }
    ensures long { IfOk result (IsLong selection.now.below) }
    ensures value { (kind : ColType) → is_of_kind (Valued kind) those.now ≡ true
        → is_of_kind (Valued kind) these.now ≡ true
        → IfOk result (ArePut selection.now these.now those.now) }
    ensures kind { (kind : ColType) → is_of_kind (Valued kind) those.now ≡ true
        → is_of_kind (Valued kind) these.now ≡ true
        → IfOk result (λ g. is_of_kind (Valued kind) g ≡ true) }
{
    let mask = selection.mask(alloc)?;
    choose_lanes(alloc, mask.as_slice(), these, those)
}
