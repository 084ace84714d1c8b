//! Tests of lanes: comparisons, LIKE and IS NULL.
ghost use Rattle.std.specs.Prelude.{◌≡◌, ◌<◌, ℕ, length, map, slice_index_or, slice_index, not, true, if◌then◌else◌, IfOk};
ghost use Rattle.std.specs.Str.{is_utf8};
ghost use Rattle.meaning.specs.declared.value.ColType.TheVariants as of_type;
ghost use Rattle.meaning.specs.declared.value.Value.TheVariants.{Null};
ghost use Rattle.meaning.specs.declared.outcome.Outcome.TheVariants as gives;
ghost use Rattle.meaning.specs.Operators.{compare_of, compared, is_null_of, like_of, like_value, not_if, truth_of};
ghost use Rattle.meaning.specs.declared.outcome.Truth.TheVariants.{Unknown};
ghost use Rattle.meaning.specs.Truth.{known};
ghost use Rattle.meaning.specs.Typing.{Boolean, Valued};
ghost use Rattle.vectors.specs.Lanes.{ints_of, nulls_of, texts_of};
ghost use Rattle.lane_loops.specs.Lanes.{AreLanes, AreLanesWhere, compared_bit, compared_text_to_bit, compared_to_bit, like_bit, null_at, text_at};
ghost use Rattle.lane_loops.specs.Outcomes.{returned_truth};
ghost use Rattle.vector_operators.specs.declared.given.Given.TheVariants as given;
ghost use Rattle.vector_operators.specs.Given.{IsLong, IsSpelled, IsSpelledIn, are_alike, given_at, is_of_kind};
ghost use Rattle.vector_operators.specs.Broadcast.{text_bit};

use crate::broadcast::{
    broadcast_ints, broadcast_texts, either_null, int_parts, null_lanes, text_parts,
};
use crate::given::Given;
use lane_loops::{
    LikePattern, are_not_null, are_null, compare_ints, compare_ints_to, compare_texts,
    compare_texts_to, like_texts, truths_of_bits, truths_unless_null,
};
use meaning::{ComparisonOperator, Text, Truth};
use std::alloc::{AllocError, Global};
use vectors::{IntCells, Ints, Nulls, TextCells, Texts, TruthCells, Truths};

/// One truth in each lane.
pub fn one_truth(truth: Truth, lanes: usize) -> Given<'static>
    ensures value { (i : ℕ) → i < lanes → given_at result i ≡ gives.Truth truth }
    ensures long { IsLong lanes result }
    ensures kind { is_of_kind Boolean result ≡ true }
{
    Given::Truths(Truths::new(TruthCells::Repeated { truth, lanes }))
}

fn put_truths(nulls: &Nulls<'_>, bits: &[u8], out: &mut [Truth])
    requires nulls { length (nulls_of (length out.old) nulls.now) ≡ length out.old }
    requires bits { length bits.now ≡ length out.old }
    ensures { AreLanes Unknown (length out.old)
        (λ i. returned_truth (null_at (nulls_of (length out.old) nulls.now) i) (slice_index bits.now i))
        out.new }
{
    match nulls.mask() {
        None => truths_of_bits(bits, out),
        Some(mask) => truths_unless_null(mask, bits, out),
    }
}

/// The truths of bits, UNKNOWN where a lane is NULL.
fn truths_from(alloc: Global, nulls: &Nulls<'_>, bits: &[u8]) -> Result<Truths, AllocError>
    requires { length (nulls_of (length bits.now) nulls.now) ≡ length bits.now }
    ensures value { IfOk result
        (AreLanes Unknown (length bits.now)
        (λ i. returned_truth (null_at (nulls_of (length bits.now) nulls.now) i)
        (slice_index bits.now i))) }
{
    let mut out = vec![in alloc; Truth::Unknown; bits.len()]?;
    put_truths(nulls, bits, out.as_mut_slice());
    Ok(Truths::new(TruthCells::Owned(out)))
}

fn bits_of_two(
    alloc: Global,
    op: ComparisonOperator,
    left: &[i64],
    right: &IntCells<'_>,
) -> Result<Vec<u8>, AllocError>
    requires { length (ints_of right.now) ≡ length left.now }
    ensures { IfOk result (λ bits. AreLanes 0 (length left.now)
        (compared_bit op left.now (ints_of right.now)) bits.items) }
{
    let right = broadcast_ints(alloc, right)?;
    let mut bits = vec![in alloc; 0u8; left.len()]?;
    compare_ints(op, left, right.as_slice(), bits.as_mut_slice());
    Ok(bits)
}

fn bits_to_one(
    alloc: Global,
    op: ComparisonOperator,
    left: &[i64],
    right: i64,
) -> Result<Vec<u8>, AllocError>
    ensures { IfOk result (λ bits. AreLanes 0 (length left.now) (compared_to_bit op left.now right)
        bits.items) }
{
    let mut bits = vec![in alloc; 0u8; left.len()]?;
    compare_ints_to(op, left, right, bits.as_mut_slice());
    Ok(bits)
}

/// 1 in each lane where the comparison holds of the cells, else 0.
fn int_bits(
    alloc: Global,
    op: ComparisonOperator,
    left: &[i64],
    right: &IntCells<'_>,
) -> Result<Vec<u8>, AllocError>
    requires { length (ints_of right.now) ≡ length left.now }
    ensures { IfOk result (λ bits. AreLanes 0 (length left.now)
        (compared_bit op left.now (ints_of right.now)) bits.items) }
{
    match right {
        IntCells::Repeated { cell, .. } => bits_to_one(alloc, op, left, *cell),
        _ => bits_of_two(alloc, op, left, right),
    }
}

fn compare_of_ints(
    alloc: Global,
    op: ComparisonOperator,
    left: &Ints<'_>,
    right: &Ints<'_>,
) -> Result<Truths, AllocError>
    requires { length right.now ≡ length left.now }
    ensures { IfOk result (AreLanes Unknown (length left.now)
        (λ i. compared op (slice_index_or left.now i Null) (slice_index_or right.now i Null))) }
{
    let (left_cells, left_nulls) = int_parts(left);
    let (right_cells, right_nulls) = int_parts(right);
    let nulls = either_null(alloc, left_nulls, right_nulls, left.len())?;
    let left_cells = broadcast_ints(alloc, left_cells)?;
    let bits = int_bits(alloc, op, left_cells.as_slice(), right_cells)?;
    truths_from(alloc, &nulls, bits.as_slice())
}

fn text_bits_of_two(
    alloc: Global,
    op: ComparisonOperator,
    left: &[&[u8]],
    right: &TextCells<'_>,
) -> Result<Vec<u8>, AllocError>
    requires { length (texts_of right.now) ≡ length left.now }
    ensures { IfOk result (λ bits. AreLanes 0 (length left.now)
        (text_bit op (map (λ t. t.now) left.now) (texts_of right.now)) bits.items) }
{
    let right = broadcast_texts(alloc, right)?;
    let mut bits = vec![in alloc; 0u8; left.len()]?;
    compare_texts(op, left, right.as_slice(), bits.as_mut_slice());
    Ok(bits)
}

fn text_bits_to_one(
    alloc: Global,
    op: ComparisonOperator,
    left: &[&[u8]],
    right: &[u8],
) -> Result<Vec<u8>, AllocError>
    ensures { IfOk result (λ bits. AreLanes 0 (length left.now)
        (compared_text_to_bit op left.now right.now) bits.items) }
{
    let mut bits = vec![in alloc; 0u8; left.len()]?;
    compare_texts_to(op, left, right, bits.as_mut_slice());
    Ok(bits)
}

/// 1 in each lane where the comparison holds of the bytes, else 0.
fn text_bits(
    alloc: Global,
    op: ComparisonOperator,
    left: &[&[u8]],
    right: &TextCells<'_>,
) -> Result<Vec<u8>, AllocError>
    requires { length (texts_of right.now) ≡ length left.now }
    ensures { IfOk result (λ bits. AreLanes 0 (length left.now)
        (text_bit op (map (λ t. t.now) left.now) (texts_of right.now)) bits.items) }
{
    match right {
        TextCells::Repeated { cell, .. } => text_bits_to_one(alloc, op, left, cell),
        _ => text_bits_of_two(alloc, op, left, right),
    }
}

fn compare_of_texts(
    alloc: Global,
    op: ComparisonOperator,
    left: &Texts<'_>,
    right: &Texts<'_>,
) -> Result<Truths, AllocError>
    requires { length right.now ≡ length left.now }
    ensures { IfOk result (AreLanes Unknown (length left.now)
        (λ i. compared op (slice_index_or left.now i Null) (slice_index_or right.now i Null))) }
{
    let (left_cells, left_nulls) = text_parts(left);
    let (right_cells, right_nulls) = text_parts(right);
    let nulls = either_null(alloc, left_nulls, right_nulls, left.len())?;
    let left_cells = broadcast_texts(alloc, left_cells)?;
    let bits = text_bits(alloc, op, left_cells.as_slice(), right_cells)?;
    truths_from(alloc, &nulls, bits.as_slice())
}

fn compare_ints_and(
    alloc: Global,
    op: ComparisonOperator,
    left: &Ints<'_>,
    right: &Given<'_>,
    lanes: usize,
) -> Result<Given<'static>, AllocError>
    requires left { length left.now ≡ lanes }
    requires right { IsLong lanes right.now }
    ensures value { are_alike (given.Ints left.now) right.now ≡ true
        → IfOk result (λ g. (i : ℕ) → i < lanes
        → given_at g i ≡ compare_of op (gives.Value (slice_index_or left.now i Null))
        (given_at right.now i)) }
    ensures long { IfOk result (IsLong lanes) }
    ensures kind { IfOk result (λ g. is_of_kind Boolean g ≡ true) }
{
    match right {
        Given::Ints(right) => Ok(Given::Truths(compare_of_ints(alloc, op, left, right)?)),
        Given::Null => Ok(one_truth(Truth::Unknown, lanes)),
        Given::Texts(_) => Ok(one_truth(Truth::Unknown, lanes)),
        Given::Truths(_) => Ok(one_truth(Truth::Unknown, lanes)),
    }
}

fn compare_texts_and(
    alloc: Global,
    op: ComparisonOperator,
    left: &Texts<'_>,
    right: &Given<'_>,
    lanes: usize,
) -> Result<Given<'static>, AllocError>
    requires left { length left.now ≡ lanes }
    requires right { IsLong lanes right.now }
    ensures value { are_alike (given.Texts left.now) right.now ≡ true
        → IfOk result (λ g. (i : ℕ) → i < lanes
        → given_at g i ≡ compare_of op (gives.Value (slice_index_or left.now i Null))
        (given_at right.now i)) }
    ensures long { IfOk result (IsLong lanes) }
    ensures kind { IfOk result (λ g. is_of_kind Boolean g ≡ true) }
{
    match right {
        Given::Texts(right) => Ok(Given::Truths(compare_of_texts(alloc, op, left, right)?)),
        Given::Null => Ok(one_truth(Truth::Unknown, lanes)),
        Given::Ints(_) => Ok(one_truth(Truth::Unknown, lanes)),
        Given::Truths(_) => Ok(one_truth(Truth::Unknown, lanes)),
    }
}

/// A comparison of each two lanes: UNKNOWN where either is NULL or a truth. Which truths come of
/// integers beside texts is open.
pub fn compare(
    alloc: Global,
    op: ComparisonOperator,
    left: &Given<'_>,
    right: &Given<'_>,
    lanes: usize,
) -> Result<Given<'static>, AllocError>
    requires left { IsLong lanes left.now }
    requires right { IsLong lanes right.now }
    ensures value { are_alike left.now right.now ≡ true
        → IfOk result (λ g. (i : ℕ) → i < lanes
        → given_at g i ≡ compare_of op (given_at left.now i) (given_at right.now i)) }
    ensures long { IfOk result (IsLong lanes) }
    ensures kind { IfOk result (λ g. is_of_kind Boolean g ≡ true) }
{
    match left {
        Given::Ints(left) => compare_ints_and(alloc, op, left, right, lanes),
        Given::Texts(left) => compare_texts_and(alloc, op, left, right, lanes),
        Given::Null => Ok(one_truth(Truth::Unknown, lanes)),
        Given::Truths(_) => Ok(one_truth(Truth::Unknown, lanes)),
    }
}

fn like_bits(alloc: Global, pattern: &str, texts: &[&[u8]]) -> Result<Vec<u8>, AllocError>
    ensures { IfOk result (λ bits. AreLanesWhere 0 (length texts.now)
        (λ i. is_utf8 (text_at texts.now i) ≡ true) (like_bit pattern.now texts.now) bits.items) }
{
    let mut bits = vec![in alloc; 0u8; texts.len()]?;
    let pattern = LikePattern::new(pattern);
    like_texts(&pattern, texts, bits.as_mut_slice());
    Ok(bits)
}

fn like_of_texts(alloc: Global, pattern: &Text, texts: &Texts<'_>) -> Result<Truths, AllocError>
    ensures { IfOk result (λ truths. AreLanesWhere Unknown (length texts.now)
        (λ i. IsSpelled (slice_index_or texts.now i Null))
        (λ i. truth_of (like_value pattern.now (slice_index_or texts.now i Null))) truths) }
{
    let (cells, nulls) = text_parts(texts);
    let cells = broadcast_texts(alloc, cells)?;
    let bits = like_bits(alloc, pattern.as_str(), cells.as_slice())?;
    truths_from(alloc, nulls, bits.as_slice())
}

/// LIKE of each lane of texts that is in UTF-8; UNKNOWN where it is NULL.
pub fn like(
    alloc: Global,
    pattern: &Text,
    given: &Given<'_>,
    lanes: usize,
) -> Result<Given<'static>, AllocError>
    requires { IsLong lanes given.now }
    ensures value { is_of_kind (Valued of_type.Text) given.now ≡ true
        → IfOk result (λ g. (i : ℕ) → i < lanes → IsSpelledIn given.now i
        → given_at g i ≡ like_of pattern.now (given_at given.now i)) }
    ensures long { IfOk result (IsLong lanes) }
    ensures kind { IfOk result (λ g. is_of_kind Boolean g ≡ true) }
{
    match given {
        Given::Texts(texts) => Ok(Given::Truths(like_of_texts(alloc, pattern, texts)?)),
        Given::Null => Ok(one_truth(Truth::Unknown, lanes)),
        Given::Ints(_) => Ok(one_truth(Truth::Unknown, lanes)),
        Given::Truths(_) => Ok(one_truth(Truth::Unknown, lanes)),
    }
}

fn null_truths(alloc: Global, negated: bool, nulls: &[bool]) -> Result<Truths, AllocError>
    ensures { IfOk result (AreLanes Unknown (length nulls.now)
        (λ i. if negated then known (not (null_at nulls.now i)) else known (null_at nulls.now i))) }
{
    let mut out = vec![in alloc; Truth::Unknown; nulls.len()]?;
    if negated {
        are_not_null(nulls, out.as_mut_slice());
    } else {
        are_null(nulls, out.as_mut_slice());
    }
    Ok(Truths::new(TruthCells::Owned(out)))
}

/// IS NULL of each lane, or IS NOT NULL.
pub fn is_null(
    alloc: Global,
    negated: bool,
    given: &Given<'_>,
    lanes: usize,
) -> Result<Given<'static>, AllocError>
    requires { IsLong lanes given.now }
    ensures value { IfOk result (λ g. (i : ℕ) → i < lanes
        → given_at g i ≡ not_if negated (is_null_of (given_at given.now i))) }
    ensures long { IfOk result (IsLong lanes) }
    ensures kind { IfOk result (λ g. is_of_kind Boolean g ≡ true) }
{
    let nulls = null_lanes(alloc, given, lanes)?;
    Ok(Given::Truths(null_truths(alloc, negated, nulls.as_slice())?))
}
