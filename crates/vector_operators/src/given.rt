//! What a part of an expression gives: lanes, or NULL in each.
ghost use Rattle.std.specs.Prelude.{◌≡◌, ◌<◌, ℕ, length, find, true, false, option_map, replicate, IfOk};
ghost use Rattle.meaning.specs.declared.value.Value.TheVariants.{Int, Text};
ghost use Rattle.meaning.specs.declared.outcome.Outcome.TheVariants as gives;
ghost use Rattle.meaning.specs.Typing.{ExprType, is_literal_type};
ghost use Rattle.vectors.specs.Lanes.{ints_of, lane_values, nulls_of, texts_of};
ghost use Rattle.vectors.specs.Vector.{outcomes_of, same_reference};
ghost use Rattle.vector_operators.specs.Evaluated.{lane_of};
ghost use Rattle.vector_operators.specs.Given.{IsOfType, IsLong, given_at, given_of, is_of_kind};

use meaning::Value;
use std::alloc::{AllocError, Global};
use vectors::{Batch, ColumnReference, IntCells, Ints, Nulls, TextCells, Texts, Truths, Vector};

/// What a part of an expression gives: NULL in each lane, which is of any type, or lanes of one
/// kind.
#[derive(Drop)]
pub enum Given<'a> {
    Null,
    Ints(Ints<'a>),
    Texts(Texts<'a>),
    Truths(Truths),
}

fn lent_nulls<'a>(nulls: &'a Nulls<'_>) -> Nulls<'a>
    ensures { (n : ℕ) → nulls_of n result ≡ nulls_of n nulls.now }
{
    match nulls {
        Nulls::None => Nulls::None,
        Nulls::Lent(mask) => Nulls::Lent(mask),
        Nulls::Owned(mask) => Nulls::Lent(mask.as_slice()),
    }
}

fn lent_int_cells<'a>(cells: &'a IntCells<'_>) -> IntCells<'a>
    ensures { ints_of result ≡ ints_of cells.now }
{
    match cells {
        IntCells::Lent(cells) => IntCells::Lent(cells),
        IntCells::Owned(cells) => IntCells::Lent(cells.as_slice()),
        IntCells::Repeated { cell, lanes } => IntCells::Repeated {
            cell: *cell,
            lanes: *lanes,
        },
    }
}

fn lent_ints<'a>(ints: &'a Ints<'_>) -> Ints<'a>
    ensures { result ≡ ints.now }
{
    let (cells, nulls) = ints.parts();
    Ints::new(lent_int_cells(cells), lent_nulls(nulls))
}

fn lent_text_cells<'a>(cells: &'a TextCells<'_>) -> TextCells<'a>
    ensures { texts_of result ≡ texts_of cells.now }
{
    match cells {
        TextCells::Lent(cells) => TextCells::Lent(cells),
        TextCells::Owned(cells) => TextCells::Lent(cells.as_slice()),
        TextCells::Repeated { cell, lanes } => TextCells::Repeated {
            cell: *cell,
            lanes: *lanes,
        },
    }
}

fn lent_texts<'a>(texts: &'a Texts<'_>) -> Texts<'a>
    ensures { result ≡ texts.now }
{
    let (cells, nulls) = texts.parts();
    Texts::new(lent_text_cells(cells), lent_nulls(nulls))
}

/// The lanes of the column with this reference, lent. There is none where types don't fit.
pub fn lent_column<'a>(batch: &'a Batch<'_>, reference: ColumnReference) -> Given<'a>
    ensures value { result ≡ given_of
        (option_map (λ column. column.lanes)
        (find (λ column. same_reference column.reference reference) batch.now.columns)) }
    ensures long { IsLong batch.now.rows result }
{
    match batch.column(reference) {
        None => Given::Null,
        Some(Vector::Ints(ints)) => Given::Ints(lent_ints(ints)),
        Some(Vector::Texts(texts)) => Given::Texts(lent_texts(texts)),
        Some(Vector::Truths(_)) => Given::Null,
    }
}

fn one_int<'a>(cell: &i64, lanes: usize) -> Ints<'a>
    ensures { result ≡ lane_values Int (replicate lanes false) (replicate lanes cell.now) }
{
    Ints::new(IntCells::Repeated { cell: *cell, lanes }, Nulls::None)
}

fn one_text<'a>(cell: &'a [u8], lanes: usize) -> Texts<'a>
    ensures { result ≡ lane_values Text (replicate lanes false) (replicate lanes cell.now) }
{
    Texts::new(TextCells::Repeated { cell, lanes }, Nulls::None)
}

/// The value in each lane.
pub fn repeated(value: &Value, lanes: usize) -> Given<'_>
    ensures value { (i : ℕ) → i < lanes → given_at result i ≡ gives.Value value.now }
    ensures long { IsLong lanes result }
    ensures kind { (type : ExprType) → is_literal_type value.now type ≡ true
        → is_of_kind type result ≡ true }
{
    match value {
        Value::Null => Given::Null,
        Value::Int(int) => Given::Ints(one_int(int, lanes)),
        Value::Text(text) => Given::Texts(one_text(text.as_bytes(), lanes)),
    }
}

fn nulls(alloc: Global, lanes: usize) -> Result<Vector<'static>, AllocError>
    ensures value { IfOk result (λ v. (i : ℕ) → lane_of v i ≡ given_at Given.Null i) }
    ensures long { IfOk result (λ v. length (outcomes_of v) ≡ lanes) }
{
    let mask = vec![in alloc; true; lanes]?;
    let cells = IntCells::Repeated { cell: 0, lanes };
    Ok(Vector::Ints(Ints::new(cells, Nulls::Owned(mask))))
}

impl<'a> Given<'a> {
    /// The lanes as a vector. NULL in each is one of integers.
    pub fn into_vector(self, alloc: Global, lanes: usize) -> Result<Vector<'a>, AllocError>
        requires { IsLong lanes self }
        ensures value { IfOk result (λ v. (i : ℕ) → i < lanes
            → lane_of v i ≡ given_at self.entry i) }
        ensures typed { (type : ExprType) → is_of_kind type self.entry ≡ true
            → IfOk result (IsOfType type) }
        ensures long { IfOk result (λ v. length (outcomes_of v) ≡ lanes) }
    {
        match self {
            Given::Null => return nulls(alloc, lanes),
            Given::Ints(ints) => return Ok(Vector::Ints(ints)),
            Given::Texts(texts) => return Ok(Vector::Texts(texts)),
            Given::Truths(truths) => return Ok(Vector::Truths(truths)),
        }
    }
}
