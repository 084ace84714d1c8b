//! Which rows a condition keeps: by a predicate on a block, and by the oracle.
ghost use Rattle.std.specs.Prelude.{◌≡◌, ◌+◌, ◌≤◌, length, IfOk};

use crate::blocks_of::value_at;
use block_predicates::BlockPredicate;
use meaning::{Expr, JoinedRow, Outcome, Row, Sequence, Text, Truth, Value};
use row_oracle::eval_row;
use std::alloc::{AllocError, Global};
use std::mem::drop;
use vector_cases::Word;
use vectors::Selection;

/// Of so many rows from row `from` on, whether they are kept.
fn kept_of_vector(
    alloc: Global,
    predicate: &BlockPredicate<'_>,
    from: usize,
    count: usize,
) -> Result<Vec<bool>, AllocError>
    requires within { from + count ≤ predicate.now.block.rows }
    requires few { count ≤ 8192 }
    ensures { IfOk result (λ kept. length kept.items ≡ count) }
{
    let mut selection = Selection::all(alloc, count as u32)?;
    predicate.select(from, &mut selection);
    selection.mask(alloc)
}

/// Of each row whether it is kept, in vectors of `most` rows.
pub fn kept_in(
    alloc: Global,
    predicate: &BlockPredicate<'_>,
    rows: usize,
    most: usize,
) -> Result<Vec<bool>, AllocError>
    requires rows { predicate.now.block.rows ≡ rows }
    requires few { rows ≤ 8192 }
    requires some { 1 ≤ most }
{
    let mut kept = Vec::with_capacity(alloc, rows)?;
    while kept.len() < rows {
        let from = kept.len();
        let count = most.min(rows - from);
        let vector = kept_of_vector(alloc, predicate, from, count)?;
        kept.extend_from_slice(vector.as_slice())?;
    }
    Ok(kept)
}

fn value_of(alloc: Global, word: Word<'_>) -> Result<Value, AllocError> {
    match word {
        Word::Null => Ok(Value::Null),
        Word::Int(int) => Ok(Value::Int(int)),
        Word::Text(text) => Ok(Value::Text(Text::new(alloc, text)?)),
    }
}

fn fact_row(alloc: Global, word: Word<'_>) -> Result<Row, AllocError> {
    let mut values = Vec::new(alloc);
    values.push(value_of(alloc, word)?)?;
    Ok(Sequence::from_vec(values))
}

fn joined_row(alloc: Global, word: Word<'_>) -> Result<JoinedRow, AllocError> {
    let fact = fact_row(alloc, word)?;
    Ok(JoinedRow {
        fact,
        joins: Sequence::from_vec(Vec::new(alloc)),
        key: Sequence::from_vec(Vec::new(alloc)),
        aggregates: Sequence::from_vec(Vec::new(alloc)),
    })
}

/// Whether the oracle finds a condition TRUE of a row with this value in its first column.
fn is_true_of(alloc: Global, expr: &Expr, word: Word<'_>) -> Result<bool, AllocError> {
    let row = joined_row(alloc, word)?;
    let outcome = eval_row(alloc, expr, &row);
    drop(row);
    match outcome? {
        Outcome::Truth(Truth::True) => Ok(true),
        _ => Ok(false),
    }
}

/// Of each row whether the oracle finds a condition TRUE of it.
pub fn wanted_of(
    alloc: Global,
    expr: &Expr,
    values: &[Word<'_>],
    rows: usize,
) -> Result<Vec<bool>, AllocError> {
    let mut wanted = Vec::new(alloc);
    for row in 0..rows {
        wanted.push(is_true_of(alloc, expr, value_at(values, row))?)?;
    }
    Ok(wanted)
}
