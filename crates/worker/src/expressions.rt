//! Keys and arguments of the selected rows of a batch, as vectors.
ghost use Rattle.std.specs.Prelude.{◌≡◌, List, map, All, IfOk};
ghost use Rattle.meaning.specs.declared.joined_row.JoinedRow.{JoinedRow};
ghost use Rattle.meaning.specs.declared.value.ColType.{ColType as AType};
ghost use Rattle.meaning.specs.Typing.{RowTypes, Valued};
ghost use Rattle.primitives.specs.Fitting.{AreTypedRows, Fits};
ghost use Rattle.worker.specs.Evaluated.{AreVectorsOf, IsVectorOf};

use crate::lanes::only_selected;
use meaning::{Aggregate, Expr, GroupingKey};
use primitives::eval_lanes;
use std::alloc::{AllocError, Global};
use vector_operators::{Fault1, LaneSet};
use vectors::{Batch, Selection, Vector};

/// What one expression gives at the selected positions, which are these lanes.
fn evaluate<'a>(
    alloc: Global,
    expr: &'a Expr,
    batch: &'a Batch<'_>,
    selection: &Selection,
    lanes: &LaneSet,
    fault: &mut Fault1,
) -> Result<Vector<'a>, AllocError>
    requires below { selection.now.below ≡ batch.now.rows }
    requires same { lanes.now ≡ selection.now }
    ensures { IfOk result (λ v. (types : RowTypes) (kind : AType) (rows : List JoinedRow)
        → AreTypedRows types batch.now rows → Fits types batch.now.columns expr.now (Valued kind)
        → IsVectorOf expr.now rows selection.now fault.old.held fault.new.held v) }
{
    // That positions lie below the number of rows.
    let _positions = selection.len();
    let given = eval_lanes(alloc, expr, batch, lanes, fault)?;
    only_selected(alloc, given, selection)
}

/// What the grouping expressions give at the selected positions, which are these lanes, from left to
/// right.
pub fn evaluate_keys<'a>(
    alloc: Global,
    keys: &'a [GroupingKey],
    batch: &'a Batch<'_>,
    selection: &Selection,
    lanes: &LaneSet,
    fault: &mut Fault1,
) -> Result<Vec<Vector<'a>>, AllocError>
    requires below { selection.now.below ≡ batch.now.rows }
    requires same { lanes.now ≡ selection.now }
    ensures { IfOk result (λ vectors. (types : RowTypes) (rows : List JoinedRow)
        → AreTypedRows types batch.now rows
        → All (λ k. Fits types batch.now.columns k.expr (Valued k.col_type)) keys.now
        → AreVectorsOf (map (λ k. k.expr) keys.now) rows selection.now fault.old.held fault.new.held
        vectors.items) }
{
    let mut vectors = Vec::with_capacity(alloc, keys.len())?;
    for key in keys {
        vectors.push(evaluate(alloc, &key.expr, batch, selection, lanes, fault)?)?;
    }
    Ok(vectors)
}

/// What the aggregates' arguments give at the selected positions, which are these lanes, from left to
/// right.
pub fn evaluate_arguments<'a>(
    alloc: Global,
    aggregates: &'a [Aggregate],
    batch: &'a Batch<'_>,
    selection: &Selection,
    lanes: &LaneSet,
    fault: &mut Fault1,
) -> Result<Vec<Vector<'a>>, AllocError>
    requires below { selection.now.below ≡ batch.now.rows }
    requires same { lanes.now ≡ selection.now }
    ensures { IfOk result (λ vectors. (types : RowTypes) (rows : List JoinedRow)
        → AreTypedRows types batch.now rows
        → All (λ a. Fits types batch.now.columns a.argument (Valued a.col_type)) aggregates.now
        → AreVectorsOf (map (λ a. a.argument) aggregates.now) rows selection.now fault.old.held
        fault.new.held vectors.items) }
{
    let mut vectors = Vec::with_capacity(alloc, aggregates.len())?;
    for aggregate in aggregates {
        vectors.push(evaluate(alloc, &aggregate.argument, batch, selection, lanes, fault)?)?;
    }
    Ok(vectors)
}
