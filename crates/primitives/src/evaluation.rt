//! Expressions over the columns of a batch.
ghost use Rattle.std.specs.Prelude.{◌≡◌, List, length, IfOk};
ghost use Rattle.meaning.specs.declared.joined_row.JoinedRow.{JoinedRow};
ghost use Rattle.meaning.specs.Typing.{ExprType, RowTypes};
ghost use Rattle.vectors.specs.Vector.{outcomes_of};
ghost use Rattle.vector_operators.specs.Evaluated.{IsEvaluated, lane_of};
ghost use Rattle.primitives.specs.Meant.{meant_at};
ghost use Rattle.primitives.specs.Fitting.{AreTypedRows, Fits};
ghost use Rattle.vector_operators.specs.Given.{IsOfType};

use crate::nodes::{Evaluation, eval};
use meaning::Expr;
use std::alloc::{AllocError, Global};
use vector_operators::{Fault1, LaneSet};
use vectors::{Batch, Selection, Vector};

/// What the expression gives on these lanes of the batch, as one vector.
///
/// The fault of the least lane that has one goes to `fault`, unless one at that lane or before is
/// held there. Each of these lanes before the fault that is then held is what evaluation gives on
/// its row; the others are open. Types fit where the expression has a type over the batch's
/// columns, and these are there.
pub fn eval_lanes<'a>(
    alloc: Global,
    expr: &'a Expr,
    batch: &'a Batch<'_>,
    lanes: &LaneSet,
    fault: &mut Fault1,
) -> Result<Vector<'a>, AllocError>
    requires { lanes.now.below ≡ batch.now.rows }
    ensures evaluated { IfOk result
        (λ v. (types : RowTypes) (type : ExprType) (rows : List JoinedRow)
        → AreTypedRows types batch.now rows → Fits types batch.now.columns expr.now type
        → IsEvaluated (meant_at expr.now rows) lanes.now.list fault.old.held fault.new.held
        (lane_of v)) }
    ensures typed { IfOk result (λ v. (types : RowTypes) (type : ExprType) (rows : List JoinedRow)
        → AreTypedRows types batch.now rows → Fits types batch.now.columns expr.now type
        → IsOfType type v) }
    ensures long { IfOk result (λ v. length (outcomes_of v) ≡ batch.now.rows) }
{
    // That lanes ascend below the number of rows.
    let _ = lanes.below();
    let on = Evaluation { alloc, batch };
    let given = eval(&on, expr, lanes, fault)?;
    given.into_vector(alloc, batch.rows())
}

/// What the expression gives on each selected row of the batch, as one vector.
///
/// The fault of the least selected position that has one goes to `fault`, unless one at that
/// position or before is held there. Each selected lane before the fault that is then held is what
/// evaluation gives on its row; the others are open. Types fit where the expression has a type over
/// the batch's columns, and these are there.
pub fn eval_vec<'a>(
    alloc: Global,
    expr: &'a Expr,
    batch: &'a Batch<'_>,
    selection: &Selection,
    fault: &mut Fault1,
) -> Result<Vector<'a>, AllocError>
    requires { selection.now.below ≡ batch.now.rows }
    ensures evaluated { IfOk result
        (λ v. (types : RowTypes) (type : ExprType) (rows : List JoinedRow)
        → AreTypedRows types batch.now rows → Fits types batch.now.columns expr.now type
        → IsEvaluated (meant_at expr.now rows) selection.now.list fault.old.held fault.new.held
        (lane_of v)) }
    ensures typed { IfOk result (λ v. (types : RowTypes) (type : ExprType) (rows : List JoinedRow)
        → AreTypedRows types batch.now rows → Fits types batch.now.columns expr.now type
        → IsOfType type v) }
    ensures long { IfOk result (λ v. length (outcomes_of v) ≡ batch.now.rows) }
{
    let lanes = LaneSet::of(alloc, selection)?;
    eval_lanes(alloc, expr, batch, &lanes, fault)
}
