//! The rows of a batch of which a condition is TRUE.
ghost use Rattle.std.specs.Prelude.{◌≡◌, ◌<◌, false, List, length, slice_index_or, filter, OnErr, OnOk};
ghost use Rattle.meaning.specs.Truth as true_of;
ghost use Rattle.meaning.specs.declared.outcome.Truth.TheVariants.{Unknown};
ghost use Rattle.meaning.specs.declared.joined_row.JoinedRow.{JoinedRow};
ghost use Rattle.meaning.specs.Typing.{Boolean, RowTypes};
ghost use Rattle.vectors.specs.Vector.{outcomes_of};
ghost use Rattle.vector_operators.specs.Evaluated.{lane_of};
ghost use Rattle.vector_operators.specs.Given.{is_true_lane};
ghost use Rattle.primitives.specs.Fitting.{AreTypedRows, Fits};
ghost use Rattle.primitives.specs.Meant.{meant_at};
ghost use Rattle.primitives.specs.Narrowed.{Narrows};

use crate::evaluation::eval_vec;
use meaning::{Expr, Truth};
use std::alloc::{AllocError, Global};
use std::mem::drop;
use vector_operators::Fault1;
use vectors::{Batch, Selection, TruthCells, Truths, Vector};

#[inline(always)]
fn is_true(truth: Truth) -> bool
    ensures { result ≡ true_of.is_true truth }
{
    matches!(truth, Truth::True)
}

#[inline(always)]
fn truth_at(cells: &[Truth], lane: usize) -> Truth
    requires { lane < length cells.now }
    ensures { result ≡ slice_index_or cells.now lane Unknown }
{
    cells[lane]
}

fn keep_cells(selection: &mut Selection, cells: &[Truth])
    requires { length cells.now ≡ selection.old.below }
    ensures { selection.new ≡ record {
      below = selection.old.below;
      list = filter (λ p. true_of.is_true (slice_index_or cells.now p Unknown)) selection.old.list;
    } }
{
    // No effect at run time. The proof reads from this call that positions ascend below the length.
    let _positions = selection.len();
    selection.narrow(|position| is_true(truth_at(cells, position as usize)));
}

fn keep_lanes(selection: &mut Selection, truths: &Truths)
    requires { length truths.now ≡ selection.old.below }
    ensures { selection.new ≡ record {
      below = selection.old.below;
      list = filter (λ p. true_of.is_true (slice_index_or truths.now p Unknown))
          selection.old.list;
    } }
{
    // No effect at run time. The proof reads from this call that positions ascend below the length.
    let _positions = selection.len();
    selection.narrow(|position| is_true(truths.get(position as usize)));
}

/// Keeps the positions of the selection whose lanes are TRUE. Takes no memory.
fn keep_truths(selection: &mut Selection, truths: &Truths)
    requires { length truths.now ≡ selection.old.below }
    ensures { selection.new ≡ record {
      below = selection.old.below;
      list = filter (λ p. true_of.is_true (slice_index_or truths.now p Unknown))
          selection.old.list;
    } }
{
    match truths.cells() {
        TruthCells::Owned(cells) => keep_cells(selection, cells.as_slice()),
        TruthCells::Repeated { .. } => keep_lanes(selection, truths),
    }
}

fn keep_none(selection: &mut Selection)
    ensures { selection.new ≡ record {
      below = selection.old.below;
      list = filter (λ _. false) selection.old.list;
    } }
{
    // No effect at run time. The proof reads from this call that positions ascend below the length.
    let _positions = selection.len();
    selection.narrow(|_| false);
}

/// The same for lanes of any kind: those that are no truths are dropped.
fn keep_true(selection: &mut Selection, lanes: &Vector<'_>)
    requires { length (outcomes_of lanes.now) ≡ selection.old.below }
    ensures { selection.new ≡ record {
      below = selection.old.below;
      list = filter (λ p. is_true_lane (lane_of lanes.now p)) selection.old.list;
    } }
{
    match lanes {
        Vector::Truths(truths) => keep_truths(selection, truths),
        Vector::Ints(_) => keep_none(selection),
        Vector::Texts(_) => keep_none(selection),
    }
}

/// Evaluates a condition on the selected rows of a batch, and keeps the positions at which it is
/// TRUE.
///
/// Its fault is noted as `eval_vec` does it. Of the positions before the fault that is then held
/// just those stay at which the condition is TRUE; which stay past it is open. On an error the
/// selection is as it was.
pub fn keep_where(
    alloc: Global,
    condition: &Expr,
    batch: &Batch<'_>,
    selection: &mut Selection,
    fault: &mut Fault1,
) -> Result<(), AllocError>
    requires { selection.old.below ≡ batch.now.rows }
    ensures below { selection.new.below ≡ selection.old.below }
    ensures kept { OnOk result ((types : RowTypes) (rows : List JoinedRow)
        → AreTypedRows types batch.now rows → Fits types batch.now.columns condition.now Boolean
        → Narrows (meant_at condition.now rows) selection.old.list selection.new.list fault.old.held
        fault.new.held) }
    ensures unchanged { OnErr result (selection.new ≡ selection.old) }
{
    let lanes = eval_vec(alloc, condition, batch, selection, fault)?;
    keep_true(selection, &lanes);
    drop(lanes);
    Ok(())
}
