//! HAVING and the items over a batch of groups.
ghost use Rattle.std.specs.Prelude.{◌≡◌, ◌<◌, ◌^◌, [], None, List, length, IfOk};
ghost use Rattle.meaning.specs.declared.joined_row.JoinedRow.{JoinedRow};
ghost use Rattle.meaning.specs.Typing.{Boolean, RowTypes};
ghost use Rattle.vectors.specs.Selection.{IsSelection};
ghost use Rattle.primitives.specs.Fitting.{AreTypedRows, Fits};
ghost use Rattle.primitives.specs.Meant.{meant_at};
ghost use Rattle.primitives.specs.Narrowed.{Narrows};
ghost use Rattle.last_step.specs.Batches.{IsBatchOf, Shows};

use meaning::{Expr, Plan};
use primitives::{eval_lanes, keep_where};
use std::alloc::{AllocError, Global};
use vector_operators::{Fault1, LaneSet};
use vectors::{Batch, Selection, Vector};

/// The selected groups of which a condition is TRUE.
fn kept_where(
    alloc: Global,
    condition: &Expr,
    batch: &Batch<'_>,
    selection: Selection,
    fault: &mut Fault1,
) -> Result<Selection, AllocError>
    requires { selection.below ≡ batch.now.rows }
    ensures below { IfOk result (λ kept. kept.below ≡ selection.below) }
    ensures kept { IfOk result (λ kept. (types : RowTypes) (rows : List JoinedRow)
        → AreTypedRows types batch.now rows → Fits types batch.now.columns condition.now Boolean
        → Narrows (meant_at condition.now rows) selection.list kept.list fault.old.held
        fault.new.held) }
{
    let mut kept = selection;
    keep_where(alloc, condition, batch, &mut kept, fault)?;
    Ok(kept)
}

/// The groups that HAVING keeps.
fn kept_by_having(
    alloc: Global,
    plan: &Plan,
    batch: &Batch<'_>,
    fault: &mut Fault1,
) -> Result<Selection, AllocError>
    requires small { batch.now.rows < 2 ^ 32 }
    requires none { fault.old.held ≡ None }
    ensures below { IfOk result (λ kept. kept.below ≡ batch.now.rows) }
    ensures shows { IfOk result (λ kept. (rows : List JoinedRow) → IsBatchOf plan.now rows batch.now
        → Shows plan.now rows 0 kept.list fault.new.held []) }
{
    let all = Selection::all(alloc, batch.rows() as u32)?;
    match &plan.having {
        Some(condition) => kept_where(alloc, condition, batch, all, fault),
        None => Ok(all),
    }
}

/// What each item gives for the groups that are kept.
fn item_vectors<'a>(
    alloc: Global,
    plan: &'a Plan,
    batch: &'a Batch<'_>,
    kept: &Selection,
    fault: &mut Fault1,
) -> Result<Vec<Vector<'a>>, AllocError>
    requires { kept.now.below ≡ batch.now.rows }
    ensures { IfOk result (λ vectors. (rows : List JoinedRow)
        → IsBatchOf plan.now rows batch.now
        → Shows plan.now rows 0 kept.now.list fault.old.held []
        → Shows plan.now rows (length plan.now.items) kept.now.list fault.new.held vectors.items) }
{
    // That positions lie below the number of rows.
    let _positions = kept.len();
    let lanes = LaneSet::of(alloc, kept)?;
    let items = plan.items.as_slice();
    let mut vectors = Vec::with_capacity(alloc, items.len())?;
    for item in items {
        vectors.push(eval_lanes(alloc, &item.expr, batch, &lanes, fault)?)?;
    }
    Ok(vectors)
}

/// What a batch of groups shows: the groups that HAVING keeps, a vector for each item, and the
/// first fault. Lanes from the fault on are open.
#[derive(Drop)]
pub struct Shown<'a> {
    pub kept: Selection,
    pub items: Vec<Vector<'a>>,
    pub fault: Fault1,
}

/// HAVING over a batch, and the items where it is TRUE.
pub fn evaluate<'a>(
    alloc: Global,
    plan: &'a Plan,
    batch: &'a Batch<'_>,
) -> Result<Shown<'a>, AllocError>
    requires { batch.now.rows < 2 ^ 32 }
    ensures below { IfOk result (λ s. s.kept.below ≡ batch.now.rows) }
    ensures sound { IfOk result (λ s. IsSelection s.kept) }
    ensures shows { IfOk result (λ s. (rows : List JoinedRow) → IsBatchOf plan.now rows batch.now
        → Shows plan.now rows (length plan.now.items) s.kept.list s.fault.held s.items.items) }
{
    let mut fault = Fault1::new();
    let kept = kept_by_having(alloc, plan, batch, &mut fault)?;
    // No effect at run time. The proof reads from this call that positions ascend below the length.
    let _positions = kept.len();
    let items = item_vectors(alloc, plan, batch, &kept, &mut fault)?;
    Ok(Shown { kept, items, fault })
}
