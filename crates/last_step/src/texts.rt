//! What is printed of groups, written off their columns.
ghost use Rattle.std.specs.Prelude.{◌≡◌, ◌≢◌, ◌<◌, ◌^◌, [], false, length, map, All, IfOk, List};
ghost use Rattle.meaning.specs.declared.joined_row.JoinedRow.{JoinedRow};
ghost use Rattle.meaning.specs.Print.{rows_text};
ghost use Rattle.meaning.specs.Wanting.{ReportsIfMemory};
ghost use Rattle.last_step.specs.Batches.{HasValues, IsBatchOf, lane_row, shown_after};
ghost use Rattle.last_step.specs.Best.{best};
ghost use Rattle.last_step.specs.Fitting.{AreGroupsOf};
ghost use Rattle.last_step.specs.Given.{fault_returned};
ghost use Rattle.last_step.specs.Printing.{HasFields, best_text, text_or};
ghost use Rattle.last_step.specs.Runs.{rows_after};

use crate::aggregates::front_of;
use crate::group_columns::batch_of;
use crate::printable::LaneRows;
use crate::printing::{print_all, print_rows};
use crate::shown::evaluate;
use crate::sorting::best_positions;
use crate::stop::Stop;
use group_by::GroupSlice;
use meaning::{Plan, Row};
use std::alloc::{AllocError, Global};
use std::mem::drop;
use vectors::{Batch, Selection, Vector};

/// The text of a header and rows that are made.
pub fn made_text(alloc: Global, plan: &Plan, rows: &[Row]) -> Result<Vec<u8>, AllocError>
    requires { HasFields plan.now rows.now }
    ensures { IfOk result (λ text. text.items ≡ rows_text plan.now rows.now) }
{
    let mut text = Vec::new(alloc);
    match print_rows(alloc, plan, rows, &mut text) {
        Ok(()) => Ok(text),
        // A writer to memory fails where memory is wanting.
        Err(_) => Err(AllocError),
    }
}

/// The text of a header and the rows at positions of columns, none of which is made.
fn lanes_text(
    alloc: Global,
    plan: &Plan,
    items: &[Vector<'_>],
    positions: &[u32],
) -> Result<Vec<u8>, AllocError>
    requires { HasFields plan.now (map (lane_row items.now) positions.now) }
    ensures { IfOk result (λ text. text.items
        ≡ rows_text plan.now (map (lane_row items.now) positions.now)) }
{
    let mut text = Vec::new(alloc);
    match print_all(alloc, plan, &LaneRows { items, positions }, &mut text) {
        Ok(()) => Ok(text),
        // A writer to memory fails where memory is wanting.
        Err(_) => Err(AllocError),
    }
}

/// The text of the rows at the positions that are kept, in their order and cut.
fn kept_text(
    alloc: Global,
    plan: &Plan,
    items: &[Vector<'_>],
    kept: &Selection,
) -> Result<Vec<u8>, AllocError>
    requires small { kept.now.below < 2 ^ 32 }
    requires fields { HasFields plan.now (map (lane_row items.now) kept.now.list) }
    ensures { IfOk result (λ text. text.items
        ≡ rows_text plan.now (best plan.now (map (lane_row items.now) kept.now.list))) }
{
    let positions = best_positions(alloc, plan, items, kept)?;
    lanes_text(alloc, plan, items, positions.as_slice())
}

/// The text of what a batch of groups shows, or the first fault of HAVING and the items.
fn shown_text(alloc: Global, plan: &Plan, batch: &Batch<'_>) -> Result<Vec<u8>, Stop>
    requires small { batch.now.rows < 2 ^ 32 }
    requires items { plan.now.items ≢ [] }
    requires rows { (rows : List JoinedRow) × IsBatchOf plan.now rows batch.now }
    ensures { (rows : List JoinedRow) → IsBatchOf plan.now rows batch.now
        → ReportsIfMemory fault_returned (λ text. text.items) result
        (best_text plan.now (shown_after plan.now [] rows)) }
{
    let shown = evaluate(alloc, plan, batch)?;
    match shown.fault.held {
        Some(faulted) => Err(Stop::Fault(faulted.fault.code())),
        None => Ok(kept_text(alloc, plan, shown.items.as_slice(), &shown.kept)?),
    }
}

/// The text of what groups show none of whose aggregates has a fault.
fn sound_text(alloc: Global, plan: &Plan, groups: &GroupSlice<'_>) -> Result<Vec<u8>, Stop>
    requires grouped { plan.now.plain ≡ false }
    requires groups { AreGroupsOf plan.now groups.now }
    requires few { length groups.now < 2 ^ 32 }
    requires items { plan.now.items ≢ [] }
    requires values { All (HasValues plan.now) groups.now }
    ensures { ReportsIfMemory fault_returned (λ text. text.items) result
        (best_text plan.now (rows_after plan.now [] groups.now)) }
{
    let batch = batch_of(alloc, plan, groups)?;
    let text = shown_text(alloc, plan, &batch);
    drop(batch);
    text
}

/// The text, unless there is a fault behind what it is of.
fn unless_fault(fault: Option<u8>, text: Vec<u8>) -> Result<Vec<u8>, Stop>
    ensures { ReportsIfMemory fault_returned (λ text. text.items) result (text_or fault text.items) }
{
    match fault {
        Some(code) => Err(Stop::Fault(code)),
        None => Ok(text),
    }
}

/// The text of what groups show that are one batch, or their first fault.
pub fn batch_text(alloc: Global, plan: &Plan, groups: &GroupSlice<'_>) -> Result<Vec<u8>, Stop>
    requires grouped { plan.now.plain ≡ false }
    requires groups { AreGroupsOf plan.now groups.now }
    requires few { length groups.now < 2 ^ 32 }
    requires items { plan.now.items ≢ [] }
    ensures { ReportsIfMemory fault_returned (λ text. text.items) result
        (best_text plan.now (rows_after plan.now [] groups.now)) }
{
    let front = front_of(alloc, plan, groups)?;
    let sound = groups.first(front.count);
    let text = sound_text(alloc, plan, &sound)?;
    unless_fault(front.fault, text)
}
