//! The rows of groups.
ghost use Rattle.std.specs.Prelude.{◌≡◌, ◌++◌, ◌<◌, ◌≤◌, ◌^◌, true, false, slice_index_or, List, map, length, All, IfOk, OnOk};
ghost use Rattle.meaning.specs.declared.joined_row.JoinedRow.{JoinedRow};
ghost use Rattle.meaning.specs.declared.value.Value.TheVariants.{Null};
ghost use Rattle.meaning.specs.Order.{Row as ARow};
ghost use Rattle.aggregate_states.specs.Values.{is_spelled};
ghost use Rattle.vectors.specs.Vector.{values_of};
ghost use Rattle.last_step.specs.Batches.{HasValues, IsBatchOf, IsReadable, ended, lane_row, shown_after};
ghost use Rattle.last_step.specs.Best.{best, best_of};
ghost use Rattle.last_step.specs.Fitting.{AreGroupsOf};
ghost use Rattle.meaning.specs.Wanting.{ReportsIfMemory};
ghost use Rattle.last_step.specs.Given.{fault_returned};
ghost use Rattle.last_step.specs.Runs.{expanded, plain_rows, rows_after, times_kept};

use crate::aggregates::front_of;
use crate::group_columns::batch_of;
use crate::lanes::lane_value;
use crate::run::Run;
use crate::shown::evaluate;
use crate::sorting::{FEW_ROWS, best_positions};
use crate::stop::Stop;
use aggregate_states::owned;
use group_by::GroupSlice;
use meaning::{Plan, Row, Sequence, Value};
use std::alloc::{AllocError, Global};
use std::mem::drop;
use vectors::{Batch, Selection, Vector};

/// How many groups are taken at once where few rows are left of them, or none is evaluated: so few
/// that the cache holds them.
const BATCH_GROUPS: usize = 1024;

/// Of how many groups a batch picks a row at least, so that the rows picked are few beside the
/// groups.
const GROUPS_A_ROW: usize = 16;

/// How many groups are best taken at once: a batch that the cache holds, or, where many rows may be
/// left of it, all that a batch may have, so that they are sorted as columns.
pub fn batch_groups(plan: &Plan) -> usize
    ensures some { 0 < result }
    ensures few { result < 2 ^ 32 }
{
    if plan.plain {
        return BATCH_GROUPS;
    }
    match plan.limit {
        Some(most) if most <= FEW_ROWS => BATCH_GROUPS.max(most as usize * GROUPS_A_ROW),
        _ => u32::MAX as usize,
    }
}

/// A row in memory of its own.
pub fn copy_row(alloc: Global, row: &Row) -> Result<Row, AllocError>
    ensures { IfOk result (λ copy. copy ≡ row.now) }
{
    let mut copy = Sequence::new(alloc);
    for value in row.as_slice() {
        copy.push(value.clone()?)?;
    }
    Ok(copy)
}

/// The value of a lane, in memory of its own.
fn owned_value(alloc: Global, item: &Vector<'_>, lane: usize) -> Result<Value, AllocError>
    requires { is_spelled (slice_index_or (values_of item.now) lane Null) ≡ true }
    ensures { IfOk result (λ v. v ≡ slice_index_or (values_of item.now) lane Null) }
{
    owned(alloc, lane_value(item, lane))
}

/// The row of a lane.
fn row_at(alloc: Global, items: &[Vector<'_>], lane: usize) -> Result<Row, AllocError>
    requires { IsReadable (lane_row items.now lane) }
    ensures { IfOk result (λ row. row ≡ lane_row items.now lane) }
{
    let mut row = Vec::with_capacity(alloc, items.len())?;
    for item in items {
        row.push(owned_value(alloc, item, lane)?)?;
    }
    Ok(Sequence::from_vec(row))
}

/// A row for each of the positions.
fn push_at(
    alloc: Global,
    items: &[Vector<'_>],
    positions: &[u32],
    runs: &mut Vec<Run>,
) -> Result<(), AllocError>
    requires { All IsReadable (map (lane_row items.now) positions.now) }
    ensures { OnOk result (expanded runs.new.items ≡ expanded runs.old.items
        ++ map (lane_row items.now) positions.now) }
{
    for position in positions {
        let row = row_at(alloc, items, *position as usize)?;
        runs.push(Run { row, times: 1 })?;
    }
    Ok(())
}

/// The rows of the positions that are kept, as far as LIMIT can leave them.
fn push_best(
    alloc: Global,
    plan: &Plan,
    items: &[Vector<'_>],
    kept: &Selection,
    runs: &mut Vec<Run>,
) -> Result<(), AllocError>
    requires small { kept.now.below < 2 ^ 32 }
    requires readable { All IsReadable (map (lane_row items.now) kept.now.list) }
    ensures { OnOk result (best plan.now (expanded runs.new.items)
        ≡ best plan.now (expanded runs.old.items ++ map (lane_row items.now) kept.now.list)) }
{
    let positions = best_positions(alloc, plan, items, kept)?;
    push_at(alloc, items, positions.as_slice(), runs)
}

/// What a batch of groups shows, or the first fault of HAVING and the items.
fn push_shown(
    alloc: Global,
    plan: &Plan,
    batch: &Batch<'_>,
    runs: &mut Vec<Run>,
) -> Result<(), Stop>
    requires small { batch.now.rows < 2 ^ 32 }
    requires rows { (rows : List JoinedRow) × IsBatchOf plan.now rows batch.now }
    ensures { (rows : List JoinedRow) → IsBatchOf plan.now rows batch.now
        → ReportsIfMemory fault_returned (λ _. best plan.now (expanded runs.new.items)) result
        (best_of plan.now (shown_after plan.now (expanded runs.old.items) rows)) }
{
    let shown = evaluate(alloc, plan, batch)?;
    match shown.fault.held {
        Some(faulted) => Err(Stop::Fault(faulted.fault.code())),
        None => Ok(push_best(alloc, plan, shown.items.as_slice(), &shown.kept, runs)?),
    }
}

/// What groups show none of whose aggregates has a fault.
fn push_sound(
    alloc: Global,
    plan: &Plan,
    groups: &GroupSlice<'_>,
    runs: &mut Vec<Run>,
) -> Result<(), Stop>
    requires grouped { plan.now.plain ≡ false }
    requires groups { AreGroupsOf plan.now groups.now }
    requires few { length groups.now < 2 ^ 32 }
    requires values { All (HasValues plan.now) groups.now }
    ensures { ReportsIfMemory fault_returned (λ _. best plan.now (expanded runs.new.items)) result
        (best_of plan.now (rows_after plan.now (expanded runs.old.items) groups.now)) }
{
    let batch = batch_of(alloc, plan, groups)?;
    let pushed = push_shown(alloc, plan, &batch, runs);
    drop(batch);
    pushed
}

fn end_of(fault: Option<u8>) -> Result<(), Stop>
    ensures { (rows : List ARow) → ReportsIfMemory fault_returned (λ _. rows) result (ended fault rows) }
{
    match fault {
        Some(code) => Err(Stop::Fault(code)),
        None => Ok(()),
    }
}

/// What so many groups show as one batch holds.
fn push_batch(
    alloc: Global,
    plan: &Plan,
    groups: &GroupSlice<'_>,
    runs: &mut Vec<Run>,
) -> Result<(), Stop>
    requires grouped { plan.now.plain ≡ false }
    requires groups { AreGroupsOf plan.now groups.now }
    requires few { length groups.now < 2 ^ 32 }
    ensures { ReportsIfMemory fault_returned (λ _. best plan.now (expanded runs.new.items)) result
        (best_of plan.now (rows_after plan.now (expanded runs.old.items) groups.now)) }
{
    let front = front_of(alloc, plan, groups)?;
    let sound = groups.first(front.count);
    push_sound(alloc, plan, &sound, runs)?;
    end_of(front.fault)
}

/// What the groups show, batch by batch.
pub fn push_grouped(
    alloc: Global,
    plan: &Plan,
    groups: GroupSlice<'_>,
    runs: &mut Vec<Run>,
) -> Result<(), Stop>
    requires grouped { plan.now.plain ≡ false }
    requires groups { AreGroupsOf plan.now groups }
    ensures { ReportsIfMemory fault_returned (λ _. best plan.now (expanded runs.new.items)) result
        (best_of plan.now (rows_after plan.now (expanded runs.old.items) groups.entry)) }
{
    let most = batch_groups(plan);
    let mut rest = groups;
    while rest.len() > 0 {
        let (batch, behind) = rest.split(rest.len().min(most));
        push_batch(alloc, plan, &batch, runs)?;
        rest = behind;
    }
    Ok(())
}

/// How often a key is kept of so many rows. Where equal rows are shown once, once is enough.
fn times_kept(distinct: bool, rows: u64) -> u64
    ensures { result ≡ times_kept distinct rows }
{
    if distinct {
        return rows.min(1);
    }
    rows
}

/// The keys of a plain query, each as often as it is kept.
pub fn push_plain(
    alloc: Global,
    distinct: bool,
    groups: &GroupSlice<'_>,
    runs: &mut Vec<Run>,
) -> Result<(), AllocError>
    ensures { OnOk result (expanded runs.new.items ≡ expanded runs.old.items
        ++ plain_rows distinct groups.now) }
{
    for k in 0..groups.len() {
        let row = groups.key(alloc, k)?;
        runs.push(Run {
            row,
            times: times_kept(distinct, groups.rows(k)),
        })?;
    }
    Ok(())
}
