//! The last step: from groups to rows, or to what is printed of them.
ghost use Rattle.std.specs.Prelude.{◌≡◌, ◌<◌, ◌^◌, false, length, map, true, IfOk};
ghost use Rattle.meaning.specs.Answer.{read_off};
ghost use Rattle.std.specs.List.{dedup};
ghost use Rattle.std.specs.Ordering.{eq_by_cmp};
ghost use Rattle.meaning.specs.Finish as the;
ghost use Rattle.meaning.specs.Order.{sorted};
ghost use Rattle.last_step.specs.Best.{best};
ghost use Rattle.last_step.specs.Fitting.{AreGroupsOf};
ghost use Rattle.last_step.specs.Given.{meant};
ghost use Rattle.last_step.specs.Printing.{IsPrintable, ShowsSomething, text_given, text_of};
ghost use Rattle.last_step.specs.Runs.{expanded};

use crate::expanding::expand;
use crate::finished::{Finished, FinishedText};
use crate::ordering::sort;
use crate::repeats::different_rows;
use crate::run::Run;
use crate::runs::runs_of;
use crate::showing::batch_groups;
use crate::stop::Stop;
use crate::texts::{batch_text, made_text};
use aggregate_states::Group;
use group_by::GroupSlice;
use meaning::{OrderKey, Plan, Row, Sequence};
use std::alloc::{AllocError, Global};
use std::mem::drop;

/// The rows of the runs in order, cut to so many.
fn sorted_rows(
    alloc: Global,
    order: &[OrderKey],
    limit: Option<u64>,
    runs: Vec<Run>,
) -> Result<Sequence<Row>, AllocError>
    ensures { IfOk result (λ rows. rows ≡ the.limited limit (sorted (the.order_cmp order.now)
        (expanded runs.items))) }
{
    let mut runs = runs;
    match sort(&mut runs, order) {
        Ok(()) => {
            runs.reverse();
            expand(alloc, runs, limit)
        }
        Err(fault) => {
            drop(runs);
            Err(fault)
        }
    }
}

/// Of rows in order each once, cut to so many.
fn cut_once(order: &[OrderKey], limit: Option<u64>, rows: Sequence<Row>) -> Sequence<Row>
    ensures { result ≡ the.limited limit (dedup (eq_by_cmp (the.order_cmp order.now)) rows) }
{
    let mut rows = different_rows(order, rows.into_vec());
    let Some(most) = limit else {
        return Sequence::from_vec(rows);
    };
    rows.truncate(most as usize);
    Sequence::from_vec(rows)
}

/// The rows of the runs in the order of the answer, cut by LIMIT.
fn rows_in_order(alloc: Global, plan: &Plan, runs: Vec<Run>) -> Result<Sequence<Row>, AllocError>
    ensures { IfOk result (λ rows. rows ≡ best plan.now (expanded runs.items)) }
{
    let order = plan.order.as_slice();
    if plan.distinct {
        let rows = sorted_rows(alloc, order, None, runs)?;
        return Ok(cut_once(order, plan.limit, rows));
    }
    sorted_rows(alloc, order, plan.limit, runs)
}

/// The rows of the groups, or their first fault.
fn finish_slice(alloc: Global, plan: &Plan, groups: GroupSlice<'_>) -> Result<Finished, AllocError>
    requires { AreGroupsOf plan.now groups }
    ensures value { IfOk result
        (λ f. meant f ≡ the.finish plan.now (map (read_off plan.now) groups.entry)) }
    ensures printable { ShowsSomething plan.now groups.entry → IfOk result (IsPrintable plan.now) }
{
    match runs_of(alloc, plan, groups) {
        Ok(runs) => Ok(Finished::Rows(rows_in_order(alloc, plan, runs)?)),
        Err(Stop::Fault(code)) => Ok(Finished::Fault(code)),
        Err(Stop::Memory) => Err(AllocError),
    }
}

/// From groups in the order of their keys to the rows of the answer, or to the first fault over
/// groups: in each group that of its aggregates, then of HAVING, then of the items, whatever LIMIT
/// says.
///
/// # Errors
///
/// Out of memory.
pub fn finish(alloc: Global, plan: &Plan, groups: &[Group]) -> Result<Finished, AllocError>
    // The plan has types over groups, and the groups are of its shape.
    requires { AreGroupsOf plan.now groups.now }
    ensures value { IfOk result
        (λ f. meant f ≡ the.finish plan.now (map (read_off plan.now) groups.now)) }
    // The rows can be printed.
    ensures printable { ShowsSomething plan.now groups.now → IfOk result (IsPrintable plan.now) }
{
    finish_slice(alloc, plan, GroupSlice::of(groups))
}

/// Whether so many groups are taken as one batch, whose rows are printed off its columns.
fn is_one_batch(plan: &Plan, groups: usize) -> bool
    ensures grouped { result ≡ true → plan.now.plain ≡ false }
    ensures few { result ≡ true → groups < 2 ^ 32 }
{
    if plan.plain {
        return false;
    }
    groups <= batch_groups(plan)
}

/// What is printed of the rows that are made.
fn text_of_finished(
    alloc: Global,
    plan: &Plan,
    finished: &Finished,
) -> Result<FinishedText, AllocError>
    requires { IsPrintable plan.now finished.now }
    ensures { IfOk result (λ text. text_given text ≡ text_of plan.now (meant finished.now)) }
{
    match finished {
        Finished::Rows(rows) => Ok(FinishedText::Rows(made_text(alloc, plan, rows.as_slice())?)),
        Finished::Fault(code) => Ok(FinishedText::Fault(*code)),
    }
}

/// What is printed of the rows that are made of the groups.
fn finish_by_rows(
    alloc: Global,
    plan: &Plan,
    groups: GroupSlice<'_>,
) -> Result<FinishedText, AllocError>
    requires groups { AreGroupsOf plan.now groups }
    requires shown { ShowsSomething plan.now groups }
    ensures { IfOk result (λ text. text_given text
        ≡ text_of plan.now (the.finish plan.now (map (read_off plan.now) groups.entry))) }
{
    let finished = finish_slice(alloc, plan, groups)?;
    let text = text_of_finished(alloc, plan, &finished);
    drop(finished);
    text
}

/// What is printed of groups that are one batch: no row is made.
fn finish_by_columns(
    alloc: Global,
    plan: &Plan,
    groups: &GroupSlice<'_>,
) -> Result<FinishedText, AllocError>
    requires grouped { plan.now.plain ≡ false }
    requires groups { AreGroupsOf plan.now groups.now }
    requires few { length groups.now < 2 ^ 32 }
    requires shown { ShowsSomething plan.now groups.now }
    ensures { IfOk result (λ text. text_given text
        ≡ text_of plan.now (the.finish plan.now (map (read_off plan.now) groups.now))) }
{
    match batch_text(alloc, plan, groups) {
        Ok(text) => Ok(FinishedText::Rows(text)),
        Err(Stop::Fault(code)) => Ok(FinishedText::Fault(code)),
        Err(Stop::Memory) => Err(AllocError),
    }
}

/// What is printed of the rows that `finish` makes of the groups, or their first fault. Where all
/// groups are one batch, what is printed is written off its columns. Rows are made where few are
/// left of many groups, and of a plain query's keys.
///
/// # Errors
///
/// Out of memory.
pub fn finish_text(
    alloc: Global,
    plan: &Plan,
    groups: GroupSlice<'_>,
) -> Result<FinishedText, AllocError>
    // The plan has types over groups, and the groups are of its shape.
    requires groups { AreGroupsOf plan.now groups }
    // The header and each row have a field.
    requires shown { ShowsSomething plan.now groups }
    ensures { IfOk result (λ text. text_given text
        ≡ text_of plan.now (the.finish plan.now (map (read_off plan.now) groups.entry))) }
{
    if is_one_batch(plan, groups.len()) {
        return finish_by_columns(alloc, plan, &groups);
    }
    finish_by_rows(alloc, plan, groups)
}
