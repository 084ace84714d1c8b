//! What all answers together print.
ghost use Rattle.std.specs.Prelude.{◌≡◌, map, IfOk};
ghost use Rattle.meaning.specs.declared.plan.Plan.{Plan as APlan};
ghost use Rattle.meaning.specs.Answer.{read_off};
ghost use Rattle.meaning.specs.Finish as the;
ghost use Rattle.meaning.specs.Gather.{preview};
ghost use Rattle.meaning.specs.Output.{final_fault, output_behind, row_fault};
ghost use Rattle.last_step.specs.Fitting.{AreGroupsOf};
ghost use Rattle.last_step.specs.Printing.{ShowsSomething, text_given, text_of};
ghost use Rattle.gathering.specs.Output.{IsOutputOf};

use crate::gather::Gather;
use crate::lines::{print_fault, print_row_fault};
use crate::report::Ended;
use group_by::GroupTable;
use last_step::{FinishedText, finish_text};
use meaning::{Plan, RowFault};
use std::alloc::{AllocError, Global};
use std::mem::drop;

/// What a query prints: rows behind a header, or the line of a fault.
#[derive(Drop)]
pub struct Output {
    pub ended: Ended,
    pub text: Vec<u8>,
}

/// What the last step prints of a table's groups.
fn finish_table(alloc: Global, plan: &Plan, table: &GroupTable) -> Result<FinishedText, AllocError>
    requires groups { AreGroupsOf plan.now table.now.groups }
    requires shown { ShowsSomething plan.now table.now.groups }
    ensures { IfOk result (λ text. text_given text
        ≡ text_of plan.now (the.finish plan.now (map (read_off plan.now) table.now.groups))) }
{
    let groups = table.ordered(alloc)?;
    let text = finish_text(alloc, plan, groups.slice(0, groups.len()));
    drop(groups);
    text
}

/// The line of a fault over groups.
fn fault_output(alloc: Global, code: u8) -> Result<Output, AllocError>
    ensures { (plan : APlan) → IfOk result (IsOutputOf plan (final_fault code)) }
{
    let mut text = Vec::new(alloc);
    match print_fault(code, &mut text) {
        Ok(()) => Ok(Output {
            ended: Ended::Fault,
            text,
        }),
        // A writer to memory fails where memory is wanting.
        Err(_) => Err(AllocError),
    }
}

/// The line of a row's fault.
fn row_fault_output(alloc: Global, fault: &RowFault) -> Result<Output, AllocError>
    ensures { (plan : APlan) → IfOk result (IsOutputOf plan (row_fault fault.now)) }
{
    let mut text = Vec::new(alloc);
    match print_row_fault(fault, &mut text) {
        Ok(()) => Ok(Output {
            ended: Ended::Fault,
            text,
        }),
        // A writer to memory fails where memory is wanting.
        Err(_) => Err(AllocError),
    }
}

/// The output that the last step gave.
fn finished_output(alloc: Global, finished: FinishedText) -> Result<Output, AllocError>
    ensures { (plan : APlan) (meant : the.Finished)
        → text_given finished ≡ text_of plan meant
        → IfOk result (IsOutputOf plan (output_behind meant)) }
{
    match finished {
        FinishedText::Rows(text) => Ok(Output {
            ended: Ended::Rows,
            text,
        }),
        FinishedText::Fault(code) => fault_output(alloc, code),
    }
}

/// The output of the answers together.
pub fn output_together(alloc: Global, gather: &Gather) -> Result<Output, AllocError>
    ensures { IfOk result
        (IsOutputOf gather.now.job.plan (preview gather.now.job.plan gather.now.cells)) }
{
    // No effect at run time. The proof reads from this call the limits of a cut.
    let _lengths = gather.job().cut().lengths();
    let totals = gather.totals();
    match &totals.least {
        Some(fault) => row_fault_output(alloc, fault),
        None => {
            let plan = gather.job().plan();
            let finished = finish_table(alloc, plan, totals.table.table())?;
            finished_output(alloc, finished)
        }
    }
}
