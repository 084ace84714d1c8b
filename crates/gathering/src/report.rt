//! What a coordinator prints: its conflicts, what is missing, or what the answers say together.
ghost use Rattle.std.specs.Prelude.{◌≡◌, ◌≤◌, length, IfErr, IfOk, OnOk};
ghost use Rattle.std.specs.Io.KnownBytes.{Appends};
ghost use Rattle.meaning.specs.declared.plan.Plan.{Plan as APlan};
ghost use Rattle.meaning.specs.Limits.{max_fragments};
ghost use Rattle.meaning.specs.Gather.{conflict, fragments_where, missing, output, report};
ghost use Rattle.meaning.specs.Output.{Output as AnOutput};
ghost use Rattle.meaning.specs.Print.{fragments_text};
ghost use Rattle.gathering.specs.Output.{IsOutputOf};
ghost use Rattle.gathering.specs.Report.{IsReportOf, has_obstacle, report_of_output};

use crate::fault::GatherFault;
use crate::gather::Gather;
use crate::lines::print_fragments;
use crate::output::{Output, output_together};
use crate::packing::HeldCell;
use meaning::{Cell, Sequence};
use std::alloc::{AllocError, Global};
use std::io::Write;
use std::mem::drop;

/// Which of these a coordinator would print. Fragments ascend.
#[derive(Drop)]
pub enum Report {
    /// These fragments have unequal answers.
    Conflict(Sequence<u32>),
    /// These fragments have no answer, and none is in conflict.
    Missing(Sequence<u32>),
    /// All fragments have answers, and the query ends with a fault of arithmetic.
    Fault,
    /// All fragments have answers, and the query gives rows.
    Rows,
}

/// Whether a query's output is rows or a fault of arithmetic.
#[derive(Clone, Copy, Debug, PartialEq, Eq)]
pub enum Ended {
    Rows,
    Fault,
}

/// A report and what is printed of it.
#[derive(Drop)]
pub struct FullReport {
    pub report: Report,
    pub text: Vec<u8>,
}

/// What keeps a coordinator from an output.
#[derive(Clone, Copy)]
enum Obstacle {
    Conflict,
    NoAnswer,
}

fn has_obstacle(obstacle: Obstacle, cell: &HeldCell) -> bool
    ensures { result ≡ has_obstacle obstacle cell.now }
{
    match (obstacle, cell) {
        (Obstacle::Conflict, Cell::Conflict) | (Obstacle::NoAnswer, Cell::Nothing) => true,
        _ => false,
    }
}

/// The fragments whose cells have the obstacle, ascending.
fn fragments_with(
    alloc: Global,
    obstacle: Obstacle,
    cells: &[HeldCell],
) -> Result<Sequence<u32>, AllocError>
    requires { length cells.now ≤ max_fragments }
    ensures { IfOk result (λ ks. ks ≡ fragments_where (has_obstacle obstacle) cells.now) }
{
    let mut fragments = Sequence::new(alloc);
    for k in 0..cells.len() {
        if has_obstacle(obstacle, &cells[k]) {
            fragments.push(k as u32)?;
        }
    }
    Ok(fragments)
}

/// The line of a word and the numbers of fragments.
fn fragments_line(alloc: Global, word: &str, fragments: &[u32]) -> Result<Vec<u8>, AllocError>
    ensures { IfOk result (λ line. line.items ≡ fragments_text word.now fragments.now) }
{
    let mut line = Vec::new(alloc);
    match print_fragments(word, fragments, &mut line) {
        Ok(()) => Ok(line),
        // A writer to memory fails where memory is wanting.
        Err(_) => Err(AllocError),
    }
}

fn conflict_report(alloc: Global, fragments: Sequence<u32>) -> Result<FullReport, AllocError>
    ensures { (plan : APlan) → IfOk result (IsReportOf plan (conflict fragments)) }
{
    match fragments_line(alloc, "conflict", fragments.as_slice()) {
        Ok(text) => Ok(FullReport {
            report: Report::Conflict(fragments),
            text,
        }),
        Err(e) => {
            drop(fragments);
            Err(e)
        }
    }
}

fn missing_report(alloc: Global, fragments: Sequence<u32>) -> Result<FullReport, AllocError>
    ensures { (plan : APlan) → IfOk result (IsReportOf plan (missing fragments)) }
{
    match fragments_line(alloc, "missing", fragments.as_slice()) {
        Ok(text) => Ok(FullReport {
            report: Report::Missing(fragments),
            text,
        }),
        Err(e) => {
            drop(fragments);
            Err(e)
        }
    }
}

fn report_of_output(ended: Ended) -> Report
    ensures { result ≡ report_of_output ended }
{
    match ended {
        Ended::Rows => Report::Rows,
        Ended::Fault => Report::Fault,
    }
}

fn output_report(given: Output) -> FullReport
    ensures { (plan : APlan) (meant : AnOutput) → IsOutputOf plan meant given
        → IsReportOf plan (output meant) result }
{
    let Output { ended, text } = given;
    FullReport {
        report: report_of_output(ended),
        text,
    }
}

/// What is to be printed, all of it in memory.
pub fn full_report(alloc: Global, gather: &Gather) -> Result<FullReport, AllocError>
    ensures { IfOk result
        (IsReportOf gather.now.job.plan (report gather.now.job.plan gather.now.cells)) }
{
    // No effect at run time. The proof reads from this call the limits of a cut.
    let _lengths = gather.job().cut().lengths();
    let conflicts = fragments_with(alloc, Obstacle::Conflict, gather.cells())?;
    if conflicts.len() > 0 {
        return conflict_report(alloc, conflicts);
    }
    let missing = fragments_with(alloc, Obstacle::NoAnswer, gather.cells())?;
    if missing.len() > 0 {
        return missing_report(alloc, missing);
    }
    Ok(output_report(output_together(alloc, gather)?))
}

/// Prints a text that was made. Takes no memory.
pub fn print_text<W: Write>(text: Vec<u8>, out: &mut W) -> Result<(), GatherFault>
    ensures printed { OnOk result (Appends (W.contents out.old) (W.contents out.new)
        text.items) }
    ensures refused { IfErr result (λ e. e ≡ GatherFault.Writer) }
{
    match out.write_all(&text) {
        Ok(()) => Ok(()),
        Err(_) => Err(GatherFault::Writer),
    }
}
