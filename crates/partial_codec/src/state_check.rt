//! What was read of a state, held against the job.
ghost use Rattle.std.specs.Prelude.{◌≡◌, ◌*◌, length};
ghost use Rattle.std.specs.List.{list_all};
ghost use Rattle.answer_fields.specs.Keeping as keeping;
ghost use Rattle.answer_layouts.specs.Found.{AreFoundIn, AreFoundInCell, AreFoundInCells};
ghost use Rattle.answer_layouts.specs.Layouts.{sums_in};
ghost use Rattle.meaning.specs.declared.plan.Plan.{Plan as APlan};
ghost use Rattle.partial_codec.specs.Holding as holding;
ghost use Rattle.partial_codec.specs.Holding.{state_held_by};
ghost use Rattle.wire.specs.Reading.{Reads};

use crate::check::{are_numbers_possible, is_cut_of, is_query_of};
use crate::job::Job;
use answer_fields::{DecodeFault, is_shape_of};
use answer_layouts::{Findings, StateLayout};
use meaning::{Body, Cell, Plan};
use packed_groups::PackedGroups;
use std::mem::drop;

fn is_cell_typed(cell: &Cell<PackedGroups>, findings: Findings) -> bool
    ensures { (plan : APlan) → AreFoundInCell plan cell.now findings
        → result ≡ keeping.is_cell_typed plan cell.now }
{
    match cell {
        Cell::One(_) => findings.are_typed,
        Cell::Nothing | Cell::Conflict => true,
    }
}

fn are_cells_typed(cells: &[Cell<PackedGroups>], findings: &[Findings]) -> bool
    requires { length cells.now ≡ length findings.now }
    ensures { (plan : APlan) → AreFoundInCells plan cells.now findings.now
        → result ≡ list_all (keeping.is_cell_typed plan) cells.now }
{
    for k in 0..cells.len() {
        if !is_cell_typed(&cells[k], findings[k]) {
            return false;
        }
    }
    true
}

fn check_body(
    plan: &Plan,
    first: u64,
    rows: u64,
    body: &Body<PackedGroups>,
    findings: Findings,
) -> Result<(), DecodeFault>
    requires { AreFoundIn plan.now body.now findings }
    ensures { Reads (λ done. done) result
        (holding.body_held_by plan.now first rows body.now findings.are_sums_possible) }
{
    if !findings.are_in_order {
        return Err(DecodeFault::UnsortedGroups);
    }
    if !findings.are_sums_possible {
        return Err(DecodeFault::Numbers);
    }
    if !are_numbers_possible(plan, first, rows, body, findings) {
        return Err(DecodeFault::Numbers);
    }
    Ok(())
}

fn check_cell(
    plan: &Plan,
    first: u64,
    rows: u64,
    cell: &Cell<PackedGroups>,
    findings: Findings,
) -> Result<(), DecodeFault>
    requires { AreFoundInCell plan.now cell.now findings }
    ensures { Reads (λ done. done) result
        (holding.cell_held_by plan.now first rows cell.now findings.are_sums_possible) }
{
    match cell {
        Cell::One(body) => check_body(plan, first, rows, body, findings),
        Cell::Nothing | Cell::Conflict => Ok(()),
    }
}

/// Each cell held against its fragment, before the next is.
fn check_cells(
    job: &Job,
    cells: &[Cell<PackedGroups>],
    findings: &[Findings],
) -> Result<(), DecodeFault>
    requires fragments { length cells.now ≡ length job.now.cut }
    requires returned { length findings.now ≡ length job.now.cut }
    requires found { AreFoundInCells job.now.plan cells.now findings.now }
    ensures { Reads (λ done. done) result
        (holding.cells_held_by job.now 0 cells.now (sums_in findings.now)) }
{
    let lengths = job.cut().lengths();
    let mut first: u64 = 0;
    for k in 0..cells.len() {
        let rows = u64::from(lengths[k]);
        check_cell(job.plan(), first, rows, &cells[k], findings[k])?;
        first += rows;
    }
    Ok(())
}

/// The first thing in which the fields are not those of a state for the job.
#[tactic(auto, unfolding(crate::specs::Holding::state_held_by))]
fn check_state(job: &Job, layout: &StateLayout<'_>) -> Result<(), DecodeFault>
    requires cut { length layout.now.job.cut.now ≡ layout.now.job.fragments * 4 }
    requires cells { length layout.now.cells.items ≡ layout.now.job.fragments }
    requires returned { length layout.now.findings.items ≡ layout.now.job.fragments }
    requires found { AreFoundInCells job.now.plan layout.now.cells.items layout.now.findings.items }
    ensures { Reads (λ _. layout.now.cells.items) result (state_held_by job.now layout.now) }
{
    if layout.job.load != job.load() {
        return Err(DecodeFault::OtherLoad);
    }
    if !is_query_of(job, layout.job.text) {
        return Err(DecodeFault::OtherQuery);
    }
    if !is_cut_of(job, &layout.job) {
        return Err(DecodeFault::OtherCut);
    }
    if !is_shape_of(job.plan(), &layout.shape) {
        return Err(DecodeFault::Shape);
    }
    if !are_cells_typed(&layout.cells, &layout.findings) {
        return Err(DecodeFault::Shape);
    }
    check_cells(job, &layout.cells, &layout.findings)
}

/// The cells, where the fields are those of a state for the job.
pub fn hold_state_against(
    job: &Job,
    layout: StateLayout<'_>,
) -> Result<Vec<Cell<PackedGroups>>, DecodeFault>
    requires cut { length layout.job.cut.now ≡ layout.job.fragments * 4 }
    requires cells { length layout.cells.items ≡ layout.job.fragments }
    requires returned { length layout.findings.items ≡ layout.job.fragments }
    requires found { AreFoundInCells job.now.plan layout.cells.items layout.findings.items }
    ensures { Reads (λ cells. cells.items) result (state_held_by job.now layout.entry) }
{
    match check_state(job, &layout) {
        Ok(()) => {
            let StateLayout { cells, .. } = layout;
            Ok(cells)
        }
        Err(fault) => {
            drop(layout);
            Err(fault)
        }
    }
}
