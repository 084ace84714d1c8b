//! The states of coordinators as bytes: written, read and judged.
ghost use Rattle.std.specs.Prelude.{◌≡◌, ◌≢◌, ◌++◌, IfOk, IfErr, OnOk, List, Some, Ok};
ghost use Rattle.std.specs.List.{flat_map, AllByRecursion};
ghost use Rattle.meaning.specs.Said.{Cell as ACell};
ghost use Rattle.answer_fields.specs.Format.{newest};
ghost use Rattle.partial_codec.specs.Job.{IsJob};
ghost use Rattle.answer_fields.specs.Ranges.{IsCell};
ghost use Rattle.answer_fields.specs.Shape.{shape_of};
ghost use Rattle.partial_codec.specs.State.{FitsState, SpellsState, cell_bytes, judged_state, state_bytes, state_layout_bytes, state_layout_of, state_obstacle};
ghost use Rattle.meaning.specs.Wanting.{GivesIfMemory};

use crate::encoding::{put_body, put_job, put_shape};
use crate::job::Job;
use crate::state_check::hold_state_against;
use answer_fields::{Content, DecodeFault, Format};
use answer_layouts::take_state_layout;
use meaning::{Cell, Plan};
use packed_groups::PackedGroups;
use std::alloc::{AllocError, Global};
use wire::{SEAL_BYTES, append_seal, append_u8, check_seal, take_bytes};

#[tactic(auto, unfolding(answer_fields::specs::StateSpelling::cell_bytes))]
fn put_cell(
    alloc: Global,
    out: &mut Vec<u8>,
    plan: &Plan,
    cell: &Cell<PackedGroups>,
) -> Result<(), AllocError>
    requires { IsCell (shape_of plan.now) cell.now }
    ensures { OnOk result (out.new.items ≡ out.old.items ++ cell_bytes
        (shape_of plan.now) cell.now) }
{
    match cell {
        Cell::Nothing => append_u8(out, 0),
        Cell::One(body) => {
            append_u8(out, 1)?;
            put_body(alloc, out, plan, body)
        }
        Cell::Conflict => append_u8(out, 2),
    }
}

fn put_cells(
    alloc: Global,
    out: &mut Vec<u8>,
    plan: &Plan,
    cells: &[Cell<PackedGroups>],
) -> Result<(), AllocError>
    requires { AllByRecursion (IsCell (shape_of plan.now)) cells.now }
    ensures { OnOk result (out.new.items ≡ out.old.items
        ++ flat_map (cell_bytes (shape_of plan.now)) cells.now) }
{
    for cell in cells {
        put_cell(alloc, out, plan, cell)?;
    }
    Ok(())
}

/// All of a state but its seal.
#[tactic(auto, unfolding(answer_fields::specs::StateSpelling::state_layout_bytes))]
fn put_state_layout(
    alloc: Global,
    out: &mut Vec<u8>,
    job: &Job,
    cells: &[Cell<PackedGroups>],
) -> Result<(), AllocError>
    requires { AllByRecursion (IsCell (shape_of job.now.plan)) cells.now }
    ensures { OnOk result (out.new.items ≡ out.old.items
        ++ state_layout_bytes (state_layout_of newest job.now cells.now)) }
{
    let text = job.plan().text.as_str();
    let lengths = job.cut().lengths();
    out.extend_from_slice(&Format::newest().magic(Content::State))?;
    put_job(out, job.load(), text, lengths)?;
    put_shape(out, job.plan())?;
    put_cells(alloc, out, job.plan(), cells)
}

/// The cells that a coordinator holds for the job, one for each fragment, as they are spelled in
/// the newest format.
pub fn encode_state(
    alloc: Global,
    job: &Job,
    cells: &[Cell<PackedGroups>],
) -> Result<Vec<u8>, AllocError>
    requires { FitsState job.now cells.now }
    ensures { IfOk result (λ bytes. bytes.items ≡ state_bytes job.now cells.now) }
{
    // No effect at run time. The proof reads from this call that the job's text and cut are within
    // their limits.
    let _plan = job.plan();
    let mut out = Vec::new(alloc);
    put_state_layout(alloc, &mut out, job, cells)?;
    append_seal(&mut out)?;
    Ok(out)
}

#[tactic(auto, unfolding(crate::specs::State::judged_state))]
fn judge_state(
    alloc: Global,
    job: &Job,
    bytes: &[u8],
) -> Result<Vec<Cell<PackedGroups>>, DecodeFault>
    ensures exact { GivesIfMemory DecodeFault.Memory (λ cells. cells.items) result
        (judged_state job.now bytes.now) }
    ensures within_limits { IsJob job.now }
{
    let plan = job.plan();
    let (layout, rest) = take_state_layout(alloc, plan, bytes)?;
    let (seal, rest) = take_bytes(rest, SEAL_BYTES)?;
    check_seal(bytes, seal, rest)?;
    hold_state_against(job, layout)
}

/// The cells that the bytes spell for the job in either format, one for each fragment, or the first
/// obstacle.
///
/// The bytes are read from front to back; then come the seal, the job, the shape and all types; and
/// then, fragment by fragment, the order of the groups and of sets, and the numbers. Memory is taken
/// for no more than the bytes can hold, whatever counts they claim.
pub fn decode_state(
    alloc: Global,
    job: &Job,
    bytes: &[u8],
) -> Result<Vec<Cell<PackedGroups>>, DecodeFault>
    // What is given is spelled so.
    ensures spelled { IfOk result (λ cells. SpellsState job.now bytes.now cells.items) }
    // What is spelled so is given, unless memory runs out.
    ensures complete { (cells : List ACell) → SpellsState job.now bytes.now cells →
        GivesIfMemory DecodeFault.Memory (λ given. given.items) result (Ok cells) }
    // Which obstacle it is.
    ensures obstacle { IfErr result (λ e. e ≢ DecodeFault.Memory
        → state_obstacle job.now bytes.now ≡ Some e) }
{
    judge_state(alloc, job, bytes)
}
