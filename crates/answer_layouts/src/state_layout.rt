//! The fields of a state, read from front to back.
ghost use Rattle.std.specs.Prelude.{◌≡◌, IfOk, map};
ghost use Rattle.answer_fields.specs.Fields.{shape_in};
ghost use Rattle.answer_fields.specs.Keeping.{IsKept, is_cell_possible, kept_cell};
ghost use Rattle.answer_fields.specs.StateSpelling.{cell_at, state_layout_at};
ghost use Rattle.answer_layouts.specs.Found.{AreFoundInCell, AreFoundInCells};
ghost use Rattle.answer_layouts.specs.Layouts.{IsStateLayout, sums_in};
ghost use Rattle.meaning.specs.Wanting.{KeepsIfMemory};
ghost use Rattle.wire.specs.Reading.{repeat_at};

use crate::body::take_body;
use crate::findings::{Findings, Judged};
use answer_fields::{Content, DecodeFault, JobFields, Shape, take_format, take_job, take_shape};
use meaning::{Cell, Plan};
use packed_groups::PackedGroups;
use std::alloc::Global;
use wire::take_u8;

/// All fields of a state but its seal, and what was found of the groups in each cell.
#[derive(Drop)]
pub struct StateLayout<'a> {
    pub job: JobFields<'a>,
    pub shape: Shape,
    pub cells: Vec<Cell<PackedGroups>>,
    pub findings: Vec<Findings>,
}

#[tactic(auto, unfolding(answer_fields::specs::StateSpelling::cell_at, answer_fields::specs::StateSpelling::tagged_cell_at))]
fn take_cell<'a>(
    alloc: Global,
    plan: &Plan,
    shape: &Shape,
    bytes: &'a [u8],
) -> Result<(Cell<PackedGroups>, Findings, &'a [u8]), DecodeFault>
    ensures read { KeepsIfMemory DecodeFault.Memory
        (λ x. IsKept kept_cell is_cell_possible x.0 x.1.are_sums_possible x.2.now) result
        (cell_at (shape_in shape.now) bytes.now) }
    ensures found { IfOk result (λ x. AreFoundInCell plan.now x.0 x.1) }
{
    let (tag, rest) = take_u8(bytes)?;
    match tag {
        0 => Ok((Cell::Nothing, Judged::none().findings(true), rest)),
        1 => {
            let (body, findings, rest) = take_body(alloc, plan, shape, rest)?;
            Ok((Cell::One(body), findings, rest))
        }
        2 => Ok((Cell::Conflict, Judged::none().findings(true), rest)),
        _ => Err(DecodeFault::Shape),
    }
}

fn take_cells<'a>(
    alloc: Global,
    plan: &Plan,
    shape: &Shape,
    count: u32,
    bytes: &'a [u8],
) -> Result<(Vec<Cell<PackedGroups>>, Vec<Findings>, &'a [u8]), DecodeFault>
    ensures read { KeepsIfMemory DecodeFault.Memory (λ x y. (x.0.items ≡ map kept_cell y.0)
        × (sums_in x.1.items ≡ map is_cell_possible y.0) × (x.2.now ≡ y.1)) result
        (repeat_at (cell_at (shape_in shape.now)) count bytes.now) }
    ensures found { IfOk result (λ x. AreFoundInCells plan.now x.0.items x.1.items) }
{
    let mut cells = Vec::new(alloc);
    let mut findings = Vec::new(alloc);
    let mut rest = bytes;
    for _ in 0..count {
        let (cell, found, behind) = take_cell(alloc, plan, shape, rest)?;
        cells.push(cell)?;
        findings.push(found)?;
        rest = behind;
    }
    Ok((cells, findings, rest))
}

/// All fields up to the seal, and the bytes from there. The groups are held against the plan as they
/// are read.
#[tactic(auto, unfolding(answer_fields::specs::StateSpelling::state_layout_at))]
pub fn take_state_layout<'a>(
    alloc: Global,
    plan: &Plan,
    bytes: &'a [u8],
) -> Result<(StateLayout<'a>, &'a [u8]), DecodeFault>
    ensures read { KeepsIfMemory DecodeFault.Memory (λ x y. IsStateLayout x.0 y.0
        × (x.1.now ≡ y.1)) result (state_layout_at bytes.now) }
    ensures found { IfOk result
        (λ x. AreFoundInCells plan.now x.0.cells.items x.0.findings.items) }
{
    let (format, rest) = take_format(Content::State, bytes)?;
    let (job, rest) = take_job(rest)?;
    let (shape, rest) = take_shape(alloc, format, rest)?;
    let (cells, findings, rest) = take_cells(alloc, plan, &shape, job.fragments, rest)?;
    Ok((
        StateLayout {
            job,
            shape,
            cells,
            findings,
        },
        rest,
    ))
}
