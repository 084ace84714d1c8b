//! The fields of an answer, read from front to back.
ghost use Rattle.std.specs.Prelude.{◌≡◌, IfOk};
ghost use Rattle.answer_fields.specs.LayoutReading as reading;
ghost use Rattle.answer_layouts.specs.Found.{AreFoundIn};
ghost use Rattle.answer_layouts.specs.Layouts.{IsLayout};
ghost use Rattle.meaning.specs.Wanting.{KeepsIfMemory};

use crate::body::take_body;
use crate::findings::Findings;
use answer_fields::{Content, DecodeFault, JobFields, Shape, take_format, take_job, take_shape};
use meaning::{Body, Plan};
use packed_groups::PackedGroups;
use std::alloc::Global;
use wire::take_u32;

/// All fields of an answer but its seal, and what was found of its groups.
#[derive(Drop)]
pub struct Layout<'a> {
    pub job: JobFields<'a>,
    pub k: u32,
    pub shape: Shape,
    pub body: Body<PackedGroups>,
    pub findings: Findings,
}

/// All fields up to the seal, and the bytes from there. The groups are held against the plan as they
/// are read.
#[tactic(auto, unfolding(answer_fields::specs::LayoutReading::layout_at))]
pub fn take_layout<'a>(
    alloc: Global,
    plan: &Plan,
    bytes: &'a [u8],
) -> Result<(Layout<'a>, &'a [u8]), DecodeFault>
    ensures read { KeepsIfMemory DecodeFault.Memory (λ x y. IsLayout x.0 y.0
        × (x.1.now ≡ y.1)) result (reading.layout_at bytes.now) }
    ensures found { IfOk result (λ x. AreFoundIn plan.now x.0.body x.0.findings) }
{
    let (format, rest) = take_format(Content::Answer, bytes)?;
    let (job, rest) = take_job(rest)?;
    let (k, rest) = take_u32(rest)?;
    let (shape, rest) = take_shape(alloc, format, rest)?;
    let (body, findings, rest) = take_body(alloc, plan, &shape, rest)?;
    Ok((
        Layout {
            job,
            k,
            shape,
            body,
            findings,
        },
        rest,
    ))
}
