//! The body of an answer, read from front to back: groups, which are packed and judged, or a fault.
ghost use Rattle.std.specs.Prelude.{◌≡◌, IfOk};
ghost use Rattle.meaning.specs.declared.answer.Body.TheVariants.{Fault};
ghost use Rattle.meaning.specs.Wanting.{KeepsIfMemory};
ghost use Rattle.answer_fields.specs.Fields.{shape_in};
ghost use Rattle.answer_fields.specs.Keeping.{AreKept, IsKept, are_sums_possible, has_possible_sums, kept_body, kept_group};
ghost use Rattle.answer_fields.specs.LayoutReading as reading;
ghost use Rattle.answer_layouts.specs.Found.{AreFound, AreFoundIn};
ghost use Rattle.wire.specs.Reading.{Reads, repeat_at};

use crate::buffers::Buffers;
use crate::findings::{Findings, Judged};
use crate::states::take_states;
use aggregate_states::Group;
use answer_fields::{DecodeFault, Shape, refill_values};
use meaning::{Body, Plan, RowFault};
use packed_groups::PackedGroups;
use std::alloc::Global;
use std::mem::drop;
use wire::{take_u8, take_u32, take_u64};

/// A group, in buffers that are used again.
#[tactic(auto, unfolding(answer_fields::specs::LayoutReading::group_at))]
fn take_group<'a>(
    alloc: Global,
    spare: Buffers,
    shape: &Shape,
    bytes: &'a [u8],
) -> Result<(Group, bool, &'a [u8]), DecodeFault>
    ensures { KeepsIfMemory DecodeFault.Memory
        (λ x. IsKept kept_group has_possible_sums x.0 x.1 x.2.now) result
        (reading.group_at (shape_in shape.now) bytes.now) }
{
    let Buffers { key, states } = spare;
    let (key, rest) = refill_values(alloc, key, shape.keys.len(), bytes)?;
    let (rows, rest) = take_u32(rest)?;
    let (states, are_possible, rest) = take_states(alloc, states, &shape.aggregates, rest)?;
    let group = Group::new(key, u64::from(rows), states);
    Ok((group, are_possible, rest))
}

/// So many groups, packed and judged as they are read, each in the buffers of the one before. Memory
/// is taken for no more of them than the bytes can hold.
fn take_groups<'a>(
    alloc: Global,
    plan: &Plan,
    shape: &Shape,
    count: u32,
    bytes: &'a [u8],
) -> Result<(PackedGroups, Findings, &'a [u8]), DecodeFault>
    ensures read { KeepsIfMemory DecodeFault.Memory
        (λ x. AreKept kept_group has_possible_sums x.0 x.1.are_sums_possible x.2.now) result
        (repeat_at (reading.group_at (shape_in shape.now)) count bytes.now) }
    ensures found { IfOk result (λ x. AreFound plan.now x.0 x.1) }
{
    let mut groups = PackedGroups::new(alloc);
    let mut judged = Judged::none();
    let mut spare = Buffers::new(alloc);
    let mut are_possible = true;
    let mut rest = bytes;
    for _ in 0..count {
        let (group, is_possible, behind) = take_group(alloc, spare, shape, rest)?;
        groups = groups.with(&group)?;
        (judged, spare) = judged.with(alloc, plan, group);
        are_possible &= is_possible;
        rest = behind;
    }
    drop(spare);
    let groups = groups.fitted(alloc)?;
    Ok((groups, judged.findings(are_possible), rest))
}

#[tactic(auto, unfolding(answer_fields::specs::LayoutReading::fault_at))]
fn take_fault(bytes: &[u8]) -> Result<(RowFault, &[u8]), DecodeFault>
    ensures { Reads (λ x. (Fault x.0, x.1.now)) result (reading.fault_at bytes.now) }
{
    let (row, rest) = take_u64(bytes)?;
    let (code, rest) = take_u8(rest)?;
    Ok((RowFault { row, code }, rest))
}

/// Groups by the shape, or a fault; what was found of the groups; and the bytes behind them.
#[tactic(auto, unfolding(answer_fields::specs::LayoutReading::body_at, answer_fields::specs::LayoutReading::tagged_body_at, answer_fields::specs::LayoutReading::groups_at))]
pub fn take_body<'a>(
    alloc: Global,
    plan: &Plan,
    shape: &Shape,
    bytes: &'a [u8],
) -> Result<(Body<PackedGroups>, Findings, &'a [u8]), DecodeFault>
    ensures read { KeepsIfMemory DecodeFault.Memory
        (λ x. IsKept kept_body are_sums_possible x.0 x.1.are_sums_possible x.2.now) result
        (reading.body_at (shape_in shape.now) bytes.now) }
    ensures found { IfOk result (λ x. AreFoundIn plan.now x.0 x.1) }
{
    let (tag, rest) = take_u8(bytes)?;
    match tag {
        0 => {
            let (fault, rest) = take_fault(rest)?;
            Ok((Body::Fault(fault), Judged::none().findings(true), rest))
        }
        1 => {
            let (count, rest) = take_u32(rest)?;
            let (groups, findings, rest) = take_groups(alloc, plan, shape, count, rest)?;
            Ok((Body::Groups(groups), findings, rest))
        }
        _ => Err(DecodeFault::Shape),
    }
}
