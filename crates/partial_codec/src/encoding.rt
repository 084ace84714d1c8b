//! Answers as bytes, and the parts that states have too.
ghost use Rattle.std.specs.Prelude.{◌≡◌, ◌<◌, ◌^◌, ◌++◌, drop, length, map, take, IfOk, OnOk};
ghost use Rattle.std.specs.List.{flat_map, AllByRecursion};
ghost use Rattle.aggregate_states.specs.Values.{entry, or_null};
ghost use Rattle.meaning.specs.declared.answer.Body.TheVariants.{Groups};
ghost use Rattle.meaning.specs.Order.{value_in};
ghost use Rattle.meaning.specs.TypeCodes.{type_code};
ghost use Rattle.partial_codec.specs.Answer.{Fits};
ghost use Rattle.answer_fields.specs.Format.{newest};
ghost use Rattle.answer_fields.specs.Ranges.{AreStates, IsBody, IsExtreme, IsGroup, IsState, IsValue};
ghost use Rattle.answer_fields.specs.Shape as shapes;
ghost use Rattle.partial_codec.specs.Spelling as spec;
ghost use Rattle.wire.specs.Bytes.{i128_bytes, number_bytes};

use crate::job::Job;
use aggregate_states::{Group, State};
use answer_fields::{
    Content, Format, argument_code, kind_code, put_set, put_value, put_values, shape_of_aggregate,
};
use meaning::{
    Aggregate, AggregateKind, Answer, Body, GroupingKey, Plan, RowFault, ValueRef, type_code,
};
use packed_groups::{PackedGroups, Unpacking};
use std::alloc::{AllocError, Global};
use std::mem::drop;
use wire::{append_i128, append_seal, append_text, append_u8, append_u16, append_u32, append_u64};

/// How many groups are unpacked at a time: some hundred thousand bytes of them.
const BATCH: usize = 256;

/// The load, the query and the cut.
#[tactic(auto, unfolding(answer_fields::specs::Spelling::job_bytes))]
pub fn put_job(out: &mut Vec<u8>, load: u64, text: &str, lengths: &[u32]) -> Result<(), AllocError>
    requires text { length text.now < 2 ^ 32 }
    requires fragments { length lengths.now < 2 ^ 32 }
    ensures { OnOk result (out.new.items ≡ out.old.items
        ++ spec.job_bytes load text.now lengths.now) }
{
    append_u64(out, load)?;
    append_text(out, text)?;
    append_u32(out, lengths.len() as u32)?;
    for length in lengths {
        append_u32(out, *length)?;
    }
    Ok(())
}

fn put_types(out: &mut Vec<u8>, keys: &[GroupingKey]) -> Result<(), AllocError>
    ensures { OnOk result (out.new.items ≡ out.old.items
        ++ flat_map (λ t. number_bytes 1 (type_code t)) (map (λ k. k.col_type) keys.now)) }
{
    for key in keys {
        append_u8(out, type_code(key.col_type))?;
    }
    Ok(())
}

fn put_aggregate(out: &mut Vec<u8>, aggregate: &Aggregate) -> Result<(), AllocError>
    ensures { OnOk result (out.new.items ≡ out.old.items
        ++ spec.aggregate_bytes (shapes.shape_of_aggregate aggregate.now)) }
{
    let shape = shape_of_aggregate(aggregate);
    append_u8(out, kind_code(shape.kind))?;
    append_u8(out, argument_code(shape.argument))
}

fn put_aggregates(out: &mut Vec<u8>, aggregates: &[Aggregate]) -> Result<(), AllocError>
    ensures { OnOk result (out.new.items ≡ out.old.items
        ++ flat_map spec.aggregate_bytes (map shapes.shape_of_aggregate aggregates.now)) }
{
    for aggregate in aggregates {
        put_aggregate(out, aggregate)?;
    }
    Ok(())
}

/// The shape of the plan's groups.
#[tactic(auto, unfolding(answer_fields::specs::Spelling::shape_bytes))]
pub fn put_shape(out: &mut Vec<u8>, plan: &Plan) -> Result<(), AllocError>
    requires keys { length plan.now.keys < 2 ^ 16 }
    requires aggregates { length plan.now.aggs < 2 ^ 16 }
    ensures { OnOk result (out.new.items ≡ out.old.items
        ++ spec.shape_bytes (shapes.shape_of plan.now)) }
{
    append_u16(out, plan.keys.len() as u16)?;
    put_types(out, plan.keys.as_slice())?;
    append_u16(out, plan.aggs.len() as u16)?;
    put_aggregates(out, plan.aggs.as_slice())
}

fn put_sum(out: &mut Vec<u8>, count: u64, sum: i128) -> Result<(), AllocError>
    requires { count < 2 ^ 32 }
    ensures { OnOk result (out.new.items ≡ out.old.items
        ++ (number_bytes 4 count ++ i128_bytes sum)) }
{
    append_u32(out, count as u32)?;
    append_i128(out, sum)
}

fn put_extreme(out: &mut Vec<u8>, count: u64, value: ValueRef<'_>) -> Result<(), AllocError>
    requires count { count < 2 ^ 32 }
    requires value { IsValue (value_in value) }
    ensures { OnOk result (out.new.items ≡ out.old.items
        ++ (number_bytes 4 count ++ spec.value_bytes (value_in value.entry))) }
{
    append_u32(out, count as u32)?;
    put_value(out, value)
}

/// What an aggregate of the kind keeps.
#[tactic(auto, unfolding(answer_fields::specs::Spelling::state_bytes))]
fn put_state(out: &mut Vec<u8>, kind: AggregateKind, state: &State) -> Result<(), AllocError>
    requires { IsState kind state.now }
    ensures { OnOk result (out.new.items ≡ out.old.items ++ spec.state_bytes kind state.now) }
{
    match kind {
        AggregateKind::CountRows => append_u32(out, state.count() as u32),
        AggregateKind::Count => append_u32(out, state.count() as u32),
        AggregateKind::Sum => put_sum(out, state.count(), state.sum()),
        AggregateKind::Avg => put_sum(out, state.count(), state.sum()),
        AggregateKind::Min => put_extreme(out, state.count(), state.least()),
        AggregateKind::Max => put_extreme(out, state.count(), state.greatest()),
        AggregateKind::CountDistinct => put_set(out, state.entries()),
        AggregateKind::SumDistinct => put_set(out, state.entries()),
    }
}

/// One state for each aggregate.
fn put_states(
    out: &mut Vec<u8>,
    aggregates: &[Aggregate],
    states: &[State],
) -> Result<(), AllocError>
    requires { AreStates (map shapes.shape_of_aggregate aggregates.now) states.now }
    ensures { OnOk result (out.new.items ≡ out.old.items
        ++ spec.states_bytes (map shapes.shape_of_aggregate aggregates.now) states.now) }
{
    for i in 0..aggregates.len() {
        put_state(out, aggregates[i].kind, &states[i])?;
    }
    Ok(())
}

#[tactic(auto, unfolding(answer_fields::specs::Spelling::group_bytes))]
fn put_group(out: &mut Vec<u8>, plan: &Plan, group: &Group) -> Result<(), AllocError>
    requires { IsGroup (shapes.shape_of plan.now) group.now }
    ensures { OnOk result (out.new.items ≡ out.old.items
        ++ spec.group_bytes (shapes.shape_of plan.now) group.now) }
{
    put_values(out, group.key().as_slice())?;
    append_u32(out, group.rows() as u32)?;
    put_states(out, plan.aggs.as_slice(), group.states())
}

fn put_all_groups(out: &mut Vec<u8>, plan: &Plan, groups: &[Group]) -> Result<(), AllocError>
    requires { AllByRecursion (IsGroup (shapes.shape_of plan.now)) groups.now }
    ensures { OnOk result (out.new.items ≡ out.old.items
        ++ flat_map (spec.group_bytes (shapes.shape_of plan.now)) groups.now) }
{
    for group in groups {
        put_group(out, plan, group)?;
    }
    Ok(())
}

/// A fault behind a 0.
fn put_fault(out: &mut Vec<u8>, fault: RowFault) -> Result<(), AllocError>
    ensures { OnOk result (out.new.items ≡ out.old.items
        ++ (number_bytes 1 0 ++ number_bytes 8 fault.row ++ number_bytes 1 fault.code)) }
{
    append_u8(out, 0)?;
    append_u64(out, fault.row)?;
    append_u8(out, fault.code)
}

/// The next groups of those that are left, in the buffers of some that are given up, and then given
/// up too.
fn put_batch(
    alloc: Global,
    out: &mut Vec<u8>,
    plan: &Plan,
    left: &mut Unpacking<'_>,
    spare: Vec<Group>,
) -> Result<Vec<Group>, AllocError>
    requires { AllByRecursion (IsGroup (shapes.shape_of plan.now)) left.old }
    ensures put { OnOk result (out.new.items ≡ out.old.items
        ++ flat_map (spec.group_bytes (shapes.shape_of plan.now)) (take 256 left.old)) }
    ensures left { OnOk result (left.new ≡ drop 256 left.old) }
{
    let groups = left.take(alloc, BATCH, spare)?;
    match put_all_groups(out, plan, groups.as_slice()) {
        Ok(()) => Ok(groups),
        Err(fault) => {
            drop(groups);
            Err(fault)
        }
    }
}

/// Packed groups, unpacked a few at a time.
fn put_packed_groups(
    alloc: Global,
    out: &mut Vec<u8>,
    plan: &Plan,
    groups: &PackedGroups,
) -> Result<(), AllocError>
    requires { AllByRecursion (IsGroup (shapes.shape_of plan.now)) groups.now }
    ensures { OnOk result (out.new.items ≡ out.old.items
        ++ flat_map (spec.group_bytes (shapes.shape_of plan.now)) groups.now) }
{
    let mut left = groups.batches();
    let mut spare = Vec::new(alloc);
    while left.len() > 0 {
        spare = put_batch(alloc, out, plan, &mut left, spare)?;
    }
    drop(spare);
    Ok(())
}

/// Groups, or a fault.
#[tactic(auto, unfolding(answer_fields::specs::Spelling::body_bytes))]
pub fn put_body(
    alloc: Global,
    out: &mut Vec<u8>,
    plan: &Plan,
    body: &Body<PackedGroups>,
) -> Result<(), AllocError>
    requires { IsBody (shapes.shape_of plan.now) body.now }
    ensures { OnOk result (out.new.items ≡ out.old.items
        ++ spec.body_bytes (shapes.shape_of plan.now) body.now) }
{
    match body {
        Body::Groups(groups) => {
            append_u8(out, 1)?;
            append_u32(out, groups.len() as u32)?;
            put_packed_groups(alloc, out, plan, groups)
        }
        Body::Fault(fault) => put_fault(out, *fault),
    }
}

/// All of an answer but its seal.
#[tactic(auto, unfolding(answer_fields::specs::Spelling::layout_bytes))]
fn put_layout(
    alloc: Global,
    out: &mut Vec<u8>,
    job: &Job,
    answer: &Answer<PackedGroups>,
) -> Result<(), AllocError>
    requires { IsBody (shapes.shape_of job.now.plan) answer.now.body }
    ensures { OnOk result (out.new.items ≡ out.old.items
        ++ spec.layout_bytes (spec.layout_of newest job.now answer.now)) }
{
    let text = job.plan().text.as_str();
    let lengths = job.cut().lengths();
    out.extend_from_slice(&Format::newest().magic(Content::Answer))?;
    put_job(out, job.load(), text, lengths)?;
    append_u32(out, answer.k)?;
    put_shape(out, job.plan())?;
    put_body(alloc, out, job.plan(), &answer.body)
}

/// An answer that fits the job, as it is spelled in the newest format.
pub fn encode(
    alloc: Global,
    job: &Job,
    answer: &Answer<PackedGroups>,
) -> Result<Vec<u8>, AllocError>
    requires { Fits job.now answer.now }
    ensures { IfOk result (λ bytes. bytes.items ≡ spec.answer_bytes job.now answer.now) }
{
    // No effect at run time. The proof reads from this call that the job's text and cut are within
    // their limits.
    let _plan = job.plan();
    let mut out = Vec::new(alloc);
    put_layout(alloc, &mut out, job, answer)?;
    append_seal(&mut out)?;
    Ok(out)
}
