//! The fields that answers and states have, read from front to back.
ghost use Rattle.std.specs.Prelude.{◌≡◌, ◌*◌, IfOk, length};
ghost use Rattle.answer_fields.specs.Fields.{AreJobFields, shape_in, words};
ghost use Rattle.meaning.specs.Wanting.{GivesIfMemory, KeepsIfMemory};
ghost use Rattle.answer_fields.specs.LayoutReading as reading;
ghost use Rattle.wire.specs.Reading.{Reads, repeat_at};

use crate::fault::DecodeFault;
use crate::format::Format;
use crate::shape::{AggregateShape, Shape};
use meaning::{AggregateKind, ColType};
use std::alloc::Global;
use wire::{take_text, take_u8, take_u16, take_u32, take_u64};

/// The fields that describe the job. The lengths of the cut's fragments stand in four bytes each.
#[derive(Drop)]
pub struct JobFields<'a> {
    pub load: u64,
    pub text: &'a str,
    pub fragments: u32,
    pub cut: &'a [u8],
}

fn type_of(code: u8) -> Result<ColType, DecodeFault>
    ensures { Reads (λ t. t) result (reading.type_of code) }
{
    match code {
        1 => Ok(ColType::Int),
        2 => Ok(ColType::Text),
        _ => Err(DecodeFault::Shape),
    }
}

fn kind_of(code: u8) -> Result<AggregateKind, DecodeFault>
    ensures { Reads (λ k. k) result (reading.kind_of code) }
{
    match code {
        1 => Ok(AggregateKind::CountRows),
        2 => Ok(AggregateKind::Count),
        3 => Ok(AggregateKind::Sum),
        4 => Ok(AggregateKind::Min),
        5 => Ok(AggregateKind::Max),
        6 => Ok(AggregateKind::Avg),
        7 => Ok(AggregateKind::CountDistinct),
        8 => Ok(AggregateKind::SumDistinct),
        _ => Err(DecodeFault::Shape),
    }
}

/// The kind, where the format has it.
fn known_to(format: Format, kind: AggregateKind) -> Result<AggregateKind, DecodeFault>
    ensures { Reads (λ k. k) result (reading.known_to format kind) }
{
    if format.has_kind(kind) {
        return Ok(kind);
    }
    Err(DecodeFault::Shape)
}

#[tactic(auto, unfolding(crate::specs::LayoutReading::kind_at))]
fn take_kind(format: Format, bytes: &[u8]) -> Result<(AggregateKind, &[u8]), DecodeFault>
    ensures { Reads (λ x. (x.0, x.1.now)) result (reading.kind_at format bytes.now) }
{
    let (code, rest) = take_u8(bytes)?;
    let kind = known_to(format, kind_of(code)?)?;
    Ok((kind, rest))
}

fn no_argument(code: u8) -> Result<Option<ColType>, DecodeFault>
    ensures { Reads (λ a. a) result (reading.argument_from AggregateKind.CountRows code) }
{
    match code {
        0 => Ok(None),
        _ => Err(DecodeFault::Shape),
    }
}

fn argument_of(kind: AggregateKind, code: u8) -> Result<Option<ColType>, DecodeFault>
    ensures { Reads (λ a. a) result (reading.argument_from kind code) }
{
    match kind {
        AggregateKind::CountRows => no_argument(code),
        _ => Ok(Some(type_of(code)?)),
    }
}

#[tactic(auto, unfolding(crate::specs::LayoutReading::type_at))]
fn take_type(bytes: &[u8]) -> Result<(ColType, &[u8]), DecodeFault>
    ensures { Reads (λ x. (x.0, x.1.now)) result (reading.type_at bytes.now) }
{
    let (code, rest) = take_u8(bytes)?;
    Ok((type_of(code)?, rest))
}

#[tactic(auto, unfolding(crate::specs::LayoutReading::argument_at))]
fn take_argument(kind: AggregateKind, bytes: &[u8]) -> Result<(AggregateShape, &[u8]), DecodeFault>
    ensures { Reads (λ x. (x.0, x.1.now)) result (reading.argument_at kind bytes.now) }
{
    let (code, rest) = take_u8(bytes)?;
    let argument = argument_of(kind, code)?;
    Ok((AggregateShape { kind, argument }, rest))
}

#[tactic(auto, unfolding(crate::specs::LayoutReading::aggregate_at))]
fn take_aggregate(format: Format, bytes: &[u8]) -> Result<(AggregateShape, &[u8]), DecodeFault>
    ensures { Reads (λ x. (x.0, x.1.now)) result (reading.aggregate_at format bytes.now) }
{
    let (kind, rest) = take_kind(format, bytes)?;
    take_argument(kind, rest)
}

fn take_types(alloc: Global, count: u16, bytes: &[u8]) -> Result<(Vec<ColType>, &[u8]), DecodeFault>
    ensures { GivesIfMemory DecodeFault.Memory (λ x. (x.0.items, x.1.now)) result
        (repeat_at reading.type_at count bytes.now) }
{
    let mut types = Vec::new(alloc);
    let mut rest = bytes;
    for _ in 0..count {
        let (col_type, behind) = take_type(rest)?;
        types.push(col_type)?;
        rest = behind;
    }
    Ok((types, rest))
}

fn take_aggregates(
    alloc: Global,
    format: Format,
    count: u16,
    bytes: &[u8],
) -> Result<(Vec<AggregateShape>, &[u8]), DecodeFault>
    ensures { GivesIfMemory DecodeFault.Memory (λ x. (x.0.items, x.1.now)) result
        (repeat_at (reading.aggregate_at format) count bytes.now) }
{
    let mut aggregates = Vec::new(alloc);
    let mut rest = bytes;
    for _ in 0..count {
        let (aggregate, behind) = take_aggregate(format, rest)?;
        aggregates.push(aggregate)?;
        rest = behind;
    }
    Ok((aggregates, rest))
}

#[tactic(auto, unfolding(crate::specs::LayoutReading::shape_at))]
pub fn take_shape(
    alloc: Global,
    format: Format,
    bytes: &[u8],
) -> Result<(Shape, &[u8]), DecodeFault>
    ensures { GivesIfMemory DecodeFault.Memory (λ x. (shape_in x.0, x.1.now)) result
        (reading.shape_at format bytes.now) }
{
    let (count, rest) = take_u16(bytes)?;
    let (keys, rest) = take_types(alloc, count, rest)?;
    let (count, rest) = take_u16(rest)?;
    let (aggregates, rest) = take_aggregates(alloc, format, count, rest)?;
    Ok((Shape { keys, aggregates }, rest))
}

/// The bytes of so many lengths.
fn take_lengths(count: u32, bytes: &[u8]) -> Result<(&[u8], &[u8]), DecodeFault>
    ensures read { Reads (λ x. (words count x.0.now, x.1.now)) result
        (repeat_at reading.length_at count bytes.now) }
    ensures long { IfOk result (λ x. length x.0.now ≡ count * 4) }
{
    let size = count as usize * 4;
    if bytes.len() < size {
        return Err(DecodeFault::Truncated);
    }
    Ok(bytes.split_at(size))
}

/// The fields that describe the job, and the bytes behind them.
#[tactic(auto, unfolding(crate::specs::LayoutReading::job_at))]
pub fn take_job(bytes: &[u8]) -> Result<(JobFields<'_>, &[u8]), DecodeFault>
    ensures { KeepsIfMemory DecodeFault.Memory (λ x y. AreJobFields x.0 y.0
        × (x.1.now ≡ y.1)) result (reading.job_at bytes.now) }
{
    let (load, rest) = take_u64(bytes)?;
    let (text, rest) = take_text(rest)?;
    let (fragments, rest) = take_u32(rest)?;
    let (cut, rest) = take_lengths(fragments, rest)?;
    Ok((
        JobFields {
            load,
            text,
            fragments,
            cut,
        },
        rest,
    ))
}
