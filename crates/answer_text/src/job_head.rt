//! What answers and states say of their job: load, query, cut and the shape of groups.
ghost use Rattle.std.specs.Prelude.{◌≡◌, ◌++◌, ◌*◌, ℕ, IfOk, OnOk, length, string_bytes, sum};
ghost use Rattle.wire.specs.Reading.{repeat_at, text_at};
ghost use Rattle.answer_fields.specs.Fault.{from_wire};
ghost use Rattle.answer_fields.specs.Fields.{AreJobFields, shape_in, words};
ghost use Rattle.answer_fields.specs.LayoutReading as reading;
ghost use Rattle.answer_fields.specs.LayoutReading.{JobFields as Fields};
ghost use Rattle.answer_text.specs.Reading.{IsSamePart, Judges, Keeps, Takes, TakesIfMemory, any_kind_at, capped};
ghost use Rattle.answer_text.specs.Texts.{aggregate_text, aggregates_text, argument_word, job_front, job_lines, job_text, keys_text, listed, shape_text, type_word};

use crate::cursor::Cursor;
use crate::damage::{Stop, Wrong};
use crate::values::{aggregate_word, before_argument, type_word};
use answer_fields::{AggregateShape, Format, JobFields, Shape};
use byteorder::{ByteOrder, LittleEndian};
use meaning::{AggregateKind, ColType};
use std::alloc::{AllocError, Global};

// ---- load, query and cut

/// The sum of numbers that stand in four bytes each.
fn sum_of(numbers: &[u8]) -> u64
    ensures { (n : ℕ) → length numbers.now ≡ n * 4 → result ≡ capped (sum (words n numbers.now)) }
{
    let mut total = 0u64;
    let mut rest = numbers;
    while rest.len() >= 4 {
        total = total.saturating_add(u64::from(LittleEndian::read_u32(rest)));
        let (_, behind) = rest.split_at(4);
        rest = behind;
    }
    total
}

/// The number of all rows.
fn rows_in(job: &JobFields<'_>) -> u64
    ensures { (read : Fields) → AreJobFields job.now read → result ≡ capped (sum read.cut) }
{
    sum_of(job.cut)
}

#[tactic(auto, unfolding(wire::specs::Reading::text_at))]
fn take_query<'a>(cursor: &mut Cursor<'a>) -> Result<&'a str, Stop>
    ensures read { Takes (λ t. t.now) result cursor.new.rest.now
        (from_wire (text_at 4 cursor.old.rest.now)) }
    ensures part { IsSamePart cursor.old cursor.new }
{
    let length = cursor.take_u32("the length of the query")?;
    cursor.take_text(length as usize, "the query")
}

/// The bytes of so many lengths.
fn take_lengths<'a>(cursor: &mut Cursor<'a>, count: u32) -> Result<&'a [u8], Stop>
    ensures read { Takes (λ b. words count b.now) result cursor.new.rest.now
        (repeat_at reading.length_at count cursor.old.rest.now) }
    ensures long { IfOk result (λ b. length b.now ≡ count * 4) }
    ensures part { IsSamePart cursor.old cursor.new }
{
    let size = count as usize * 4;
    cursor.take_bytes(size, "the fragments' numbers of rows")
}

/// Load, query and cut.
#[tactic(auto, unfolding(answer_fields::specs::LayoutReading::job_at))]
pub fn take_head<'a>(cursor: &mut Cursor<'a>) -> Result<JobFields<'a>, Stop>
    ensures read { Keeps AreJobFields result cursor.new.rest.now
        (reading.job_at cursor.old.rest.now) }
    ensures part { IsSamePart cursor.old cursor.new }
{
    let load = cursor.take_u64("the load")?;
    let text = take_query(cursor)?;
    let fragments = cursor.take_u32("the number of fragments")?;
    let cut = take_lengths(cursor, fragments)?;
    Ok(JobFields {
        load,
        text,
        fragments,
        cut,
    })
}

fn put_job_front(out: &mut String, load: u64, fragments: u32, rows: u64) -> Result<(), AllocError>
    ensures { OnOk result (string_bytes out.new ≡ string_bytes out.old
        ++ job_front load fragments rows) }
{
    write!(
        out,
        "load {load}\ncut of {fragments} fragments, {rows} rows\nquery: "
    )
}

fn put_job_lines(
    out: &mut String,
    load: u64,
    fragments: u32,
    rows: u64,
    query: &str,
) -> Result<(), AllocError>
    ensures { OnOk result (string_bytes out.new ≡ string_bytes out.old
        ++ job_lines load fragments rows query.now) }
{
    put_job_front(out, load, fragments, rows)?;
    out.push_str(query)?;
    out.push_str("\n")
}

/// Shows load, query and cut.
pub fn put_head(out: &mut String, job: &JobFields<'_>) -> Result<(), AllocError>
    ensures { OnOk result ((read : Fields) → AreJobFields job.now read
        → string_bytes out.new ≡ string_bytes out.old ++ job_text read) }
{
    put_job_lines(out, job.load, job.fragments, rows_in(job), job.text)
}

// ---- the shape of groups

#[tactic(auto, unfolding(answer_fields::specs::LayoutReading::type_at))]
fn take_type(cursor: &mut Cursor<'_>, field: &'static str) -> Result<ColType, Stop>
    ensures read { Takes (λ t. t) result cursor.new.rest.now
        (reading.type_at cursor.old.rest.now) }
    ensures part { IsSamePart cursor.old cursor.new }
{
    match cursor.take_u8(field)? {
        1 => Ok(ColType::Int),
        2 => Ok(ColType::Text),
        _ => Err(cursor.refuse(Wrong::Unknown, field)),
    }
}

fn take_any_kind(cursor: &mut Cursor<'_>, field: &'static str) -> Result<AggregateKind, Stop>
    ensures read { Takes (λ k. k) result cursor.new.rest.now (any_kind_at cursor.old.rest.now) }
    ensures part { IsSamePart cursor.old cursor.new }
{
    match cursor.take_u8(field)? {
        1 => Ok(AggregateKind::CountRows),
        2 => Ok(AggregateKind::Count),
        3 => Ok(AggregateKind::Sum),
        4 => Ok(AggregateKind::Min),
        5 => Ok(AggregateKind::Max),
        6 => Ok(AggregateKind::Avg),
        7 => Ok(AggregateKind::CountDistinct),
        8 => Ok(AggregateKind::SumDistinct),
        _ => Err(cursor.refuse(Wrong::Unknown, field)),
    }
}

/// A kind that the format has.
#[tactic(auto, unfolding(answer_fields::specs::LayoutReading::kind_at))]
fn take_kind(cursor: &mut Cursor<'_>, format: Format) -> Result<AggregateKind, Stop>
    ensures read { Takes (λ k. k) result cursor.new.rest.now
        (reading.kind_at format cursor.old.rest.now) }
    ensures part { IsSamePart cursor.old cursor.new }
{
    let field = "an aggregate's kind";
    let kind = take_any_kind(cursor, field)?;
    if !format.has_kind(kind) {
        return Err(cursor.refuse(Wrong::Unknown, field));
    }
    Ok(kind)
}

fn type_of(code: u8) -> Result<ColType, Wrong>
    ensures { Judges (λ t. t) result (reading.type_of code) }
{
    match code {
        1 => Ok(ColType::Int),
        2 => Ok(ColType::Text),
        _ => Err(Wrong::Unknown),
    }
}

fn no_argument(code: u8) -> Result<Option<ColType>, Wrong>
    ensures { Judges (λ a. a) result (reading.argument_from AggregateKind.CountRows code) }
{
    match code {
        0 => Ok(None),
        _ => Err(Wrong::Unknown),
    }
}

/// The type of an argument. COUNT(*) has none.
fn argument_of(kind: AggregateKind, code: u8) -> Result<Option<ColType>, Wrong>
    ensures { Judges (λ a. a) result (reading.argument_from kind code) }
{
    match kind {
        AggregateKind::CountRows => no_argument(code),
        _ => Ok(Some(type_of(code)?)),
    }
}

/// What stands behind an aggregate's kind.
#[tactic(auto, unfolding(answer_fields::specs::LayoutReading::argument_at))]
fn take_argument(cursor: &mut Cursor<'_>, kind: AggregateKind) -> Result<Option<ColType>, Stop>
    ensures read { Takes (λ a. record { kind = kind; argument = a }) result cursor.new.rest.now
        (reading.argument_at kind cursor.old.rest.now) }
    ensures part { IsSamePart cursor.old cursor.new }
{
    let field = "an argument's type";
    let code = cursor.take_u8(field)?;
    match argument_of(kind, code) {
        Ok(argument) => Ok(argument),
        Err(wrong) => Err(cursor.refuse(wrong, field)),
    }
}

#[tactic(auto, unfolding(answer_fields::specs::LayoutReading::aggregate_at))]
fn take_aggregate(cursor: &mut Cursor<'_>, format: Format) -> Result<AggregateShape, Stop>
    ensures read { Takes (λ a. a) result cursor.new.rest.now
        (reading.aggregate_at format cursor.old.rest.now) }
    ensures part { IsSamePart cursor.old cursor.new }
{
    let kind = take_kind(cursor, format)?;
    let argument = take_argument(cursor, kind)?;
    Ok(AggregateShape { kind, argument })
}

/// The types of so many keys.
fn take_types(alloc: Global, cursor: &mut Cursor<'_>, count: u16) -> Result<Vec<ColType>, Stop>
    ensures read { TakesIfMemory (λ v. v.items) result cursor.new.rest.now
        (repeat_at reading.type_at count cursor.old.rest.now) }
    ensures part { IsSamePart cursor.old cursor.new }
{
    let mut types = Vec::new(alloc);
    for _ in 0..count {
        let col_type = take_type(cursor, "a key's type")?;
        types.push(col_type)?;
    }
    Ok(types)
}

/// So many aggregates.
fn take_aggregates(
    alloc: Global,
    cursor: &mut Cursor<'_>,
    format: Format,
    count: u16,
) -> Result<Vec<AggregateShape>, Stop>
    ensures read { TakesIfMemory (λ v. v.items) result cursor.new.rest.now
        (repeat_at (reading.aggregate_at format) count cursor.old.rest.now) }
    ensures part { IsSamePart cursor.old cursor.new }
{
    let mut aggregates = Vec::new(alloc);
    for _ in 0..count {
        let aggregate = take_aggregate(cursor, format)?;
        aggregates.push(aggregate)?;
    }
    Ok(aggregates)
}

#[tactic(auto, unfolding(answer_fields::specs::LayoutReading::shape_at))]
pub fn take_shape(alloc: Global, cursor: &mut Cursor<'_>, format: Format) -> Result<Shape, Stop>
    ensures read { TakesIfMemory shape_in result cursor.new.rest.now
        (reading.shape_at format cursor.old.rest.now) }
    ensures part { IsSamePart cursor.old cursor.new }
{
    let count = cursor.take_u16("the number of keys")?;
    let keys = take_types(alloc, cursor, count)?;
    let count = cursor.take_u16("the number of aggregates")?;
    let aggregates = take_aggregates(alloc, cursor, format, count)?;
    Ok(Shape { keys, aggregates })
}

// ---- as text

/// The word of an argument's type, or a star.
fn argument_word(argument: Option<ColType>) -> &'static str
    ensures { result.now ≡ argument_word argument }
{
    match argument {
        Some(col_type) => type_word(col_type),
        None => "*",
    }
}

/// Writes an aggregate with the type of its argument.
pub fn put_aggregate(out: &mut String, aggregate: AggregateShape) -> Result<(), AllocError>
    ensures { OnOk result (string_bytes out.new ≡ string_bytes out.old
        ++ aggregate_text aggregate) }
{
    let word = aggregate_word(aggregate.kind);
    let before = before_argument(aggregate.kind);
    let argument = argument_word(aggregate.argument);
    write!(out, "{word}({before}{argument})")
}

/// Writes types, these words before the first of them.
fn put_types(out: &mut String, first: &'static str, types: &[ColType]) -> Result<(), AllocError>
    ensures { OnOk result (string_bytes out.new ≡ string_bytes out.old
        ++ listed first.now type_word types.now) }
{
    let mut between = first;
    for col_type in types {
        out.push_str(between)?;
        out.push_str(type_word(*col_type))?;
        between = ", ";
    }
    Ok(())
}

/// Shows the types of the keys.
fn put_keys(out: &mut String, keys: &[ColType]) -> Result<(), AllocError>
    ensures { OnOk result (string_bytes out.new ≡ string_bytes out.old ++ keys_text keys.now) }
{
    if keys.is_empty() {
        return out.push_str("no keys\n");
    }
    put_types(out, "keys: ", keys)?;
    out.push_str("\n")
}

/// Writes aggregates, these words before the first of them.
fn put_all(
    out: &mut String,
    first: &'static str,
    aggregates: &[AggregateShape],
) -> Result<(), AllocError>
    ensures { OnOk result (string_bytes out.new ≡ string_bytes out.old
        ++ listed first.now aggregate_text aggregates.now) }
{
    let mut between = first;
    for aggregate in aggregates {
        out.push_str(between)?;
        put_aggregate(out, *aggregate)?;
        between = ", ";
    }
    Ok(())
}

/// Shows the aggregates.
fn put_aggregates(out: &mut String, aggregates: &[AggregateShape]) -> Result<(), AllocError>
    ensures { OnOk result (string_bytes out.new ≡ string_bytes out.old
        ++ aggregates_text aggregates.now) }
{
    if aggregates.is_empty() {
        return out.push_str("no aggregates\n");
    }
    put_all(out, "aggregates: ", aggregates)?;
    out.push_str("\n")
}

/// Shows the types of the keys, and the aggregates.
pub fn put_shape(out: &mut String, shape: &Shape) -> Result<(), AllocError>
    ensures { OnOk result (string_bytes out.new ≡ string_bytes out.old
        ++ shape_text (shape_in shape.now)) }
{
    put_keys(out, shape.keys.as_slice())?;
    put_aggregates(out, shape.aggregates.as_slice())
}
