//! The body of an answer: groups, or a fault of arithmetic.
ghost use Rattle.std.specs.Prelude.{◌≡◌, ◌++◌, OnOk, codes, decimal, flat_map, length, string_bytes};
ghost use Rattle.wire.specs.Reading.{number_at, repeat_at, text_at};
ghost use Rattle.answer_fields.specs.Fault.{from_wire};
ghost use Rattle.answer_fields.specs.Fields.{shape_in};
ghost use Rattle.answer_fields.specs.Shape.{Shape as SomeShape};
ghost use Rattle.answer_fields.specs.LayoutReading.{body_at, fault_at, group_at, groups_at, set_at, state_at, states_at, value_at};
ghost use Rattle.answer_text.specs.Reading.{IsSamePart, Shows, Takes, extreme_at};
ghost use Rattle.answer_text.specs.Texts.{body_text, count_text, entries_text, extreme_text, fault_line, fault_text, fault_word, group_text, key_text, known_text, listed, state_text, states_text, value_text, where_groups};
ghost use Rattle.answer_text.specs.Values.{value_of};

use crate::cursor::Cursor;
use crate::damage::{Stop, Wrong};
use crate::detail::Detail;
use crate::job_head::put_aggregate;
use crate::values::{LentValue, put_value};
use answer_fields::{AggregateShape, Shape};
use meaning::AggregateKind;
use std::alloc::{AllocError, Global};

// ---- values

#[tactic(auto, unfolding(wire::specs::Reading::text_at))]
fn take_short_text<'a>(cursor: &mut Cursor<'a>, field: &'static str) -> Result<&'a str, Stop>
    ensures read { Takes (λ t. t.now) result cursor.new.rest.now
        (from_wire (text_at 2 cursor.old.rest.now)) }
    ensures part { IsSamePart cursor.old cursor.new }
{
    let length = cursor.take_u16(field)?;
    cursor.take_text(usize::from(length), field)
}

/// A value: NULL, an integer, or a text that is lent.
#[tactic(auto, unfolding(answer_fields::specs::LayoutReading::value_at, answer_fields::specs::LayoutReading::tagged_value_at))]
fn take_value<'a>(cursor: &mut Cursor<'a>, field: &'static str) -> Result<LentValue<'a>, Stop>
    ensures read { Takes value_of result cursor.new.rest.now (value_at cursor.old.rest.now) }
    ensures part { IsSamePart cursor.old cursor.new }
{
    match cursor.take_u8(field)? {
        0 => Ok(LentValue::Null),
        1 => Ok(LentValue::Int(cursor.take_i64(field)?)),
        2 => Ok(LentValue::Text(take_short_text(cursor, field)?)),
        _ => Err(cursor.refuse(Wrong::Unknown, field)),
    }
}

/// Shows so many values, with these words before the first of them.
fn show_values(
    cursor: &mut Cursor<'_>,
    count: usize,
    first: &'static str,
    field: &'static str,
    out: &mut String,
) -> Result<(), Stop>
    ensures shown { Shows (listed first.now value_text) result (string_bytes out.old)
        (string_bytes out.new) cursor.new.rest.now (repeat_at value_at count cursor.old.rest.now) }
    ensures part { IsSamePart cursor.old cursor.new }
{
    let mut between = first;
    for _ in 0..count {
        let value = take_value(cursor, field)?;
        out.push_str(between)?;
        put_value(out, value)?;
        between = ", ";
    }
    Ok(())
}

// ---- what is known of an aggregate's argument

fn put_count(out: &mut String, count: u32) -> Result<(), AllocError>
    ensures { OnOk result (string_bytes out.new ≡ string_bytes out.old ++ (codes " of "
        ++ decimal count)) }
{
    write!(out, " of {count}")
}

#[tactic(auto, unfolding(answer_fields::specs::LayoutReading::state_at))]
fn show_count(cursor: &mut Cursor<'_>, out: &mut String) -> Result<(), Stop>
    ensures shown { Shows (known_text AggregateKind.Count) result (string_bytes out.old)
        (string_bytes out.new) cursor.new.rest.now
        (state_at AggregateKind.Count cursor.old.rest.now) }
    ensures part { IsSamePart cursor.old cursor.new }
{
    let count = cursor.take_u32("how many values aren't NULL")?;
    put_count(out, count)?;
    Ok(())
}

#[tactic(auto, unfolding(answer_fields::specs::LayoutReading::state_at))]
fn show_sum(cursor: &mut Cursor<'_>, out: &mut String) -> Result<(), Stop>
    ensures shown { Shows (known_text AggregateKind.Sum) result (string_bytes out.old)
        (string_bytes out.new) cursor.new.rest.now
        (state_at AggregateKind.Sum cursor.old.rest.now) }
    ensures part { IsSamePart cursor.old cursor.new }
{
    let count = cursor.take_u32("how many values aren't NULL")?;
    put_count(out, count)?;
    let sum = cursor.take_i128("a sum")?;
    write!(out, ", sum {sum}")?;
    Ok(())
}

/// Shows how many values there are, and one of them behind this word.
fn show_extreme(cursor: &mut Cursor<'_>, word: &'static str, out: &mut String) -> Result<(), Stop>
    ensures shown { Shows (extreme_text word.now) result (string_bytes out.old)
        (string_bytes out.new) cursor.new.rest.now (extreme_at cursor.old.rest.now) }
    ensures part { IsSamePart cursor.old cursor.new }
{
    let count = cursor.take_u32("how many values aren't NULL")?;
    put_count(out, count)?;
    let value = take_value(cursor, "a least or greatest value")?;
    out.push_str(word)?;
    put_value(out, value)?;
    Ok(())
}

/// Shows how many entries a set has, and each of them.
fn show_set(cursor: &mut Cursor<'_>, out: &mut String) -> Result<(), Stop>
    ensures shown { Shows entries_text result (string_bytes out.old) (string_bytes out.new)
        cursor.new.rest.now (set_at cursor.old.rest.now) }
    ensures part { IsSamePart cursor.old cursor.new }
{
    let count = cursor.take_u32("how many entries a set has")?;
    put_count(out, count)?;
    show_values(cursor, count as usize, ": ", "an entry of a set", out)
}

/// Shows what is known of the argument of an aggregate of this kind.
fn show_known(cursor: &mut Cursor<'_>, kind: AggregateKind, out: &mut String) -> Result<(), Stop>
    ensures shown { Shows (known_text kind) result (string_bytes out.old) (string_bytes out.new)
        cursor.new.rest.now (state_at kind cursor.old.rest.now) }
    ensures part { IsSamePart cursor.old cursor.new }
{
    match kind {
        AggregateKind::CountRows => show_count(cursor, out),
        AggregateKind::Count => show_count(cursor, out),
        AggregateKind::Sum => show_sum(cursor, out),
        AggregateKind::Avg => show_sum(cursor, out),
        AggregateKind::Min => show_extreme(cursor, ", least ", out),
        AggregateKind::Max => show_extreme(cursor, ", greatest ", out),
        AggregateKind::CountDistinct => show_set(cursor, out),
        AggregateKind::SumDistinct => show_set(cursor, out),
    }
}

// ---- groups

/// Shows the statistics of an aggregate in a group.
fn show_statistics(
    cursor: &mut Cursor<'_>,
    aggregate: AggregateShape,
    out: &mut String,
) -> Result<(), Stop>
    ensures shown { Shows (state_text aggregate) result (string_bytes out.old)
        (string_bytes out.new) cursor.new.rest.now
        (state_at aggregate.kind cursor.old.rest.now) }
    ensures part { IsSamePart cursor.old cursor.new }
{
    out.push_str("; ")?;
    put_aggregate(out, aggregate)?;
    show_known(cursor, aggregate.kind, out)
}

/// Shows the statistics of these aggregates in a group.
fn show_states(
    cursor: &mut Cursor<'_>,
    aggregates: &[AggregateShape],
    out: &mut String,
) -> Result<(), Stop>
    ensures shown { Shows (states_text aggregates.now) result (string_bytes out.old)
        (string_bytes out.new) cursor.new.rest.now
        (states_at aggregates.now cursor.old.rest.now) }
    ensures part { IsSamePart cursor.old cursor.new }
{
    for aggregate in aggregates {
        show_statistics(cursor, *aggregate, out)?;
    }
    Ok(())
}

fn show_key(cursor: &mut Cursor<'_>, keys: usize, out: &mut String) -> Result<(), Stop>
    ensures shown { Shows key_text result (string_bytes out.old) (string_bytes out.new)
        cursor.new.rest.now (repeat_at value_at keys cursor.old.rest.now) }
    ensures part { IsSamePart cursor.old cursor.new }
{
    if keys == 0 {
        out.push_str("  all")?;
        return Ok(());
    }
    show_values(cursor, keys, "  ", "a key", out)
}

fn show_rows(cursor: &mut Cursor<'_>, out: &mut String) -> Result<(), Stop>
    ensures shown { Shows (λ rows. codes ": " ++ decimal rows ++ codes " rows") result
        (string_bytes out.old) (string_bytes out.new) cursor.new.rest.now
        (from_wire (number_at 4 cursor.old.rest.now)) }
    ensures part { IsSamePart cursor.old cursor.new }
{
    let rows = cursor.take_u32("a group's number of rows")?;
    write!(out, ": {rows} rows")?;
    Ok(())
}

/// Shows a group: its key, its number of rows, and its statistics.
fn show_group(cursor: &mut Cursor<'_>, shape: &Shape, out: &mut String) -> Result<(), Stop>
    ensures shown { Shows (group_text (shape_in shape.now)) result (string_bytes out.old)
        (string_bytes out.new) cursor.new.rest.now
        (group_at (shape_in shape.now) cursor.old.rest.now) }
    ensures part { IsSamePart cursor.old cursor.new }
{
    let keys = shape.keys.as_slice().len();
    show_key(cursor, keys, out)?;
    show_rows(cursor, out)?;
    show_states(cursor, shape.aggregates.as_slice(), out)?;
    out.push_str("\n")?;
    Ok(())
}

/// Writes a group's line, where groups are asked for.
fn put_line(out: &mut String, line: &str, detail: Detail) -> Result<(), AllocError>
    ensures { OnOk result (string_bytes out.new ≡ string_bytes out.old
        ++ where_groups detail line.now) }
{
    match detail {
        Detail::Nothing => Ok(()),
        Detail::Count => Ok(()),
        Detail::Groups => out.push_str(line),
    }
}

/// Reads a group, and shows it where that is asked for, as far as it can be read.
fn show_line(
    cursor: &mut Cursor<'_>,
    shape: &Shape,
    detail: Detail,
    line: &mut String,
    out: &mut String,
) -> Result<(), Stop>
    ensures shown { Shows (λ g. where_groups detail (group_text (shape_in shape.now) g)) result
        (string_bytes out.old) (string_bytes out.new) cursor.new.rest.now
        (group_at (shape_in shape.now) cursor.old.rest.now) }
    ensures part { IsSamePart cursor.old cursor.new }
{
    line.clear();
    let shown = show_group(cursor, shape, line);
    put_line(out, line.as_str(), detail)?;
    shown
}

/// Reads so many groups, and shows each where that is asked for.
fn show_groups(
    alloc: Global,
    cursor: &mut Cursor<'_>,
    shape: &Shape,
    count: u32,
    detail: Detail,
    out: &mut String,
) -> Result<(), Stop>
    ensures shown { Shows (λ gs. where_groups detail (flat_map (group_text (shape_in shape.now)) gs))
        result (string_bytes out.old) (string_bytes out.new) cursor.new.rest.now
        (repeat_at (group_at (shape_in shape.now)) count cursor.old.rest.now) }
    ensures part { IsSamePart cursor.old cursor.new }
{
    let mut line = String::new(alloc);
    for _ in 0..count {
        show_line(cursor, shape, detail, &mut line, out)?;
    }
    Ok(())
}

// ---- bodies

fn fault_word(code: u8) -> &'static str
    ensures { result.now ≡ fault_word code }
{
    match code {
        1 => "overflow",
        2 => "division by zero",
        _ => "an unknown code",
    }
}

fn put_fault_line(out: &mut String, row: u64, code: u8) -> Result<(), AllocError>
    ensures { OnOk result (string_bytes out.new ≡ string_bytes out.old
        ++ fault_line (record { row = row; code = code })) }
{
    let word = fault_word(code);
    writeln!(out, "fault {code} at row {row}: {word}")
}

/// Writes a fault, where anything is asked for.
fn put_fault(out: &mut String, row: u64, code: u8, detail: Detail) -> Result<(), AllocError>
    ensures { OnOk result (string_bytes out.new ≡ string_bytes out.old
        ++ fault_text detail (record { row = row; code = code })) }
{
    match detail {
        Detail::Nothing => Ok(()),
        Detail::Count => put_fault_line(out, row, code),
        Detail::Groups => put_fault_line(out, row, code),
    }
}

fn show_fault(cursor: &mut Cursor<'_>, detail: Detail, out: &mut String) -> Result<(), Stop>
    ensures shown { (shape : SomeShape) → Shows (body_text detail shape) result (string_bytes out.old)
        (string_bytes out.new) cursor.new.rest.now (fault_at cursor.old.rest.now) }
    ensures part { IsSamePart cursor.old cursor.new }
{
    let row = cursor.take_u64("the row of a fault")?;
    let code = cursor.take_u8("the code of a fault")?;
    put_fault(out, row, code, detail)?;
    Ok(())
}

/// Writes how many groups there are, where anything is asked for.
fn put_number(out: &mut String, count: u32, detail: Detail) -> Result<(), AllocError>
    ensures { OnOk result (string_bytes out.new ≡ string_bytes out.old ++ count_text detail count) }
{
    match detail {
        Detail::Nothing => Ok(()),
        Detail::Count => writeln!(out, "groups {count}"),
        Detail::Groups => writeln!(out, "groups {count}"),
    }
}

fn show_counted(
    alloc: Global,
    cursor: &mut Cursor<'_>,
    shape: &Shape,
    detail: Detail,
    out: &mut String,
) -> Result<(), Stop>
    ensures shown { Shows (body_text detail (shape_in shape.now)) result (string_bytes out.old)
        (string_bytes out.new) cursor.new.rest.now
        (groups_at (shape_in shape.now) cursor.old.rest.now) }
    ensures part { IsSamePart cursor.old cursor.new }
{
    let count = cursor.take_u32("the number of groups")?;
    put_number(out, count, detail)?;
    show_groups(alloc, cursor, shape, count, detail, out)
}

/// Reads a body, and shows as much of it as is asked for.
pub fn show_body(
    alloc: Global,
    cursor: &mut Cursor<'_>,
    shape: &Shape,
    detail: Detail,
    out: &mut String,
) -> Result<(), Stop>
    ensures shown { Shows (body_text detail (shape_in shape.now)) result (string_bytes out.old)
        (string_bytes out.new) cursor.new.rest.now
        (body_at (shape_in shape.now) cursor.old.rest.now) }
    ensures part { IsSamePart cursor.old cursor.new }
{
    let field = "whether there are groups or a fault";
    let tag = cursor.take_u8(field)?;
    if tag == 0 {
        return show_fault(cursor, detail, out);
    }
    if tag == 1 {
        return show_counted(alloc, cursor, shape, detail, out);
    }
    Err(cursor.refuse(Wrong::Unknown, field))
}
