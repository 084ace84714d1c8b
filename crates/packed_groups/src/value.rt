//! Values as they are packed: put behind other bytes, and taken from the front.
ghost use Rattle.std.specs.Prelude.{◌≡◌, ◌++◌, ◌<◌, ◌≤◌, true, length, slice_index_or, take, IfOk, OnOk};
ghost use Rattle.std.specs.List.{flat_map, list_all, AllByRecursion};
ghost use Rattle.aggregate_states.specs.Values.{is_spelled};
ghost use Rattle.meaning.specs.declared.value.Value.TheVariants.{Null};
ghost use Rattle.meaning.specs.Order.{value_in};
ghost use Rattle.meaning.specs.Wanting.{GivesIfMemory};
ghost use Rattle.packed_groups.specs.Packable.{ArePackableValues, IsPackableValue};
ghost use Rattle.packed_groups.specs.Packing.{text_bytes, value_bytes, values_bytes};
ghost use Rattle.packed_groups.specs.Reading.{text_at, utf8_of, value_at, values_at};
ghost use Rattle.wire.specs.Reading.{Reads, repeat_at};

use crate::small::{put_small, take_small};
use answer_fields::{DecodeFault, refill_text};
use meaning::{Sequence, Value, ValueRef, text_of};
use std::alloc::{AllocError, Global};
use wire::{append_i64, append_u8, take_bytes, take_i64, take_u8};

// ---- packing

/// A text, of which the bytes are lent, behind its length.
#[tactic(auto, unfolding(crate::specs::Packing::text_bytes))]
#[inline(always)]
fn put_text(out: &mut Vec<u8>, text: &[u8]) -> Result<(), AllocError>
    ensures { OnOk result (out.new.items ≡ out.old.items ++ text_bytes text.now) }
{
    put_small(out, text.len() as u64)?;
    out.extend_from_slice(text)
}

/// A value: NULL, an integer or a text.
#[tactic(auto, unfolding(crate::specs::Packing::value_bytes))]
#[inline(always)]
pub fn put_value(out: &mut Vec<u8>, value: ValueRef<'_>) -> Result<(), AllocError>
    requires { is_spelled (value_in value) ≡ true }
    ensures packed { OnOk result (out.new.items
        ≡ out.old.items ++ value_bytes (value_in value.entry)) }
    ensures packable { OnOk result (IsPackableValue (value_in value.entry)) }
{
    match value {
        ValueRef::Null => append_u8(out, 0),
        ValueRef::Int(int) => {
            append_u8(out, 1)?;
            append_i64(out, int)
        }
        ValueRef::Text(text) => {
            append_u8(out, 2)?;
            put_text(out, text)
        }
    }
}

/// The value, lent. Its text is UTF-8.
#[inline(always)]
fn lent(value: &Value) -> ValueRef<'_>
    ensures value { value_in result ≡ value.now }
    ensures spelled { is_spelled (value_in result) ≡ true }
{
    match value {
        Value::Null => ValueRef::Null,
        Value::Int(int) => ValueRef::Int(*int),
        Value::Text(text) => ValueRef::Text(text.as_str().as_bytes()),
    }
}

fn put_all_values(out: &mut Vec<u8>, values: &[Value]) -> Result<(), AllocError>
    ensures packed { OnOk result (out.new.items
        ≡ out.old.items ++ flat_map value_bytes values.now) }
    ensures packable { OnOk result (AllByRecursion IsPackableValue values.now) }
{
    for value in values {
        put_value(out, lent(value))?;
    }
    Ok(())
}

/// The values of a key, or the entries of a set, behind their number.
#[tactic(auto, unfolding(crate::specs::Packing::values_bytes))]
pub fn put_values(out: &mut Vec<u8>, values: &[Value]) -> Result<(), AllocError>
    ensures packed { OnOk result (out.new.items ≡ out.old.items ++ values_bytes values.now) }
    ensures packable { OnOk result (ArePackableValues values.now) }
{
    put_small(out, values.len() as u64)?;
    put_all_values(out, values)
}

// ---- taking

fn utf8_of(bytes: &[u8]) -> Result<&str, DecodeFault>
    ensures { Reads (λ x. x.now) result (utf8_of bytes.now) }
{
    match text_of(bytes) {
        Some(text) => Ok(text),
        None => Err(DecodeFault::Shape),
    }
}

#[tactic(auto, unfolding(crate::specs::Reading::text_at))]
fn take_text(bytes: &[u8]) -> Result<(&str, &[u8]), DecodeFault>
    ensures { Reads (λ x. (x.0.now, x.1.now)) result (text_at bytes.now) }
{
    let (length, rest) = take_small(bytes)?;
    let (text, rest) = take_bytes(rest, length as usize)?;
    Ok((utf8_of(text)?, rest))
}

/// A value in the place of another. Where both are texts, the buffer is used again.
#[tactic(auto, unfolding(crate::specs::Reading::value_at, crate::specs::Reading::tagged_value_at))]
#[inline(always)]
fn refill_value<'a>(
    alloc: Global,
    place: &mut Value,
    bytes: &'a [u8],
) -> Result<&'a [u8], DecodeFault>
    ensures read { GivesIfMemory DecodeFault.Memory (λ rest. (place.new, rest.now)) result
        (value_at bytes.now) }
    ensures spelled { OnOk result (is_spelled place.new ≡ true) }
{
    let (tag, rest) = take_u8(bytes)?;
    match tag {
        0 => {
            *place = Value::Null;
            Ok(rest)
        }
        1 => {
            let (int, rest) = take_i64(rest)?;
            *place = Value::Int(int);
            Ok(rest)
        }
        2 => {
            let (text, rest) = take_text(rest)?;
            refill_text(alloc, place, text)?;
            Ok(rest)
        }
        _ => Err(DecodeFault::Shape),
    }
}

#[inline(always)]
pub fn take_value(alloc: Global, bytes: &[u8]) -> Result<(Value, &[u8]), DecodeFault>
    ensures read { GivesIfMemory DecodeFault.Memory (λ x. (x.0, x.1.now)) result
        (value_at bytes.now) }
    ensures spelled { IfOk result (λ x. is_spelled x.0 ≡ true) }
{
    let mut value = Value::Null;
    let rest = refill_value(alloc, &mut value, bytes)?;
    Ok((value, rest))
}

/// The value at the front of the bytes, in the place of the one at the position, or behind all others
/// where there is none.
#[inline(always)]
fn refill_at<'a>(
    alloc: Global,
    values: &mut Vec<Value>,
    position: usize,
    bytes: &'a [u8],
) -> Result<&'a [u8], DecodeFault>
    requires { position ≤ length values.old.items }
    ensures read { GivesIfMemory DecodeFault.Memory
        (λ rest. (slice_index_or values.new.items position Null, rest.now)) result
        (value_at bytes.now) }
    ensures spelled { OnOk result
        (is_spelled (slice_index_or values.new.items position Null) ≡ true) }
    ensures reached { OnOk result (position < length values.new.items) }
    ensures before { OnOk result (take position values.new.items
        ≡ take position values.old.items) }
{
    if position < values.len() {
        return refill_value(alloc, &mut values[position], bytes);
    }
    let (value, rest) = take_value(alloc, bytes)?;
    values.push(value)?;
    Ok(rest)
}

/// So many values, in a buffer that is used again, with those of its texts.
fn take_all_values(
    alloc: Global,
    spare: Vec<Value>,
    count: usize,
    bytes: &[u8],
) -> Result<(Sequence<Value>, &[u8]), DecodeFault>
    ensures read { GivesIfMemory DecodeFault.Memory (λ x. (x.0, x.1.now)) result
        (repeat_at value_at count bytes.now) }
    ensures spelled { IfOk result (λ x. list_all is_spelled x.0 ≡ true) }
{
    let mut values = spare;
    let mut rest = bytes;
    for position in 0..count {
        rest = refill_at(alloc, &mut values, position, rest)?;
    }
    values.truncate(count);
    Ok((Sequence::from_vec(values), rest))
}

/// The values of a key, or the entries of a set, in a buffer that is used again, with those of its
/// texts.
#[tactic(auto, unfolding(crate::specs::Reading::values_at))]
pub fn take_values(
    alloc: Global,
    spare: Vec<Value>,
    bytes: &[u8],
) -> Result<(Sequence<Value>, &[u8]), DecodeFault>
    ensures read { GivesIfMemory DecodeFault.Memory (λ x. (x.0, x.1.now)) result
        (values_at bytes.now) }
    ensures spelled { IfOk result (λ x. list_all is_spelled x.0 ≡ true) }
{
    let (count, rest) = take_small(bytes)?;
    take_all_values(alloc, spare, count as usize, rest)
}
