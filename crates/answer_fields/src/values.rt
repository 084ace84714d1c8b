//! Values as bytes.
ghost use Rattle.std.specs.Prelude.{◌≡◌, ◌++◌, ◌<◌, ◌≤◌, ◌^◌, OnOk, IfOk, true, length, slice_index_or, take};
ghost use Rattle.std.specs.List.{flat_map, AllByRecursion, list_all};
ghost use Rattle.aggregate_states.specs.State.{is_extreme};
ghost use Rattle.aggregate_states.specs.Values.{is_spelled};
ghost use Rattle.meaning.specs.declared.value.Value.TheVariants.{Null};
ghost use Rattle.meaning.specs.Order.{value_in};
ghost use Rattle.answer_fields.specs.LayoutReading.{set_at, unless_null, value_at};
ghost use Rattle.wire.specs.Reading.{repeat_at};
ghost use Rattle.answer_fields.specs.Ranges.{IsValue};
ghost use Rattle.answer_fields.specs.Spelling.{set_bytes, value_bytes};
ghost use Rattle.meaning.specs.Wanting.{GivesIfMemory};

use crate::fault::DecodeFault;
use crate::spare::refill_text;
use meaning::{Sequence, Value, ValueRef};
use std::alloc::{AllocError, Global};
use wire::{
    append_i64, append_short_text, append_u8, append_u32, take_i64, take_short_text, take_u8,
    take_u32,
};

/// A value in the place of another: NULL, an integer or a text. Where both are texts, the buffer is
/// used again.
#[tactic(auto, unfolding(crate::specs::LayoutReading::value_at, crate::specs::LayoutReading::tagged_value_at))]
#[inline(always)]
fn refill_value<'a>(
    alloc: Global,
    place: &mut Value,
    bytes: &'a [u8],
) -> Result<&'a [u8], DecodeFault>
    ensures read { GivesIfMemory DecodeFault.Memory (λ rest. (place.new, rest.now)) result
        (value_at bytes.now) }
    ensures spelled { OnOk result (is_spelled place.new ≡ true) }
{
    let (tag, rest) = take_u8(bytes)?;
    match tag {
        0 => {
            *place = Value::Null;
            Ok(rest)
        }
        1 => {
            let (int, rest) = take_i64(rest)?;
            *place = Value::Int(int);
            Ok(rest)
        }
        2 => {
            let (text, rest) = take_short_text(rest)?;
            refill_text(alloc, place, text)?;
            Ok(rest)
        }
        _ => Err(DecodeFault::Shape),
    }
}

/// A value: NULL, an integer or a text.
#[inline(always)]
pub fn take_value(alloc: Global, bytes: &[u8]) -> Result<(Value, &[u8]), DecodeFault>
    ensures read { GivesIfMemory DecodeFault.Memory (λ x. (x.0, x.1.now)) result
        (value_at bytes.now) }
    ensures spelled { IfOk result (λ x. is_spelled x.0 ≡ true) }
{
    let mut value = Value::Null;
    let rest = refill_value(alloc, &mut value, bytes)?;
    Ok((value, rest))
}

/// A value's one spelling.
#[tactic(auto, unfolding(crate::specs::Spelling::value_bytes))]
pub fn put_value(out: &mut Vec<u8>, value: ValueRef<'_>) -> Result<(), AllocError>
    requires { IsValue (value_in value) }
    ensures { OnOk result (out.new.items ≡ out.old.items ++ value_bytes (value_in value.entry)) }
{
    match value {
        ValueRef::Null => append_u8(out, 0),
        ValueRef::Int(int) => {
            append_u8(out, 1)?;
            append_i64(out, int)
        }
        ValueRef::Text(text) => {
            append_u8(out, 2)?;
            append_short_text(out, text)
        }
    }
}

/// The values of a key, or the entries of a set.
pub fn put_values(out: &mut Vec<u8>, values: &[Value]) -> Result<(), AllocError>
    requires { AllByRecursion IsValue values.now }
    ensures { OnOk result (out.new.items ≡ out.old.items ++ flat_map value_bytes values.now) }
{
    for value in values {
        put_value(out, value.as_value_ref())?;
    }
    Ok(())
}

/// The entries of a set, behind their number.
#[tactic(auto, unfolding(crate::specs::Spelling::set_bytes))]
pub fn put_set(out: &mut Vec<u8>, entries: &[Value]) -> Result<(), AllocError>
    requires few { length entries.now < 2 ^ 32 }
    requires values { AllByRecursion IsValue entries.now }
    ensures { OnOk result (out.new.items ≡ out.old.items ++ set_bytes entries.now) }
{
    append_u32(out, entries.len() as u32)?;
    put_values(out, entries)
}

/// The value at the front of the bytes, in the place of the one at the position, or behind all others
/// where there is none.
#[inline(always)]
fn refill_at<'a>(
    alloc: Global,
    values: &mut Vec<Value>,
    position: usize,
    bytes: &'a [u8],
) -> Result<&'a [u8], DecodeFault>
    requires { position ≤ length values.old.items }
    ensures read { GivesIfMemory DecodeFault.Memory
        (λ rest. (slice_index_or values.new.items position Null, rest.now)) result
        (value_at bytes.now) }
    ensures spelled { OnOk result
        (is_spelled (slice_index_or values.new.items position Null) ≡ true) }
    ensures reached { OnOk result (position < length values.new.items) }
    ensures before { OnOk result (take position values.new.items
        ≡ take position values.old.items) }
{
    if position < values.len() {
        return refill_value(alloc, &mut values[position], bytes);
    }
    let (value, rest) = take_value(alloc, bytes)?;
    values.push(value)?;
    Ok(rest)
}

/// The values of a key or of a set, in a buffer that is used again, with those of its texts.
pub fn refill_values(
    alloc: Global,
    spare: Vec<Value>,
    count: usize,
    bytes: &[u8],
) -> Result<(Sequence<Value>, &[u8]), DecodeFault>
    ensures read { GivesIfMemory DecodeFault.Memory (λ x. (x.0, x.1.now)) result
        (repeat_at value_at count bytes.now) }
    ensures spelled { IfOk result (λ x. list_all is_spelled x.0 ≡ true) }
{
    let mut values = spare;
    let mut rest = bytes;
    for position in 0..count {
        rest = refill_at(alloc, &mut values, position, rest)?;
    }
    values.truncate(count);
    Ok((Sequence::from_vec(values), rest))
}

/// The values of a key or of a set. Memory is taken for no more values than the bytes can hold.
pub fn take_values(
    alloc: Global,
    count: usize,
    bytes: &[u8],
) -> Result<(Sequence<Value>, &[u8]), DecodeFault>
    ensures read { GivesIfMemory DecodeFault.Memory (λ x. (x.0, x.1.now)) result
        (repeat_at value_at count bytes.now) }
    ensures spelled { IfOk result (λ x. list_all is_spelled x.0 ≡ true) }
{
    let values = Vec::with_capacity(alloc, count.min(bytes.len()))?;
    refill_values(alloc, values, count, bytes)
}

/// The entries of a set, behind their number.
#[tactic(auto, unfolding(crate::specs::LayoutReading::set_at))]
pub fn take_set(alloc: Global, bytes: &[u8]) -> Result<(Sequence<Value>, &[u8]), DecodeFault>
    ensures read { GivesIfMemory DecodeFault.Memory (λ x. (x.0, x.1.now)) result
        (set_at bytes.now) }
    ensures spelled { IfOk result (λ x. list_all is_spelled x.0 ≡ true) }
{
    let (count, rest) = take_u32(bytes)?;
    take_values(alloc, count as usize, rest)
}

/// The value, unless it is NULL.
#[inline(always)]
pub fn unless_null(value: Value) -> Option<Value>
    ensures value { result ≡ unless_null value }
    ensures extreme { is_spelled value ≡ true → is_extreme result ≡ true }
{
    match value {
        Value::Null => None,
        value => Some(value),
    }
}
