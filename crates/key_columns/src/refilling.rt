//! Values in the places of values that are given up.
ghost use Rattle.std.specs.Prelude.{◌≡◌, ◌<◌, ◌≤◌, length, slice_index_or, take, true, IfOk, OnOk};
ghost use Rattle.meaning.specs.declared.value.Value.TheVariants.{Null, Text as AText};
ghost use Rattle.meaning.specs.Order.{value_in};
ghost use Rattle.aggregate_states.specs.Values.{is_spelled};

use aggregate_states::owned;
use meaning::{Text, Value, ValueRef, text_of};
use std::alloc::{AllocError, Global};
use std::mem::replace;

/// The text in the buffer of another.
fn in_buffer_of(spare: Text, text: &str) -> Result<Value, AllocError>
    ensures { IfOk result (λ v. v ≡ AText text.now) }
{
    let mut buffer = spare.into_string();
    buffer.clear();
    buffer.push_str(text)?;
    Ok(Value::Text(Text::from_string(buffer)))
}

fn text_in(alloc: Global, spare: Value, text: &[u8]) -> Result<Value, AllocError>
    requires { is_spelled (AText text.now) ≡ true }
    ensures { IfOk result (λ v. v ≡ AText text.now) }
{
    match spare {
        Value::Text(spare) => match text_of(text) {
            Some(text) => in_buffer_of(spare, text),
            None => unreachable!(),
        },
        _ => owned(alloc, ValueRef::Text(text)),
    }
}

/// A value in the place of another. Where both are texts, the buffer is used again.
fn refill(alloc: Global, place: &mut Value, value: ValueRef<'_>) -> Result<(), AllocError>
    requires { is_spelled (value_in value) ≡ true }
    ensures { OnOk result (place.new ≡ value_in value.entry) }
{
    match value {
        ValueRef::Null => {
            *place = Value::Null;
            Ok(())
        }
        ValueRef::Int(int) => {
            *place = Value::Int(int);
            Ok(())
        }
        ValueRef::Text(text) => {
            let spare = replace(place, Value::Null);
            *place = text_in(alloc, spare, text)?;
            Ok(())
        }
    }
}

/// A value in the place of the one at the position, or behind all others where there is none.
pub fn refill_at(
    alloc: Global,
    values: &mut Vec<Value>,
    position: usize,
    value: ValueRef<'_>,
) -> Result<(), AllocError>
    requires position { position ≤ length values.old.items }
    requires spelled { is_spelled (value_in value) ≡ true }
    ensures put { OnOk result
        (slice_index_or values.new.items position Null ≡ value_in value.entry) }
    ensures reached { OnOk result (position < length values.new.items) }
    ensures before { OnOk result (take position values.new.items
        ≡ take position values.old.items) }
{
    if position < values.len() {
        return refill(alloc, &mut values[position], value);
    }
    values.push(owned(alloc, value)?)?;
    Ok(())
}
