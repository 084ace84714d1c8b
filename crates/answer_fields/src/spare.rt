//! Values in the places of values that are given up.
ghost use Rattle.std.specs.Prelude.{◌≡◌, true, IfOk, OnOk};
ghost use Rattle.aggregate_states.specs.Values.{is_spelled};

use meaning::{Text, Value};
use std::alloc::{AllocError, Global};
use std::mem::replace;

/// The text in the buffer of another.
fn in_buffer_of(spare: Text, text: &str) -> Result<Value, AllocError>
    ensures { IfOk result (λ v. v ≡ Value.Text text.now) }
{
    let mut buffer = spare.into_string();
    buffer.clear();
    buffer.push_str(text)?;
    Ok(Value::Text(Text::from_string(buffer)))
}

/// The text, in the buffer of a value that is given up, where that is a text.
#[inline(always)]
fn in_place_of(alloc: Global, spare: Value, text: &str) -> Result<Value, AllocError>
    ensures { IfOk result (λ v. v ≡ Value.Text text.now) }
{
    match spare {
        Value::Text(spare) => in_buffer_of(spare, text),
        _ => Ok(Value::Text(Text::new(alloc, text)?)),
    }
}

/// A text in the place of a value. Where that is a text, its buffer is used again.
#[inline(always)]
pub fn refill_text(alloc: Global, place: &mut Value, text: &str) -> Result<(), AllocError>
    ensures value { OnOk result (place.new ≡ Value.Text text.now) }
    ensures spelled { OnOk result (is_spelled place.new ≡ true) }
{
    // No effect at run time. The proof reads from this call that the text is UTF-8.
    let _spelled = text.as_bytes();
    let spare = replace(place, Value::Null);
    *place = in_place_of(alloc, spare, text)?;
    Ok(())
}
