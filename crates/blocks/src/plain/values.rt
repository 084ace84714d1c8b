//! A value of those that stand one by one.
ghost use Rattle.std.specs.Prelude.{◌≡◌, ◌<◌, [], true, slice_index_or};
ghost use Rattle.meaning.specs.Order.{value_in};
ghost use Rattle.meaning.specs.declared.value.Value.TheVariants.{Null};
ghost use Rattle.blocks.specs.Plain.{values_form, is_values_form, ends_of, joined_of};
ghost use Rattle.columns.specs.Texts.{texts_from};

use crate::plain::texts::{text_at, texts_form};
use bit_packing::integer_at;
use meaning::{ColType, ValueRef};

/// Text `i` of `count` texts.
fn text_of_form(count: usize, bytes: &[u8], i: usize) -> &[u8]
    requires form { is_values_form ColType.Text count bytes.now ≡ true }
    requires within { i < count }
    ensures { result.now ≡ slice_index_or
        (texts_from 0 (ends_of count bytes.now) (joined_of count bytes.now)) i [] }
{
    text_at(texts_form(bytes, count), i)
}

/// Value `i` of `count` values of a type.
pub fn value_at(col_type: ColType, count: usize, bytes: &[u8], i: usize) -> ValueRef<'_>
    requires form { is_values_form col_type count bytes.now ≡ true }
    requires within { i < count }
    ensures { value_in result ≡ slice_index_or (values_form col_type count bytes.now) i Null }
{
    match col_type {
        ColType::Int => ValueRef::Int(integer_at(bytes, i)),
        ColType::Text => ValueRef::Text(text_of_form(count, bytes, i)),
    }
}
