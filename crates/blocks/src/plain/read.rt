//! Values one by one into a buffer.
ghost use Rattle.std.specs.Prelude.{◌≡◌, ◌+◌, ◌≤◌, length, map, take, drop, true};
ghost use Rattle.meaning.specs.declared.value.Value.TheVariants.{Int, Text};
ghost use Rattle.blocks.specs.Plain.{values_form, is_values_form};
ghost use Rattle.bit_packing.specs.Bytes.{integer_of};
ghost use Rattle.blocks.specs.Plain.{texts_in, are_texts};
ghost use Rattle.meaning.specs.declared.value.ColType.TheVariants as of_type;

use crate::numbers::chunks;
use crate::plain::texts::{Texts, text_at, texts_form};

/// The integers of the cells from `from` on.
pub fn fill_integers(cells: &[[u8; 8]], from: usize, out: &mut [i64])
    requires { from + length out.old ≤ length cells.now }
    ensures { out.new ≡ take (length out.old) (drop from (map integer_of cells.now)) }
{
    for (i, cell) in out.iter_mut().enumerate() {
        *cell = i64::from_le_bytes(cells[from + i]);
    }
}

/// The texts from `from` on.
pub fn fill_texts<'a>(texts: Texts<'a>, from: usize, out: &mut [&'a [u8]])
    requires within { from + length out.old ≤ length texts.ends.now }
    requires valid { are_texts texts.ends.now texts.joined.now ≡ true }
    ensures { map (λ t. t.now) out.new
        ≡ take (length out.old) (drop from (texts_in texts.entry.ends.now texts.entry.joined.now)) }
{
    for (i, cell) in out.iter_mut().enumerate() {
        *cell = text_at(texts, from + i);
    }
}

/// The integers from row `from` on.
pub fn read_plain_integers(rows: usize, body: &[u8], from: usize, out: &mut [i64])
    requires form { is_values_form of_type.Int rows body.now ≡ true }
    requires within { from + length out.old ≤ rows }
    ensures { map Int out.new
        ≡ take (length out.old) (drop from (values_form of_type.Int rows body.now)) }
{
    fill_integers(chunks::<8>(body, rows), from, out);
}

/// The texts from row `from` on.
pub fn read_plain_texts<'a>(rows: usize, body: &'a [u8], from: usize, out: &mut [&'a [u8]])
    requires form { is_values_form of_type.Text rows body.now ≡ true }
    requires within { from + length out.old ≤ rows }
    ensures { map Text (map (λ t. t.now) out.new)
        ≡ take (length out.old) (drop from (values_form of_type.Text rows body.now)) }
{
    fill_texts(texts_form(body, rows), from, out);
}
