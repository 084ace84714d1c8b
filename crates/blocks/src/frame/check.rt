//! Whether bytes are a frame of reference: a base, a width in bits, and an offset of that width for
//! each row; and whether 0 stands where a row is NULL.
ghost use Rattle.std.specs.Prelude.{◌≡◌, ℕ, pos, ◌+ℤ◌, ◌≤◌, ◌==◌, true, length, map};
ghost use Rattle.meaning.specs.Limits.{row_group_rows};
ghost use Rattle.meaning.specs.declared.value.Value.TheVariants.{Int};
ghost use Rattle.bit_packing.specs.Bits.{bytes_of_bits};
ghost use Rattle.meaning.specs.Operators.{fits_i64};
ghost use Rattle.blocks.specs.Block.{are_blank_from, is_blank};
ghost use Rattle.blocks.specs.Frame.{is_frame, frame_integers};

use bit_packing::{are_marked, are_offsets, are_unused_clear, integer_at};

/// Whether bytes are a frame of `rows` offsets, and no more.
pub fn is_frame(rows: usize, body: &[u8]) -> bool
    requires { rows ≤ row_group_rows }
    ensures { result ≡ is_frame rows body.now }
{
    if body.len() < 9 {
        return false;
    }
    let width = usize::from(body[8]);
    if width > 64 {
        return false;
    }
    let packed = &body[9..];
    if packed.len() != (rows * width + 7) / 8 {
        return false;
    }
    if !are_unused_clear(rows * width, packed) {
        return false;
    }
    are_offsets(body[8], packed, rows, integer_at(body, 0))
}

/// The offset from a base to 0. Where it takes more than 64 bits, or leads beyond the integers, it
/// is no offset of the frame.
fn offset_to_zero(base: i64) -> u64
    ensures { (offset : ℕ) → fits_i64 (base +ℤ pos offset) ≡ true
        → is_blank (Int (base +ℤ pos offset)) ≡ (offset == result) }
{
    base.cast_unsigned().wrapping_neg()
}

/// Whether 0 stands in the cell of each row whose bit is set.
pub fn are_null_offsets_blank(rows: usize, mask: &[u8], body: &[u8]) -> bool
    requires form { is_frame rows body.now ≡ true }
    requires few { rows ≤ row_group_rows }
    requires covered { length mask.now ≡ bytes_of_bits rows }
    ensures { result ≡ are_blank_from 0 rows mask.now (map Int (frame_integers rows body.now)) }
{
    are_marked(
        offset_to_zero(integer_at(body, 0)),
        body[8],
        &body[9..],
        rows,
        mask,
    )
}
