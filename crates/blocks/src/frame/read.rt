//! A base, and an offset of some bits for each row, into a buffer.
ghost use Rattle.std.specs.Prelude.{◌≡◌, pos, ◌+◌, ◌<◌, ◌≤◌, true, slice_index_or, length, take, drop};
ghost use Rattle.meaning.specs.Limits.{row_group_rows};
ghost use Rattle.blocks.specs.Frame.{is_frame, frame_integers, base_of};

use crate::numbers::chunks;
use bit_packing::{fill_raised, integer_at, row_offset};

/// What stands in the cell of a row.
pub fn frame_cell(rows: usize, body: &[u8], row: usize) -> i64
    requires form { is_frame rows body.now ≡ true }
    requires within { row < rows }
    requires few { rows ≤ row_group_rows }
    ensures { result ≡ slice_index_or (frame_integers rows body.now) row (pos 0) }
{
    let offset = row_offset(&body[9..], body[8], row);
    (i128::from(integer_at(body, 0)) + i128::from(offset)) as i64
}

/// The integer that the offsets are counted from.
fn base_at(body: &[u8]) -> i64
    requires { 8 ≤ length body.now }
    ensures { result ≡ base_of body.now }
{
    i64::from_le_bytes(chunks::<8>(body, 1)[0])
}

/// The integers from row `from` on.
pub fn read_frame(rows: usize, body: &[u8], from: usize, out: &mut [i64])
    requires form { is_frame rows body.now ≡ true }
    requires within { from + length out.old ≤ rows }
    requires few { rows ≤ row_group_rows }
    ensures { out.new ≡ take (length out.old) (drop from (frame_integers rows body.now)) }
{
    let base = base_at(body);
    let width = body[8];
    let packed = &body[9..];
    fill_raised(base, width, packed, from, out);
}
