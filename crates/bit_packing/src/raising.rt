//! Integers by a base and an offset of some bits for each.
ghost use Rattle.std.specs.Prelude.{◌≡◌, ◌+◌, ◌*◌, ◌≤◌, length, take, true};
ghost use Rattle.std.specs.List.{list_all};
ghost use Rattle.meaning.specs.Limits.{row_group_rows};
ghost use Rattle.meaning.specs.Operators.{fits_i64};
ghost use Rattle.bit_packing.specs.Offsets.{raised_offsets};

use crate::groups::{fill_groups, raised};
use crate::unpacking::row_offset;

/// The cells from `start` on, one by one.
fn fill_lanes(base: i64, width: u8, packed: &[u8], from: usize, start: usize, out: &mut [i64])
    requires width { width ≤ 64 }
    requires within { (from + length out.old) * width ≤ 8 * length packed.now }
    requires few { from + length out.old ≤ row_group_rows }
    requires fits { list_all fits_i64 (raised_offsets base width packed.now from (length out.old))
        ≡ true }
    requires start { start ≤ length out.old }
    requires front { take start out.old ≡ raised_offsets base width packed.now from start }
    ensures { out.new ≡ raised_offsets base width packed.now from (length out.old) }
{
    for i in start..out.len() {
        out[i] = raised(base, row_offset(packed, width, from + i));
    }
}

/// The base and the offsets from index `from` on.
pub fn fill_raised(base: i64, width: u8, packed: &[u8], from: usize, out: &mut [i64])
    requires width { width ≤ 64 }
    requires within { (from + length out.old) * width ≤ 8 * length packed.now }
    requires few { from + length out.old ≤ row_group_rows }
    requires fits { list_all fits_i64 (raised_offsets base width packed.now from (length out.old))
        ≡ true }
    ensures { out.new ≡ raised_offsets base width packed.now from (length out.old) }
{
    if from % 8 == 0 {
        fill_groups(base, usize::from(width), packed, from / 8, out);
        fill_lanes(base, width, packed, from, out.len() / 8 * 8, out);
    } else {
        fill_lanes(base, width, packed, from, 0, out);
    }
}
