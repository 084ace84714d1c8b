//! What a frame says of its offsets: some is 0, some takes the whole width, and each leads to an
//! integer of 64 bits.
ghost use Rattle.std.specs.Prelude.{◌≡◌, pos, negsuc, ◌+ℤ◌, ◌+◌, ◌-◌, ◌*◌, ◌^◌, ◌<◌, ◌≤◌, ◌==◌, ◌&&◌, ◌||◌, length, map, nat_le};
ghost use Rattle.std.specs.List.{list_any, list_all, range_with_len};
ghost use Rattle.std.specs.Ordering.{int_eq};
ghost use Rattle.std.specs.Int.Signed.{le_z};
ghost use Rattle.meaning.specs.Limits.{row_group_rows};
ghost use Rattle.meaning.specs.Operators.{fits_i64};
ghost use Rattle.bit_packing.specs.Offsets.{offset_at, lifted};

use crate::groups::raised;
use crate::raising::fill_raised;

/// How many offsets are unpacked at a time.
pub const LANES: usize = 256;

/// The offsets from index `from` on, each above the least integer, so that any is an integer of 64
/// bits.
pub fn fill_lifted(width: u8, packed: &[u8], from: usize, out: &mut [i64])
    requires width { width ≤ 64 }
    requires within { (from + length out.old) * width ≤ 8 * length packed.now }
    requires few { from + length out.old ≤ row_group_rows }
    ensures { out.new ≡ map (λ i. lifted (offset_at width packed.now i))
        (range_with_len from (length out.old)) }
{
    fill_raised(i64::MIN, width, packed, from, out);
}

/// How many offsets are unpacked from index `from` on.
fn piece_len(rows: usize, from: usize) -> usize
    requires { from < rows }
    ensures few { result ≤ 256 }
    ensures within { from + result ≤ rows }
    ensures last { result < 256 → from + result ≡ rows }
{
    if rows - from < LANES {
        return rows - from;
    }
    LANES
}

#[inline(always)]
fn is_least(n: &i64) -> bool
    ensures { result ≡ int_eq n.now (negsuc 9223372036854775807) }
{
    *n == i64::MIN
}

#[inline(always)]
fn is_at_least(n: &i64, least: &i64) -> bool
    ensures { result ≡ le_z least.now n.now }
{
    *least <= *n
}

fn has_least(lanes: &[i64]) -> bool
    ensures { result ≡ list_any (λ n. int_eq n (negsuc 9223372036854775807)) lanes.now }
{
    let mut found = false;
    for n in lanes {
        found |= is_least(n);
    }
    found
}

fn has_high(lanes: &[i64], least: &i64) -> bool
    ensures { result ≡ list_any (le_z least.now) lanes.now }
{
    let mut found = false;
    for n in lanes {
        found |= is_at_least(n, least);
    }
    found
}

/// Whether some offset is 0.
fn has_zero(width: u8, packed: &[u8], rows: usize) -> bool
    requires narrow { width ≤ 64 }
    requires few { rows ≤ row_group_rows }
    requires within { rows * width ≤ 8 * length packed.now }
    ensures { result ≡ list_any (λ offset. offset == 0)
        (map (offset_at width packed.now) (range_with_len 0 rows)) }
{
    let mut lanes = [0; LANES];
    for k in 0..(rows + LANES - 1) / LANES {
        let from = LANES * k;
        let piece = &mut lanes[..piece_len(rows, from)];
        fill_lifted(width, packed, from, piece);
        if has_least(piece) {
            return true;
        }
    }
    false
}

/// Whether some offset is at least a number.
fn has_offset_from(width: u8, packed: &[u8], rows: usize, least: u64) -> bool
    requires narrow { width ≤ 64 }
    requires few { rows ≤ row_group_rows }
    requires within { rows * width ≤ 8 * length packed.now }
    ensures { result ≡ list_any (nat_le least)
        (map (offset_at width packed.now) (range_with_len 0 rows)) }
{
    let lifted_least = raised(i64::MIN, least);
    let mut lanes = [0; LANES];
    for k in 0..(rows + LANES - 1) / LANES {
        let from = LANES * k;
        let piece = &mut lanes[..piece_len(rows, from)];
        fill_lifted(width, packed, from, piece);
        if has_high(piece, &lifted_least) {
            return true;
        }
    }
    false
}

/// The least number that takes a width in bits, which isn't 0.
fn least_of_width(width: u8) -> u64
    requires some { 0 < width }
    requires narrow { width ≤ 64 }
    ensures { result ≡ 2 ^ (width - 1) }
{
    1 << (width - 1)
}

/// The greatest number that a width in bits holds.
fn greatest_of_width(width: u8) -> u64
    requires { width ≤ 64 }
    ensures { result + 1 ≡ 2 ^ width }
{
    if width == 64 {
        return u64::MAX;
    }
    (1 << width) - 1
}

/// How far it is from a base up to the greatest integer.
fn room_above(base: i64) -> u64
    ensures { base +ℤ pos result ≡ pos 9223372036854775807 }
{
    (i128::from(i64::MAX) - i128::from(base)) as u64
}

/// Whether each offset from a base is an integer of 64 bits. Most widths leave no doubt.
fn are_within(width: u8, packed: &[u8], rows: usize, base: i64) -> bool
    requires narrow { width ≤ 64 }
    requires few { rows ≤ row_group_rows }
    requires within { rows * width ≤ 8 * length packed.now }
    ensures { result ≡ list_all fits_i64
        (map (λ offset. base +ℤ pos offset)
        (map (offset_at width packed.now) (range_with_len 0 rows))) }
{
    let room = room_above(base);
    if greatest_of_width(width) <= room {
        return true;
    }
    !has_offset_from(width, packed, rows, room + 1)
}

/// Whether some offset takes the whole width.
fn is_tight(width: u8, packed: &[u8], rows: usize) -> bool
    requires narrow { width ≤ 64 }
    requires few { rows ≤ row_group_rows }
    requires within { rows * width ≤ 8 * length packed.now }
    ensures { result ≡ (width == 0 || list_any (nat_le (2 ^ (width - 1)))
        (map (offset_at width packed.now) (range_with_len 0 rows))) }
{
    width == 0 || has_offset_from(width, packed, rows, least_of_width(width))
}

/// Whether some offset is 0, one takes the whole width, and each is within the integers.
pub fn are_offsets(width: u8, packed: &[u8], rows: usize, base: i64) -> bool
    requires narrow { width ≤ 64 }
    requires few { rows ≤ row_group_rows }
    requires within { rows * width ≤ 8 * length packed.now }
    ensures { let offsets = map (offset_at width packed.now) (range_with_len 0 rows) in
        result ≡ (list_any (λ offset. offset == 0) offsets
        && ((width == 0 || list_any (nat_le (2 ^ (width - 1))) offsets)
        && list_all fits_i64 (map (λ offset. base +ℤ pos offset) offsets))) }
{
    if !has_zero(width, packed, rows) {
        return false;
    }
    if !is_tight(width, packed, rows) {
        return false;
    }
    are_within(width, packed, rows, base)
}
