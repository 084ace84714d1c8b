//! A bit for each row, which is set where the row is NULL.
ghost use Rattle.std.specs.Prelude.{◌≡◌, if◌then◌else◌, replicate, true, false, ◌+◌, ◌*◌, ◌/◌, ◌%◌, ◌==◌, ◌≤◌, length, map, take, [], ◌∷◌, ◌++◌, ◌-◌, not};
ghost use Rattle.std.specs.List.{range_with_len, list_all};
ghost use Rattle.meaning.specs.Limits.{row_group_rows};
ghost use Rattle.bit_packing.specs.Bits.{bit_at, is_mask};

use crate::numbers::has_bit;

/// Whether no bit from one number on and up to another is set.
pub fn are_bits_clear(mask: &[u8], start: usize, end: usize) -> bool
    requires { end ≤ 8 * length mask.now }
    ensures { result ≡ list_all (λ j. not (bit_at mask.now j)) (range_with_len start
        (end - start)) }
{
    for i in start..end {
        if has_bit(mask, i) {
            return false;
        }
    }
    true
}

/// Whether the bits behind the last row are 0.
pub fn is_mask(rows: usize, mask: &[u8]) -> bool
    requires { length mask.now ≤ 1024 }
    ensures { result ≡ is_mask rows mask.now }
{
    are_bits_clear(mask, rows, 8 * mask.len())
}

/// A bit for each of eight lanes, the lowest first.
#[inline(always)]
fn lanes_of(byte: u8) -> [bool; 8]
    ensures { result ≡ map (bit_at (byte ∷ [])) (range_with_len 0 8) }
{
    [
        byte & 1 == 1,
        (byte >> 1) & 1 == 1,
        (byte >> 2) & 1 == 1,
        (byte >> 3) & 1 == 1,
        (byte >> 4) & 1 == 1,
        (byte >> 5) & 1 == 1,
        (byte >> 6) & 1 == 1,
        (byte >> 7) & 1 == 1,
    ]
}

/// Writes eight lanes from `at` on. Lane by lane: a copy of the whole goes through memory.
#[inline(always)]
fn put_lanes(lanes: [bool; 8], at: usize, out: &mut [bool])
    requires { at + 8 ≤ length out.old }
    ensures { take (at + 8) out.new ≡ take at out.old ++ lanes }
{
    for lane in 0..8 {
        out[at + lane] = lanes[lane];
    }
}

/// All lanes up to the last that is a multiple of eight, by the bytes of the mask from `first` on.
fn fill_lanes(mask: &[u8], first: usize, out: &mut [bool])
    requires { 8 * first + length out.old ≤ 8 * length mask.now }
    ensures { take (8 * (length out.old / 8)) out.new
        ≡ map (bit_at mask.now) (range_with_len (8 * first) (8 * (length out.old / 8))) }
{
    for k in 0..out.len() / 8 {
        put_lanes(lanes_of(mask[first + k]), 8 * k, out);
    }
}

/// The lanes from `start` on, one by one.
fn fill_bits(mask: &[u8], from: usize, start: usize, out: &mut [bool])
    requires within { from + length out.old ≤ 8 * length mask.now }
    requires few { from + length out.old ≤ row_group_rows }
    requires start { start ≤ length out.old }
    requires front { take start out.old ≡ map (bit_at mask.now) (range_with_len from start) }
    ensures { out.new ≡ map (bit_at mask.now) (range_with_len from (length out.old)) }
{
    for i in start..out.len() {
        out[i] = has_bit(mask, from + i);
    }
}

/// The bits of the mask from row `from` on.
fn fill_nulls(mask: &[u8], from: usize, out: &mut [bool])
    requires within { from + length out.old ≤ 8 * length mask.now }
    requires few { from + length out.old ≤ row_group_rows }
    ensures { out.new ≡ map (bit_at mask.now) (range_with_len from (length out.old)) }
{
    if from % 8 == 0 {
        fill_lanes(mask, from / 8, out);
        fill_bits(mask, from, out.len() / 8 * 8, out);
    } else {
        fill_bits(mask, from, 0, out);
    }
}

/// Which rows are NULL, of the `n` from row `from` on, by the mask of a nullable column.
pub fn read_nulls(nullable: bool, mask: &[u8], from: usize, n: usize, out: &mut [bool])
    requires room { n ≤ length out.old }
    requires few { from + n ≤ row_group_rows }
    requires within { nullable ≡ true → from + n ≤ 8 * length mask.now }
    ensures { take n out.new
        ≡ (if nullable then map (bit_at mask.now) (range_with_len from n) else replicate n false) }
{
    let front = &mut out[..n];
    if nullable {
        fill_nulls(mask, from, front);
    } else {
        front.fill(false);
    }
}
