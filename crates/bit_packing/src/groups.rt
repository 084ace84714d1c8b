//! Offsets by groups of eight, which take as many bytes as an offset has bits.
ghost use Rattle.std.specs.Prelude.{◌≡◌, ℕ, pos, ◌+ℤ◌, ◌+◌, ◌-◌, ◌*◌, ◌/◌, ◌%◌, ◌<◌, ◌≤◌, ◌++◌, length, take, true};
ghost use Rattle.std.specs.List.{list_all};
ghost use Rattle.meaning.specs.Limits.{row_group_rows};
ghost use Rattle.meaning.specs.Operators.{fits_i64};
ghost use Rattle.bit_packing.specs.Offsets.{offset_at};
ghost use Rattle.bit_packing.specs.Offsets.{AreInGroups, raised_offsets};

use crate::windows::{low_bits, window_at};

/// From which byte of a group on eight are read for the bits from `bit` on: those that lie within
/// the group, where it has so many.
#[inline(always)]
fn window_start(width: usize, bit: usize) -> usize
    requires width { width ≤ 64 }
    requires within { bit ≤ 7 * width }
    ensures before { 8 * result ≤ bit }
    ensures in_window { bit - 8 * result < 64 }
    ensures lane { 64 < width + (bit - 8 * result) → bit - 8 * result < 8 }
    ensures room { 64 < width + (bit - 8 * result) → result + 8 < width }
{
    if width < 8 {
        return 0;
    }
    if width - 8 < bit / 8 {
        return width - 8;
    }
    bit / 8
}

/// The offset of a lane.
#[inline(always)]
fn lane_offset(width: usize, group: &[u8], lane: usize) -> u64
    requires width { width ≤ 64 }
    requires long { length group.now ≡ width }
    requires lane { lane < 8 }
    ensures { result ≡ offset_at width group.now lane }
{
    let bit = width * lane;
    let start = window_start(width, bit);
    let shift = bit - 8 * start;
    let low = window_at(group, start) >> shift;
    if width + shift <= 64 {
        return low_bits(low, width);
    }
    let high = low_bits(u64::from(group[start + 8]), width + shift - 64);
    (high << (64 - shift)) + low
}

/// A base and an offset from it.
#[inline(always)]
pub fn raised(base: i64, offset: u64) -> i64
    requires { fits_i64 (base +ℤ pos offset) ≡ true }
    ensures { result ≡ base +ℤ pos offset }
{
    base.wrapping_add_unsigned(offset)
}

#[inline(always)]
fn raised_lane(base: i64, width: usize, group: &[u8], lane: usize) -> i64
    requires width { width ≤ 64 }
    requires long { length group.now ≡ width }
    requires lane { lane < 8 }
    requires fits { (i : ℕ) → i < 8 → fits_i64 (base +ℤ pos (offset_at width group.now i)) ≡ true }
    ensures { result ≡ base +ℤ pos (offset_at width group.now lane) }
{
    raised(base, lane_offset(width, group, lane))
}

/// The integers of a group.
#[inline(always)]
fn raised_group(base: i64, width: usize, group: &[u8]) -> [i64; 8]
    requires width { width ≤ 64 }
    requires long { length group.now ≡ width }
    requires fits { (i : ℕ) → i < 8 → fits_i64 (base +ℤ pos (offset_at width group.now i)) ≡ true }
    ensures { result ≡ raised_offsets base width group.now 0 8 }
{
    [
        raised_lane(base, width, group, 0),
        raised_lane(base, width, group, 1),
        raised_lane(base, width, group, 2),
        raised_lane(base, width, group, 3),
        raised_lane(base, width, group, 4),
        raised_lane(base, width, group, 5),
        raised_lane(base, width, group, 6),
        raised_lane(base, width, group, 7),
    ]
}

/// Writes a group into the cells from `at` on. Cell by cell: a copy of the whole goes through
/// memory.
#[inline(always)]
fn put_group(group: [i64; 8], at: usize, out: &mut [i64])
    requires { at + 8 ≤ length out.old }
    ensures { take (at + 8) out.new ≡ take at out.old ++ group }
{
    for lane in 0..8 {
        out[at + lane] = group[lane];
    }
}

/// The cells up to the last that is a multiple of eight, by the groups from `first` on.
#[inline(always)]
fn fill_each(base: i64, width: usize, packed: &[u8], first: usize, out: &mut [i64])
    requires width { width ≤ 64 }
    requires few { 8 * first + length out.old ≤ row_group_rows }
    requires within { (8 * first + length out.old) * width ≤ 8 * length packed.now }
    requires fits { list_all fits_i64
        (raised_offsets base width packed.now (8 * first) (length out.old)) ≡ true }
    ensures { take (8 * (length out.old / 8)) out.new
        ≡ raised_offsets base width packed.now (8 * first) (8 * (length out.old / 8)) }
{
    for k in 0..out.len() / 8 {
        let start = (first + k) * width;
        let group = &packed[start..start + width];
        put_group(raised_group(base, width, group), 8 * k, out);
    }
}

/// The same for a width that is known where it is called, eight times one constant and a second
/// more, so that all starts and shifts are constants.
fn fill_known<const EIGHTS: usize, const MORE: usize>(
    base: i64,
    width: usize,
    packed: &[u8],
    first: usize,
    out: &mut [i64],
)
    requires same { width ≡ 8 * EIGHTS + MORE }
    requires given { AreInGroups base width packed.now first (length out.old) }
    ensures { take (8 * (length out.old / 8)) out.new
        ≡ raised_offsets base width packed.now (8 * first) (8 * (length out.old / 8)) }
{
    fill_each(base, 8 * EIGHTS + MORE, packed, first, out);
}

/// The same for a width of which the eighth is known.
fn fill_eighth<const EIGHTS: usize>(
    base: i64,
    width: usize,
    packed: &[u8],
    first: usize,
    out: &mut [i64],
)
    requires same { width / 8 ≡ EIGHTS }
    requires given { AreInGroups base width packed.now first (length out.old) }
    ensures { take (8 * (length out.old / 8)) out.new
        ≡ raised_offsets base width packed.now (8 * first) (8 * (length out.old / 8)) }
{
    match width % 8 {
        0 => fill_known::<EIGHTS, 0>(base, width, packed, first, out),
        1 => fill_known::<EIGHTS, 1>(base, width, packed, first, out),
        2 => fill_known::<EIGHTS, 2>(base, width, packed, first, out),
        3 => fill_known::<EIGHTS, 3>(base, width, packed, first, out),
        4 => fill_known::<EIGHTS, 4>(base, width, packed, first, out),
        5 => fill_known::<EIGHTS, 5>(base, width, packed, first, out),
        6 => fill_known::<EIGHTS, 6>(base, width, packed, first, out),
        7 => fill_known::<EIGHTS, 7>(base, width, packed, first, out),
        _ => fill_each(base, width, packed, first, out),
    }
}

/// The cells up to the last that is a multiple of eight, by the groups from `first` on.
pub fn fill_groups(base: i64, width: usize, packed: &[u8], first: usize, out: &mut [i64])
    requires width { width ≤ 64 }
    requires few { 8 * first + length out.old ≤ row_group_rows }
    requires within { (8 * first + length out.old) * width ≤ 8 * length packed.now }
    requires fits { list_all fits_i64
        (raised_offsets base width packed.now (8 * first) (length out.old)) ≡ true }
    ensures { take (8 * (length out.old / 8)) out.new
        ≡ raised_offsets base width packed.now (8 * first) (8 * (length out.old / 8)) }
{
    match width / 8 {
        0 => fill_eighth::<0>(base, width, packed, first, out),
        1 => fill_eighth::<1>(base, width, packed, first, out),
        2 => fill_eighth::<2>(base, width, packed, first, out),
        3 => fill_eighth::<3>(base, width, packed, first, out),
        4 => fill_eighth::<4>(base, width, packed, first, out),
        5 => fill_eighth::<5>(base, width, packed, first, out),
        6 => fill_eighth::<6>(base, width, packed, first, out),
        7 => fill_eighth::<7>(base, width, packed, first, out),
        8 => fill_eighth::<8>(base, width, packed, first, out),
        _ => fill_each(base, width, packed, first, out),
    }
}
