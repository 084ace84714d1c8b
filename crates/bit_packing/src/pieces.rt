//! Offsets of a fixed width in bits, unpacked a piece at a time.
ghost use Rattle.std.specs.Prelude.{◌≡◌, ◌+◌, ◌-◌, ◌*◌, ◌^◌, ◌<◌, ◌≤◌, length, map, min, take};
ghost use Rattle.std.specs.List.{range_with_len};
ghost use Rattle.bit_packing.specs.Offsets.{lifted, offset_at};

use crate::offsets::{LANES, fill_lifted};

/// How far a lane is above the least integer.
#[inline(always)]
fn lowered(lane: &i64) -> u64
    ensures { lane.now ≡ lifted result }
{
    lane.abs_diff(i64::MIN)
}

/// The offsets of so many cells from `at` on: above the least integer in the lanes, by groups of
/// eight where they begin with one, and then lowered.
fn put_piece(
    bytes: &[u8],
    width: u8,
    from: usize,
    at: usize,
    count: usize,
    lanes: &mut [i64],
    out: &mut [u64],
)
    requires width { width ≤ 64 }
    requires lane { from < 8 }
    requires few { count ≤ 256 }
    requires lanes { length lanes.old ≡ count }
    requires room { at + count ≤ length out.old }
    requires within { (from + at + count) * width ≤ 8 * length bytes.now }
    requires front { take at out.old ≡ map (offset_at width bytes.now) (range_with_len from at) }
    ensures { take (at + count) out.new
        ≡ map (offset_at width bytes.now) (range_with_len from (at + count)) }
{
    let start = (from + at) / 8 * width as usize;
    fill_lifted(width, &bytes[start..], (from + at) % 8, lanes);
    for i in 0..count {
        out[at + i] = lowered(&lanes[i]);
    }
}

/// Where a piece begins. All but the first begin with a group.
fn piece_start(k: usize, from: usize, len: usize) -> usize
    requires { 256 * k < 2 ^ 64 }
    ensures { result ≡ min (256 * k - from) len }
{
    (LANES * k).saturating_sub(from).min(len)
}

fn fill_offsets(bytes: &[u8], width: u8, from: usize, out: &mut [u64])
    requires width { width ≤ 64 }
    requires lane { from < 8 }
    requires within { (from + length out.old) * width ≤ 8 * length bytes.now }
    ensures { out.new ≡ map (offset_at width bytes.now) (range_with_len from (length out.old)) }
{
    let mut lanes = [0; LANES];
    for k in 0..(from + out.len() + LANES - 1) / LANES {
        let at = piece_start(k, from, out.len());
        let count = piece_start(k + 1, from, out.len()) - at;
        put_piece(bytes, width, from, at, count, &mut lanes[..count], out);
    }
}

/// The offsets of `width` bits from index `from` on.
pub fn unpack(bytes: &[u8], width: u8, from: usize, out: &mut [u64])
    requires width { width ≤ 64 }
    requires within { (from + length out.old) * width ≤ 8 * length bytes.now }
    ensures { out.new ≡ map (offset_at width bytes.now) (range_with_len from (length out.old)) }
{
    let start = from / 8 * width as usize;
    fill_offsets(&bytes[start..], width, from % 8, out);
}
