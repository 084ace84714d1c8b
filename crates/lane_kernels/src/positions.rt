//! Positions from masks.
ghost use Rattle.std.specs.Prelude.{◌≡◌, ◌<◌, ◌≤◌, ◌+◌, ◌/◌, ◌%◌, ◌^◌, ◌==◌, ◌++◌, not, length, filter, map, slice_index, take, count_ones};
ghost use Rattle.std.specs.List.{range_with_len};
ghost use Rattle.std.specs.Simd.Lanes.{chunk, mask_l, Each1};

use crate::places::PLACES;
use std::simd::prelude::*;

/// A bit for each of eight bytes, set where the byte isn't 0.
#[inline(always)]
fn bits_of_eight(mask: &[u8], start: usize) -> usize
    requires { start + 8 ≤ length mask.now }
    ensures bits { result ≡ mask_l (map (λ byte. not (byte == 0)) (chunk start 8 mask.now)) }
    ensures few { result < 256 }
{
    let bytes = u8x8::from_slice(&mask[start..]);
    bytes.simd_ne(u8x8::splat(0)).to_bitmask() as usize
}

/// The places of the bits that are set, ascending, and behind them any.
#[inline(always)]
fn places_of(bits: usize) -> [u8; 8]
    requires { bits < 256 }
    ensures places { take (count_ones bits) result
        ≡ filter (λ i. bits / 2 ^ i % 2 == 1) (range_with_len 0 8) }
    ensures small { Each1 (λ place. place < 8) result }
{
    PLACES[bits].to_le_bytes()
}

/// Puts behind the first `count` the positions of the bytes among eight that aren't 0, and returns
/// how many these are. Eight are stored, of which the next call writes over those that are none.
#[inline(always)]
fn put_positions(mask: &[u8], start: usize, positions: &mut [u32], count: usize) -> usize
    requires within { start + 8 ≤ length mask.now }
    requires few { length mask.now < 2 ^ 32 }
    requires room { count + 8 ≤ length positions.old }
    ensures positions { take (count + result) positions.new
        ≡ take count positions.old ++ filter (λ i. not (slice_index mask.now i == 0))
        (range_with_len start 8) }
    ensures few { result ≤ 8 }
{
    let bits = bits_of_eight(mask, start);
    let places = u8x8::from_array(places_of(bits)).cast::<u32>();
    let eight = places + u32x8::splat(start as u32);
    eight.copy_to_slice(&mut positions[count..]);
    bits.count_ones() as usize
}

/// Puts in front the positions of the bytes that aren't 0, ascending, and returns how many these
/// are.
pub fn mask_to_places(mask: &[u8], positions: &mut [u32]) -> usize
    requires room { length mask.now ≡ length positions.old }
    requires few { length mask.now < 2 ^ 32 }
    ensures positions { take result positions.new
        ≡ filter (λ i. not (slice_index mask.now i == 0)) (range_with_len 0 (length mask.now)) }
    ensures within { result ≤ length positions.new }
{
    let mut count = 0;
    let eights = mask.len() / 8;
    for eight in 0..eights {
        count += put_positions(mask, 8 * eight, positions, count);
    }
    for i in 8 * eights..mask.len() {
        positions[count] = i as u32;
        count += usize::from(mask[i] != 0);
    }
    count
}
