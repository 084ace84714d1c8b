//! Packed numbers beside a plain loop over their bits, in each length up to 130 and from eight
//! indexes.
ghost use Rattle.std.specs.Prelude.{◌≤◌, ◌<◌, length};

use crate::block_values::unpack_into;
use std::alloc::AllocError;
use std::fmt::Write;

const LONGEST: usize = 130;

const STARTS: usize = 8;

/// A bit of the bytes as a number.
fn bit_at(bytes: &[u8], bit: usize) -> u64 {
    match bytes.get(bit / 8) {
        Some(byte) => u64::from((*byte >> (bit % 8)) & 1),
        None => 0,
    }
}

fn plain_number(bytes: &[u8], width: usize, i: usize) -> u64
    requires width { width ≤ 64 }
    requires few { i ≤ 200 }
{
    let mut number = 0;
    for k in 0..width {
        number |= bit_at(bytes, i * width + k) << k;
    }
    number
}

fn is_alike(bytes: &[u8], width: u8, from: usize, length: usize) -> bool
    requires width { width ≤ 64 }
    requires from { from < 8 }
    requires few { length ≤ 130 }
{
    let mut out = [7u64; LONGEST];
    if !unpack_into(bytes, width, from, &mut out[..length]) {
        return false;
    }
    let mut alike = true;
    for i in 0..length {
        alike &= out[i] == plain_number(bytes, usize::from(width), from + i);
    }
    alike
}

fn starts_alike(bytes: &[u8], width: u8, length: usize) -> u64
    requires width { width ≤ 64 }
    requires few { length ≤ 130 }
{
    let mut count: u64 = 0;
    for from in 0..STARTS {
        count = count.wrapping_add(u64::from(is_alike(bytes, width, from, length)));
    }
    count
}

/// In how many of 131 lengths, from eight indexes, the numbers are those of a plain loop.
fn count_alike(bytes: &[u8], width: u8) -> u64
    requires { width ≤ 64 }
{
    let mut count: u64 = 0;
    for length in 0..LONGEST + 1 {
        count = count.wrapping_add(starts_alike(bytes, width, length));
    }
    count
}

pub fn show(shown: &mut String, width: u8, bytes: &[u8]) -> Result<(), AllocError> {
    if width > 64 {
        return shown.push_str("(no width)\n");
    }
    writeln!(shown, "{} alike", count_alike(bytes, width))
}
