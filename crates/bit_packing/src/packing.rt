//! Numbers of a fixed width in bits, packed without gaps, the first in the lowest bits.
ghost use Rattle.std.specs.Prelude.{◌≡◌, ◌≤◌, ◌<◌, ◌+◌, ◌*◌, ◌^◌, List, ℕ, length, map, IfOk, OnOk, true};
ghost use Rattle.std.specs.Prelude.{◌-ℤ◌, nat_lt, unsigned_abs};
ghost use Rattle.std.specs.List.{list_all};
ghost use Rattle.std.specs.Vec.{vec_capacity, vec_len};
ghost use Rattle.bit_packing.specs.Packing.{Packs, ArePacked, packed, bit_of};

use std::alloc::AllocError;

/// Room for `n` bytes more.
pub fn make_room(out: &mut Vec<u8>, n: usize) -> Result<(), AllocError>
    ensures same { out.new.items ≡ out.old.items }
    ensures room { OnOk result (vec_len out.new + n ≤ vec_capacity out.new) }
{
    out.reserve(n)
}

/// Bits that are not yet written: fewer than 64, the first the lowest.
#[derive(Clone, Copy)]
struct Bits {
    held: u128,
    count: u32,
}

/// Puts a number behind the bits so far.
fn put_bits(out: &mut Vec<u8>, bits: Bits, number: u64, width: u32) -> Result<Bits, AllocError>
    requires few { bits.count < 64 }
    requires low { bits.held < 2 ^ bits.count }
    requires width { width ≤ 64 }
    requires fits { number < 2 ^ width }
    ensures few { IfOk result (λ b. b.count < 64) }
    ensures packs { IfOk result (λ b. (before : List ℕ) (k n : ℕ)
        → Packs before out.old.items bits.held bits.count k n
        → Packs before out.new.items b.held b.count (k + width) (n + 2 ^ k * number)) }
{
    let held = bits.held + (u128::from(number) << bits.count);
    let count = bits.count + width;
    if count < 64 {
        return Ok(Bits { held, count });
    }
    let word = (held % 0x1_0000_0000_0000_0000) as u64;
    out.extend_from_slice(&word.to_le_bytes())?;
    Ok(Bits {
        held: held >> 64,
        count: count - 64,
    })
}

/// Writes the bits that are left, in as few bytes as hold them.
fn finish(out: &mut Vec<u8>, bits: Bits) -> Result<(), AllocError>
    requires few { bits.count < 64 }
    requires low { bits.held < 2 ^ bits.count }
    ensures { OnOk result ((before : List ℕ) (k n : ℕ)
        → Packs before out.old.items bits.held bits.count k n
        → ArePacked before out.new.items k n) }
{
    let word = (bits.held % 0x1_0000_0000_0000_0000) as u64;
    let bytes = (bits.count as usize + 7) / 8;
    out.extend_from_slice(&word.to_le_bytes()[..bytes])?;
    Ok(())
}

/// How many marks of NULL are put at a time.
const MARKS: usize = 16;

/// Puts a number in the lowest bits, below those of another.
#[inline(always)]
fn put_below(number: u64, width: u32, below: u64) -> u64
    requires width { width ≤ 64 }
    requires fits { below + number * 2 ^ width < 2 ^ 64 }
    ensures { result ≡ below + 2 ^ width * number }
{
    if width == 64 {
        return below;
    }
    (number << width) + below
}

/// Up to 64 marks of NULL as one number, the first in its lowest bit.
#[inline(always)]
fn packed_marks(nulls: &[bool]) -> u64
    requires { length nulls.now ≤ 64 }
    ensures value { result ≡ packed 1 (map bit_of nulls.now) }
    ensures low { result < 2 ^ length nulls.now }
{
    let mut number = 0;
    for k in 0..nulls.len() {
        number = put_below(number, 1, u64::from(nulls[nulls.len() - 1 - k]));
    }
    number
}

/// How far an integer is from the base.
#[inline(always)]
fn offset_of(int: &i64, base: &i64) -> u64
    ensures { result ≡ unsigned_abs (int.now -ℤ base.now) }
{
    int.abs_diff(*base)
}

/// How far some integers are above the base, as one number: so many bits for each, the first in the
/// lowest.
#[inline(always)]
fn packed_offsets(ints: &[i64], base: &i64, width: u32) -> u64
    requires narrow { width ≤ 64 }
    requires few { width * length ints.now ≤ 64 }
    requires fit { list_all (λ n. nat_lt (unsigned_abs (n -ℤ base.now)) (2 ^ width)) ints.now
        ≡ true }
    ensures value { result ≡ packed width (map (λ n. unsigned_abs (n -ℤ base.now)) ints.now) }
    ensures low { result < 2 ^ (width * length ints.now) }
{
    let mut number = 0;
    for k in 0..ints.len() {
        number = put_below(number, width, offset_of(&ints[ints.len() - 1 - k], base));
    }
    number
}

/// Puts up to 64 marks of NULL behind the bits so far.
#[inline(always)]
fn put_marks(out: &mut Vec<u8>, bits: Bits, nulls: &[bool]) -> Result<Bits, AllocError>
    requires few { bits.count < 64 }
    requires low { bits.held < 2 ^ bits.count }
    requires short { length nulls.now ≤ 64 }
    ensures few { IfOk result (λ b. b.count < 64) }
    ensures packs { IfOk result (λ b. (before : List ℕ) (k n : ℕ)
        → Packs before out.old.items bits.held bits.count k n
        → Packs before out.new.items b.held b.count (k + length nulls.now)
        (n + 2 ^ k * packed 1 (map bit_of nulls.now))) }
{
    put_bits(out, bits, packed_marks(nulls), nulls.len() as u32)
}

/// Puts how far some integers are above the base, at most 64 bits together, behind the bits so far.
#[inline(always)]
fn put_some_offsets(
    out: &mut Vec<u8>,
    bits: Bits,
    ints: &[i64],
    base: &i64,
    width: u32,
) -> Result<Bits, AllocError>
    requires few { bits.count < 64 }
    requires low { bits.held < 2 ^ bits.count }
    requires narrow { width ≤ 64 }
    requires short { width * length ints.now ≤ 64 }
    requires several { length ints.now ≤ 4 }
    requires fit { list_all (λ n. nat_lt (unsigned_abs (n -ℤ base.now)) (2 ^ width)) ints.now
        ≡ true }
    ensures few { IfOk result (λ b. b.count < 64) }
    ensures packs { IfOk result (λ b. (before : List ℕ) (k n : ℕ)
        → Packs before out.old.items bits.held bits.count k n
        → Packs before out.new.items b.held b.count (k + width * length ints.now)
        (n + 2 ^ k * packed width (map (λ m. unsigned_abs (m -ℤ base.now)) ints.now))) }
{
    put_bits(
        out,
        bits,
        packed_offsets(ints, base, width),
        width * ints.len() as u32,
    )
}

/// A bit for each row, 1 where it is NULL.
pub fn put_mask(out: &mut Vec<u8>, nulls: &[bool]) -> Result<(), AllocError>
    ensures { OnOk result (ArePacked out.old.items out.new.items (length nulls.now)
        (packed 1 (map bit_of nulls.now))) }
{
    make_room(out, nulls.len() / 8 + 1)?;
    let mut bits = Bits { held: 0, count: 0 };
    for k in 0..nulls.len() / MARKS {
        bits = put_marks(out, bits, &nulls[MARKS * k..MARKS * k + MARKS])?;
    }
    bits = put_marks(out, bits, &nulls[nulls.len() / MARKS * MARKS..])?;
    finish(out, bits)?;
    Ok(())
}

/// The same as `put_offsets`, by groups of so many integers that their offsets are at most 64 bits
/// together.
#[inline(always)]
fn put_groups<const N: usize>(
    out: &mut Vec<u8>,
    ints: &[i64],
    base: &i64,
    width: u32,
) -> Result<(), AllocError>
    requires some { 0 < N }
    requires narrow { width ≤ 64 }
    requires few { N * width ≤ 64 }
    requires several { N ≤ 4 }
    requires fit { list_all (λ n. nat_lt (unsigned_abs (n -ℤ base.now)) (2 ^ width)) ints.now
        ≡ true }
    ensures { OnOk result (ArePacked out.old.items out.new.items (width * length ints.now)
        (packed width (map (λ n. unsigned_abs (n -ℤ base.now)) ints.now))) }
{
    let mut bits = Bits { held: 0, count: 0 };
    for k in 0..ints.len() / N {
        bits = put_some_offsets(out, bits, &ints[N * k..N * k + N], base, width)?;
    }
    bits = put_some_offsets(out, bits, &ints[ints.len() / N * N..], base, width)?;
    finish(out, bits)?;
    Ok(())
}

/// How far each integer is above the base, in as many bits as `width` says.
pub fn put_offsets(out: &mut Vec<u8>, ints: &[i64], base: i64, width: u32) -> Result<(), AllocError>
    requires width { width ≤ 64 }
    requires fit { list_all (λ n. nat_lt (unsigned_abs (n -ℤ base)) (2 ^ width)) ints.now ≡ true }
    ensures { OnOk result (ArePacked out.old.items out.new.items (width * length ints.now)
        (packed width (map (λ n. unsigned_abs (n -ℤ base)) ints.now))) }
{
    if width <= 16 {
        return put_groups::<4>(out, ints, &base, width);
    }
    if width <= 32 {
        return put_groups::<2>(out, ints, &base, width);
    }
    put_groups::<1>(out, ints, &base, width)
}
