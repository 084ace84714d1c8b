//! Readers: each takes a part from the front of the bytes, and gives it with the bytes behind it.
ghost use Rattle.std.specs.Int.{cast_signed, w64, w128};
ghost use Rattle.byteorder.specs.Endian.{little_number};
ghost use Rattle.std.specs.Prelude.{◌≡◌};
ghost use Rattle.wire.specs.Reading.{Reads, behind_magic, bytes_at, i64_at, i128_at, number_at, text_at, utf8_of};

use crate::fault::WireFault;
use byteorder::{ByteOrder, LittleEndian};

/// `n` bytes.
#[tactic(auto, unfolding(crate::specs::Reading::bytes_at))]
pub fn take_bytes(bytes: &[u8], n: usize) -> Result<(&[u8], &[u8]), WireFault>
    ensures { Reads (λ x. (x.0.now, x.1.now)) result (bytes_at n bytes.now) }
{
    if bytes.len() < n {
        return Err(WireFault::Truncated);
    }
    Ok(bytes.split_at(n))
}

#[tactic(auto, unfolding(crate::specs::Reading::number_at))]
pub fn take_u8(bytes: &[u8]) -> Result<(u8, &[u8]), WireFault>
    ensures { Reads (λ x. (x.0, x.1.now)) result (number_at 1 bytes.now) }
{
    if bytes.is_empty() {
        return Err(WireFault::Truncated);
    }
    Ok((bytes[0], &bytes[1..]))
}

#[tactic(auto, unfolding(crate::specs::Reading::number_at))]
pub fn take_u16(bytes: &[u8]) -> Result<(u16, &[u8]), WireFault>
    ensures { Reads (λ x. (x.0, x.1.now)) result (number_at 2 bytes.now) }
{
    if bytes.len() < 2 {
        return Err(WireFault::Truncated);
    }
    Ok((LittleEndian::read_u16(bytes), &bytes[2..]))
}

#[tactic(auto, unfolding(crate::specs::Reading::number_at))]
pub fn take_u32(bytes: &[u8]) -> Result<(u32, &[u8]), WireFault>
    ensures { Reads (λ x. (x.0, x.1.now)) result (number_at 4 bytes.now) }
{
    if bytes.len() < 4 {
        return Err(WireFault::Truncated);
    }
    Ok((LittleEndian::read_u32(bytes), &bytes[4..]))
}

#[tactic(auto, unfolding(crate::specs::Reading::number_at))]
pub fn take_u64(bytes: &[u8]) -> Result<(u64, &[u8]), WireFault>
    ensures { Reads (λ x. (x.0, x.1.now)) result (number_at 8 bytes.now) }
{
    if bytes.len() < 8 {
        return Err(WireFault::Truncated);
    }
    Ok((LittleEndian::read_u64(bytes), &bytes[8..]))
}

/// The number in eight bytes. As an array they are read at once.
#[inline(always)]
fn i64_of(bytes: &[u8; 8]) -> i64
    ensures { result ≡ cast_signed w64 (little_number 8 bytes.now) }
{
    i64::from_le_bytes(*bytes)
}

/// The same of sixteen bytes.
#[inline(always)]
fn i128_of(bytes: &[u8; 16]) -> i128
    ensures { result ≡ cast_signed w128 (little_number 16 bytes.now) }
{
    i128::from_le_bytes(*bytes)
}

#[tactic(auto, unfolding(crate::specs::Reading::i64_at, crate::specs::Reading::number_at))]
pub fn take_i64(bytes: &[u8]) -> Result<(i64, &[u8]), WireFault>
    ensures { Reads (λ x. (x.0, x.1.now)) result (i64_at bytes.now) }
{
    let Some((number, rest)) = bytes.split_first_chunk::<8>() else {
        return Err(WireFault::Truncated);
    };
    Ok((i64_of(number), rest))
}

#[tactic(auto, unfolding(crate::specs::Reading::i128_at, crate::specs::Reading::number_at))]
pub fn take_i128(bytes: &[u8]) -> Result<(i128, &[u8]), WireFault>
    ensures { Reads (λ x. (x.0, x.1.now)) result (i128_at bytes.now) }
{
    let Some((number, rest)) = bytes.split_first_chunk::<16>() else {
        return Err(WireFault::Truncated);
    };
    Ok((i128_of(number), rest))
}

/// The bytes as a text.
fn text_of(bytes: &[u8]) -> Result<&str, WireFault>
    ensures { Reads (λ x. x.now) result (utf8_of bytes.now) }
{
    match str::from_utf8(bytes) {
        Ok(text) => Ok(text),
        Err(_) => Err(WireFault::NotUtf8),
    }
}

/// A text behind its length in 32 bits.
#[tactic(auto, unfolding(crate::specs::Reading::text_at))]
pub fn take_text(bytes: &[u8]) -> Result<(&str, &[u8]), WireFault>
    ensures { Reads (λ x. (x.0.now, x.1.now)) result (text_at 4 bytes.now) }
{
    let (length, rest) = take_u32(bytes)?;
    let (text, rest) = take_bytes(rest, length as usize)?;
    Ok((text_of(text)?, rest))
}

/// A text behind its length in 16 bits.
#[tactic(auto, unfolding(crate::specs::Reading::text_at))]
pub fn take_short_text(bytes: &[u8]) -> Result<(&str, &[u8]), WireFault>
    ensures { Reads (λ x. (x.0.now, x.1.now)) result (text_at 2 bytes.now) }
{
    let (length, rest) = take_u16(bytes)?;
    let (text, rest) = take_bytes(rest, usize::from(length))?;
    Ok((text_of(text)?, rest))
}

/// The bytes behind the four that say what a file is.
#[tactic(auto, unfolding(crate::specs::Reading::behind_magic))]
pub fn skip_magic<'a>(magic: &[u8; 4], bytes: &'a [u8]) -> Result<&'a [u8], WireFault>
    ensures { Reads (λ x. x.now) result (behind_magic magic.now bytes.now) }
{
    let (first, rest) = take_bytes(bytes, 4)?;
    if first != magic.as_slice() {
        return Err(WireFault::Magic);
    }
    Ok(rest)
}
