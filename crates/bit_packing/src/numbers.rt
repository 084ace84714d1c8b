//! Numbers and bits in bytes, the lowest byte first.
ghost use Rattle.std.specs.Prelude.{◌≡◌, ◌*◌, ◌/◌, ◌<◌, length, take, drop};
ghost use Rattle.std.specs.Int.{w16, w32, from_le_bytes};
ghost use Rattle.bit_packing.specs.Bits.{bit_at};
ghost use Rattle.bit_packing.specs.Bytes.{integer_of};

/// Number `i` of those of 16 bits that stand one after the other.
#[inline(always)]
pub fn short_at(bytes: &[u8], i: usize) -> u16
    requires { i < length bytes.now / 2 }
    ensures { result ≡ from_le_bytes w16 (take 2 (drop (2 * i) bytes.now)) }
{
    let (shorts, _) = bytes.as_chunks::<2>();
    u16::from_le_bytes(shorts[i])
}

/// Number `i` of those of 32 bits that stand one after the other.
#[inline(always)]
pub fn word_at(bytes: &[u8], i: usize) -> u32
    requires { i < length bytes.now / 4 }
    ensures { result ≡ from_le_bytes w32 (take 4 (drop (4 * i) bytes.now)) }
{
    let (words, _) = bytes.as_chunks::<4>();
    u32::from_le_bytes(words[i])
}

/// Integer `i` of those of 64 bits, in two's complement, that stand one after the other.
#[inline(always)]
pub fn integer_at(bytes: &[u8], i: usize) -> i64
    requires { i < length bytes.now / 8 }
    ensures { result ≡ integer_of (take 8 (drop (8 * i) bytes.now)) }
{
    let (integers, _) = bytes.as_chunks::<8>();
    i64::from_le_bytes(integers[i])
}

/// Bit `i`, counted from the lowest of the first byte.
#[inline(always)]
pub fn has_bit(bytes: &[u8], i: usize) -> bool
    requires { i / 8 < length bytes.now }
    ensures { result ≡ bit_at bytes.now i }
{
    (bytes[i / 8] >> (i % 8)) & 1 == 1
}
