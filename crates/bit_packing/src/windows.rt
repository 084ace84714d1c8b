//! Eight bytes at a time as one number, and bits of it.
ghost use Rattle.std.specs.Prelude.{◌≡◌, ◌+◌, ◌*◌, ◌/◌, ◌%◌, ◌^◌, ◌-◌, ◌<◌, ◌≤◌, ◌==◌, true, length, take, drop, nat_lt};
ghost use Rattle.bit_packing.specs.Bytes.{number_of};

/// Up to 8 bytes as one number.
fn small_number(bytes: &[u8]) -> u64
    requires { length bytes.now ≤ 8 }
    ensures { result ≡ number_of bytes.now }
{
    let mut number: u64 = 0;
    for i in 0..bytes.len() {
        number = number * 256 + u64::from(bytes[bytes.len() - 1 - i]);
    }
    number
}

/// Up to 8 bytes from an offset on, as one number.
#[inline(always)]
pub fn window_at(bytes: &[u8], start: usize) -> u64
    requires { start ≤ length bytes.now }
    ensures { result ≡ number_of (take 8 (drop start bytes.now)) }
{
    let rest = &bytes[start..];
    if rest.len() < 8 {
        return small_number(rest);
    }
    let (words, _) = rest.as_chunks::<8>();
    u64::from_le_bytes(words[0])
}

/// The lowest bits of a number.
#[inline(always)]
pub fn low_bits(number: u64, width: usize) -> u64
    requires { width ≤ 64 }
    ensures { result ≡ number % 2 ^ width }
{
    if width == 64 {
        return number;
    }
    number & ((1 << width) - 1)
}

/// Whether the bits behind the first `bits` are 0.
pub fn are_unused_clear(bits: usize, packed: &[u8]) -> bool
    requires few { bits ≤ 524288 }
    requires long { length packed.now ≡ (bits + 7) / 8 }
    ensures { result ≡ nat_lt (number_of packed.now) (2 ^ bits) }
{
    if bits == 0 {
        return true;
    }
    let last = packed.len() - 1;
    u64::from(packed[last]) < 1 << (bits - 8 * last)
}
