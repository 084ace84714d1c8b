//! Offsets of a fixed width in bits, one behind the other.
ghost use Rattle.std.specs.Prelude.{◌≡◌, ◌+◌, ◌*◌, ◌-◌, ◌/◌, ◌%◌, ◌^◌, ◌<◌, ◌≤◌, length};
ghost use Rattle.meaning.specs.Limits.{row_group_rows};
ghost use Rattle.bit_packing.specs.Offsets.{offset_at};
ghost use Rattle.bit_packing.specs.Bytes.{number_of};

/// The number that few bytes are, the lowest byte first.
fn number(bytes: &[u8]) -> u128
    requires { length bytes.now ≤ 16 }
    ensures { result ≡ number_of bytes.now }
{
    let mut number = 0;
    for k in 0..bytes.len() {
        number = number * 256 + bytes[bytes.len() - 1 - k] as u128;
    }
    number
}

/// `width` bits from bit `shift` on, of at most 57 bits that lie in the first eight bytes.
fn narrow_offset(chunk: &[u8; 8], width: u8, shift: usize) -> u64
    requires narrow { width ≤ 57 }
    requires shift { shift < 8 }
    ensures { result ≡ number_of chunk.now / 2 ^ shift % 2 ^ width }
{
    (u64::from_le_bytes(*chunk) >> shift) & ((1 << width) - 1)
}

/// `width` bits from bit `shift` on, which lie in eight bytes and one more.
fn wide_offset(chunk: &[u8; 8], last: u8, width: u8, shift: usize) -> u64
    requires width { width ≤ 64 }
    requires shift { shift < 8 }
    ensures { result ≡ (number_of chunk.now + last * 2 ^ 64) / 2 ^ shift % 2 ^ width }
{
    let number = last as u128 * (1 << 64) + u64::from_le_bytes(*chunk) as u128;
    ((number >> shift) & ((1 << width) - 1)) as u64
}

/// `width` bits from bit `shift` on, of fewer than 16 bytes.
#[cold]
#[inline(never)]
fn last_offset(bytes: &[u8], width: u8, shift: usize) -> u64
    requires short { length bytes.now ≤ 16 }
    requires width { width ≤ 64 }
    requires shift { shift < 8 }
    ensures { result ≡ number_of bytes.now / 2 ^ shift % 2 ^ width }
{
    ((number(bytes) >> shift) & ((1 << width) - 1)) as u64
}

/// `width` bits from bit `shift` on.
fn first_offset(bytes: &[u8], width: u8, shift: usize) -> u64
    requires width { width ≤ 64 }
    requires shift { shift < 8 }
    ensures { result ≡ number_of bytes.now / 2 ^ shift % 2 ^ width }
{
    let Some(chunk) = bytes.first_chunk::<8>() else {
        return last_offset(bytes, width, shift);
    };
    if width <= 57 {
        return narrow_offset(chunk, width, shift);
    }
    if bytes.len() == 8 {
        return last_offset(bytes, width, shift);
    }
    wide_offset(chunk, bytes[8], width, shift)
}

/// The offset of row `i` of a row group.
#[inline]
pub fn row_offset(bytes: &[u8], width: u8, i: usize) -> u64
    requires width { width ≤ 64 }
    requires few { i ≤ row_group_rows }
    requires within { i * width ≤ 8 * length bytes.now }
    ensures { result ≡ offset_at width bytes.now i }
{
    let bit = i * width as usize;
    first_offset(&bytes[bit / 8..], width, bit % 8)
}
