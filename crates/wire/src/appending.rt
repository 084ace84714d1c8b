//! Numbers and texts behind the bytes of a `Vec`. An error is that memory ran out.
ghost use Rattle.std.specs.Prelude.{◌≡◌, ◌++◌, ◌<◌, ◌^◌, length, OnOk};
ghost use Rattle.wire.specs.Bytes.{i64_bytes, i128_bytes, number_bytes, text_bytes};

use byteorder::{ByteOrder, LittleEndian};
use std::alloc::AllocError;

#[tactic(auto, unfolding(crate::specs::Bytes::number_bytes))]
pub fn append_u8(out: &mut Vec<u8>, n: u8) -> Result<(), AllocError>
    ensures { OnOk result (out.new.items ≡ out.old.items ++ number_bytes 1 n) }
{
    out.push(n)?;
    Ok(())
}

#[tactic(auto, unfolding(crate::specs::Bytes::number_bytes))]
pub fn append_u16(out: &mut Vec<u8>, n: u16) -> Result<(), AllocError>
    ensures { OnOk result (out.new.items ≡ out.old.items ++ number_bytes 2 n) }
{
    let mut word = [0; 2];
    LittleEndian::write_u16(&mut word, n);
    out.extend_from_slice(&word)
}

#[tactic(auto, unfolding(crate::specs::Bytes::number_bytes))]
pub fn append_u32(out: &mut Vec<u8>, n: u32) -> Result<(), AllocError>
    ensures { OnOk result (out.new.items ≡ out.old.items ++ number_bytes 4 n) }
{
    let mut word = [0; 4];
    LittleEndian::write_u32(&mut word, n);
    out.extend_from_slice(&word)
}

#[tactic(auto, unfolding(crate::specs::Bytes::number_bytes))]
pub fn append_u64(out: &mut Vec<u8>, n: u64) -> Result<(), AllocError>
    ensures { OnOk result (out.new.items ≡ out.old.items ++ number_bytes 8 n) }
{
    let mut word = [0; 8];
    LittleEndian::write_u64(&mut word, n);
    out.extend_from_slice(&word)
}

#[tactic(auto, unfolding(crate::specs::Bytes::number_bytes))]
pub fn append_i64(out: &mut Vec<u8>, n: i64) -> Result<(), AllocError>
    ensures { OnOk result (out.new.items ≡ out.old.items ++ i64_bytes n) }
{
    let mut word = [0; 8];
    LittleEndian::write_i64(&mut word, n);
    out.extend_from_slice(&word)
}

#[tactic(auto, unfolding(crate::specs::Bytes::number_bytes))]
pub fn append_i128(out: &mut Vec<u8>, n: i128) -> Result<(), AllocError>
    ensures { OnOk result (out.new.items ≡ out.old.items ++ i128_bytes n) }
{
    let mut word = [0; 16];
    LittleEndian::write_i128(&mut word, n);
    out.extend_from_slice(&word)
}

/// A text behind its length in 32 bits.
#[tactic(auto, unfolding(crate::specs::Bytes::text_bytes))]
pub fn append_text(out: &mut Vec<u8>, text: &str) -> Result<(), AllocError>
    requires { length text.now < 2 ^ 32 }
    ensures { OnOk result (out.new.items ≡ out.old.items ++ text_bytes 4 text.now) }
{
    append_u32(out, text.len() as u32)?;
    out.extend_from_slice(text.as_bytes())
}

/// A text, of which the bytes are lent, behind its length in 16 bits.
#[tactic(auto, unfolding(crate::specs::Bytes::text_bytes))]
pub fn append_short_text(out: &mut Vec<u8>, text: &[u8]) -> Result<(), AllocError>
    requires { length text.now < 2 ^ 16 }
    ensures { OnOk result (out.new.items ≡ out.old.items ++ text_bytes 2 text.now) }
{
    append_u16(out, text.len() as u16)?;
    out.extend_from_slice(text)
}
