//! The seal: the SHA-256 of all bytes before it.
ghost use Rattle.std.specs.Prelude.{◌≡◌, List, ℕ, OnOk};
ghost use Rattle.std.specs.Io.KnownBytes.{Appends};
ghost use Rattle.sha2.specs.Hashers.{Holds256};
ghost use Rattle.wire.specs.Bytes.{number_bytes, seal_of, sealed};
ghost use Rattle.wire.specs.Reading.{Reads, sealed_end};
ghost use Rattle.wire.specs.Writing.{Puts};

use crate::fault::{DeviceFault, WireFault};
use byteorder::{ByteOrder, LittleEndian};
use sha2::{Digest, Sha256};
use std::alloc::AllocError;
use std::io::Write;

/// How many bytes a seal has.
pub const SEAL_BYTES: usize = 32;

/// The seal of all bytes so far. An error is that memory ran out.
#[tactic(auto, unfolding(crate::specs::Bytes::seal_of))]
pub fn append_seal(out: &mut Vec<u8>) -> Result<(), AllocError>
    ensures { OnOk result (out.new.items ≡ sealed out.old.items) }
{
    let seal = Sha256::digest(out.as_slice());
    out.extend_from_slice(&seal)
}

/// The seal, where nothing stands behind it and it is that of the bytes before it.
#[tactic(auto, unfolding(crate::specs::Reading::sealed_end, crate::specs::Bytes::seal_of))]
pub fn check_seal<'a>(bytes: &[u8], seal: &'a [u8], rest: &[u8]) -> Result<&'a [u8], WireFault>
    ensures { Reads (λ s. s.now) result (sealed_end bytes.now seal.now rest.now) }
{
    if !rest.is_empty() {
        return Err(WireFault::TrailingBytes);
    }
    let (front, _) = bytes.split_at(bytes.len().saturating_sub(SEAL_BYTES));
    if seal != Sha256::digest(front).as_slice() {
        return Err(WireFault::Seal);
    }
    Ok(seal)
}

fn write_bytes<W: Write>(out: &mut W, bytes: &[u8]) -> Result<(), DeviceFault>
    ensures { OnOk result (Appends (W.contents out.old) (W.contents out.new) bytes.now) }
{
    match out.write_all(bytes) {
        Ok(()) => Ok(()),
        Err(_) => Err(DeviceFault),
    }
}

/// Bytes for the writer, and for the hasher of all that it was given.
#[tactic(auto, unfolding(crate::specs::Writing::Hashes))]
pub fn put<W: Write>(out: &mut W, hasher: &mut Sha256, bytes: &[u8]) -> Result<(), DeviceFault>
    ensures { OnOk result (Puts (W.contents out.old) (W.contents out.new) hasher.old hasher.new
        bytes.now) }
{
    hasher.update(bytes);
    write_bytes(out, bytes)
}

#[tactic(auto, unfolding(crate::specs::Bytes::number_bytes))]
pub fn put_u32<W: Write>(out: &mut W, hasher: &mut Sha256, n: u32) -> Result<(), DeviceFault>
    ensures { OnOk result (Puts (W.contents out.old) (W.contents out.new) hasher.old hasher.new
        (number_bytes 4 n)) }
{
    let mut word = [0; 4];
    LittleEndian::write_u32(&mut word, n);
    put(out, hasher, &word)
}

#[tactic(auto, unfolding(crate::specs::Bytes::number_bytes))]
pub fn put_u64<W: Write>(out: &mut W, hasher: &mut Sha256, n: u64) -> Result<(), DeviceFault>
    ensures { OnOk result (Puts (W.contents out.old) (W.contents out.new) hasher.old hasher.new
        (number_bytes 8 n)) }
{
    let mut word = [0; 8];
    LittleEndian::write_u64(&mut word, n);
    put(out, hasher, &word)
}

/// The seal of what the hasher holds.
#[tactic(auto, unfolding(crate::specs::Bytes::seal_of))]
pub fn put_seal<W: Write>(out: &mut W, hasher: Sha256) -> Result<(), DeviceFault>
    ensures { OnOk result ((m : List ℕ) → Holds256 hasher m →
        Appends (W.contents out.old) (W.contents out.new) (seal_of m)) }
{
    let seal = hasher.finalize();
    write_bytes(out, &seal)
}
