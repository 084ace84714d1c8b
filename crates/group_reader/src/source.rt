//! The bytes of a file one part after the other, and their hash on the way.
ghost use Rattle.std.specs.Prelude.{◌≡◌, ◌≤◌, ◌<◌, ◌+◌, ◌-◌, ℕ, List, length, take, drop, Some, IfOk, IfErr};
ghost use Rattle.fragment_file.specs.Fault.{from_wire};
ghost use Rattle.fragment_file.specs.declared.fault.FileFault.TheVariants.{Device};
ghost use Rattle.wire.specs.Reading.{bytes_at};
ghost use Rattle.group_reader.specs.Source.{Gave, IsFilled, Takes};

use fragment_file::FileFault;
use sha2::{Digest, Sha256};
use std::io::Read;

/// A reader, and the hasher of all bytes that it gave.
#[derive(Drop)]
pub struct Source<R: Read + Drop> {
    pub reader: R,
    pub hasher: Sha256,
}

/// The next bytes into `out` from place `at` on, and how many there are; none only at the end.
fn read_some<R: Read>(reader: &mut R, out: &mut [u8], at: usize) -> Result<usize, FileFault>
    requires { at < length out.old }
    ensures within { IfOk result (λ n. at + n ≤ length out.new) }
    ensures kept { take at out.new ≡ take at out.old }
    ensures read { IfOk result (λ n. (bytes : List ℕ) → R.remaining reader.old ≡ Some bytes
        → Gave (R.remaining reader.new) bytes (take n (drop at out.new))) }
    ensures told { IfErr result (λ e. e ≡ Device) }
{
    match reader.read(&mut out[at..]) {
        Ok(count) => Ok(count),
        Err(_) => Err(FileFault::Device),
    }
}

/// The next bytes into `out`, and how many there are: as many as it has room for, unless the reader
/// ends before.
pub fn fill<R: Read>(reader: &mut R, out: &mut [u8]) -> Result<usize, FileFault>
    ensures within { IfOk result (λ n. n ≤ length out.new) }
    ensures filled { IfOk result (λ n. (bytes : List ℕ) → R.remaining reader.old ≡ Some bytes
        → IsFilled (R.remaining reader.new) bytes n out.new) }
    ensures told { IfErr result (λ e. e ≡ Device) }
{
    let mut count = 0;
    while count < out.len() {
        let read = read_some(reader, out, count)?;
        if read == 0 {
            return Ok(count);
        }
        count += read;
    }
    Ok(count)
}

/// The next bytes, as many as `out` has room for.
pub fn next_bytes<R: Read + Drop>(source: &mut Source<R>, out: &mut [u8]) -> Result<(), FileFault>
    ensures { Takes R.remaining source.old source.new (λ _. out.new) result
        (λ rest. from_wire (bytes_at (length out.old) rest)) }
{
    let count = fill(&mut source.reader, out)?;
    if count < out.len() {
        return Err(FileFault::Truncated);
    }
    source.hasher.update(&*out);
    Ok(())
}

/// The next bytes into `out` from place `at` on, as many as there is room for.
pub fn next_into<R: Read + Drop>(
    source: &mut Source<R>,
    out: &mut [u8],
    at: usize,
) -> Result<(), FileFault>
    requires { at ≤ length out.old }
    ensures kept { take at out.new ≡ take at out.old }
    ensures read { Takes R.remaining source.old source.new (λ _. drop at out.new) result
        (λ rest. from_wire (bytes_at (length out.old - at) rest)) }
{
    let (_, room) = out.split_at_mut(at);
    next_bytes(source, room)
}
