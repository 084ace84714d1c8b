//! The first bytes of a file, of which a byte order mark is none of its text.
ghost use Rattle.std.specs.Prelude.{◌≡◌, ◌≤◌, ℕ, List, [], length, Some, IfErr, IfOk};
ghost use Rattle.std.specs.Str.{bytes_eq};
ghost use Rattle.csv.specs.Reading.{strip_bom};
ghost use Rattle.csv_lines.specs.Front.{AreFirst, IsFront, mark};
ghost use Rattle.loader.specs.Fault.{IsOutside};

use loader::{LoadFault, next_byte};
use std::alloc::Global;
use std::io::Read;
use std::mem::drop;

// The first three bytes, or as many as there are.
fn first_bytes<R: Read>(alloc: Global, reader: &mut R) -> Result<Vec<u8>, LoadFault>
    ensures first { IfOk result (λ front. (bytes : List ℕ) → R.remaining reader.old ≡ Some bytes
        → AreFirst (R.remaining reader.new) bytes front.items) }
    ensures few { IfOk result (λ front. length front.items ≤ 3) }
    ensures refused { IfErr result IsOutside }
{
    let mut front = Vec::new(alloc);
    for _ in 0..3usize {
        let Some(byte) = next_byte(reader)? else {
            return Ok(front);
        };
        front.push(byte)?;
    }
    Ok(front)
}

fn is_mark(front: &[u8]) -> bool
    ensures { result ≡ bytes_eq front.now mark }
{
    front == b"\xEF\xBB\xBF".as_slice()
}

fn no_bytes(alloc: Global) -> Vec<u8>
    ensures { result.items ≡ [] }
{
    Vec::new(alloc)
}

/// The first bytes of a file, up to three, without a byte order mark.
pub fn front_of<R: Read>(alloc: Global, reader: &mut R) -> Result<Vec<u8>, LoadFault>
    ensures front { IfOk result (λ front. (bytes : List ℕ) → R.remaining reader.old ≡ Some bytes
        → IsFront (R.remaining reader.new) (strip_bom bytes) front.items) }
    ensures refused { IfErr result IsOutside }
{
    let front = first_bytes(alloc, reader)?;
    if is_mark(front.as_slice()) {
        drop(front);
        return Ok(no_bytes(alloc));
    }
    Ok(front)
}
