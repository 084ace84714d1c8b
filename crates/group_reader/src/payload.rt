//! The payloads of blocks, in pieces.
ghost use Rattle.std.specs.Prelude.{◌≡◌, ◌≤◌, ◌+◌, length, take, drop, OnOk};
ghost use Rattle.fragment_file.specs.Fault.{from_wire};
ghost use Rattle.wire.specs.Reading.{bytes_at};
ghost use Rattle.group_reader.specs.Source.{Takes};

use crate::source::{Source, next_into};
use fragment_file::FileFault;
use std::io::Read;

/// The most bytes that are asked of a reader at once, and the most for which room is taken ahead of
/// them.
const PIECE: u32 = 65_536;

/// The next bytes, behind those that are there.
fn next_piece<R: Read + Drop>(
    source: &mut Source<R>,
    count: usize,
    bytes: &mut Vec<u8>,
) -> Result<(), FileFault>
    requires { count ≤ 65_536 }
    ensures kept { take (length bytes.old.items) bytes.new.items ≡ bytes.old.items }
    ensures more { OnOk result (length bytes.new.items ≡ length bytes.old.items + count) }
    ensures read { Takes R.remaining source.old source.new
        (λ _. drop (length bytes.old.items) bytes.new.items) result
        (λ rest. from_wire (bytes_at count rest)) }
{
    let start = bytes.len();
    bytes.resize(start + count, 0)?;
    next_into(source, bytes.as_mut_slice(), start)
}

/// The next bytes, behind those that are there, a piece after the other.
pub fn next_payload<R: Read + Drop>(
    source: &mut Source<R>,
    count: u32,
    bytes: &mut Vec<u8>,
) -> Result<(), FileFault>
    ensures kept { take (length bytes.old.items) bytes.new.items ≡ bytes.old.items }
    ensures more { OnOk result (length bytes.new.items ≡ length bytes.old.items + count) }
    ensures read { Takes R.remaining source.old source.new
        (λ _. drop (length bytes.old.items) bytes.new.items) result
        (λ rest. from_wire (bytes_at count rest)) }
{
    let mut left = count;
    while left > 0 {
        let size = left.min(PIECE);
        next_piece(source, size as usize, bytes)?;
        left -= size;
    }
    Ok(())
}
