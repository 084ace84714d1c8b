//! Numbers of a file, the lowest byte first.
ghost use Rattle.fragment_file.specs.Fault.{from_wire};
ghost use Rattle.wire.specs.Reading.{number_at};
ghost use Rattle.group_reader.specs.Source.{Takes};

use crate::source::{Source, next_bytes};
use byteorder::{ByteOrder, LittleEndian};
use fragment_file::FileFault;
use std::io::Read;

pub fn next_u8<R: Read + Drop>(source: &mut Source<R>) -> Result<u8, FileFault>
    ensures { Takes R.remaining source.old source.new (λ n. n) result
        (λ rest. from_wire (number_at 1 rest)) }
{
    let mut word = [0; 1];
    next_bytes(source, &mut word)?;
    Ok(word[0])
}

pub fn next_u16<R: Read + Drop>(source: &mut Source<R>) -> Result<u16, FileFault>
    ensures { Takes R.remaining source.old source.new (λ n. n) result
        (λ rest. from_wire (number_at 2 rest)) }
{
    let mut word = [0; 2];
    next_bytes(source, &mut word)?;
    Ok(LittleEndian::read_u16(&word))
}

pub fn next_u32<R: Read + Drop>(source: &mut Source<R>) -> Result<u32, FileFault>
    ensures { Takes R.remaining source.old source.new (λ n. n) result
        (λ rest. from_wire (number_at 4 rest)) }
{
    let mut word = [0; 4];
    next_bytes(source, &mut word)?;
    Ok(LittleEndian::read_u32(&word))
}

pub fn next_u64<R: Read + Drop>(source: &mut Source<R>) -> Result<u64, FileFault>
    ensures { Takes R.remaining source.old source.new (λ n. n) result
        (λ rest. from_wire (number_at 8 rest)) }
{
    let mut word = [0; 8];
    next_bytes(source, &mut word)?;
    Ok(LittleEndian::read_u64(&word))
}
