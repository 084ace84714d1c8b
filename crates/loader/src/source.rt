//! Records one after the other, from any reader.
ghost use Rattle.std.specs.Prelude.{◌≡◌, ℕ, List, Some, IfOk, IfErr};
ghost use Rattle.csv.specs.Records.{fields_of};
ghost use Rattle.meaning.specs.Records.{Record};
ghost use Rattle.loader.specs.Fault.{IsOutside};
ghost use Rattle.loader.specs.Source.{IsLeft, TakesNext, csv_records};

use crate::fault::LoadFault;
use csv::{ByteRecord, Error, ErrorKind, Reader, ReaderBuilder};
use std::alloc::Global;
use std::io::Read;

/// A reader of the records of a CSV file. One byte order mark in front is passed over, and records
/// may be of different lengths.
pub fn csv_reader<R: Read>(alloc: Global, reader: R) -> Reader<R>
    ensures { (bytes : List ℕ) → R.remaining reader ≡ Some bytes
        → IsLeft R.remaining result (csv_records bytes) }
{
    ReaderBuilder::new()
        .has_headers(false)
        .flexible(true)
        .from_reader(alloc, reader)
}

/// Out of memory, or the fault of the reader underneath.
fn fault_of(error: Error) -> LoadFault
    ensures { IsOutside result }
{
    match error.kind() {
        ErrorKind::Io(_) => LoadFault::Device,
        _ => LoadFault::Memory,
    }
}

/// The next record into `row`, whose buffers are used again, and whether there was one.
pub fn next_record<R: Read>(reader: &mut Reader<R>, row: &mut ByteRecord) -> Result<bool, LoadFault>
    ensures taken { IfOk result (λ found. (rest : List Record) → IsLeft R.remaining reader.old rest
        → TakesNext R.remaining reader.new rest found (fields_of row.new)) }
    ensures refused { IfErr result IsOutside }
{
    match reader.read_byte_record(row) {
        Ok(found) => Ok(found),
        Err(error) => Err(fault_of(error)),
    }
}
