//! A record of a CSV file, by its index.
ghost use Rattle.std.specs.Prelude.{◌≡◌, ℕ, if◌then◌else◌, List, option_map, slice_get, None, Some, IfErr, IfOk};
ghost use Rattle.csv.specs.Records.{fields_of};
ghost use Rattle.meaning.specs.Records.{Record};
ghost use Rattle.loader.specs.Fault.{IsOutside};
ghost use Rattle.loader.specs.Source.{IsLeft, csv_records};
ghost use Rattle.csv_lines.specs.Taking.{Skips, TakesAt};

use csv::{ByteRecord, Reader};
use loader::{LoadFault, csv_reader, next_record};
use std::alloc::Global;
use std::io::Read;
use std::mem::drop;

// Passes over records, and whether there were so many.
fn skip_records<R: Read>(
    reader: &mut Reader<R>,
    row: &mut ByteRecord,
    count: u64,
) -> Result<bool, LoadFault>
    ensures skipped { IfOk result (λ all. (rest : List Record) → IsLeft R.remaining reader.old rest
        → Skips R.remaining reader.new count rest all) }
    ensures refused { IfErr result IsOutside }
{
    for _ in 0..count {
        if !next_record(reader, row)? {
            return Ok(false);
        }
    }
    Ok(true)
}

// The record behind so many into `row`, and whether there was one.
fn read_at<R: Read>(
    reader: &mut Reader<R>,
    row: &mut ByteRecord,
    index: u64,
) -> Result<bool, LoadFault>
    ensures taken { IfOk result (λ found. (rest : List Record) → IsLeft R.remaining reader.old rest
        → TakesAt index rest found (fields_of row.new)) }
    ensures refused { IfErr result IsOutside }
{
    if !skip_records(reader, row, index)? {
        return Ok(false);
    }
    next_record(reader, row)
}

// The record that was read, if there was one.
fn kept(row: ByteRecord, found: bool) -> Option<ByteRecord>
    ensures { option_map fields_of result ≡ (if found then Some (fields_of row) else None) }
{
    if found {
        return Some(row);
    }
    drop(row);
    None
}

/// The record of this index, if there is one. The header is that of index 0.
///
/// # Errors
///
/// Out of memory, or the reader's own.
#[tactic(auto, using(crate::proofs::Passing::kept_at))]
pub fn record_at<R: Read + Drop>(
    alloc: Global,
    reader: R,
    index: u64,
) -> Result<Option<ByteRecord>, LoadFault>
    ensures found { IfOk result (λ found. (bytes : List ℕ) → R.remaining reader ≡ Some bytes
        → option_map fields_of found ≡ slice_get (csv_records bytes) index) }
    ensures refused { IfErr result IsOutside }
{
    let mut reader = csv_reader(alloc, reader);
    let mut row = ByteRecord::new(alloc);
    let found = read_at(&mut reader, &mut row, index);
    drop(reader);
    match found {
        Ok(found) => Ok(kept(row, found)),
        Err(fault) => {
            drop(row);
            Err(fault)
        }
    }
}
