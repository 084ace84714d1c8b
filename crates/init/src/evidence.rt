//! Why columns of a file are texts.
use crate::checking::opened;
use crate::fault::{InitFault, of_load};
use crate::looks::{Evidence, look_of};
use csv::{ByteRecord, Reader};
use folders::Folder;
use loader::{LoadFault, csv_reader, next_record};
use meaning::Text;
use std::alloc::Global;
use std::io::Read;
use std::mem::drop;

fn with_field(found: Evidence, row: &ByteRecord, index: usize, record: u64) -> Evidence {
    match row.get(index) {
        Some(field) => found.with(record, look_of(field)),
        None => found,
    }
}

fn take_row(evidence: &mut [Evidence], row: &ByteRecord, record: u64) {
    for index in 0..evidence.len() {
        evidence[index] = with_field(evidence[index], row, index, record);
    }
}

fn take_rows<R: Read>(
    reader: &mut Reader<R>,
    row: &mut ByteRecord,
    evidence: &mut [Evidence],
) -> Result<(), LoadFault> {
    for record in 0..u64::MAX {
        if !next_record(reader, row)? {
            return Ok(());
        }
        if record > 0 {
            take_row(evidence, row, record);
        }
    }
    Err(LoadFault::Memory)
}

fn read_evidence<R: Read + Drop>(
    alloc: Global,
    reader: R,
    evidence: &mut [Evidence],
) -> Result<(), LoadFault> {
    let mut reader = csv_reader(alloc, reader);
    let mut row = ByteRecord::new(alloc);
    let taken = take_rows(&mut reader, &mut row, evidence);
    drop(reader);
    drop(row);
    taken
}

/// What the fields of the first columns of a file look like.
///
/// # Errors
///
/// Out of memory, or a file that can't be read.
pub fn evidence_in<F: Folder>(
    alloc: Global,
    folder: &F,
    path: &Text,
    columns: usize,
) -> Result<Vec<Evidence>, InitFault> {
    let file = opened(folder, path)?;
    let mut evidence = vec![in alloc; Evidence::NONE; columns]?;
    match read_evidence(alloc, file, &mut evidence) {
        Ok(()) => Ok(evidence),
        Err(fault) => {
            drop(evidence);
            Err(of_load(alloc, path, fault))
        }
    }
}
