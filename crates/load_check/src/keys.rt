//! The first record of a dimension that has a key.
use csv::{ByteRecord, Reader};
use loader::{LoadFault, csv_reader, next_record};
use meaning::{ColType, text_of};
use std::alloc::Global;
use std::io::Read;
use std::mem::drop;

fn integer_in(field: &[u8]) -> Option<i64> {
    text_of(field)?.parse::<i64>().ok()
}

// Whether two fields have one value in a column of this type.
fn is_same(col_type: ColType, field: &[u8], other: &[u8]) -> bool {
    match col_type {
        ColType::Text => field == other,
        ColType::Int => match (integer_in(field), integer_in(other)) {
            (Some(value), Some(other)) => value == other,
            _ => false,
        },
    }
}

// The index of the first record behind the header whose field has this value.
fn find_key<R: Read>(
    reader: &mut Reader<R>,
    row: &mut ByteRecord,
    field: usize,
    col_type: ColType,
    key: &[u8],
) -> Result<Option<u64>, LoadFault> {
    for index in 0..u64::MAX {
        if !next_record(reader, row)? {
            return Ok(None);
        }
        if index == 0 {
            continue;
        }
        if let Some(found) = row.get(field) {
            if is_same(col_type, found, key) {
                return Ok(Some(index));
            }
        }
    }
    Err(LoadFault::Memory)
}

/// The index of the first record behind the header with the value that this field has in it.
///
/// # Errors
///
/// Out of memory, or the reader's own.
pub fn first_with<R: Read + Drop>(
    alloc: Global,
    reader: R,
    field: usize,
    col_type: ColType,
    key: &[u8],
) -> Result<Option<u64>, LoadFault> {
    let mut reader = csv_reader(alloc, reader);
    let mut row = ByteRecord::new(alloc);
    let found = find_key(&mut reader, &mut row, field, col_type, key);
    drop(reader);
    drop(row);
    found
}
