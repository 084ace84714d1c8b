//! Where a record is that is no row, and what it has there.
use csv::ByteRecord;
use csv_lines::{line_of, record_at, shown_field};
use folders::{Folder, Refusal, open_file};
use loader::LoadFault;
use meaning::{TableFault, Text};
use std::alloc::Global;
use std::io;
use std::io::Write;

/// What a write to standard error came to.
pub fn written(printed: io::Result<()>) -> Result<(), Refusal> {
    match printed {
        Ok(()) => Ok(()),
        Err(_) => Err(Refusal::CannotReport),
    }
}

// What was found; nothing where a reader failed.
fn if_read<T: Drop>(found: Result<Option<T>, LoadFault>) -> Result<Option<T>, Refusal> {
    match found {
        Ok(found) => Ok(found),
        Err(LoadFault::Memory) => Err(Refusal::Memory),
        Err(_) => Ok(None),
    }
}

/// The record of this index, if it can be read.
pub fn record_in<F: Folder>(
    alloc: Global,
    folder: &F,
    path: &Text,
    index: u64,
) -> Result<Option<ByteRecord>, Refusal> {
    let file = open_file(folder, path)?;
    if_read(record_at(alloc, file, index))
}

fn line_in<F: Folder>(
    alloc: Global,
    folder: &F,
    path: &Text,
    index: u64,
) -> Result<Option<u64>, Refusal> {
    let file = open_file(folder, path)?;
    if_read(line_of(alloc, file, index))
}

// The row of a fault, and the column if it is of one.
fn place_of(fault: TableFault) -> Option<(u64, Option<u64>)> {
    match fault {
        TableFault::FieldCount { row } | TableFault::KeyTwice { row } => Some((row, None)),
        TableFault::NotAnInteger { row, column }
        | TableFault::NullNotAllowed { row, column }
        | TableFault::TextTooLong { row, column }
        | TableFault::NotUtf8 { row, column } => Some((row, Some(column))),
        TableFault::Header | TableFault::TooManyRows | TableFault::TooFewRows => None,
    }
}

fn report_count<E: Write>(
    path: &str,
    line: u64,
    record: &ByteRecord,
    err: &mut E,
) -> Result<(), Refusal> {
    let count = record.len();
    let word = if count == 1 { "field" } else { "fields" };
    written(writeln!(
        err,
        "{path} line {line}: {count} {word}, unlike the header; give each row a field for each column"
    ))
}

fn report_value<E: Write>(
    alloc: Global,
    path: &str,
    line: u64,
    record: &ByteRecord,
    column: u64,
    err: &mut E,
) -> Result<(), Refusal> {
    let index = usize::try_from(column).unwrap_or(0);
    let shown = shown_field(alloc, record.get(index).unwrap_or(b""))?;
    let shown = shown.as_str();
    let number = column.saturating_add(1);
    written(writeln!(err, "{path} line {line}, column {number}: {shown}"))
}

/// Says where the record of a fault is, and what it has there.
///
/// # Errors
///
/// Out of memory, a file that can't be read, or a standard error that fails.
pub fn report_place<F: Folder, E: Write>(
    alloc: Global,
    folder: &F,
    file: &str,
    fault: TableFault,
    err: &mut E,
) -> Result<(), Refusal> {
    let Some((row, column)) = place_of(fault) else {
        return Ok(());
    };
    let path = Text::new(alloc, file)?;
    let index = row.saturating_add(1);
    let Some(line) = line_in(alloc, folder, &path, index)? else {
        return Ok(());
    };
    let Some(record) = record_in(alloc, folder, &path, index)? else {
        return Ok(());
    };
    match column {
        Some(column) => report_value(alloc, file, line, &record, column, err),
        None => report_count(file, line, &record, err),
    }
}
