//! What is wrong with a table's file, in a sentence with its place.
use crate::advice::{
    COUNT_ADVICE, HEADER_ADVICE, KEY_ADVICE, ROWS_ADVICE, field_advice, field_words,
};
use crate::header::header_words;
use crate::keys::first_with;
use crate::site::{Site, field_of, record_of};
use csv::ByteRecord;
use csv_lines::shown_field;
use folders::{Folder, Refusal, open_file};
use meaning::{ColType, MAX_ROWS, TableFault};
use std::alloc::Global;

fn header_sentence<F: Folder>(
    alloc: Global,
    folder: &F,
    site: &Site<'_>,
) -> Result<String, Refusal> {
    let path = site.path.as_str();
    let Some(header) = site.record(alloc, folder, 0)? else {
        return Ok(format!(in alloc; "{path}: the file is empty\n{HEADER_ADVICE}\n")?);
    };
    let line = site.line(alloc, folder, 0)?;
    let words = header_words(alloc, &header, site.table)?;
    let words = words.as_str();
    Ok(format!(in alloc; "{path} line {line}: {words}\n{HEADER_ADVICE}\n")?)
}

// A number of fields.
fn fields_word(count: usize) -> &'static str {
    if count == 1 { "field" } else { "fields" }
}

fn count_sentence<F: Folder>(
    alloc: Global,
    folder: &F,
    site: &Site<'_>,
    row: u64,
) -> Result<String, Refusal> {
    let line = site.line(alloc, folder, record_of(row))?;
    let path = site.path.as_str();
    let wanted = site.table.columns.len();
    let count = match site.record(alloc, folder, record_of(row))? {
        Some(record) => record.len(),
        None => 0,
    };
    let word = fields_word(count);
    Ok(format!(in alloc;
        "{path} line {line}: {count} {word}, and the header has {wanted}\n{COUNT_ADVICE}\n"
    )?)
}

// The field of a column, as it is shown.
fn shown_at<F: Folder>(
    alloc: Global,
    folder: &F,
    site: &Site<'_>,
    record: &ByteRecord,
    column: &str,
) -> Result<String, Refusal> {
    let Some(header) = site.record(alloc, folder, 0)? else {
        return Ok(String::new(alloc));
    };
    let field = match field_of(&header, column) {
        Some(index) => record.get(index).unwrap_or(b""),
        None => b"",
    };
    Ok(shown_field(alloc, field)?)
}

fn field_sentence<F: Folder>(
    alloc: Global,
    folder: &F,
    site: &Site<'_>,
    row: u64,
    column: u64,
    fault: TableFault,
) -> Result<String, Refusal> {
    let line = site.line(alloc, folder, record_of(row))?;
    let path = site.path.as_str();
    let name = match site.column(column) {
        Some(column) => column.name.as_str(),
        None => "",
    };
    let shown = shown_in(alloc, folder, site, row, name)?;
    let shown = shown.as_str();
    let (words, advice) = (field_words(fault), field_advice(fault));
    Ok(format!(in alloc; "{path} line {line}, column {name}: {shown} {words}\n{advice}\n")?)
}

// The field of a column in a row, as it is shown.
fn shown_in<F: Folder>(
    alloc: Global,
    folder: &F,
    site: &Site<'_>,
    row: u64,
    column: &str,
) -> Result<String, Refusal> {
    let Some(record) = site.record(alloc, folder, record_of(row))? else {
        return Ok(String::new(alloc));
    };
    shown_at(alloc, folder, site, &record, column)
}

// The line of the first row that has the key of this one.
fn first_line<F: Folder>(
    alloc: Global,
    folder: &F,
    site: &Site<'_>,
    row: u64,
    column: &str,
    col_type: ColType,
) -> Result<u64, Refusal> {
    let Some(header) = site.record(alloc, folder, 0)? else {
        return Ok(1);
    };
    let field = field_of(&header, column).unwrap_or(0);
    let Some(record) = site.record(alloc, folder, record_of(row))? else {
        return Ok(1);
    };
    line_of_key(
        alloc,
        folder,
        site,
        field,
        col_type,
        record.get(field).unwrap_or(b""),
    )
}

// The line of the first row whose field has this value.
fn line_of_key<F: Folder>(
    alloc: Global,
    folder: &F,
    site: &Site<'_>,
    field: usize,
    col_type: ColType,
    key: &[u8],
) -> Result<u64, Refusal> {
    let file = open_file(folder, site.path)?;
    match first_with(alloc, file, field, col_type, key) {
        Ok(found) => site.line(alloc, folder, found.unwrap_or(0)),
        Err(fault) => Err(site.refusal(alloc, fault)),
    }
}

fn key_sentence<F: Folder>(
    alloc: Global,
    folder: &F,
    site: &Site<'_>,
    row: u64,
) -> Result<String, Refusal> {
    let path = site.path.as_str();
    let key = site.key.unwrap_or(0);
    let (name, col_type) = match site.table.columns.get(key) {
        Some(column) => (column.name.as_str(), column.col_type),
        None => ("", ColType::Text),
    };
    let line = site.line(alloc, folder, record_of(row))?;
    let first = first_line(alloc, folder, site, row, name, col_type)?;
    let shown = shown_in(alloc, folder, site, row, name)?;
    let shown = shown.as_str();
    Ok(format!(in alloc;
        "{path} line {line}, column {name}: {shown} is the key of line {first} too\n{KEY_ADVICE}\n"
    )?)
}

fn rows_sentence<F: Folder>(alloc: Global, folder: &F, site: &Site<'_>) -> Result<String, Refusal> {
    let line = site.line(alloc, folder, record_of(u64::from(MAX_ROWS)))?;
    let path = site.path.as_str();
    Ok(format!(in alloc; "{path} line {line}: the file has over 1,048,576 rows\n{ROWS_ADVICE}\n")?)
}

/// What is wrong with a table's file: its place, what is there, and what to do.
///
/// # Errors
///
/// Out of memory, or a file that can't be read.
pub fn sentence<F: Folder>(
    alloc: Global,
    folder: &F,
    site: &Site<'_>,
    fault: TableFault,
) -> Result<String, Refusal> {
    match fault {
        TableFault::Header => header_sentence(alloc, folder, site),
        TableFault::FieldCount { row } => count_sentence(alloc, folder, site, row),
        TableFault::NotAnInteger { row, column }
        | TableFault::NullNotAllowed { row, column }
        | TableFault::TextTooLong { row, column }
        | TableFault::NotUtf8 { row, column } => {
            field_sentence(alloc, folder, site, row, column, fault)
        }
        TableFault::KeyTwice { row } => key_sentence(alloc, folder, site, row),
        TableFault::TooManyRows | TableFault::TooFewRows => rows_sentence(alloc, folder, site),
    }
}
