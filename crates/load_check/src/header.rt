//! What a header lacks, and what it has too much.
use csv::ByteRecord;
use csv_lines::shown_field;
use meaning::{Column, Table};
use std::alloc::{AllocError, Global};

fn names(field: &[u8], column: &Column) -> bool {
    field.eq_ignore_ascii_case(column.name.as_bytes())
}

fn is_named(header: &ByteRecord, column: &Column) -> bool {
    for index in 0..header.len() {
        if let Some(field) = header.get(index) {
            if names(field, column) {
                return true;
            }
        }
    }
    false
}

// Whether a field names a column that a field before it names too.
fn is_twice(header: &ByteRecord, table: &Table, index: usize) -> bool {
    let Some(field) = header.get(index) else {
        return false;
    };
    for before in 0..index {
        if let Some(other) = header.get(before) {
            if other.eq_ignore_ascii_case(field) && is_column(table, field) {
                return true;
            }
        }
    }
    false
}

fn is_column(table: &Table, field: &[u8]) -> bool {
    table
        .columns
        .as_slice()
        .iter()
        .any(|column| names(field, column))
}

// A name behind those that are there, with a comma between.
fn add_name(list: &mut String, name: &str) -> Result<(), AllocError> {
    if !list.is_empty() {
        list.push_str(", ")?;
    }
    list.push_str(name)
}

// The columns that no field names.
fn lacking(alloc: Global, header: &ByteRecord, table: &Table) -> Result<String, AllocError> {
    let mut list = String::new(alloc);
    for column in table.columns.as_slice() {
        if !is_named(header, column) {
            add_name(&mut list, column.name.as_str())?;
        }
    }
    Ok(list)
}

// The fields that name no column.
fn unknown(alloc: Global, header: &ByteRecord, table: &Table) -> Result<String, AllocError> {
    let mut list = String::new(alloc);
    for index in 0..header.len() {
        if let Some(field) = header.get(index) {
            if !is_column(table, field) {
                let shown = shown_field(alloc, field)?;
                add_name(&mut list, shown.as_str())?;
            }
        }
    }
    Ok(list)
}

// The fields that name a column for the second time.
fn twice(alloc: Global, header: &ByteRecord, table: &Table) -> Result<String, AllocError> {
    let mut list = String::new(alloc);
    for index in 0..header.len() {
        if is_twice(header, table, index) {
            if let Some(field) = header.get(index) {
                let shown = shown_field(alloc, field)?;
                add_name(&mut list, shown.as_str())?;
            }
        }
    }
    Ok(list)
}

// Words and names, where there are names.
fn add_part(text: &mut String, words: &str, names: &str) -> Result<(), AllocError> {
    if names.is_empty() {
        return Ok(());
    }
    if !text.is_empty() {
        text.push_str("; ")?;
    }
    text.push_str(words)?;
    text.push_str(names)
}

/// What is wrong with a header, in words.
pub fn header_words(
    alloc: Global,
    header: &ByteRecord,
    table: &Table,
) -> Result<String, AllocError> {
    let mut text = String::new(alloc);
    let names = lacking(alloc, header, table)?;
    add_part(&mut text, "the header lacks ", names.as_str())?;
    let names = unknown(alloc, header, table)?;
    add_part(&mut text, "no column is named ", names.as_str())?;
    let names = twice(alloc, header, table)?;
    add_part(&mut text, "the header has twice ", names.as_str())?;
    Ok(text)
}
