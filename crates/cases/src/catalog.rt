//! Cases about catalogues.
use crate::refusal_line::refusal_line;
use case_files::{bytes_of, escaped_bytes};
use catalog_reader::read_catalog;
use folders::Refusal;
use meaning::{Catalog, ColType, Column, Dimension, Table};
use std::alloc::{AllocError, Global};
use std::fmt::Write;
use std::mem::drop;

fn type_word(col_type: ColType) -> &'static str {
    match col_type {
        ColType::Int => "int",
        ColType::Text => "text",
    }
}

fn show_column(shown: &mut String, column: &Column) -> Result<(), AllocError> {
    let (name, word) = (column.name.as_str(), type_word(column.col_type));
    let null = if column.nullable { " null" } else { "" };
    writeln!(shown, "col {name} {word}{null}")
}

fn show_columns(shown: &mut String, table: &Table) -> Result<(), AllocError> {
    for column in table.columns.as_slice() {
        show_column(shown, column)?;
    }
    Ok(())
}

fn show_dimension(shown: &mut String, dimension: &Dimension) -> Result<(), AllocError> {
    let (table, key) = (&dimension.table, dimension.key);
    let key = match table.columns.as_slice().get(key) {
        Some(column) => column.name.as_str(),
        None => "",
    };
    writeln!(shown, "dim {} key {key}", table.name.as_str())?;
    show_columns(shown, table)
}

fn catalog_lines(alloc: Global, catalog: &Catalog) -> Result<String, AllocError> {
    let mut shown = String::new(alloc);
    writeln!(shown, "fact {}", catalog.fact.name.as_str())?;
    show_columns(&mut shown, &catalog.fact)?;
    for dimension in catalog.dims.as_slice() {
        show_dimension(&mut shown, dimension)?;
    }
    Ok(shown)
}

/// The lines of the catalogue that the bytes declare, or the line of their refusal.
fn show_bytes(alloc: Global, text: &[u8]) -> Result<String, AllocError> {
    match read_catalog(alloc, text) {
        Ok(catalog) => {
            let shown = catalog_lines(alloc, &catalog);
            drop(catalog);
            shown
        }
        Err(fault) => refusal_line(alloc, &Refusal::Catalog(fault)),
    }
}

// Of bytes in hexadecimal digits, as those of a file are.
fn show_coded(alloc: Global, body: &str) -> Result<String, AllocError> {
    match bytes_of(alloc, body)? {
        Some(bytes) => show_bytes(alloc, bytes.as_slice()),
        None => String::from_str(alloc, "no bytes\n"),
    }
}

/// The same of a record: its lines are the catalogue's, or escaped bytes or bytes where the word
/// behind the kind says so.
pub fn show(alloc: Global, words: &[&str], body: &str) -> Result<String, AllocError> {
    if words.first() == Some(&"escaped") {
        let text = escaped_bytes(alloc, body)?;
        show_bytes(alloc, text.as_slice())
    } else if words.first() == Some(&"bytes") {
        show_coded(alloc, body)
    } else {
        show_bytes(alloc, body.as_bytes())
    }
}
