//! Cases of loading: the columns of a table, or the refusal.
use crate::files::lengths_of;
use crate::values::show_values;
use case_files::{StoredFile, escaped_bytes, find};
use catalog_reader::read_catalog;
use columns::Column;
use loader::{LoadFault, count_rows, has_dim, load_dim, load_fact};
use meaning::{Catalog, Column as Declared, Cut, Sequence, TableFault};
use std::alloc::{AllocError, Global};
use std::fmt::Write;
use std::mem::drop;

fn show_refusal(shown: &mut String, fault: &LoadFault) -> Result<(), AllocError> {
    let number = fault.number();
    let LoadFault::Table(fault) = fault else {
        return writeln!(shown, "refused {number}");
    };
    match fault {
        TableFault::FieldCount { row } | TableFault::KeyTwice { row } => {
            writeln!(shown, "refused {number} {row}")
        }
        TableFault::NotAnInteger { row, column }
        | TableFault::NullNotAllowed { row, column }
        | TableFault::TextTooLong { row, column }
        | TableFault::NotUtf8 { row, column } => {
            writeln!(shown, "refused {number} {row} {column}")
        }
        TableFault::Header | TableFault::TooManyRows | TableFault::TooFewRows => {
            writeln!(shown, "refused {number}")
        }
    }
}

fn show_columns(
    shown: &mut String,
    declared: &[Declared],
    columns: &[Column],
) -> Result<(), AllocError> {
    for (of, column) in declared.iter().zip(columns) {
        show_values(shown, of.name.as_str(), column)?;
    }
    Ok(())
}

fn show_fragments(
    shown: &mut String,
    declared: &[Declared],
    fragments: &[Sequence<Column>],
) -> Result<(), AllocError> {
    for (k, fragment) in fragments.iter().enumerate() {
        writeln!(shown, "fragment {k}")?;
        show_columns(shown, declared, fragment.as_slice())?;
    }
    Ok(())
}

fn show_fact(
    alloc: Global,
    shown: &mut String,
    catalog: &Catalog,
    cut: &Cut,
    csv: &[u8],
) -> Result<(), AllocError> {
    match load_fact(alloc, catalog, csv, cut) {
        Ok(fragments) => {
            let declared = catalog.fact.columns.as_slice();
            let done = show_fragments(shown, declared, fragments.as_slice());
            drop(fragments);
            done
        }
        Err(fault) => show_refusal(shown, &fault),
    }
}

fn show_cut_fact(
    alloc: Global,
    shown: &mut String,
    catalog: &Catalog,
    lengths: Vec<u32>,
    csv: &[u8],
) -> Result<(), AllocError> {
    match Cut::new(lengths) {
        Ok(cut) => {
            let done = show_fact(alloc, shown, catalog, &cut, csv);
            drop(cut);
            done
        }
        Err(fault) => writeln!(shown, "no cut: {fault}"),
    }
}

fn declared_in<'a>(catalog: &'a Catalog, name: &str) -> &'a [Declared] {
    let dims = catalog.dims.as_slice();
    match dims.iter().find(|dim| dim.table.name.as_str() == name) {
        Some(dim) => dim.table.columns.as_slice(),
        None => &[],
    }
}

fn show_count(alloc: Global, shown: &mut String, csv: &[u8]) -> Result<(), AllocError> {
    match count_rows(alloc, csv) {
        Ok(rows) => writeln!(shown, "{rows} rows"),
        Err(fault) => show_refusal(shown, &fault),
    }
}

fn show_dim(
    alloc: Global,
    shown: &mut String,
    catalog: &Catalog,
    name: &str,
    csv: &[u8],
) -> Result<(), AllocError> {
    if !has_dim(catalog, name) {
        return writeln!(shown, "no dimension {name}");
    }
    match load_dim(alloc, catalog, name, csv) {
        Ok(columns) => {
            let done = show_columns(shown, declared_in(catalog, name), columns.as_slice());
            drop(columns);
            done
        }
        Err(fault) => show_refusal(shown, &fault),
    }
}

fn show_table(
    alloc: Global,
    shown: &mut String,
    catalog: &Catalog,
    words: &[&str],
    csv: &[u8],
) -> Result<(), AllocError> {
    match words {
        ["fact", lengths @ ..] => {
            show_cut_fact(alloc, shown, catalog, lengths_of(alloc, lengths)?, csv)
        }
        ["dim", name] => show_dim(alloc, shown, catalog, name, csv),
        _ => shown.push_str("(no table)\n"),
    }
}

fn show_loaded(
    alloc: Global,
    shown: &mut String,
    catalog: &[u8],
    words: &[&str],
    csv: &[u8],
) -> Result<(), AllocError> {
    match read_catalog(alloc, catalog) {
        Ok(catalog) => {
            let done = show_table(alloc, shown, &catalog, words, csv);
            drop(catalog);
            done
        }
        Err(fault) => writeln!(shown, "no catalogue: {fault}"),
    }
}

/// The columns of a table that the escaped lines are, or the refusal. The words are the catalogue's
/// path, and then `fact` and the cut's lengths, or `dim` and a name.
pub fn show_load(
    alloc: Global,
    shown: &mut String,
    words: &[&str],
    body: &str,
    files: &[StoredFile],
) -> Result<(), AllocError> {
    let Some((path, words)) = words.split_first() else {
        return shown.push_str("(no catalogue)\n");
    };
    let catalog = find(files, path).unwrap_or(&[]);
    let csv = escaped_bytes(alloc, body)?;
    let done = show_loaded(alloc, shown, catalog, words, csv.as_slice());
    drop(csv);
    done
}

/// How many rows the escaped lines have behind their header.
pub fn show_count_rows(alloc: Global, shown: &mut String, body: &str) -> Result<(), AllocError> {
    let csv = escaped_bytes(alloc, body)?;
    let done = show_count(alloc, shown, csv.as_slice());
    drop(csv);
    done
}
