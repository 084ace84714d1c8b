//! Which columns are texts, and why.
ghost use Rattle.std.specs.Prelude.{◌≡◌, IfErr, IfOk, OnOk};
ghost use Rattle.std.specs.Io.KnownBytes.{Appends};
ghost use Rattle.init.specs.Guessing.{IsUnreported};
ghost use Rattle.init.specs.Saying.{AddsNotes, looks_text, text_line, words_text};

use crate::checking::opened;
use crate::evidence::evidence_in;
use crate::fault::{InitFault, of_load};
use crate::listing::Listing;
use crate::looks::{Evidence, Look};
use catalog_reader::read_catalog;
use csv_lines::{line_of, record_at, shown_field};
use csv_names::advice_by_ending;
use folders::{Folder, csv_path};
use meaning::{Catalog, ColType, Table, Text};
use std::alloc::Global;
use std::io;
use std::io::Write;
use std::mem::drop;

// ---- lines

// What a field of this look says of its column.
fn words_of(look: Look) -> &'static str
    ensures { result.now ≡ words_text look }
{
    match look {
        Look::Padded => ", whose zeros an integer would lose",
        _ => "",
    }
}

fn print_text<E: Write>(
    column: &str,
    table: &str,
    line: u64,
    shown: &str,
    words: &str,
    err: &mut E,
) -> io::Result<()>
    ensures { OnOk result (Appends (E.contents err.old) (E.contents err.new)
        (text_line column.now table.now line shown.now words.now)) }
{
    writeln!(
        err,
        "{column} is text: {table}.csv line {line} has {shown}{words}"
    )
}

// What all fields of a column look like.
fn looks(evidence: Evidence) -> &'static str
    ensures { result.now ≡ looks_text evidence }
{
    if evidence.decimals {
        return " looks like decimals: there are only integers, so store cents, as 1990 for 19.90";
    }
    if evidence.dates {
        return " looks like dates: they are texts, which sort and compare rightly as YYYY-MM-DD";
    }
    ""
}

#[tactic(auto, using(crate::proofs::Saying::notes_none))]
fn print_looks<E: Write>(column: &str, looks: &str, err: &mut E) -> io::Result<()>
    ensures { OnOk result (AddsNotes (E.contents err.old) (E.contents err.new)) }
{
    if looks.is_empty() {
        return Ok(());
    }
    writeln!(err, "{column}{looks}")
}

// ---- where it is seen

/// The first field that makes a column a text.
#[derive(Drop)]
struct Witness {
    line: u64,
    shown: String,
}

// The line on which a record begins.
fn line_at<F: Folder>(
    alloc: Global,
    folder: &F,
    path: &Text,
    record: u64,
) -> Result<u64, InitFault> {
    let file = opened(folder, path)?;
    match line_of(alloc, file, record) {
        Ok(line) => Ok(line.unwrap_or(1)),
        Err(fault) => Err(of_load(alloc, path, fault)),
    }
}

// A field of a record, as it is shown.
fn shown_at<F: Folder>(
    alloc: Global,
    folder: &F,
    path: &Text,
    record: u64,
    index: usize,
) -> Result<String, InitFault> {
    let file = opened(folder, path)?;
    match record_at(alloc, file, record) {
        Ok(Some(row)) => Ok(shown_field(alloc, row.get(index).unwrap_or(b""))?),
        Ok(None) => Ok(String::new(alloc)),
        Err(fault) => Err(of_load(alloc, path, fault)),
    }
}

fn first_text<F: Folder>(
    alloc: Global,
    folder: &F,
    path: &Text,
    record: u64,
    index: usize,
) -> Result<Witness, InitFault> {
    let line = line_at(alloc, folder, path, record)?;
    let shown = shown_at(alloc, folder, path, record, index)?;
    Ok(Witness { line, shown })
}

// What was found, unless a file can't be read again; then its notes are left out.
fn if_read<T: Drop>(found: Result<T, InitFault>) -> Result<Option<T>, InitFault>
    ensures { IfErr result IsUnreported }
{
    match found {
        Ok(found) => Ok(Some(found)),
        Err(fault) => match fault {
            InitFault::Memory => Err(InitFault::Memory),
            fault => {
                drop(fault);
                Ok(None)
            }
        },
    }
}

// ---- columns

fn print_column<E: Write>(
    column: &str,
    table: &str,
    witness: &Witness,
    look: Look,
    evidence: Evidence,
    err: &mut E,
) -> io::Result<()>
    ensures { OnOk result (AddsNotes (E.contents err.old) (E.contents err.new)) }
{
    let (line, shown) = (witness.line, witness.shown.as_str());
    print_text(column, table, line, shown, words_of(look), err)?;
    print_looks(column, looks(evidence), err)
}

// Says why the column of this index is a text.
#[tactic(auto, using(crate::proofs::Saying::notes_none))]
fn report_column<F: Folder, E: Write>(
    alloc: Global,
    folder: &F,
    path: &Text,
    table: &Table,
    index: usize,
    evidence: Evidence,
    err: &mut E,
) -> Result<(), InitFault>
    ensures said { OnOk result (AddsNotes (E.contents err.old) (E.contents err.new)) }
    ensures refused { IfErr result IsUnreported }
{
    let (Some((record, look)), Some(column)) = (evidence.first, table.columns.get(index)) else {
        return Ok(());
    };
    let Some(witness) = if_read(first_text(alloc, folder, path, record, index))? else {
        return Ok(());
    };
    let (column, name) = (column.name.as_str(), table.name.as_str());
    let printed = print_column(column, name, &witness, look, evidence, err);
    drop(witness);
    match printed {
        Ok(()) => Ok(()),
        Err(_) => Err(InitFault::CannotReport),
    }
}

fn has_text(table: &Table) -> bool {
    table
        .columns
        .as_slice()
        .iter()
        .any(|column| column.col_type == ColType::Text)
}

#[tactic(auto, using(crate::proofs::Saying::notes_none))]
fn report_evidence<F: Folder, E: Write>(
    alloc: Global,
    folder: &F,
    path: &Text,
    table: &Table,
    evidence: &[Evidence],
    err: &mut E,
) -> Result<(), InitFault>
    ensures said { OnOk result (AddsNotes (E.contents err.old) (E.contents err.new)) }
    ensures refused { IfErr result IsUnreported }
{
    for index in 0..evidence.len() {
        report_column(alloc, folder, path, table, index, evidence[index], err)?;
    }
    Ok(())
}

#[tactic(auto, using(crate::proofs::Saying::notes_none))]
fn report_table<F: Folder, E: Write>(
    alloc: Global,
    folder: &F,
    directory: &str,
    table: &Table,
    err: &mut E,
) -> Result<(), InitFault>
    ensures said { OnOk result (AddsNotes (E.contents err.old) (E.contents err.new)) }
    ensures refused { IfErr result IsUnreported }
{
    if !has_text(table) {
        return Ok(());
    }
    let path = csv_path(alloc, directory, table.name.as_str())?;
    let found = evidence_in(alloc, folder, &path, table.columns.len());
    let Some(evidence) = if_read(found)? else {
        return Ok(());
    };
    let reported = report_evidence(alloc, folder, &path, table, evidence.as_slice(), err);
    drop(evidence);
    reported
}

#[tactic(auto, using(crate::proofs::Saying::notes_none))]
fn report_tables<F: Folder, E: Write>(
    alloc: Global,
    folder: &F,
    directory: &str,
    catalog: &Catalog,
    err: &mut E,
) -> Result<(), InitFault>
    ensures said { OnOk result (AddsNotes (E.contents err.old) (E.contents err.new)) }
    ensures refused { IfErr result IsUnreported }
{
    report_table(alloc, folder, directory, &catalog.fact, err)?;
    for dim in catalog.dims.as_slice() {
        report_table(alloc, folder, directory, &dim.table, err)?;
    }
    Ok(())
}

/// Says of each column that is a text which field of its file is the first that is no integer, and
/// whether all look like decimals or dates.
///
/// # Errors
///
/// Out of memory, or a standard error that fails.
#[tactic(auto, using(crate::proofs::Saying::notes_none))]
pub fn report_columns<F: Folder, E: Write>(
    alloc: Global,
    folder: &F,
    directory: &str,
    text: &Text,
    err: &mut E,
) -> Result<(), InitFault>
    ensures said { OnOk result (AddsNotes (E.contents err.old) (E.contents err.new)) }
    ensures refused { IfErr result IsUnreported }
{
    // The text was read before, so that only memory may be wanting.
    let Ok(catalog) = read_catalog(alloc, text.as_bytes()) else {
        return Err(InitFault::Memory);
    };
    let reported = report_tables(alloc, folder, directory, &catalog, err);
    drop(catalog);
    reported
}

// ---- other files

#[tactic(auto, using(crate::proofs::Saying::notes_none))]
fn print_other<E: Write>(name: &str, err: &mut E) -> io::Result<()>
    ensures { OnOk result (AddsNotes (E.contents err.old) (E.contents err.new)) }
{
    match advice_by_ending(name) {
        Some(advice) => writeln!(err, "{name} is passed over: {advice}"),
        None => Ok(()),
    }
}

#[tactic(auto, using(crate::proofs::Saying::notes_none))]
fn print_others<E: Write>(names: &[String], err: &mut E) -> io::Result<()>
    ensures { OnOk result (AddsNotes (E.contents err.old) (E.contents err.new)) }
{
    for name in names {
        print_other(name.as_str(), err)?;
    }
    Ok(())
}

/// Says which other files of the folder look like tables, and what to do about them.
///
/// # Errors
///
/// A standard error that fails.
#[tactic(auto, using(crate::proofs::Saying::notes_none))]
pub fn report_others<F: Listing, E: Write>(
    alloc: Global,
    folder: &F,
    directory: &str,
    err: &mut E,
) -> Result<(), InitFault>
    ensures said { OnOk result (AddsNotes (E.contents err.old) (E.contents err.new)) }
    ensures refused { IfErr result IsUnreported }
{
    let Ok(names) = folder.other_files(alloc, directory) else {
        return Ok(());
    };
    let printed = print_others(names.as_slice(), err);
    drop(names);
    match printed {
        Ok(()) => Ok(()),
        Err(_) => Err(InitFault::CannotReport),
    }
}
