//! All that is wrong with the name of a CSV file, and with those of its columns.
use crate::flaws::{flaw_of, other_name};
use crate::records::{record_in, written};
use csv::ByteRecord;
use csv_lines::shown_field;
use folders::{Folder, Refusal, csv_path};
use std::alloc::Global;
use std::io::Write;

fn report_table_name<E: Write>(alloc: Global, table: &str, err: &mut E) -> Result<(), Refusal> {
    let Some(flaw) = flaw_of(table.as_bytes()) else {
        return Ok(());
    };
    let words = flaw.words();
    let other = other_name(alloc, table.as_bytes(), "table")?;
    let other = other.as_str();
    written(writeln!(
        err,
        "{table}.csv: a table can't be named \"{table}\": {words}; rename the file, as {other}.csv"
    ))
}

// A field of a header that is no name, in lower case.
fn report_field<E: Write>(
    alloc: Global,
    table: &str,
    field: &[u8],
    err: &mut E,
) -> Result<(), Refusal> {
    let lower = field.to_ascii_lowercase(alloc)?;
    let Some(flaw) = flaw_of(lower.as_slice()) else {
        return Ok(());
    };
    let shown = shown_field(alloc, field)?;
    let other = other_name(alloc, lower.as_slice(), "column")?;
    let (shown, words, other) = (shown.as_str(), flaw.words(), other.as_str());
    written(writeln!(
        err,
        "{table}.csv: a column can't be named {shown}: {words}; edit the first line of the file, as {other}"
    ))
}

// Whether a field of a header names the column of one before it.
fn is_twice(header: &ByteRecord, index: usize) -> bool {
    let field = header.get(index).unwrap_or(b"");
    for before in 0..index {
        if header
            .get(before)
            .unwrap_or(b"")
            .eq_ignore_ascii_case(field)
        {
            return true;
        }
    }
    false
}

fn report_twice<E: Write>(
    alloc: Global,
    table: &str,
    field: &[u8],
    err: &mut E,
) -> Result<(), Refusal> {
    let shown = shown_field(alloc, field)?;
    let shown = shown.as_str();
    written(writeln!(
        err,
        "{table}.csv: two columns are named {shown}; edit the first line of the file"
    ))
}

fn report_fields<E: Write>(
    alloc: Global,
    table: &str,
    header: &ByteRecord,
    err: &mut E,
) -> Result<(), Refusal> {
    for index in 0..header.len() {
        let field = header.get(index).unwrap_or(b"");
        report_field(alloc, table, field, err)?;
        if is_twice(header, index) {
            report_twice(alloc, table, field, err)?;
        }
    }
    Ok(())
}

// What separates the fields of a header in place of commas.
fn separator_in(header: &ByteRecord) -> Option<(&'static str, &'static str)> {
    if header.len() != 1 {
        return None;
    }
    let field = header.get(0).unwrap_or(b"");
    if field.contains(&b';') {
        return Some(("semicolons", "--ifs ';'"));
    }
    if field.contains(&b'\t') {
        return Some(("tabs", "--ifs tab"));
    }
    None
}

fn report_header<E: Write>(
    alloc: Global,
    table: &str,
    header: &ByteRecord,
    err: &mut E,
) -> Result<(), Refusal> {
    match separator_in(header) {
        Some((separator, option)) => written(writeln!(
            err,
            "{table}.csv is separated by {separator}, and xcols reads commas: convert it, as by `mlr --csv {option} --ofs , cat`"
        )),
        None => report_fields(alloc, table, header, err),
    }
}

/// Says which rules the names of a CSV file and of its columns break, and which names would do.
///
/// # Errors
///
/// Out of memory, a file that can't be read, or a standard error that fails.
pub fn report_file<F: Folder, E: Write>(
    alloc: Global,
    folder: &F,
    directory: &str,
    table: &str,
    err: &mut E,
) -> Result<(), Refusal> {
    report_table_name(alloc, table, err)?;
    let path = csv_path(alloc, directory, table)?;
    match record_in(alloc, folder, &path, 0)? {
        Some(header) => report_header(alloc, table, &header, err),
        None => Ok(()),
    }
}
