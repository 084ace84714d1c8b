//! A table as its CSV file shows it.
ghost use Rattle.std.specs.Prelude.{◌≡◌, ◌∷◌, [], ℕ, List, length, option_map, slice_get, ◌++◌, Ok, Some, IfErr, IfOk, OnOk};
ghost use Rattle.csv.specs.Records.{fields_of};
ghost use Rattle.meaning.specs.Records.{Record};
ghost use Rattle.loader.specs.Source.{IsLeft, TakesNext, csv_records};
ghost use Rattle.init.specs.Findings.{with_field_if};
ghost use Rattle.init.specs.Guessing.{IsHeaderRefused};
ghost use Rattle.init.specs.Refusing.{IsUnread};
ghost use Rattle.init.specs.Shown.{IsLack, column_of, columns_of, found_in, names_from, names_of, shown};

use crate::fault::{InitFault, PathFault, of_load, of_path};
use crate::findings::Findings;
use crate::naming::column_name;
use csv::{ByteRecord, Reader};
use loader::{csv_reader, next_record};
use meaning::{Column, MAX_COLUMNS, Sequence, Table, Text};
use std::alloc::{AllocError, Global};
use std::io::Read;
use std::mem::drop;

// The next record into `row`, and whether there was one.
fn next_row<R: Read>(
    alloc: Global,
    file: &Text,
    reader: &mut Reader<R>,
    row: &mut ByteRecord,
) -> Result<bool, InitFault>
    ensures taken { IfOk result (λ found. (rest : List Record) → IsLeft R.remaining reader.old rest
        → TakesNext R.remaining reader.new rest found (fields_of row.new)) }
    ensures refused { IfErr result (IsUnread file.now) }
{
    match next_record(reader, row) {
        Ok(found) => Ok(found),
        Err(fault) => Err(of_load(alloc, file, fault)),
    }
}

// A field, by its index.
fn field_at(row: &ByteRecord, index: usize) -> Option<&[u8]>
    ensures { option_map (λ field. field.now) result ≡ slice_get (fields_of row.now) index }
{
    row.get(index)
}

fn names_in(alloc: Global, file: &str, header: &ByteRecord) -> Result<Vec<Text>, InitFault>
    ensures named { IfOk result (λ names. names_from [] (fields_of header.now) ≡ Ok names.items) }
    ensures refused { IfErr result (IsHeaderRefused file.now) }
    ensures lacking { IfErr result (IsLack (names_from [] (fields_of header.now))) }
{
    let mut names = Vec::new(alloc);
    for index in 0..header.len() {
        let Some(field) = field_at(header, index) else {
            break;
        };
        let name = column_name(alloc, file, names.as_slice(), index, field)?;
        names.push(name)?;
    }
    Ok(names)
}

// The names of the columns, as a header has them.
fn names_of(alloc: Global, file: &str, header: &ByteRecord) -> Result<Vec<Text>, InitFault>
    ensures named { IfOk result (λ names. names_of (fields_of header.now) ≡ Ok names.items) }
    ensures refused { IfErr result (IsHeaderRefused file.now) }
    ensures lacking { IfErr result (IsLack (names_of (fields_of header.now))) }
{
    if header.len() > MAX_COLUMNS {
        return Err(of_path(alloc, file, PathFault::TooManyColumns));
    }
    names_in(alloc, file, header)
}

// The names of the columns, as the first record has them.
fn read_names<R: Read>(
    alloc: Global,
    file: &Text,
    reader: &mut Reader<R>,
    row: &mut ByteRecord,
) -> Result<Vec<Text>, InitFault>
    ensures named { IfOk result (λ names. (rows : List Record) → IsLeft R.remaining reader.old rows
        → (header : Record) × (rest : List Record) × (rows ≡ header ∷ rest)
        × (names_of header ≡ Ok names.items) × IsLeft R.remaining reader.new rest) }
    ensures refused { IfErr result (IsHeaderRefused file.now) }
    ensures lacking { IfErr result (λ e. (rows : List Record) → IsLeft R.remaining reader.old rows
        → IsLack (shown rows) e) }
{
    if !next_row(alloc, file, reader, row)? {
        return Err(of_path(alloc, file.as_str(), PathFault::NoHeader));
    }
    names_of(alloc, file.as_str(), row)
}

// A field that a record lacks shows nothing; its load then refuses it.
fn with_field_at(found: Findings, row: &ByteRecord, index: usize) -> Findings
    ensures { result ≡ with_field_if found (slice_get (fields_of row.now) index) }
{
    match field_at(row, index) {
        Some(field) => found.with(field),
        None => found,
    }
}

fn take_fields(findings: &mut [Findings], row: &ByteRecord)
    ensures length { length findings.new ≡ length findings.old }
    ensures taken { (rows : List Record)
        → findings.old ≡ found_in (length findings.old) rows
        → findings.new ≡ found_in (length findings.old) (rows ++ fields_of row.now ∷ []) }
{
    for index in 0..findings.len() {
        findings[index] = with_field_at(findings[index], row, index);
    }
}

fn take_records<R: Read>(
    alloc: Global,
    file: &Text,
    reader: &mut Reader<R>,
    row: &mut ByteRecord,
    findings: &mut [Findings],
) -> Result<(), InitFault>
    ensures length { OnOk result (length findings.new ≡ length findings.old) }
    ensures taken { OnOk result ((rows : List Record) → IsLeft R.remaining reader.old rows
        → findings.old ≡ found_in (length findings.old) []
        → findings.new ≡ found_in (length findings.old) rows) }
    ensures refused { IfErr result (IsUnread file.now) }
{
    for _ in 0..u64::MAX {
        if !next_row(alloc, file, reader, row)? {
            return Ok(());
        }
        take_fields(findings, row);
    }
    Err(InitFault::Memory)
}

fn column_of(name: &Text, found: Findings) -> Result<Column, AllocError>
    ensures { IfOk result (λ column. column ≡ column_of name.now found) }
{
    Ok(Column {
        name: name.clone()?,
        col_type: found.col_type(),
        nullable: found.nulls,
    })
}

fn columns_of(
    alloc: Global,
    names: &[Text],
    findings: &[Findings],
) -> Result<Sequence<Column>, AllocError>
    requires { length findings.now ≡ length names.now }
    ensures { IfOk result (λ columns. columns ≡ columns_of names.now findings.now) }
{
    let mut columns = Sequence::new(alloc);
    for index in 0..names.len() {
        columns.push(column_of(&names[index], findings[index])?)?;
    }
    Ok(columns)
}

fn read_columns<R: Read>(
    alloc: Global,
    file: &Text,
    reader: &mut Reader<R>,
    row: &mut ByteRecord,
) -> Result<Sequence<Column>, InitFault>
    ensures shown { IfOk result (λ columns. (rows : List Record) → IsLeft R.remaining reader.old rows
        → shown rows ≡ Ok columns) }
    ensures refused { IfErr result (IsHeaderRefused file.now) }
    ensures lacking { IfErr result (λ e. (rows : List Record) → IsLeft R.remaining reader.old rows
        → IsLack (shown rows) e) }
{
    let names = read_names(alloc, file, reader, row)?;
    let mut findings = vec![in alloc; Findings::NONE; names.len()]?;
    take_records(alloc, file, reader, row, &mut findings)?;
    Ok(columns_of(alloc, names.as_slice(), findings.as_slice())?)
}

/// The table of a CSV file: its columns are of integers where each field that isn't NULL is one,
/// and take NULL where some field is empty or `\N`.
///
/// # Errors
///
/// Out of memory, a file that can't be read, and a header that no catalogue takes.
pub fn read_table<R: Read + Drop>(
    alloc: Global,
    file: &Text,
    name: Text,
    reader: R,
) -> Result<Table, InitFault>
    ensures named { IfOk result (λ table. table.name ≡ name) }
    ensures shown { IfOk result (λ table. (bytes : List ℕ) → R.remaining reader ≡ Some bytes
        → shown (csv_records bytes) ≡ Ok table.columns) }
    ensures refused { IfErr result (IsHeaderRefused file.now) }
    ensures lacking { IfErr result (λ e. (bytes : List ℕ) → R.remaining reader ≡ Some bytes
        → IsLack (shown (csv_records bytes)) e) }
{
    let mut reader = csv_reader(alloc, reader);
    let mut row = ByteRecord::new(alloc);
    let columns = read_columns(alloc, file, &mut reader, &mut row);
    drop(reader);
    drop(row);
    match columns {
        Ok(columns) => Ok(Table { name, columns }),
        Err(fault) => {
            drop(name);
            Err(fault)
        }
    }
}
