//! The CSV files of a catalogue's tables.
ghost use Rattle.std.specs.Prelude.{◌≡◌, ◌≤◌, ℕ, Ok, Some, IfErr, IfOk, IfSome, OnOk, All, length, drop, sum};
ghost use Rattle.std.specs.List.{list_any};
ghost use Rattle.std.specs.Str.{bytes_eq};
ghost use Rattle.meaning.specs.Cut.{cut_of, even_lengths};
ghost use Rattle.loader.specs.Source.{csv_records};
ghost use Rattle.coordinator.specs.Whole.{files_in};
ghost use Rattle.folders.specs.Folder.{AreHeld, csv_path};
ghost use Rattle.folders.specs.Refused.{IsAskedFor};
ghost use Rattle.folders.specs.declared.refusal.Refusal.TheVariants.{Memory};
ghost use Rattle.cli.specs.Refusing.{AreAsked, AreJoinedAsked, AreTablesUncut, IsFactUncut, IsFileUncut};
ghost use Rattle.cli.specs.Running.{AreTables, IsCsvOf, files_of, rows_behind};

use folders::{Folder, Refusal, csv_path, try_read};
use loads::{counted_rows, even_cut};
use meaning::{Cut, Join, Text};
use std::alloc::{AllocError, Global};

/// The bytes of a table's CSV file.
#[derive(Drop)]
pub struct CsvFile {
    pub table: Text,
    pub bytes: Vec<u8>,
}

/// The CSV files that can be read, and how the fact is cut.
#[derive(Drop)]
pub struct Tables {
    pub fact: Option<CsvFile>,
    pub dims: Vec<CsvFile>,
    pub cut: Cut,
}

fn try_read_csv<F: Folder>(
    alloc: Global,
    folder: &F,
    directory: &str,
    table: &Text,
) -> Result<Option<CsvFile>, Refusal>
    ensures held { IfOk result
        (λ found. IfSome found (λ file. IsCsvOf (F.holds folder.now) directory.now file
        × (file.table ≡ table.now))) }
    ensures asked { OnOk result (F.asks folder.now (csv_path directory.now table.now)) }
    ensures refused { IfErr result (λ e. e ≡ Memory) }
{
    let path = csv_path(alloc, directory, table.as_str())?;
    let Some(bytes) = try_read(alloc, folder, path.as_str())? else {
        return Ok(None);
    };
    let table = table.clone()?;
    Ok(Some(CsvFile { table, bytes }))
}

/// The even cut of the rows of the fact's file.
fn cut_file(alloc: Global, directory: &str, fact: &CsvFile, rows: u32) -> Result<Cut, Refusal>
    requires { 1 ≤ rows }
    ensures evenly { IfOk result (λ cut. cut_of (even_lengths (rows_behind (Some fact.now)) rows)
        ≡ Ok cut) }
    ensures refused { IfErr result
        (IsFileUncut (csv_path directory.now fact.now.table) fact.now.bytes.items rows) }
{
    let counted = counted_rows(alloc, directory, &fact.table, fact.bytes.as_slice())?;
    even_cut(alloc, counted, rows)
}

/// The even cut of a file's rows. Where there is no file, there are no rows.
fn cut_evenly(
    alloc: Global,
    directory: &str,
    fact: &Option<CsvFile>,
    rows: u32,
) -> Result<Cut, Refusal>
    requires { 1 ≤ rows }
    ensures evenly { IfOk result (λ cut. cut_of (even_lengths (rows_behind fact.now) rows)
        ≡ Ok cut) }
    ensures refused { IfErr result (IsFactUncut directory.now fact.now rows) }
{
    match fact {
        Some(file) => cut_file(alloc, directory, file, rows),
        None => even_cut(alloc, 0, rows),
    }
}

/// The fact's CSV file, if it can be read, and its even cut into fragments of `rows` rows. No
/// dimension is read.
pub fn read_fact<F: Folder>(
    alloc: Global,
    folder: &F,
    directory: &str,
    name: &Text,
    rows: u32,
) -> Result<Tables, Refusal>
    requires { 1 ≤ rows }
    ensures tables { IfOk result (AreTables (F.holds folder.now) directory.now name.now rows) }
    ensures refused { IfErr result (AreTablesUncut (F.holds folder.now) directory.now name.now
        rows) }
    ensures asked { OnOk result (F.asks folder.now (csv_path directory.now name.now)) }
    ensures unread { IfErr result (IsAskedFor (F.asks folder.now)) }
{
    let fact = try_read_csv(alloc, folder, directory, name)?;
    let cut = cut_evenly(alloc, directory, &fact, rows)?;
    let dims = Vec::new(alloc);
    Ok(Tables { fact, dims, cut })
}

/// Whether the table's file is among these.
fn is_read(files: &[CsvFile], table: &str) -> bool
    ensures { result ≡ list_any (λ file. bytes_eq file.table table.now) files.now }
{
    files.iter().any(|file| file.table.as_str() == table)
}

/// The file of a table beside those that were read, unless it is one of them or can't be read.
fn read_once<F: Folder>(
    alloc: Global,
    folder: &F,
    directory: &str,
    table: &Text,
    files: &mut Vec<CsvFile>,
) -> Result<(), Refusal>
    ensures held { OnOk result (All (IsCsvOf (F.holds folder.now) directory.now) files.old.items
        → All (IsCsvOf (F.holds folder.now) directory.now) files.new.items) }
    ensures refused { IfErr result (λ e. e ≡ Memory) }
    ensures asked { OnOk result (AreAsked (F.asks folder.now) directory.now files.old.items
        → AreAsked (F.asks folder.now) directory.now files.new.items) }
    ensures one { OnOk result (AreAsked (F.asks folder.now) directory.now files.old.items
        → F.asks folder.now (csv_path directory.now table.now)) }
{
    if is_read(files, table.as_str()) {
        return Ok(());
    }
    if let Some(file) = try_read_csv(alloc, folder, directory, table)? {
        files.push(file)?;
    }
    Ok(())
}

/// The CSV files of the dimensions that a plan joins, each once, as far as they can be read.
pub fn read_dims<F: Folder>(
    alloc: Global,
    folder: &F,
    directory: &str,
    joins: &[Join],
) -> Result<Vec<CsvFile>, Refusal>
    ensures held { IfOk result
        (λ files. All (IsCsvOf (F.holds folder.now) directory.now) files.items) }
    ensures refused { IfErr result (λ e. e ≡ Memory) }
    ensures asked { OnOk result (AreJoinedAsked (F.asks folder.now) directory.now joins.now) }
{
    let mut files = Vec::new(alloc);
    for join in joins {
        read_once(alloc, folder, directory, &join.dim.name, &mut files)?;
    }
    Ok(files)
}

/// The files' bytes by the names of their tables.
pub fn lend_files<'a>(
    alloc: Global,
    tables: &'a Tables,
) -> Result<Vec<(&'a str, &'a [u8])>, AllocError>
    ensures { IfOk result (λ csvs. files_in csvs.items ≡ files_of tables.now) }
{
    let mut csvs = Vec::new(alloc);
    if let Some(file) = &tables.fact {
        csvs.push((file.table.as_str(), file.bytes.as_slice()))?;
    }
    for file in tables.dims.as_slice() {
        csvs.push((file.table.as_str(), file.bytes.as_slice()))?;
    }
    Ok(csvs)
}
