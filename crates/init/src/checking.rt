//! Whether a folder's files load under a catalogue.
ghost use Rattle.std.specs.Prelude.{◌≡◌, ◌≤◌, ℕ, List, All, IfErr, IfOk, IfSome, OnOk, Err, Result, Some, length, drop, map, sum};
ghost use Rattle.std.specs.Bool.{Decides};
ghost use Rattle.meaning.specs.declared.table.TableFault.{TableFault as Fault};
ghost use Rattle.meaning.specs.Records.{dimension_of};
ghost use Rattle.columns.specs.Column.{ColumnSpec};
ghost use Rattle.loader.specs.Columns.{dimension_columns, fact_fragments};
ghost use Rattle.loader.specs.Fault.{fault_returned};
ghost use Rattle.loader.specs.Handing.{IsToCome};
ghost use Rattle.loader.specs.Source.{csv_records};
ghost use Rattle.folders.specs.Folder.{HasHeld, csv_path};
ghost use Rattle.init.specs.Guessing.{IsNoCatalog};
ghost use Rattle.init.specs.Making.{AreColumns, Declares, IsCatalogFor, IsDimension, IsDimensionFit, IsFact, IsFactFit};
ghost use Rattle.init.specs.Refusing.{AreTablesRefused, IsAskedFor, IsCatalogRefused, IsDimensionRefused, IsFactRefused, IsFirstRefused, IsUncounted, IsUnread};

use crate::agreeing::has_tables;
use crate::fault::{InitFault, PathFault, of_load, of_path};
use crate::keys::Keyed;
use catalog_reader::read_catalog;
use folders::{Folder, csv_path, open_file};
use loader::{FactReader, LoadFault, count_rows, load_dimension, open_fact};
use meaning::{Catalog, Cut, Dimension, MAX_ROWS, Table, Text};
use std::alloc::Global;
use std::io::Read;
use std::mem::drop;

// ---- the fact

/// The most rows that a cut has.
const MOST_ROWS: u64 = 4_294_967_296;

// Loads the fragments that are to come, of which one at a time is in memory.
fn pass_fragments<R: Read>(alloc: Global, reader: &mut FactReader<'_, R>) -> Result<(), LoadFault>
    ensures passed { OnOk result ((meant : Result (List (List ColumnSpec)) Fault)
        → IsToCome R.remaining reader.old meant → AreColumns meant) }
    ensures refused { IfErr result (λ e. (meant : Result (List (List ColumnSpec)) Fault)
        → IsToCome R.remaining reader.old meant
        → IfSome (fault_returned e) (λ f. meant ≡ Err f)) }
{
    while let Some(fragment) = reader.next_fragment(alloc)? {
        drop(fragment);
    }
    Ok(())
}

fn pass_fact<R: Read + Drop>(
    alloc: Global,
    catalog: &Catalog,
    reader: R,
    cut: &Cut,
) -> Result<(), LoadFault>
    ensures passed { OnOk result ((bytes : List ℕ) → R.remaining reader ≡ Some bytes
        → AreColumns (fact_fragments catalog.now cut.now (csv_records bytes))) }
    ensures refused { IfErr result (λ e. (bytes : List ℕ) → R.remaining reader ≡ Some bytes
        → IfSome (fault_returned e)
        (λ f. fact_fragments catalog.now cut.now (csv_records bytes) ≡ Err f)) }
{
    let mut reader = open_fact(alloc, catalog, reader, cut)?;
    let passed = pass_fragments(alloc, &mut reader);
    drop(reader);
    passed
}

/// A reader of a file from its beginning.
pub fn opened<F: Folder>(folder: &F, path: &Text) -> Result<F::Reader, InitFault>
    ensures opened { IfOk result
        (λ file. HasHeld (F.holds folder.now path.now) (F.Reader.remaining file)) }
    ensures refused { IfErr result (IsUnread path.now) }
    ensures asked { F.asks folder.now path.now }
    ensures unread { IfErr result (IsAskedFor (F.asks folder.now)) }
{
    match open_file(folder, path) {
        Ok(file) => Ok(file),
        Err(refusal) => Err(InitFault::from(refusal)),
    }
}

// How many rows stand behind a file's header.
fn rows_of<F: Folder>(alloc: Global, folder: &F, path: &Text) -> Result<u64, InitFault>
    ensures counted { IfOk result (λ rows. (csv : List ℕ) → F.holds folder.now path.now ≡ Some csv
        → rows ≡ length (drop 1 (csv_records csv))) }
    ensures refused { IfErr result (IsUnread path.now) }
    ensures unread { IfErr result (IsAskedFor (F.asks folder.now)) }
{
    let file = opened(folder, path)?;
    match count_rows(alloc, file) {
        Ok(rows) => Ok(rows),
        Err(fault) => Err(of_load(alloc, path, fault)),
    }
}

// The cut of the rows behind a file's header.
fn cut_of<F: Folder>(alloc: Global, folder: &F, path: &Text) -> Result<Cut, InitFault>
    ensures whole { IfOk result (λ cut. (csv : List ℕ) → F.holds folder.now path.now ≡ Some csv
        → sum cut ≡ length (drop 1 (csv_records csv))) }
    ensures few { IfOk result (λ cut. sum cut ≤ 4294967296) }
    ensures refused { IfErr result (IsUncounted (F.holds folder.now) path.now) }
    ensures unread { IfErr result (IsAskedFor (F.asks folder.now)) }
{
    let rows = rows_of(alloc, folder, path)?;
    if rows > MOST_ROWS {
        return Err(of_path(alloc, path.as_str(), PathFault::TooManyRows));
    }
    // So many rows are cut, unless memory runs out.
    match Cut::even(alloc, rows, MAX_ROWS) {
        Ok(cut) => Ok(cut),
        Err(_) => Err(InitFault::Memory),
    }
}

fn check_fact_file<F: Folder>(
    alloc: Global,
    folder: &F,
    path: &Text,
    catalog: &Catalog,
) -> Result<(), InitFault>
    ensures fit { OnOk result ((csv : List ℕ) → F.holds folder.now path.now ≡ Some csv
        → IsFact catalog.now (csv_records csv)) }
    ensures refused { IfErr result (IsFactRefused (F.holds folder.now) path.now catalog.now) }
    ensures unread { IfErr result (IsAskedFor (F.asks folder.now)) }
{
    let cut = cut_of(alloc, folder, path)?;
    let file = opened(folder, path)?;
    match pass_fact(alloc, catalog, file, &cut) {
        Ok(()) => Ok(()),
        Err(fault) => Err(of_load(alloc, path, fault)),
    }
}

/// Loads the fact's file, however its rows are cut, and keeps nothing of it.
pub fn check_fact<F: Folder>(
    alloc: Global,
    folder: &F,
    directory: &str,
    catalog: &Catalog,
) -> Result<(), InitFault>
    ensures fit { OnOk result (IsFactFit (F.holds folder.now) directory.now catalog.now) }
    ensures refused { IfErr result
        (IsFactRefused (F.holds folder.now) (csv_path directory.now catalog.now.fact.name)
        catalog.now) }
    ensures unread { IfErr result (IsAskedFor (F.asks folder.now)) }
{
    let path = csv_path(alloc, directory, catalog.fact.name.as_str())?;
    check_fact_file(alloc, folder, &path, catalog)
}

// ---- dimensions

fn pass_dimension<R: Read + Drop>(
    alloc: Global,
    dimension: &Dimension,
    reader: R,
) -> Result<(), LoadFault>
    ensures passed { OnOk result ((bytes : List ℕ) → R.remaining reader ≡ Some bytes
        → AreColumns (dimension_columns dimension.now (csv_records bytes))) }
    ensures refused { IfErr result (λ e. (bytes : List ℕ) → R.remaining reader ≡ Some bytes
        → IfSome (fault_returned e)
        (λ f. dimension_of dimension.now (csv_records bytes) ≡ Err f)) }
{
    match load_dimension(alloc, dimension, reader) {
        Ok(_) => Ok(()),
        Err(fault) => Err(fault),
    }
}

fn check_dimension_file<F: Folder>(
    alloc: Global,
    folder: &F,
    path: &Text,
    dimension: &Dimension,
) -> Result<(), InitFault>
    ensures fit { OnOk result ((csv : List ℕ) → F.holds folder.now path.now ≡ Some csv
        → IsDimension dimension.now (csv_records csv)) }
    ensures refused { IfErr result
        (IsDimensionRefused (F.holds folder.now) path.now dimension.now) }
    ensures unread { IfErr result (IsAskedFor (F.asks folder.now)) }
{
    let file = opened(folder, path)?;
    match pass_dimension(alloc, dimension, file) {
        Ok(()) => Ok(()),
        Err(fault) => Err(of_load(alloc, path, fault)),
    }
}

/// Loads a dimension's file, and keeps nothing of it.
pub fn check_dimension<F: Folder>(
    alloc: Global,
    folder: &F,
    directory: &str,
    dimension: &Dimension,
) -> Result<(), InitFault>
    ensures fit { OnOk result (IsDimensionFit (F.holds folder.now) directory.now dimension.now) }
    ensures refused { IfErr result
        (IsDimensionRefused (F.holds folder.now) (csv_path directory.now dimension.now.table.name)
        dimension.now) }
    ensures unread { IfErr result (IsAskedFor (F.asks folder.now)) }
{
    let path = csv_path(alloc, directory, dimension.table.name.as_str())?;
    check_dimension_file(alloc, folder, &path, dimension)
}

fn check_dimensions<F: Folder>(
    alloc: Global,
    folder: &F,
    directory: &str,
    dimensions: &[Dimension],
) -> Result<(), InitFault>
    ensures fit { OnOk result
        (All (IsDimensionFit (F.holds folder.now) directory.now) dimensions.now) }
    ensures refused { IfErr result
        (IsFirstRefused (F.holds folder.now) directory.now dimensions.now) }
    ensures unread { IfErr result (IsAskedFor (F.asks folder.now)) }
{
    for dimension in dimensions {
        check_dimension(alloc, folder, directory, dimension)?;
    }
    Ok(())
}

// ---- all of them

fn check_tables<F: Folder>(
    alloc: Global,
    folder: &F,
    directory: &str,
    catalog: &Catalog,
) -> Result<(), InitFault>
    ensures fact { OnOk result (IsFactFit (F.holds folder.now) directory.now catalog.now) }
    ensures dims { OnOk result
        (All (IsDimensionFit (F.holds folder.now) directory.now) catalog.now.dims) }
    ensures refused { IfErr result
        (AreTablesRefused (F.holds folder.now) directory.now catalog.now) }
    ensures unread { IfErr result (IsAskedFor (F.asks folder.now)) }
{
    check_fact(alloc, folder, directory, catalog)?;
    check_dimensions(alloc, folder, directory, catalog.dims.as_slice())
}

// Whether a text declares a catalogue of these tables.
fn declares(alloc: Global, text: &[u8], fact: &Table, dims: &[Keyed]) -> Result<bool, InitFault>
    ensures exact { IfOk result (λ found. Decides found
        (Declares fact.now (map (λ keyed. keyed.dimension) dims.now) text.now)) }
    ensures refused { IfErr result (IsNoCatalog text.now) }
{
    let catalog = match read_catalog(alloc, text) {
        Ok(catalog) => catalog,
        Err(fault) => return Err(InitFault::from(fault)),
    };
    let found = has_tables(&catalog, fact, dims);
    drop(catalog);
    Ok(found)
}

/// Refuses a text that doesn't declare a catalogue of these tables.
pub fn check_declared(
    alloc: Global,
    text: &[u8],
    fact: &Table,
    dims: &[Keyed],
) -> Result<(), InitFault>
    ensures declared { OnOk result (Declares fact.now (map (λ keyed. keyed.dimension) dims.now) text.now) }
    ensures refused { IfErr result (IsNoCatalog text.now) }
{
    if declares(alloc, text, fact, dims)? {
        Ok(())
    } else {
        // No text is made with others.
        Err(InitFault::Memory)
    }
}

/// Loads a folder's files under the catalogue that a text declares, and keeps nothing of them. One
/// fragment of the fact, or one dimension, is in memory at a time.
///
/// # Errors
///
/// Out of memory, or the first thing that is wrong: a text that is no catalogue, then the fact's file
/// and then those of the dimensions, in the catalogue's order, each because it can't be read or by the
/// first fault of its records, the fact's also where it has over 4,294,967,296 rows.
pub fn check_catalog<F: Folder>(
    alloc: Global,
    folder: &F,
    directory: &str,
    text: &[u8],
) -> Result<(), InitFault>
    ensures fit { OnOk result (IsCatalogFor (F.holds folder.now) directory.now text.now) }
    ensures refused { IfErr result
        (IsCatalogRefused (F.holds folder.now) directory.now text.now) }
    ensures unread { IfErr result (IsAskedFor (F.asks folder.now)) }
{
    let catalog = match read_catalog(alloc, text) {
        Ok(catalog) => catalog,
        Err(fault) => return Err(InitFault::from(fault)),
    };
    let checked = check_tables(alloc, folder, directory, &catalog);
    drop(catalog);
    checked
}
