//! Tables as files in memory, as a worker takes them.
ghost use Rattle.std.specs.Prelude.{◌≡◌, ◌≢◌, ◌<◌, ℕ, List, Some, length, map, slice_get, option_copied, All, Ok, IfOk, IfErr};
ghost use Rattle.std.specs.List.{AllZip};
ghost use Rattle.meaning.specs.Catalog.{IsWellFormed, IsWellFormedTable};
ghost use Rattle.meaning.specs.Order.{Row};
ghost use Rattle.meaning.specs.Results.{all_ok};
ghost use Rattle.columns.specs.Column.{ColumnSpec};
ghost use Rattle.loader.specs.Columns.{dimension_named};
ghost use Rattle.fragment_file.specs.Fragment.{Stands, table_header};
ghost use Rattle.job_files.specs.RowFiles.{AreFilesOfTables, IsFileOfRows};
ghost use Rattle.planner.specs.DeclaredPlans.{IsDeclaredJoin};
ghost use Rattle.coordinator.specs.Fragment.{AreAllRows, IsDimensionFile, IsFileable, IsJoinedFile, IsTableFile};
ghost use Rattle.coordinator.specs.Whole.{IsFileOf, files_in, dimension_table, joined_from, table_from};
ghost use Rattle.coordinator.specs.declared.fault.WholeFault.TheVariants as fault;

use crate::csvs::csv_of;
use crate::fault::WholeFault;
use columns::Column;
use fragment_file::{Header, Slice, write};
use loader::{dimension_named, load_dimension};
use meaning::{Catalog, Dimension, Join, Sequence, Table};
use std::alloc::{AllocError, Global};
use std::mem::drop;

/// The number of the load that is made here, and goes with the call.
pub const LOAD: u64 = 0;

/// Some rows of a table: its declaration, their columns, and which of its rows they are.
#[derive(Clone, Copy)]
pub struct Rows<'a> {
    pub table: &'a Table,
    pub columns: &'a [Column],
    pub slice: Slice,
}

/// The file of some rows, in memory.
pub fn file_of(alloc: Global, rows: Rows<'_>) -> Result<Vec<u8>, AllocError>
    requires { IsFileable rows }
    ensures { IfOk result (λ bytes. Stands bytes.items
        (table_header 0 rows.entry.table.now rows.entry.slice) rows.entry.columns.now) }
{
    let header = Header::of_table(alloc, LOAD, rows.table, rows.slice)?;
    let mut bytes = Vec::new(alloc);
    match write(alloc, &header, rows.columns, &mut bytes) {
        Ok(()) => Ok(bytes),
        // A writer to memory fails where memory is wanting.
        Err(_) => Err(AllocError),
    }
}

/// How many rows the first of the columns has.
fn count_rows(columns: &[Column]) -> usize
    ensures { (c : ColumnSpec) → slice_get columns.now 0 ≡ Some c → result ≡ length c.values }
{
    match columns.first() {
        Some(column) => column.len(),
        None => 0,
    }
}

/// The file of all rows of a table, in memory.
fn table_file(alloc: Global, table: &Table, columns: &[Column]) -> Result<Vec<u8>, AllocError>
    requires { (rows : List Row) × AreAllRows table.now rows columns.now }
    ensures rows { IfOk result (λ bytes. (rows : List Row) → AreAllRows table.now rows columns.now
        → IsFileOfRows rows bytes.items) }
    ensures file { IfOk result (λ bytes. (rows : List Row) → AreAllRows table.now rows columns.now
        → IsTableFile table.now rows bytes.items) }
{
    let slice = Slice {
        fragment: 0,
        first_row: 0,
        rows: count_rows(columns) as u32,
    };
    let rows = Rows {
        table,
        columns,
        slice,
    };
    file_of(alloc, rows)
}

/// The file of a dimension, from its CSV file.
fn dimension_file(
    alloc: Global,
    dimension: &Dimension,
    csv: &[u8],
) -> Result<Sequence<u8>, WholeFault>
    requires table { IsWellFormedTable dimension.now.table }
    requires key { dimension.now.key < length dimension.now.table.columns }
    ensures file { IfOk result (IsFileOf (dimension_table dimension.now csv.now)) }
    ensures of_dimension { IfOk result (IsDimensionFile dimension.now) }
    ensures refused { IfErr result (λ e. e ≢ fault.Memory
        → dimension_table dimension.now csv.now ≡ Err e) }
{
    let columns = load_dimension(alloc, dimension, csv)?;
    let file = table_file(alloc, &dimension.table, columns.as_slice());
    drop(columns);
    Ok(Sequence::from_vec(file?))
}

/// The file of a join's dimension, from its CSV file.
fn joined_file<'a>(
    alloc: Global,
    catalog: &Catalog,
    csvs: &[(&'a str, &'a [u8])],
    join: &Join,
) -> Result<Sequence<u8>, WholeFault>
    requires catalog { IsWellFormed catalog.now }
    requires join { IsDeclaredJoin catalog.now join.now }
    ensures file { IfOk result (IsFileOf (joined_from catalog.now (files_in csvs.now) join.now)) }
    ensures joined { IfOk result (IsJoinedFile catalog.now join.now) }
    ensures refused { IfErr result (λ e. e ≢ fault.Memory
        → joined_from catalog.now (files_in csvs.now) join.now ≡ Err e) }
{
    let csv = csv_of(csvs, &join.dim.name)?;
    match dimension_named(catalog, join.dim.name.as_str()) {
        Some(dimension) => dimension_file(alloc, dimension, csv),
        // A plan joins dimensions of its catalogue.
        None => unreachable!(),
    }
}

/// The files of the joins' dimensions, in the order of the joins.
pub fn joined_files<'a>(
    alloc: Global,
    catalog: &Catalog,
    csvs: &[(&'a str, &'a [u8])],
    joins: &[Join],
) -> Result<Vec<Sequence<u8>>, WholeFault>
    requires catalog { IsWellFormed catalog.now }
    requires joins { All (IsDeclaredJoin catalog.now) joins.now }
    ensures files { IfOk result (λ files. (dims : List (List Row))
        × (all_ok (map (joined_from catalog.now (files_in csvs.now)) joins.now) ≡ Ok dims)
        × AreFilesOfTables dims files.items) }
    ensures joined { IfOk result (λ files. AllZip (IsJoinedFile catalog.now) joins.now files.items) }
    ensures refused { IfErr result (λ e. e ≢ fault.Memory
        → all_ok (map (joined_from catalog.now (files_in csvs.now)) joins.now) ≡ Err e) }
{
    let mut files = Vec::new(alloc);
    for join in joins {
        files.push(joined_file(alloc, catalog, csvs, join)?)?;
    }
    Ok(files)
}
