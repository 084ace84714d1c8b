//! The columns that may be the key of a dimension.
ghost use Rattle.std.specs.Prelude.{◌≡◌, ◌∷◌, ℕ, true, List, length, slice_get, Some, is_ok, IfErr, IfOk, OnOk};
ghost use Rattle.meaning.specs.Records.{dimension_of};
ghost use Rattle.loader.specs.Source.{csv_records};
ghost use Rattle.folders.specs.Folder.{csv_path};
ghost use Rattle.init.specs.Guessing.{AreRecordsRefused, IsKeyless, IsKeyRefused, IsOtherFault};
ghost use Rattle.init.specs.Keys.{ArePassed, is_nullable, is_passed, keys_of};
ghost use Rattle.init.specs.Refusing.{IsAskedFor, IsDimensionRefused};

use crate::checking::opened;
use crate::fault::{InitFault, PathFault, of_load, of_path};
use folders::{Folder, csv_path};
use loader::{LoadFault, load_dimension};
use meaning::{Dimension, Table, TableFault, Text};
use std::alloc::{AllocError, Global};
use std::mem::drop;

/// A dimension with its key, and the other columns that may be it.
#[derive(Drop)]
pub struct Keyed {
    pub dimension: Dimension,
    /// By their indexes.
    pub others: Vec<usize>,
}

/// Whether the dimension's file loads under the key that it has now.
fn has_key<F: Folder>(
    alloc: Global,
    folder: &F,
    path: &Text,
    dimension: &Dimension,
) -> Result<bool, InitFault>
    ensures found { IfOk result (λ found. (csv : List ℕ) → F.holds folder.now path.now ≡ Some csv
        → found ≡ is_ok (dimension_of dimension.now (csv_records csv))) }
    ensures passed { OnOk result ((csv : List ℕ) → F.holds folder.now path.now ≡ Some csv
        → is_passed (dimension_of dimension.now (csv_records csv)) ≡ true) }
    ensures refused { IfErr result
        (IsDimensionRefused (F.holds folder.now) path.now dimension.now) }
    ensures other { IfErr result IsOtherFault }
    ensures unread { IfErr result (IsAskedFor (F.asks folder.now)) }
{
    let file = opened(folder, path)?;
    match load_dimension(alloc, dimension, file) {
        Ok(_) => Ok(true),
        Err(LoadFault::Table(TableFault::KeyTwice { .. })) => Ok(false),
        Err(fault) => Err(of_load(alloc, path, fault)),
    }
}

fn takes_null(table: &Table, index: usize) -> bool
    ensures { result ≡ is_nullable (slice_get table.now.columns index) }
{
    match table.columns.get(index) {
        Some(column) => column.nullable,
        None => true,
    }
}

// The columns under which as a key the file loads.
fn keys_of<F: Folder>(
    alloc: Global,
    folder: &F,
    path: &Text,
    dimension: &mut Dimension,
) -> Result<Vec<usize>, InitFault>
    ensures table { OnOk result (dimension.new.table ≡ dimension.old.table) }
    ensures keys { IfOk result (λ keys. (csv : List ℕ) → F.holds folder.now path.now ≡ Some csv
        → keys.items ≡ keys_of dimension.old.table (csv_records csv)) }
    ensures passed { OnOk result ((csv : List ℕ) → F.holds folder.now path.now ≡ Some csv
        → ArePassed dimension.old.table (csv_records csv)
        (length dimension.old.table.columns)) }
    ensures refused { IfErr result
        (AreRecordsRefused (F.holds folder.now) path.now dimension.old.table) }
    ensures unread { IfErr result (IsAskedFor (F.asks folder.now)) }
{
    let mut keys = Vec::new(alloc);
    for index in 0..dimension.table.columns.len() {
        if takes_null(&dimension.table, index) {
            continue;
        }
        dimension.key = index;
        if has_key(alloc, folder, path, dimension)? {
            keys.push(index)?;
        }
    }
    Ok(keys)
}

// With the first of its keys, if there is one.
fn with_first(
    alloc: Global,
    path: &Text,
    dimension: Dimension,
    keys: Vec<usize>,
) -> Result<Keyed, InitFault>
    ensures table { IfOk result (λ keyed. keyed.dimension.table ≡ dimension.table) }
    ensures key { IfOk result
        (λ keyed. keyed.dimension.key ∷ keyed.others.items ≡ keys.items) }
    ensures refused { IfErr result (λ e. IsKeyless path.now keys.items e) }
{
    let mut dimension = dimension;
    let mut others = keys;
    if others.is_empty() {
        drop(dimension);
        drop(others);
        return Err(of_path(alloc, path.as_str(), PathFault::NoKey));
    }
    dimension.key = others.remove(0);
    Ok(Keyed { dimension, others })
}

fn with_key_of<F: Folder>(
    alloc: Global,
    folder: &F,
    path: &Text,
    dimension: Dimension,
) -> Result<Keyed, InitFault>
    ensures table { IfOk result (λ keyed. keyed.dimension.table ≡ dimension.table) }
    ensures key { IfOk result (λ keyed. (csv : List ℕ) → F.holds folder.now path.now ≡ Some csv
        → keyed.dimension.key ∷ keyed.others.items ≡ keys_of dimension.table (csv_records csv)) }
    ensures refused { IfErr result
        (IsKeyRefused (F.holds folder.now) path.now dimension.table) }
    ensures unread { IfErr result (IsAskedFor (F.asks folder.now)) }
{
    let mut dimension = dimension;
    match keys_of(alloc, folder, path, &mut dimension) {
        Ok(keys) => with_first(alloc, path, dimension, keys),
        Err(fault) => {
            drop(dimension);
            Err(fault)
        }
    }
}

/// The dimension that a table is, by the first of its columns whose values differ and are never
/// NULL.
///
/// # Errors
///
/// Out of memory, a file that can't be read, the first fault from record to record, or no such
/// column.
pub fn with_key<F: Folder>(
    alloc: Global,
    folder: &F,
    directory: &str,
    table: Table,
) -> Result<Keyed, InitFault>
    ensures table { IfOk result (λ keyed. keyed.dimension.table ≡ table) }
    ensures key { IfOk result (λ keyed. (csv : List ℕ)
        → F.holds folder.now (csv_path directory.now table.name) ≡ Some csv
        → keyed.dimension.key ∷ keyed.others.items ≡ keys_of table (csv_records csv)) }
    ensures refused { IfErr result
        (IsKeyRefused (F.holds folder.now) (csv_path directory.now table.name) table) }
    ensures unread { IfErr result (IsAskedFor (F.asks folder.now)) }
{
    match csv_path(alloc, directory, table.name.as_str()) {
        Ok(path) => with_key_of(alloc, folder, &path, Dimension { table, key: 0 }),
        Err(AllocError) => {
            drop(table);
            Err(InitFault::Memory)
        }
    }
}
