//! Reads the dimensions of `load` from their CSV files.
ghost use Rattle.std.specs.Prelude.{◌≡◌, ◌<◌, IfErr, IfOk, OnOk, length};
ghost use Rattle.meaning.specs.Catalog.{IsWellFormed};
ghost use Rattle.folders.specs.Folder.{AreHeld, csv_path};
ghost use Rattle.folders.specs.Each.{AreEach};
ghost use Rattle.folders.specs.Refused.{IsAskedFor, IsUnread};
ghost use Rattle.loads.specs.Loading.{IsDimensionLoaded};
ghost use Rattle.loads.specs.Refusing.{AreDimensionsRefused, IsDimensionRefused};

use columns::Column;
use folders::{Folder, Refusal, csv_path, load_refusal, read_file};
use loader::load_dimension;
use meaning::{Catalog, Dimension, Sequence, Text};
use std::alloc::Global;

fn read_csv<F: Folder>(
    alloc: Global,
    folder: &F,
    directory: &str,
    table: &Text,
) -> Result<Vec<u8>, Refusal>
    ensures held { IfOk result
        (λ bytes. AreHeld (F.holds folder.now (csv_path directory.now table.now)) bytes.items) }
    ensures asked { OnOk result (F.asks folder.now (csv_path directory.now table.now)) }
    ensures refused { IfErr result (IsUnread (csv_path directory.now table.now)) }
    ensures unread { IfErr result (IsAskedFor (F.asks folder.now)) }
{
    let path = csv_path(alloc, directory, table.as_str())?;
    read_file(alloc, folder, &path)
}

fn load_dimension_table<F: Folder>(
    alloc: Global,
    folder: &F,
    directory: &str,
    dim: &Dimension,
) -> Result<Sequence<Column>, Refusal>
    requires { dim.now.key < length dim.now.table.columns }
    ensures loaded { IfOk result
        (λ columns. IsDimensionLoaded (F.holds folder.now) directory.now dim.now columns) }
    ensures refused { IfErr result (IsDimensionRefused (F.holds folder.now) directory.now dim.now) }
    ensures unread { IfErr result (IsAskedFor (F.asks folder.now)) }
{
    let name = &dim.table.name;
    let csv = read_csv(alloc, folder, directory, name)?;
    match load_dimension(alloc, dim, csv.as_slice()) {
        Ok(columns) => Ok(columns),
        Err(fault) => Err(load_refusal(alloc, directory, name.as_str(), fault)),
    }
}

/// The columns of a catalogue's dimensions, each from its CSV file, in the catalogue's order. One
/// file's bytes at a time are in memory.
///
/// # Errors
///
/// Out of memory, or the first dimension whose file cannot be read or that has a fault.
pub fn load_dimensions<F: Folder>(
    alloc: Global,
    folder: &F,
    directory: &str,
    catalog: &Catalog,
) -> Result<Vec<Sequence<Column>>, Refusal>
    requires { IsWellFormed catalog.now }
    ensures loaded { IfOk result
        (λ dims. AreEach (IsDimensionLoaded (F.holds folder.now) directory.now) catalog.now.dims
        dims.items) }
    ensures refused { IfErr result
        (AreDimensionsRefused (F.holds folder.now) directory.now catalog.now.dims) }
    ensures unread { IfErr result (IsAskedFor (F.asks folder.now)) }
{
    let mut dims = Vec::new(alloc);
    for dim in catalog.dims.as_slice() {
        dims.push(load_dimension_table(alloc, folder, directory, dim)?)?;
    }
    Ok(dims)
}
