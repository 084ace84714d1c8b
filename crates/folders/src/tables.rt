//! The tables that a folder's catalogue declares.
ghost use Rattle.std.specs.Prelude.{IfErr, IfOk};
ghost use Rattle.meaning.specs.Catalog.{IsWellFormed};
ghost use Rattle.folders.specs.Refused.{IsAskedFor};
ghost use Rattle.folders.specs.Tables.{IsCatalogRefused, IsCatalogThere};

use crate::files::read_catalog_file;
use crate::folder::Folder;
use crate::refusal::Refusal;
use catalog_reader::read_catalog;
use meaning::Catalog;
use std::alloc::Global;

/// The tables that the folder's catalogue declares.
///
/// # Errors
///
/// Out of memory, a file that can't be read, or the catalogue's first fault.
pub fn read_tables<F: Folder>(
    alloc: Global,
    folder: &F,
    directory: &str,
) -> Result<Catalog, Refusal>
    ensures there { IfOk result (IsCatalogThere (F.holds folder.now) directory.now) }
    ensures sound { IfOk result IsWellFormed }
    ensures refused { IfErr result (IsCatalogRefused (F.holds folder.now) directory.now) }
    ensures unread { IfErr result (IsAskedFor (F.asks folder.now)) }
{
    let bytes = read_catalog_file(alloc, folder, directory)?;
    Ok(read_catalog(alloc, bytes.as_slice())?)
}
