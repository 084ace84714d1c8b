//! The paths of a folder's files.
ghost use Rattle.std.specs.Prelude.{◌≡◌, IfOk};
ghost use Rattle.folders.specs.Folder.{path_in, csv_path, catalog_path, fragment_path, dimension_path, cut_path};

use meaning::Text;
use std::alloc::{AllocError, Global};

fn path_in(alloc: Global, folder: &str, name: &str) -> Result<Text, AllocError>
    ensures { IfOk result (λ path. path ≡ path_in folder.now name.now) }
{
    let mut path = String::from_str(alloc, folder)?;
    if !folder.as_bytes().ends_with(b"/") {
        path.push_str("/")?;
    }
    path.push_str(name)?;
    Ok(Text::from_string(path))
}

/// The path of a folder's catalogue.
pub fn catalog_path(alloc: Global, folder: &str) -> Result<Text, AllocError>
    ensures { IfOk result (λ path. path ≡ catalog_path folder.now) }
{
    path_in(alloc, folder, "catalog.txt")
}

/// The path of a table's CSV file in a folder.
pub fn csv_path(alloc: Global, folder: &str, table: &str) -> Result<Text, AllocError>
    ensures { IfOk result (λ path. path ≡ csv_path folder.now table.now) }
{
    let mut name = String::from_str(alloc, table)?;
    name.push_str(".csv")?;
    path_in(alloc, folder, name.as_str())
}

/// The path of the file of a table's fragment in a folder.
pub fn fragment_path(
    alloc: Global,
    folder: &str,
    table: &str,
    fragment: u32,
) -> Result<Text, AllocError>
    ensures { IfOk result (λ path. path ≡ fragment_path folder.now table.now fragment) }
{
    let name = format!(in alloc; "{table}.{fragment}.xcf")?;
    path_in(alloc, folder, name.as_str())
}

/// The path of a dimension's file in a folder.
pub fn dimension_path(alloc: Global, folder: &str, table: &str) -> Result<Text, AllocError>
    ensures { IfOk result (λ path. path ≡ dimension_path folder.now table.now) }
{
    let name = format!(in alloc; "{table}.xcf")?;
    path_in(alloc, folder, name.as_str())
}

/// The path of the file of a folder's cut.
pub fn cut_path(alloc: Global, folder: &str) -> Result<Text, AllocError>
    ensures { IfOk result (λ path. path ≡ cut_path folder.now) }
{
    path_in(alloc, folder, "cut.xcl")
}
