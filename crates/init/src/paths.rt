//! The path of a folder's catalogue.
ghost use Rattle.std.specs.Prelude.{◌≡◌, IfOk};
ghost use Rattle.folders.specs.Folder.{catalog_path};

use meaning::Text;
use std::alloc::{AllocError, Global};

/// The path of a folder's catalogue.
pub fn catalog_path(alloc: Global, folder: &str) -> Result<Text, AllocError>
    ensures { IfOk result (λ path. path ≡ catalog_path folder.now) }
{
    let mut path = String::from_str(alloc, folder)?;
    if !folder.as_bytes().ends_with(b"/") {
        path.push_str("/")?;
    }
    path.push_str("catalog.txt")?;
    Ok(Text::from_string(path))
}
