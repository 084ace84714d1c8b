//! Files in memory, lent to a worker.
ghost use Rattle.std.specs.Prelude.{◌≡◌, map, IfOk};

use meaning::Sequence;
use std::alloc::{AllocError, Global};

/// The bytes of files, lent in their order.
pub fn lend_files<'a>(alloc: Global, files: &'a [Sequence<u8>]) -> Result<Vec<&'a [u8]>, AllocError>
    ensures { IfOk result (λ lent. map (λ file. file.now) lent.items ≡ files.now) }
{
    let mut lent = Vec::new(alloc);
    for file in files {
        lent.push(file.as_slice())?;
    }
    Ok(lent)
}
