//! The file of a fragment or of a dimension, written.
ghost use Rattle.std.specs.Prelude.{◌++◌, OnOk, IfErr};
ghost use Rattle.fragment_file.specs.Fragment.{IsHeader, fragment_magic, header_bytes};
ghost use Rattle.fragment_file.specs.Writing.{AreColumnsOf, IsWriteFault, WritesBest, WritesFile};
ghost use Rattle.wire.specs.Writing.{Puts};

use crate::fault::FileFault;
use crate::header::Header;
use crate::writing_groups::put_groups;
use crate::writing_header::append_header;
use columns::Column;
use sha2::{Digest, Sha256};
use std::alloc::Global;
use std::io::Write;
use wire::{put, put_seal};

/// The magic and the header.
fn put_header<W: Write>(
    alloc: Global,
    out: &mut W,
    hasher: &mut Sha256,
    header: &Header,
) -> Result<(), FileFault>
    requires { IsHeader header.now }
    ensures ok { OnOk result (Puts (W.contents out.old) (W.contents out.new) hasher.old hasher.new
        (fragment_magic ++ header_bytes header.now)) }
    ensures err { IfErr result IsWriteFault }
{
    let mut bytes = Vec::new(alloc);
    append_header(&mut bytes, header)?;
    put(out, hasher, bytes.as_slice())?;
    Ok(())
}

/// Writes the file of a fragment or a dimension: the header, row groups of 8,192 rows and one of
/// the rest, and the seal. Each block is of the kind of fewest bytes. The columns are those that
/// the header names, in their order. One row group at a time is in memory.
///
/// # Errors
///
/// Out of memory, or one of the device. How much was written is open.
pub fn write<W: Write>(
    alloc: Global,
    header: &Header,
    columns: &[Column],
    out: &mut W,
) -> Result<(), FileFault>
    requires header { IsHeader header.now }
    requires columns { AreColumnsOf header.now columns.now }
    ensures ok { OnOk result
        (WritesFile (W.contents out.old) (W.contents out.new) header.now columns.now) }
    ensures best { OnOk result (WritesBest (W.contents out.old) (W.contents out.new)) }
    ensures err { IfErr result IsWriteFault }
{
    let mut hasher = Sha256::new();
    put_header(alloc, out, &mut hasher, header)?;
    put_groups(alloc, out, &mut hasher, columns, header.rows as usize)?;
    put_seal(out, hasher)?;
    Ok(())
}
