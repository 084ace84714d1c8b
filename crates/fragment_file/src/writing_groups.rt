//! The row groups of a file: for each column a block of the kind of fewest bytes.
ghost use Rattle.std.specs.Prelude.{◌≡◌, ◌≤◌, ◌<◌, ◌-◌, ◌*◌, ◌^◌, ◌++◌, length, replicate, true, All, OnOk, IfOk, IfErr};
ghost use Rattle.meaning.specs.Limits.{max_rows, row_group_rows};
ghost use Rattle.blocks.specs.Kind.{kind_code};
ghost use Rattle.encodings.specs.Encoded.{block_of};
ghost use Rattle.fragment_file.specs.Fragment.{group_sizes};
ghost use Rattle.wire.specs.Bytes.{number_bytes};
ghost use Rattle.fragment_file.specs.Writing.{IsRowsOf, IsWriteFault, PutsBlock, PutsBlocks, PutsGroup, WritesGroup, WritesGroups};
ghost use Rattle.fragment_file.specs.declared.fault.FileFault.TheVariants.{Memory};

use crate::fault::FileFault;
use blocks::Kind;
use columns::Column;
use encodings::{Encoded, encode};
use meaning::ROW_GROUP_ROWS;
use sha2::Sha256;
use std::alloc::{AllocError, Global};
use std::io::Write;
use wire::{append_u8, append_u32, put};

/// A block of the kind of fewest bytes. Fewer than 2 ^ 32 bytes: no more than at most 8,192 texts
/// of 65,535 bytes each, one by one.
fn encoded(alloc: Global, column: &Column, from: usize, to: usize) -> Result<Encoded, FileFault>
    requires some { from < to }
    requires within { to ≤ length column.now.values }
    requires few { to - from ≤ row_group_rows }
    ensures ok { IfOk result
        (λ e. IsRowsOf column.now from (to - from)
        (block_of e.kind column.now from to e.payload.items)) }
    ensures err { IfErr result (λ f. f ≡ Memory) }
{
    // No effect at run time. The proof reads from this call that each value fits the column.
    let _rows = column.len();
    match encode(alloc, column, from, to) {
        Ok(encoded) => Ok(encoded),
        Err(_) => Err(FileFault::Memory),
    }
}

#[tactic(auto, unfolding(crate::specs::Fragment::block_bytes))]
fn append_payload(out: &mut Vec<u8>, kind: Kind, payload: &[u8]) -> Result<(), AllocError>
    requires { length payload.now < 2 ^ 32 }
    ensures { OnOk result (out.new.items
        ≡ out.old.items ++ (number_bytes 1 (kind_code kind) ++ number_bytes 4 (length payload.now)
        ++ payload.now)) }
{
    append_u8(out, kind.byte())?;
    append_u32(out, payload.len() as u32)?;
    out.extend_from_slice(payload)
}

#[tactic(auto, unfolding(crate::specs::Fragment::block_bytes))]
fn append_block(
    alloc: Global,
    out: &mut Vec<u8>,
    column: &Column,
    from: usize,
    to: usize,
) -> Result<(), FileFault>
    requires some { from < to }
    requires within { to ≤ length column.now.values }
    requires few { to - from ≤ row_group_rows }
    ensures ok { OnOk result (PutsBlock out.old.items out.new.items column.now from (to - from)) }
    ensures err { IfErr result (λ f. f ≡ Memory) }
{
    let block = encoded(alloc, column, from, to)?;
    append_payload(out, block.kind, block.payload.as_slice())?;
    Ok(())
}

fn append_blocks(
    alloc: Global,
    out: &mut Vec<u8>,
    columns: &[Column],
    from: usize,
    to: usize,
) -> Result<(), FileFault>
    requires some { from < to }
    requires within { All (λ c. to ≤ length c.values) columns.now }
    requires few { to - from ≤ row_group_rows }
    ensures ok { OnOk result (PutsBlocks out.old.items out.new.items columns.now from (to - from)) }
    ensures err { IfErr result (λ f. f ≡ Memory) }
{
    for column in columns {
        append_block(alloc, out, column, from, to)?;
    }
    Ok(())
}

fn append_group(
    alloc: Global,
    out: &mut Vec<u8>,
    columns: &[Column],
    from: usize,
    to: usize,
) -> Result<(), FileFault>
    requires some { from < to }
    requires within { All (λ c. to ≤ length c.values) columns.now }
    requires few { to - from ≤ row_group_rows }
    ensures ok { OnOk result (PutsGroup out.old.items out.new.items columns.now from (to - from)) }
    ensures err { IfErr result (λ f. f ≡ Memory) }
{
    append_u32(out, (to - from) as u32)?;
    append_blocks(alloc, out, columns, from, to)
}

/// Gathers a row group, and puts it.
fn put_group<W: Write>(
    alloc: Global,
    out: &mut W,
    hasher: &mut Sha256,
    columns: &[Column],
    from: usize,
    to: usize,
) -> Result<(), FileFault>
    requires some { from < to }
    requires within { All (λ c. to ≤ length c.values) columns.now }
    requires few { to - from ≤ row_group_rows }
    ensures ok { OnOk result
        (WritesGroup (W.contents out.old) (W.contents out.new) hasher.old hasher.new columns.now
        from (to - from)) }
    ensures err { IfErr result IsWriteFault }
{
    let mut bytes = Vec::new(alloc);
    append_group(alloc, &mut bytes, columns, from, to)?;
    put(out, hasher, bytes.as_slice())?;
    Ok(())
}

/// The row groups that are full.
fn put_full_groups<W: Write>(
    alloc: Global,
    out: &mut W,
    hasher: &mut Sha256,
    columns: &[Column],
    groups: usize,
) -> Result<(), FileFault>
    requires few { groups ≤ 128 }
    requires within { All (λ c. groups * row_group_rows ≤ length c.values) columns.now }
    ensures ok { OnOk result
        (WritesGroups (W.contents out.old) (W.contents out.new) hasher.old hasher.new
        columns.now (replicate groups row_group_rows)) }
    ensures err { IfErr result IsWriteFault }
{
    for group in 0..groups {
        let from = group * ROW_GROUP_ROWS;
        put_group(alloc, out, hasher, columns, from, from + ROW_GROUP_ROWS)?;
    }
    Ok(())
}

/// All row groups.
pub fn put_groups<W: Write>(
    alloc: Global,
    out: &mut W,
    hasher: &mut Sha256,
    columns: &[Column],
    rows: usize,
) -> Result<(), FileFault>
    requires few { rows ≤ max_rows }
    requires within { All (λ c. rows ≤ length c.values) columns.now }
    ensures ok { OnOk result
        (WritesGroups (W.contents out.old) (W.contents out.new) hasher.old hasher.new columns.now
        (group_sizes rows)) }
    ensures err { IfErr result IsWriteFault }
{
    let full = rows / ROW_GROUP_ROWS;
    put_full_groups(alloc, out, hasher, columns, full)?;
    if rows % ROW_GROUP_ROWS == 0 {
        return Ok(());
    }
    put_group(alloc, out, hasher, columns, full * ROW_GROUP_ROWS, rows)
}
