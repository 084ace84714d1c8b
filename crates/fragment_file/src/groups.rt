//! The row groups, read from front to back.
ghost use Rattle.std.specs.Prelude.{◌≡◌, ◌≤◌, ◌<◌, ◌-◌, ◌++◌, ℕ, List, map, nat_lt, if◌then◌else◌, IfOk};
ghost use Rattle.fragment_file.specs.View.{AreGroupsTaken, AreTaken, IsEnd, IsWithin, block_in};
ghost use Rattle.meaning.specs.Limits.{row_group_rows};
ghost use Rattle.fragment_file.specs.Fragment.{group_sizes};
ghost use Rattle.fragment_file.specs.FragmentReading.{block_at, block_of, blocks_at, group_at, groups_at, kind_of, sound};
ghost use Rattle.meaning.specs.Wanting.{GivesIfMemory};
ghost use Rattle.wire.specs.Reading.{Reads};

use crate::fault::FileFault;
use crate::view::BlockLocation;
use blocks::{BlockView, Kind};
use meaning::{Column, ROW_GROUP_ROWS, Sequence};
use std::alloc::Global;
use wire::{take_bytes, take_u8, take_u32};

/// The block of a column that a payload is, by the code of its kind, where it is one.
pub fn block_of<'a>(code: u8, of: &Column, rows: usize, payload: &'a [u8]) -> Option<BlockView<'a>>
    ensures { result ≡ block_of (kind_of code) of.now rows payload.now }
{
    let kind = Kind::from_byte(code)?;
    BlockView::new(kind, of.col_type, of.nullable, rows, payload)
}

/// The location of a block whose payload stands right before `rest`, the end of the bytes.
fn location_of(bytes: &[u8], block: &BlockView<'_>, rest: &[u8]) -> BlockLocation
    requires { IsEnd bytes.now (block.now.payload ++ rest.now) }
    ensures value { block_in bytes.now result ≡ block.now }
    ensures within { IsWithin bytes.now result }
{
    let end = bytes.len() - rest.len();
    BlockLocation {
        kind: block.kind(),
        col_type: block.col_type(),
        nullable: block.nullable(),
        rows: block.len(),
        start: end - block.payload().len(),
        end,
    }
}

/// The block that stands at the front of `rest`, and the bytes behind it.
#[tactic(auto, unfolding(crate::specs::FragmentReading::block_at))]
fn take_block<'a>(
    group: u64,
    column: u64,
    of: &Column,
    rows: usize,
    rest: &'a [u8],
) -> Result<(BlockView<'a>, &'a [u8]), FileFault>
    ensures read { Reads (λ x. (x.0, x.1.now)) result (block_at group column of.now rows rest.now) }
    ensures behind { (bytes : List ℕ) → IsEnd bytes rest.now
        → IfOk result (λ x. IsEnd bytes (x.0.payload ++ x.1.now)) }
{
    let (code, rest) = take_u8(rest)?;
    let (length, rest) = take_u32(rest)?;
    let (payload, rest) = take_bytes(rest, length as usize)?;
    let Some(block) = block_of(code, of, rows, payload) else {
        return Err(FileFault::Block { group, column });
    };
    Ok((block, rest))
}

/// The locations of the blocks of a row group, which stand at the front of `rest`, the end of the
/// bytes.
fn take_blocks<'a>(
    alloc: Global,
    group: u64,
    columns: &[Column],
    rows: usize,
    bytes: &[u8],
    rest: &'a [u8],
) -> Result<(Vec<BlockLocation>, &'a [u8]), FileFault>
    requires { IsEnd bytes.now rest.now }
    ensures read { GivesIfMemory FileFault.Memory
        (λ x. (map (block_in bytes.now) x.0.items, x.1.now)) result
        (blocks_at group 0 columns.now rows rest.now) }
    ensures taken { IfOk result (λ x. AreTaken bytes.now x.0.items x.1.now) }
{
    let mut locations = Vec::new(alloc);
    let mut rest = rest;
    for column in 0..columns.len() {
        let (block, behind) = take_block(group, column as u64, &columns[column], rows, rest)?;
        locations.push(location_of(bytes, &block, behind))?;
        rest = behind;
    }
    Ok((locations, rest))
}

#[tactic(auto, unfolding(crate::specs::FragmentReading::group_at))]
fn take_group<'a>(
    alloc: Global,
    group: u64,
    columns: &[Column],
    rows: u32,
    bytes: &[u8],
    rest: &'a [u8],
) -> Result<(Sequence<BlockLocation>, &'a [u8]), FileFault>
    requires { IsEnd bytes.now rest.now }
    ensures read { GivesIfMemory FileFault.Memory (λ x. (map (block_in bytes.now) x.0, x.1.now))
        result
        (group_at group columns.now rows rest.now) }
    ensures taken { IfOk result (λ x. AreTaken bytes.now x.0 x.1.now) }
{
    let (stated, rest) = take_u32(rest)?;
    if stated != rows {
        return Err(FileFault::Header);
    }
    let (locations, rest) = take_blocks(alloc, group, columns, rows as usize, bytes, rest)?;
    Ok((Sequence::from_vec(locations), rest))
}

/// How many of the rows that are left the next row group has.
pub fn next_rows(left: u32) -> u32
    ensures { result ≡ if nat_lt left row_group_rows then left else row_group_rows }
{
    let full = ROW_GROUP_ROWS as u32;
    if left < full { left } else { full }
}

/// The locations of the blocks of so many rows, row group by row group, and the bytes behind them. The
/// row groups stand at the front of `rest`, the end of the bytes.
pub fn take_groups<'a>(
    alloc: Global,
    columns: &[Column],
    rows: u32,
    bytes: &[u8],
    rest: &'a [u8],
) -> Result<(Sequence<Sequence<BlockLocation>>, &'a [u8]), FileFault>
    requires { IsEnd bytes.now rest.now }
    ensures read { GivesIfMemory FileFault.Memory
        (λ x. (map (map (block_in bytes.now)) x.0, x.1.now)) result
        (groups_at 0 columns.now (group_sizes rows) rest.now) }
    ensures taken { IfOk result (λ x. AreGroupsTaken bytes.now x.0 x.1.now) }
{
    let mut groups = Vec::new(alloc);
    let mut rest = rest;
    let mut left = rows;
    while left > 0 {
        let size = next_rows(left);
        let (group, behind) = take_group(alloc, groups.len() as u64, columns, size, bytes, rest)?;
        groups.push(group)?;
        rest = behind;
        left -= size;
    }
    Ok((Sequence::from_vec(groups), rest))
}
