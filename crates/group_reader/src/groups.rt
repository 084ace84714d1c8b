//! The row groups of a source. The payloads of one stand one behind the other in a buffer.
ghost use Rattle.std.specs.Prelude.{◌≡◌, ◌≤◌, ◌<◌, ◌^◌, ◌+◌, length, map, take, drop, IfOk};
ghost use Rattle.blocks.specs.Block.{Block};
ghost use Rattle.wire.specs.Reading.{Reads};
ghost use Rattle.fragment_file.specs.Fragment.{IsBlockOf};
ghost use Rattle.fragment_file.specs.FragmentReading.{block_at, block_of, blocks_at, group_at, kind_of, sound};
ghost use Rattle.fragment_file.specs.View.{IsWithin, block_in};
ghost use Rattle.group_reader.specs.Located.{AreLocated};
ghost use Rattle.group_reader.specs.Source.{Takes};

use crate::numbers::{next_u8, next_u32};
use crate::payload::next_payload;
use crate::source::Source;
use blocks::BlockView;
use fragment_file::{BlockLocation, FileFault, block_of};
use meaning::Column;
use std::alloc::Global;
use std::io::Read;

/// The location of a block whose payload is the end of the bytes.
#[tactic(auto, unfolding(fragment_file::specs::View::block_in))]
fn location_of(bytes: &[u8], start: usize, block: &BlockView<'_>) -> BlockLocation
    requires start { start ≤ length bytes.now }
    requires payload { block.now.payload ≡ drop start bytes.now }
    ensures value { block_in bytes.now result ≡ block.now }
    ensures within { IsWithin bytes.now result }
{
    BlockLocation {
        kind: block.kind(),
        col_type: block.col_type(),
        nullable: block.nullable(),
        rows: block.len(),
        start,
        end: bytes.len(),
    }
}

/// Where the block of a column stands whose payload is the end of the bytes.
fn judge(
    group: u64,
    column: u64,
    code: u8,
    of: &Column,
    rows: usize,
    bytes: &[u8],
    start: usize,
) -> Result<BlockLocation, FileFault>
    requires { start ≤ length bytes.now }
    ensures read { Reads (block_in bytes.now) result
        (sound group column (block_of (kind_of code) of.now rows (drop start bytes.now))) }
    ensures within { IfOk result (IsWithin bytes.now) }
{
    let (_, payload) = bytes.split_at(start);
    match block_of(code, of, rows, payload) {
        Some(block) => Ok(location_of(bytes, start, &block)),
        None => Err(FileFault::Block { group, column }),
    }
}

/// The next block, of a column. Its payload goes behind the bytes that are there, and is judged once
/// it is whole.
fn next_block<R: Read + Drop>(
    source: &mut Source<R>,
    group: u64,
    column: u64,
    of: &Column,
    rows: usize,
    bytes: &mut Vec<u8>,
) -> Result<BlockLocation, FileFault>
    ensures kept { take (length bytes.old.items) bytes.new.items ≡ bytes.old.items }
    ensures within { IfOk result (IsWithin bytes.new.items) }
    ensures block { IfOk result (λ p. IsBlockOf of.now rows (block_in bytes.new.items p)) }
    ensures read { Takes R.remaining source.old source.new (block_in bytes.new.items) result
        (block_at group column of.now rows) }
{
    let start = bytes.len();
    let code = next_u8(source)?;
    let length = next_u32(source)?;
    next_payload(source, length, bytes)?;
    judge(group, column, code, of, rows, bytes.as_slice(), start)
}

/// The next blocks, one of each column, into bytes of which none is kept.
fn next_blocks<R: Read + Drop>(
    alloc: Global,
    source: &mut Source<R>,
    group: u64,
    columns: &[Column],
    rows: usize,
    bytes: &mut Vec<u8>,
) -> Result<Vec<BlockLocation>, FileFault>
    ensures located { IfOk result (λ ps. AreLocated columns.now rows bytes.new.items ps.items) }
    ensures read { Takes R.remaining source.old source.new
        (λ ps. map (block_in bytes.new.items) ps.items) result
        (blocks_at group 0 columns.now rows) }
{
    let mut locations = Vec::new(alloc);
    bytes.clear();
    for column in 0..columns.len() {
        let location = next_block(source, group, column as u64, &columns[column], rows, bytes)?;
        locations.push(location)?;
    }
    Ok(locations)
}

/// The next row group, which has so many rows: where its blocks stand in the bytes.
pub fn next_locations<R: Read + Drop>(
    alloc: Global,
    source: &mut Source<R>,
    group: u64,
    columns: &[Column],
    rows: u32,
    bytes: &mut Vec<u8>,
) -> Result<Vec<BlockLocation>, FileFault>
    ensures located { IfOk result (λ ps. AreLocated columns.now rows bytes.new.items ps.items) }
    ensures read { Takes R.remaining source.old source.new
        (λ ps. map (block_in bytes.new.items) ps.items) result
        (group_at group columns.now rows) }
{
    let stated = next_u32(source)?;
    if stated != rows {
        return Err(FileFault::Header);
    }
    next_blocks(alloc, source, group, columns, rows as usize, bytes)
}
