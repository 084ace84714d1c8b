//! Blocks, and what the blocks of a column come to.
ghost use Rattle.std.specs.Prelude.{◌≡◌, ◌+◌, ◌==◌, ◌++◌, ◌∷◌, [], if◌then◌else◌, IfErr, List, OnOk, codes, length, map, slice_get, string_bytes};
ghost use Rattle.blocks.specs.Block.{Block, body_of};
ghost use Rattle.blocks.specs.Frame.{width_of};
ghost use Rattle.blocks.specs.Kind.{kind_code};
ghost use Rattle.answer_text.specs.Reading.{IsSamePart, Takes, capped};
ghost use Rattle.table_text.specs.BlockText.{IsRefusedBlock, block_at, block_line, bytes_text, column_blocks, counts_text, entries_text, if_any, kind_text, kinds_text, leading, name_text, null_count, nulls_text, payload_at, runs_text, short_capped, sizes_text, some_text, total_line, total_of, width_text};
ghost use Rattle.table_text.specs.Fields.{ShowsAs};

use answer_text::{Cursor, Stop, Wrong, put_share};
use blocks::{BlockView, Kind};
use fragment_file::block_of;
use meaning::Column;
use std::alloc::AllocError;
use wire::take_u32;

const PAYLOAD: &str = "a block's payload";

// ---- a block

/// The number of NULLs, with one that is NULL.
fn count_null(nulls: u64, is_null: bool) -> u64
    ensures { result ≡ if is_null then capped (nulls + 1) else nulls }
{
    if is_null {
        nulls.saturating_add(1)
    } else {
        nulls
    }
}

/// How many rows of a block are NULL.
fn count_nulls(block: &BlockView<'_>) -> u64
    ensures { result ≡ null_count block.now }
{
    let mut nulls = 0u64;
    for row in 0..block.len() {
        nulls = count_null(nulls, block.is_null(row));
    }
    nulls
}

/// The bytes of a block behind its mask.
fn body_of<'a>(block: &BlockView<'a>) -> &'a [u8]
    ensures { result.now ≡ body_of block.now }
{
    let mask = if block.nullable() {
        block.len().div_ceil(8)
    } else {
        0
    };
    block.payload().get(mask..).unwrap_or(&[])
}

/// The number with which the body of a dictionary or of runs begins.
fn leading_count(body: &[u8]) -> u32
    ensures { result ≡ leading body.now }
{
    match take_u32(body) {
        Ok((count, _)) => count,
        Err(_) => 0,
    }
}

/// The width of a frame's offsets, which stands behind its base.
fn width_in(body: &[u8]) -> u8
    ensures { result ≡ width_of body.now }
{
    body.get(8).copied().unwrap_or(0)
}

fn put_entries(out: &mut String, entries: u32) -> Result<(), AllocError>
    ensures { OnOk result (string_bytes out.new ≡ string_bytes out.old ++ entries_text entries) }
{
    write!(out, "dictionary of {entries} entries")
}

fn put_runs(out: &mut String, runs: u32) -> Result<(), AllocError>
    ensures { OnOk result (string_bytes out.new ≡ string_bytes out.old ++ runs_text runs) }
{
    write!(out, "{runs} runs")
}

fn put_width(out: &mut String, width: u8) -> Result<(), AllocError>
    ensures { OnOk result (string_bytes out.new ≡ string_bytes out.old ++ width_text width) }
{
    write!(out, "frame of {width} bits")
}

fn put_kind(out: &mut String, kind: Kind, body: &[u8]) -> Result<(), AllocError>
    ensures { OnOk result (string_bytes out.new ≡ string_bytes out.old ++ kind_text kind body.now) }
{
    match kind {
        Kind::Plain => out.push_str("plain"),
        Kind::Dict => put_entries(out, leading_count(body)),
        Kind::Runs => put_runs(out, leading_count(body)),
        Kind::Frame => put_width(out, width_in(body)),
    }
}

fn put_name(out: &mut String, name: &str) -> Result<(), AllocError>
    ensures { OnOk result (string_bytes out.new ≡ string_bytes out.old ++ name_text name.now) }
{
    write!(out, "  {name}: ")
}

fn put_sizes(out: &mut String, rows: usize, bytes: usize, nulls: u64) -> Result<(), AllocError>
    ensures { OnOk result (string_bytes out.new ≡ string_bytes out.old
        ++ sizes_text rows bytes nulls) }
{
    writeln!(out, ", {rows} rows, {bytes} bytes, {nulls} NULL")
}

/// Shows a block of the column of this name.
fn put_block(out: &mut String, name: &str, block: &BlockView<'_>) -> Result<(), AllocError>
    ensures { OnOk result (string_bytes out.new ≡ string_bytes out.old
        ++ block_line name.now block.now) }
{
    put_name(out, name)?;
    put_kind(out, block.kind(), body_of(block))?;
    put_sizes(out, block.len(), block.payload().len(), count_nulls(block))
}

/// The code of a block's kind, and its payload.
fn take_payload<'a>(cursor: &mut Cursor<'a>) -> Result<(u8, &'a [u8]), Stop>
    ensures read { Takes (λ p. (p.0, p.1.now)) result cursor.new.rest.now
        (payload_at cursor.old.rest.now) }
    ensures part { IsSamePart cursor.old cursor.new }
{
    let code = cursor.take_u8("a block's kind")?;
    let length = cursor.take_u32("a block's length")?;
    let payload = cursor.take_bytes(length as usize, PAYLOAD)?;
    Ok((code, payload))
}

/// The block of a column in a row group.
#[tactic(auto, unfolding(crate::specs::BlockText::block_at))]
pub fn take_block<'a>(
    cursor: &mut Cursor<'a>,
    group: u64,
    number: u64,
    column: &Column,
    rows: usize,
) -> Result<BlockView<'a>, Stop>
    ensures read { Takes (λ b. b) result cursor.new.rest.now
        (block_at column.now rows cursor.old.rest.now) }
    ensures part { IsSamePart cursor.old cursor.new }
    ensures refused { IfErr result (IsRefusedBlock group number cursor.old.rest.now) }
{
    let (code, payload) = take_payload(cursor)?;
    match block_of(code, column, rows, payload) {
        Some(block) => Ok(block),
        None => {
            let wrong = Wrong::NoBlock {
                group,
                column: number,
            };
            Err(cursor.refuse(wrong, PAYLOAD))
        }
    }
}

/// Shows the block of a column in a row group, and keeps it behind those of the columns before it.
pub fn show_block<'a>(
    cursor: &mut Cursor<'a>,
    group: u64,
    column: &Column,
    rows: usize,
    blocks: &mut Vec<BlockView<'a>>,
    out: &mut String,
) -> Result<(), Stop>
    ensures shown { ShowsAs (λ done b. blocks.new.items ≡ blocks.old.items ++ b ∷ [])
        (block_line column.now.name) result (string_bytes out.old) (string_bytes out.new)
        cursor.new.rest.now (block_at column.now rows cursor.old.rest.now) }
    ensures part { IsSamePart cursor.old cursor.new }
    ensures refused { IfErr result
        (IsRefusedBlock group (length blocks.old.items) cursor.old.rest.now) }
{
    let block = take_block(cursor, group, blocks.len() as u64, column, rows)?;
    put_block(out, column.name.as_str(), &block)?;
    blocks.push(block)?;
    Ok(())
}

// ---- what the blocks of a column come to

/// What the blocks of a column come to.
#[derive(Clone, Copy, Drop)]
pub struct Total {
    pub bytes: u64,
    pub nulls: u64,
    pub plain: u32,
    pub dict: u32,
    pub runs: u32,
    pub frame: u32,
}

/// The number of blocks of a kind, with one that is of this kind.
fn count_kind(count: u32, kind: Kind, of: Kind) -> u32
    ensures { result ≡ if kind_code of == kind_code kind then short_capped (count + 1) else count }
{
    if of.byte() == kind.byte() {
        count.saturating_add(1)
    } else {
        count
    }
}

impl Total {
    pub fn none() -> Total
        ensures { result ≡ total_of [] }
    {
        Total {
            bytes: 0,
            nulls: 0,
            plain: 0,
            dict: 0,
            runs: 0,
            frame: 0,
        }
    }

    /// With a block more.
    pub fn with_block(self, block: &BlockView<'_>) -> Total
        ensures { (blocks : List Block) → self ≡ total_of blocks
            → result ≡ total_of (blocks ++ block.now ∷ []) }
    {
        let of = block.kind();
        Total {
            bytes: self.bytes.saturating_add(block.payload().len() as u64),
            nulls: self.nulls.saturating_add(count_nulls(block)),
            plain: count_kind(self.plain, Kind::Plain, of),
            dict: count_kind(self.dict, Kind::Dict, of),
            runs: count_kind(self.runs, Kind::Runs, of),
            frame: count_kind(self.frame, Kind::Frame, of),
        }
    }
}

/// With the block of the column of this number, if there is one.
fn with_column(total: Total, group: &[BlockView<'_>], number: usize) -> Total
    ensures { (blocks : List Block) → total ≡ total_of blocks
        → result ≡ total_of (blocks ++ if_any (slice_get group.now number)) }
{
    match group.get(number) {
        Some(block) => total.with_block(block),
        None => total,
    }
}

/// What the blocks of the column of this number come to in all row groups.
pub fn total_in(groups: &[Vec<BlockView<'_>>], number: usize) -> Total
    ensures { result ≡ total_of (column_blocks number (map (λ g. g.items) groups.now)) }
{
    let mut total = Total::none();
    for group in groups {
        total = with_column(total, group.as_slice(), number);
    }
    total
}

fn put_some(out: &mut String, count: u32, word: &str) -> Result<(), AllocError>
    ensures { OnOk result (string_bytes out.new ≡ string_bytes out.old
        ++ some_text count word.now) }
{
    if count == 0 {
        return Ok(());
    }
    write!(out, ", {count} {word}")
}

/// Shows how many blocks of each kind there are.
fn put_kinds(out: &mut String, total: &Total) -> Result<(), AllocError>
    ensures { OnOk result (string_bytes out.new ≡ string_bytes out.old ++ kinds_text total.now) }
{
    put_some(out, total.plain, "plain")?;
    put_some(out, total.dict, "dictionary")?;
    put_some(out, total.runs, "runs")?;
    put_some(out, total.frame, "frame")
}

fn put_bytes(out: &mut String, bytes: u64) -> Result<(), AllocError>
    ensures { OnOk result (string_bytes out.new ≡ string_bytes out.old ++ bytes_text bytes) }
{
    write!(out, "{bytes} bytes")
}

fn put_nulls(out: &mut String, nulls: u64) -> Result<(), AllocError>
    ensures { OnOk result (string_bytes out.new ≡ string_bytes out.old ++ nulls_text nulls) }
{
    write!(out, ", {nulls} NULL")
}

fn put_end(out: &mut String) -> Result<(), AllocError>
    ensures { OnOk result (string_bytes out.new ≡ string_bytes out.old ++ codes "\n") }
{
    out.push_str("\n")
}

/// Shows the NULLs and the kinds of a column's blocks, at the end of a line.
fn put_counts(out: &mut String, total: &Total) -> Result<(), AllocError>
    ensures { OnOk result (string_bytes out.new ≡ string_bytes out.old ++ counts_text total.now) }
{
    put_nulls(out, total.nulls)?;
    put_kinds(out, total)?;
    put_end(out)
}

/// Shows what the blocks of the column of this name come to.
pub fn put_total(out: &mut String, name: &str, total: &Total, rows: u32) -> Result<(), AllocError>
    ensures { OnOk result (string_bytes out.new ≡ string_bytes out.old
        ++ total_line rows name.now total.now) }
{
    put_name(out, name)?;
    put_bytes(out, total.bytes)?;
    put_share(out, total.bytes, rows)?;
    put_counts(out, total)
}
