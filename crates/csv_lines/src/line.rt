//! The line on which a record begins.
ghost use Rattle.std.specs.Prelude.{◌≡◌, ◌<◌, ◌^◌, ◌+◌, ◌++◌, ℕ, List, length, Some, IfErr, IfOk, IfSome};
ghost use Rattle.std.specs.Int.{from_bool};
ghost use Rattle.csv.specs.Reading.{strip_bom};
ghost use Rattle.loader.specs.Counting as counting;
ghost use Rattle.loader.specs.Fault.{IsOutside};
ghost use Rattle.csv_lines.specs.Lines as lines;
ghost use Rattle.csv_lines.specs.Lines.{IsLineOf, begins, behind_byte, line_after, line_at, line_from, place_of, start};

use crate::front::front_of;
use loader::{LoadFault, RecordState, read_block};
use std::alloc::Global;
use std::io::Read;
use std::mem::drop;

/// How many bytes are read at a time.
const BLOCK: usize = 65_536;

/// What the bytes before a place come to.
#[derive(Clone, Copy)]
pub struct Walk {
    /// Where in a record the place is.
    pub state: RecordState,
    /// How many records ended.
    pub records: u64,
    /// How many lines ended.
    pub lines: u64,
    /// A carriage return comes right before it.
    pub after_return: bool,
}

/// How a walk through bytes ended.
#[derive(Clone, Copy)]
pub enum Walked {
    /// At the record, on this line.
    At(u64),
    /// Past the bytes, before the record.
    Past(Walk),
}

// Whether a line end begins with the byte.
fn ends_line(after_return: bool, byte: u8) -> bool
    ensures { result ≡ lines.ends_line after_return byte }
{
    byte == b'\r' || (byte == b'\n' && !after_return)
}

fn is_line_end(byte: u8) -> bool
    ensures { result ≡ counting.is_line_end byte }
{
    byte == b'\r' || byte == b'\n'
}

// With one more, if it ended. Counts of over 64 bits, which no file has, are refused as out of
// memory.
fn with_one(count: u64, ended: bool) -> Result<u64, LoadFault>
    ensures counted { IfOk result (λ n. n ≡ count + from_bool ended) }
    ensures refused { IfErr result IsOutside }
{
    match count.checked_add(u64::from(ended)) {
        Some(count) => Ok(count),
        None => Err(LoadFault::Memory),
    }
}

impl Walk {
    /// Before the first byte.
    const START: Walk = Walk {
        state: RecordState::Between,
        records: 0,
        lines: 0,
        after_return: false,
    };

    // Whether the record of this index begins with the byte.
    #[tactic(auto, unfolding(crate::specs::Lines::begins))]
    fn begins(self, index: u64, byte: u8) -> bool
        ensures { result ≡ begins index (place_of self) byte }
    {
        self.records == index && (!self.state.is_open() && !is_line_end(byte))
    }

    // Past a byte.
    #[tactic(auto, unfolding(crate::specs::Lines::behind_byte))]
    fn behind(self, byte: u8) -> Result<Walk, LoadFault>
        ensures past { IfOk result (λ past. place_of past ≡ behind_byte (place_of self) byte) }
        ensures refused { IfErr result IsOutside }
    {
        let records = with_one(self.records, self.state.ends_record(byte))?;
        let lines = with_one(self.lines, ends_line(self.after_return, byte))?;
        Ok(Walk {
            state: self.state.behind(byte),
            records,
            lines,
            after_return: byte == b'\r',
        })
    }
}

// Goes through a block as far as the record of this index.
fn through(walk: Walk, block: &[u8], index: u64) -> Result<Walked, LoadFault>
    ensures found { IfOk result (λ walked. (rest : List ℕ)
        → line_after index walked rest ≡ line_from index (place_of walk) (block.now ++ rest)) }
    ensures refused { IfErr result IsOutside }
{
    let mut here = walk;
    for byte in block {
        if here.begins(index, *byte) {
            return Ok(Walked::At(with_one(here.lines, true)?));
        }
        here = here.behind(*byte)?;
    }
    Ok(Walked::Past(here))
}

// Goes through the bytes that a reader has yet to give, one block over another.
fn line_past<R: Read>(
    reader: &mut R,
    block: &mut [u8],
    start: Walk,
    index: u64,
) -> Result<Option<u64>, LoadFault>
    requires room { 0 < length block.old }
    ensures found { IfOk result (λ found. (bytes : List ℕ) → R.remaining reader.old ≡ Some bytes
        → found ≡ line_from index (place_of start) bytes) }
    ensures refused { IfErr result IsOutside }
{
    let mut walk = start;
    for _ in 0..u64::MAX {
        let filled = read_block(reader, block)?;
        if filled == 0 {
            return Ok(None);
        }
        let walked = through(walk, &block[..filled], index)?;
        match walked {
            Walked::At(line) => return Ok(Some(line)),
            Walked::Past(past) => walk = past,
        }
    }
    Err(LoadFault::Memory)
}

// The same of all that is left.
fn line_in_blocks<R: Read>(
    alloc: Global,
    reader: &mut R,
    walk: Walk,
    index: u64,
) -> Result<Option<u64>, LoadFault>
    ensures found { IfOk result (λ found. (bytes : List ℕ) → R.remaining reader.old ≡ Some bytes
        → found ≡ line_from index (place_of walk) bytes) }
    ensures refused { IfErr result IsOutside }
{
    let mut block = vec![in alloc; 0u8; BLOCK]?;
    let line = line_past(reader, &mut block, walk, index);
    drop(block);
    line
}

// The same behind the first bytes.
fn line_behind<R: Read>(
    alloc: Global,
    reader: &mut R,
    front: &[u8],
    index: u64,
) -> Result<Option<u64>, LoadFault>
    ensures found { IfOk result (λ found. (rest : List ℕ) → R.remaining reader.old ≡ Some rest
        → found ≡ line_from index start (front.now ++ rest)) }
    ensures refused { IfErr result IsOutside }
{
    let walked = through(Walk::START, front, index)?;
    match walked {
        Walked::At(line) => Ok(Some(line)),
        Walked::Past(walk) => line_in_blocks(alloc, reader, walk, index),
    }
}

fn line_in<R: Read>(alloc: Global, reader: &mut R, index: u64) -> Result<Option<u64>, LoadFault>
    ensures found { IfOk result (λ found. (bytes : List ℕ) → R.remaining reader.old ≡ Some bytes
        → found ≡ line_at index (strip_bom bytes)) }
    ensures refused { IfErr result IsOutside }
{
    let front = front_of(alloc, reader)?;
    let line = line_behind(alloc, reader, front.as_slice(), index);
    drop(front);
    line
}

/// The line on which the record of this index begins, if there is such a record. Lines count from 1;
/// a line ends with a line feed, a carriage return, or both, within quotes too.
///
/// # Errors
///
/// Out of memory, or the reader's own.
pub fn line_of<R: Read + Drop>(
    alloc: Global,
    mut reader: R,
    index: u64,
) -> Result<Option<u64>, LoadFault>
    ensures found { IfOk result (λ found. (bytes : List ℕ) → R.remaining reader ≡ Some bytes
        → found ≡ line_at index (strip_bom bytes)) }
    ensures place { IfOk result (λ found. (bytes : List ℕ) → R.remaining reader ≡ Some bytes
        → IfSome found (IsLineOf (strip_bom bytes) index)) }
    ensures refused { IfErr result IsOutside }
{
    let line = line_in(alloc, &mut reader, index);
    drop(reader);
    line
}
