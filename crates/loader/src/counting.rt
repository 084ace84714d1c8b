//! How many rows a CSV file has.
ghost use Rattle.std.specs.Prelude.{◌≡◌, ◌++◌, ◌∷◌, [], ◌<◌, ◌≤◌, ◌^◌, ℕ, List, length, take, drop, Some, None, MatchOption, IfOk, IfErr};
ghost use Rattle.csv.specs.declared.parser.State.TheVariants as st;
ghost use Rattle.csv.specs.Reading.{strip_bom};
ghost use Rattle.loader.specs.Counting.{GoesOn, Reads, records_left};
ghost use Rattle.loader.specs.Fault.{IsOutside};
ghost use Rattle.loader.specs.declared.fault.LoadFault.TheVariants.{Device};
ghost use Rattle.loader.specs.Source.{csv_records};

use crate::counted::Counted;
use crate::fault::LoadFault;
use std::alloc::Global;
use std::io::Read;
use std::mem::drop;

/// How many bytes are read at a time.
const BLOCK: usize = 65_536;

/// The next bytes into a block, and how many there are; none only at the end.
pub fn read_block<R: Read>(reader: &mut R, block: &mut [u8]) -> Result<usize, LoadFault>
    requires { 0 < length block.old }
    ensures length { length block.new ≡ length block.old }
    ensures within { IfOk result (λ n. n ≤ length block.new) }
    ensures read { IfOk result (λ n. (bytes : List ℕ) → R.remaining reader.old ≡ Some bytes
        → Reads (R.remaining reader.new) bytes (take n block.new)) }
    ensures returned { IfErr result (λ f. f ≡ Device) }
{
    match reader.read(block) {
        Ok(count) => Ok(count),
        Err(_) => Err(LoadFault::Device),
    }
}

/// The next byte, if there is one.
pub fn next_byte<R: Read>(reader: &mut R) -> Result<Option<u8>, LoadFault>
    ensures read { IfOk result (λ found. (bytes : List ℕ) → R.remaining reader.old ≡ Some bytes
        → MatchOption found (Reads (R.remaining reader.new) bytes [])
        (λ byte. Reads (R.remaining reader.new) bytes (byte ∷ []))) }
    ensures returned { IfErr result (λ f. f ≡ Device) }
{
    let mut one = [0u8];
    if read_block(reader, &mut one)? == 0 {
        return Ok(None);
    }
    Ok(Some(one[0]))
}

/// Behind the first two bytes of a byte order mark.
fn count_third<R: Read>(reader: &mut R) -> Result<Counted, LoadFault>
    ensures counted { IfOk result (λ counted. (bytes : List ℕ) → R.remaining reader.old ≡ Some bytes
        → GoesOn R.remaining reader.new
        (records_left st.StartRecord (strip_bom (0xEF ∷ 0xBB ∷ bytes))) counted) }
    ensures returned { IfErr result (λ f. f ≡ Device) }
{
    let Some(third) = next_byte(reader)? else {
        return Ok(Counted::of_front(&[0xEF, 0xBB]));
    };
    if third == 0xBF {
        return Ok(Counted::of_front(&[]));
    }
    Ok(Counted::of_front(&[0xEF, 0xBB, third]))
}

/// Behind the first byte of a byte order mark.
fn count_second<R: Read>(reader: &mut R) -> Result<Counted, LoadFault>
    ensures counted { IfOk result (λ counted. (bytes : List ℕ) → R.remaining reader.old ≡ Some bytes
        → GoesOn R.remaining reader.new (records_left st.StartRecord (strip_bom (0xEF ∷ bytes)))
        counted) }
    ensures returned { IfErr result (λ f. f ≡ Device) }
{
    let Some(second) = next_byte(reader)? else {
        return Ok(Counted::of_front(&[0xEF]));
    };
    if second != 0xBB {
        return Ok(Counted::of_front(&[0xEF, second]));
    }
    count_third(reader)
}

/// The first bytes, as far as they may be a byte order mark, which is passed over.
fn count_front<R: Read>(reader: &mut R) -> Result<Counted, LoadFault>
    ensures counted { IfOk result (λ counted. (bytes : List ℕ) → R.remaining reader.old ≡ Some bytes
        → GoesOn R.remaining reader.new (records_left st.StartRecord (strip_bom bytes)) counted) }
    ensures returned { IfErr result (λ f. f ≡ Device) }
{
    let Some(first) = next_byte(reader)? else {
        return Ok(Counted::of_front(&[]));
    };
    if first != 0xEF {
        return Ok(Counted::of_front(&[first]));
    }
    count_second(reader)
}

/// The records that were counted and those that are still to come. Bytes are read into `block`, one
/// block over another.
fn count_from<R: Read>(reader: &mut R, block: &mut [u8], start: Counted) -> Result<u64, LoadFault>
    requires room { 0 < length block.old }
    requires few { length block.old < 2 ^ 32 }
    ensures counted { (all : ℕ) → GoesOn R.remaining reader.old all start
        → IfOk result (λ n. n ≡ all) }
    ensures refused { IfErr result IsOutside }
{
    let mut counted = start;
    for _ in 0..u64::MAX {
        let filled = read_block(reader, block)?;
        if filled == 0 {
            return counted.at_end();
        }
        counted = counted.with_block(&block[..filled])?;
    }
    Err(LoadFault::Memory)
}

/// How many records a reader gives.
fn count_records<R: Read>(reader: &mut R, block: &mut [u8]) -> Result<u64, LoadFault>
    requires room { 0 < length block.old }
    requires few { length block.old < 2 ^ 32 }
    ensures counted { (bytes : List ℕ) → R.remaining reader.old ≡ Some bytes
        → IfOk result (λ n. n ≡ length (csv_records bytes)) }
    ensures refused { IfErr result IsOutside }
{
    let counted = count_front(reader)?;
    count_from(reader, block, counted)
}

fn count_in_blocks<R: Read>(alloc: Global, reader: &mut R) -> Result<u64, LoadFault>
    ensures counted { (bytes : List ℕ) → R.remaining reader.old ≡ Some bytes
        → IfOk result (λ n. n ≡ length (csv_records bytes)) }
    ensures refused { IfErr result IsOutside }
{
    let mut block = vec![in alloc; 0u8; BLOCK]?;
    let records = count_records(reader, &mut block);
    drop(block);
    records
}

/// How many records stand behind the first.
///
/// # Errors
///
/// Out of memory, or the reader's own.
pub fn count_rows<R: Read + Drop>(alloc: Global, mut reader: R) -> Result<u64, LoadFault>
    ensures counted { (bytes : List ℕ) → R.remaining reader ≡ Some bytes
        → IfOk result (λ n. n ≡ length (drop 1 (csv_records bytes))) }
    ensures refused { IfErr result IsOutside }
{
    let records = count_in_blocks(alloc, &mut reader);
    drop(reader);
    Ok(records?.saturating_sub(1))
}
