//! Reading the records of a journal, one at a time. Nothing here changes what a crash may leave.
ghost use Rattle.std.specs.Prelude.{◌≡◌, ◌+◌, ◌*◌, ◌<◌, ◌≤◌, ◌^◌, ◌∷◌, ◌++◌, [], length, IfErr, IfOk, OnOk};
ghost use Rattle.std.specs.Option.{option_map};
ghost use Rattle.disk.specs.Disk.{HasRoom, IsHonest};
ghost use Rattle.meaning.specs.Gather.{joined};
ghost use Rattle.wire.specs.Bytes.{number_bytes};
ghost use Rattle.journal.specs.Fault.{RefusesReading, RefusesSpelling};
ghost use Rattle.journal.specs.Journal.{max_records};
ghost use Rattle.journal.specs.Reading.{CountsNothing, HasBytes, HasNoSpelling, HasRead, HasSpelling, HasTaken, IsNext, IsNoJournal, OnlyReads, TakesSpelling, from_offset};

use crate::clearing::MAGIC;
use crate::fault::JournalFault;
use byteorder::{ByteOrder, LittleEndian};
use disk::Disk;
use gathering::{Cells, GatherFault};
use std::alloc::Global;

/// The most records that are read.
const MAX_RECORDS: usize = 1 << 20;

/// Reads bytes of a disk from an offset on, as many as are asked for.
pub fn read_at<D: Disk>(disk: &mut D, at: usize, out: &mut [u8]) -> Result<(), JournalFault>
    requires room { HasRoom (D.shown disk.old) }
    requires within { IsHonest (D.shown disk.old)
        → at + length out.old ≤ length (D.shown disk.old).now.reads }
    ensures only { OnlyReads (D.shown disk.old) (D.shown disk.new) }
    ensures counts { OnOk result (CountsNothing (D.shown disk.old) (D.shown disk.new)) }
    ensures read { OnOk result (IsHonest (D.shown disk.old) → from_offset at (D.shown disk.old)
        ≡ out.new ++ from_offset (at + length out.old) (D.shown disk.old)) }
    ensures refused { IfErr result (RefusesReading (D.shown disk.old) (D.shown disk.new) ⊥) }
{
    Ok(disk.read(at, out)?)
}

/// The byte at an offset.
fn read_byte<D: Disk>(disk: &mut D, end: usize, at: usize) -> Result<u8, JournalFault>
    requires room { HasRoom (D.shown disk.old) }
    requires within { at ≤ end }
    requires end { IsHonest (D.shown disk.old) → end ≡ length (D.shown disk.old).now.reads }
    ensures only { OnlyReads (D.shown disk.old) (D.shown disk.new) }
    ensures counts { OnOk result (CountsNothing (D.shown disk.old) (D.shown disk.new)) }
    ensures within { OnOk result (at < end) }
    ensures read { IfOk result (λ byte. IsHonest (D.shown disk.old)
        → from_offset at (D.shown disk.old) ≡ byte ∷ from_offset (at + 1) (D.shown disk.old)) }
    ensures refused { IfErr result (RefusesReading (D.shown disk.old) (D.shown disk.new)
        (from_offset at (D.shown disk.old) ≡ [])) }
{
    if at == end {
        return Err(JournalFault::NotAJournal);
    }
    let mut byte = [0];
    read_at(disk, at, &mut byte)?;
    Ok(byte[0])
}

/// The number of 32 bits in four bytes.
fn number_in(bytes: &[u8; 4]) -> u32
    ensures { bytes.now ≡ number_bytes 4 result }
{
    LittleEndian::read_u32(bytes)
}

/// The number of 32 bits at an offset.
fn read_number<D: Disk>(disk: &mut D, end: usize, at: usize) -> Result<u32, JournalFault>
    requires room { HasRoom (D.shown disk.old) }
    requires within { at ≤ end }
    requires end { IsHonest (D.shown disk.old) → end ≡ length (D.shown disk.old).now.reads }
    ensures only { OnlyReads (D.shown disk.old) (D.shown disk.new) }
    ensures counts { OnOk result (CountsNothing (D.shown disk.old) (D.shown disk.new)) }
    ensures within { OnOk result (at + 4 ≤ end) }
    ensures small { IfOk result (λ n. n < 2 ^ 32) }
    ensures read { IfOk result (λ n. IsHonest (D.shown disk.old) → from_offset at (D.shown disk.old)
        ≡ number_bytes 4 n ++ from_offset (at + 4) (D.shown disk.old)) }
    ensures refused { IfErr result (RefusesReading (D.shown disk.old) (D.shown disk.new)
        (length (from_offset at (D.shown disk.old)) < 4)) }
{
    if end - at < 4 {
        return Err(JournalFault::NotAJournal);
    }
    let mut bytes = [0; 4];
    read_at(disk, at, &mut bytes)?;
    Ok(number_in(&bytes))
}

/// So many bytes from an offset on. No memory is taken for bytes that aren't there.
fn read_bytes<D: Disk>(
    alloc: Global,
    disk: &mut D,
    end: usize,
    at: usize,
    count: usize,
) -> Result<Vec<u8>, JournalFault>
    requires room { HasRoom (D.shown disk.old) }
    requires within { at ≤ end }
    requires end { IsHonest (D.shown disk.old) → end ≡ length (D.shown disk.old).now.reads }
    ensures only { OnlyReads (D.shown disk.old) (D.shown disk.new) }
    ensures counts { OnOk result (CountsNothing (D.shown disk.old) (D.shown disk.new)) }
    ensures read { IfOk result (λ bytes. HasBytes at count end (D.shown disk.old) bytes.items) }
    ensures refused { IfErr result (RefusesReading (D.shown disk.old) (D.shown disk.new)
        (length (from_offset at (D.shown disk.old)) < count)) }
{
    if end - at < count {
        return Err(JournalFault::NotAJournal);
    }
    let mut bytes = vec![in alloc; 0; count]?;
    read_at(disk, at, bytes.as_mut_slice())?;
    Ok(bytes)
}

/// The answer's bytes behind a gate, where their length stands.
fn read_spelling<D: Disk>(
    alloc: Global,
    disk: &mut D,
    end: usize,
    at: usize,
) -> Result<Vec<u8>, JournalFault>
    requires room { HasRoom (D.shown disk.old) }
    requires within { at ≤ end }
    requires end { IsHonest (D.shown disk.old) → end ≡ length (D.shown disk.old).now.reads }
    ensures only { OnlyReads (D.shown disk.old) (D.shown disk.new) }
    ensures counts { OnOk result (CountsNothing (D.shown disk.old) (D.shown disk.new)) }
    ensures read { IfOk result
        (λ spelling. HasSpelling at end (D.shown disk.old) spelling.items) }
    ensures refused { IfErr result (RefusesReading (D.shown disk.old) (D.shown disk.new)
        (HasNoSpelling (from_offset at (D.shown disk.old)))) }
{
    let count = read_number(disk, end, at)?;
    read_bytes(alloc, disk, end, at + 4, count as usize)
}

/// Takes the answer that a record's bytes spell.
fn absorb_spelling(alloc: Global, cells: &mut Cells, spelling: &[u8]) -> Result<(), JournalFault>
    ensures job { cells.new.job ≡ cells.old.job }
    ensures taken { OnOk result (TakesSpelling cells.old cells.new spelling.now) }
    ensures refused { IfErr result (RefusesSpelling cells.old.job spelling.now) }
{
    match cells.absorb(alloc, spelling) {
        Ok(()) => Ok(()),
        Err(GatherFault::Memory) => Err(JournalFault::Memory),
        Err(GatherFault::Decode(_)) => Err(JournalFault::NotAJournal),
        // These don't come where bytes are taken.
        Err(GatherFault::OtherJob) => Err(JournalFault::Memory),
        Err(GatherFault::Writer) => Err(JournalFault::Memory),
    }
}

/// Takes the answer of the record at an offset, and gives the offset behind it; nothing where the
/// gate there is closed.
fn absorb_next<D: Disk>(
    alloc: Global,
    disk: &mut D,
    end: usize,
    at: usize,
    cells: &mut Cells,
) -> Result<Option<usize>, JournalFault>
    requires room { HasRoom (D.shown disk.old) }
    requires within { at ≤ end }
    requires end { IsHonest (D.shown disk.old) → end ≡ length (D.shown disk.old).now.reads }
    ensures only { OnlyReads (D.shown disk.old) (D.shown disk.new) }
    ensures counts { OnOk result (CountsNothing (D.shown disk.old) (D.shown disk.new)) }
    ensures job { cells.new.job ≡ cells.old.job }
    ensures next { IfOk result (IsNext at end) }
    ensures taken { IfOk result (λ next. IsHonest (D.shown disk.old)
        → HasTaken cells.old cells.new (from_offset at (D.shown disk.old))
        (option_map (λ n. from_offset n (D.shown disk.old)) next)) }
    ensures refused { IfErr result (RefusesReading (D.shown disk.old) (D.shown disk.new)
        (IsNoJournal cells.old.job (from_offset at (D.shown disk.old)))) }
{
    // No effect at run time. The proof reads from this call that the job is within its limits.
    let _plan = cells.job().plan();
    let gate = read_byte(disk, end, at)?;
    if gate == 0 {
        return Ok(None);
    }
    let spelling = read_spelling(alloc, disk, end, at + 1)?;
    absorb_spelling(alloc, cells, spelling.as_slice())?;
    Ok(Some(at + 5 + spelling.len()))
}

/// Takes all answers of the records behind the magic up to the closed gate, and gives its offset.
pub fn absorb_records<D: Disk>(
    alloc: Global,
    disk: &mut D,
    end: usize,
    cells: &mut Cells,
) -> Result<usize, JournalFault>
    requires room { HasRoom (D.shown disk.old) }
    requires within { 4 ≤ end }
    requires end { IsHonest (D.shown disk.old) → end ≡ length (D.shown disk.old).now.reads }
    requires fresh { cells.old.cells ≡ joined cells.old.job.cut [] }
    ensures only { OnlyReads (D.shown disk.old) (D.shown disk.new) }
    ensures counts { OnOk result (CountsNothing (D.shown disk.old) (D.shown disk.new)) }
    ensures job { cells.new.job ≡ cells.old.job }
    ensures near { IfOk result (λ gate. gate ≤ 4 + max_records * 2 ^ 33) }
    ensures read { IfOk result (λ gate. IsHonest (D.shown disk.old)
        → HasRead cells.old cells.new (from_offset 4 (D.shown disk.old)) gate) }
    ensures refused { IfErr result (RefusesReading (D.shown disk.old) (D.shown disk.new)
        (IsNoJournal cells.old.job (from_offset 4 (D.shown disk.old)))) }
{
    // No effect at run time. The proof reads from this call that the job is within its limits.
    let _plan = cells.job().plan();
    let mut at = MAGIC.len();
    for _ in 0..MAX_RECORDS + 1 {
        match absorb_next(alloc, disk, end, at, cells)? {
            Some(next) => at = next,
            None => return Ok(at),
        }
    }
    Err(JournalFault::NotAJournal)
}
