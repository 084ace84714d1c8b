//! Opening a journal.
ghost use Rattle.std.specs.Prelude.{◌≡◌, ◌≢◌, ◌+◌, ◌*◌, ◌≤◌, ◌^◌, ◌++◌, [], true, false, ℕ, List, length, IfErr, IfOk, OnOk};
ghost use Rattle.disk.specs.Disk.{HasRoom, IsHonest, IsImage, LeavesOnly, Synced};
ghost use Rattle.meaning.specs.Gather.{joined};
ghost use Rattle.meaning.specs.SoundPlan.{IsSoundPlan};
ghost use Rattle.journal.specs.Durable.{IsJournalAt, last_gate};
ghost use Rattle.journal.specs.Fault.{IsNoFile, RefusesReading};
ghost use Rattle.journal.specs.Journal.{IsOpened, journal_magic, max_records};
ghost use Rattle.journal.specs.Reading.{CountsNothing, IsFileOf, OnlyReads, from_offset};

use crate::clearing::MAGIC;
use crate::fault::JournalFault;
use crate::reading::{absorb_records, read_at};
use disk::Disk;
use gathering::{Cells, Gather};
use partial_codec::Job;
use std::alloc::Global;
use std::mem::drop;
use wire::skip_magic;

/// Whether these are the bytes that a journal begins with.
fn is_magic(front: &[u8; 4]) -> bool
    ensures yes { result ≡ true → front.now ≡ journal_magic }
    ensures no { result ≡ false → front.now ≢ journal_magic }
{
    match skip_magic(MAGIC, front) {
        Ok(_) => true,
        Err(_) => false,
    }
}

/// Whether a file of so many bytes begins as a journal does.
fn has_magic<D: Disk>(disk: &mut D, end: usize) -> Result<bool, JournalFault>
    requires room { HasRoom (D.shown disk.old) }
    requires end { IsHonest (D.shown disk.old) → end ≡ length (D.shown disk.old).now.reads }
    ensures only { OnlyReads (D.shown disk.old) (D.shown disk.new) }
    ensures counts { OnOk result (CountsNothing (D.shown disk.old) (D.shown disk.new)) }
    ensures within { IfOk result (λ has. has ≡ true → 4 ≤ end) }
    ensures read { IfOk result (λ has. has ≡ true → IsHonest (D.shown disk.old)
        → (D.shown disk.old).now.reads ≡ journal_magic ++ from_offset 4 (D.shown disk.old)) }
    ensures none { IfOk result (λ has. has ≡ false → IsHonest (D.shown disk.old)
        → (rest : List ℕ) → (D.shown disk.old).now.reads ≡ journal_magic ++ rest → ⊥) }
    ensures refused { IfErr result (RefusesReading (D.shown disk.old) (D.shown disk.new) ⊥) }
{
    if end < MAGIC.len() {
        return Ok(false);
    }
    let mut front = [0; 4];
    read_at(disk, 0, &mut front)?;
    Ok(is_magic(&front))
}

/// Reads the journal of a disk, and gives the offset of its closed gate.
fn read_journal<D: Disk>(
    alloc: Global,
    disk: &mut D,
    cells: &mut Cells,
) -> Result<usize, JournalFault>
    requires room { HasRoom (D.shown disk.old) }
    requires fresh { cells.old.cells ≡ joined cells.old.job.cut [] }
    ensures only { OnlyReads (D.shown disk.old) (D.shown disk.new) }
    ensures counts { OnOk result (CountsNothing (D.shown disk.old) (D.shown disk.new)) }
    ensures job { cells.new.job ≡ cells.old.job }
    ensures near { IfOk result (λ gate. gate ≤ 4 + max_records * 2 ^ 33) }
    ensures read { IfOk result (λ gate. IsHonest (D.shown disk.old)
        → IsFileOf gate cells.new (D.shown disk.old).now.reads) }
    ensures refused { IfErr result (RefusesReading (D.shown disk.old) (D.shown disk.new)
        (IsNoFile cells.old.job (D.shown disk.old).now.reads)) }
{
    let end = disk.len()?;
    if !has_magic(disk, end)? {
        return Err(JournalFault::NotAJournal);
    }
    absorb_records(alloc, disk, end, cells)
}

/// Syncs a disk, and reads the journal on it.
fn read_synced<D: Disk>(
    alloc: Global,
    disk: &mut D,
    cells: &mut Cells,
) -> Result<usize, JournalFault>
    requires room { HasRoom (D.shown disk.old) }
    requires fresh { cells.old.cells ≡ joined cells.old.job.cut [] }
    ensures honest { (D.shown disk.new).is_honest ≡ (D.shown disk.old).is_honest }
    ensures counts { OnOk result (CountsNothing (D.shown disk.old) (D.shown disk.new)) }
    ensures job { cells.new.job ≡ cells.old.job }
    ensures near { IfOk result (λ gate. gate ≤ 4 + max_records * 2 ^ 33) }
    ensures journal { IfOk result (λ gate. IsHonest (D.shown disk.old)
        → IsJournalAt gate cells.new (D.shown disk.new).now) }
    ensures opened { IfOk result (λ _. IsHonest (D.shown disk.old)
        → IsOpened cells.new (D.shown disk.old).now.reads) }
    ensures reads { IsHonest (D.shown disk.old)
        → (D.shown disk.new).now.reads ≡ (D.shown disk.old).now.reads }
    // A crash at any moment leaves what it could leave before.
    ensures any_moment { IsHonest (D.shown disk.old)
        → LeavesOnly (D.shown disk.old) (D.shown disk.new) (IsImage (D.shown disk.old).now) }
    ensures refused { IfErr result (RefusesReading (D.shown disk.old) (D.shown disk.new)
        (IsNoFile cells.old.job (D.shown disk.old).now.reads)) }
{
    disk.sync()?;
    read_journal(alloc, disk, cells)
}

/// Syncs a disk, and reads the journal on it into cells that have taken nothing. Gives a coordinator
/// that holds these, with the offset of the closed gate.
fn fill_from<D: Disk>(
    alloc: Global,
    disk: &mut D,
    cells: Cells,
) -> Result<(Gather, usize), JournalFault>
    requires room { HasRoom (D.shown disk.old) }
    requires fresh { cells.cells ≡ joined cells.job.cut [] }
    ensures honest { (D.shown disk.new).is_honest ≡ (D.shown disk.old).is_honest }
    ensures room { OnOk result (HasRoom (D.shown disk.new)) }
    ensures job { IfOk result (λ r. r.0.job ≡ cells.job) }
    ensures near { IfOk result (λ r. r.1 ≤ last_gate r.0.cells) }
    ensures journal { IfOk result
        (λ r. IsHonest (D.shown disk.old) → IsJournalAt r.1 r.0 (D.shown disk.new).now) }
    ensures opened { IfOk result (λ r. IsHonest (D.shown disk.old)
        → IsOpened r.0 (D.shown disk.old).now.reads) }
    ensures reads { IsHonest (D.shown disk.old)
        → (D.shown disk.new).now.reads ≡ (D.shown disk.old).now.reads }
    ensures any_moment { IsHonest (D.shown disk.old)
        → LeavesOnly (D.shown disk.old) (D.shown disk.new) (IsImage (D.shown disk.old).now) }
    ensures refused { IfErr result (RefusesReading (D.shown disk.old) (D.shown disk.new)
        (IsNoFile cells.job (D.shown disk.old).now.reads)) }
{
    let mut cells = cells;
    match read_synced(alloc, disk, &mut cells) {
        Ok(gate) => match cells.into_gather(alloc) {
            Ok(gather) => Ok((gather, gate)),
            Err(_) => Err(JournalFault::Memory),
        },
        Err(fault) => {
            drop(cells);
            Err(fault)
        }
    }
}

/// Syncs a disk, and reads the journal on it. Gives a coordinator for the job with the offset of the
/// closed gate.
pub fn open_journal<D: Disk>(
    alloc: Global,
    disk: &mut D,
    job: Job,
) -> Result<(Gather, usize), JournalFault>
    requires room { HasRoom (D.shown disk.old) }
    requires sound { IsSoundPlan job.plan }
    ensures honest { (D.shown disk.new).is_honest ≡ (D.shown disk.old).is_honest }
    ensures room { OnOk result (HasRoom (D.shown disk.new)) }
    ensures job { IfOk result (λ r. r.0.job ≡ job) }
    ensures near { IfOk result (λ r. r.1 ≤ last_gate r.0.cells) }
    ensures journal { IfOk result
        (λ r. IsHonest (D.shown disk.old) → IsJournalAt r.1 r.0 (D.shown disk.new).now) }
    ensures opened { IfOk result (λ r. IsHonest (D.shown disk.old)
        → IsOpened r.0 (D.shown disk.old).now.reads) }
    ensures reads { IsHonest (D.shown disk.old)
        → (D.shown disk.new).now.reads ≡ (D.shown disk.old).now.reads }
    ensures any_moment { IsHonest (D.shown disk.old)
        → LeavesOnly (D.shown disk.old) (D.shown disk.new) (IsImage (D.shown disk.old).now) }
    ensures refused { IfErr result (RefusesReading (D.shown disk.old) (D.shown disk.new)
        (IsNoFile job (D.shown disk.old).now.reads)) }
{
    match Cells::new(alloc, job) {
        Ok(cells) => fill_from(alloc, disk, cells),
        Err(_) => Err(JournalFault::Memory),
    }
}
