//! Appending a record: it is written behind the closed gate, and then the gate is opened.
ghost use Rattle.std.specs.Prelude.{◌≡◌, ◌∷◌, [], ◌++◌, ◌+◌, ◌<◌, ◌^◌, length, take, drop, IfOk, OnOk};
ghost use Rattle.disk.specs.Disk.{Counts, HasRoom, IsHonest, IsSyncedFrom, LeavesOnly, Synced};
ghost use Rattle.journal.specs.Journal.{IsButGate, IsClosedAt, IsClosedBehind, IsWithOrWithout, record_bytes};

use disk::{Disk, DiskFault, write_and_sync};
use std::alloc::{AllocError, Global};
use wire::append_u32;

/// What stands behind the gate of a record, with a closed gate behind it.
#[tactic(auto, unfolding(crate::specs::Journal::record_bytes))]
pub fn entry_of(alloc: Global, spelling: &[u8]) -> Result<Vec<u8>, AllocError>
    requires { length spelling.now < 2 ^ 32 }
    ensures { IfOk result (λ entry. entry.items ≡ record_bytes spelling.now ++ 0 ∷ []) }
{
    let mut entry = Vec::with_capacity(alloc, spelling.len() + 5)?;
    append_u32(&mut entry, spelling.len() as u32)?;
    entry.extend_from_slice(spelling)?;
    entry.push(0)?;
    Ok(entry)
}

/// Writes a record behind the closed gate at an offset, and syncs.
fn write_record<D: Disk>(disk: &mut D, gate: usize, entry: &[u8]) -> Result<(), DiskFault>
    requires room { HasRoom (D.shown disk.old) }
    requires fits { gate + 1 + length entry.now < 2 ^ 64 }
    requires closed { IsHonest (D.shown disk.old) → IsClosedAt gate (D.shown disk.old).now }
    ensures honest { (D.shown disk.new).is_honest ≡ (D.shown disk.old).is_honest }
    ensures counts { Counts (D.shown disk.old) (D.shown disk.new) result }
    // The record stands behind the closed gate.
    ensures written { OnOk result (IsHonest (D.shown disk.old) → (D.shown disk.new).now
        ≡ record {
          reads = take gate (D.shown disk.old).now.reads
              ++ 0 ∷ (entry.now ++ drop (gate + 1 + length entry.now) (D.shown disk.old).now.reads);
          unsynced = Synced;
        }) }
    // At any moment the gate is closed for a crash.
    ensures any_moment { IsHonest (D.shown disk.old)
        → LeavesOnly (D.shown disk.old) (D.shown disk.new)
        (IsClosedBehind (take gate (D.shown disk.old).now.reads)) }
{
    write_and_sync(disk, gate + 1, entry)
}

/// Opens the gate at an offset, and syncs.
fn open_gate<D: Disk>(disk: &mut D, gate: usize) -> Result<(), DiskFault>
    requires room { HasRoom (D.shown disk.old) }
    requires fits { gate + 1 < 2 ^ 64 }
    requires synced { IsHonest (D.shown disk.old)
        → IsSyncedFrom (gate + 1) (D.shown disk.old).now }
    ensures honest { (D.shown disk.new).is_honest ≡ (D.shown disk.old).is_honest }
    ensures counts { Counts (D.shown disk.old) (D.shown disk.new) result }
    // The gate is open, and all else is as it was.
    ensures opened { OnOk result (IsHonest (D.shown disk.old) → (D.shown disk.new).now
        ≡ record {
          reads = take gate (D.shown disk.old).now.reads
              ++ 1 ∷ drop (gate + 1) (D.shown disk.old).now.reads;
          unsynced = Synced;
        }) }
    // At any moment a crash may leave any byte for the gate, and keeps all other bytes.
    ensures any_moment { IsHonest (D.shown disk.old)
        → LeavesOnly (D.shown disk.old) (D.shown disk.new)
        (IsButGate gate (D.shown disk.old).now.reads) }
{
    write_and_sync(disk, gate, &[1])
}

/// Appends a record behind the closed gate at an offset.
pub fn append_record<D: Disk>(disk: &mut D, gate: usize, entry: &[u8]) -> Result<(), DiskFault>
    requires room { HasRoom (D.shown disk.old) }
    requires fits { gate + 1 + length entry.now < 2 ^ 64 }
    requires closed { IsHonest (D.shown disk.old) → IsClosedAt gate (D.shown disk.old).now }
    ensures honest { (D.shown disk.new).is_honest ≡ (D.shown disk.old).is_honest }
    ensures counts { Counts (D.shown disk.old) (D.shown disk.new) result }
    // The record stands behind an open gate.
    ensures appended { OnOk result (IsHonest (D.shown disk.old) → (D.shown disk.new).now
        ≡ record {
          reads = take gate (D.shown disk.old).now.reads
              ++ 1 ∷ (entry.now ++ drop (gate + 1 + length entry.now) (D.shown disk.old).now.reads);
          unsynced = Synced;
        }) }
    // At any moment a crash leaves the front with the record or without it.
    ensures any_moment { IsHonest (D.shown disk.old)
        → LeavesOnly (D.shown disk.old) (D.shown disk.new)
        (IsWithOrWithout (take gate (D.shown disk.old).now.reads) entry.now) }
{
    write_record(disk, gate, entry)?;
    open_gate(disk, gate)
}
