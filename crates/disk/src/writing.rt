//! A write with the sync behind it.
ghost use Rattle.std.specs.Prelude.{◌≡◌, ◌+◌, ◌<◌, ◌^◌, length, OnOk};
ghost use Rattle.disk.specs.Disk.{AgreesOutside, Counts, HasRoom, IsHonest, IsSyncedFrom, LeavesOnly, Synced, overwritten};

use crate::disk::{Disk, DiskFault};

/// Writes bytes from an offset on of a disk that is synced, and syncs it.
pub fn write_and_sync<D: Disk>(disk: &mut D, from: usize, bytes: &[u8]) -> Result<(), DiskFault>
    requires room { HasRoom (D.shown disk.old) }
    requires fits { from + length bytes.now < 2 ^ 64 }
    requires synced { IsHonest (D.shown disk.old) → IsSyncedFrom from (D.shown disk.old).now }
    ensures honest { (D.shown disk.new).is_honest ≡ (D.shown disk.old).is_honest }
    ensures counts { Counts (D.shown disk.old) (D.shown disk.new) result }
    // The bytes stand there, and nothing is unsynced.
    ensures written { OnOk result (IsHonest (D.shown disk.old) → (D.shown disk.new).now
        ≡ record { reads = overwritten from bytes.now (D.shown disk.old).now.reads; unsynced = Synced }) }
    // A crash at any moment leaves all bytes that are not in the range as they were.
    ensures any_moment { IsHonest (D.shown disk.old)
        → LeavesOnly (D.shown disk.old) (D.shown disk.new)
        (AgreesOutside (record { from = from; count = length bytes.now })
        (D.shown disk.old).now.reads) }
{
    disk.write_at(from, bytes)?;
    disk.sync()
}
