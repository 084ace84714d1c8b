//! Making a journal anew.
ghost use Rattle.std.specs.Prelude.{◌≡◌, ◌∷◌, [], ◌++◌, OnOk};
ghost use Rattle.disk.specs.Disk.{Counts, HasRoom, IsHonest, Synced};
ghost use Rattle.journal.specs.Journal.{journal_magic};

use disk::{Disk, DiskFault};

/// What a journal begins with.
pub const MAGIC: &[u8; 4] = b"XGJ1";

/// A journal without a record: its magic, and a closed gate.
const EMPTY: &[u8] = b"XGJ1\0";

/// Puts an empty journal in the place of whatever the disk holds.
pub fn clear<D: Disk>(disk: &mut D) -> Result<(), DiskFault>
    requires { HasRoom (D.shown disk.old) }
    ensures honest { (D.shown disk.new).is_honest ≡ (D.shown disk.old).is_honest }
    ensures counts { Counts (D.shown disk.old) (D.shown disk.new) result }
    ensures cleared { OnOk result (IsHonest (D.shown disk.old) → (D.shown disk.new).now
        ≡ record { reads = journal_magic ++ 0 ∷ []; unsynced = Synced }) }
{
    disk.cut(0)?;
    disk.write_at(0, EMPTY)?;
    disk.sync()
}
