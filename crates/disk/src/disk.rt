//! The trait of disks.
ghost use Rattle.std.specs.Prelude.{◌≡◌, ◌⊎◌, ◌+◌, ◌<◌, ◌≤◌, ◌^◌, length, take, drop, IfOk, OnOk, OnErr};
ghost use Rattle.disk.specs.Disk.{DiskSpec, HasRoom, IsCall, IsCutShort, IsHonest, IsImage, IsTorn, Synced, after_cut, after_write};

/// Some bytes of a disk: the offset of the first, and how many.
#[derive(Clone, Copy, Debug, PartialEq, Eq)]
pub struct Range {
    pub from: usize,
    pub count: usize,
}

/// Why a disk did not do what was asked.
#[derive(Clone, Copy, Debug, PartialEq, Eq)]
pub enum DiskFault {
    /// The device failed.
    Device,
    /// There is no room on it.
    Full,
}

/// One file's bytes, numbered from 0. What is written or cut is kept for sure once a sync has
/// succeeded behind it.
///
/// Each call but the counts asks that one more fault can be counted. What a call says of bytes and
/// crashes holds where the disk is honest; a disk is honest behind a call just where it was before.
pub trait Disk {
    /// What contracts see of it.
    ghost shown: { Self → DiskSpec };

    /// How many bytes it has.
    fn len(&mut self) -> Result<usize, DiskFault>
        requires { HasRoom (shown self.old) }
        ensures call { IsCall (shown self.old) (shown self.new) result }
        ensures same { IsHonest (shown self.old) → (shown self.new).now ≡ (shown self.old).now }
        ensures returned { IfOk result
            (λ n. IsHonest (shown self.old) → n ≡ length (shown self.old).now.reads) };

    /// The bytes from an offset on, as many as are asked for.
    fn read(&mut self, from: usize, out: &mut [u8]) -> Result<(), DiskFault>
        requires room { HasRoom (shown self.old) }
        requires within { IsHonest (shown self.old)
            → from + length out.old ≤ length (shown self.old).now.reads }
        ensures call { IsCall (shown self.old) (shown self.new) result }
        ensures same { IsHonest (shown self.old) → (shown self.new).now ≡ (shown self.old).now }
        ensures returned { OnOk result (IsHonest (shown self.old)
            → out.new ≡ take (length out.old) (drop from (shown self.old).now.reads)) };

    /// Writes bytes from an offset on, over those that are there and behind the end. Until a sync a
    /// crash may leave any bytes in that range. A write that failed may leave any bytes in it at
    /// once.
    fn write_at(&mut self, from: usize, bytes: &[u8]) -> Result<(), DiskFault>
        requires room { HasRoom (shown self.old) }
        requires fits { from + length bytes.now < 2 ^ 64 }
        requires within { IsHonest (shown self.old) → from ≤ length (shown self.old).now.reads }
        ensures call { IsCall (shown self.old) (shown self.new) result }
        ensures done { OnOk result (IsHonest (shown self.old)
            → (shown self.new).now ≡ after_write from bytes.now (shown self.old).now) }
        ensures torn { OnErr result (IsHonest (shown self.old)
            → ((shown self.new).now ≡ (shown self.old).now)
            ⊎ IsTorn (record { from = from; count = length bytes.now })
            (shown self.old).now (shown self.new).now) };

    /// Cuts it to a length. Until a sync a crash may leave any bytes behind that length.
    fn cut(&mut self, len: usize) -> Result<(), DiskFault>
        requires room { HasRoom (shown self.old) }
        requires within { IsHonest (shown self.old) → len ≤ length (shown self.old).now.reads }
        ensures call { IsCall (shown self.old) (shown self.new) result }
        ensures done { OnOk result (IsHonest (shown self.old)
            → (shown self.new).now ≡ after_cut len (shown self.old).now) }
        ensures short { OnErr result (IsHonest (shown self.old)
            → ((shown self.new).now ≡ (shown self.old).now)
            ⊎ IsCutShort len (shown self.old).now (shown self.new).now) };

    /// Keeps for sure what reads give: from then on a crash leaves just that, until something is
    /// written or cut.
    fn sync(&mut self) -> Result<(), DiskFault>
        requires { HasRoom (shown self.old) }
        ensures call { IsCall (shown self.old) (shown self.new) result }
        ensures synced { OnOk result (IsHonest (shown self.old) → (shown self.new).now
            ≡ record { reads = (shown self.old).now.reads; unsynced = Synced }) }
        ensures unsynced { OnErr result (IsHonest (shown self.old)
            → (shown self.new).now ≡ (shown self.old).now) };

    /// How many calls were answered by `Device`.
    fn failures(&self) -> u64
        ensures { result ≡ (shown self.now).failures };

    /// How many calls were answered by `Full`.
    fn fulls(&self) -> u64
        ensures { result ≡ (shown self.now).fulls };

    /// Where a crash ends the program alone, what it leaves is what reads give.
    ghost reads_may_stay: { (disk : Self) → IsHonest (shown disk)
        → IsImage (shown disk).now (shown disk).now.reads };
}
