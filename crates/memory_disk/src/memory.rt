//! The disk in memory.
ghost use Rattle.std.specs.Prelude.{◌≡◌, ◌∷◌, [], ◌++◌, ◌+◌, ◌<◌, ◌≤◌, ◌^◌, true, false, map, length, slice_index, take, drop, IfErr, IfOk, OnErr, OnOk};
ghost use Rattle.disk.specs.Disk.{Synced, is_in, is_written};
ghost use Rattle.memory_disk.specs.Memory.{byte_left, image_of, left_by_crash, reads_stay, state_of};

use crate::changes::{after_cut, after_write, synced};
use crate::moment::Moment;
use disk::{Disk, DiskFault, Range};
use std::alloc::{AllocError, Global};
use std::mem;

/// A disk in memory. It passes so many calls on and then fails every call, or one alone. A write
/// that fails leaves the front half of its bytes.
#[derive(Drop)]
pub struct MemDisk {
    alloc: Global,
    now: Moment,
    past: Vec<Moment>,
    failures: u64,
    fulls: u64,
    // How many calls it still passes on, and whether it fails only once.
    passes: u64,
    fails_once: bool,
}

/// Puts another moment in the place of the one that is now, which is past from then on.
fn go_on(past: &mut Vec<Moment>, now: &mut Moment, next: Moment) -> Result<(), AllocError>
    ensures past { OnOk result (past.new.items ≡ past.old.items ++ now.old ∷ []) }
    ensures now { OnOk result (now.new ≡ next) }
    ensures past_same { OnErr result (past.new.items ≡ past.old.items) }
    ensures now_same { OnErr result (now.new ≡ now.old) }
{
    past.reserve(1)?;
    past.push_reserved(mem::replace(now, next));
    Ok(())
}

impl MemDisk {
    ghost use Rattle.disk.specs.Disk.{HasRoom, IsHonest, IsImage};
    ghost use Rattle.memory_disk.specs.MemDisk.{shown};

    /// A disk with these bytes, all synced. It passes on all calls.
    pub fn new(alloc: Global, bytes: Vec<u8>) -> MemDisk
        ensures room { HasRoom (shown result) }
        ensures honest { IsHonest (shown result) }
        ensures now { (shown result).now ≡ record { reads = bytes.items; unsynced = Synced } }
    {
        MemDisk {
            alloc,
            now: synced(alloc, bytes),
            past: Vec::new(alloc),
            failures: 0,
            fulls: 0,
            passes: u64::MAX,
            fails_once: false,
        }
    }

    /// Passes on so many calls, and then fails every call, or one alone.
    pub fn stop_after(&mut self, calls: u64, once: bool)
        ensures { shown self.new ≡ shown self.old }
    {
        self.passes = calls;
        self.fails_once = once;
    }

    /// What reads give.
    pub fn bytes(&self) -> &[u8]
        ensures { result.now ≡ (shown self.entry.now).now.reads }
    {
        self.now.bytes.as_slice()
    }

    /// Whether the call that begins now is to fail.
    fn stops(&mut self) -> bool
        ensures { shown self.new ≡ shown self.old }
    {
        if self.passes > 0 {
            self.passes -= 1;
            return false;
        }
        if self.fails_once {
            self.passes = u64::MAX;
        }
        true
    }

    fn fail(&mut self) -> DiskFault
        requires { HasRoom (shown self.old) }
        ensures returned { result ≡ DiskFault.Device }
        ensures counted { shown self.new ≡ record (shown self.old) {
          failures = (shown self.old).failures + 1;
        } }
    {
        self.failures += 1;
        DiskFault::Device
    }

    fn fill(&mut self) -> DiskFault
        requires { HasRoom (shown self.old) }
        ensures returned { result ≡ DiskFault.Full }
        ensures counted { shown self.new ≡ record (shown self.old) {
          fulls = (shown self.old).fulls + 1;
        } }
    {
        self.fulls += 1;
        DiskFault::Full
    }
}

impl Disk for MemDisk {
    ghost use Rattle.memory_disk.specs.MemDisk.{shown as shown_of};

    ghost shown = { shown_of };

    ghost reads_may_stay = { λ disk honest. reads_stay disk.now };

    fn len(&mut self) -> Result<usize, DiskFault> {
        if self.stops() {
            return Err(self.fail());
        }
        Ok(self.now.bytes.len())
    }

    fn read(&mut self, from: usize, out: &mut [u8]) -> Result<(), DiskFault> {
        if self.stops() {
            return Err(self.fail());
        }
        out.copy_from_slice(&self.now.bytes[from..from + out.len()]);
        Ok(())
    }

    fn write_at(&mut self, from: usize, bytes: &[u8]) -> Result<(), DiskFault> {
        let stops = self.stops();
        let written = if stops { bytes.len() / 2 } else { bytes.len() };
        let next = after_write(self.alloc, &self.now, from, &bytes[..written], bytes.len());
        let Ok(next) = next else {
            return Err(self.fill());
        };
        if go_on(&mut self.past, &mut self.now, next).is_err() {
            return Err(self.fill());
        }
        if stops { Err(self.fail()) } else { Ok(()) }
    }

    fn cut(&mut self, len: usize) -> Result<(), DiskFault> {
        if self.stops() {
            return Err(self.fail());
        }
        let Ok(next) = after_cut(self.alloc, &self.now, len) else {
            return Err(self.fill());
        };
        if go_on(&mut self.past, &mut self.now, next).is_err() {
            return Err(self.fill());
        }
        Ok(())
    }

    fn sync(&mut self) -> Result<(), DiskFault> {
        if self.stops() {
            return Err(self.fail());
        }
        let Ok(bytes) = Vec::from_slice(self.alloc, self.now.bytes.as_slice()) else {
            return Err(self.fill());
        };
        let next = synced(self.alloc, bytes);
        if go_on(&mut self.past, &mut self.now, next).is_err() {
            return Err(self.fill());
        }
        Ok(())
    }

    fn failures(&self) -> u64 {
        self.failures
    }

    fn fulls(&self) -> u64 {
        self.fulls
    }
}

/// Whether the range has the offset.
fn is_in(offset: usize, range: &Range) -> bool
    ensures { result ≡ is_in offset range.now }
{
    range.from <= offset && offset - range.from < range.count
}

/// Whether one of the ranges has the offset.
fn is_written(ranges: &[Range], offset: usize) -> bool
    ensures { result ≡ is_written ranges.now offset }
{
    ranges.iter().any(|range| is_in(offset, range))
}

/// The byte that is left at an offset: where any byte may be, the one that was chosen, or 0.
fn byte_left(moment: &Moment, chosen: &[u8], offset: usize) -> u8
    ensures { result ≡ byte_left moment.now chosen.now offset }
{
    if offset < moment.least && !is_written(moment.ranges.as_slice(), offset) {
        moment.bytes[offset]
    } else {
        chosen.get(offset).copied().unwrap_or(0)
    }
}

/// What a crash may leave of a disk that isn't synced, as the chosen bytes say where any may be.
fn image(alloc: Global, moment: &Moment, chosen: &[u8]) -> Result<Vec<u8>, AllocError>
    ensures { IfOk result (λ bytes. bytes.items ≡ image_of moment.now chosen.now) }
{
    (0..chosen.len().max(moment.least))
        .map(|offset| byte_left(moment, chosen, offset))
        .collect(alloc)
}

/// What a crash leaves, as the chosen bytes say where any may be.
fn left_by_crash(alloc: Global, moment: &Moment, chosen: &[u8]) -> Result<Vec<u8>, AllocError>
    ensures { IfOk result (λ bytes. bytes.items ≡ left_by_crash moment.now chosen.now) }
{
    if moment.is_synced {
        Vec::from_slice(alloc, moment.bytes.as_slice())
    } else {
        image(alloc, moment, chosen)
    }
}

impl MemDisk {
    ghost use Rattle.disk.specs.Disk.{IsHonest, IsImage, IsSyncedFrom};
    ghost use Rattle.memory_disk.specs.MemDisk.{shown};

    /// The disk behind a crash. Where the crash may leave any byte it leaves the chosen one at that
    /// offset; it leaves as many bytes as were chosen, or the least that it may leave.
    pub fn crash(&self, alloc: Global, chosen: &[u8]) -> Result<MemDisk, AllocError>
        ensures image { IfOk result
            (λ disk. IsImage (shown self.entry.now).now (shown disk).now.reads) }
        ensures chosen { IfOk result
            (λ disk. (shown disk).now.reads ≡ left_by_crash self.entry.now.now chosen.now) }
        ensures fresh { IfOk result (λ disk. IsHonest (shown disk) × IsSyncedFrom 0 (shown disk).now) }
    {
        let bytes = left_by_crash(alloc, &self.now, chosen)?;
        Ok(MemDisk::new(alloc, bytes))
    }
}
