//! The file in memory that a case's command reads and writes in place.
use disk::{Disk, DiskFault};
use std::alloc::AllocError;
use std::cell::RefCell;

/// The bytes of a file, which are there when the command is done. It passes on so many calls, and
/// then fails every call; a write that fails leaves the front half of its bytes. Contracts know
/// nothing of the bytes.
#[derive(Drop)]
pub struct StoredDisk<'a> {
    bytes: &'a RefCell<Vec<u8>>,
    calls: u64,
    failures: u64,
    fulls: u64,
}

fn length_of(bytes: &RefCell<Vec<u8>>) -> Option<usize> {
    let bytes = bytes.try_borrow().ok()?;
    Some(bytes.len())
}

fn read_at(bytes: &RefCell<Vec<u8>>, from: usize, out: &mut [u8]) -> Option<()> {
    let bytes = bytes.try_borrow().ok()?;
    let behind = bytes.as_slice().get(from..)?;
    out.copy_from_slice(behind.get(..out.len())?);
    Some(())
}

fn overwrite(old: &mut Vec<u8>, from: usize, bytes: &[u8]) -> Result<(), AllocError> {
    let end = from.saturating_add(bytes.len());
    let behind = Vec::from_slice(*old.allocator(), old.as_slice().get(end..).unwrap_or(&[]))?;
    old.truncate(from);
    old.extend_from_slice(bytes)?;
    old.extend_from_slice(behind.as_slice())
}

fn write_at(old: &RefCell<Vec<u8>>, from: usize, bytes: &[u8]) -> Option<()> {
    let mut old = old.try_borrow_mut().ok()?;
    overwrite(&mut old, from, bytes).ok()
}

fn cut_to(bytes: &RefCell<Vec<u8>>, len: usize) -> Option<()> {
    let mut bytes = bytes.try_borrow_mut().ok()?;
    bytes.truncate(len);
    Some(())
}

impl<'a> StoredDisk<'a> {
    ghost use Rattle.std.specs.Prelude.{◌≡◌};
    ghost use Rattle.disk.specs.Disk.{HasRoom, IsCall};
    ghost use Rattle.cases.specs.StoredDisk.{shown};

    pub fn new(bytes: &'a RefCell<Vec<u8>>, calls: u64) -> StoredDisk<'a>
        ensures { HasRoom (shown result) }
    {
        StoredDisk {
            bytes,
            calls,
            failures: 0,
            fulls: 0,
        }
    }

    /// Whether the call that begins now is to fail.
    fn stops(&mut self) -> bool
        ensures { shown self.new ≡ shown self.old }
    {
        if self.calls == 0 {
            return true;
        }
        self.calls -= 1;
        false
    }

    fn failed<T: Drop>(&mut self) -> Result<T, DiskFault>
        requires { HasRoom (shown self.old) }
        ensures { IsCall (shown self.old) (shown self.new) result }
    {
        self.failures += 1;
        Err(DiskFault::Device)
    }

    /// Counts a call that was not done.
    fn counted<T: Drop>(&mut self, given: Option<T>) -> Result<T, DiskFault>
        requires { HasRoom (shown self.old) }
        ensures { IsCall (shown self.old) (shown self.new) result }
    {
        match given {
            Some(value) => Ok(value),
            None => {
                self.fulls += 1;
                Err(DiskFault::Full)
            }
        }
    }
}

impl<'a> Disk for StoredDisk<'a> {
    ghost use Rattle.cases.specs.StoredDisk.{never_honest, shown as shown_of};

    ghost shown = { shown_of };

    ghost reads_may_stay = { λ disk honest. never_honest disk honest };

    fn len(&mut self) -> Result<usize, DiskFault> {
        if self.stops() {
            return self.failed();
        }
        let length = length_of(self.bytes);
        self.counted(length)
    }

    fn read(&mut self, from: usize, out: &mut [u8]) -> Result<(), DiskFault> {
        if self.stops() {
            return self.failed();
        }
        let read = read_at(self.bytes, from, out);
        self.counted(read)
    }

    fn write_at(&mut self, from: usize, bytes: &[u8]) -> Result<(), DiskFault> {
        if self.stops() {
            let _ = write_at(self.bytes, from, &bytes[..bytes.len() / 2]);
            return self.failed();
        }
        let written = write_at(self.bytes, from, bytes);
        self.counted(written)
    }

    fn cut(&mut self, len: usize) -> Result<(), DiskFault> {
        if self.stops() {
            return self.failed();
        }
        let cut = cut_to(self.bytes, len);
        self.counted(cut)
    }

    fn sync(&mut self) -> Result<(), DiskFault> {
        if self.stops() {
            return self.failed();
        }
        Ok(())
    }

    fn failures(&self) -> u64 {
        self.failures
    }

    fn fulls(&self) -> u64 {
        self.fulls
    }
}
