//! A file of the host as a disk.
use disk::{Disk, DiskFault};
use std::fs::File;
use std::io;
use std::io::{Read, Seek, SeekFrom, Write};

/// A file that is read and written in place. Contracts know nothing of its bytes.
#[derive(Drop)]
pub struct FileDisk {
    file: File,
    failures: u64,
}

impl FileDisk {
    ghost use Rattle.disk.specs.Disk.{HasRoom, IsCall};
    ghost use Rattle.xcols.specs.FileDisk.{shown};

    pub fn new(file: File) -> FileDisk
        ensures { HasRoom (shown result) }
    {
        FileDisk { file, failures: 0 }
    }

    /// Counts a call that failed.
    fn counted<T: Drop>(&mut self, given: io::Result<T>) -> Result<T, DiskFault>
        requires { HasRoom (shown self.old) }
        ensures { IsCall (shown self.old) (shown self.new) result }
    {
        match given {
            Ok(value) => Ok(value),
            Err(_) => {
                self.failures += 1;
                Err(DiskFault::Device)
            }
        }
    }
}

fn length_of(file: &File) -> io::Result<usize> {
    Ok(file.metadata()?.len() as usize)
}

fn read_at(file: &mut File, from: usize, out: &mut [u8]) -> io::Result<()> {
    file.seek(SeekFrom::Start(from as u64))?;
    file.read_exact(out)
}

fn write_at(file: &mut File, from: usize, bytes: &[u8]) -> io::Result<()> {
    file.seek(SeekFrom::Start(from as u64))?;
    file.write_all(bytes)
}

impl Disk for FileDisk {
    ghost use Rattle.xcols.specs.FileDisk.{never_honest, shown as shown_of};

    ghost shown = { shown_of };

    ghost reads_may_stay = { λ disk honest. never_honest disk honest };

    fn len(&mut self) -> Result<usize, DiskFault> {
        let length = length_of(&self.file);
        self.counted(length)
    }

    fn read(&mut self, from: usize, out: &mut [u8]) -> Result<(), DiskFault> {
        let read = read_at(&mut self.file, from, out);
        self.counted(read)
    }

    fn write_at(&mut self, from: usize, bytes: &[u8]) -> Result<(), DiskFault> {
        let written = write_at(&mut self.file, from, bytes);
        self.counted(written)
    }

    fn cut(&mut self, len: usize) -> Result<(), DiskFault> {
        let cut = self.file.set_len(len as u64);
        self.counted(cut)
    }

    fn sync(&mut self) -> Result<(), DiskFault> {
        let synced = self.file.sync_all();
        self.counted(synced)
    }

    fn failures(&self) -> u64 {
        self.failures
    }

    fn fulls(&self) -> u64 {
        0
    }
}
