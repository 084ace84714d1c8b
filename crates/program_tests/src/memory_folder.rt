//! A folder in memory, whose writing fails after some steps.
ghost use Rattle.std.specs.Prelude.{◌≡◌, find, option_map};
ghost use Rattle.std.specs.Str.{bytes_eq};

use cli::Folder;
use memory_disk::MemDisk;
use std::alloc::Global;
use std::io;

/// A file that was written or taken away.
#[derive(Drop)]
pub struct Change {
    pub path: String,
    /// None where the file was taken away.
    pub bytes: Option<Vec<u8>>,
}

/// Files in memory, of which so many more may be created, closed, finished and taken away.
#[derive(Drop)]
pub struct MemoryFolder<'a> {
    alloc: Global,
    files: &'a [(&'a str, &'a [u8])],
    /// In the order in which they were made.
    pub changes: Vec<Change>,
    steps_left: u32,
}

impl<'a> MemoryFolder<'a> {
    pub fn new(
        alloc: Global,
        files: &'a [(&'a str, &'a [u8])],
        steps_left: u32,
    ) -> MemoryFolder<'a> {
        MemoryFolder {
            alloc,
            files,
            changes: Vec::new(alloc),
            steps_left,
        }
    }

    fn file(&self, path: &str) -> Option<&'a [u8]>
        ensures { option_map (λ bytes. bytes.now) result
            ≡ option_map (λ file. file.1.now) (find (λ file. bytes_eq file.0.now path.now)
            self.now.files.now) }
    {
        let file = self.files.iter().find(|file| file.0 == path)?;
        Some(file.1)
    }

    /// How many files were written.
    pub fn written(&self) -> usize {
        self.changes
            .iter()
            .filter(|change| change.bytes.is_some())
            .count()
    }

    fn step(&mut self) -> io::Result<()>
        ensures changes { self.new.changes ≡ self.old.changes }
        ensures files { self.new.files ≡ self.old.files }
    {
        if self.steps_left == 0 {
            return Err(io::Error::from(io::ErrorKind::PermissionDenied));
        }
        self.steps_left -= 1;
        Ok(())
    }
}

// What is held and written is known, so that the contracts of the commands are met at a type that
// says so.
impl<'a> Folder for MemoryFolder<'a> {
    ghost use Rattle.std.specs.Prelude.{Some, find, map, option_map, string_bytes};
    ghost use Rattle.std.specs.Str.{bytes_eq};

    type Reader = &'a [u8];

    type Writer = Vec<u8>;

    type Closed = Vec<u8>;

    type Disk = MemDisk;

    ghost holds = { λ f path. option_map (λ file. file.1.now) (find
        (λ file. bytes_eq file.0.now path) f.files.now) };

    ghost wrote = { λ f. Some (map (λ change. (
      string_bytes change.path,
      option_map
          (λ bytes. bytes.items) change.bytes,
    )) f.changes.items) };

    ghost enclosed = { λ bytes. Some bytes.items };

    fn open(&self, path: &str) -> io::Result<&'a [u8]> {
        match self.file(path) {
            Some(bytes) => Ok(bytes),
            None => Err(io::Error::from(io::ErrorKind::NotFound)),
        }
    }

    // Of its own: what is written to it is gone with it.
    fn disk(&self, path: &str) -> io::Result<MemDisk> {
        let bytes = self.file(path).unwrap_or(&[]);
        Ok(MemDisk::new(self.alloc, Vec::from_slice(self.alloc, bytes)?))
    }

    fn create(&mut self, _path: &str) -> io::Result<Vec<u8>> {
        self.step()?;
        Ok(Vec::new(self.alloc))
    }

    fn close(&mut self, bytes: Vec<u8>) -> io::Result<Vec<u8>> {
        self.step()?;
        Ok(bytes)
    }

    fn finish(&mut self, path: &str, bytes: Vec<u8>) -> io::Result<()> {
        self.step()?;
        let path = String::from_str(self.alloc, path)?;
        let bytes = Some(bytes);
        self.changes.push(Change { path, bytes })?;
        Ok(())
    }

    fn remove(&mut self, path: &str) -> io::Result<()> {
        self.step()?;
        let path = String::from_str(self.alloc, path)?;
        self.changes.push(Change { path, bytes: None })?;
        Ok(())
    }
}
