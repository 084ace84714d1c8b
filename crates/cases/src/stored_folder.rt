//! The folder in memory that a case's command works on.
use crate::pieces::{Host, Pieces};
use crate::stored_disk::StoredDisk;
use case_files::{StoredFile, find};
use cli::Folder;
use std::alloc::{AllocError, Global};
use std::cell::RefCell;
use std::io;

/// The files of a case file as a command finds them, those that it writes, and those that it takes
/// away.
#[derive(Drop)]
pub struct StoredFolder<'a> {
    alloc: Global,
    files: &'a [StoredFile],
    // The file that is read and written in place, whatever its path.
    journal: &'a RefCell<Vec<u8>>,
    host: Host<'a>,
    /// In the order in which they were finished.
    pub written: Vec<StoredFile>,
    /// The paths of files that were there and were taken away.
    pub removed: Vec<String>,
}

impl<'a> StoredFolder<'a> {
    pub fn new(
        alloc: Global,
        files: &'a [StoredFile],
        journal: &'a RefCell<Vec<u8>>,
        host: Host<'a>,
    ) -> StoredFolder<'a> {
        StoredFolder {
            alloc,
            files,
            journal,
            host,
            written: Vec::new(alloc),
            removed: Vec::new(alloc),
        }
    }

    /// The files that stand there.
    pub fn files(&self) -> &[StoredFile] {
        self.files
    }

    /// Puts the file that was written in place among those that were written, unless its bytes are
    /// those that it had.
    pub fn keep_journal(&mut self, path: &str) -> Result<(), AllocError> {
        let Ok(bytes) = self.journal.try_borrow() else {
            return Ok(());
        };
        if find(self.files, path) == Some(bytes.as_slice()) {
            return Ok(());
        }
        let bytes = Vec::from_slice(self.alloc, bytes.as_slice())?;
        let path = String::from_str(self.alloc, path)?;
        self.written.push(StoredFile { path, bytes })?;
        Ok(())
    }
}

impl<'a> Folder for StoredFolder<'a> {
    ghost use Rattle.std.specs.Prelude.{Some};

    type Reader = Pieces<'a>;

    type Writer = Vec<u8>;

    type Closed = Vec<u8>;

    type Disk = StoredDisk<'a>;

    ghost enclosed = { λ bytes. Some bytes.items };

    fn open(&self, path: &str) -> io::Result<Pieces<'a>> {
        match find(self.files, path) {
            Some(bytes) => Ok(self.host.reader(path, bytes)),
            None => Err(io::Error::from(io::ErrorKind::NotFound)),
        }
    }

    fn disk(&self, _path: &str) -> io::Result<StoredDisk<'a>> {
        Ok(StoredDisk::new(self.journal, self.host.disk_calls))
    }

    fn create(&mut self, _path: &str) -> io::Result<Vec<u8>> {
        Ok(Vec::new(self.alloc))
    }

    fn close(&mut self, bytes: Vec<u8>) -> io::Result<Vec<u8>> {
        Ok(bytes)
    }

    fn finish(&mut self, path: &str, bytes: Vec<u8>) -> io::Result<()> {
        let path = String::from_str(self.alloc, path)?;
        self.written.push(StoredFile { path, bytes })?;
        Ok(())
    }

    fn remove(&mut self, path: &str) -> io::Result<()> {
        if find(self.files, path).is_some() {
            self.removed.push(String::from_str(self.alloc, path)?)?;
        }
        Ok(())
    }
}
