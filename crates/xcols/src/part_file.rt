//! A file that is written under a name of its own until it is whole.
use std::alloc::{AllocError, Global};
use std::fs::{File, OpenFile};
use std::io::{BufWriter, ErrorKind, Write};
use std::mem::drop;
use std::path::PathBuf;
use std::rt::Files;
use std::{fs, io};

/// How many names are tried for a file.
const MOST_PARTS: u32 = 1_000;

/// A name beside the path that a file is for, which no other run writes. The file under it is
/// removed where the name is let go before the file stands under its path.
pub struct Part<'a, R: Files> {
    files: &'a R,
    name: String,
    path: PathBuf,
}

impl<R: Files> Drop for Part<'_, R> {
    fn drop(self) {
        let Part {
            files,
            name,
            path: _path,
        } = self;
        remove(files, name.as_str());
    }
}

impl<'a, R: Files> Part<'a, R> {
    /// The part of this name, which is for a path.
    pub fn new(files: &'a R, name: String, path: PathBuf) -> Part<'a, R> {
        Part { files, name, path }
    }

    /// Renames the file to its path.
    pub fn finish(self) -> io::Result<()> {
        let Part { files, name, path } = self;
        match fs::rename(files, name.as_str(), path.as_path()) {
            Ok(()) => Ok(()),
            Err(error) => {
                remove(files, name.as_str());
                Err(error)
            }
        }
    }
}

/// A file until it is whole.
#[derive(Drop)]
pub struct PartFile<'a, R: Files> {
    // Closed before its name is let go.
    file: BufWriter<R::File>,
    part: Part<'a, R>,
}

impl<'a, R: Files> PartFile<'a, R> {
    /// An empty file that is for a path.
    pub fn new(alloc: Global, files: &'a R, path: PathBuf) -> io::Result<PartFile<'a, R>> {
        let (part, file) = create(alloc, files, path)?;
        PartFile::over(alloc, file, part)
    }

    /// An empty file that has this part's name.
    pub fn over(alloc: Global, file: R::File, part: Part<'a, R>) -> io::Result<PartFile<'a, R>> {
        let file = BufWriter::new(alloc, file)?;
        Ok(PartFile { file, part })
    }

    /// Closes the file once its bytes are on the disk.
    pub fn close(self) -> io::Result<Part<'a, R>> {
        let PartFile { file, part } = self;
        let file = file.into_inner()?;
        file.sync_all()?;
        drop(file);
        Ok(part)
    }
}

impl<R: Files> Write for PartFile<'_, R> {
    fn write(&mut self, bytes: &[u8]) -> io::Result<usize> {
        self.file.write(bytes)
    }

    fn flush(&mut self) -> io::Result<()> {
        self.file.flush()
    }
}

// What can't be removed stays.
fn remove<R: Files>(files: &R, name: &str) {
    let _ = fs::remove_file(files, name);
}

/// The name of a path's part.
pub fn part_name(alloc: Global, path: &str, number: u32) -> Result<String, AllocError> {
    format!(in alloc; "{path}.{number}.part")
}

/// A new file, or `None` where the name is taken.
pub fn try_create<R: Files>(files: &R, name: &str) -> io::Result<Option<R::File>> {
    match File::create_new(files, name) {
        Ok(file) => Ok(Some(file)),
        Err(error) => match error.kind() {
            ErrorKind::AlreadyExists => Ok(None),
            _ => Err(error),
        },
    }
}

/// A new file under the first name that is free.
fn create<'a, R: Files>(
    alloc: Global,
    files: &'a R,
    path: PathBuf,
) -> io::Result<(Part<'a, R>, R::File)> {
    for number in 0..MOST_PARTS {
        let name = part_name(alloc, path.as_str(), number)?;
        if let Some(file) = try_create(files, name.as_str())? {
            return Ok((Part { files, name, path }, file));
        }
    }
    Err(io::Error::from(ErrorKind::AlreadyExists))
}
