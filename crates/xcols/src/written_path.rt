//! The path under which a file that is written will stand.
use std::alloc::Global;
use std::io;
use std::io::ErrorKind;
use std::path::{Path, PathBuf};
use std::rt::Files;

/// How many links are followed, one after the other: as many as Linux follows.
const MOST_LINKS: u32 = 40;

/// The path of the file that a path leads to, links followed; no file need be there.
///
/// # Errors
///
/// What is there is no regular file, as a device, a FIFO or a folder; the links go in a circle; or
/// the machine doesn't say what is there.
pub fn written_path<R: Files>(alloc: Global, files: &R, path: &str) -> io::Result<PathBuf> {
    check_kind(files, path)?;
    let mut path = PathBuf::from_str(alloc, path)?;
    for _ in 0..MOST_LINKS {
        match next_path(alloc, files, path.as_path())? {
            Some(next) => path = next,
            None => return Ok(path),
        }
    }
    Err(io::Error::from(ErrorKind::InvalidInput))
}

/// Refuses what is there and is no regular file.
fn check_kind<R: Files>(files: &R, path: &str) -> io::Result<()> {
    match files.metadata(path) {
        Ok(found) if found.is_file() => Ok(()),
        Ok(_) => Err(io::Error::from(ErrorKind::InvalidInput)),
        Err(error) => match error.kind() {
            ErrorKind::NotFound => Ok(()),
            _ => Err(error),
        },
    }
}

/// Whether a path is that of a link.
fn is_link<R: Files>(files: &R, path: &str) -> io::Result<bool> {
    match files.symlink_metadata(path) {
        Ok(found) => Ok(found.is_symlink()),
        Err(error) => match error.kind() {
            ErrorKind::NotFound => Ok(false),
            _ => Err(error),
        },
    }
}

/// Where a link leads; none where the path is that of no link.
fn next_path<R: Files>(alloc: Global, files: &R, path: Path<'_>) -> io::Result<Option<PathBuf>> {
    if !is_link(files, path.as_str())? {
        return Ok(None);
    }
    let link = files.read_link(alloc, path.as_str())?;
    match path.parent() {
        Some(folder) => Ok(Some(folder.join(alloc, link.as_path())?)),
        None => Ok(Some(link)),
    }
}
