//! The files of a case file's folder.
use std::alloc::AllocError;

/// A file of a case file's folder.
#[derive(Drop)]
pub struct StoredFile {
    pub path: String,
    pub bytes: Vec<u8>,
}

/// The bytes of a path's file: the last that was put there.
pub fn find<'a>(files: &'a [StoredFile], path: &str) -> Option<&'a [u8]> {
    let file = files.iter().rev().find(|file| file.path.as_str() == path)?;
    Some(file.bytes.as_slice())
}

/// Puts files behind those that stand.
pub fn put_all(files: &mut Vec<StoredFile>, more: Vec<StoredFile>) -> Result<(), AllocError> {
    for file in more {
        files.push(file)?;
    }
    Ok(())
}
