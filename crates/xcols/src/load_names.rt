//! The names of a load's files that lie in a folder.
use std::alloc::Global;
use std::fs::{DirEntry, ReadDir};
use std::mem::drop;
use std::path::{Path, PathBuf};
use std::rt::Files;
use std::{fs, io};

/// Whether a file of this name is one that a load writes.
pub fn is_load_file(name: &str) -> bool {
    name == "cut.xcl" || name.ends_with(".xcf")
}

/// The names of a folder's files that loads wrote, and of parts.
#[derive(Drop)]
pub struct LoadNames {
    folder: PathBuf,
    // In ascending order.
    files: Vec<String>,
    parts: Vec<String>,
}

impl LoadNames {
    /// The names that are in a folder now.
    pub fn of<R: Files + Alloc + Clone + Drop>(
        alloc: Global,
        files: &R,
        folder: Path<'_>,
    ) -> io::Result<LoadNames> {
        let mut names = LoadNames {
            folder: folder.to_path_buf(alloc)?,
            files: Vec::new(alloc),
            parts: Vec::new(alloc),
        };
        match names.read(alloc, files) {
            Ok(()) => Ok(names),
            Err(error) => {
                drop(names);
                Err(error)
            }
        }
    }

    fn read<R: Files + Alloc + Clone + Drop>(
        &mut self,
        alloc: Global,
        files: &R,
    ) -> io::Result<()> {
        let here = self.folder.join(alloc, ".")?;
        let entries = fs::read_dir(files, here.as_path())?;
        self.add_all(alloc, entries)?;
        self.files.sort()?;
        Ok(())
    }

    fn add_all<R: Files + Alloc + Clone + Drop>(
        &mut self,
        alloc: Global,
        entries: ReadDir<R, R::A>,
    ) -> io::Result<()> {
        for entry in entries {
            self.add_if_read(alloc, entry)?;
        }
        Ok(())
    }

    fn add_if_read<R: Files + Alloc + Clone + Drop>(
        &mut self,
        alloc: Global,
        entry: io::Result<DirEntry<R, R::A>>,
    ) -> io::Result<()> {
        let entry = entry?;
        self.add(alloc, entry.file_name())
    }

    fn add(&mut self, alloc: Global, name: &str) -> io::Result<()> {
        if is_load_file(name) {
            self.files.push(String::from_str(alloc, name)?)?;
        } else if name.ends_with(".part") {
            self.parts.push(String::from_str(alloc, name)?)?;
        }
        Ok(())
    }

    /// The names of parts.
    pub fn parts(&self) -> &[String] {
        self.parts.as_slice()
    }

    /// Whether these are the names of this folder.
    pub fn are_of(&self, folder: Path<'_>) -> bool {
        self.folder.as_str() == folder.as_str()
    }

    /// Whether a load's file of this name is there.
    pub fn has(&self, name: &str) -> bool {
        self.files
            .binary_search_by(|there| there.as_str().cmp(name))
            .is_ok()
    }
}
