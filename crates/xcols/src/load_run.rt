//! The parts of a load, and those that loads left behind which were stopped.
use crate::load_names::{LoadNames, is_load_file};
use crate::part_file::{Part, PartFile, part_name, try_create};
use std::alloc::Global;
use std::fs::{File, OpenOptions, TryLockError};
use std::io::ErrorKind;
use std::mem::drop;
use std::os::unix::fs::MetadataExt;
use std::path::{Path, PathBuf};
use std::rt::Files;
use std::{fs, io};

const CUT: &str = "cut.xcl";

/// How many loads of a folder may run at once.
const MOST_RUNS: u32 = 1_000;

/// A load that runs over a folder. The parts of its files carry its number. It creates the part of
/// its cut before all others, and holds the lock on that file until it ends: a number whose lock can
/// be had is that of no load that runs, and the parts that carry it are nobody's.
#[derive(Drop)]
pub struct LoadRun<'a, R: Files> {
    alloc: Global,
    files: &'a R,
    folder: PathBuf,
    number: u32,
    // Removed before the lock is let go, so that no other load has its number by then.
    cut: Option<Part<'a, R>>,
    lock: File,
    // Not where the file system has no locks.
    is_locked: bool,
}

impl<'a, R: Files<File = File> + Alloc + Clone + Drop> LoadRun<'a, R> {
    /// A load that begins. It removes the parts of loads that were stopped.
    pub fn begin(alloc: Global, files: &'a R, folder: Path<'_>) -> io::Result<LoadRun<'a, R>> {
        for number in 0..MOST_RUNS {
            if let Some(run) = LoadRun::take(alloc, files, folder, number)? {
                run.sweep();
                return Ok(run);
            }
        }
        Err(io::Error::from(ErrorKind::AlreadyExists))
    }

    /// The load of this number, unless another one has it.
    fn take(
        alloc: Global,
        files: &'a R,
        folder: Path<'_>,
        number: u32,
    ) -> io::Result<Option<LoadRun<'a, R>>> {
        let path = folder.join(alloc, CUT)?;
        let name = part_name(alloc, path.as_str(), number)?;
        let folder = folder.to_path_buf(alloc)?;
        let Some((lock, is_locked)) = lock_part(files, name.as_str())? else {
            return Ok(None);
        };
        Ok(Some(LoadRun {
            alloc,
            files,
            folder,
            number,
            cut: Some(Part::new(files, name, path)),
            lock,
            is_locked,
        }))
    }

    /// Whether the file of a path is one of this load's folder.
    pub fn has(&self, path: Path<'_>) -> bool {
        match path.parent() {
            Some(folder) => folder.as_str() == self.folder.as_str(),
            None => false,
        }
    }

    /// An empty file that is for a path of the folder.
    pub fn create(&mut self, path: PathBuf) -> io::Result<PartFile<'a, R>> {
        if path.file_name() == Some(CUT) {
            if let Some(part) = self.cut.take() {
                return PartFile::over(self.alloc, self.lock.try_clone()?, part);
            }
        }
        if !self.is_locked {
            return PartFile::new(self.alloc, self.files, path);
        }
        let name = part_name(self.alloc, path.as_str(), self.number)?;
        let file = create_anew(self.files, name.as_str())?;
        PartFile::over(self.alloc, file, Part::new(self.files, name, path))
    }

    /// Removes the parts of loads that were stopped. What can't be removed stays.
    fn sweep(&self) {
        if !self.is_locked {
            return;
        }
        let Ok(names) = LoadNames::of(self.alloc, self.files, self.folder.as_path()) else {
            return;
        };
        for name in names.parts() {
            let _ = self.sweep_part(name.as_str());
        }
    }

    /// Removes a part, unless it is that of a load that runs.
    fn sweep_part(&self, name: &str) -> io::Result<()> {
        let Some((file, number)) = part_of(name) else {
            return Ok(());
        };
        if number == self.number {
            return self.remove_part(file, name);
        }
        let Some(ended) = LoadRun::take(self.alloc, self.files, self.folder.as_path(), number)?
        else {
            return Ok(());
        };
        let removed = ended.remove_part(file, name);
        drop(ended);
        removed
    }

    /// Removes a part that carries this load's number; that of the cut is removed with the load.
    fn remove_part(&self, file: &str, name: &str) -> io::Result<()> {
        if file == CUT || !self.is_locked {
            return Ok(());
        }
        let path = self.folder.join(self.alloc, name)?;
        fs::remove_file(self.files, path.as_path())
    }
}

/// The file that a part is for, and the number that it carries; none where it is that of no load.
fn part_of(name: &str) -> Option<(&str, u32)> {
    let (file, number) = name.strip_suffix(".part")?.rsplit_once('.')?;
    if !is_load_file(file) {
        return None;
    }
    Some((file, number.parse::<u32>().ok()?))
}

/// A new file in the place of one that is nobody's, where there is one.
fn create_anew<R: Files<File = File>>(files: &R, name: &str) -> io::Result<File> {
    if let Some(file) = try_create(files, name)? {
        return Ok(file);
    }
    fs::remove_file(files, name)?;
    File::create_new(files, name)
}

/// The part of a load's cut, empty, and whether it is locked; none where another load has it.
fn lock_part<R: Files<File = File>>(files: &R, name: &str) -> io::Result<Option<(File, bool)>> {
    match try_create(files, name)? {
        Some(file) => Ok(lock_new(files, file, name)),
        None => Ok(lock_old(files, name)),
    }
}

fn lock_new<R: Files<File = File>>(files: &R, file: File, name: &str) -> Option<(File, bool)> {
    match file.try_lock() {
        Ok(()) => {
            if is_under(files, &file, name) {
                Some((file, true))
            } else {
                None
            }
        }
        Err(TryLockError::WouldBlock) => None,
        Err(TryLockError::Error(_)) => Some((file, false)),
    }
}

// What can't be opened or locked is taken for another load's.
fn lock_old<R: Files<File = File>>(files: &R, name: &str) -> Option<(File, bool)> {
    let opened = OpenOptions::new().read(true).write(true).open(files, name);
    let file = opened.ok()?;
    file.try_lock().ok()?;
    if is_under(files, &file, name) && file.set_len(0).is_ok() {
        Some((file, true))
    } else {
        None
    }
}

/// Whether this file still stands under its name: another load may have removed it before it was
/// locked.
fn is_under<R: Files>(files: &R, file: &File, name: &str) -> bool {
    match (file.metadata(), files.metadata(name)) {
        (Ok(open), Ok(there)) => open.dev() == there.dev() && open.ino() == there.ino(),
        _ => false,
    }
}
