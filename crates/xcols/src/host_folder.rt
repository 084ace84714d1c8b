//! The files of the host.
use crate::file_disk::FileDisk;
use crate::load_names::{LoadNames, is_load_file};
use crate::load_run::LoadRun;
use crate::part_file::{Part, PartFile};
use crate::progress::{Progress, Watched};
use crate::written_path::written_path;
use cli::Folder;
use std::alloc::Global;
use std::fs::{File, OpenOptions};
use std::io::ErrorKind;
use std::path::{Path, PathBuf};
use std::rt::Files;
use std::{fs, io};

/// The files of the host. Their bytes are not known to contracts.
///
/// A file is written under a name of its own, and renamed to its path once its bytes are on the
/// disk. So no half file lies under the path itself: neither where a run is stopped in the middle,
/// nor where runs write the same path at once.
#[derive(Drop)]
pub struct HostFolder<'a, R: Files> {
    alloc: Global,
    files: &'a R,
    progress: Option<&'a Progress<'a>>,
    // Since the first file of a load was created.
    run: Option<LoadRun<'a, R>>,
    // What lies in the folder from which files are removed, until another is put there.
    names: Option<LoadNames>,
}

impl<'a, R: Files> HostFolder<'a, R> {
    /// With a progress, each file that is read says how far it has come.
    pub fn new(
        alloc: Global,
        files: &'a R,
        progress: Option<&'a Progress<'a>>,
    ) -> HostFolder<'a, R> {
        HostFolder {
            alloc,
            files,
            progress,
            run: None,
            names: None,
        }
    }

    /// The files of the host.
    pub fn files(&self) -> &R {
        self.files
    }
}

impl<'a, R: Files<File = File> + Alloc + Clone + Drop> HostFolder<'a, R> {
    /// An empty file of a load.
    fn create_of_load(&mut self, path: PathBuf) -> io::Result<PartFile<'a, R>> {
        if self.run.is_none() {
            self.begin(path.as_path())?;
        }
        match &mut self.run {
            Some(run) if run.has(path.as_path()) => run.create(path),
            _ => PartFile::new(self.alloc, self.files, path),
        }
    }

    /// Begins the load that writes the file of this path.
    fn begin(&mut self, path: Path<'_>) -> io::Result<()> {
        if let Some(folder) = path.parent() {
            self.run = Some(LoadRun::begin(self.alloc, self.files, folder)?);
        }
        Ok(())
    }

    /// Whether the file of a path may be there. A folder's names are read once.
    fn may_be_there(&mut self, path: Path<'_>) -> bool {
        let (Some(folder), Some(name)) = (path.parent(), path.file_name()) else {
            return true;
        };
        if !is_load_file(name) {
            return true;
        }
        self.list(folder);
        match &self.names {
            Some(names) if names.are_of(folder) => names.has(name),
            _ => true,
        }
    }

    // Where the names can't be read, none are known.
    fn list(&mut self, folder: Path<'_>) {
        if let Some(names) = &self.names {
            if names.are_of(folder) {
                return;
            }
        }
        self.names = LoadNames::of(self.alloc, self.files, folder).ok();
    }
}

impl<'a, R: Files<File = File> + Alloc + Clone + Drop> Folder for HostFolder<'a, R> {
    type Reader = Watched<'a>;

    type Writer = PartFile<'a, R>;

    type Closed = Part<'a, R>;

    type Disk = FileDisk;

    fn open(&self, path: &str) -> io::Result<Watched<'a>> {
        Ok(Watched::new(fs::open(self.files, path)?, path, self.progress))
    }

    // One that another program has locked can't be opened.
    fn disk(&self, path: &str) -> io::Result<FileDisk> {
        let file = OpenOptions::new()
            .read(true)
            .write(true)
            .create(true)
            .open(self.files, path)?;
        file.try_lock()?;
        Ok(FileDisk::new(file))
    }

    // Where the path is that of a link, the file that it leads to is written, and the link stays.
    fn create(&mut self, path: &str) -> io::Result<PartFile<'a, R>> {
        let path = written_path(self.alloc, self.files, path)?;
        match path.file_name() {
            Some(name) if is_load_file(name) => self.create_of_load(path),
            _ => PartFile::new(self.alloc, self.files, path),
        }
    }

    fn close(&mut self, file: PartFile<'a, R>) -> io::Result<Part<'a, R>> {
        file.close()
    }

    // The part knows the path that it was made for.
    fn finish(&mut self, _path: &str, file: Part<'a, R>) -> io::Result<()> {
        self.names = None;
        file.finish()
    }

    fn remove(&mut self, path: &str) -> io::Result<()> {
        if !self.may_be_there(Path::new(path)) {
            return Ok(());
        }
        match fs::remove_file(self.files, path) {
            Ok(()) => Ok(()),
            Err(error) => match error.kind() {
                ErrorKind::NotFound => Ok(()),
                _ => Err(error),
            },
        }
    }
}
