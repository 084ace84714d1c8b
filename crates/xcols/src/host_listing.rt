//! The CSV files that lie in a folder of the host.
use crate::host_folder::HostFolder;
use init::{CsvFile, Listing};
use std::alloc::Global;
use std::fs::{DirEntry, File, ReadDir};
use std::mem::drop;
use std::path::Path;
use std::rt::Files;
use std::{fs, io};

// None where the path is that of a folder, or of another file.
fn csv_file<R: Files>(
    alloc: Global,
    files: &R,
    name: &str,
    path: Path<'_>,
) -> io::Result<Option<CsvFile>> {
    let Some(table) = name.strip_suffix(".csv") else {
        return Ok(None);
    };
    let metadata = fs::metadata(files, path)?;
    if metadata.is_dir() {
        return Ok(None);
    }
    Ok(Some(CsvFile {
        table: String::from_str(alloc, table)?,
        bytes: metadata.len(),
    }))
}

// Puts the file of an entry among those that were found, where it is a CSV file.
fn add_entry<R: Files + Alloc + Clone + Drop>(
    alloc: Global,
    files: &R,
    entry: &DirEntry<R, R::A>,
    found: &mut Vec<CsvFile>,
) -> io::Result<()> {
    if let Some(file) = csv_file(alloc, files, entry.file_name(), entry.path())? {
        found.push(file)?;
    }
    Ok(())
}

fn add_if_read<R: Files + Alloc + Clone + Drop>(
    alloc: Global,
    files: &R,
    entry: io::Result<DirEntry<R, R::A>>,
    found: &mut Vec<CsvFile>,
) -> io::Result<()> {
    let entry = entry?;
    add_entry(alloc, files, &entry, found)
}

fn add_entries<R: Files + Alloc + Clone + Drop>(
    alloc: Global,
    files: &R,
    entries: ReadDir<R, R::A>,
    found: &mut Vec<CsvFile>,
) -> io::Result<()> {
    for entry in entries {
        add_if_read(alloc, files, entry, found)?;
    }
    Ok(())
}

fn add_files<R: Files + Alloc + Clone + Drop>(
    alloc: Global,
    files: &R,
    directory: &str,
    found: &mut Vec<CsvFile>,
) -> io::Result<()> {
    let entries = fs::read_dir(files, directory)?;
    add_entries(alloc, files, entries, found)
}

// Puts the name of an entry that is no `NAME.csv` among those that were found.
fn add_name<R: Files + Alloc + Clone + Drop>(
    alloc: Global,
    entry: io::Result<DirEntry<R, R::A>>,
    found: &mut Vec<String>,
) -> io::Result<()> {
    let entry = entry?;
    if entry.file_name().ends_with(".csv") {
        return Ok(());
    }
    found.push(String::from_str(alloc, entry.file_name())?)?;
    Ok(())
}

fn add_names<R: Files + Alloc + Clone + Drop>(
    alloc: Global,
    files: &R,
    directory: &str,
    found: &mut Vec<String>,
) -> io::Result<()> {
    for entry in fs::read_dir(files, directory)? {
        add_name(alloc, entry, found)?;
    }
    Ok(())
}

impl<'a, R: Files<File = File> + Alloc + Clone + Drop> Listing for HostFolder<'a, R> {
    fn csv_files(&self, alloc: Global, directory: &str) -> io::Result<Vec<CsvFile>> {
        let mut found = Vec::new(alloc);
        match add_files(alloc, self.files(), directory, &mut found) {
            Ok(()) => Ok(found),
            Err(error) => {
                drop(found);
                Err(error)
            }
        }
    }

    fn other_files(&self, alloc: Global, directory: &str) -> io::Result<Vec<String>> {
        let mut found = Vec::new(alloc);
        match add_names(alloc, self.files(), directory, &mut found) {
            Ok(()) => {
                found.sort()?;
                Ok(found)
            }
            Err(error) => {
                drop(found);
                Err(error)
            }
        }
    }
}
