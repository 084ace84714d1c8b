//! The CSV files of a folder in memory.
use crate::stored_folder::StoredFolder;
use init::{CsvFile, Listing};
use std::alloc::Global;
use std::io;

// The table of a CSV file that lies right in a folder.
fn table_in<'a>(path: &'a str, directory: &str) -> Option<&'a str> {
    let folder = directory.strip_suffix("/").unwrap_or(directory);
    let name = path.strip_prefix(folder)?.strip_prefix("/")?;
    if name.as_bytes().contains(&b'/') {
        return None;
    }
    name.strip_suffix(".csv")
}

impl Listing for StoredFolder<'_> {
    fn csv_files(&self, alloc: Global, directory: &str) -> io::Result<Vec<CsvFile>> {
        let mut found = Vec::new(alloc);
        for file in self.files() {
            if let Some(table) = table_in(file.path.as_str(), directory) {
                found.push(CsvFile {
                    table: String::from_str(alloc, table)?,
                    bytes: file.bytes.len() as u64,
                })?;
            }
        }
        Ok(found)
    }
}
