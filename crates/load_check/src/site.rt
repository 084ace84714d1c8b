//! A table's file, in which places are found.
use csv::ByteRecord;
use csv_lines::{line_of, record_at};
use folders::{Folder, Refusal, load_refusal, open_file};
use loader::LoadFault;
use meaning::{Column, Table, Text};
use std::alloc::Global;

/// A table, and where its file is.
#[derive(Clone, Copy)]
pub struct Site<'a> {
    pub directory: &'a str,
    pub path: &'a Text,
    pub table: &'a Table,
    /// The column that is the key of a dimension.
    pub key: Option<usize>,
}

impl Site<'_> {
    /// The refusal of a file that can't be read to its end.
    pub fn refusal(&self, alloc: Global, fault: LoadFault) -> Refusal {
        load_refusal(alloc, self.directory, self.table.name.as_str(), fault)
    }

    /// The column of this number, if there is one.
    pub fn column(&self, index: u64) -> Option<&Column> {
        let index = usize::try_from(index).ok()?;
        self.table.columns.get(index)
    }

    /// The record of this index; that of index 0 is the header.
    pub fn record<F: Folder>(
        &self,
        alloc: Global,
        folder: &F,
        index: u64,
    ) -> Result<Option<ByteRecord>, Refusal> {
        let file = open_file(folder, self.path)?;
        match record_at(alloc, file, index) {
            Ok(record) => Ok(record),
            Err(fault) => Err(self.refusal(alloc, fault)),
        }
    }

    /// The line on which the record of this index begins.
    pub fn line<F: Folder>(&self, alloc: Global, folder: &F, index: u64) -> Result<u64, Refusal> {
        let file = open_file(folder, self.path)?;
        match line_of(alloc, file, index) {
            Ok(line) => Ok(line.unwrap_or(1)),
            Err(fault) => Err(self.refusal(alloc, fault)),
        }
    }
}

/// The index of the record of a row; a file of so many rows as 64 bits count is none.
pub fn record_of(row: u64) -> u64 {
    row.saturating_add(1)
}

/// The index of the first field of a header that names the column.
pub fn field_of(header: &ByteRecord, column: &str) -> Option<usize> {
    for index in 0..header.len() {
        if let Some(field) = header.get(index) {
            if field.eq_ignore_ascii_case(column.as_bytes()) {
                return Some(index);
            }
        }
    }
    None
}
