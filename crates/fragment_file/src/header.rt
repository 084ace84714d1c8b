//! What a fragment file says of itself.
ghost use Rattle.std.specs.Prelude.{◌≡◌, IfOk};
ghost use Rattle.fragment_file.specs.Fragment.{table_header};

use meaning::{Column, Sequence, Table, Text};
use std::alloc::{AllocError, Global};

/// What stands in front of the row groups.
#[derive(Drop)]
pub struct Header {
    /// The number of the load that made the file.
    pub load: u64,
    /// The table's name.
    pub table: Text,
    /// Which fragment of the cut it is, from 0; of a dimension 0.
    pub fragment: u32,
    /// The number of the first row in the whole table, from 0; of a dimension 0.
    pub first_row: u64,
    /// How many rows the file has.
    pub rows: u32,
    /// In the order of the catalogue.
    pub columns: Sequence<Column>,
}

/// Which rows of a table a file has, as in [`Header`].
#[derive(Clone, Copy)]
pub struct Slice {
    pub fragment: u32,
    pub first_row: u64,
    pub rows: u32,
}

fn copy_columns(alloc: Global, columns: &[Column]) -> Result<Sequence<Column>, AllocError>
    ensures { IfOk result (λ copy. copy ≡ columns.now) }
{
    let mut copy = Sequence::new(alloc);
    for column in columns {
        copy.push(Column {
            name: column.name.clone()?,
            col_type: column.col_type,
            nullable: column.nullable,
        })?;
    }
    Ok(copy)
}

impl Header {
    /// The header of a file that has these rows of a table.
    ///
    /// # Errors
    ///
    /// Out of memory.
    pub fn of_table(
        alloc: Global,
        load: u64,
        table: &Table,
        slice: Slice,
    ) -> Result<Header, AllocError>
        ensures { IfOk result (λ header. header ≡ table_header load table.now slice) }
    {
        Ok(Header {
            load,
            table: table.name.clone()?,
            fragment: slice.fragment,
            first_row: slice.first_row,
            rows: slice.rows,
            columns: copy_columns(alloc, table.columns.as_slice())?,
        })
    }

    /// The same header again.
    ///
    /// # Errors
    ///
    /// Out of memory.
    pub fn copy(&self, alloc: Global) -> Result<Header, AllocError>
        ensures { IfOk result (λ copy. copy ≡ self.now) }
    {
        Ok(Header {
            load: self.load,
            table: self.table.clone()?,
            fragment: self.fragment,
            first_row: self.first_row,
            rows: self.rows,
            columns: copy_columns(alloc, self.columns.as_slice())?,
        })
    }
}
