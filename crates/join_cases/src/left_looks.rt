//! Lookups of a left join.
use crate::looks::{FOREIGN, JOIN, batch_of, cells_of, position_at, selection_of, show_columns};
use hash_join::DimTable;
use std::alloc::{AllocError, Global};
use std::fmt::Write;
use std::mem::drop;
use vectors::{Batch, Selection, Vector};

/// The row or none for each position, unless the selection is of other rows.
fn look_up(
    alloc: Global,
    table: &DimTable,
    batch: &Batch<'_>,
    selection: &Selection,
) -> Result<Vec<Option<u32>>, AllocError> {
    if selection.below() != batch.rows() {
        return Err(AllocError);
    }
    table.lookup_left(alloc, batch, FOREIGN, selection)
}

fn show_row(shown: &mut String, position: usize, row: Option<u32>) -> Result<(), AllocError> {
    match row {
        None => write!(shown, " {position}>none"),
        Some(row) => write!(shown, " {position}>{row}"),
    }
}

fn show_rows(
    shown: &mut String,
    selection: &Selection,
    rows: &[Option<u32>],
) -> Result<(), AllocError> {
    write!(shown, "{} left", rows.len())?;
    for k in 0..rows.len() {
        show_row(shown, position_at(selection, k), rows[k])?;
    }
    shown.push_str("\n")
}

fn attach<'a>(
    alloc: Global,
    table: &'a DimTable,
    batch: &mut Batch<'a>,
    selection: &Selection,
    rows: &[Option<u32>],
) -> Result<(), AllocError> {
    if selection.below() != batch.rows() || rows.len() != selection.len() {
        return Err(AllocError);
    }
    table.attach_left(alloc, batch, JOIN, selection, rows)
}

fn show_attached<'a>(
    alloc: Global,
    shown: &mut String,
    table: &'a DimTable,
    batch: &mut Batch<'a>,
    at: &str,
) -> Result<(), AllocError> {
    let selection = selection_of(alloc, batch.rows(), at)?;
    let rows = look_up(alloc, table, batch, &selection)?;
    show_rows(shown, &selection, rows.as_slice())?;
    attach(alloc, table, batch, &selection, rows.as_slice())?;
    show_columns(shown, batch)
}

fn show_lanes<'a>(
    alloc: Global,
    shown: &mut String,
    table: &'a DimTable,
    lanes: Vector<'a>,
    at: &str,
) -> Result<(), AllocError> {
    let mut batch = batch_of(alloc, lanes)?;
    let ended = show_attached(alloc, shown, table, &mut batch, at);
    drop(batch);
    ended
}

/// The row of each position, or none, and the columns that are attached.
pub fn show_left(
    alloc: Global,
    shown: &mut String,
    table: &DimTable,
    words: &[&str],
    at: &str,
) -> Result<(), AllocError> {
    let cells = cells_of(alloc, words)?;
    let Some(lanes) = cells.lanes() else {
        return shown.push_str("no lanes\n");
    };
    show_lanes(alloc, shown, table, lanes, at)
}
