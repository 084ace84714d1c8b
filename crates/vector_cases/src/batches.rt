//! Batches of a case's columns, and their lanes as cases show them.
use crate::cells::Cells;
use crate::words::truth_word;
use case_files::{show_int, show_text};
use std::alloc::{AllocError, Global};
use std::fmt::Write;
use std::mem::drop;
use vectors::{Batch, BatchColumn, ColumnReference, Vector};

/// The most rows of a batch.
pub const MOST_ROWS: usize = 4_096;

/// A column, and where an expression finds it.
#[derive(Drop)]
pub struct CaseColumn<'a> {
    pub reference: ColumnReference,
    pub cells: Cells<'a>,
}

/// Puts a column into the batch, unless it has another number of lanes than the batch has rows.
pub fn push<'c>(
    batch: &mut Batch<'c>,
    reference: ColumnReference,
    lanes: Vector<'c>,
) -> Result<(), AllocError> {
    if lanes.len() == batch.rows() {
        return batch.push(BatchColumn { reference, lanes });
    }
    drop(lanes);
    Ok(())
}

/// The columns as a batch of so many rows.
pub fn batch_of<'c>(
    alloc: Global,
    columns: &'c [CaseColumn<'_>],
    rows: usize,
) -> Result<Batch<'c>, AllocError> {
    let mut batch = Batch::new(alloc, rows);
    for column in columns {
        if let Some(lanes) = column.cells.lanes() {
            push(&mut batch, column.reference, lanes)?;
        }
    }
    Ok(batch)
}

/// Appends a blank and what the lane has.
pub fn show_lane(shown: &mut String, lanes: &Vector<'_>, lane: usize) -> Result<(), AllocError> {
    match lanes {
        Vector::Ints(ints) if lane < ints.len() => show_int(shown, ints.get(lane)),
        Vector::Texts(texts) if lane < texts.len() => show_text(shown, texts.get(lane)),
        Vector::Truths(truths) if lane < truths.len() => {
            write!(shown, " {}", truth_word(truths.get(lane)))
        }
        _ => shown.push_str(" (no lane)"),
    }
}

/// Appends all lanes, each behind a blank, and ends the line.
pub fn show_lanes(shown: &mut String, lanes: &Vector<'_>) -> Result<(), AllocError> {
    for lane in 0..lanes.len() {
        show_lane(shown, lanes, lane)?;
    }
    shown.push_str("\n")
}
