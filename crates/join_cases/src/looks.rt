//! Lookups in a dimension.
use crate::left_looks::show_left;
use hash_join::DimTable;
use meaning::Truth;
use std::alloc::{AllocError, Global};
use std::fmt::Write;
use std::mem::drop;
use vector_cases::{Cells, Steps, Word, mask_of, quoted, show_lanes, steps_of, word_of};
use vectors::{
    Batch, BatchColumn, ColumnReference, IntCells, Ints, Nulls, Selection, TruthCells, Truths,
    Vector,
};

/// Lanes of a vector of generated keys.
const LANES: usize = 1_024;

pub const FOREIGN: usize = 3;

pub const JOIN: usize = 5;

/// The positions that a word names, apart by commas, or all of them.
pub fn selection_of(alloc: Global, rows: usize, positions: &str) -> Result<Selection, AllocError> {
    let mut selection = Selection::all(alloc, u32::try_from(rows).unwrap_or(0))?;
    if positions != "all" {
        let mask = mask_of(alloc, selection.below(), positions, ',')?;
        selection.keep_marked(mask.as_slice());
    }
    Ok(selection)
}

pub fn batch_of<'c>(alloc: Global, lanes: Vector<'c>) -> Result<Batch<'c>, AllocError> {
    let mut batch = Batch::new(alloc, lanes.len());
    batch.push(BatchColumn {
        reference: ColumnReference::Fact { column: FOREIGN },
        lanes,
    })?;
    Ok(batch)
}

/// The row at each position that is left, unless the selection is of other rows.
fn look_up(
    alloc: Global,
    table: &DimTable,
    batch: &Batch<'_>,
    selection: &mut Selection,
) -> Result<Vec<u32>, AllocError> {
    if selection.below() != batch.rows() {
        return Err(AllocError);
    }
    table.lookup(alloc, batch, FOREIGN, selection)
}

pub fn position_at(selection: &Selection, k: usize) -> usize {
    match selection.positions() {
        None => k,
        Some(positions) => positions
            .get(k)
            .map_or(usize::MAX, |position| *position as usize),
    }
}

/// The row at a position.
fn row_at(rows: &[u32], position: usize) -> u32 {
    rows.get(position).copied().unwrap_or(u32::MAX)
}

fn show_rows(shown: &mut String, selection: &Selection, rows: &[u32]) -> Result<(), AllocError> {
    write!(shown, "{} met", selection.len())?;
    for k in 0..selection.len() {
        let position = position_at(selection, k);
        write!(shown, " {position}>{}", row_at(rows, position))?;
    }
    shown.push_str("\n")
}

fn show_column(shown: &mut String, batch: &Batch<'_>, column: usize) -> Result<(), AllocError> {
    let reference = ColumnReference::Join { join: JOIN, column };
    let Some(lanes) = batch.column(reference) else {
        return Ok(());
    };
    write!(shown, "column {column}")?;
    show_lanes(shown, lanes)
}

pub fn show_columns(shown: &mut String, batch: &Batch<'_>) -> Result<(), AllocError> {
    for column in 0..10 {
        show_column(shown, batch, column)?;
    }
    Ok(())
}

fn attach<'a>(
    alloc: Global,
    table: &'a DimTable,
    batch: &mut Batch<'a>,
    selection: &Selection,
    rows: &[u32],
) -> Result<(), AllocError> {
    if selection.below() != batch.rows() || rows.len() != batch.rows() {
        return Err(AllocError);
    }
    table.attach(alloc, batch, JOIN, selection, rows)
}

fn show_look(
    alloc: Global,
    shown: &mut String,
    table: &DimTable,
    batch: &Batch<'_>,
    at: &str,
) -> Result<(), AllocError> {
    let mut selection = selection_of(alloc, batch.rows(), at)?;
    let rows = look_up(alloc, table, batch, &mut selection)?;
    show_rows(shown, &selection, rows.as_slice())
}

fn show_attached<'a>(
    alloc: Global,
    shown: &mut String,
    table: &'a DimTable,
    batch: &mut Batch<'a>,
    at: &str,
) -> Result<(), AllocError> {
    let mut selection = selection_of(alloc, batch.rows(), at)?;
    let rows = look_up(alloc, table, batch, &mut selection)?;
    show_rows(shown, &selection, rows.as_slice())?;
    attach(alloc, table, batch, &selection, rows.as_slice())?;
    show_columns(shown, batch)
}

fn show_looked_up(
    alloc: Global,
    shown: &mut String,
    table: &DimTable,
    lanes: Vector<'_>,
    at: &str,
) -> Result<(), AllocError> {
    let batch = batch_of(alloc, lanes)?;
    let ended = show_look(alloc, shown, table, &batch, at);
    drop(batch);
    ended
}

fn show_attached_lanes<'a>(
    alloc: Global,
    shown: &mut String,
    table: &'a DimTable,
    lanes: Vector<'a>,
    at: &str,
) -> Result<(), AllocError> {
    let mut batch = batch_of(alloc, lanes)?;
    let ended = show_attached(alloc, shown, table, &mut batch, at);
    drop(batch);
    ended
}

fn has_text(words: &[&str]) -> bool {
    words.iter().any(|word| quoted(word).is_some())
}

pub fn cells_of<'a>(alloc: Global, words: &[&'a str]) -> Result<Cells<'a>, AllocError> {
    let mut cells = Cells::new(alloc, has_text(words));
    for word in words {
        cells.push(word_of(word))?;
    }
    Ok(cells)
}

fn show_words(
    alloc: Global,
    shown: &mut String,
    table: &DimTable,
    words: &[&str],
    at: &str,
) -> Result<(), AllocError> {
    let cells = cells_of(alloc, words)?;
    let Some(lanes) = cells.lanes() else {
        return shown.push_str("no lanes\n");
    };
    show_looked_up(alloc, shown, table, lanes, at)
}

fn show_attached_words(
    alloc: Global,
    shown: &mut String,
    table: &DimTable,
    words: &[&str],
    at: &str,
) -> Result<(), AllocError> {
    let cells = cells_of(alloc, words)?;
    let Some(lanes) = cells.lanes() else {
        return shown.push_str("no lanes\n");
    };
    show_attached_lanes(alloc, shown, table, lanes, at)
}

/// How many keys meet a row, and the sum of those rows' numbers.
#[derive(Clone, Copy)]
struct Met {
    keys: usize,
    rows: u64,
}

fn sum_of(selection: &Selection, rows: &[u32]) -> u64 {
    let mut sum = 0u64;
    for k in 0..selection.len() {
        let row = row_at(rows, position_at(selection, k));
        sum = sum.wrapping_add(u64::from(row));
    }
    sum
}

fn met_in(alloc: Global, table: &DimTable, lanes: Vector<'_>) -> Result<Met, AllocError> {
    let batch = batch_of(alloc, lanes)?;
    let found = found_in(alloc, table, &batch);
    drop(batch);
    found
}

fn found_in(alloc: Global, table: &DimTable, batch: &Batch<'_>) -> Result<Met, AllocError> {
    let mut selection = selection_of(alloc, batch.rows(), "all")?;
    let rows = look_up(alloc, table, batch, &mut selection)?;
    Ok(Met {
        keys: selection.len(),
        rows: sum_of(&selection, rows.as_slice()),
    })
}

fn cells_from<'a>(alloc: Global, steps: Steps, start: usize) -> Result<Cells<'a>, AllocError> {
    let mut cells = Cells::new(alloc, false);
    for k in start..steps.count.min(start.saturating_add(LANES)) {
        cells.push(Word::Int(steps.at(k)))?;
    }
    Ok(cells)
}

fn met_from(
    alloc: Global,
    table: &DimTable,
    steps: Steps,
    start: usize,
) -> Result<Met, AllocError> {
    let cells = cells_from(alloc, steps, start)?;
    match cells.lanes() {
        None => Ok(Met { keys: 0, rows: 0 }),
        Some(lanes) => met_in(alloc, table, lanes),
    }
}

fn show_steps(
    alloc: Global,
    shown: &mut String,
    table: &DimTable,
    steps: Steps,
) -> Result<(), AllocError> {
    let mut all = Met { keys: 0, rows: 0 };
    for vector in 0..steps.count.div_ceil(LANES) {
        let met = met_from(alloc, table, steps, vector.wrapping_mul(LANES))?;
        all.keys = all.keys.wrapping_add(met.keys);
        all.rows = all.rows.wrapping_add(met.rows);
    }
    writeln!(
        shown,
        "{} of {} met, positions {}",
        all.keys, steps.count, all.rows
    )
}

fn show_generated(
    alloc: Global,
    shown: &mut String,
    table: &DimTable,
    words: &[&str],
) -> Result<(), AllocError> {
    match steps_of(words) {
        None => show_words(alloc, shown, table, words, "all"),
        Some(steps) => show_steps(alloc, shown, table, steps),
    }
}

fn show_without(
    alloc: Global,
    shown: &mut String,
    table: &DimTable,
    rows: usize,
) -> Result<(), AllocError> {
    let batch = Batch::new(alloc, rows);
    let ended = show_look(alloc, shown, table, &batch, "all");
    drop(batch);
    ended
}

fn count_of(word: &str) -> usize {
    word.parse::<usize>().unwrap_or(0).min(LANES)
}

/// One integer in so many lanes.
fn repeated(int: i64, lanes: usize) -> Vector<'static> {
    Vector::Ints(Ints::new(IntCells::Repeated { cell: int, lanes }, Nulls::None))
}

/// TRUE in so many lanes.
fn truths(lanes: usize) -> Vector<'static> {
    Vector::Truths(Truths::new(TruthCells::Repeated {
        truth: Truth::True,
        lanes,
    }))
}

fn show_step(
    alloc: Global,
    shown: &mut String,
    table: &DimTable,
    words: &[&str],
) -> Result<(), AllocError> {
    match words {
        ["look", words @ ..] => show_generated(alloc, shown, table, words),
        ["look-at", at, words @ ..] => show_words(alloc, shown, table, words, at),
        ["attach", words @ ..] => show_attached_words(alloc, shown, table, words, "all"),
        ["attach-at", at, words @ ..] => show_attached_words(alloc, shown, table, words, at),
        ["left", words @ ..] => show_left(alloc, shown, table, words, "all"),
        _ => show_rare(alloc, shown, table, words),
    }
}

fn show_rare(
    alloc: Global,
    shown: &mut String,
    table: &DimTable,
    words: &[&str],
) -> Result<(), AllocError> {
    match words {
        ["left-at", at, words @ ..] => show_left(alloc, shown, table, words, at),
        ["without", rows] => show_without(alloc, shown, table, count_of(rows)),
        ["truths", rows] => show_looked_up(alloc, shown, table, truths(count_of(rows)), "all"),
        ["repeat", int, rows] => {
            let lanes = repeated(int.parse().unwrap_or(0), count_of(rows));
            show_looked_up(alloc, shown, table, lanes, "all")
        }
        _ => Ok(()),
    }
}

fn show_line(
    alloc: Global,
    shown: &mut String,
    table: &DimTable,
    line: &str,
) -> Result<(), AllocError> {
    let words: Vec<&str> = line.split(' ').collect(alloc)?;
    show_step(alloc, shown, table, words.as_slice())
}

/// What each lookup shows.
pub fn show_all(
    alloc: Global,
    shown: &mut String,
    table: &DimTable,
    body: &str,
) -> Result<(), AllocError> {
    shown.push_str("built\n")?;
    for line in body.lines() {
        show_line(alloc, shown, table, line)?;
    }
    Ok(())
}
