//! A batch of two columns.
use crate::batches::{push, show_lanes};
use crate::lanes::lines::{Lines, lines_of};
use crate::lanes::tests::{first_ints, first_nulls};
use crate::lanes::texts::second_texts;
use std::alloc::{AllocError, Global};
use std::fmt::Write;
use std::mem::drop;
use vectors::{Batch, ColumnReference, IntCells, Ints, Nulls, TextCells, Texts, Vector};

fn show_column(
    shown: &mut String,
    batch: &Batch<'_>,
    reference: ColumnReference,
) -> Result<(), AllocError> {
    match batch.column(reference) {
        None => shown.push_str("none\n"),
        Some(lanes) => show_lanes(shown, lanes),
    }
}

fn batch_of<'a>(
    alloc: Global,
    ints: &'a [i64; 8],
    nulls: &'a [bool; 8],
    texts: &'a [&'a [u8]; 8],
) -> Result<Batch<'a>, AllocError> {
    let mut batch = Batch::new(alloc, 8);
    let numbers = Vector::Ints(Ints::new(IntCells::Lent(ints), Nulls::Lent(nulls)));
    push(&mut batch, ColumnReference::Fact { column: 0 }, numbers)?;
    let words = Vector::Texts(Texts::new(TextCells::Lent(texts), Nulls::None));
    push(&mut batch, ColumnReference::Fact { column: 3 }, words)?;
    Ok(batch)
}

fn show_batch(shown: &mut String, batch: &Batch<'_>) -> Result<(), AllocError> {
    writeln!(shown, "{} rows", batch.rows())?;
    show_column(shown, batch, ColumnReference::Fact { column: 0 })?;
    show_column(shown, batch, ColumnReference::Fact { column: 3 })?;
    show_column(shown, batch, ColumnReference::Key { key: 0 })
}

/// The fact's columns 0, of integers, and 3, of texts, in all eight lanes; then a column that isn't
/// there.
pub fn show(alloc: Global, shown: &mut String, body: &str) -> Result<(), AllocError> {
    let Lines { lines, .. } = lines_of(body);
    let ints = first_ints(&lines);
    let nulls = first_nulls(&lines);
    let texts = second_texts(&lines);
    match batch_of(alloc, &ints, &nulls, &texts) {
        Err(error) => Err(error),
        Ok(batch) => {
            let shown = show_batch(shown, &batch);
            drop(batch);
            shown
        }
    }
}
