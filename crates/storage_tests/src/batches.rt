//! Values that are read out of blocks, and lent to a batch without a copy.
use crate::files::{Shape, file_of, integers, texts};
use columns::Column;
use encodings::{BlockView, VectorBuf};
use fragment_file::open;
use meaning::ValueRef;
use std::alloc::{AllocError, Global};
use std::test::Fail;
use vectors::{
    Batch, BatchColumn, ColumnReference, IntCells, Ints, Nulls, TextCells, Texts, Vector,
};

/// What was read last, as lanes.
fn lanes_of<'v>(buffer: &'v VectorBuf<'_>) -> Option<Vector<'v>> {
    let nulls = Nulls::Lent(buffer.nulls());
    if let Some(ints) = buffer.ints() {
        return Some(Vector::Ints(Ints::new(IntCells::Lent(ints), nulls)));
    }
    let texts = buffer.texts()?;
    Some(Vector::Texts(Texts::new(TextCells::Lent(texts), nulls)))
}

fn is_lane(lanes: &Vector<'_>, lane: usize, value: ValueRef<'_>) -> bool {
    match (lanes, value) {
        (Vector::Ints(ints), ValueRef::Null) => lane < ints.len() && ints.get(lane).is_none(),
        (Vector::Ints(ints), ValueRef::Int(n)) => lane < ints.len() && ints.get(lane) == Some(n),
        (Vector::Texts(texts), ValueRef::Null) => lane < texts.len() && texts.get(lane).is_none(),
        (Vector::Texts(texts), ValueRef::Text(text)) => {
            lane < texts.len() && texts.get(lane) == Some(text)
        }
        _ => false,
    }
}

/// Whether the lanes are rows of the column, from one on.
pub fn are_rows(lanes: &Vector<'_>, column: &Column, from: usize) -> bool {
    if from > column.len() || lanes.len() > column.len() - from {
        return false;
    }
    for lane in 0..lanes.len() {
        if !is_lane(lanes, lane, column.get(from + lane)) {
            return false;
        }
    }
    true
}

fn lends_rows<'v>(
    alloc: Global,
    buffer: &'v VectorBuf<'_>,
    column: &Column,
) -> Result<bool, AllocError> {
    let Some(lanes) = lanes_of(buffer) else {
        return Ok(false);
    };
    let reference = ColumnReference::Fact { column: 3 };
    let mut batch: Batch<'v> = Batch::new(alloc, lanes.len());
    batch.push(BatchColumn { reference, lanes })?;
    match batch.column(reference) {
        Some(lanes) => Ok(lanes.len() > 0 && are_rows(lanes, column, 0)),
        None => Ok(false),
    }
}

fn lends_block(alloc: Global, block: &BlockView<'_>, column: &Column) -> Result<bool, AllocError> {
    let mut buffer = VectorBuf::new(alloc, 1_024)?;
    block.read_into(0, &mut buffer);
    lends_rows(alloc, &buffer, column)
}

/// Whether a batch lends the column's first rows, read out of its file.
fn is_lent(alloc: Global, bytes: &[u8], column: &Column) -> Result<bool, AllocError> {
    match open(alloc, bytes) {
        Ok(view) if view.group_count() > 0 && view.group(0).column_count() > 0 => {
            lends_block(alloc, &view.group(0).column(0), column)
        }
        _ => Ok(false),
    }
}

#[test]
fn integers_are_lent(rt: HostRuntime) -> Result<(), Fail> {
    for nullable in [false, true] {
        for shape in [Shape::Wide, Shape::Runs] {
            let column = integers(rt.alloc(), shape, nullable, 1_500)?;
            let bytes = file_of(rt.alloc(), integers(rt.alloc(), shape, nullable, 1_500)?)?;
            assert!(rt; is_lent(rt.alloc(), &bytes, &column)?);
        }
    }
    Ok(())
}

#[test]
fn texts_are_lent(rt: HostRuntime) -> Result<(), Fail> {
    for nullable in [false, true] {
        let column = texts(rt.alloc(), Shape::Two, nullable, 1_500)?;
        let bytes = file_of(rt.alloc(), texts(rt.alloc(), Shape::Two, nullable, 1_500)?)?;
        assert!(rt; is_lent(rt.alloc(), &bytes, &column)?);
    }
    Ok(())
}
