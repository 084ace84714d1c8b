//! Rows with every combination of NULL, 0, 1 and 2 in three columns of integers.
use meaning::{JoinedRow, Row, Sequence, Text, Value};
use std::alloc::{AllocError, Global};
use vector_cases::{CaseColumn, Cells, Word};
use vectors::ColumnReference;

/// How many combinations there are.
pub const COMBINATIONS: usize = 64;

/// Where a column stands, and which of the three numbers of a combination its values are of.
#[derive(Clone, Copy)]
struct Source {
    reference: ColumnReference,
    is_text: bool,
    digit: u32,
}

const fn drawn_from(reference: ColumnReference, is_text: bool, digit: u32) -> Source {
    Source {
        reference,
        is_text,
        digit,
    }
}

// The fact has three columns of integers and two of texts, the joins one column and two, the group
// two keys and an aggregate.
fn sources() -> [Source; 10] {
    [
        drawn_from(ColumnReference::Fact { column: 0 }, false, 0),
        drawn_from(ColumnReference::Fact { column: 1 }, false, 1),
        drawn_from(ColumnReference::Fact { column: 2 }, false, 2),
        drawn_from(ColumnReference::Fact { column: 3 }, true, 0),
        drawn_from(ColumnReference::Fact { column: 4 }, true, 1),
        drawn_from(ColumnReference::Join { join: 0, column: 0 }, false, 0),
        drawn_from(ColumnReference::Join { join: 1, column: 1 }, true, 1),
        drawn_from(ColumnReference::Key { key: 0 }, false, 0),
        drawn_from(ColumnReference::Key { key: 1 }, true, 1),
        drawn_from(ColumnReference::Aggregate { aggregate: 0 }, false, 1),
    ]
}

/// NULL, 0, 1 or 2, or a text for each of these.
fn value_in(combination: usize, is_text: bool, digit: u32) -> Word<'static> {
    let number = match digit {
        0 => combination % 4,
        1 => combination / 4 % 4,
        _ => combination / 16 % 4,
    };
    match (number, is_text) {
        (1, false) => Word::Int(0),
        (2, false) => Word::Int(1),
        (3, false) => Word::Int(2),
        (1, true) => Word::Text(""),
        (2, true) => Word::Text("a"),
        (3, true) => Word::Text("ab"),
        _ => Word::Null,
    }
}

fn cells_of(
    alloc: Global,
    source: Source,
    first: usize,
    rows: usize,
) -> Result<Cells<'static>, AllocError> {
    let mut cells = Cells::masked(alloc, source.is_text);
    for row in 0..rows {
        let combination = row.wrapping_add(first) % COMBINATIONS;
        cells.push(value_in(combination, source.is_text, source.digit))?;
    }
    Ok(cells)
}

/// All columns over so many rows, of which the first has the combination `first`.
pub fn columns_from(
    alloc: Global,
    first: usize,
    rows: usize,
) -> Result<Vec<CaseColumn<'static>>, AllocError> {
    let mut columns = Vec::new(alloc);
    for source in sources().iter() {
        let cells = cells_of(alloc, *source, first, rows)?;
        columns.push(CaseColumn {
            reference: source.reference,
            cells,
        })?;
    }
    Ok(columns)
}

fn value(
    alloc: Global,
    combination: usize,
    is_text: bool,
    digit: u32,
) -> Result<Value, AllocError> {
    match value_in(combination, is_text, digit) {
        Word::Null => Ok(Value::Null),
        Word::Int(int) => Ok(Value::Int(int)),
        Word::Text(text) => Ok(Value::Text(Text::new(alloc, text)?)),
    }
}

fn row_of(alloc: Global, combination: usize, columns: &[(bool, u32)]) -> Result<Row, AllocError> {
    let mut values = Vec::new(alloc);
    for (is_text, digit) in columns {
        values.push(value(alloc, combination, *is_text, *digit)?)?;
    }
    Ok(Sequence::from_vec(values))
}

fn joins_of(alloc: Global, combination: usize) -> Result<Sequence<Row>, AllocError> {
    let mut joins = Vec::new(alloc);
    joins.push(row_of(alloc, combination, &[(false, 0)])?)?;
    joins.push(row_of(alloc, combination, &[(false, 2), (true, 1)])?)?;
    Ok(Sequence::from_vec(joins))
}

fn fact_of(alloc: Global, combination: usize) -> Result<Row, AllocError> {
    let columns = [(false, 0), (false, 1), (false, 2), (true, 0), (true, 1)];
    row_of(alloc, combination, &columns)
}

/// The row of the combination.
pub fn joined_row(alloc: Global, combination: usize) -> Result<JoinedRow, AllocError> {
    let fact = fact_of(alloc, combination)?;
    let joins = joins_of(alloc, combination)?;
    let key = row_of(alloc, combination, &[(false, 0), (true, 1)])?;
    let aggregates = row_of(alloc, combination, &[(false, 1)])?;
    Ok(JoinedRow {
        fact,
        joins,
        key,
        aggregates,
    })
}
