//! The block of a case: its values, again and again up to so many rows.
use columns::{Column, ColumnFault};
use encodings::Kind;
use meaning::ColType;
use std::alloc::{AllocError, Global};
use std::mem::drop;
use vector_cases::{Word, word_of};

/// A block as a record's words describe it, and the lengths of the vectors that are asked.
#[derive(Clone, Copy)]
pub struct Asked<'a> {
    pub kind: Kind,
    pub col_type: ColType,
    pub nullable: bool,
    pub rows: usize,
    pub lengths: &'a [&'a str],
}

fn kind_of(word: &str) -> Option<Kind> {
    match word {
        "plain" => Some(Kind::Plain),
        "dict" => Some(Kind::Dict),
        "runs" => Some(Kind::Runs),
        "frame" => Some(Kind::Frame),
        _ => None,
    }
}

fn type_of(word: &str) -> Option<ColType> {
    match word {
        "int" => Some(ColType::Int),
        "text" => Some(ColType::Text),
        _ => None,
    }
}

fn asked_as<'a>(
    kind: &str,
    col_type: &str,
    nullable: bool,
    rows: &str,
    lengths: &'a [&'a str],
) -> Option<Asked<'a>> {
    Some(Asked {
        kind: kind_of(kind)?,
        col_type: type_of(col_type)?,
        nullable,
        rows: rows.parse().ok()?,
        lengths,
    })
}

/// The words behind the kind of a case: `dict text null rows 5 by 1 3`.
pub fn block_asked<'a>(words: &'a [&'a str]) -> Option<Asked<'a>> {
    match words {
        [kind, col_type, "null", "rows", rows, "by", lengths @ ..] => {
            asked_as(kind, col_type, true, rows, lengths)
        }
        [kind, col_type, "rows", rows, "by", lengths @ ..] => {
            asked_as(kind, col_type, false, rows, lengths)
        }
        _ => None,
    }
}

/// The values of a record's lines, but for its conditions.
pub fn values_of<'a>(alloc: Global, body: &'a str) -> Result<Vec<Word<'a>>, AllocError> {
    let mut values = Vec::new(alloc);
    for line in body.lines() {
        if !line.starts_with("where ") {
            values.push(word_of(line))?;
        }
    }
    Ok(values)
}

/// The value of a row: the values come again and again.
pub fn value_at<'a>(values: &[Word<'a>], row: usize) -> Word<'a> {
    if values.is_empty() {
        return Word::Null;
    }
    values[row % values.len()]
}

fn push_value(column: &mut Column, value: Word<'_>) -> Result<(), ColumnFault> {
    match value {
        Word::Null => column.push_null(),
        Word::Int(int) => column.push_int(int),
        Word::Text(text) => column.push_text(text),
    }
}

fn push_rows(column: &mut Column, values: &[Word<'_>], rows: usize) -> Result<(), AllocError> {
    for row in 0..rows {
        if let Err(ColumnFault::Memory) = push_value(column, value_at(values, row)) {
            return Err(AllocError);
        }
    }
    Ok(())
}

/// The column of so many rows. What doesn't fit is left out.
pub fn column_of(
    alloc: Global,
    asked: Asked<'_>,
    values: &[Word<'_>],
) -> Result<Column, AllocError> {
    let mut column = Column::new(alloc, asked.col_type, asked.nullable);
    match push_rows(&mut column, values, asked.rows) {
        Ok(()) => Ok(column),
        Err(fault) => {
            drop(column);
            Err(fault)
        }
    }
}
