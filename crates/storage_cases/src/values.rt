//! Types and values as words.
use columns::{Column, ColumnFault};
use meaning::{ColType, ValueRef};
use std::alloc::{AllocError, Global};
use std::fmt::Write;
use std::mem::drop;

// A longer text is shown by its length.
const MOST_TEXT: usize = 100;

/// The type of a column, whether NULL may stand in it, and the words behind.
pub fn type_of<'a>(words: &'a [&'a str]) -> Option<(ColType, bool, &'a [&'a str])> {
    match words {
        ["int", "null", behind @ ..] => Some((ColType::Int, true, behind)),
        ["int", behind @ ..] => Some((ColType::Int, false, behind)),
        ["text", "null", behind @ ..] => Some((ColType::Text, true, behind)),
        ["text", behind @ ..] => Some((ColType::Text, false, behind)),
        _ => None,
    }
}

pub fn type_word(col_type: ColType) -> &'static str {
    match col_type {
        ColType::Int => "int",
        ColType::Text => "text",
    }
}

fn show_text(shown: &mut String, bytes: &[u8]) -> Result<(), AllocError> {
    let text = std::str::from_utf8(bytes).unwrap_or("?");
    if text.len() > MOST_TEXT {
        write!(shown, " ({} bytes)", text.len())
    } else {
        write!(shown, " '{text}'")
    }
}

/// Appends a blank and a value: `\N`, an integer, or a text in single quotes.
pub fn show_value(shown: &mut String, value: ValueRef<'_>) -> Result<(), AllocError> {
    match value {
        ValueRef::Null => shown.push_str(" \\N"),
        ValueRef::Int(number) => write!(shown, " {number}"),
        ValueRef::Text(bytes) => show_text(shown, bytes),
    }
}

/// Appends a line of a column's values behind a word.
pub fn show_values(shown: &mut String, word: &str, column: &Column) -> Result<(), AllocError> {
    shown.push_str(word)?;
    for row in 0..column.len() {
        show_value(shown, column.get(row))?;
    }
    shown.push_str("\n")
}

fn unquoted(line: &str) -> &str {
    let behind = line.strip_prefix('\'').unwrap_or(line);
    behind.strip_suffix('\'').unwrap_or(behind)
}

fn push_value(column: &mut Column, line: &str) -> Result<(), ColumnFault> {
    if line == "\\N" {
        return column.push_null();
    }
    match column.col_type() {
        ColType::Int => column.push_int(line.parse().unwrap_or(0)),
        ColType::Text => column.push_text(unquoted(line)),
    }
}

fn push_values(column: &mut Column, body: &str) -> Result<(), AllocError> {
    for line in body.lines() {
        if let Err(ColumnFault::Memory) = push_value(column, line) {
            return Err(AllocError);
        }
    }
    Ok(())
}

/// The column of a record's lines: a value a line, as they are shown. What doesn't fit is left out.
pub fn column_of(
    alloc: Global,
    col_type: ColType,
    nullable: bool,
    body: &str,
) -> Result<Column, AllocError> {
    let mut column = Column::new(alloc, col_type, nullable);
    match push_values(&mut column, body) {
        Ok(()) => Ok(column),
        Err(fault) => {
            drop(column);
            Err(fault)
        }
    }
}
