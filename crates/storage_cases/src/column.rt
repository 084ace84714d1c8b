//! Cases about columns.
use crate::values::{show_values, type_of};
use columns::{Column, ColumnFault};
use meaning::{Text, Value};
use std::alloc::{AllocError, Global};
use std::fmt::Write;
use std::mem::drop;

fn value_of(alloc: Global, line: &str) -> Result<Value, AllocError> {
    match line.split_once(' ') {
        Some(("int", digits)) => Ok(Value::Int(digits.parse().unwrap_or(0))),
        Some(("text", text)) => Ok(Value::Text(Text::new(alloc, text)?)),
        _ => Ok(Value::Null),
    }
}

fn push_long(alloc: Global, column: &mut Column, count: &str) -> Result<(), ColumnFault> {
    let text = "x".repeat(alloc, count.parse().unwrap_or(0))?;
    let pushed = column.push_text(text.as_str());
    drop(text);
    pushed
}

// A line pushes `null`, `int 5`, `text word` or `long 65536`, a text of so many bytes; behind
// `value`, as a value.
fn push_line(alloc: Global, column: &mut Column, line: &str) -> Result<(), ColumnFault> {
    match line.split_once(' ') {
        Some(("int", digits)) => column.push_int(digits.parse().unwrap_or(0)),
        Some(("text", text)) => column.push_text(text),
        Some(("long", count)) => push_long(alloc, column, count),
        Some(("value", value)) => column.push(value_of(alloc, value)?),
        _ => column.push_null(),
    }
}

fn push_and_show(
    alloc: Global,
    shown: &mut String,
    column: &mut Column,
    body: &str,
) -> Result<(), AllocError> {
    for line in body.lines() {
        if let Err(fault) = push_line(alloc, column, line) {
            writeln!(shown, "refused {}: {fault}", fault.number())?;
        }
    }
    Ok(())
}

fn show_ints(shown: &mut String, ints: &[i64]) -> Result<(), AllocError> {
    shown.push_str("ints")?;
    for number in ints {
        write!(shown, " {number}")?;
    }
    shown.push_str("\n")
}

fn show_nulls(shown: &mut String, nulls: &[bool]) -> Result<(), AllocError> {
    shown.push_str("nulls")?;
    for is_null in nulls {
        shown.push_str(if *is_null { " yes" } else { " no" })?;
    }
    shown.push_str("\n")
}

// The texts without the first, and all of them, one behind the other.
fn show_joined(shown: &mut String, column: &Column) -> Result<(), AllocError> {
    let Some(texts) = column.texts() else {
        return Ok(());
    };
    if texts.len() == 0 {
        return Ok(());
    }
    let all = texts.joined(0, texts.len());
    let others = texts.joined(1, texts.len());
    let is_end = all.ends_with(others);
    writeln!(
        shown,
        "joined {} bytes, behind the first {}, its end: {is_end}",
        all.len(),
        others.len()
    )
}

fn show_column(shown: &mut String, column: &Column) -> Result<(), AllocError> {
    show_values(shown, "values", column)?;
    if let Some(ints) = column.ints() {
        show_ints(shown, ints)?;
    }
    if let Some(nulls) = column.nulls() {
        show_nulls(shown, nulls)?;
    }
    show_joined(shown, column)
}

/// Which pushes are refused, and what the column then has.
pub fn show(
    alloc: Global,
    shown: &mut String,
    words: &[&str],
    body: &str,
) -> Result<(), AllocError> {
    let Some((col_type, nullable, _)) = type_of(words) else {
        return shown.push_str("(no type of a column)\n");
    };
    let mut column = Column::new(alloc, col_type, nullable);
    let pushed = push_and_show(alloc, shown, &mut column, body);
    let ended = show_column(shown, &column);
    drop(column);
    pushed?;
    ended
}
