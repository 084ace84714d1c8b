//! Rows as texts.
use meaning::{Row, Value};
use std::alloc::AllocError;
use std::fmt::Write;

/// Each value of the row, and a blank behind it.
pub fn show_row(shown: &mut String, row: &Row) -> Result<(), AllocError> {
    for value in row.as_slice() {
        match value {
            Value::Null => shown.push_str("NULL ")?,
            Value::Int(int) => write!(shown, "{int} ")?,
            Value::Text(text) => write!(shown, "{} ", text.as_str())?,
        }
    }
    Ok(())
}
