//! The words of aggregates and types, and the text of literals.
use meaning::{AggregateKind, ColType, Value};
use std::alloc::AllocError;

/// What stands before an aggregate's argument.
pub fn aggregate_word(kind: AggregateKind) -> &'static str {
    match kind {
        AggregateKind::CountRows | AggregateKind::Count => "COUNT(",
        AggregateKind::Sum => "SUM(",
        AggregateKind::Min => "MIN(",
        AggregateKind::Max => "MAX(",
        AggregateKind::Avg => "AVG(",
        AggregateKind::CountDistinct => "COUNT(DISTINCT ",
        AggregateKind::SumDistinct => "SUM(DISTINCT ",
    }
}

/// A type, in the catalogue's word.
pub fn type_word(col_type: ColType) -> &'static str {
    match col_type {
        ColType::Int => "int",
        ColType::Text => "text",
    }
}

/// Writes a text between quotes, with each quote in it twice.
pub fn put_text(out: &mut String, content: &str) -> Result<(), AllocError> {
    out.push_str("'")?;
    for character in content.chars() {
        match character {
            '\'' => out.push_str("''")?,
            other => out.push(other)?,
        }
    }
    out.push_str("'")
}

pub fn put_literal(out: &mut String, value: &Value) -> Result<(), AllocError> {
    match value {
        Value::Null => out.push_str("NULL"),
        Value::Int(number) => write!(out, "{number}"),
        Value::Text(text) => put_text(out, text.as_str()),
    }
}
