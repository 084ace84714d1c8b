//! What an expression reads.

ghost use Rattle.std.specs.Prelude.{◌≡◌, IfOk};
ghost use Rattle.meaning.specs.Order.{column};
ghost use Rattle.meaning.specs.Joined.{joined_column};

use crate::sequence::Sequence;
use crate::value::{Row, Value};
use std::alloc::AllocError;

/// What an expression reads: a row of the fact with a row of each joined dimension, or a group's
/// key and aggregates.
#[derive(Drop)]
pub struct JoinedRow {
    pub fact: Row,
    pub joins: Sequence<Row>,
    pub key: Row,
    pub aggregates: Row,
}

/// A copy of the value in a column, and NULL past the end.
pub fn value_at(row: &Row, at: usize) -> Result<Value, AllocError>
    ensures { IfOk result (λ v. v ≡ column row.now at) }
{
    match row.as_slice().get(at) {
        Some(value) => value.clone(),
        None => Ok(Value::Null),
    }
}

/// A copy of the value in a column of a join's row, and NULL past the end.
pub fn joined_value(row: &JoinedRow, join: usize, at: usize) -> Result<Value, AllocError>
    ensures { IfOk result (λ v. v ≡ joined_column row.now join at) }
{
    match row.joins.as_slice().get(join) {
        Some(found) => value_at(found, at),
        None => Ok(Value::Null),
    }
}
