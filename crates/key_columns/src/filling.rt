//! A key put behind the last value of each column, and columns copied.
ghost use Rattle.std.specs.Prelude.{◌≡◌, ◌≢◌, ◌<◌, length, slice_index_or, true, None, Some, IfErr, IfOk, OnOk};
ghost use Rattle.meaning.specs.declared.value.Value.TheVariants.{Null};
ghost use Rattle.meaning.specs.Order.{value_in};
ghost use Rattle.aggregate_states.specs.Values.{is_spelled};
ghost use Rattle.meaning.specs.Order.{value_in};
ghost use Rattle.columns.specs.Column.{refusal, with_value};
ghost use Rattle.columns.specs.declared.fault.ColumnFault.TheVariants.{Memory};
ghost use Rattle.key_columns.specs.Keys.{AreWith, DoTake};

use columns::{Column, ColumnFault};
use meaning::{ColType, MAX_TEXT_BYTES, Value, ValueRef};
use std::alloc::{AllocError, Global};

/// Whether a value may stand in a column.
fn does_take(column: &Column, value: &Value) -> bool
    ensures { result ≡ true → refusal column.now.col_type column.now.nullable value.now ≡ None }
{
    match value {
        Value::Null => column.nullable(),
        Value::Int(_) => column.col_type() == ColType::Int,
        Value::Text(text) => {
            column.col_type() == ColType::Text && text.as_bytes().len() <= MAX_TEXT_BYTES
        }
    }
}

/// Whether a key has a value for each column, which may stand there.
pub fn do_take(columns: &[Column], key: &[Value]) -> bool
    ensures { result ≡ true → DoTake columns.now key.now }
{
    if columns.len() != key.len() {
        return false;
    }
    for k in 0..columns.len() {
        if !does_take(&columns[k], &key[k]) {
            return false;
        }
    }
    true
}

/// The value, lent. Its text is UTF-8.
#[inline(always)]
fn lent(value: &Value) -> ValueRef<'_>
    ensures value { value_in result ≡ value.now }
    ensures spelled { is_spelled (value_in result) ≡ true }
{
    match value {
        Value::Null => ValueRef::Null,
        Value::Int(int) => ValueRef::Int(*int),
        Value::Text(text) => ValueRef::Text(text.as_str().as_bytes()),
    }
}

fn push_copy(column: &mut Column, value: ValueRef<'_>) -> Result<(), ColumnFault>
    requires { is_spelled (value_in value) ≡ true }
    ensures ok { OnOk result (column.new ≡ with_value column.old (value_in value.entry)) }
    ensures returned { IfErr result (λ f. f ≢ Memory
        → refusal column.old.col_type column.old.nullable (value_in value.entry) ≡ Some f) }
{
    match value {
        ValueRef::Null => column.push_null(),
        ValueRef::Int(int) => column.push_int(int),
        ValueRef::Text(text) => column.push_utf8(text),
    }
}

/// Puts a value that may stand in a column behind its last.
fn put(column: &mut Column, value: ValueRef<'_>) -> Result<(), AllocError>
    requires spelled { is_spelled (value_in value) ≡ true }
    requires taken { refusal column.old.col_type column.old.nullable (value_in value) ≡ None }
    ensures { OnOk result (column.new ≡ with_value column.old (value_in value.entry)) }
{
    match push_copy(column, value) {
        Ok(()) => Ok(()),
        Err(ColumnFault::Memory) => Err(AllocError),
        Err(ColumnFault::WrongType) => unreachable!(),
        Err(ColumnFault::NullNotAllowed) => unreachable!(),
        Err(ColumnFault::TextTooLong) => unreachable!(),
    }
}

/// Puts each value of a key behind the last of its column. On an error the columns are open.
pub fn put_key(columns: &mut [Column], key: &[Value]) -> Result<(), AllocError>
    requires { DoTake columns.old key.now }
    ensures { OnOk result (AreWith key.now columns.old columns.new) }
{
    for k in 0..columns.len() {
        put(&mut columns[k], lent(&key[k]))?;
    }
    Ok(())
}

/// The value of a row, lent. Its text is UTF-8, and it may stand in the column.
#[inline(always)]
pub fn cell(column: &Column, row: usize) -> ValueRef<'_>
    requires { row < length column.now.values }
    ensures value { value_in result ≡ slice_index_or column.now.values row Null }
    ensures spelled { is_spelled (value_in result) ≡ true }
    ensures taken { refusal column.now.col_type column.now.nullable (value_in result) ≡ None }
{
    // No effect at run time. The proof reads from this call what may stand in the column.
    let _rows = column.len();
    column.get(row)
}

/// Columns with the same values, in memory of their own.
pub fn copy_columns(alloc: Global, columns: &[Column]) -> Result<Vec<Column>, AllocError>
    ensures { IfOk result (λ copy. copy.items ≡ columns.now) }
{
    let mut copy = Vec::with_capacity(alloc, columns.len())?;
    for column in columns {
        copy.push(column.copy(alloc)?)?;
    }
    Ok(copy)
}
