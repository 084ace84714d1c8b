//! Keys: values of some columns, compared and copied.
ghost use Rattle.std.specs.Prelude.{◌≡◌, ◌<◌, ◌∷◌, [], length, All, true, IfOk, IfSome};
ghost use Rattle.std.specs.Ordering.{eq_by_cmp};
ghost use Rattle.std.specs.Str.{is_utf8};
ghost use Rattle.meaning.specs.declared.value.Value.TheVariants.{Int, Null, Text};
ghost use Rattle.meaning.specs.Order.{row_cmp, value_in};
ghost use Rattle.aggregate_states.specs.Values.{is_spelled};
ghost use Rattle.vectors.specs.Vector.{values_of};
ghost use Rattle.group_keys.specs.Rows.{int_keys, row_at, rows_at, AreLanesOf};

use aggregate_states::{owned, plain_ints, value_at};
use key_columns::{are_same_bytes, is_null, is_number, is_text};
use meaning::{Row, Sequence, Value, ValueRef};
use std::alloc::{AllocError, Global};
use std::cmp::Ordering;
use vectors::{Selection, Vector};

#[inline(always)]
fn is_value(value: &Value, other: ValueRef<'_>) -> bool
    ensures same { result ≡ true → value.now ≡ value_in other.entry }
    ensures apart { value.now ≡ value_in other.entry → result ≡ true }
{
    match value {
        Value::Null => is_null(other),
        Value::Int(int) => is_number(int, other),
        Value::Text(text) => is_text(text.as_bytes(), other),
    }
}

/// Whether a key is the one that these vectors have at a position.
#[inline(always)]
pub fn is_key(key: &Row, lanes: &[Vector<'_>], at: usize) -> bool
    requires { All (λ column. at < length (values_of column)) lanes.now }
    ensures same { result ≡ true → key.now ≡ row_at lanes.now at }
    ensures apart { key.now ≡ row_at lanes.now at → result ≡ true }
{
    let key = key.as_slice();
    if key.len() != lanes.len() {
        return false;
    }
    for k in 0..lanes.len() {
        if !is_value(&key[k], value_at(&lanes[k], at)) {
            return false;
        }
    }
    true
}

#[inline(always)]
pub fn is_int_value(value: &Value, int: &i64) -> bool
    ensures same { result ≡ true → value.now ≡ Int int.now }
    ensures apart { value.now ≡ Int int.now → result ≡ true }
{
    match value {
        Value::Null => false,
        Value::Int(number) => number == int,
        Value::Text(_) => false,
    }
}

/// Whether a key is this integer alone.
#[inline(always)]
pub fn is_int(key: &Row, int: &i64) -> bool
    ensures same { result ≡ true → key.now ≡ Int int.now ∷ [] }
    ensures apart { key.now ≡ Int int.now ∷ [] → result ≡ true }
{
    let key = key.as_slice();
    if key.len() != 1 {
        return false;
    }
    is_int_value(&key[0], int)
}

#[inline(always)]
pub fn is_text_value(value: &Value, text: &[u8]) -> bool
    ensures same { result ≡ true → value.now ≡ Text text.now }
    ensures apart { value.now ≡ Text text.now → result ≡ true }
{
    match value {
        Value::Null => false,
        Value::Int(_) => false,
        Value::Text(own) => are_same_bytes(own.as_bytes(), text),
    }
}

/// Whether a key is this text alone.
#[inline(always)]
pub fn is_text_key(key: &Row, text: &[u8]) -> bool
    ensures same { result ≡ true → key.now ≡ Text text.now ∷ [] }
    ensures apart { key.now ≡ Text text.now ∷ [] → result ≡ true }
{
    let key = key.as_slice();
    if key.len() != 1 {
        return false;
    }
    is_text_value(&key[0], text)
}

#[inline(always)]
pub fn is_same_int(one: &i64, other: &i64) -> bool
    ensures same { result ≡ true → one.now ≡ other.now }
    ensures apart { one.now ≡ other.now → result ≡ true }
{
    one == other
}

/// Whether these vectors have this integer alone at a position.
#[inline(always)]
pub fn is_lane_int(int: &i64, lanes: &[Vector<'_>], at: usize) -> bool
    requires { All (λ column. at < length (values_of column)) lanes.now }
    ensures same { result ≡ true → Int int.now ∷ [] ≡ row_at lanes.now at }
    ensures apart { Int int.now ∷ [] ≡ row_at lanes.now at → result ≡ true }
{
    if lanes.len() != 1 {
        return false;
    }
    is_number(int, value_at(&lanes[0], at))
}

/// Whether these vectors have this value alone at a position.
#[inline(always)]
pub fn is_lane_value(value: &Value, lanes: &[Vector<'_>], at: usize) -> bool
    requires { All (λ column. at < length (values_of column)) lanes.now }
    ensures same { result ≡ true → value.now ∷ [] ≡ row_at lanes.now at }
    ensures apart { value.now ∷ [] ≡ row_at lanes.now at → result ≡ true }
{
    if lanes.len() != 1 {
        return false;
    }
    is_value(value, value_at(&lanes[0], at))
}

/// Whether a key is this value alone.
pub fn is_row_value(value: &Value, key: &Row) -> bool
    ensures same { result ≡ true → value.now ∷ [] ≡ key.now }
    ensures apart { value.now ∷ [] ≡ key.now → result ≡ true }
{
    let key = key.as_slice();
    if key.len() != 1 {
        return false;
    }
    is_value(value, key[0].as_value_ref())
}

/// Whether two keys are one.
pub fn is_row(one: &Row, other: &Row) -> bool
    ensures same { result ≡ true → one.now ≡ other.now }
    ensures apart { one.now ≡ other.now → result ≡ true }
{
    are_equal(one, other)
}

/// The key of this value alone.
pub fn key_of_value(alloc: Global, value: Value) -> Result<Row, AllocError>
    ensures { IfOk result (λ key. key ≡ value ∷ []) }
{
    let mut key = Vec::with_capacity(alloc, 1)?;
    key.push(value)?;
    Ok(Sequence::from_vec(key))
}

/// The key of this value alone, in the buffer of one that is given up.
pub fn key_in_buffer(spare: Row, value: Value) -> Result<Row, AllocError>
    ensures { IfOk result (λ key. key ≡ value ∷ []) }
{
    let mut key = spare.into_vec();
    key.clear();
    key.push(value)?;
    Ok(Sequence::from_vec(key))
}

/// The key of this text alone.
pub fn key_of_text(alloc: Global, text: &[u8]) -> Result<Row, AllocError>
    requires { is_utf8 text.now ≡ true }
    ensures { IfOk result (λ key. key ≡ Text text.now ∷ []) }
{
    let value = owned(alloc, ValueRef::Text(text))?;
    key_of_value(alloc, value)
}

/// The value of a key of one column.
pub fn only_value(key: Row) -> Value
    requires { length key ≡ 1 }
    ensures { result ∷ [] ≡ key }
{
    let mut values = key.into_vec();
    let Some(value) = values.pop() else {
        unreachable!()
    };
    value
}

/// The integer that a key is alone, if it is.
pub fn only_int(key: &Row) -> Option<&i64>
    ensures { IfSome result (λ int. key.now ≡ Int int.now ∷ []) }
{
    let key = key.as_slice();
    if key.len() != 1 {
        return None;
    }
    match &key[0] {
        Value::Null => None,
        Value::Int(int) => Some(int),
        Value::Text(_) => None,
    }
}

/// The integers of one key, where all rows are selected and none is NULL.
pub fn plain_key<'v>(lanes: &'v [Vector<'_>], selection: &Selection) -> Option<&'v [i64]>
    requires { AreLanesOf selection.now.below lanes.now }
    ensures { IfSome result (λ ints. int_keys ints.now ≡ rows_at lanes.now selection.now.list) }
{
    if lanes.len() != 1 {
        return None;
    }
    let ints = plain_ints(&lanes[0], selection)?;
    Some(ints)
}

/// The key that these vectors have at a position.
pub fn key_of(
    alloc: Global,
    lanes: &[Vector<'_>],
    at: usize,
    below: usize,
) -> Result<Row, AllocError>
    requires lanes { AreLanesOf below lanes.now }
    requires at { at < below }
    ensures { IfOk result (λ key. key ≡ row_at lanes.now at) }
{
    let mut key = Vec::with_capacity(alloc, lanes.len())?;
    for k in 0..lanes.len() {
        key.push(owned(alloc, value_at(&lanes[k], at))?)?;
    }
    Ok(Sequence::from_vec(key))
}

/// A key in memory of its own.
pub fn copy_key(alloc: Global, key: &Row) -> Result<Row, AllocError>
    ensures { IfOk result (λ copy. copy ≡ key.now) }
{
    let mut copy = Vec::with_capacity(alloc, key.len())?;
    for value in key.as_slice() {
        copy.push(value.clone()?)?;
    }
    Ok(Sequence::from_vec(copy))
}

/// The order of two keys.
pub fn compare_keys(one: &Row, other: &Row) -> Ordering
    ensures { result ≡ row_cmp one.now other.now }
{
    one.as_slice().cmp(other.as_slice())
}

/// Whether two keys are equal. NULL is equal to NULL here.
pub fn are_equal(one: &Row, other: &Row) -> bool
    ensures { result ≡ eq_by_cmp row_cmp one.now other.now }
{
    compare_keys(one, other).is_eq()
}
