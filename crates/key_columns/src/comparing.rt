//! Whether two values that are lent are one, and their order.
ghost use Rattle.std.specs.Prelude.{◌≡◌, ◌<◌, length, true};
ghost use Rattle.meaning.specs.declared.value.Value.TheVariants.{Int, Null, Text};
ghost use Rattle.meaning.specs.Order.{column, value_cmp, value_in};

use crate::same_bytes::are_same_bytes;
use meaning::{Value, ValueRef, compare_lent};
use std::cmp::Ordering;

/// Whether a value is this text.
#[inline(always)]
pub fn is_text(text: &[u8], other: ValueRef<'_>) -> bool
    ensures same { result ≡ true → Text text.now ≡ value_in other.entry }
    ensures apart { Text text.now ≡ value_in other.entry → result ≡ true }
{
    match other {
        ValueRef::Null => false,
        ValueRef::Int(_) => false,
        ValueRef::Text(bytes) => are_same_bytes(text, bytes),
    }
}

/// Whether a value is this integer.
#[inline(always)]
pub fn is_number(int: &i64, other: ValueRef<'_>) -> bool
    ensures same { result ≡ true → Int int.now ≡ value_in other.entry }
    ensures apart { Int int.now ≡ value_in other.entry → result ≡ true }
{
    match other {
        ValueRef::Null => false,
        ValueRef::Int(number) => *int == number,
        ValueRef::Text(_) => false,
    }
}

/// Whether a value is NULL.
#[inline(always)]
pub fn is_null(other: ValueRef<'_>) -> bool
    ensures same { result ≡ true → Null ≡ value_in other.entry }
    ensures apart { Null ≡ value_in other.entry → result ≡ true }
{
    match other {
        ValueRef::Null => true,
        ValueRef::Int(_) => false,
        ValueRef::Text(_) => false,
    }
}

/// Whether two values are one. NULL is one with NULL here.
#[inline(always)]
pub fn is_same(one: ValueRef<'_>, other: ValueRef<'_>) -> bool
    ensures same { result ≡ true → value_in one.entry ≡ value_in other.entry }
    ensures apart { value_in one.entry ≡ value_in other.entry → result ≡ true }
{
    match one {
        ValueRef::Null => is_null(other),
        ValueRef::Int(int) => is_number(&int, other),
        ValueRef::Text(text) => is_text(text, other),
    }
}

/// The order of two values. Those that are one, as most are that stand one behind the other in the
/// first columns of ascending keys, are seen to be without going through their bytes one by one.
#[inline(always)]
pub fn order_of(one: ValueRef<'_>, other: ValueRef<'_>) -> Ordering
    ensures { result ≡ value_cmp (value_in one.entry) (value_in other.entry) }
{
    if is_same(one, other) {
        return Ordering::Equal;
    }
    compare_lent(one, other)
}

/// The order of a value and that in a column of a row.
#[inline(always)]
pub fn order_in(row: &[Value], at: usize, value: ValueRef<'_>) -> Ordering
    requires { at < length row.now }
    ensures { result ≡ value_cmp (value_in value.entry) (column row.now at) }
{
    order_of(value, row[at].as_value_ref())
}
