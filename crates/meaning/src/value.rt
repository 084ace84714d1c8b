//! Values, their types, and their whole order.

ghost use Rattle.std.specs.Prelude.{◌≡◌, ℕ, List, true, IfOk};
ghost use Rattle.std.specs.Str.{is_utf8};
ghost use Rattle.meaning.specs.Order.{value_cmp, value_in};
ghost use Rattle.meaning.specs.TypeCodes.{type_code};
ghost use Rattle.meaning.specs.declared.value.Value.TheVariants as of_value;

use crate::sequence::Sequence;
use crate::text::{Text, text_of};
use std::alloc::{AllocError, Global};
use std::cmp::Ordering;

/// The type of a column's values.
#[derive(Clone, Copy, Debug, PartialEq, Eq)]
pub enum ColType {
    Int,
    Text,
}

/// The byte by which files and answers encode a column's type.
pub fn type_code(col_type: ColType) -> u8
    ensures { result ≡ type_code col_type }
{
    match col_type {
        ColType::Int => 1,
        ColType::Text => 2,
    }
}

/// What stands in one column of one row. The order is the whole order: NULL, integers by number,
/// texts by their bytes.
#[derive(Clone, Eq, PartialOrd, Ord, Drop)]
pub enum Value {
    Null,
    Int(i64),
    Text(Text),
}

/// A value that is lent: a text is a slice of bytes in UTF-8 that stand elsewhere. The order is
/// that of the values.
#[derive(Clone, Copy, PartialEq, Eq, PartialOrd, Ord)]
pub enum ValueRef<'a> {
    Null,
    Int(i64),
    Text(&'a [u8]),
}

impl Value {
    /// The same value, lent.
    pub fn as_value_ref(&self) -> ValueRef<'_>
        ensures { value_in result ≡ self.now }
    {
        match self {
            Value::Null => ValueRef::Null,
            Value::Int(n) => ValueRef::Int(*n),
            Value::Text(text) => ValueRef::Text(text.as_bytes()),
        }
    }
}

impl<'a> ValueRef<'a> {
    /// The same value, in memory of its own.
    pub fn to_value(self, alloc: Global) -> Result<Value, AllocError>
        requires { (text : List ℕ) → value_in self ≡ of_value.Text text → is_utf8 text ≡ true }
        ensures { IfOk result (λ v. v ≡ value_in self.entry) }
    {
        match self {
            ValueRef::Null => Ok(Value::Null),
            ValueRef::Int(number) => Ok(Value::Int(number)),
            ValueRef::Text(bytes) => {
                let Some(text) = text_of(bytes) else {
                    unreachable!()
                };
                Ok(Value::Text(Text::new(alloc, text)?))
            }
        }
    }
}

/// The whole order of two values.
pub fn compare(a: &Value, b: &Value) -> Ordering
    ensures { result ≡ value_cmp a.now b.now }
{
    a.cmp(b)
}

/// The whole order of two values that are lent.
pub fn compare_lent(a: ValueRef<'_>, b: ValueRef<'_>) -> Ordering
    ensures { result ≡ value_cmp (value_in a.entry) (value_in b.entry) }
{
    a.cmp(&b)
}

impl PartialEq for Value {
    ghost use Rattle.std.specs.Cmp.{partial_equiv_from_equiv, eq_by_cmp_equiv};
    ghost use Rattle.std.specs.Ordering.{eq_by_cmp};
    ghost use Rattle.meaning.specs.Order.{value_cmp, value_total};

    ghost eq = { eq_by_cmp value_cmp };

    ghost laws = { partial_equiv_from_equiv (eq_by_cmp_equiv value_total) };

    fn eq(&self, other: &Value) -> bool {
        self.cmp(other).is_eq()
    }
}

/// The values of a row, column by column.
pub type Row = Sequence<Value>;
