//! Keys of several columns, column by column.
ghost use Rattle.std.specs.Prelude.{◌≡◌, ℕ, ◌<◌, ◌∷◌, ◌++◌, [], length, slice_index_or, true, false, IfOk, OnOk};
ghost use Rattle.std.specs.Ordering.{is_lt};
ghost use Rattle.meaning.specs.declared.value.Value.TheVariants.{Null};
ghost use Rattle.meaning.specs.Order.{column, row_cmp, value_in};
ghost use Rattle.aggregate_states.specs.Values.{is_spelled};

use crate::comparing::{is_same, order_in, order_of};
use crate::filling::{cell, copy_columns, do_take, put_key};
use crate::refilling::refill_at;
use aggregate_states::owned;
use columns::Column;
use meaning::{ColType, Row, Sequence, ValueRef};
use std::alloc::{AllocError, Global};
use std::cmp::Ordering;
use std::marker::Model;

/// Keys of several columns by their group indexes. Contracts see their list.
#[derive(Drop)]
pub struct KeyColumns {
    many: usize,
    columns: Vec<Column>,
}

impl Model for KeyColumns {
    ghost use Rattle.std.specs.Prelude.{List};
    ghost use Rattle.meaning.specs.Order.{Row as ARow};
    ghost use Rattle.key_columns.specs.Keys.{keys_in, AreFull};

    ghost Value = { List ARow };

    ghost view = { λ k. keys_in k.many k.columns.items };

    ghost invariant = { λ k. AreFull k.many k.columns.items };
}

impl KeyColumns {
    /// No key, of columns of these types, in each of which NULL may stand.
    pub fn new(alloc: Global, types: &[ColType]) -> Result<KeyColumns, AllocError>
        ensures { IfOk result (λ columns. columns ≡ []) }
    {
        let mut columns = Vec::with_capacity(alloc, types.len())?;
        for col_type in types {
            columns.push(Column::new(alloc, *col_type, true))?;
        }
        Ok(KeyColumns { many: 0, columns })
    }

    /// How many keys there are.
    pub fn len(&self) -> usize
        ensures { result ≡ length self.now }
    {
        self.many
    }

    /// How many columns there are, which is how many values each key has.
    #[inline(always)]
    pub fn width(&self) -> usize
        ensures { (g : ℕ) → g < length self.now
            → length (slice_index_or self.now g []) ≡ result }
    {
        self.columns.len()
    }

    /// The value in a column of a key, lent, and NULL past the last.
    #[inline(always)]
    pub fn value(&self, group_index: usize, at: usize) -> ValueRef<'_>
        requires { group_index < length self.now }
        ensures value { value_in result ≡ column (slice_index_or self.now group_index []) at }
        ensures spelled { is_spelled (value_in result) ≡ true }
    {
        if at >= self.columns.len() {
            return ValueRef::Null;
        }
        cell(&self.columns[at], group_index)
    }

    /// Puts a key behind the last, if it has a value for each column, of its type, and no text that
    /// a column doesn't hold. Says whether it does. On an error the keys are open.
    pub fn push(&mut self, key: &Row) -> Result<bool, AllocError>
        ensures pushed { IfOk result (λ is_pushed. is_pushed ≡ true
            → self.new ≡ self.old ++ key.now ∷ []) }
        ensures unchanged { IfOk result (λ is_pushed. is_pushed ≡ false → self.new ≡ self.old) }
    {
        let key = key.as_slice();
        if !do_take(self.columns.as_slice(), key) {
            return Ok(false);
        }
        let Some(many) = self.many.checked_add(1) else {
            return Err(AllocError);
        };
        match put_key(self.columns.as_mut_slice(), key) {
            Ok(()) => {
                self.many = many;
                Ok(true)
            }
            Err(fault) => {
                self.columns.clear();
                self.many = 0;
                Err(fault)
            }
        }
    }

    /// A key, in memory of its own.
    pub fn row(&self, alloc: Global, group_index: usize) -> Result<Row, AllocError>
        requires { group_index < length self.now }
        ensures { IfOk result (λ key. key ≡ slice_index_or self.now group_index []) }
    {
        let mut key = Vec::with_capacity(alloc, self.columns.len())?;
        for at in 0..self.columns.len() {
            key.push(owned(alloc, self.value(group_index, at))?)?;
        }
        Ok(Sequence::from_vec(key))
    }

    /// A key, in the buffers of one that is given up.
    pub fn row_in(&self, alloc: Global, spare: Row, group_index: usize) -> Result<Row, AllocError>
        requires { group_index < length self.now }
        ensures { IfOk result (λ key. key ≡ slice_index_or self.now group_index []) }
    {
        let mut values = spare.into_vec();
        for at in 0..self.columns.len() {
            refill_at(alloc, &mut values, at, self.value(group_index, at))?;
        }
        values.truncate(self.columns.len());
        Ok(Sequence::from_vec(values))
    }

    /// The keys as rows.
    pub fn rows(&self, alloc: Global) -> Result<Vec<Row>, AllocError>
        ensures { IfOk result (λ rows. rows.items ≡ self.now) }
    {
        let mut rows = Vec::with_capacity(alloc, self.many)?;
        for group_index in 0..self.len() {
            rows.push(self.row(alloc, group_index)?)?;
        }
        Ok(rows)
    }

    /// The same keys, in memory of their own.
    pub fn copy(&self, alloc: Global) -> Result<KeyColumns, AllocError>
        ensures { IfOk result (λ copy. copy ≡ self.now) }
    {
        let columns = copy_columns(alloc, self.columns.as_slice())?;
        Ok(KeyColumns {
            many: self.many,
            columns,
        })
    }

    /// Whether a key is this one.
    pub fn is_row(&self, group_index: usize, key: &Row) -> bool
        requires { group_index < length self.now }
        ensures same { result ≡ true → slice_index_or self.now group_index [] ≡ key.now }
        ensures apart { slice_index_or self.now group_index [] ≡ key.now → result ≡ true }
    {
        let key = key.as_slice();
        if key.len() != self.columns.len() {
            return false;
        }
        for at in 0..key.len() {
            if !is_same(self.value(group_index, at), key[at].as_value_ref()) {
                return false;
            }
        }
        true
    }

    /// Whether a key is this value alone.
    pub fn is_only(&self, group_index: usize, value: ValueRef<'_>) -> bool
        requires { group_index < length self.now }
        ensures same { result ≡ true
            → slice_index_or self.now group_index [] ≡ value_in value.entry ∷ [] }
        ensures apart { slice_index_or self.now group_index [] ≡ value_in value.entry ∷ []
            → result ≡ true }
    {
        if self.columns.len() != 1 {
            return false;
        }
        is_same(self.value(group_index, 0), value)
    }

    /// The order of two keys.
    pub fn compare(&self, one: usize, other: usize) -> Ordering
        requires one { one < length self.now }
        requires other { other < length self.now }
        ensures { result ≡ row_cmp (slice_index_or self.now one [])
            (slice_index_or self.now other []) }
    {
        for at in 0..self.columns.len() {
            let order = order_of(self.value(one, at), self.value(other, at));
            if !order.is_eq() {
                return order;
            }
        }
        Ordering::Equal
    }

    /// Whether a key comes before a row. One of another number of values isn't compared.
    pub fn comes_before(&self, group_index: usize, row: &Row) -> bool
        requires { group_index < length self.now }
        ensures { result ≡ true
            → is_lt (row_cmp (slice_index_or self.now group_index []) row.now) ≡ true }
    {
        let row = row.as_slice();
        if row.len() != self.columns.len() {
            return false;
        }
        for at in 0..row.len() {
            let order = order_in(row, at, self.value(group_index, at));
            if !order.is_eq() {
                return order.is_lt();
            }
        }
        false
    }
}
