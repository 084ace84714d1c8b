//! Keys in the order of their group indexes. Keys of one column stand as integers, or as values
//! where not all are integers, so that they need no memory of their own. Nor do keys of several
//! columns once they are many: these then stand column by column.
ghost use Rattle.std.specs.Prelude.{◌≡◌, ◌≢◌, ℕ, ◌<◌, ◌≤◌, ◌∷◌, ◌++◌, [], length, pos, map, slice_index_or, All, true, false, IfNone, IfOk, IfSome, OnOk};
ghost use Rattle.std.specs.Ordering.{is_lt};
ghost use Rattle.meaning.specs.declared.value.Value.TheVariants.{Int, Text};
ghost use Rattle.meaning.specs.Order.{column, row_cmp, value_in};
ghost use Rattle.vectors.specs.Vector.{values_of};
ghost use Rattle.group_keys.specs.Keys.{alone, rows_in, DoAscend, IsBehind, IsReturned};
ghost use Rattle.group_keys.specs.Rows.{int_keys, row_at};

use crate::close_ints::{NOWHERE, close_group_index, enter, window_of};
use crate::column_keys::is_lane_key;
use crate::hashing::{hash_alone, hash_columns, hash_int, hash_row};
use crate::keys::{
    compare_keys, copy_key, is_int, is_int_value, is_key, is_lane_int, is_lane_value, is_row,
    is_row_value, is_same_int, is_text_key, is_text_value, key_in_buffer, key_of_value, only_int,
    only_value,
};
use aggregate_states::column_value;
use key_columns::KeyColumns;
use meaning::{ColType, GroupingKey, Row, Value, ValueRef};
use std::alloc::{AllocError, Global};
use std::cmp::Ordering;
use std::marker::Model;
use std::mem::{drop, replace};
use vectors::Vector;

#[derive(Drop)]
enum Held {
    Ints(Vec<i64>),
    Values(Vec<Value>),
    Columns(KeyColumns),
    Rows(Vec<Row>),
}

/// Keys by their group indexes. Contracts see their list.
#[derive(Drop)]
pub struct KeyList {
    held: Held,
    // The group indexes of keys that are integers close to each other, by how far they are above a
    // least one.
    least: i64,
    close: Vec<u32>,
    // Of the columns, where they are several.
    types: Vec<ColType>,
    // Whether each key was put behind the last because it comes behind that.
    do_ascend: bool,
}

/// How many keys of several columns stand as rows, which are compared in less time, before they
/// stand column by column.
const FEW_KEYS: usize = 1024;

impl Model for KeyList {
    ghost use Rattle.std.specs.Prelude.{List};
    ghost use Rattle.meaning.specs.Order.{Row as ARow};
    ghost use Rattle.group_keys.specs.Keys.{rows_in, IsKept};

    ghost Value = { List ARow };

    ghost view = { λ k. rows_in k.held };

    ghost invariant = { λ k. IsKept k.least k.close.items k.do_ascend (rows_in k.held) };
}

#[inline(always)]
fn int_of(ints: &[i64], group_index: u32) -> Option<&i64>
    ensures some { IfSome result (λ int. (group_index < length (int_keys ints.now))
        × (slice_index_or (int_keys ints.now) group_index [] ≡ Int int.now ∷ [])) }
    ensures none { IfNone result (length (int_keys ints.now) ≤ group_index) }
{
    ints.get(group_index as usize)
}

#[inline(always)]
fn value_of(values: &[Value], group_index: u32) -> Option<&Value>
    ensures some { IfSome result (λ v. (group_index < length (alone values.now))
        × (slice_index_or (alone values.now) group_index [] ≡ v.now ∷ [])) }
    ensures none { IfNone result (length (alone values.now) ≤ group_index) }
{
    values.get(group_index as usize)
}

#[inline(always)]
fn row_of(rows: &[Row], group_index: u32) -> Option<&Row>
    ensures some { IfSome result (λ row. (group_index < length rows.now)
        × (slice_index_or rows.now group_index [] ≡ row.now)) }
    ensures none { IfNone result (length rows.now ≤ group_index) }
{
    rows.get(group_index as usize)
}

fn values_of_ints(alloc: Global, ints: &[i64]) -> Result<Vec<Value>, AllocError>
    ensures { IfOk result (λ values. alone values.items ≡ int_keys ints.now) }
{
    let mut values = Vec::with_capacity(alloc, ints.len())?;
    for int in ints {
        values.push(Value::Int(*int))?;
    }
    Ok(values)
}

fn rows_of_ints(alloc: Global, ints: &[i64]) -> Result<Vec<Row>, AllocError>
    ensures { IfOk result (λ rows. rows.items ≡ int_keys ints.now) }
{
    let mut rows = Vec::with_capacity(alloc, ints.len())?;
    for int in ints {
        rows.push(key_of_value(alloc, Value::Int(*int))?)?;
    }
    Ok(rows)
}

/// The same keys as rows.
fn rows_of(alloc: Global, values: &[Value]) -> Result<Vec<Row>, AllocError>
    ensures { IfOk result (λ rows. rows.items ≡ alone values.now) }
{
    let mut rows = Vec::with_capacity(alloc, values.len())?;
    for value in values {
        rows.push(key_of_value(alloc, value.clone()?)?)?;
    }
    Ok(rows)
}

fn copy_rows(alloc: Global, rows: &[Row]) -> Result<Vec<Row>, AllocError>
    ensures { IfOk result (λ copy. copy.items ≡ rows.now) }
{
    let mut copy = Vec::with_capacity(alloc, rows.len())?;
    for row in rows {
        copy.push(copy_key(alloc, row)?)?;
    }
    Ok(copy)
}

fn copy_held(alloc: Global, held: &Held) -> Result<Held, AllocError>
    ensures { IfOk result (λ copy. rows_in copy ≡ rows_in held.now) }
{
    match held {
        Held::Ints(ints) => Ok(Held::Ints(Vec::from_slice(alloc, ints.as_slice())?)),
        Held::Values(values) => Ok(Held::Values(values.clone()?)),
        Held::Columns(columns) => Ok(Held::Columns(columns.copy(alloc)?)),
        Held::Rows(rows) => Ok(Held::Rows(copy_rows(alloc, rows.as_slice())?)),
    }
}

fn held_as_rows(alloc: Global, held: Held) -> Result<Vec<Row>, AllocError>
    ensures { IfOk result (λ rows. rows.items ≡ rows_in held) }
{
    match held {
        Held::Ints(ints) => rows_of_ints(alloc, ints.as_slice()),
        Held::Values(values) => rows_of(alloc, values.as_slice()),
        Held::Columns(columns) => columns.rows(alloc),
        Held::Rows(rows) => Ok(rows),
    }
}

/// A value behind keys by columns.
fn push_behind_columns(
    alloc: Global,
    columns: &KeyColumns,
    value: Value,
) -> Result<Vec<Row>, AllocError>
    ensures { IfOk result (λ rows. rows.items ≡ columns.now ++ (value ∷ []) ∷ []) }
{
    let mut rows = columns.rows(alloc)?;
    rows.push(key_of_value(alloc, value)?)?;
    Ok(rows)
}

/// An integer more, without moving the keys.
fn push_int_key(held: &mut Held, alloc: Global, int: &i64) -> Result<(), AllocError>
    ensures { OnOk result (rows_in held.new ≡ rows_in held.old ++ (Int int.now ∷ []) ∷ []) }
{
    match held {
        Held::Ints(ints) => {
            ints.push(*int)?;
            Ok(())
        }
        Held::Values(values) => {
            values.push(Value::Int(*int))?;
            Ok(())
        }
        Held::Columns(columns) => {
            let rows = push_behind_columns(alloc, columns, Value::Int(*int))?;
            *held = Held::Rows(rows);
            Ok(())
        }
        Held::Rows(rows) => {
            rows.push(key_of_value(alloc, Value::Int(*int))?)?;
            Ok(())
        }
    }
}

/// A value behind integers.
fn push_behind_ints(alloc: Global, ints: Vec<i64>, value: Value) -> Result<Held, AllocError>
    ensures { IfOk result (λ more. rows_in more ≡ int_keys ints.items ++ (value ∷ []) ∷ []) }
{
    let mut values = values_of_ints(alloc, ints.as_slice())?;
    values.push(value)?;
    Ok(Held::Values(values))
}

fn push_value(alloc: Global, held: Held, value: Value) -> Result<Held, AllocError>
    ensures { IfOk result (λ more. rows_in more ≡ rows_in held ++ (value ∷ []) ∷ []) }
{
    match held {
        Held::Ints(ints) => push_behind_ints(alloc, ints, value),
        Held::Values(values) => {
            let mut values = values;
            values.push(value)?;
            Ok(Held::Values(values))
        }
        Held::Columns(columns) => {
            let rows = push_behind_columns(alloc, &columns, value)?;
            Ok(Held::Rows(rows))
        }
        Held::Rows(rows) => {
            let mut rows = rows;
            rows.push(key_of_value(alloc, value)?)?;
            Ok(Held::Rows(rows))
        }
    }
}

/// These rows by columns of these types, if each has them.
fn columns_of(
    alloc: Global,
    rows: &[Row],
    types: &[ColType],
) -> Result<Option<KeyColumns>, AllocError>
    ensures { IfOk result (λ found. IfSome found (λ columns. columns ≡ rows.now)) }
{
    let mut columns = KeyColumns::new(alloc, types)?;
    for row in rows {
        if !columns.push(row)? {
            return Ok(None);
        }
    }
    Ok(Some(columns))
}

/// The same keys, by columns where they have come to be many.
fn held_rows(alloc: Global, rows: Vec<Row>, types: &[ColType]) -> Result<Held, AllocError>
    ensures { IfOk result (λ held. rows_in held ≡ rows.items) }
{
    if rows.len() != FEW_KEYS || types.is_empty() {
        return Ok(Held::Rows(rows));
    }
    match columns_of(alloc, rows.as_slice(), types) {
        Ok(Some(columns)) => Ok(Held::Columns(columns)),
        Ok(None) => Ok(Held::Rows(rows)),
        Err(fault) => {
            drop(rows);
            Err(fault)
        }
    }
}

fn push_row(alloc: Global, held: Held, key: Row, types: &[ColType]) -> Result<Held, AllocError>
    ensures { IfOk result (λ more. rows_in more ≡ rows_in held ++ key ∷ []) }
{
    let mut rows = held_as_rows(alloc, held)?;
    rows.push(key)?;
    held_rows(alloc, rows, types)
}

/// The types of several columns, and none of fewer.
fn types_of(alloc: Global, keys: &[GroupingKey]) -> Result<Vec<ColType>, AllocError> {
    let mut types = Vec::new(alloc);
    if keys.len() < 2 {
        return Ok(types);
    }
    for key in keys {
        types.push(key.col_type)?;
    }
    Ok(types)
}

/// The value in a column of the key of a value alone: the value, and NULL past it.
#[inline(always)]
fn only_at(value: ValueRef<'_>, at: usize) -> ValueRef<'_>
    ensures { value_in result ≡ column (value_in value.entry ∷ []) at }
{
    if at == 0 {
        return value;
    }
    ValueRef::Null
}

/// The order of the keys of two integers alone.
fn compare_ints(one: &i64, other: &i64) -> Ordering
    ensures { result ≡ row_cmp (Int one.now ∷ []) (Int other.now ∷ []) }
{
    one.cmp(other)
}

/// The order of the keys of two values alone.
fn compare_values(one: &Value, other: &Value) -> Ordering
    ensures { result ≡ row_cmp (one.now ∷ []) (other.now ∷ []) }
{
    one.cmp(other)
}

/// Whether an integer alone comes before a key.
#[inline(always)]
fn is_int_before(int: &i64, key: &Row) -> bool
    ensures { result ≡ true → is_lt (row_cmp (Int int.now ∷ []) key.now) ≡ true }
{
    match only_int(key) {
        Some(other) => compare_ints(int, other).is_lt(),
        None => false,
    }
}

/// Whether a value alone comes before a key.
fn is_value_before(value: &Value, key: &Row) -> bool
    ensures { result ≡ true → is_lt (row_cmp (value.now ∷ []) key.now) ≡ true }
{
    let key = key.as_slice();
    if key.len() != 1 {
        return false;
    }
    compare_values(value, &key[0]).is_lt()
}

fn is_row_before(row: &Row, key: &Row) -> bool
    ensures { result ≡ true → is_lt (row_cmp row.now key.now) ≡ true }
{
    compare_keys(row, key).is_lt()
}

impl KeyList {
    /// No key. Takes no memory.
    pub fn new(alloc: Global) -> KeyList
        ensures { result ≡ [] }
    {
        KeyList {
            held: Held::Ints(Vec::new(alloc)),
            least: 0,
            close: Vec::new(alloc),
            types: Vec::new(alloc),
            do_ascend: true,
        }
    }

    /// No key yet, of these columns.
    pub fn of(alloc: Global, keys: &[GroupingKey]) -> Result<KeyList, AllocError>
        ensures { IfOk result (λ list. list ≡ []) }
    {
        Ok(KeyList {
            held: Held::Ints(Vec::new(alloc)),
            least: 0,
            close: Vec::new(alloc),
            types: types_of(alloc, keys)?,
            do_ascend: true,
        })
    }

    /// How many keys there are.
    pub fn len(&self) -> usize
        ensures { result ≡ length self.now }
    {
        match &self.held {
            Held::Ints(ints) => ints.len(),
            Held::Values(values) => values.len(),
            Held::Columns(columns) => columns.len(),
            Held::Rows(rows) => rows.len(),
        }
    }

    /// Whether the key at a group index is the one that these vectors have at a position.
    #[inline(always)]
    pub fn is_key(&self, group_index: u32, lanes: &[Vector<'_>], at: usize) -> bool
        requires { All (λ column. at < length (values_of column)) lanes.now }
        ensures same { result ≡ true → (group_index < length self.now)
            × (slice_index_or self.now group_index [] ≡ row_at lanes.now at) }
        ensures apart { group_index < length self.now
            → slice_index_or self.now group_index [] ≡ row_at lanes.now at → result ≡ true }
    {
        match &self.held {
            Held::Ints(ints) => match int_of(ints.as_slice(), group_index) {
                Some(int) => is_lane_int(int, lanes, at),
                None => false,
            },
            Held::Values(values) => match value_of(values.as_slice(), group_index) {
                Some(value) => is_lane_value(value, lanes, at),
                None => false,
            },
            Held::Columns(columns) => {
                let at_index = group_index as usize;
                at_index < columns.len() && is_lane_key(columns, at_index, lanes, at)
            }
            Held::Rows(rows) => match row_of(rows.as_slice(), group_index) {
                Some(row) => is_key(row, lanes, at),
                None => false,
            },
        }
    }

    /// Whether the key at a group index is this one.
    pub fn is_row(&self, group_index: u32, key: &Row) -> bool
        ensures same { result ≡ true → (group_index < length self.now)
            × (slice_index_or self.now group_index [] ≡ key.now) }
        ensures apart { group_index < length self.now
            → slice_index_or self.now group_index [] ≡ key.now → result ≡ true }
    {
        match &self.held {
            Held::Ints(ints) => match int_of(ints.as_slice(), group_index) {
                Some(int) => is_int(key, int),
                None => false,
            },
            Held::Values(values) => match value_of(values.as_slice(), group_index) {
                Some(value) => is_row_value(value, key),
                None => false,
            },
            Held::Columns(columns) => {
                let at_index = group_index as usize;
                at_index < columns.len() && columns.is_row(at_index, key)
            }
            Held::Rows(rows) => match row_of(rows.as_slice(), group_index) {
                Some(row) => is_row(row, key),
                None => false,
            },
        }
    }

    /// Whether the key at a group index is this integer alone.
    #[inline(always)]
    pub fn is_int(&self, group_index: u32, int: &i64) -> bool
        ensures same { result ≡ true → (group_index < length self.now)
            × (slice_index_or self.now group_index [] ≡ Int int.now ∷ []) }
        ensures apart { group_index < length self.now
            → slice_index_or self.now group_index [] ≡ Int int.now ∷ [] → result ≡ true }
    {
        match &self.held {
            Held::Ints(ints) => match int_of(ints.as_slice(), group_index) {
                Some(own) => is_same_int(own, int),
                None => false,
            },
            Held::Values(values) => match value_of(values.as_slice(), group_index) {
                Some(value) => is_int_value(value, int),
                None => false,
            },
            Held::Columns(columns) => {
                let at_index = group_index as usize;
                at_index < columns.len() && columns.is_only(at_index, ValueRef::Int(*int))
            }
            Held::Rows(rows) => match row_of(rows.as_slice(), group_index) {
                Some(row) => is_int(row, int),
                None => false,
            },
        }
    }

    /// Whether the key at a group index is this text alone.
    #[inline(always)]
    pub fn is_text(&self, group_index: u32, text: &[u8]) -> bool
        ensures same { result ≡ true → (group_index < length self.now)
            × (slice_index_or self.now group_index [] ≡ Text text.now ∷ []) }
        ensures apart { group_index < length self.now
            → slice_index_or self.now group_index [] ≡ Text text.now ∷ [] → result ≡ true }
    {
        match &self.held {
            Held::Ints(_) => false,
            Held::Values(values) => match value_of(values.as_slice(), group_index) {
                Some(value) => is_text_value(value, text),
                None => false,
            },
            Held::Columns(columns) => {
                let at_index = group_index as usize;
                at_index < columns.len() && columns.is_only(at_index, ValueRef::Text(text))
            }
            Held::Rows(rows) => match row_of(rows.as_slice(), group_index) {
                Some(row) => is_text_key(row, text),
                None => false,
            },
        }
    }

    /// Makes a table for integers about these, where no key is known yet and they are close to each
    /// other.
    pub fn expect_ints(&mut self, alloc: Global, ints: &[i64]) -> Result<(), AllocError>
        ensures { self.new ≡ self.old }
    {
        if self.len() != 0 {
            return Ok(());
        }
        let Some(window) = window_of(ints) else {
            return Ok(());
        };
        let close = vec![in alloc; NOWHERE; window.entries]?;
        self.least = window.least;
        self.close = close;
        Ok(())
    }

    /// The group index of the key of this integer alone, where the table of such integers leads to
    /// one, else `NOWHERE`.
    #[inline(always)]
    pub fn close_group_index(&self, int: &i64) -> u32
        ensures { result ≢ NOWHERE → (result < length self.now)
            × (slice_index_or self.now result [] ≡ Int int.now ∷ []) }
    {
        close_group_index(self.close.as_slice(), &self.least, int)
    }

    /// The same of each integer. No branch depends on one, so that the processor looks several up
    /// at once.
    pub fn close_group_indexes(&self, alloc: Global, ints: &[i64]) -> Result<Vec<u32>, AllocError>
        ensures long { IfOk result (λ group_indexes. length group_indexes.items ≡ length ints.now) }
        ensures found { IfOk result (λ group_indexes. (k : ℕ) → k < length ints.now
            → IsReturned self.now ints.now group_indexes.items k) }
    {
        let mut group_indexes = vec![in alloc; NOWHERE; ints.len()]?;
        for k in 0..ints.len() {
            group_indexes[k] = self.close_group_index(&ints[k]);
        }
        Ok(group_indexes)
    }

    /// A key of one value more. On an error the keys are open, and no entry
    /// leads to one.
    fn push_one(&mut self, alloc: Global, value: Value) -> Result<(), AllocError>
        ensures { OnOk result (self.new ≡ self.old ++ (value ∷ []) ∷ []) }
    {
        self.do_ascend = false;
        let held = replace(&mut self.held, Held::Ints(Vec::new(alloc)));
        match push_value(alloc, held, value) {
            Ok(held) => {
                self.held = held;
                Ok(())
            }
            Err(fault) => {
                self.close.clear();
                Err(fault)
            }
        }
    }

    /// An integer more, to which no entry leads. On an error the keys are open.
    fn put_int(&mut self, alloc: Global, int: &i64) -> Result<(), AllocError>
        ensures { OnOk result (self.new ≡ self.old ++ (Int int.now ∷ []) ∷ []) }
    {
        self.do_ascend = false;
        match push_int_key(&mut self.held, alloc, int) {
            Ok(()) => Ok(()),
            Err(fault) => {
                self.close.clear();
                Err(fault)
            }
        }
    }

    /// An integer more. On an error the keys are open.
    pub fn push_int(&mut self, alloc: Global, int: &i64) -> Result<(), AllocError>
        ensures { OnOk result (self.new ≡ self.old ++ (Int int.now ∷ []) ∷ []) }
    {
        let group_index = self.len();
        self.put_int(alloc, int)?;
        enter(self.close.as_mut_slice(), &self.least, int, group_index);
        Ok(())
    }

    /// Puts a key behind the columns that the others stand in, if it has their types. On an error
    /// the keys are open.
    #[inline(always)]
    fn push_to_columns(&mut self, key: &Row) -> Result<bool, AllocError>
        ensures pushed { IfOk result (λ is_pushed. is_pushed ≡ true
            → self.new ≡ self.old ++ key.now ∷ []) }
        ensures unchanged { IfOk result (λ is_pushed. is_pushed ≡ false → self.new ≡ self.old) }
    {
        self.do_ascend = false;
        match &mut self.held {
            Held::Columns(columns) => {
                self.close.clear();
                columns.push(key)
            }
            _ => Ok(false),
        }
    }

    /// A key more. On an error the keys are open.
    pub fn push(&mut self, alloc: Global, key: Row) -> Result<(), AllocError>
        ensures { OnOk result (self.new ≡ self.old ++ key ∷ []) }
    {
        if self.push_to_columns(&key)? {
            return Ok(());
        }
        if key.len() == 1 {
            return self.push_one(alloc, only_value(key));
        }
        self.do_ascend = false;
        self.close.clear();
        let held = replace(&mut self.held, Held::Rows(Vec::new(alloc)));
        self.held = push_row(alloc, held, key, self.types.as_slice())?;
        Ok(())
    }

    /// A copy of a key more. On an error the keys are open.
    pub fn push_copy(&mut self, alloc: Global, key: &Row) -> Result<(), AllocError>
        ensures { OnOk result (self.new ≡ self.old ++ key.now ∷ []) }
    {
        if self.push_to_columns(key)? {
            return Ok(());
        }
        if let Some(int) = only_int(key) {
            return self.push_int(alloc, int);
        }
        let key = copy_key(alloc, key)?;
        self.push(alloc, key)
    }

    /// Whether the key at a group index comes before this one. Keys of two kinds aren't compared.
    #[inline(always)]
    fn comes_before(&self, group_index: usize, key: &Row) -> bool
        requires { group_index < length self.now }
        ensures { result ≡ true
            → is_lt (row_cmp (slice_index_or self.now group_index []) key.now) ≡ true }
    {
        match &self.held {
            Held::Ints(ints) => is_int_before(&ints[group_index], key),
            Held::Values(values) => is_value_before(&values[group_index], key),
            Held::Columns(columns) => columns.comes_before(group_index, key),
            Held::Rows(rows) => is_row_before(&rows[group_index], key),
        }
    }

    /// Whether a key comes behind the last of these in their order.
    #[inline(always)]
    fn is_behind_last(&self, key: &Row) -> bool
        ensures { result ≡ true → IsBehind self.now key.now }
    {
        let many = self.len();
        if many == 0 {
            return true;
        }
        self.comes_before(many - 1, key)
    }

    /// A copy of a key more, if it comes behind the last. Says whether it does. On an error the keys
    /// are open.
    pub fn push_behind(&mut self, alloc: Global, key: &Row) -> Result<bool, AllocError>
        ensures pushed { IfOk result (λ is_behind. is_behind ≡ true
            → self.new ≡ self.old ++ key.now ∷ []) }
        ensures unchanged { IfOk result (λ is_behind. is_behind ≡ false → self.new ≡ self.old) }
    {
        if !self.is_behind_last(key) {
            return Ok(false);
        }
        let do_ascend = self.do_ascend;
        self.push_copy(alloc, key)?;
        self.do_ascend = do_ascend;
        Ok(true)
    }

    /// Whether each key is less than the next, as far as that was seen while they came.
    pub fn do_ascend(&self) -> bool
        ensures { result ≡ true → DoAscend self.now }
    {
        self.do_ascend
    }

    /// The integers that are keys alone, where all keys are.
    pub fn ints(&self) -> Option<&[i64]>
        ensures { IfSome result (λ ints. int_keys ints.now ≡ self.now) }
    {
        match &self.held {
            Held::Ints(ints) => Some(ints.as_slice()),
            Held::Values(_) => None,
            Held::Columns(_) => None,
            Held::Rows(_) => None,
        }
    }

    /// The hash of the key at a group index, unless the table of close integers leads to it.
    pub fn hash_of(&self, group_index: u32) -> Option<u64> {
        match &self.held {
            Held::Ints(ints) => {
                let int = int_of(ints.as_slice(), group_index)?;
                if self.close_group_index(int) == group_index {
                    return None;
                }
                Some(hash_int(int))
            }
            Held::Values(values) => {
                let value = value_of(values.as_slice(), group_index)?;
                Some(hash_alone(value.as_value_ref()))
            }
            Held::Columns(columns) => {
                let at_index = group_index as usize;
                if at_index >= columns.len() {
                    return None;
                }
                Some(hash_columns(columns, at_index))
            }
            Held::Rows(rows) => Some(hash_row(row_of(rows.as_slice(), group_index)?)),
        }
    }

    /// The value in a column of a key, lent, and NULL past the last.
    #[inline(always)]
    pub fn value(&self, group_index: usize, at: usize) -> ValueRef<'_>
        requires { group_index < length self.now }
        ensures { value_in result ≡ column (slice_index_or self.now group_index []) at }
    {
        match &self.held {
            Held::Ints(ints) => only_at(ValueRef::Int(ints[group_index]), at),
            Held::Values(values) => only_at(values[group_index].as_value_ref(), at),
            Held::Columns(columns) => columns.value(group_index, at),
            Held::Rows(rows) => column_value(&rows[group_index], at),
        }
    }

    /// A key, in memory of its own.
    pub fn row(&self, alloc: Global, group_index: usize) -> Result<Row, AllocError>
        requires { group_index < length self.now }
        ensures { IfOk result (λ key. key ≡ slice_index_or self.now group_index []) }
    {
        match &self.held {
            Held::Ints(ints) => key_of_value(alloc, Value::Int(ints[group_index])),
            Held::Values(values) => key_of_value(alloc, values[group_index].clone()?),
            Held::Columns(columns) => columns.row(alloc, group_index),
            Held::Rows(rows) => copy_key(alloc, &rows[group_index]),
        }
    }

    /// A key, in the buffers of one that is given up.
    pub fn row_in(&self, alloc: Global, spare: Row, group_index: usize) -> Result<Row, AllocError>
        requires { group_index < length self.now }
        ensures { IfOk result (λ key. key ≡ slice_index_or self.now group_index []) }
    {
        match &self.held {
            Held::Ints(ints) => key_in_buffer(spare, Value::Int(ints[group_index])),
            Held::Values(values) => key_in_buffer(spare, values[group_index].clone()?),
            Held::Columns(columns) => columns.row_in(alloc, spare, group_index),
            Held::Rows(rows) => {
                drop(spare);
                copy_key(alloc, &rows[group_index])
            }
        }
    }

    /// The order of two keys.
    pub fn compare(&self, one: usize, other: usize) -> Ordering
        requires one { one < length self.now }
        requires other { other < length self.now }
        ensures { result ≡ row_cmp (slice_index_or self.now one [])
            (slice_index_or self.now other []) }
    {
        match &self.held {
            Held::Ints(ints) => compare_ints(&ints[one], &ints[other]),
            Held::Values(values) => compare_values(&values[one], &values[other]),
            Held::Columns(columns) => columns.compare(one, other),
            Held::Rows(rows) => compare_keys(&rows[one], &rows[other]),
        }
    }

    /// The keys as rows, in memory of their own.
    pub fn rows(&self, alloc: Global) -> Result<Vec<Row>, AllocError>
        ensures { IfOk result (λ rows. rows.items ≡ self.now) }
    {
        let mut rows = Vec::with_capacity(alloc, self.len())?;
        for group_index in 0..self.len() {
            rows.push(self.row(alloc, group_index)?)?;
        }
        Ok(rows)
    }

    /// The same keys, in memory of their own.
    pub fn copy(&self, alloc: Global) -> Result<KeyList, AllocError>
        ensures { IfOk result (λ copy. copy ≡ self.now) }
    {
        let close = Vec::from_slice(alloc, self.close.as_slice())?;
        let types = Vec::from_slice(alloc, self.types.as_slice())?;
        Ok(KeyList {
            held: copy_held(alloc, &self.held)?,
            least: self.least,
            close,
            types,
            do_ascend: self.do_ascend,
        })
    }
}
