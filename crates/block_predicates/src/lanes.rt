//! Entries as the lanes of a vector.
ghost use Rattle.std.specs.Prelude.{◌≡◌, ◌≤◌, true, length, map, IfOk};
ghost use Rattle.std.specs.List.{list_all};
ghost use Rattle.meaning.specs.declared.outcome.Outcome.TheVariants as gives;
ghost use Rattle.meaning.specs.declared.value.ColType.TheVariants as of_type;
ghost use Rattle.meaning.specs.Order.{bytes, is_null, number, value_in};
ghost use Rattle.meaning.specs.Typing.{is_of_type};
ghost use Rattle.vectors.specs.Vector.{HasLanesOf, outcomes_of};
ghost use Rattle.block_predicates.specs.Entries.{lanes_of, values_in};

use crate::entries::Entries;
use meaning::{ColType, ValueRef};
use std::alloc::{AllocError, Global};
use vectors::{IntCells, Ints, Nulls, TextCells, Texts, Vector};

fn number_of(value: ValueRef<'_>) -> i64
    ensures { result ≡ number (value_in value.entry) }
{
    match value {
        ValueRef::Null => 0,
        ValueRef::Int(number) => number,
        ValueRef::Text(_) => 0,
    }
}

fn bytes_of<'a>(value: ValueRef<'a>) -> &'a [u8]
    ensures { result.now ≡ bytes (value_in value.entry) }
{
    match value {
        ValueRef::Null => &[],
        ValueRef::Int(_) => &[],
        ValueRef::Text(text) => text,
    }
}

fn is_null_value(value: ValueRef<'_>) -> bool
    ensures { result ≡ is_null (value_in value.entry) }
{
    match value {
        ValueRef::Null => true,
        ValueRef::Int(_) => false,
        ValueRef::Text(_) => false,
    }
}

/// Which of so many lanes are NULL.
fn nulls_of(alloc: Global, entries: &Entries<'_>, count: usize) -> Result<Vec<bool>, AllocError>
    ensures { IfOk result (λ nulls. nulls.items
        ≡ map is_null (lanes_of (values_in entries.now) count)) }
{
    let mut nulls = Vec::with_capacity(alloc, count)?;
    for lane in 0..count {
        nulls.push(is_null_value(entries.lane(lane)))?;
    }
    Ok(nulls)
}

/// The integers of so many lanes.
fn ints_of(alloc: Global, entries: &Entries<'_>, count: usize) -> Result<Vec<i64>, AllocError>
    ensures { IfOk result (λ ints. ints.items
        ≡ map number (lanes_of (values_in entries.now) count)) }
{
    let mut ints = Vec::with_capacity(alloc, count)?;
    for lane in 0..count {
        ints.push(number_of(entries.lane(lane)))?;
    }
    Ok(ints)
}

/// The texts of so many lanes.
fn texts_of<'a>(
    alloc: Global,
    entries: &Entries<'a>,
    count: usize,
) -> Result<Vec<&'a [u8]>, AllocError>
    ensures { IfOk result (λ texts. map (λ t. t.now) texts.items
        ≡ map bytes (lanes_of (values_in entries.now) count)) }
{
    let mut texts = Vec::with_capacity(alloc, count)?;
    for lane in 0..count {
        texts.push(bytes_of(entries.lane(lane)))?;
    }
    Ok(texts)
}

fn int_lanes<'a>(
    alloc: Global,
    entries: &Entries<'a>,
    count: usize,
) -> Result<Vector<'a>, AllocError>
    requires { list_all (is_of_type of_type.Int) (lanes_of (values_in entries.now) count) ≡ true }
    ensures values { IfOk result (λ v. outcomes_of v
        ≡ map gives.Value (lanes_of (values_in entries.now) count)) }
    ensures typed { IfOk result (HasLanesOf of_type.Int) }
{
    let nulls = nulls_of(alloc, entries, count)?;
    let ints = ints_of(alloc, entries, count)?;
    Ok(Vector::Ints(Ints::new(IntCells::Owned(ints), Nulls::Owned(nulls))))
}

fn text_lanes<'a>(
    alloc: Global,
    entries: &Entries<'a>,
    count: usize,
) -> Result<Vector<'a>, AllocError>
    requires { list_all (is_of_type of_type.Text) (lanes_of (values_in entries.now) count) ≡ true }
    ensures values { IfOk result (λ v. outcomes_of v
        ≡ map gives.Value (lanes_of (values_in entries.now) count)) }
    ensures typed { IfOk result (HasLanesOf of_type.Text) }
{
    let nulls = nulls_of(alloc, entries, count)?;
    let texts = texts_of(alloc, entries, count)?;
    Ok(Vector::Texts(Texts::new(TextCells::Owned(texts), Nulls::Owned(nulls))))
}

/// So many lanes of a type: the entries, and NULL behind the last.
pub fn entry_lanes<'a>(
    alloc: Global,
    col_type: ColType,
    entries: &Entries<'a>,
    count: usize,
) -> Result<Vector<'a>, AllocError>
    requires { list_all (is_of_type col_type) (lanes_of (values_in entries.now) count) ≡ true }
    ensures values { IfOk result (λ v. outcomes_of v
        ≡ map gives.Value (lanes_of (values_in entries.now) count)) }
    ensures typed { IfOk result (HasLanesOf col_type) }
{
    match col_type {
        ColType::Int => int_lanes(alloc, entries, count),
        ColType::Text => text_lanes(alloc, entries, count),
    }
}
