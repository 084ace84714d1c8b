//! Groups as a batch: a column for each key and for each aggregate.
ghost use Rattle.std.specs.Prelude.{◌≡◌, ◌<◌, map, length, slice_index_or, true, All, IfOk, OnOk, Ok};
ghost use Rattle.meaning.specs.declared.answer.Group.{Group as AGroup};
ghost use Rattle.meaning.specs.declared.value.ColType.TheVariants as of_type;
ghost use Rattle.meaning.specs.declared.plan.Plan.{Plan as APlan};
ghost use Rattle.meaning.specs.declared.value.Value.{Value as AValue};
ghost use Rattle.meaning.specs.Aggregate.{no_statistics, value};
ghost use Rattle.meaning.specs.Order.{bytes, column, is_null, number, value_in};
ghost use Rattle.meaning.specs.Typing.{is_of_type, result_type};
ghost use Rattle.vectors.specs.declared.batch.ColumnReference.TheVariants as reference;
ghost use Rattle.last_step.specs.Batches.{HasAt, HasValues, IsBatchOf, IsColumnIn, IsPartOf, IsVectorOf, aggregate_in, row_in};
ghost use Rattle.last_step.specs.Fitting.{AreGroupsOf};

use crate::aggregates::value_at;
use crate::stop::Stop;
use group_by::GroupSlice;
use meaning::{Aggregate, AggregateKind, ColType, Plan, ValueRef};
use std::alloc::{AllocError, Global};
use vectors::{
    Batch, BatchColumn, ColumnReference, IntCells, Ints, Nulls, TextCells, Texts, Vector,
};

fn is_null(value: ValueRef<'_>) -> bool
    ensures { result ≡ is_null (value_in value.entry) }
{
    matches!(value, ValueRef::Null)
}

/// The integer, and 0 for what is none.
fn int_in(value: ValueRef<'_>) -> i64
    ensures { result ≡ number (value_in value.entry) }
{
    match value {
        ValueRef::Int(int) => int,
        _ => 0,
    }
}

/// The bytes of the text, and none for what is no text.
fn bytes_in(value: ValueRef<'_>) -> &[u8]
    ensures { result.now ≡ bytes (value_in value.entry) }
{
    match value {
        ValueRef::Text(bytes) => bytes,
        _ => &[],
    }
}

fn null_mask(alloc: Global, values: &[ValueRef<'_>]) -> Result<Vec<bool>, AllocError>
    ensures { IfOk result (λ mask. mask.items ≡ map (λ v. is_null (value_in v)) values.now) }
{
    values.iter().map(|value| is_null(*value)).collect(alloc)
}

fn int_cells(alloc: Global, values: &[ValueRef<'_>]) -> Result<Vec<i64>, AllocError>
    ensures { IfOk result (λ cells. cells.items ≡ map (λ v. number (value_in v)) values.now) }
{
    values.iter().map(|value| int_in(*value)).collect(alloc)
}

fn text_cells<'a>(alloc: Global, values: &[ValueRef<'a>]) -> Result<Vec<&'a [u8]>, AllocError>
    ensures { IfOk result (λ cells. map (λ t. t.now) cells.items
        ≡ map (λ v. bytes (value_in v)) values.now) }
{
    let mut cells = Vec::with_capacity(alloc, values.len())?;
    for value in values {
        cells.push(bytes_in(*value))?;
    }
    Ok(cells)
}

fn ints_of<'a>(alloc: Global, values: &[ValueRef<'_>]) -> Result<Vector<'a>, AllocError>
    requires { All (λ v. is_of_type of_type.Int v ≡ true) (map value_in values.now) }
    ensures { IfOk result (IsVectorOf of_type.Int (map value_in values.now)) }
{
    let nulls = null_mask(alloc, values)?;
    let cells = int_cells(alloc, values)?;
    Ok(Vector::Ints(Ints::new(IntCells::Owned(cells), Nulls::Owned(nulls))))
}

fn texts_of<'a>(alloc: Global, values: &[ValueRef<'a>]) -> Result<Vector<'a>, AllocError>
    requires { All (λ v. is_of_type of_type.Text v ≡ true) (map value_in values.now) }
    ensures { IfOk result (IsVectorOf of_type.Text (map value_in values.now)) }
{
    let nulls = null_mask(alloc, values)?;
    let cells = text_cells(alloc, values)?;
    Ok(Vector::Texts(Texts::new(TextCells::Owned(cells), Nulls::Owned(nulls))))
}

/// Values of a type as a vector.
fn vector_of<'a>(
    alloc: Global,
    col_type: ColType,
    values: &[ValueRef<'a>],
) -> Result<Vector<'a>, AllocError>
    requires { All (λ v. is_of_type col_type v ≡ true) (map value_in values.now) }
    ensures { IfOk result (IsVectorOf col_type (map value_in values.now)) }
{
    match col_type {
        ColType::Int => ints_of(alloc, values),
        ColType::Text => texts_of(alloc, values),
    }
}

/// The values of a key of the groups.
fn keys_of<'a>(
    alloc: Global,
    groups: &'a GroupSlice<'_>,
    key: usize,
) -> Result<Vec<ValueRef<'a>>, AllocError>
    ensures { IfOk result (λ values. map value_in values.items
        ≡ map (λ g. column g.key key) groups.now) }
{
    let mut values = Vec::with_capacity(alloc, groups.len())?;
    for k in 0..groups.len() {
        values.push(groups.key_value(k, key))?;
    }
    Ok(values)
}

/// The value of an aggregate of a group that has no fault.
fn sound_value<'a>(
    alloc: Global,
    kind: AggregateKind,
    groups: &'a GroupSlice<'_>,
    group: usize,
    aggregate: usize,
) -> Result<ValueRef<'a>, AllocError>
    requires group { group < length groups.now }
    requires aggregate { (d : AGroup)
        → aggregate < length (slice_index_or groups.now group d).states }
    requires sound { (d : AGroup) → (v : AValue) × (value kind
        (slice_index_or (slice_index_or groups.now group d).states aggregate no_statistics)
        ≡ Ok v) }
    ensures { IfOk result (λ v. (d : AGroup) → value kind
        (slice_index_or (slice_index_or groups.now group d).states aggregate no_statistics)
        ≡ Ok (value_in v)) }
{
    match value_at(alloc, kind, groups, group, aggregate) {
        Ok(value) => Ok(value),
        Err(Stop::Memory) => Err(AllocError),
        Err(Stop::Fault(_)) => unreachable!(),
    }
}

/// The values of an aggregate of the groups.
fn aggregates_of<'a>(
    alloc: Global,
    kind: AggregateKind,
    groups: &'a GroupSlice<'_>,
    aggregate: usize,
) -> Result<Vec<ValueRef<'a>>, AllocError>
    requires { (plan : APlan) × All (HasAt plan kind aggregate) groups.now }
    ensures { IfOk result (λ values. (plan : APlan) → All (HasAt plan kind aggregate) groups.now
        → map value_in values.items ≡ map (aggregate_in plan aggregate) groups.now) }
{
    let mut values = Vec::with_capacity(alloc, groups.len())?;
    for k in 0..groups.len() {
        values.push(sound_value(alloc, kind, groups, k, aggregate)?)?;
    }
    Ok(values)
}

fn result_type(kind: AggregateKind, col_type: ColType) -> ColType
    ensures { result ≡ result_type kind col_type }
{
    match kind {
        AggregateKind::Min => col_type,
        AggregateKind::Max => col_type,
        AggregateKind::CountRows => ColType::Int,
        AggregateKind::Count => ColType::Int,
        AggregateKind::Sum => ColType::Int,
        AggregateKind::Avg => ColType::Int,
        AggregateKind::CountDistinct => ColType::Int,
        AggregateKind::SumDistinct => ColType::Int,
    }
}

fn key_column<'a>(
    alloc: Global,
    plan: &Plan,
    groups: &'a GroupSlice<'_>,
    key: usize,
) -> Result<BatchColumn<'a>, AllocError>
    requires within { key < length plan.now.keys }
    requires groups { AreGroupsOf plan.now groups.now }
    ensures { IfOk result (IsColumnIn plan.now groups.now (reference.Key key)) }
{
    let keys = plan.keys.as_slice();
    let values = keys_of(alloc, groups, key)?;
    let lanes = vector_of(alloc, keys[key].col_type, values.as_slice())?;
    Ok(BatchColumn {
        reference: ColumnReference::Key { key },
        lanes,
    })
}

fn aggregate_column<'a>(
    alloc: Global,
    plan: &Plan,
    groups: &'a GroupSlice<'_>,
    aggregate: usize,
) -> Result<BatchColumn<'a>, AllocError>
    requires within { aggregate < length plan.now.aggs }
    requires groups { AreGroupsOf plan.now groups.now }
    requires values { All (HasValues plan.now) groups.now }
    ensures { IfOk result (IsColumnIn plan.now groups.now (reference.Aggregate aggregate)) }
{
    let Aggregate { kind, col_type, .. } = &plan.aggs.as_slice()[aggregate];
    let values = aggregates_of(alloc, *kind, groups, aggregate)?;
    let lanes = vector_of(alloc, result_type(*kind, *col_type), values.as_slice())?;
    Ok(BatchColumn {
        reference: ColumnReference::Aggregate { aggregate },
        lanes,
    })
}

fn push_keys<'a>(
    alloc: Global,
    plan: &Plan,
    groups: &'a GroupSlice<'_>,
    batch: &mut Batch<'a>,
) -> Result<(), AllocError>
    requires groups { AreGroupsOf plan.now groups.now }
    requires batch { IsPartOf plan.now groups.now 0 0 batch.old }
    ensures { OnOk result (IsPartOf plan.now groups.now (length plan.now.keys) 0 batch.new) }
{
    for key in 0..plan.keys.len() {
        batch.push(key_column(alloc, plan, groups, key)?)?;
    }
    Ok(())
}

fn push_aggregates<'a>(
    alloc: Global,
    plan: &Plan,
    groups: &'a GroupSlice<'_>,
    batch: &mut Batch<'a>,
) -> Result<(), AllocError>
    requires groups { AreGroupsOf plan.now groups.now }
    requires values { All (HasValues plan.now) groups.now }
    requires batch { IsPartOf plan.now groups.now (length plan.now.keys) 0 batch.old }
    ensures { OnOk result (IsPartOf plan.now groups.now (length plan.now.keys)
        (length plan.now.aggs) batch.new) }
{
    for aggregate in 0..plan.aggs.len() {
        batch.push(aggregate_column(alloc, plan, groups, aggregate)?)?;
    }
    Ok(())
}

/// The groups as a batch, of which no aggregate has a fault.
pub fn batch_of<'a>(
    alloc: Global,
    plan: &Plan,
    groups: &'a GroupSlice<'_>,
) -> Result<Batch<'a>, AllocError>
    requires groups { AreGroupsOf plan.now groups.now }
    requires values { All (HasValues plan.now) groups.now }
    ensures { IfOk result (IsBatchOf plan.now (map (row_in plan.now) groups.now)) }
{
    let mut batch = Batch::new(alloc, groups.len());
    push_keys(alloc, plan, groups, &mut batch)?;
    push_aggregates(alloc, plan, groups, &mut batch)?;
    Ok(batch)
}
