//! A column of states for each aggregate.
ghost use Rattle.std.specs.Prelude.{◌≡◌, ℕ, ◌<◌, ◌≤◌, ◌+◌, length, map, zip, slice_index_or, true, All, IfOk, OnOk};
ghost use Rattle.meaning.specs.Aggregate.{no_statistics};
ghost use Rattle.accumulators.specs.Columns.{of_states, no_column};
ghost use Rattle.aggregate_states.specs.Entries.{with_entries};
ghost use Rattle.aggregate_states.specs.State.{most_entries};
ghost use Rattle.aggregate_states.specs.Values.{is_spelled, selected};
ghost use Rattle.vectors.specs.Vector.{values_of};
ghost use Rattle.group_by.specs.GroupIndexes.{state_at, state_in, AreFresh, AreMerged, AreUpdated, IsMerged, IsUpdated};
ghost use Rattle.group_index.specs.RowGroups.{listed};
ghost use Rattle.group_keys.specs.Rows.{rows_at, AreLanesOf};

use accumulators::{OrderedStates, State, StateColumn};
use group_index::RowGroups;
use meaning::{Aggregate, AggregateKind};
use std::alloc::{AllocError, Global};
use vectors::{Selection, Vector};

/// A state of no entry at each group index that has none yet.
fn fill(column: &mut StateColumn, height: usize) -> Result<(), AllocError>
    requires { length column.old.states ≤ height }
    ensures kind { column.new.kind ≡ column.old.kind }
    ensures height { OnOk result (length column.new.states ≡ height) }
    ensures states { OnOk result ((group_index : ℕ)
        → state_in column.new group_index ≡ state_in column.old group_index) }
{
    for _ in column.len()..height {
        column.push()?;
    }
    Ok(())
}

/// The selected values go to the states at their group indexes, each of which has one.
fn update_filled(
    column: &mut StateColumn,
    alloc: Global,
    group_indexes: &RowGroups,
    lanes: &Vector<'_>,
    selection: &Selection,
) -> Result<(), AllocError>
    requires group_indexes { length (listed group_indexes.now) ≡ length selection.now.list }
    requires within { All (λ group_index. group_index < length column.old.states)
        (listed group_indexes.now) }
    requires lanes { length (values_of lanes.now) ≡ selection.now.below }
    requires spelled { All (λ v. is_spelled v ≡ true) (values_of lanes.now) }
    requires few { (group_index : ℕ)
        → (state_in column.old group_index).count + length selection.now.list ≤ most_entries }
    ensures { OnOk result (column.new
        ≡ of_states column.old (with_entries column.old.kind column.old.states
        (zip (listed group_indexes.now) (selected (values_of lanes.now) selection.now.list)))) }
{
    match group_indexes {
        RowGroups::One { group_index, .. } => column.update_at(
            alloc,
            *group_index as usize,
            lanes,
            selection,
        ),
        RowGroups::Each(group_indexes) => column.update(
            alloc,
            group_indexes.as_slice(),
            lanes,
            selection,
        ),
    }
}

/// The selected values go to the states at their group indexes.
fn update(
    column: &mut StateColumn,
    alloc: Global,
    height: usize,
    group_indexes: &RowGroups,
    lanes: &Vector<'_>,
    selection: &Selection,
) -> Result<(), AllocError>
    requires longer { length column.old.states ≤ height }
    requires group_indexes { length (listed group_indexes.now) ≡ length selection.now.list }
    requires within { All (λ group_index. group_index < height) (listed group_indexes.now) }
    requires lanes { length (values_of lanes.now) ≡ selection.now.below }
    requires spelled { All (λ v. is_spelled v ≡ true) (values_of lanes.now) }
    requires few { (group_index : ℕ)
        → (state_in column.old group_index).count + length selection.now.list ≤ most_entries }
    ensures { OnOk result (IsUpdated height (zip (listed group_indexes.now)
        (selected (values_of lanes.now) selection.now.list)) column.old column.new) }
{
    fill(column, height)?;
    update_filled(column, alloc, group_indexes, lanes, selection)?;
    Ok(())
}

/// Each aggregate's selected arguments go to the states at their group indexes. On an error the
/// states are open.
pub fn update_all(
    columns: &mut [StateColumn],
    alloc: Global,
    height: usize,
    group_indexes: &RowGroups,
    arguments: &[Vector<'_>],
    selection: &Selection,
) -> Result<(), AllocError>
    requires longer { (c : ℕ) → length (slice_index_or columns.old c no_column).states ≤ height }
    requires widths { length arguments.now ≡ length columns.old }
    requires group_indexes { length (listed group_indexes.now) ≡ length selection.now.list }
    requires within { All (λ group_index. group_index < height) (listed group_indexes.now) }
    requires arguments { AreLanesOf selection.now.below arguments.now }
    requires few { (c group_index : ℕ)
        → (state_at columns.old c group_index).count + length selection.now.list ≤ most_entries }
    ensures { OnOk result (AreUpdated height (listed group_indexes.now)
        (rows_at arguments.now selection.now.list) columns.old columns.new) }
{
    for k in 0..columns.len() {
        update(
            &mut columns[k],
            alloc,
            height,
            group_indexes,
            &arguments[k],
            selection,
        )?;
    }
    Ok(())
}

/// A state goes to the one at its group index.
fn merge(
    column: &mut StateColumn,
    alloc: Global,
    height: usize,
    group_index: usize,
    state: &State,
) -> Result<(), AllocError>
    requires longer { length column.old.states ≤ height }
    requires within { group_index < height }
    requires few { (state_in column.old group_index).count + state.now.count ≤ most_entries }
    ensures { OnOk result (IsMerged height group_index state.now column.old column.new) }
{
    fill(column, height)?;
    column.merge_at(alloc, group_index, state)?;
    Ok(())
}

/// Each aggregate's state goes to the one at the group's index. On an error the states are open.
pub fn merge_all(
    columns: &mut [StateColumn],
    alloc: Global,
    height: usize,
    group_index: usize,
    states: &[State],
) -> Result<(), AllocError>
    requires longer { (c : ℕ) → length (slice_index_or columns.old c no_column).states ≤ height }
    requires widths { length states.now ≡ length columns.old }
    requires within { group_index < height }
    requires few { (c : ℕ) → c < length columns.old → (state_at columns.old c group_index).count
        + (slice_index_or states.now c no_statistics).count ≤ most_entries }
    ensures { OnOk result (AreMerged height group_index states.now columns.old columns.new) }
{
    for k in 0..columns.len() {
        merge(&mut columns[k], alloc, height, group_index, &states[k])?;
    }
    Ok(())
}

/// A column for each aggregate, with a state of no entry for each of so many groups.
pub fn fresh_columns(
    alloc: Global,
    aggregates: &[Aggregate],
    height: usize,
) -> Result<Vec<StateColumn>, AllocError>
    ensures { IfOk result (λ columns. AreFresh height (map (λ a. a.kind) aggregates.now)
        columns.items) }
{
    let mut columns = Vec::with_capacity(alloc, aggregates.len())?;
    for aggregate in aggregates {
        columns.push(fresh_column(alloc, aggregate.kind, height)?)?;
    }
    Ok(columns)
}

fn fresh_column(
    alloc: Global,
    kind: AggregateKind,
    height: usize,
) -> Result<StateColumn, AllocError>
    ensures { IfOk result (λ c. (c.kind ≡ kind) × (length c.states ≡ height)
        × ((group_index : ℕ) → state_in c group_index ≡ no_statistics)) }
{
    let mut column = StateColumn::new(alloc, kind);
    fill(&mut column, height)?;
    Ok(column)
}

/// The columns, in memory of their own.
pub fn copy_columns(alloc: Global, columns: &[StateColumn]) -> Result<Vec<StateColumn>, AllocError>
    ensures { IfOk result (λ copy. copy.items ≡ columns.now) }
{
    let mut copy = Vec::with_capacity(alloc, columns.len())?;
    for column in columns {
        copy.push(column.copy(alloc)?)?;
    }
    Ok(copy)
}

/// The columns as states are handed out from them.
pub fn ordered_columns(
    alloc: Global,
    columns: &[StateColumn],
) -> Result<Vec<OrderedStates<'_>>, AllocError>
    ensures { IfOk result (λ ordered. ordered.items ≡ columns.now) }
{
    let mut ordered = Vec::with_capacity(alloc, columns.len())?;
    for column in columns {
        ordered.push(column.ordered(alloc)?)?;
    }
    Ok(ordered)
}
