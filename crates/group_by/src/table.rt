//! A table of groups that grows by rows and by groups.
ghost use Rattle.std.specs.Prelude.{◌≡◌, ℕ, ◌<◌, ◌≤◌, ◌+◌, false, length, map, slice_index_or, sum, replicate, All, IfOk, OnOk};
ghost use Rattle.meaning.specs.Aggregate.{no_statistics};
ghost use Rattle.meaning.specs.Group.{certain_keys};
ghost use Rattle.aggregate_states.specs.State.{most_entries};
ghost use Rattle.group_index.specs.Keys.{empty_key};
ghost use Rattle.group_by.specs.Shape.{shape_of, shape_with};
ghost use Rattle.group_by.specs.Groups.{all_rows, fresh, with_rows, with_groups};
ghost use Rattle.accumulators.specs.Columns.{no_column};
ghost use Rattle.group_by.specs.GroupIndexes.{state_at, AreAbsorbed, AreAdded, AreFresh, IsAbsorbed, IsWellFormed};
ghost use Rattle.group_keys.specs.Rows.{rows_at, AreLanesOf};
ghost use Rattle.group_by.specs.Rows.{kept_rows, IsGroupOf};

use crate::counts::{count_rows, raise};
use crate::handing_out::{in_order, ordered_groups};
use crate::ordered_groups::OrderedGroups;
use crate::state_columns::{copy_columns, fresh_columns, merge_all, ordered_columns, update_all};
use accumulators::{Group, StateColumn};
use group_index::KeyIndex;
use meaning::{Aggregate, Plan, Sequence};
use std::alloc::{AllocError, Global};
use std::marker::Model;
use vectors::{Selection, Vector};

/// A table of groups. Contracts see the groups in the order of their keys, whatever the order in
/// which rows came, how many rows were taken in all, and how many groups were handed to
/// `absorb_groups`.
#[derive(Drop)]
pub struct GroupTable {
    // Whether the empty key has a group in any case.
    is_certain: bool,
    index: KeyIndex,
    // By the group indexes of the keys, as the states in the columns are.
    rows: Vec<u64>,
    columns: Vec<StateColumn>,
    taken: u64,
    handed: u64,
}

impl Model for GroupTable {
    ghost use Rattle.group_by.specs.Shape.{GroupsSpec};
    ghost use Rattle.group_by.specs.GroupIndexes.{table_of, IsWellFormed};

    ghost Value = { GroupsSpec };

    ghost view = { λ t. table_of t.is_certain t.index.keys t.rows.items t.columns.items t.taken
        t.handed };

    ghost invariant = { λ t. IsWellFormed t.is_certain t.index.keys t.rows.items t.columns.items
        t.taken };
}

/// Rows that are selected of vectors: a key of each, and an argument of each aggregate.
#[derive(Clone, Copy)]
struct SelectedRows<'a> {
    keys: &'a [Vector<'a>],
    arguments: &'a [Vector<'a>],
    selection: &'a Selection,
}

/// Finds the group indexes of the selected rows, and counts them and their arguments there. On an
/// error all of it is open.
fn add_rows(
    alloc: Global,
    index: &mut KeyIndex,
    rows: &mut Vec<u64>,
    columns: &mut Vec<StateColumn>,
    selected: &SelectedRows<'_>,
) -> Result<(), AllocError>
    requires keys { AreLanesOf selected.now.selection.now.below selected.now.keys.now }
    requires arguments { AreLanesOf selected.now.selection.now.below selected.now.arguments.now }
    requires widths { length selected.now.arguments.now ≡ length columns.old.items }
    requires counted { length rows.old.items ≡ length index.old.keys }
    requires heights { (c : ℕ)
        → length (slice_index_or columns.old.items c no_column).states ≤ length index.old.keys }
    requires few { sum rows.old.items + length selected.now.selection.now.list ≤ most_entries }
    requires states { (c group_index : ℕ)
        → (state_at columns.old.items c group_index).count + length selected.now.selection.now.list
        ≤ most_entries }
    ensures { OnOk result
        (AreAdded (rows_at selected.now.keys.now selected.now.selection.now.list)
        (rows_at selected.now.arguments.now selected.now.selection.now.list) index.old.keys
        rows.old.items columns.old.items index.new.keys rows.new.items columns.new.items) }
{
    let group_indexes = index.find_group_indexes(alloc, selected.keys, selected.selection)?;
    let height = index.keys.len();
    count_rows(rows, height, &group_indexes)?;
    update_all(
        columns.as_mut_slice(),
        alloc,
        height,
        &group_indexes,
        selected.arguments,
        selected.selection,
    )?;
    Ok(())
}

/// Row counts and columns of so many groups of no row.
fn fresh_parts(
    alloc: Global,
    aggregates: &[Aggregate],
    height: usize,
) -> Result<(Vec<u64>, Vec<StateColumn>), AllocError>
    ensures rows { IfOk result (λ parts. parts.0.items ≡ replicate height 0) }
    ensures columns { IfOk result
        (λ parts. AreFresh height (map (λ a. a.kind) aggregates.now) parts.1.items) }
{
    let rows = vec![in alloc; 0; height]?;
    let columns = fresh_columns(alloc, aggregates, height)?;
    Ok((rows, columns))
}

fn copy_parts(
    alloc: Global,
    rows: &[u64],
    columns: &[StateColumn],
) -> Result<(Vec<u64>, Vec<StateColumn>), AllocError>
    ensures rows { IfOk result (λ parts. parts.0.items ≡ rows.now) }
    ensures columns { IfOk result (λ parts. parts.1.items ≡ columns.now) }
{
    let rows = Vec::from_slice(alloc, rows)?;
    let columns = copy_columns(alloc, columns)?;
    Ok((rows, columns))
}

/// Whether the empty key has a group in any case.
fn has_certain_key(plan: &Plan) -> bool
    ensures { empty_key result ≡ certain_keys plan.now.plain plan.now.keys }
{
    match (plan.plain, plan.keys.as_slice()) {
        (false, []) => true,
        _ => false,
    }
}

/// Finds the group index of a group's key, and merges the group there. On an error all of it is
/// open.
fn add_group(
    alloc: Global,
    index: &mut KeyIndex,
    rows: &mut Vec<u64>,
    columns: &mut Vec<StateColumn>,
    group: &Group,
) -> Result<(), AllocError>
    requires widths { length group.now.states ≡ length columns.old.items }
    requires counted { length rows.old.items ≡ length index.old.keys }
    requires heights { (c : ℕ)
        → length (slice_index_or columns.old.items c no_column).states ≤ length index.old.keys }
    requires few { sum rows.old.items + group.now.rows ≤ most_entries }
    requires states { (c group_index : ℕ) → c < length columns.old.items
        → (state_at columns.old.items c group_index).count +
        (slice_index_or group.now.states c no_statistics).count ≤ most_entries }
    ensures { OnOk result (IsAbsorbed group.now index.old.keys rows.old.items columns.old.items
        index.new.keys rows.new.items columns.new.items) }
{
    let group_index = index.group_index_of_row(alloc, group.key())? as usize;
    let height = index.keys.len();
    raise(rows, height, group_index, group.rows())?;
    merge_all(
        columns.as_mut_slice(),
        alloc,
        height,
        group_index,
        group.states(),
    )?;
    Ok(())
}

/// Finds the group index of each group's key, and merges the group there. Gives how many rows are
/// taken then. On an error all of it is open.
fn add_groups(
    alloc: Global,
    index: &mut KeyIndex,
    rows: &mut Vec<u64>,
    columns: &mut Vec<StateColumn>,
    taken: u64,
    groups: &[Group],
) -> Result<u64, AllocError>
    // Asked as of a table without a certain key, since one with it meets that too.
    requires well_formed { IsWellFormed false index.old.keys rows.old.items columns.old.items
        taken }
    requires fit { All (IsGroupOf (shape_with false (map (λ c. c.kind) columns.old.items)))
        groups.now }
    requires few { taken + all_rows groups.now ≤ most_entries }
    ensures { IfOk result (λ total. AreAbsorbed groups.now index.old.keys rows.old.items
        columns.old.items taken index.new.keys rows.new.items columns.new.items total) }
{
    let mut total = taken;
    for group in groups {
        add_group(alloc, index, rows, columns, group)?;
        total += group.rows();
    }
    Ok(total)
}

impl GroupTable {
    /// The groups of no row.
    pub fn new(alloc: Global, plan: &Plan) -> Result<GroupTable, AllocError>
        ensures { IfOk result (λ t. t ≡ fresh (shape_of plan.now)) }
    {
        let is_certain = has_certain_key(plan);
        let index = KeyIndex::certain(alloc, is_certain, plan.keys.as_slice())?;
        match fresh_parts(alloc, plan.aggs.as_slice(), index.keys.len()) {
            Ok((rows, columns)) => Ok(GroupTable {
                is_certain,
                index,
                rows,
                columns,
                taken: 0,
                handed: 0,
            }),
            Err(fault) => Err(fault),
        }
    }

    /// Takes groups, each merged with that of its key. A refusal gives the table up.
    pub fn absorb_groups(self, alloc: Global, groups: &[Group]) -> Result<GroupTable, AllocError>
        requires fit { All (IsGroupOf self.shape) groups.now }
        requires handed { self.handed + length groups.now < 9223372036854775808 }
        requires few { self.rows + all_rows groups.now ≤ most_entries }
        ensures { IfOk result (λ t. t ≡ with_groups self groups.now) }
    {
        let GroupTable {
            is_certain,
            mut index,
            mut rows,
            mut columns,
            taken,
            handed,
        } = self;
        let many = groups.len() as u64;
        match add_groups(alloc, &mut index, &mut rows, &mut columns, taken, groups) {
            Ok(taken) => Ok(GroupTable {
                is_certain,
                index,
                rows,
                columns,
                taken,
                handed: handed + many,
            }),
            Err(fault) => Err(fault),
        }
    }

    /// An equal table, in memory of its own.
    pub fn copy(&self, alloc: Global) -> Result<GroupTable, AllocError>
        ensures { IfOk result (λ t. t ≡ self.now) }
    {
        let index = self.index.copy(alloc)?;
        match copy_parts(alloc, self.rows.as_slice(), self.columns.as_slice()) {
            Ok((rows, columns)) => Ok(GroupTable {
                is_certain: self.is_certain,
                index,
                rows,
                columns,
                taken: self.taken,
                handed: self.handed,
            }),
            Err(fault) => Err(fault),
        }
    }

    /// Takes the selected rows, each with its key and an argument of each aggregate. A refusal
    /// gives the table up.
    pub fn add(
        self,
        alloc: Global,
        keys: &[Vector<'_>],
        arguments: &[Vector<'_>],
        selection: &Selection,
    ) -> Result<GroupTable, AllocError>
        requires keys { AreLanesOf selection.now.below keys.now }
        requires arguments { AreLanesOf selection.now.below arguments.now }
        requires widths { length arguments.now ≡ length self.shape.kinds }
        requires few { self.rows + length selection.now.list ≤ most_entries }
        ensures { IfOk result (λ t. t
            ≡ with_rows self (kept_rows keys.now arguments.now selection.now.list)) }
    {
        let GroupTable {
            is_certain,
            mut index,
            mut rows,
            mut columns,
            taken,
            handed,
        } = self;
        let many = selection.len() as u64;
        let selected = SelectedRows {
            keys,
            arguments,
            selection,
        };
        match add_rows(alloc, &mut index, &mut rows, &mut columns, &selected) {
            Ok(()) => Ok(GroupTable {
                is_certain,
                index,
                rows,
                columns,
                taken: taken + many,
                handed,
            }),
            Err(fault) => Err(fault),
        }
    }

    /// The groups in the order of their keys.
    pub fn into_groups(self, alloc: Global) -> Result<Sequence<Group>, AllocError>
        ensures value { IfOk result (λ groups. groups ≡ self.groups) }
        ensures fit { IfOk result (λ groups. All (IsGroupOf self.shape) groups) }
        ensures rows { IfOk result (λ groups. all_rows groups ≡ self.rows) }
    {
        self.groups(alloc)
    }

    /// The groups in the order of their keys.
    pub fn groups(&self, alloc: Global) -> Result<Sequence<Group>, AllocError>
        ensures value { IfOk result (λ groups. groups ≡ self.now.groups) }
        ensures fit { IfOk result (λ groups. All (IsGroupOf self.now.shape) groups) }
        ensures rows { IfOk result (λ groups. all_rows groups ≡ self.now.rows) }
    {
        let groups = in_order(
            alloc,
            &self.index.keys,
            self.rows.as_slice(),
            self.columns.as_slice(),
        )?;
        Ok(Sequence::from_vec(groups))
    }

    /// The groups in the order of their keys, of which a batch may be asked for at a time.
    pub fn ordered(&self, alloc: Global) -> Result<OrderedGroups<'_>, AllocError>
        ensures value { IfOk result (λ groups. groups ≡ self.now.groups) }
        ensures fit { IfOk result (λ groups. All (IsGroupOf self.now.shape) groups) }
        ensures rows { IfOk result (λ groups. all_rows groups ≡ self.now.rows) }
    {
        let columns = ordered_columns(alloc, self.columns.as_slice())?;
        ordered_groups(alloc, &self.index.keys, self.rows.as_slice(), columns)
    }

    /// How many groups were handed to `absorb_groups`, the copied table's too. Takes no memory.
    pub fn merged(&self) -> u64
        ensures { result ≡ self.now.handed }
    {
        self.handed
    }
}
