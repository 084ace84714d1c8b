//! Groups at their group indexes, of which none is made before it is asked for.
ghost use Rattle.std.specs.Prelude.{◌≡◌, ℕ, ◌<◌, ◌≤◌, ◌-◌, [], length, slice_index_or, take, drop, true, All, IfOk};
ghost use Rattle.meaning.specs.declared.answer.Group.{Group as AGroup};
ghost use Rattle.meaning.specs.Aggregate.{no_statistics, value};
ghost use Rattle.meaning.specs.Order.{column, value_in};
ghost use Rattle.meaning.specs.Wanting.{ReportsIfMemory};
ghost use Rattle.aggregate_states.specs.Fault.{fault_returned};
ghost use Rattle.aggregate_states.specs.Values.{fits};
ghost use Rattle.group_by.specs.GroupIndexes.{group_at, state_at};
ghost use Rattle.group_by.specs.KeyOrder.{groups_at, AreThere};

use crate::handing_out::{group_of, regroup};
use accumulators::{Group, OrderedStates};
use aggregate_states::AggFault;
use group_index::KeyList;
use meaning::{AggregateKind, Row, ValueRef};
use std::alloc::{AllocError, Global};
use std::marker::Model;

/// The group at a group index, in the buffers of one that is given up, if there is one.
fn next_group(
    alloc: Global,
    spare: Option<Group>,
    keys: &KeyList,
    rows: &[u64],
    columns: &[OrderedStates<'_>],
    group_index: usize,
) -> Result<Group, AllocError>
    requires keys { group_index < length keys.now }
    requires rows { length rows.now ≡ length keys.now }
    requires columns { All (λ c. length c.states ≡ length keys.now) columns.now }
    ensures { IfOk result (λ g. g ≡ group_at rows.now columns.now
        (slice_index_or keys.now group_index []) group_index) }
{
    match spare {
        Some(spare) => {
            let (key, _, states) = spare.into_parts();
            let key = keys.row_in(alloc, key, group_index)?;
            regroup(alloc, key, states.into_vec(), rows, columns, group_index)
        }
        None => {
            let key = keys.row(alloc, group_index)?;
            group_of(alloc, key, rows, columns, group_index)
        }
    }
}

/// The groups at these group indexes, in the buffers of groups that are given up.
pub fn made_groups(
    alloc: Global,
    spare: Vec<Group>,
    keys: &KeyList,
    order: &[usize],
    rows: &[u64],
    columns: &[OrderedStates<'_>],
) -> Result<Vec<Group>, AllocError>
    requires order { All (λ group_index. group_index < length keys.now) order.now }
    requires rows { length rows.now ≡ length keys.now }
    requires columns { All (λ c. length c.states ≡ length keys.now) columns.now }
    ensures { IfOk result (λ groups. groups.items
        ≡ groups_at keys.now rows.now columns.now order.now) }
{
    let mut spare = spare;
    let mut groups = Vec::with_capacity(alloc, order.len())?;
    for k in 0..order.len() {
        groups.push(next_group(alloc, spare.pop(), keys, rows, columns, order[k])?)?;
    }
    Ok(groups)
}

/// Groups in some order, none of them made.
#[derive(Drop)]
pub struct UnmadeGroups<'a> {
    keys: &'a KeyList,
    order: Vec<usize>,
    rows: &'a [u64],
    columns: Vec<OrderedStates<'a>>,
}

impl<'a> Model for UnmadeGroups<'a> {
    ghost use Rattle.std.specs.Prelude.{List};
    ghost use Rattle.meaning.specs.declared.answer.Group.{Group as AGroup};
    ghost use Rattle.group_by.specs.KeyOrder.{groups_at, AreThere};

    ghost Value = { List AGroup };

    ghost view = { λ g. groups_at g.keys.now g.rows.now g.columns.items g.order.items };

    ghost invariant = { λ g. AreThere g.keys.now g.rows.now g.columns.items g.order.items };
}

impl<'a> UnmadeGroups<'a> {
    /// The groups at these group indexes.
    pub fn new(
        keys: &'a KeyList,
        order: Vec<usize>,
        rows: &'a [u64],
        columns: Vec<OrderedStates<'a>>,
    ) -> UnmadeGroups<'a>
        requires { AreThere keys.now rows.now columns.items order.items }
        ensures { result ≡ groups_at keys.entry.now rows.entry.now columns.entry.items
            order.items }
    {
        UnmadeGroups {
            keys,
            order,
            rows,
            columns,
        }
    }

    /// How many groups there are.
    pub fn len(&self) -> usize
        ensures { result ≡ length self.now }
    {
        self.order.len()
    }

    /// The groups from one place up to another, in the buffers of groups that are given up.
    pub fn batch(
        &self,
        alloc: Global,
        from: usize,
        to: usize,
        spare: Vec<Group>,
    ) -> Result<Vec<Group>, AllocError>
        requires ordered { from ≤ to }
        requires within { to ≤ length self.now }
        ensures { IfOk result (λ groups. groups.items ≡ take (to - from) (drop from self.now)) }
    {
        let order = self.order.as_slice();
        made_groups(
            alloc,
            spare,
            self.keys,
            &order[from..to],
            self.rows,
            self.columns.as_slice(),
        )
    }

    /// The groups from one place up to another, lent: none is made for it.
    pub fn slice(&self, from: usize, to: usize) -> UnmadeSlice<'_>
        requires ordered { from ≤ to }
        requires within { to ≤ length self.now }
        ensures { result ≡ take (to - from) (drop from self.now) }
    {
        let order = self.order.as_slice();
        UnmadeSlice {
            keys: self.keys,
            order: &order[from..to],
            rows: self.rows,
            columns: self.columns.as_slice(),
        }
    }
}

/// The group index of a group of a slice.
#[inline(always)]
fn group_index_of(order: &[usize], group: usize) -> usize
    requires { group < length order.now }
    ensures { (d : ℕ) → result ≡ slice_index_or order.now group d }
{
    order[group]
}

/// The value of an aggregate of a kind with the state at a group index of a column.
fn value_at<'a>(
    alloc: Global,
    kind: AggregateKind,
    columns: &'a [OrderedStates<'a>],
    aggregate: usize,
    group_index: usize,
) -> Result<ValueRef<'a>, AggFault>
    requires aggregate { aggregate < length columns.now }
    requires heights { All (λ c. group_index < length c.states) columns.now }
    ensures value { ReportsIfMemory fault_returned value_in result
        (value kind (state_at columns.now aggregate group_index)) }
    ensures fits { IfOk result (λ v. fits (value_in v) ≡ true) }
{
    columns[aggregate].value(alloc, kind, group_index)
}

/// Some groups, lent.
#[derive(Drop)]
pub struct UnmadeSlice<'a> {
    keys: &'a KeyList,
    order: &'a [usize],
    rows: &'a [u64],
    columns: &'a [OrderedStates<'a>],
}

impl<'a> Model for UnmadeSlice<'a> {
    ghost use Rattle.std.specs.Prelude.{List};
    ghost use Rattle.meaning.specs.declared.answer.Group.{Group as AGroup};
    ghost use Rattle.group_by.specs.KeyOrder.{groups_at, AreThere};

    ghost Value = { List AGroup };

    ghost view = { λ s. groups_at s.keys.now s.rows.now s.columns.now s.order.now };

    ghost invariant = { λ s. AreThere s.keys.now s.rows.now s.columns.now s.order.now };
}

impl<'a> UnmadeSlice<'a> {
    /// How many groups there are.
    pub fn len(&self) -> usize
        ensures { result ≡ length self.now }
    {
        self.order.len()
    }

    /// The groups from one place up to another.
    pub fn part(&self, from: usize, to: usize) -> UnmadeSlice<'a>
        requires ordered { from ≤ to }
        requires within { to ≤ length self.now }
        ensures { result ≡ take (to - from) (drop from self.now) }
    {
        UnmadeSlice {
            keys: self.keys,
            order: &self.order[from..to],
            rows: self.rows,
            columns: self.columns,
        }
    }

    /// How many rows a group has.
    pub fn rows(&self, group: usize) -> u64
        requires { group < length self.now }
        ensures { (d : AGroup) → result ≡ (slice_index_or self.now group d).rows }
    {
        let group_index = group_index_of(self.order, group);
        self.rows[group_index]
    }

    /// The key of a group, in memory of its own.
    pub fn key(&self, alloc: Global, group: usize) -> Result<Row, AllocError>
        requires { group < length self.now }
        ensures { IfOk result (λ key. (d : AGroup) → key ≡ (slice_index_or self.now group d).key) }
    {
        let group_index = group_index_of(self.order, group);
        self.keys.row(alloc, group_index)
    }

    /// The value in a column of a group's key, and NULL past the last.
    pub fn key_value(&self, group: usize, at: usize) -> ValueRef<'_>
        requires { group < length self.now }
        ensures { (d : AGroup) → value_in result
            ≡ column (slice_index_or self.now group d).key at }
    {
        let group_index = group_index_of(self.order, group);
        self.keys.value(group_index, at)
    }

    /// The value of an aggregate of a kind with a state of a group, lent where the state holds it.
    ///
    /// # Errors
    ///
    /// A sum outside 64 bits, or out of memory.
    pub fn value(
        &self,
        alloc: Global,
        kind: AggregateKind,
        group: usize,
        aggregate: usize,
    ) -> Result<ValueRef<'_>, AggFault>
        requires group { group < length self.now }
        requires aggregate { (d : AGroup)
            → aggregate < length (slice_index_or self.now group d).states }
        ensures value { (d : AGroup) → ReportsIfMemory fault_returned value_in result
            (value kind (slice_index_or (slice_index_or self.now group d).states aggregate
            no_statistics)) }
        ensures fits { IfOk result (λ v. fits (value_in v) ≡ true) }
    {
        let group_index = group_index_of(self.order, group);
        value_at(alloc, kind, self.columns, aggregate, group_index)
    }
}
