//! Groups one behind the other, lent.
ghost use Rattle.std.specs.Prelude.{◌≡◌, ◌<◌, ◌≤◌, ◌-◌, length, slice_index_or, take, drop, true, IfOk};
ghost use Rattle.meaning.specs.declared.answer.Group.{Group as AGroup};
ghost use Rattle.meaning.specs.Aggregate.{no_statistics, value};
ghost use Rattle.meaning.specs.Order.{column, value_in};
ghost use Rattle.meaning.specs.Wanting.{ReportsIfMemory};
ghost use Rattle.aggregate_states.specs.Fault.{fault_returned};
ghost use Rattle.aggregate_states.specs.Values.{fits};
ghost use Rattle.group_by.specs.OrderedGroups.{groups_lent};

use crate::unmade_groups::UnmadeSlice;
use aggregate_states::{AggFault, Group, column_value, value_of};
use group_index::copy_key;
use meaning::{AggregateKind, Row, ValueRef};
use std::alloc::{AllocError, Global};
use std::marker::Model;

#[derive(Drop)]
pub enum HeldSlice<'a> {
    Made(&'a [Group]),
    Unmade(UnmadeSlice<'a>),
}

/// Groups one behind the other, lent: groups that are made, or those of a table, none of which is.
/// Contracts see their list.
#[derive(Drop)]
pub struct GroupSlice<'a> {
    held: HeldSlice<'a>,
}

impl<'a> Model for GroupSlice<'a> {
    ghost use Rattle.std.specs.Prelude.{List};
    ghost use Rattle.meaning.specs.declared.answer.Group.{Group as AGroup};

    ghost Value = { List AGroup };

    ghost use Rattle.group_by.specs.OrderedGroups.{groups_lent};

    ghost view = { λ s. groups_lent s.held };
}

fn group_in(groups: &[Group], group: usize) -> &Group
    requires { group < length groups.now }
    ensures { (d : AGroup) → result.now ≡ slice_index_or groups.now group d }
{
    &groups[group]
}

/// The value of an aggregate of a kind with one of a group's states, lent where the state holds it.
fn value_in_group(
    alloc: Global,
    kind: AggregateKind,
    group: &Group,
    aggregate: usize,
) -> Result<ValueRef<'_>, AggFault>
    requires { aggregate < length group.now.states }
    ensures value { ReportsIfMemory fault_returned value_in result
        (value kind (slice_index_or group.now.states aggregate no_statistics)) }
    ensures fits { IfOk result (λ v. fits (value_in v) ≡ true) }
{
    value_of(alloc, kind, &group.states()[aggregate])
}

impl<'a> GroupSlice<'a> {
    /// Groups that are made.
    pub fn of(groups: &'a [Group]) -> GroupSlice<'a>
        ensures { result ≡ groups.now }
    {
        GroupSlice {
            held: HeldSlice::Made(groups),
        }
    }

    /// Groups of which none is made.
    pub fn of_unmade(groups: UnmadeSlice<'a>) -> GroupSlice<'a>
        ensures { result ≡ groups.entry }
    {
        GroupSlice {
            held: HeldSlice::Unmade(groups),
        }
    }

    /// How many groups there are.
    pub fn len(&self) -> usize
        ensures { result ≡ length self.now }
    {
        match &self.held {
            HeldSlice::Made(groups) => groups.len(),
            HeldSlice::Unmade(groups) => groups.len(),
        }
    }

    /// The groups from one place up to another.
    pub fn part(&self, from: usize, to: usize) -> GroupSlice<'a>
        requires ordered { from ≤ to }
        requires within { to ≤ length self.now }
        ensures { result ≡ take (to - from) (drop from self.now) }
    {
        match &self.held {
            HeldSlice::Made(groups) => GroupSlice::of(&groups[from..to]),
            HeldSlice::Unmade(groups) => GroupSlice::of_unmade(groups.part(from, to)),
        }
    }

    /// The first so many groups.
    pub fn first(&self, many: usize) -> GroupSlice<'a>
        requires { many ≤ length self.now }
        ensures { result ≡ take many self.now }
    {
        self.part(0, many)
    }

    /// The first so many groups, and those behind them.
    pub fn split(&self, at: usize) -> (GroupSlice<'a>, GroupSlice<'a>)
        requires { at ≤ length self.now }
        ensures front { result.0 ≡ take at self.now }
        ensures back { result.1 ≡ drop at self.now }
    {
        (self.first(at), self.part(at, self.len()))
    }

    /// How many rows a group has.
    pub fn rows(&self, group: usize) -> u64
        requires { group < length self.now }
        ensures { (d : AGroup) → result ≡ (slice_index_or self.now group d).rows }
    {
        match &self.held {
            HeldSlice::Made(groups) => group_in(groups, group).rows(),
            HeldSlice::Unmade(groups) => groups.rows(group),
        }
    }

    /// The key of a group, in memory of its own.
    pub fn key(&self, alloc: Global, group: usize) -> Result<Row, AllocError>
        requires { group < length self.now }
        ensures { IfOk result (λ key. (d : AGroup) → key ≡ (slice_index_or self.now group d).key) }
    {
        match &self.held {
            HeldSlice::Made(groups) => copy_key(alloc, group_in(groups, group).key()),
            HeldSlice::Unmade(groups) => groups.key(alloc, group),
        }
    }

    /// The value in a column of a group's key, and NULL past the last.
    pub fn key_value(&self, group: usize, at: usize) -> ValueRef<'_>
        requires { group < length self.now }
        ensures { (d : AGroup) → value_in result
            ≡ column (slice_index_or self.now group d).key at }
    {
        match &self.held {
            HeldSlice::Made(groups) => column_value(group_in(groups, group).key(), at),
            HeldSlice::Unmade(groups) => groups.key_value(group, at),
        }
    }

    /// The value of an aggregate of a kind with a state of a group, lent where the state holds it.
    ///
    /// # Errors
    ///
    /// A sum outside 64 bits, or out of memory.
    pub fn value(
        &self,
        alloc: Global,
        kind: AggregateKind,
        group: usize,
        aggregate: usize,
    ) -> Result<ValueRef<'_>, AggFault>
        requires group { group < length self.now }
        requires aggregate { (d : AGroup)
            → aggregate < length (slice_index_or self.now group d).states }
        ensures value { (d : AGroup) → ReportsIfMemory fault_returned value_in result
            (value kind (slice_index_or (slice_index_or self.now group d).states aggregate
            no_statistics)) }
        ensures fits { IfOk result (λ v. fits (value_in v) ≡ true) }
    {
        match &self.held {
            HeldSlice::Made(groups) => {
                value_in_group(alloc, kind, group_in(groups, group), aggregate)
            }
            HeldSlice::Unmade(groups) => groups.value(alloc, kind, group, aggregate),
        }
    }
}
