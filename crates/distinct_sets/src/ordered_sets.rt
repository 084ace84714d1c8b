//! Sets in the order of their groups, so that each group's entries stand together.
ghost use Rattle.std.specs.Prelude.{◌≡◌, ℕ, ◌<◌, List, length, slice_index_or, IfOk, OnOk, IsPermutation};
ghost use Rattle.meaning.specs.Aggregate.{no_statistics};
ghost use Rattle.meaning.specs.Order.{value_in};
ghost use Rattle.aggregate_states.specs.Kinds.{extreme_of};
ghost use Rattle.aggregate_states.specs.Values.{entry};
ghost use Rattle.distinct_sets.specs.declared.entry.Entry.{Entry as AnEntry};
ghost use Rattle.distinct_sets.specs.Sets.{in_group, lent, sets_of, values_of_lent, AreFrom, IsSets, RisesByGroup};

use crate::entry::{Entry, narrow};
use aggregate_states::{End, State};
use meaning::{Value, ValueRef};
use std::alloc::{AllocError, Global};
use std::marker::Model;

/// The sets of all groups. Contracts see their states.
#[derive(Drop)]
pub struct OrderedSets<'a> {
    groups: usize,
    entries: Vec<&'a Entry>,
}

impl<'a> Model for OrderedSets<'a> {
    ghost use Rattle.std.specs.Prelude.{List};
    ghost use Rattle.meaning.specs.declared.answer.Statistics.{Statistics};
    ghost use Rattle.distinct_sets.specs.Sets.{lent, sets_of, AreOrdered};

    ghost Value = { List Statistics };

    ghost view = { λ o. sets_of o.groups (lent o.entries.items) };

    ghost invariant = { λ o. AreOrdered o.groups o.entries.items };
}

/// What sets keep from an end: NULL, since they keep their entries alone.
pub fn no_extreme<'a>(end: End) -> ValueRef<'a>
    ensures { (entries : List AnEntry) (groups group_index : ℕ) → entry (value_in result)
        ≡ extreme_of end (slice_index_or (sets_of groups entries) group_index no_statistics) }
{
    ValueRef::Null
}

fn lent_entries<'a>(alloc: Global, entries: &'a [Entry]) -> Result<Vec<&'a Entry>, AllocError>
    ensures { IfOk result (λ found. lent found.items ≡ entries.now) }
{
    let mut found = Vec::with_capacity(alloc, entries.len())?;
    for entry in entries {
        found.push(entry)?;
    }
    Ok(found)
}

/// Puts entries in the order of their groups.
fn sort(entries: &mut Vec<&Entry>) -> Result<(), AllocError>
    ensures permutation { OnOk result (IsPermutation (lent entries.old.items)
        (lent entries.new.items)) }
    ensures rises { OnOk result (RisesByGroup entries.new.items) }
{
    entries.sort_by_key(|entry| entry.group_index)?;
    Ok(())
}

/// The entries of this group and of those behind it.
fn from_group<'e, 'a>(entries: &'e [&'a Entry], group_index: u32) -> &'e [&'a Entry]
    requires { RisesByGroup entries.now }
    ensures same { in_group group_index (lent result.now)
        ≡ in_group group_index (lent entries.now) }
    ensures rises { RisesByGroup result.now }
    ensures from { AreFrom group_index result.now }
{
    let before = entries.partition_point(|entry| entry.group_index < group_index);
    &entries[before..]
}

/// The entries of a group, of those from it on.
fn up_to_group<'e, 'a>(entries: &'e [&'a Entry], group_index: u32) -> &'e [&'a Entry]
    requires rises { RisesByGroup entries.now }
    requires from { AreFrom group_index entries.now }
    ensures { values_of_lent result.now
        ≡ in_group group_index (lent entries.now) }
{
    let many = entries.partition_point(|entry| entry.group_index <= group_index);
    &entries[..many]
}

fn copied(alloc: Global, entries: &[&Entry]) -> Result<Vec<Value>, AllocError>
    ensures { IfOk result (λ values. values.items
        ≡ values_of_lent entries.now) }
{
    let mut values = Vec::with_capacity(alloc, entries.len())?;
    for entry in entries {
        values.push(entry.value.clone()?)?;
    }
    Ok(values)
}

impl<'a> OrderedSets<'a> {
    /// The sets of so many groups.
    pub fn of_entries(
        alloc: Global,
        groups: usize,
        entries: &'a [Entry],
    ) -> Result<OrderedSets<'a>, AllocError>
        requires { IsSets groups entries.now }
        ensures { IfOk result (λ sets. sets ≡ sets_of groups entries.now) }
    {
        let mut entries = lent_entries(alloc, entries)?;
        sort(&mut entries)?;
        Ok(OrderedSets { groups, entries })
    }

    /// The state of a group.
    pub fn state(&self, alloc: Global, group_index: usize) -> Result<State, AllocError>
        requires { group_index < length self.now }
        ensures { IfOk result (λ s. s ≡ slice_index_or self.now group_index no_statistics) }
    {
        let group_index = narrow(group_index)?;
        let entries = from_group(self.entries.as_slice(), group_index);
        let values = copied(alloc, up_to_group(entries, group_index))?;
        State::of_values(values)
    }
    /// The entry that a group's set keeps from an end: NULL, as sets keep none.
    pub fn extreme(&self, end: End, group_index: usize) -> ValueRef<'_>
        requires { group_index < length self.now }
        ensures { entry (value_in result)
            ≡ extreme_of end (slice_index_or self.now group_index no_statistics) }
    {
        // No effect at run time. The proof reads from this that the states are those of sets.
        let _groups = &self.groups;
        no_extreme(end)
    }
}
