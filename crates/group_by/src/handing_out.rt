//! The groups of a table in the order of their keys, those of one key as one.
ghost use Rattle.std.specs.Prelude.{◌≡◌, ℕ, ◌<◌, ◌≤◌, ◌+◌, ◌∷◌, length, map, reverse, slice_index_or, slice_index, sum, All, IfOk, OnOk, IsPermutation};
ghost use Rattle.meaning.specs.Aggregate.{merge, no_statistics};
ghost use Rattle.meaning.specs.Group.{merge_groups};
ghost use Rattle.meaning.specs.Order.{row_cmp};
ghost use Rattle.aggregate_states.specs.State.{most_entries};
ghost use Rattle.group_by.specs.Combined.{combined, put_before, zipped, AreFit, AreMergeable, IsInOrder, MergesWithFirst, Rises, SameBeside};
ghost use Rattle.group_by.specs.GroupIndexes.{by_group_index, group_at, state_at, state_in};

use crate::key_order::key_order;
use crate::ordered_groups::OrderedGroups;
use crate::state_columns::ordered_columns;
use crate::unmade_groups::{UnmadeGroups, made_groups};
use accumulators::{Group, OrderedStates, State, StateColumn};
use group_index::{KeyList, are_equal, compare_keys, copy_key};
use meaning::{Row, Sequence};
use std::alloc::{AllocError, Global};
use std::cmp::Ordering;
use std::mem::drop;

/// The state at a group index of each column, in a buffer that is used again.
fn states_at(
    alloc: Global,
    spare: Vec<State>,
    columns: &[OrderedStates<'_>],
    group_index: usize,
) -> Result<Sequence<State>, AllocError>
    requires { All (λ c. group_index < length c.states) columns.now }
    ensures { IfOk result (λ states. states ≡ map (λ c. state_in c group_index) columns.now) }
{
    let mut states = spare;
    states.clear();
    for column in columns {
        states.push(column.state(alloc, group_index)?)?;
    }
    Ok(Sequence::from_vec(states))
}

/// The group of this index, its states in a buffer that is used again.
pub fn regroup(
    alloc: Global,
    key: Row,
    spare: Vec<State>,
    rows: &[u64],
    columns: &[OrderedStates<'_>],
    group_index: usize,
) -> Result<Group, AllocError>
    requires rows { group_index < length rows.now }
    requires columns { All (λ c. group_index < length c.states) columns.now }
    ensures { IfOk result (λ g. g ≡ group_at rows.now columns.now key group_index) }
{
    let states = states_at(alloc, spare, columns, group_index)?;
    Ok(Group::new(key, rows[group_index], states))
}

/// The group of this index.
pub fn group_of(
    alloc: Global,
    key: Row,
    rows: &[u64],
    columns: &[OrderedStates<'_>],
    group_index: usize,
) -> Result<Group, AllocError>
    requires rows { group_index < length rows.now }
    requires columns { All (λ c. group_index < length c.states) columns.now }
    ensures { IfOk result (λ g. g ≡ group_at rows.now columns.now key group_index) }
{
    let states = Vec::with_capacity(alloc, columns.len())?;
    regroup(alloc, key, states, rows, columns, group_index)
}

/// The groups in the order of their group indexes, the last first.
fn last_first(
    alloc: Global,
    keys: Vec<Row>,
    rows: &[u64],
    columns: &[OrderedStates<'_>],
) -> Result<Vec<Group>, AllocError>
    requires rows { length rows.now ≡ length keys.items }
    requires columns { All (λ c. length c.states ≡ length keys.items) columns.now }
    ensures { IfOk result (λ groups. groups.items
        ≡ reverse (by_group_index keys.items rows.now columns.now)) }
{
    let mut keys = keys;
    let mut groups = Vec::with_capacity(alloc, keys.len())?;
    while let Some(key) = keys.pop() {
        groups.push(group_of(alloc, key, rows, columns, keys.len())?)?;
    }
    Ok(groups)
}

fn compare(one: &Group, other: &Group) -> Ordering
    ensures { result ≡ row_cmp one.now.key other.now.key }
{
    compare_keys(one.key(), other.key())
}

/// Puts groups in the order of their keys.
fn sort(groups: &mut Vec<Group>) -> Result<(), AllocError>
    ensures beside { OnOk result (SameBeside groups.old.items groups.new.items) }
    ensures sorted { OnOk result (Rises (map (λ g. g.key) groups.new.items)) }
    ensures permutation { OnOk result (IsPermutation groups.old.items groups.new.items) }
{
    groups.sort_by(|one, other| compare(one, other))?;
    Ok(())
}

/// Two states as one.
fn merged_state(alloc: Global, one: &State, other: &State) -> Result<State, AllocError>
    requires { one.now.count + other.now.count ≤ most_entries }
    ensures { IfOk result (λ s. s ≡ merge one.now other.now) }
{
    let one = one.copy(alloc)?;
    let other = other.copy(alloc)?;
    one.merge(other)
}

/// The states of two groups, merged one by one.
fn merged_states(
    alloc: Global,
    states: &[State],
    others: &[State],
) -> Result<Sequence<State>, AllocError>
    requires widths { length states.now ≡ length others.now }
    requires few { (c : ℕ) → (slice_index_or states.now c no_statistics).count +
        (slice_index_or others.now c no_statistics).count ≤ most_entries }
    ensures { IfOk result (λ merged. merged ≡ zipped states.now others.now) }
{
    let mut merged = Sequence::new(alloc);
    for k in 0..states.len() {
        let both = merged_state(alloc, &states[k], &others[k])?;
        merged.push(both)?;
    }
    Ok(merged)
}

/// Two groups of one key as one.
fn merged(alloc: Global, one: &Group, other: &Group) -> Result<Group, AllocError>
    requires { AreMergeable one.now other.now }
    ensures { IfOk result (λ g. g ≡ merge_groups one.now other.now) }
{
    let key = copy_key(alloc, other.key())?;
    let states = merged_states(alloc, one.states(), other.states())?;
    Ok(Group::new(key, one.rows() + other.rows(), states))
}

/// Puts a group behind the last, and makes them one where they have one key.
fn put_behind(
    alloc: Global,
    groups: &mut Vec<Group>,
    last: Group,
    group: Group,
) -> Result<(), AllocError>
    requires { AreMergeable group last }
    ensures { OnOk result (reverse groups.new.items
        ≡ put_before group (last ∷ reverse groups.old.items)) }
{
    if are_equal(group.key(), last.key()) {
        groups.push(merged(alloc, &group, &last)?)?;
        return Ok(());
    }
    groups.push(last)?;
    groups.push(group)?;
    Ok(())
}

/// Puts a group behind the others, as one with the last where they have one key.
fn put(alloc: Global, groups: &mut Vec<Group>, group: Group) -> Result<(), AllocError>
    requires { MergesWithFirst group (reverse groups.old.items) }
    ensures { OnOk result (reverse groups.new.items ≡ put_before group (reverse groups.old.items)) }
{
    match groups.pop() {
        Some(last) => put_behind(alloc, groups, last, group),
        None => {
            groups.push(group)?;
            Ok(())
        }
    }
}

/// Groups that stand in order, those of one key as one.
fn combine(alloc: Global, groups: Vec<Group>, width: usize) -> Result<Vec<Group>, AllocError>
    requires { AreFit width groups.items }
    ensures { IfOk result (λ out. out.items ≡ combined groups.items) }
{
    let mut groups = groups;
    let mut out = Vec::with_capacity(alloc, groups.len())?;
    while let Some(group) = groups.pop() {
        put(alloc, &mut out, group)?;
    }
    out.reverse();
    Ok(out)
}

/// The groups of keys of which some may stand twice, in the order of their keys, those of one key
/// as one.
fn combined_groups(
    alloc: Global,
    keys: Vec<Row>,
    rows: &[u64],
    columns: &[OrderedStates<'_>],
) -> Result<Vec<Group>, AllocError>
    requires rows { length rows.now ≡ length keys.items }
    requires columns { All (λ c. length c.states ≡ length keys.items) columns.now }
    requires few { sum rows.now ≤ most_entries }
    requires within { (c group_index : ℕ)
        → (state_at columns.now c group_index).count ≤ slice_index rows.now group_index }
    ensures { IfOk result (λ groups. IsInOrder keys.items rows.now columns.now groups.items) }
{
    let mut groups = last_first(alloc, keys, rows, columns)?;
    match sort(&mut groups) {
        Ok(()) => combine(alloc, groups, columns.len()),
        Err(fault) => {
            drop(groups);
            Err(fault)
        }
    }
}

/// The groups in the order of their keys, from columns that are ready to be handed out.
fn groups_in_order(
    alloc: Global,
    keys: &KeyList,
    rows: &[u64],
    columns: &[OrderedStates<'_>],
) -> Result<Vec<Group>, AllocError>
    requires rows { length rows.now ≡ length keys.now }
    requires columns { All (λ c. length c.states ≡ length keys.now) columns.now }
    requires few { sum rows.now ≤ most_entries }
    requires within { (c group_index : ℕ)
        → (state_at columns.now c group_index).count ≤ slice_index rows.now group_index }
    ensures { IfOk result (λ groups. IsInOrder keys.now rows.now columns.now groups.items) }
{
    match key_order(alloc, keys)? {
        Some(order) => {
            let spare = Vec::new(alloc);
            made_groups(alloc, spare, keys, order.as_slice(), rows, columns)
        }
        None => combined_groups(alloc, keys.rows(alloc)?, rows, columns),
    }
}

/// The groups in the order of their keys, those of one key as one.
pub fn in_order(
    alloc: Global,
    keys: &KeyList,
    rows: &[u64],
    columns: &[StateColumn],
) -> Result<Vec<Group>, AllocError>
    requires rows { length rows.now ≡ length keys.now }
    requires columns { All (λ c. length c.states ≡ length keys.now) columns.now }
    requires few { sum rows.now ≤ most_entries }
    requires within { (c group_index : ℕ)
        → (state_at columns.now c group_index).count ≤ slice_index rows.now group_index }
    ensures { IfOk result (λ groups. IsInOrder keys.now rows.now columns.now groups.items) }
{
    let columns = ordered_columns(alloc, columns)?;
    groups_in_order(alloc, keys, rows, columns.as_slice())
}

/// The groups in the order of their keys, those of one key as one. Unless some key stands twice
/// they are made when they are asked for.
pub fn ordered_groups<'a>(
    alloc: Global,
    keys: &'a KeyList,
    rows: &'a [u64],
    columns: Vec<OrderedStates<'a>>,
) -> Result<OrderedGroups<'a>, AllocError>
    requires rows { length rows.now ≡ length keys.now }
    requires columns { All (λ c. length c.states ≡ length keys.now) columns.items }
    requires few { sum rows.now ≤ most_entries }
    requires within { (c group_index : ℕ)
        → (state_at columns.items c group_index).count ≤ slice_index rows.now group_index }
    ensures { IfOk result
        (λ groups. IsInOrder keys.entry.now rows.entry.now columns.entry.items groups) }
{
    if let Some(order) = key_order(alloc, keys)? {
        return Ok(OrderedGroups::unmade(UnmadeGroups::new(keys, order, rows, columns)));
    }
    let keys = keys.rows(alloc)?;
    Ok(OrderedGroups::made(combined_groups(alloc, keys, rows, columns.as_slice())?))
}
