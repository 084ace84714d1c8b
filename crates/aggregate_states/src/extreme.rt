//! How many entries there are, and which of them comes first from an end of the whole order.
ghost use Rattle.std.specs.Prelude.{◌≡◌, ◌≤◌, ◌+◌, ◌∷◌, [], length, map, sum, true, All, OnOk, OnErr, IfOk, Some};
ghost use Rattle.std.specs.Ordering.{is_lt, ord_min};
ghost use Rattle.meaning.specs.declared.value.Value.TheVariants.{Int, Null};
ghost use Rattle.aggregate_states.specs.declared.end.End.{End};
ghost use Rattle.meaning.specs.Aggregate.{down_cmp, kept_by, merge, no_statistics};
ghost use Rattle.meaning.specs.Order.{least, value_cmp, value_in};
ghost use Rattle.aggregate_states.specs.Entries.{state_of, together};
ghost use Rattle.aggregate_states.specs.Kinds.{cmp_from, end_state, kind_from, IsExtreme};
ghost use Rattle.aggregate_states.specs.State.{most_entries};
ghost use Rattle.aggregate_states.specs.Values.{is_spelled, selected};
ghost use Rattle.vectors.specs.Vector.{values_of};

use crate::end::{End, beats, is_null};
use crate::lanes::{owned, plain_ints, selected_value};
use crate::state::{State, unless_null};
use meaning::{Sequence, Statistics, Value, ValueRef};
use std::alloc::{AllocError, Global};
use vectors::{Selection, Vector};

/// How many entries were found, and the best of them, lent: NULL where there is none.
#[derive(Clone, Copy)]
pub struct Found<'a> {
    pub count: u64,
    pub best: ValueRef<'a>,
}

impl<'a> Found<'a> {
    fn new() -> Found<'a>
        ensures count { result.count ≡ 0 }
        ensures best { value_in result.best ≡ Null }
    {
        Found {
            count: 0,
            best: ValueRef::Null,
        }
    }

    /// One value.
    pub fn of_value(value: ValueRef<'a>) -> Found<'a>
        ensures value { (end : End)
            → end_state end result.count (value_in result.best)
            ≡ state_of (kind_from end) (value_in value.entry ∷ []) }
        ensures one { result.count ≤ 1 }
        ensures spelled { is_spelled (value_in value.entry) ≡ true
            → is_spelled (value_in result.best) ≡ true }
    {
        Found {
            count: u64::from(!is_null(value)),
            best: value,
        }
    }

    /// What a state keeps.
    pub fn of_state(end: End, state: &'a State) -> Found<'a>
        ensures value { end_state end result.count (value_in result.best)
            ≡ kept_by (kind_from end) state.now }
        ensures count { result.count ≡ state.now.count }
        ensures spelled { is_spelled (value_in result.best) ≡ true }
    {
        match end {
            End::Least => Found {
                count: state.count(),
                best: state.least(),
            },
            End::Greatest => Found {
                count: state.count(),
                best: state.greatest(),
            },
        }
    }

    /// Both together.
    fn plus(self, end: End, other: Found<'a>) -> Found<'a>
        requires { self.count + other.count ≤ most_entries }
        ensures value { end_state end result.count (value_in result.best)
            ≡ merge (end_state end self.entry.count (value_in self.entry.best))
            (end_state end other.entry.count (value_in other.entry.best)) }
        ensures count { result.count ≡ self.entry.count + other.entry.count }
        ensures spelled { is_spelled (value_in self.entry.best) ≡ true
            → is_spelled (value_in other.entry.best) ≡ true
            → is_spelled (value_in result.best) ≡ true }
    {
        let count = self.count + other.count;
        if beats(end, other.best, self.best) {
            return Found {
                count,
                best: other.best,
            };
        }
        Found {
            count,
            best: self.best,
        }
    }
}

#[inline(always)]
fn is_less(int: &i64, other: &i64) -> bool
    ensures { result ≡ is_lt (value_cmp (Int int.now) (Int other.now)) }
{
    *int < *other
}

#[inline(always)]
fn lesser_of(best: &i64, int: &i64) -> i64
    ensures { Int result ≡ ord_min value_cmp (Int best.now) (Int int.now) }
{
    if is_less(int, best) { *int } else { *best }
}

#[inline(always)]
fn greater_of(best: &i64, int: &i64) -> i64
    ensures { Int result ≡ ord_min down_cmp (Int best.now) (Int int.now) }
{
    if is_less(best, int) { *int } else { *best }
}

fn least_of(first: &i64, ints: &[i64]) -> i64
    ensures { Some (Int result) ≡ least value_cmp (Int first.now ∷ map Int ints.now) }
{
    let mut best = *first;
    for k in 0..ints.len() {
        best = lesser_of(&best, &ints[k]);
    }
    best
}

fn greatest_of(first: &i64, ints: &[i64]) -> i64
    ensures { Some (Int result) ≡ least down_cmp (Int first.now ∷ map Int ints.now) }
{
    let mut best = *first;
    for k in 0..ints.len() {
        best = greater_of(&best, &ints[k]);
    }
    best
}

fn best_of(end: End, first: &i64, ints: &[i64]) -> i64
    ensures { Some (Int result) ≡ least (cmp_from end) (Int first.now ∷ map Int ints.now) }
{
    match end {
        End::Least => least_of(first, ints),
        End::Greatest => greatest_of(first, ints),
    }
}

/// Of integers.
fn found_in_ints<'a>(end: End, ints: &[i64]) -> Found<'a>
    requires { length ints.now ≤ most_entries }
    ensures value { end_state end result.count (value_in result.best)
        ≡ merge no_statistics (state_of (kind_from end) (map Int ints.now)) }
    ensures few { result.count ≤ length ints.now }
    ensures spelled { is_spelled (value_in result.best) ≡ true }
{
    let Some((first, rest)) = ints.split_first() else {
        return Found::new();
    };
    Found {
        count: ints.len() as u64,
        best: ValueRef::Int(best_of(end, first, rest)),
    }
}

/// Of the selected values.
pub fn found_selected<'a>(end: End, lanes: &Vector<'a>, selection: &Selection) -> Found<'a>
    requires lanes { length (values_of lanes.now) ≡ selection.now.below }
    requires spelled { All (λ v. is_spelled v ≡ true) (values_of lanes.now) }
    requires few { length selection.now.list ≤ most_entries }
    ensures value { end_state end result.count (value_in result.best)
        ≡ merge no_statistics (state_of (kind_from end)
        (selected (values_of lanes.now) selection.now.list)) }
    ensures few { result.count ≤ length selection.now.list }
    ensures spelled { is_spelled (value_in result.best) ≡ true }
{
    if let Some(ints) = plain_ints(lanes, selection) {
        return found_in_ints(end, ints);
    }
    let mut found = Found::new();
    for k in 0..selection.len() {
        found = found.plus(end, Found::of_value(selected_value(lanes, selection, k)));
    }
    found
}

/// Of what these states keep.
pub fn found_in_states<'a>(end: End, states: &'a [State]) -> Found<'a>
    requires { sum (map (λ s. s.count) states.now) ≤ most_entries }
    ensures value { end_state end result.count (value_in result.best)
        ≡ merge no_statistics (together (kind_from end) states.now) }
    ensures few { result.count ≤ sum (map (λ s. s.count) states.now) }
    ensures spelled { is_spelled (value_in result.best) ≡ true }
{
    let mut found = Found::new();
    for k in 0..states.len() {
        found = found.plus(end, Found::of_state(end, &states[k]));
    }
    found
}

/// How many entries there are, and the best of them: NULL where there is none.
#[derive(Clone, Drop)]
pub struct Extreme {
    pub count: u64,
    pub best: Value,
}

impl Extreme {
    pub fn new() -> Extreme
        ensures count { result.count ≡ 0 }
        ensures best { result.best ≡ Null }
    {
        Extreme {
            count: 0,
            best: Value::Null,
        }
    }

    fn replace(&mut self, alloc: Global, best: ValueRef<'_>) -> Result<(), AllocError>
        requires { is_spelled (value_in best) ≡ true }
        ensures best { OnOk result (self.new.best ≡ value_in best.entry) }
        ensures count { self.new.count ≡ self.old.count }
        ensures err { OnErr result (self.new ≡ self.old) }
    {
        let best = owned(alloc, best)?;
        self.best = best;
        Ok(())
    }

    /// What was found more. On an error nothing changes.
    pub fn add(&mut self, alloc: Global, end: End, found: Found<'_>) -> Result<(), AllocError>
        requires few { self.old.count + found.count ≤ most_entries }
        requires is { IsExtreme self.old.count self.old.best }
        requires spelled { is_spelled (value_in found.best) ≡ true }
        ensures ok { OnOk result (end_state end self.new.count self.new.best
            ≡ merge (end_state end self.old.count self.old.best)
            (end_state end found.entry.count (value_in found.entry.best))) }
        ensures err { OnErr result (self.new ≡ self.old) }
        ensures is { IsExtreme self.new.count self.new.best }
    {
        if beats(end, found.best, self.best.as_value_ref()) {
            self.replace(alloc, found.best)?;
        }
        self.count += found.count;
        Ok(())
    }

    /// The state.
    pub fn to_state(&self, alloc: Global, end: End) -> Result<State, AllocError>
        requires { IsExtreme self.now.count self.now.best }
        ensures { IfOk result (λ s. s ≡ end_state end self.now.count self.now.best) }
    {
        let best = unless_null(owned(alloc, self.best.as_value_ref())?);
        Ok(State::from_statistics(match end {
            End::Least => Statistics {
                count: self.count,
                sum: 0,
                least: best,
                greatest: None,
                entries: Sequence::new(alloc),
            },
            End::Greatest => Statistics {
                count: self.count,
                sum: 0,
                least: None,
                greatest: best,
                entries: Sequence::new(alloc),
            },
        }))
    }
}
