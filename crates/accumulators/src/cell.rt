//! A group's accumulator in a column, and what is done with it at a group index.
ghost use Rattle.std.specs.Prelude.{◌≡◌, ◌<◌, ◌≤◌, ◌+◌, [], ◌∷◌, ◌++◌, length, map, slice_index_or, true, All, IsOk, OnOk, OnErr, IfOk, IfSome, List};
ghost use Rattle.meaning.specs.declared.plan.AggregateKind.{AggregateKind};
ghost use Rattle.meaning.specs.declared.answer.Statistics.{Statistics};
ghost use Rattle.meaning.specs.Aggregate.{kept_by, merge, no_statistics};
ghost use Rattle.meaning.specs.Order.{value_in};
ghost use Rattle.accumulators.specs.Columns.{merged_at};
ghost use Rattle.aggregate_states.specs.Entries.{state_of};
ghost use Rattle.aggregate_states.specs.Kinds.{extreme_of, has_one_size, sum_state, IsSum};
ghost use Rattle.aggregate_states.specs.State.{most_entries};
ghost use Rattle.aggregate_states.specs.Values.{entry, is_spelled, selected};
ghost use Rattle.vectors.specs.Vector.{values_of};

use crate::accumulator::Accumulator;
use aggregate_states::{End, State, Tally};
use meaning::ValueRef;
use std::alloc::{AllocError, Global};
use vectors::{Selection, Vector};

/// An accumulator of which a column keeps one for each group.
pub trait Cell: Accumulator + Drop {
    ghost keeps: { AggregateKind };

    ghost states: { List Self → List Statistics };

    /// Of no entry.
    fn fresh() -> Self
        ensures { Self.held result ≡ no_statistics };

    /// One value more. On an error nothing changes.
    fn take(&mut self, alloc: Global, value: ValueRef<'_>) -> Result<(), AllocError>
        requires few { (Self.held self.old).count < most_entries }
        requires spelled { is_spelled (value_in value) ≡ true }
        ensures ok { OnOk result (Self.held self.new
            ≡ merge (Self.held self.old) (state_of keeps (value_in value.entry ∷ []))) }
        ensures err { OnErr result (Self.held self.new ≡ Self.held self.old) }
        ensures roomy { has_one_size keeps ≡ true → IsOk result };

    /// The entries of a state more. On an error nothing changes.
    fn take_state(&mut self, alloc: Global, state: &State) -> Result<(), AllocError>
        requires { (Self.held self.old).count + state.now.count ≤ most_entries }
        ensures ok { OnOk result (Self.held self.new
            ≡ merge (Self.held self.old) (kept_by keeps state.now)) }
        ensures err { OnErr result (Self.held self.new ≡ Self.held self.old) }
        ensures roomy { has_one_size keeps ≡ true → IsOk result };

    /// The entry that is kept from an end, and NULL where none is.
    fn extreme(&self, end: End) -> ValueRef<'_>
        ensures { entry (value_in result) ≡ extreme_of end (Self.held self.now) };

    /// The number of entries and their sum, where nothing else is kept.
    fn tally(&self) -> Option<Tally>
        ensures { IfSome result (λ t. (Self.held self.now ≡ sum_state t.count t.sum)
            × IsSum t.count t.sum) };

    ghost one_kind: { (x : Self) → Self.kind x ≡ keeps };

    ghost each: { (xs : List Self) → states xs ≡ map Self.held xs };
}

/// A cell more, of no entry. On an error nothing changes.
pub fn push_to<A: Cell>(cells: &mut Vec<A>) -> Result<(), AllocError>
    ensures ok { OnOk result
        (A.states cells.new.items ≡ A.states cells.old.items ++ no_statistics ∷ []) }
    ensures err { OnErr result (A.states cells.new.items ≡ A.states cells.old.items) }
{
    cells.push(A::fresh())?;
    Ok(())
}

/// One value more at a group index. On an error nothing changes.
#[inline(always)]
pub fn add_to<A: Cell>(
    cells: &mut [A],
    alloc: Global,
    group_index: usize,
    value: ValueRef<'_>,
) -> Result<(), AllocError>
    requires group_index { group_index < length cells.old }
    requires few { (slice_index_or (A.states cells.old) group_index no_statistics).count
        < most_entries }
    requires spelled { is_spelled (value_in value) ≡ true }
    ensures ok { OnOk result (A.states cells.new ≡ merged_at (A.states cells.old) group_index
        (state_of A.keeps (value_in value.entry ∷ []))) }
    ensures err { OnErr result (A.states cells.new ≡ A.states cells.old) }
    ensures roomy { has_one_size A.keeps ≡ true → IsOk result }
{
    let cell = &mut cells[group_index];
    cell.take(alloc, value)
}

/// The entries of a state more at a group index. On an error nothing changes.
pub fn add_state_to<A: Cell>(
    cells: &mut [A],
    alloc: Global,
    group_index: usize,
    state: &State,
) -> Result<(), AllocError>
    requires group_index { group_index < length cells.old }
    requires few { (slice_index_or (A.states cells.old) group_index no_statistics).count
        + state.now.count ≤ most_entries }
    ensures ok { OnOk result (A.states cells.new ≡ merged_at (A.states cells.old) group_index
        (kept_by A.keeps state.now)) }
    ensures err { OnErr result (A.states cells.new ≡ A.states cells.old) }
    ensures roomy { has_one_size A.keeps ≡ true → IsOk result }
{
    let cell = &mut cells[group_index];
    cell.take_state(alloc, state)
}

/// Selected values more at a group index. On an error nothing changes.
pub fn update_in<A: Cell>(
    cells: &mut [A],
    alloc: Global,
    group_index: usize,
    lanes: &Vector<'_>,
    selection: &Selection,
) -> Result<(), AllocError>
    requires group_index { group_index < length cells.old }
    requires lanes { length (values_of lanes.now) ≡ selection.now.below }
    requires spelled { All (λ v. is_spelled v ≡ true) (values_of lanes.now) }
    requires few { (slice_index_or (A.states cells.old) group_index no_statistics).count
        + length selection.now.list ≤ most_entries }
    ensures ok { OnOk result (A.states cells.new ≡ merged_at (A.states cells.old) group_index
        (state_of A.keeps (selected (values_of lanes.now) selection.now.list))) }
    ensures err { OnErr result (A.states cells.new ≡ A.states cells.old) }
    ensures roomy { has_one_size A.keeps ≡ true → IsOk result }
{
    let cell = &mut cells[group_index];
    cell.update_batch(alloc, lanes, selection)
}

/// The state at a group index. What keeps no value of its own takes no memory.
pub fn state_at<A: Cell>(
    cells: &[A],
    alloc: Global,
    group_index: usize,
) -> Result<State, AllocError>
    requires { group_index < length cells.now }
    ensures ok { IfOk result
        (λ s. s ≡ slice_index_or (A.states cells.now) group_index no_statistics) }
    ensures roomy { has_one_size A.keeps ≡ true → IsOk result }
{
    cells[group_index].state(alloc)
}

/// The entry that is kept from an end at a group index, and NULL where none is.
pub fn extreme_at<A: Cell>(cells: &[A], end: End, group_index: usize) -> ValueRef<'_>
    requires { group_index < length cells.now }
    ensures { entry (value_in result)
        ≡ extreme_of end (slice_index_or (A.states cells.now) group_index no_statistics) }
{
    cells[group_index].extreme(end)
}

/// The number of entries and their sum at a group index, where nothing else is kept.
#[inline(always)]
pub fn tally_at<A: Cell>(cells: &[A], group_index: usize) -> Option<Tally>
    requires { group_index < length cells.now }
    ensures { IfSome result (λ t.
        (slice_index_or (A.states cells.now) group_index no_statistics ≡ sum_state t.count t.sum)
        × IsSum t.count t.sum) }
{
    cells[group_index].tally()
}
