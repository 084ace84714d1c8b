//! How many entries of a list are not NULL.
ghost use Rattle.std.specs.Prelude.{◌≡◌, ◌<◌, ◌≤◌, ◌+◌, ◌∷◌, [], length, map, true, All};
ghost use Rattle.meaning.specs.declared.plan.AggregateKind.TheVariants.{Count};
ghost use Rattle.meaning.specs.declared.value.Value.TheVariants.{Int};
ghost use Rattle.meaning.specs.Aggregate.{kept_by, merge, no_statistics};
ghost use Rattle.meaning.specs.Order.{value_in};
ghost use Rattle.aggregate_states.specs.Entries.{state_of};
ghost use Rattle.aggregate_states.specs.Kinds.{count_state};
ghost use Rattle.aggregate_states.specs.State.{most_entries};
ghost use Rattle.aggregate_states.specs.Values.{is_spelled, selected};
ghost use Rattle.vectors.specs.Vector.{values_of};

use crate::accumulator::Accumulator;
use crate::cell::Cell;
use aggregate_states::{AggFault, End, State, Tally, is_null, plain_ints, selected_value};
use meaning::{AggregateKind, Sequence, Statistics, Value, ValueRef};
use std::alloc::{AllocError, Global};
use std::marker::Model;
use vectors::{Selection, Vector};

/// COUNT of one list. Contracts see its state.
#[derive(Clone, Drop)]
pub struct CountAcc {
    entries: u64,
}

impl Model for CountAcc {
    ghost use Rattle.std.specs.Prelude.{◌≤◌};
    ghost use Rattle.meaning.specs.declared.answer.Statistics.{Statistics};
    ghost use Rattle.aggregate_states.specs.Kinds.{count_state};
    ghost use Rattle.aggregate_states.specs.State.{most_entries};

    ghost Value = { Statistics };

    ghost view = { λ a. count_state a.entries };

    ghost invariant = { λ a. a.entries ≤ most_entries };
}

impl CountAcc {
    /// Of no entry.
    pub fn new() -> CountAcc
        ensures { result ≡ no_statistics }
    {
        CountAcc { entries: 0 }
    }

    /// One value more.
    #[inline(always)]
    pub fn add(&mut self, value: ValueRef<'_>)
        requires { self.old.count < most_entries }
        ensures { self.new ≡ merge self.old (state_of Count (value_in value.entry ∷ [])) }
    {
        if !is_null(value) {
            self.entries += 1;
        }
    }

    /// So many entries more.
    fn add_many(&mut self, many: u64)
        requires { self.old.count + many ≤ most_entries }
        ensures { self.new ≡ merge self.old (count_state many) }
    {
        self.entries += many;
    }

    /// Integers more, which all count.
    fn add_ints(&mut self, ints: &[i64])
        requires { self.old.count + length ints.now ≤ most_entries }
        ensures { self.new ≡ merge self.old (state_of Count (map Int ints.now)) }
    {
        self.add_many(ints.len() as u64);
    }

    /// Selected values more.
    fn add_selected(&mut self, lanes: &Vector<'_>, selection: &Selection)
        requires lanes { length (values_of lanes.now) ≡ selection.now.below }
        requires spelled { All (λ v. is_spelled v ≡ true) (values_of lanes.now) }
        requires few { self.old.count + length selection.now.list ≤ most_entries }
        ensures { self.new ≡ merge self.old
            (state_of Count (selected (values_of lanes.now) selection.now.list)) }
    {
        for k in 0..selection.len() {
            self.add(selected_value(lanes, selection, k));
        }
    }

    /// The entries of a state more.
    pub fn add_state(&mut self, state: &State)
        requires { self.old.count + state.now.count ≤ most_entries }
        ensures { self.new ≡ merge self.old (kept_by Count state.now) }
    {
        self.entries += state.count();
    }

    /// The state.
    pub fn to_state(&self, alloc: Global) -> State
        ensures { result ≡ self.now }
    {
        State::from_statistics(Statistics {
            count: self.entries,
            sum: 0,
            least: None,
            greatest: None,
            entries: Sequence::new(alloc),
        })
    }
}

impl Accumulator for CountAcc {
    ghost use Rattle.meaning.specs.declared.plan.AggregateKind.TheVariants.{Count};
    ghost use Rattle.aggregate_states.specs.StateLaws.{states_merge};

    ghost kind = { λ _. Count };

    ghost held = { λ a. a };

    ghost merges = { λ _. states_merge Count };

    fn update_batch(
        &mut self,
        alloc: Global,
        lanes: &Vector<'_>,
        selection: &Selection,
    ) -> Result<(), AllocError> {
        if let Some(ints) = plain_ints(lanes, selection) {
            self.add_ints(ints);
            return Ok(());
        }
        self.add_selected(lanes, selection);
        Ok(())
    }

    fn merge_batch(&mut self, alloc: Global, states: &[State]) -> Result<(), AllocError> {
        for k in 0..states.len() {
            self.add_state(&states[k]);
        }
        Ok(())
    }

    fn state(&self, alloc: Global) -> Result<State, AllocError> {
        Ok(self.to_state(alloc))
    }

    fn evaluate(&self, alloc: Global) -> Result<Value, AggFault> {
        self.to_state(alloc).evaluate(alloc, AggregateKind::Count)
    }
}

impl Cell for CountAcc {
    ghost use Rattle.meaning.specs.declared.plan.AggregateKind.TheVariants.{Count};
    ghost use Rattle.std.specs.Prelude.{refl};
    ghost use Rattle.accumulators.specs.Cells.{each_itself};

    ghost keeps = { Count };

    ghost states = { λ cells. cells };

    ghost one_kind = { λ _. refl };

    ghost each = { each_itself };

    fn fresh() -> CountAcc {
        CountAcc::new()
    }

    #[inline(always)]
    fn take(&mut self, alloc: Global, value: ValueRef<'_>) -> Result<(), AllocError> {
        self.add(value);
        Ok(())
    }

    fn take_state(&mut self, alloc: Global, state: &State) -> Result<(), AllocError> {
        self.add_state(state);
        Ok(())
    }

    fn extreme(&self, end: End) -> ValueRef<'_> {
        // No effect at run time. The proof reads from this that no extreme is kept.
        let _held = &self.entries;
        match end {
            End::Least => ValueRef::Null,
            End::Greatest => ValueRef::Null,
        }
    }

    #[inline(always)]
    fn tally(&self) -> Option<Tally> {
        Some(Tally {
            count: self.entries,
            sum: 0,
        })
    }
}
