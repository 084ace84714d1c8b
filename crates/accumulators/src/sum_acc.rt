//! The exact sum of a list.
ghost use Rattle.std.specs.Prelude.{◌≡◌, ◌<◌, ◌≤◌, ◌+◌, ◌∷◌, [], length, map, slice_index_or, pos, true, All};
ghost use Rattle.meaning.specs.declared.plan.AggregateKind.TheVariants.{Sum};
ghost use Rattle.meaning.specs.declared.value.Value.TheVariants.{Int};
ghost use Rattle.meaning.specs.Aggregate.{kept_by, merge, no_statistics};
ghost use Rattle.meaning.specs.Order.{value_in};
ghost use Rattle.aggregate_states.specs.Entries.{state_of};
ghost use Rattle.aggregate_states.specs.Kinds.{sum_state, IsSum};
ghost use Rattle.aggregate_states.specs.State.{most_entries};
ghost use Rattle.aggregate_states.specs.Values.{is_spelled, selected};
ghost use Rattle.vectors.specs.Vector.{values_of};

use crate::accumulator::Accumulator;
use crate::cell::Cell;
use aggregate_states::{AggFault, End, State, Tally, plain_ints, selected_value};
use meaning::{AggregateKind, Sequence, Statistics, Value, ValueRef};
use std::alloc::{AllocError, Global};
use std::marker::Model;
use vectors::{Selection, Vector};

/// SUM of one list, and what AVG is read off. Contracts see its state.
#[derive(Clone, Drop)]
pub struct SumAcc {
    tally: Tally,
}

impl Model for SumAcc {
    ghost use Rattle.meaning.specs.declared.answer.Statistics.{Statistics};
    ghost use Rattle.aggregate_states.specs.Kinds.{sum_state, IsSum};

    ghost Value = { Statistics };

    ghost view = { λ a. sum_state a.tally.count a.tally.sum };

    ghost invariant = { λ a. IsSum a.tally.count a.tally.sum };
}

impl SumAcc {
    /// Of no entry.
    pub fn new() -> SumAcc
        ensures { result ≡ no_statistics }
    {
        SumAcc {
            tally: Tally::new(),
        }
    }

    /// One value more.
    #[inline(always)]
    pub fn add(&mut self, value: ValueRef<'_>)
        requires { self.old.count < most_entries }
        ensures { self.new ≡ merge self.old (state_of Sum (value_in value.entry ∷ [])) }
    {
        self.tally = self.tally.plus(Tally::of_value(value));
    }

    /// One integer more, of these.
    #[inline(always)]
    pub fn add_int(&mut self, ints: &[i64], k: usize)
        requires within { k < length ints.now }
        requires few { self.old.count < most_entries }
        ensures { self.new ≡ merge self.old
            (state_of Sum (Int (slice_index_or ints.now k (pos 0)) ∷ [])) }
    {
        self.tally = self.tally.plus(Tally::of_int(ints[k]));
    }

    /// Integers more.
    fn add_ints(&mut self, ints: &[i64])
        requires { self.old.count + length ints.now ≤ most_entries }
        ensures { self.new ≡ merge self.old (state_of Sum (map Int ints.now)) }
    {
        self.tally = self.tally.plus(Tally::of_ints(ints));
    }

    /// Selected values more.
    fn add_selected(&mut self, lanes: &Vector<'_>, selection: &Selection)
        requires lanes { length (values_of lanes.now) ≡ selection.now.below }
        requires spelled { All (λ v. is_spelled v ≡ true) (values_of lanes.now) }
        requires few { self.old.count + length selection.now.list ≤ most_entries }
        ensures { self.new ≡ merge self.old
            (state_of Sum (selected (values_of lanes.now) selection.now.list)) }
    {
        for k in 0..selection.len() {
            self.add(selected_value(lanes, selection, k));
        }
    }

    /// The entries of a state more.
    pub fn add_state(&mut self, state: &State)
        requires { self.old.count + state.now.count ≤ most_entries }
        ensures { self.new ≡ merge self.old (kept_by Sum state.now) }
    {
        self.tally = self.tally.plus(Tally::of_state(state));
    }

    /// The state.
    pub fn to_state(&self, alloc: Global) -> State
        ensures { result ≡ self.now }
    {
        State::from_statistics(Statistics {
            count: self.tally.count,
            sum: self.tally.sum,
            least: None,
            greatest: None,
            entries: Sequence::new(alloc),
        })
    }
}

impl Accumulator for SumAcc {
    ghost use Rattle.meaning.specs.declared.plan.AggregateKind.TheVariants.{Sum};
    ghost use Rattle.aggregate_states.specs.StateLaws.{states_merge};

    ghost kind = { λ _. Sum };

    ghost held = { λ a. a };

    ghost merges = { λ _. states_merge Sum };

    fn update_batch(
        &mut self,
        alloc: Global,
        lanes: &Vector<'_>,
        selection: &Selection,
    ) -> Result<(), AllocError> {
        if let Some(ints) = plain_ints(lanes, selection) {
            self.add_ints(ints);
            return Ok(());
        }
        self.add_selected(lanes, selection);
        Ok(())
    }

    fn merge_batch(&mut self, alloc: Global, states: &[State]) -> Result<(), AllocError> {
        for k in 0..states.len() {
            self.add_state(&states[k]);
        }
        Ok(())
    }

    fn state(&self, alloc: Global) -> Result<State, AllocError> {
        Ok(self.to_state(alloc))
    }

    fn evaluate(&self, alloc: Global) -> Result<Value, AggFault> {
        self.to_state(alloc).evaluate(alloc, AggregateKind::Sum)
    }
}

impl Cell for SumAcc {
    ghost use Rattle.meaning.specs.declared.plan.AggregateKind.TheVariants.{Sum};
    ghost use Rattle.std.specs.Prelude.{refl};
    ghost use Rattle.accumulators.specs.Cells.{each_itself};

    ghost keeps = { Sum };

    ghost states = { λ cells. cells };

    ghost one_kind = { λ _. refl };

    ghost each = { each_itself };

    fn fresh() -> SumAcc {
        SumAcc::new()
    }

    #[inline(always)]
    fn take(&mut self, alloc: Global, value: ValueRef<'_>) -> Result<(), AllocError> {
        self.add(value);
        Ok(())
    }

    fn take_state(&mut self, alloc: Global, state: &State) -> Result<(), AllocError> {
        self.add_state(state);
        Ok(())
    }

    fn extreme(&self, end: End) -> ValueRef<'_> {
        // No effect at run time. The proof reads from this that no extreme is kept.
        let _held = &self.tally;
        match end {
            End::Least => ValueRef::Null,
            End::Greatest => ValueRef::Null,
        }
    }

    #[inline(always)]
    fn tally(&self) -> Option<Tally> {
        Some(self.tally)
    }
}
