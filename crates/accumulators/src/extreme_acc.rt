//! The least or the greatest value of a list.
ghost use Rattle.std.specs.Prelude.{◌≡◌, ℕ, ◌<◌, ◌≤◌, ◌+◌, ◌∷◌, [], true, OnOk, OnErr};
ghost use Rattle.meaning.specs.Aggregate.{kept_by, merge, no_statistics};
ghost use Rattle.meaning.specs.Order.{value_in};
ghost use Rattle.aggregate_states.specs.declared.end.End.{End as TheEnd};
ghost use Rattle.aggregate_states.specs.Entries.{state_of};
ghost use Rattle.aggregate_states.specs.Kinds.{end_state, extreme_of, kind_from};
ghost use Rattle.aggregate_states.specs.State.{most_entries};
ghost use Rattle.aggregate_states.specs.Values.{entry, is_spelled};

use crate::accumulator::Accumulator;
use crate::cell::Cell;
use aggregate_states::{
    AggFault, End, Extreme, Found, State, Tally, found_in_states, found_selected,
};
use meaning::{AggregateKind, Value, ValueRef};
use std::alloc::{AllocError, Global};
use std::marker::{Model, PhantomData};
use vectors::{Selection, Vector};

/// From which end of the whole order values are taken.
pub trait Side {
    ghost side: { TheEnd };

    fn end() -> End
        ensures { result ≡ side };
}

/// From the least value on.
#[derive(Clone, Drop)]
pub struct FromLeast;

impl Side for FromLeast {
    ghost use Rattle.aggregate_states.specs.declared.end.End.TheVariants.{Least};

    ghost side = { Least };

    #[inline(always)]
    fn end() -> End {
        End::Least
    }
}

/// From the greatest value on.
#[derive(Clone, Drop)]
pub struct FromGreatest;

impl Side for FromGreatest {
    ghost use Rattle.aggregate_states.specs.declared.end.End.TheVariants.{Greatest};

    ghost side = { Greatest };

    #[inline(always)]
    fn end() -> End {
        End::Greatest
    }
}

/// MIN or MAX of one list. Contracts see its state.
#[derive(Clone, Drop)]
pub struct ExtremeAcc<S: Side> {
    found: Extreme,
    side: PhantomData<S>,
}

/// MIN of one list.
pub type MinAcc = ExtremeAcc<FromLeast>;

/// MAX of one list.
pub type MaxAcc = ExtremeAcc<FromGreatest>;

impl<S: Side> Model for ExtremeAcc<S> {
    ghost use Rattle.meaning.specs.declared.answer.Statistics.{Statistics};
    ghost use Rattle.aggregate_states.specs.Kinds.{end_state, IsExtreme};

    ghost Value = { Statistics };

    ghost view = { λ a. end_state S.side a.found.count a.found.best };

    ghost invariant = { λ a. IsExtreme a.found.count a.found.best };
}

fn kind_of_end(end: End) -> AggregateKind
    ensures { result ≡ kind_from end }
{
    match end {
        End::Least => AggregateKind::Min,
        End::Greatest => AggregateKind::Max,
    }
}

/// The best that is kept from one end, where it is asked for from that end.
fn best_from(kept: End, best: &Value, end: End) -> ValueRef<'_>
    ensures { (count : ℕ)
        → entry (value_in result) ≡ extreme_of end (end_state kept count best.now) }
{
    match kept {
        End::Least => match end {
            End::Least => best.as_value_ref(),
            End::Greatest => ValueRef::Null,
        },
        End::Greatest => match end {
            End::Least => ValueRef::Null,
            End::Greatest => best.as_value_ref(),
        },
    }
}

impl<S: Side> ExtremeAcc<S> {
    /// Of no entry.
    pub fn new() -> ExtremeAcc<S>
        ensures { result ≡ no_statistics }
    {
        ExtremeAcc {
            found: Extreme::new(),
            side: PhantomData,
        }
    }

    /// One value more. On an error nothing changes.
    pub fn add(&mut self, alloc: Global, value: ValueRef<'_>) -> Result<(), AllocError>
        requires few { self.old.count < most_entries }
        requires spelled { is_spelled (value_in value) ≡ true }
        ensures ok { OnOk result
            (self.new ≡ merge self.old (state_of (kind_from S.side) (value_in value.entry ∷ []))) }
        ensures err { OnErr result (self.new ≡ self.old) }
    {
        self.found.add(alloc, S::end(), Found::of_value(value))
    }

    /// The entries of a state more. On an error nothing changes.
    pub fn add_state(&mut self, alloc: Global, state: &State) -> Result<(), AllocError>
        requires { self.old.count + state.now.count ≤ most_entries }
        ensures ok { OnOk result (self.new ≡ merge self.old (kept_by (kind_from S.side) state.now)) }
        ensures err { OnErr result (self.new ≡ self.old) }
    {
        let end = S::end();
        self.found.add(alloc, end, Found::of_state(end, state))
    }
}

impl<S: Side> Accumulator for ExtremeAcc<S> {
    ghost use Rattle.aggregate_states.specs.Kinds.{kind_from};
    ghost use Rattle.aggregate_states.specs.StateLaws.{states_merge};

    ghost kind = { λ _. kind_from S.side };

    ghost held = { λ a. a };

    ghost merges = { λ _. states_merge (kind_from S.side) };

    fn update_batch(
        &mut self,
        alloc: Global,
        lanes: &Vector<'_>,
        selection: &Selection,
    ) -> Result<(), AllocError> {
        let end = S::end();
        let found = found_selected(end, lanes, selection);
        self.found.add(alloc, end, found)
    }

    fn merge_batch(&mut self, alloc: Global, states: &[State]) -> Result<(), AllocError> {
        let end = S::end();
        let found = found_in_states(end, states);
        self.found.add(alloc, end, found)
    }

    fn state(&self, alloc: Global) -> Result<State, AllocError> {
        self.found.to_state(alloc, S::end())
    }

    fn evaluate(&self, alloc: Global) -> Result<Value, AggFault> {
        let state = self.state(alloc)?;
        state.evaluate(alloc, kind_of_end(S::end()))
    }
}

impl<S: Side> Cell for ExtremeAcc<S> {
    ghost use Rattle.std.specs.Prelude.{refl};
    ghost use Rattle.accumulators.specs.Cells.{each_itself};
    ghost use Rattle.aggregate_states.specs.Kinds.{kind_from};

    ghost keeps = { kind_from S.side };

    ghost states = { λ cells. cells };

    ghost one_kind = { λ _. refl };

    ghost each = { each_itself };

    fn fresh() -> ExtremeAcc<S> {
        ExtremeAcc::new()
    }

    fn take(&mut self, alloc: Global, value: ValueRef<'_>) -> Result<(), AllocError> {
        self.add(alloc, value)
    }

    fn take_state(&mut self, alloc: Global, state: &State) -> Result<(), AllocError> {
        self.add_state(alloc, state)
    }

    fn extreme(&self, end: End) -> ValueRef<'_> {
        best_from(S::end(), &self.found.best, end)
    }

    fn tally(&self) -> Option<Tally> {
        None
    }
}
