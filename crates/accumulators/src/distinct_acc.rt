//! The set of the entries of a list.
ghost use Rattle.std.specs.Prelude.{◌≡◌, IfOk, IfErr, Ok, Err};
ghost use Rattle.meaning.specs.Aggregate.{no_statistics, value};
ghost use Rattle.meaning.specs.Operators.{sum_out_of_range};
ghost use Rattle.aggregate_states.specs.declared.fault.AggFault.TheVariants.{SumOutOfRange};

use crate::accumulator::Accumulator;
use aggregate_states::{AggFault, State};
use distinct_sets::Sets;
use meaning::{AggregateKind, Value};
use std::alloc::{AllocError, Global};
use std::marker::Model;
use vectors::{Selection, Vector};

/// COUNT(DISTINCT ..) of one list, and what SUM(DISTINCT ..) is read off. Contracts see its state.
#[derive(Drop)]
pub struct DistinctAcc {
    sets: Sets,
}

impl Model for DistinctAcc {
    ghost use Rattle.std.specs.Prelude.{◌≡◌, length, get_or};
    ghost use Rattle.meaning.specs.declared.answer.Statistics.{Statistics};
    ghost use Rattle.meaning.specs.Aggregate.{no_statistics};

    ghost Value = { Statistics };

    ghost view = { λ a. get_or a.sets 0 no_statistics };

    ghost invariant = { λ a. length a.sets ≡ 1 };
}

impl DistinctAcc {
    /// Of no entry. Takes no memory.
    pub fn new(alloc: Global) -> DistinctAcc
        ensures { result ≡ no_statistics }
    {
        DistinctAcc {
            sets: Sets::of_one_group(alloc),
        }
    }

    /// The aggregate of this kind.
    pub fn evaluate_as(&self, alloc: Global, kind: AggregateKind) -> Result<Value, AggFault>
        ensures ok { IfOk result (λ v. value kind self.now ≡ Ok v) }
        ensures err { IfErr result (λ f. f ≡ SumOutOfRange
            → value kind self.now ≡ Err sum_out_of_range) }
    {
        let state = self.state(alloc)?;
        state.evaluate(alloc, kind)
    }
}

impl Accumulator for DistinctAcc {
    ghost use Rattle.meaning.specs.declared.plan.AggregateKind.TheVariants.{CountDistinct};
    ghost use Rattle.aggregate_states.specs.StateLaws.{states_merge};

    ghost kind = { λ _. CountDistinct };

    ghost held = { λ a. a };

    ghost merges = { λ _. states_merge CountDistinct };

    fn update_batch(
        &mut self,
        alloc: Global,
        lanes: &Vector<'_>,
        selection: &Selection,
    ) -> Result<(), AllocError> {
        self.sets.add_selected(alloc, 0, lanes, selection)
    }

    fn merge_batch(&mut self, alloc: Global, states: &[State]) -> Result<(), AllocError> {
        self.sets.add_states(alloc, 0, states)
    }

    fn state(&self, alloc: Global) -> Result<State, AllocError> {
        self.sets.state(alloc, 0)
    }

    fn evaluate(&self, alloc: Global) -> Result<Value, AggFault> {
        self.evaluate_as(alloc, AggregateKind::CountDistinct)
    }
}
