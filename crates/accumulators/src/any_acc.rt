//! An aggregate of any kind.
ghost use Rattle.std.specs.Prelude.{◌≡◌};
ghost use Rattle.meaning.specs.Aggregate.{no_statistics};
ghost use Rattle.accumulators.specs.AnyAcc.{held_by, kind_of};

use crate::accumulator::Accumulator;
use crate::count_acc::CountAcc;
use crate::distinct_acc::DistinctAcc;
use crate::extreme_acc::{MaxAcc, MinAcc};
use crate::sum_acc::SumAcc;
use aggregate_states::{AggFault, State};
use meaning::{AggregateKind, Value};
use std::alloc::{AllocError, Global};
use vectors::{Selection, Vector};

/// The running state of an aggregate of one of the kinds.
#[derive(Drop)]
pub enum AnyAcc {
    CountRows(CountAcc),
    Count(CountAcc),
    Sum(SumAcc),
    Min(MinAcc),
    Max(MaxAcc),
    Avg(SumAcc),
    CountDistinct(DistinctAcc),
    SumDistinct(DistinctAcc),
}

/// What is done with an accumulator of any kind. A kind is one line here.
macro_rules! of_kind {
    ($held:expr, $acc:ident => $of_acc:expr) => {
        match $held {
            AnyAcc::CountRows($acc) => $of_acc,
            AnyAcc::Count($acc) => $of_acc,
            AnyAcc::Sum($acc) => $of_acc,
            AnyAcc::Min($acc) => $of_acc,
            AnyAcc::Max($acc) => $of_acc,
            AnyAcc::Avg($acc) => $of_acc,
            AnyAcc::CountDistinct($acc) => $of_acc,
            AnyAcc::SumDistinct($acc) => $of_acc,
        }
    };
}

impl AnyAcc {
    /// Of no entry.
    pub fn new(alloc: Global, kind: AggregateKind) -> AnyAcc
        ensures kind { kind_of result ≡ kind }
        ensures held { held_by result ≡ no_statistics }
    {
        match kind {
            AggregateKind::CountRows => AnyAcc::CountRows(CountAcc::new()),
            AggregateKind::Count => AnyAcc::Count(CountAcc::new()),
            AggregateKind::Sum => AnyAcc::Sum(SumAcc::new()),
            AggregateKind::Min => AnyAcc::Min(MinAcc::new()),
            AggregateKind::Max => AnyAcc::Max(MaxAcc::new()),
            AggregateKind::Avg => AnyAcc::Avg(SumAcc::new()),
            AggregateKind::CountDistinct => AnyAcc::CountDistinct(DistinctAcc::new(alloc)),
            AggregateKind::SumDistinct => AnyAcc::SumDistinct(DistinctAcc::new(alloc)),
        }
    }

    /// The aggregate's kind.
    pub fn kind(&self) -> AggregateKind
        ensures { result ≡ kind_of self.now }
    {
        match self {
            AnyAcc::CountRows(_) => AggregateKind::CountRows,
            AnyAcc::Count(_) => AggregateKind::Count,
            AnyAcc::Sum(_) => AggregateKind::Sum,
            AnyAcc::Min(_) => AggregateKind::Min,
            AnyAcc::Max(_) => AggregateKind::Max,
            AnyAcc::Avg(_) => AggregateKind::Avg,
            AnyAcc::CountDistinct(_) => AggregateKind::CountDistinct,
            AnyAcc::SumDistinct(_) => AggregateKind::SumDistinct,
        }
    }
}

impl Accumulator for AnyAcc {
    ghost use Rattle.accumulators.specs.AnyAcc.{held_by, kind_of};
    ghost use Rattle.aggregate_states.specs.StateLaws.{states_merge};

    ghost kind = { kind_of };

    ghost held = { held_by };

    ghost merges = { λ a. states_merge (kind_of a) };

    fn update_batch(
        &mut self,
        alloc: Global,
        lanes: &Vector<'_>,
        selection: &Selection,
    ) -> Result<(), AllocError> {
        of_kind!(self, acc => acc.update_batch(alloc, lanes, selection))
    }

    fn merge_batch(&mut self, alloc: Global, states: &[State]) -> Result<(), AllocError> {
        of_kind!(self, acc => acc.merge_batch(alloc, states))
    }

    fn state(&self, alloc: Global) -> Result<State, AllocError> {
        of_kind!(self, acc => acc.state(alloc))
    }

    fn evaluate(&self, alloc: Global) -> Result<Value, AggFault> {
        match self {
            AnyAcc::CountRows(acc) => acc
                .to_state(alloc)
                .evaluate(alloc, AggregateKind::CountRows),
            AnyAcc::Count(acc) => acc.evaluate(alloc),
            AnyAcc::Sum(acc) => acc.evaluate(alloc),
            AnyAcc::Min(acc) => acc.evaluate(alloc),
            AnyAcc::Max(acc) => acc.evaluate(alloc),
            AnyAcc::Avg(acc) => acc.to_state(alloc).evaluate(alloc, AggregateKind::Avg),
            AnyAcc::CountDistinct(acc) => acc.evaluate(alloc),
            AnyAcc::SumDistinct(acc) => acc.evaluate_as(alloc, AggregateKind::SumDistinct),
        }
    }
}
