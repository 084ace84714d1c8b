//! The states of one aggregate in all groups, to be handed out.
ghost use Rattle.std.specs.Prelude.{◌≡◌, ◌≢◌, ◌<◌, length, slice_index_or, true, false, IsOk, IfErr, IfOk, IfSome, Ok};
ghost use Rattle.meaning.specs.declared.plan.AggregateKind.TheVariants as the_kind;
ghost use Rattle.meaning.specs.Aggregate.{no_statistics, value};
ghost use Rattle.meaning.specs.Order.{value_in};
ghost use Rattle.meaning.specs.Wanting.{ReportsIfMemory};
ghost use Rattle.aggregate_states.specs.declared.fault.AggFault.TheVariants.{SumOutOfRange};
ghost use Rattle.aggregate_states.specs.Fault.{fault_returned};
ghost use Rattle.aggregate_states.specs.Kinds.{extreme_of, has_one_size, keeps_set, sum_state, IsSum};
ghost use Rattle.aggregate_states.specs.Values.{entry, fits};
ghost use Rattle.accumulators.specs.Columns.{kind_of_cells, states_in};
ghost use Rattle.accumulators.specs.Ordered.{column_of};

use crate::cells::Cells;
use aggregate_states::{AggFault, End, State, Tally, integer_of, tally_value};
use distinct_sets::OrderedSets;
use meaning::{AggregateKind, ValueRef};
use std::alloc::{AllocError, Global};
use std::marker::Model;

/// What states are handed out from: sets once they are in order.
#[derive(Drop)]
pub enum Ordered<'a> {
    Each(&'a Cells),
    CountDistinct(OrderedSets<'a>),
    SumDistinct(OrderedSets<'a>),
}

/// The states of a column. Contracts see the column.
#[derive(Drop)]
pub struct OrderedStates<'a> {
    held: Ordered<'a>,
}

impl<'a> Model for OrderedStates<'a> {
    ghost use Rattle.accumulators.specs.Columns.{ColumnSpec};
    ghost use Rattle.accumulators.specs.Ordered.{column_of};

    ghost Value = { ColumnSpec };

    ghost view = { λ o. column_of o.held };
}

fn put_in_order(alloc: Global, cells: &Cells) -> Result<Ordered<'_>, AllocError>
    ensures ok { IfOk result (λ held. column_of held
        ≡ record { kind = kind_of_cells cells.now; states = states_in cells.now }) }
    ensures roomy { keeps_set (kind_of_cells cells.now) ≡ false → IsOk result }
{
    match cells {
        Cells::CountDistinct(sets) => Ok(Ordered::CountDistinct(sets.ordered(alloc)?)),
        Cells::SumDistinct(sets) => Ok(Ordered::SumDistinct(sets.ordered(alloc)?)),
        _ => Ok(Ordered::Each(cells)),
    }
}

impl<'a> OrderedStates<'a> {
    /// The states that these cells hold. Only sets take memory.
    pub fn of_cells(alloc: Global, cells: &'a Cells) -> Result<OrderedStates<'a>, AllocError>
        ensures ok { IfOk result (λ states. states
            ≡ record { kind = kind_of_cells cells.now; states = states_in cells.now }) }
        ensures roomy { keeps_set (kind_of_cells cells.now) ≡ false → IsOk result }
    {
        Ok(OrderedStates {
            held: put_in_order(alloc, cells)?,
        })
    }

    /// The state of a group. What keeps no value of its own takes no memory.
    pub fn state(&self, alloc: Global, group_index: usize) -> Result<State, AllocError>
        requires { group_index < length self.now.states }
        ensures ok { IfOk result
            (λ s. s ≡ slice_index_or self.now.states group_index no_statistics) }
        ensures roomy { has_one_size self.now.kind ≡ true → IsOk result }
    {
        match &self.held {
            Ordered::Each(cells) => cells.state(alloc, group_index),
            Ordered::CountDistinct(sets) => sets.state(alloc, group_index),
            Ordered::SumDistinct(sets) => sets.state(alloc, group_index),
        }
    }

    fn extreme(&self, end: End, group_index: usize) -> ValueRef<'_>
        requires { group_index < length self.now.states }
        ensures { entry (value_in result)
            ≡ extreme_of end (slice_index_or self.now.states group_index no_statistics) }
    {
        match &self.held {
            Ordered::Each(cells) => cells.extreme(end, group_index),
            Ordered::CountDistinct(sets) => sets.extreme(end, group_index),
            Ordered::SumDistinct(sets) => sets.extreme(end, group_index),
        }
    }

    fn least(&self, group_index: usize) -> ValueRef<'_>
        requires { group_index < length self.now.states }
        ensures value { value the_kind.Min
            (slice_index_or self.now.states group_index no_statistics) ≡ Ok (value_in result) }
        ensures fits { fits (value_in result) ≡ true }
    {
        self.extreme(End::Least, group_index)
    }

    fn greatest(&self, group_index: usize) -> ValueRef<'_>
        requires { group_index < length self.now.states }
        ensures value { value the_kind.Max
            (slice_index_or self.now.states group_index no_statistics) ≡ Ok (value_in result) }
        ensures fits { fits (value_in result) ≡ true }
    {
        self.extreme(End::Greatest, group_index)
    }

    fn integer(
        &self,
        alloc: Global,
        kind: AggregateKind,
        group_index: usize,
    ) -> Result<ValueRef<'_>, AggFault>
        requires group_index { group_index < length self.now.states }
        requires least { kind ≢ the_kind.Min }
        requires greatest { kind ≢ the_kind.Max }
        ensures value { ReportsIfMemory fault_returned value_in result
            (value kind (slice_index_or self.now.states group_index no_statistics)) }
        ensures fits { IfOk result (λ v. fits (value_in v) ≡ true) }
        ensures roomy { has_one_size self.now.kind ≡ true → IfErr result (λ f. f ≡ SumOutOfRange) }
    {
        let state = self.state(alloc, group_index)?;
        integer_of(alloc, kind, &state)
    }

    fn tally(&self, group_index: usize) -> Option<Tally>
        requires { group_index < length self.now.states }
        ensures { IfSome result (λ t.
            (slice_index_or self.now.states group_index no_statistics ≡ sum_state t.count t.sum)
            × IsSum t.count t.sum) }
    {
        match &self.held {
            Ordered::Each(cells) => cells.tally(group_index),
            Ordered::CountDistinct(_) => None,
            Ordered::SumDistinct(_) => None,
        }
    }

    /// The value of an aggregate that is read off the number of its entries and their sum, without a
    /// state where the column keeps just these.
    fn counted(
        &self,
        alloc: Global,
        kind: AggregateKind,
        group_index: usize,
    ) -> Result<ValueRef<'_>, AggFault>
        requires group_index { group_index < length self.now.states }
        requires kind { has_one_size kind ≡ true }
        ensures value { ReportsIfMemory fault_returned value_in result
            (value kind (slice_index_or self.now.states group_index no_statistics)) }
        ensures fits { IfOk result (λ v. fits (value_in v) ≡ true) }
        ensures roomy { has_one_size self.now.kind ≡ true → IfErr result (λ f. f ≡ SumOutOfRange) }
    {
        match self.tally(group_index) {
            Some(tally) => tally_value(kind, tally),
            None => self.integer(alloc, kind, group_index),
        }
    }

    /// The value of an aggregate of a kind with the state of a group, lent where the state holds it.
    ///
    /// # Errors
    ///
    /// A sum outside 64 bits; of a column that keeps values, out of memory.
    pub fn value(
        &self,
        alloc: Global,
        kind: AggregateKind,
        group_index: usize,
    ) -> Result<ValueRef<'_>, AggFault>
        requires { group_index < length self.now.states }
        ensures value { ReportsIfMemory fault_returned value_in result
            (value kind (slice_index_or self.now.states group_index no_statistics)) }
        ensures fits { IfOk result (λ v. fits (value_in v) ≡ true) }
        ensures roomy { has_one_size self.now.kind ≡ true → IfErr result (λ f. f ≡ SumOutOfRange) }
    {
        match kind {
            AggregateKind::Min => Ok(self.least(group_index)),
            AggregateKind::Max => Ok(self.greatest(group_index)),
            AggregateKind::CountRows => self.counted(alloc, kind, group_index),
            AggregateKind::Count => self.counted(alloc, kind, group_index),
            AggregateKind::Sum => self.counted(alloc, kind, group_index),
            AggregateKind::Avg => self.counted(alloc, kind, group_index),
            AggregateKind::CountDistinct => self.integer(alloc, kind, group_index),
            AggregateKind::SumDistinct => self.integer(alloc, kind, group_index),
        }
    }
}
