//! The states of one kind, by their group indexes.
ghost use Rattle.std.specs.Prelude.{◌≡◌, ◌<◌, ◌≤◌, ◌+◌, [], ◌∷◌, ◌++◌, length, map, zip, slice_index_or, pos, true, All, IsOk, OnOk, OnErr, IfOk, IfSome};
ghost use Rattle.meaning.specs.declared.plan.AggregateKind.TheVariants as kind;
ghost use Rattle.meaning.specs.Aggregate.{kept_by, no_statistics};
ghost use Rattle.meaning.specs.Order.{value_in};
ghost use Rattle.accumulators.specs.Columns.{kind_of_cells, merged_at, states_in, takes_ints};
ghost use Rattle.meaning.specs.declared.value.Value.TheVariants as of_value;
ghost use Rattle.aggregate_states.specs.Entries.{state_of, with_entries};
ghost use Rattle.aggregate_states.specs.Kinds.{extreme_of, has_one_size, sum_state, IsSum};
ghost use Rattle.aggregate_states.specs.State.{most_entries};
ghost use Rattle.aggregate_states.specs.Values.{entry, is_spelled, selected};
ghost use Rattle.vectors.specs.Vector.{values_of};

use crate::cell::{add_state_to, add_to, extreme_at, push_to, state_at, tally_at, update_in};
use crate::count_acc::CountAcc;
use crate::extreme_acc::{MaxAcc, MinAcc};
use crate::sum_acc::SumAcc;
use aggregate_states::{End, State, Tally};
use distinct_sets::Sets;
use meaning::{AggregateKind, ValueRef};
use std::alloc::{AllocError, Global};
use vectors::{Selection, Vector};

/// What the states of each kind are kept in.
#[derive(Drop)]
pub enum Cells {
    CountRows(Vec<CountAcc>),
    Count(Vec<CountAcc>),
    Sum(Vec<SumAcc>),
    Min(Vec<MinAcc>),
    Max(Vec<MaxAcc>),
    Avg(Vec<SumAcc>),
    CountDistinct(Sets),
    SumDistinct(Sets),
}

/// What is done with states of any kind. A kind is one line here.
macro_rules! of_kind {
    ($held:expr, $cells:ident => $in_cells:expr, $sets:ident => $in_sets:expr) => {
        match $held {
            Cells::CountRows($cells) => $in_cells,
            Cells::Count($cells) => $in_cells,
            Cells::Sum($cells) => $in_cells,
            Cells::Min($cells) => $in_cells,
            Cells::Max($cells) => $in_cells,
            Cells::Avg($cells) => $in_cells,
            Cells::CountDistinct($sets) => $in_sets,
            Cells::SumDistinct($sets) => $in_sets,
        }
    };
}

#[inline(always)]
fn add_int_to_sum(cells: &mut [SumAcc], group_index: usize, ints: &[i64], k: usize)
    requires group_index { group_index < length cells.old }
    requires within { k < length ints.now }
    requires few { (slice_index_or cells.old group_index no_statistics).count < most_entries }
    ensures { cells.new ≡ merged_at cells.old group_index
        (state_of kind.Sum (of_value.Int (slice_index_or ints.now k (pos 0)) ∷ [])) }
{
    let cell = &mut cells[group_index];
    cell.add_int(ints, k);
}

/// One integer after the other goes to the sum at its group index.
fn add_ints_to_sums(cells: &mut [SumAcc], group_indexes: &[u32], ints: &[i64])
    requires group_indexes { length group_indexes.now ≡ length ints.now }
    requires within { All (λ group_index. group_index < length cells.old) group_indexes.now }
    requires few { All (λ s. s.count + length ints.now ≤ most_entries) cells.old }
    ensures { cells.new ≡ with_entries kind.Sum cells.old
        (zip group_indexes.now (map of_value.Int ints.now)) }
{
    for k in 0..ints.len() {
        add_int_to_sum(cells, group_indexes[k] as usize, ints, k);
    }
}

/// One integer after the other goes to the set at its group index.
fn add_ints_to_sets(
    sets: &mut Sets,
    alloc: Global,
    group_indexes: &[u32],
    ints: &[i64],
) -> Result<(), AllocError>
    requires group_indexes { length group_indexes.now ≡ length ints.now }
    requires within { All (λ group_index. group_index < length sets.old) group_indexes.now }
    ensures height { length sets.new ≡ length sets.old }
    ensures ok { OnOk result (sets.new ≡ with_entries kind.CountDistinct sets.old
        (zip group_indexes.now (map of_value.Int ints.now))) }
{
    for k in 0..ints.len() {
        sets.add_int(alloc, group_indexes[k], ints, k)?;
    }
    Ok(())
}

impl Cells {
    /// No state.
    pub fn new(alloc: Global, kind: AggregateKind) -> Cells
        ensures kind { kind_of_cells result ≡ kind }
        ensures states { states_in result ≡ [] }
    {
        match kind {
            AggregateKind::CountRows => Cells::CountRows(Vec::new(alloc)),
            AggregateKind::Count => Cells::Count(Vec::new(alloc)),
            AggregateKind::Sum => Cells::Sum(Vec::new(alloc)),
            AggregateKind::Min => Cells::Min(Vec::new(alloc)),
            AggregateKind::Max => Cells::Max(Vec::new(alloc)),
            AggregateKind::Avg => Cells::Avg(Vec::new(alloc)),
            AggregateKind::CountDistinct => Cells::CountDistinct(Sets::new(alloc)),
            AggregateKind::SumDistinct => Cells::SumDistinct(Sets::new(alloc)),
        }
    }

    /// A copy, in memory of its own.
    pub fn copy(&self, alloc: Global) -> Result<Cells, AllocError>
        ensures kind { IfOk result (λ c. kind_of_cells c ≡ kind_of_cells self.now) }
        ensures states { IfOk result (λ c. states_in c ≡ states_in self.now) }
    {
        match self {
            Cells::CountRows(cells) => Ok(Cells::CountRows(cells.clone()?)),
            Cells::Count(cells) => Ok(Cells::Count(cells.clone()?)),
            Cells::Sum(cells) => Ok(Cells::Sum(cells.clone()?)),
            Cells::Min(cells) => Ok(Cells::Min(cells.clone()?)),
            Cells::Max(cells) => Ok(Cells::Max(cells.clone()?)),
            Cells::Avg(cells) => Ok(Cells::Avg(cells.clone()?)),
            Cells::CountDistinct(sets) => Ok(Cells::CountDistinct(sets.copy(alloc)?)),
            Cells::SumDistinct(sets) => Ok(Cells::SumDistinct(sets.copy(alloc)?)),
        }
    }

    /// How many states there are.
    pub fn len(&self) -> usize
        ensures { result ≡ length (states_in self.now) }
    {
        of_kind!(
            self,
            cells => cells.len(),
            sets => sets.len()
        )
    }

    /// A state more, of no entry. On an error nothing changes.
    pub fn push(&mut self) -> Result<(), AllocError>
        ensures kind { kind_of_cells self.new ≡ kind_of_cells self.old }
        ensures ok { OnOk result (states_in self.new ≡ states_in self.old ++ no_statistics ∷ []) }
        ensures err { OnErr result (states_in self.new ≡ states_in self.old) }
    {
        of_kind!(
            self,
            cells => push_to(cells),
            sets => sets.push()
        )
    }

    /// One value more in a state. On an error nothing changes.
    #[inline(always)]
    pub fn add(
        &mut self,
        alloc: Global,
        group_index: usize,
        value: ValueRef<'_>,
    ) -> Result<(), AllocError>
        requires group_index { group_index < length (states_in self.old) }
        requires few { (slice_index_or (states_in self.old) group_index no_statistics).count
            < most_entries }
        requires spelled { is_spelled (value_in value) ≡ true }
        ensures kind { kind_of_cells self.new ≡ kind_of_cells self.old }
        ensures ok { OnOk result
            (states_in self.new ≡ merged_at (states_in self.old) group_index
            (state_of (kind_of_cells self.old) (value_in value.entry ∷ []))) }
        ensures err { OnErr result (states_in self.new ≡ states_in self.old) }
        ensures roomy { has_one_size (kind_of_cells self.old) ≡ true → IsOk result }
    {
        of_kind!(
            self,
            cells => add_to(cells.as_mut_slice(), alloc, group_index, value),
            sets => sets.add(alloc, group_index, value)
        )
    }

    /// Selected values more in the state at one group index. On an error nothing changes.
    pub fn update_at(
        &mut self,
        alloc: Global,
        group_index: usize,
        lanes: &Vector<'_>,
        selection: &Selection,
    ) -> Result<(), AllocError>
        requires group_index { group_index < length (states_in self.old) }
        requires lanes { length (values_of lanes.now) ≡ selection.now.below }
        requires spelled { All (λ v. is_spelled v ≡ true) (values_of lanes.now) }
        requires few { (slice_index_or (states_in self.old) group_index no_statistics).count
            + length selection.now.list ≤ most_entries }
        ensures kind { kind_of_cells self.new ≡ kind_of_cells self.old }
        ensures height { length (states_in self.new) ≡ length (states_in self.old) }
        ensures ok { OnOk result
            (states_in self.new ≡ merged_at (states_in self.old) group_index
            (state_of (kind_of_cells self.old) (selected (values_of lanes.now)
            selection.now.list))) }
        ensures err { OnErr result (states_in self.new ≡ states_in self.old) }
        ensures roomy { has_one_size (kind_of_cells self.old) ≡ true → IsOk result }
    {
        of_kind!(
            self,
            cells => update_in(cells.as_mut_slice(), alloc, group_index, lanes, selection),
            sets => sets.add_selected(alloc, group_index, lanes, selection)
        )
    }

    /// Whether `add_ints` takes integers for these states.
    pub fn take_ints(&self) -> bool
        ensures { result ≡ takes_ints (kind_of_cells self.now) }
    {
        match self {
            Cells::Sum(_) => true,
            Cells::Avg(_) => true,
            Cells::CountDistinct(_) => true,
            Cells::SumDistinct(_) => true,
            _ => false,
        }
    }

    /// One integer after the other goes to the sum or the set at its group index. On an error the
    /// states are open.
    pub fn add_ints(
        &mut self,
        alloc: Global,
        group_indexes: &[u32],
        ints: &[i64],
    ) -> Result<(), AllocError>
        requires takes { takes_ints (kind_of_cells self.old) ≡ true }
        requires group_indexes { length group_indexes.now ≡ length ints.now }
        requires within { All (λ group_index. group_index < length (states_in self.old))
            group_indexes.now }
        requires few { All (λ s. s.count + length ints.now ≤ most_entries) (states_in self.old) }
        ensures kind { kind_of_cells self.new ≡ kind_of_cells self.old }
        ensures height { length (states_in self.new) ≡ length (states_in self.old) }
        ensures ok { OnOk result (states_in self.new
            ≡ with_entries (kind_of_cells self.old) (states_in self.old)
            (zip group_indexes.now (map of_value.Int ints.now))) }
        ensures roomy { has_one_size (kind_of_cells self.old) ≡ true → IsOk result }
    {
        match self {
            Cells::Sum(cells) => {
                add_ints_to_sums(cells.as_mut_slice(), group_indexes, ints);
                Ok(())
            }
            Cells::Avg(cells) => {
                add_ints_to_sums(cells.as_mut_slice(), group_indexes, ints);
                Ok(())
            }
            Cells::CountDistinct(sets) => add_ints_to_sets(sets, alloc, group_indexes, ints),
            Cells::SumDistinct(sets) => add_ints_to_sets(sets, alloc, group_indexes, ints),
            _ => unreachable!(),
        }
    }

    /// The entries of a state more in a state. On an error nothing changes.
    pub fn add_state(
        &mut self,
        alloc: Global,
        group_index: usize,
        state: &State,
    ) -> Result<(), AllocError>
        requires group_index { group_index < length (states_in self.old) }
        requires few { (slice_index_or (states_in self.old) group_index no_statistics).count +
            state.now.count ≤ most_entries }
        ensures kind { kind_of_cells self.new ≡ kind_of_cells self.old }
        ensures ok { OnOk result
            (states_in self.new ≡ merged_at (states_in self.old) group_index
            (kept_by (kind_of_cells self.old) state.now)) }
        ensures err { OnErr result (states_in self.new ≡ states_in self.old) }
        ensures roomy { has_one_size (kind_of_cells self.old) ≡ true → IsOk result }
    {
        of_kind!(
            self,
            cells => add_state_to(cells.as_mut_slice(), alloc, group_index, state),
            sets => sets.add_state(alloc, group_index, state)
        )
    }

    /// The state at a group index. What keeps no value of its own takes no memory.
    pub fn state(&self, alloc: Global, group_index: usize) -> Result<State, AllocError>
        requires { group_index < length (states_in self.now) }
        ensures ok { IfOk result (λ s. s
            ≡ slice_index_or (states_in self.now) group_index no_statistics) }
        ensures roomy { has_one_size (kind_of_cells self.now) ≡ true → IsOk result }
    {
        of_kind!(
            self,
            cells => state_at(cells.as_slice(), alloc, group_index),
            sets => sets.state(alloc, group_index)
        )
    }
    /// The entry that a state keeps from an end, and NULL where it keeps none.
    pub fn extreme(&self, end: End, group_index: usize) -> ValueRef<'_>
        requires { group_index < length (states_in self.now) }
        ensures { entry (value_in result)
            ≡ extreme_of end (slice_index_or (states_in self.now) group_index no_statistics) }
    {
        of_kind!(
            self,
            cells => extreme_at(cells.as_slice(), end, group_index),
            sets => sets.extreme(end, group_index)
        )
    }
    /// The number of a state's entries and their sum, where it keeps nothing else.
    pub fn tally(&self, group_index: usize) -> Option<Tally>
        requires { group_index < length (states_in self.now) }
        ensures { IfSome result (λ t.
            (slice_index_or (states_in self.now) group_index no_statistics
            ≡ sum_state t.count t.sum) × IsSum t.count t.sum) }
    {
        match self {
            Cells::CountRows(cells) => tally_at(cells.as_slice(), group_index),
            Cells::Count(cells) => tally_at(cells.as_slice(), group_index),
            Cells::Sum(cells) => tally_at(cells.as_slice(), group_index),
            Cells::Avg(cells) => tally_at(cells.as_slice(), group_index),
            _ => None,
        }
    }
}
