//! The states of one aggregate in all groups, by their group indexes.
ghost use Rattle.std.specs.Prelude.{◌≡◌, ◌<◌, ◌≤◌, ◌+◌, [], ◌∷◌, ◌++◌, length, map, sum, zip, slice_index_or, true, false, All, IsOk, OnOk, OnErr, IfOk};
ghost use Rattle.meaning.specs.Aggregate.{kept_by, no_statistics};
ghost use Rattle.accumulators.specs.Columns.{kind_of_cells, merged_at, of_states, states_in, takes_ints};
ghost use Rattle.aggregate_states.specs.Entries.{state_of, with_entries, with_states};
ghost use Rattle.aggregate_states.specs.Kinds.{has_one_size, keeps_set};
ghost use Rattle.aggregate_states.specs.State.{most_entries};
ghost use Rattle.aggregate_states.specs.Values.{is_spelled, selected};
ghost use Rattle.vectors.specs.Vector.{values_of};

use crate::cells::Cells;
use crate::ordered_states::OrderedStates;
use aggregate_states::{State, one_group_index, plain_ints, selected_value};
use meaning::AggregateKind;
use std::alloc::{AllocError, Global};
use std::marker::Model;
use vectors::{Selection, Vector};

/// One value after the other goes to the state at its group index.
fn update_each(
    cells: &mut Cells,
    alloc: Global,
    group_indexes: &[u32],
    lanes: &Vector<'_>,
    selection: &Selection,
) -> Result<(), AllocError>
    requires group_indexes { length group_indexes.now ≡ length selection.now.list }
    requires within { All (λ group_index. group_index < length (states_in cells.old))
        group_indexes.now }
    requires lanes { length (values_of lanes.now) ≡ selection.now.below }
    requires spelled { All (λ v. is_spelled v ≡ true) (values_of lanes.now) }
    requires few { All (λ s. s.count + length selection.now.list ≤ most_entries)
        (states_in cells.old) }
    ensures kind { kind_of_cells cells.new ≡ kind_of_cells cells.old }
    ensures height { length (states_in cells.new) ≡ length (states_in cells.old) }
    ensures ok { OnOk result
        (states_in cells.new ≡ with_entries (kind_of_cells cells.old) (states_in cells.old)
        (zip group_indexes.now (selected (values_of lanes.now) selection.now.list))) }
    ensures roomy { has_one_size (kind_of_cells cells.old) ≡ true → IsOk result }
{
    for k in 0..selection.len() {
        let value = selected_value(lanes, selection, k);
        cells.add(alloc, group_indexes[k] as usize, value)?;
    }
    Ok(())
}

/// The same for sums and sets. Where all lanes are selected integers and none is NULL, in a loop that
/// knows no kind.
fn update_ints(
    cells: &mut Cells,
    alloc: Global,
    group_indexes: &[u32],
    lanes: &Vector<'_>,
    selection: &Selection,
) -> Result<(), AllocError>
    requires takes { takes_ints (kind_of_cells cells.old) ≡ true }
    requires group_indexes { length group_indexes.now ≡ length selection.now.list }
    requires within { All (λ group_index. group_index < length (states_in cells.old))
        group_indexes.now }
    requires lanes { length (values_of lanes.now) ≡ selection.now.below }
    requires spelled { All (λ v. is_spelled v ≡ true) (values_of lanes.now) }
    requires few { All (λ s. s.count + length selection.now.list ≤ most_entries)
        (states_in cells.old) }
    ensures kind { kind_of_cells cells.new ≡ kind_of_cells cells.old }
    ensures height { length (states_in cells.new) ≡ length (states_in cells.old) }
    ensures ok { OnOk result
        (states_in cells.new ≡ with_entries (kind_of_cells cells.old) (states_in cells.old)
        (zip group_indexes.now (selected (values_of lanes.now) selection.now.list))) }
    ensures roomy { has_one_size (kind_of_cells cells.old) ≡ true → IsOk result }
{
    let Some(ints) = plain_ints(lanes, selection) else {
        return update_each(cells, alloc, group_indexes, lanes, selection);
    };
    cells.add_ints(alloc, group_indexes, ints)
}

/// All values go to the state at one group index.
fn update_one(
    cells: &mut Cells,
    alloc: Global,
    group_index: u32,
    group_indexes: &[u32],
    lanes: &Vector<'_>,
    selection: &Selection,
) -> Result<(), AllocError>
    requires same { All (λ p. p ≡ group_index) group_indexes.now }
    requires some { 0 < length group_indexes.now }
    requires group_indexes { length group_indexes.now ≡ length selection.now.list }
    requires within { All (λ group_index. group_index < length (states_in cells.old))
        group_indexes.now }
    requires lanes { length (values_of lanes.now) ≡ selection.now.below }
    requires spelled { All (λ v. is_spelled v ≡ true) (values_of lanes.now) }
    requires few { All (λ s. s.count + length selection.now.list ≤ most_entries)
        (states_in cells.old) }
    ensures kind { kind_of_cells cells.new ≡ kind_of_cells cells.old }
    ensures height { length (states_in cells.new) ≡ length (states_in cells.old) }
    ensures ok { OnOk result
        (states_in cells.new ≡ with_entries (kind_of_cells cells.old) (states_in cells.old)
        (zip group_indexes.now (selected (values_of lanes.now) selection.now.list))) }
    ensures roomy { has_one_size (kind_of_cells cells.old) ≡ true → IsOk result }
{
    cells.update_at(alloc, group_index as usize, lanes, selection)
}

/// One state after the other goes to the state at its group index.
fn merge_each(
    cells: &mut Cells,
    alloc: Global,
    group_indexes: &[u32],
    states: &[State],
) -> Result<(), AllocError>
    requires group_indexes { length group_indexes.now ≡ length states.now }
    requires within { All (λ group_index. group_index < length (states_in cells.old))
        group_indexes.now }
    requires few { All (λ s. s.count + sum (map (λ t. t.count) states.now) ≤ most_entries)
        (states_in cells.old) }
    ensures kind { kind_of_cells cells.new ≡ kind_of_cells cells.old }
    ensures height { length (states_in cells.new) ≡ length (states_in cells.old) }
    ensures ok { OnOk result
        (states_in cells.new ≡ with_states (kind_of_cells cells.old) (states_in cells.old)
        (zip group_indexes.now states.now)) }
    ensures roomy { has_one_size (kind_of_cells cells.old) ≡ true → IsOk result }
{
    for k in 0..states.len() {
        cells.add_state(alloc, group_indexes[k] as usize, &states[k])?;
    }
    Ok(())
}

/// One aggregate's states. Contracts see its kind and the list of the states.
#[derive(Drop)]
pub struct StateColumn {
    cells: Cells,
}

impl Model for StateColumn {
    ghost use Rattle.accumulators.specs.Columns.{kind_of_cells, states_in, ColumnSpec};

    ghost Value = { ColumnSpec };

    ghost view = { λ c. record { kind = kind_of_cells c.cells; states = states_in c.cells } };
}

impl StateColumn {
    /// No group. Takes no memory.
    pub fn new(alloc: Global, kind: AggregateKind) -> StateColumn
        ensures { result ≡ record { kind = kind; states = [] } }
    {
        StateColumn {
            cells: Cells::new(alloc, kind),
        }
    }

    /// How many groups there are.
    pub fn len(&self) -> usize
        ensures { result ≡ length self.now.states }
    {
        self.cells.len()
    }

    /// A group more, of no entry. On an error nothing changes.
    pub fn push(&mut self) -> Result<(), AllocError>
        ensures ok { OnOk result
            (self.new ≡ of_states self.old (self.old.states ++ no_statistics ∷ [])) }
        ensures err { OnErr result (self.new ≡ self.old) }
    {
        self.cells.push()
    }

    /// Merges into each state that of the selected values at its group index: the k-th selected
    /// value goes to the k-th group index. On an error the states are open. What keeps no value of
    /// its own takes no memory.
    pub fn update(
        &mut self,
        alloc: Global,
        group_indexes: &[u32],
        lanes: &Vector<'_>,
        selection: &Selection,
    ) -> Result<(), AllocError>
        requires group_indexes { length group_indexes.now ≡ length selection.now.list }
        requires within { All (λ group_index. group_index < length self.old.states)
            group_indexes.now }
        requires lanes { length (values_of lanes.now) ≡ selection.now.below }
        requires spelled { All (λ v. is_spelled v ≡ true) (values_of lanes.now) }
        requires few { All (λ s. s.count + length selection.now.list ≤ most_entries)
            self.old.states }
        ensures kind { self.new.kind ≡ self.old.kind }
        ensures height { length self.new.states ≡ length self.old.states }
        ensures ok { OnOk result
            (self.new ≡ of_states self.old
            (with_entries self.old.kind self.old.states
            (zip group_indexes.now (selected (values_of lanes.now) selection.now.list)))) }
        ensures roomy { has_one_size self.old.kind ≡ true → IsOk result }
    {
        if let Some(group_index) = one_group_index(group_indexes) {
            return update_one(
                &mut self.cells,
                alloc,
                group_index,
                group_indexes,
                lanes,
                selection,
            );
        }
        if self.cells.take_ints() {
            return update_ints(&mut self.cells, alloc, group_indexes, lanes, selection);
        }
        update_each(&mut self.cells, alloc, group_indexes, lanes, selection)
    }

    /// Merges into the state at a group index that of all selected values. On an error nothing
    /// changes. What keeps no value of its own takes no memory.
    pub fn update_at(
        &mut self,
        alloc: Global,
        group_index: usize,
        lanes: &Vector<'_>,
        selection: &Selection,
    ) -> Result<(), AllocError>
        requires group_index { group_index < length self.old.states }
        requires lanes { length (values_of lanes.now) ≡ selection.now.below }
        requires spelled { All (λ v. is_spelled v ≡ true) (values_of lanes.now) }
        requires few { (slice_index_or self.old.states group_index no_statistics).count + length
            selection.now.list ≤ most_entries }
        ensures kind { self.new.kind ≡ self.old.kind }
        ensures height { length self.new.states ≡ length self.old.states }
        ensures ok { OnOk result
            (self.new ≡ of_states self.old
            (merged_at self.old.states group_index
            (state_of self.old.kind (selected (values_of lanes.now) selection.now.list)))) }
        ensures err { OnErr result (self.new ≡ self.old) }
        ensures roomy { has_one_size self.old.kind ≡ true → IsOk result }
    {
        self.cells.update_at(alloc, group_index, lanes, selection)
    }

    /// Merges into each state those at its group index. On an error the states are open. What keeps
    /// no value of its own takes no memory. A column of sets refuses, as want of memory, a state whose
    /// entries don't ascend.
    pub fn merge(
        &mut self,
        alloc: Global,
        group_indexes: &[u32],
        states: &[State],
    ) -> Result<(), AllocError>
        requires group_indexes { length group_indexes.now ≡ length states.now }
        requires within { All (λ group_index. group_index < length self.old.states)
            group_indexes.now }
        requires few { All (λ s. s.count + sum (map (λ t. t.count) states.now) ≤ most_entries)
            self.old.states }
        ensures kind { self.new.kind ≡ self.old.kind }
        ensures height { length self.new.states ≡ length self.old.states }
        ensures ok { OnOk result
            (self.new ≡ of_states self.old
            (with_states self.old.kind self.old.states (zip group_indexes.now states.now))) }
        ensures roomy { has_one_size self.old.kind ≡ true → IsOk result }
    {
        merge_each(&mut self.cells, alloc, group_indexes, states)
    }

    /// Merges a state into the one at a group index. On an error nothing changes. What keeps no
    /// value of its own takes no memory. A column of sets refuses, as want of memory, a state whose
    /// entries don't ascend.
    pub fn merge_at(
        &mut self,
        alloc: Global,
        group_index: usize,
        state: &State,
    ) -> Result<(), AllocError>
        requires group_index { group_index < length self.old.states }
        requires few { (slice_index_or self.old.states group_index no_statistics).count
            + state.now.count ≤ most_entries }
        ensures kind { self.new.kind ≡ self.old.kind }
        ensures ok { OnOk result
            (self.new ≡ of_states self.old
            (merged_at self.old.states group_index (kept_by self.old.kind state.now))) }
        ensures err { OnErr result (self.new ≡ self.old) }
        ensures roomy { has_one_size self.old.kind ≡ true → IsOk result }
    {
        self.cells.add_state(alloc, group_index, state)
    }

    /// A copy, in memory of its own.
    pub fn copy(&self, alloc: Global) -> Result<StateColumn, AllocError>
        ensures { IfOk result (λ c. c ≡ self.now) }
    {
        Ok(StateColumn {
            cells: self.cells.copy(alloc)?,
        })
    }

    /// The states, to be handed out. Sets are put in order once, and nothing else takes memory.
    pub fn ordered(&self, alloc: Global) -> Result<OrderedStates<'_>, AllocError>
        ensures ok { IfOk result (λ states. states ≡ self.now) }
        ensures roomy { keeps_set self.now.kind ≡ false → IsOk result }
    {
        OrderedStates::of_cells(alloc, &self.cells)
    }

    /// The state of a group. To hand out several, use `ordered`. What keeps no value of its own takes
    /// no memory.
    pub fn state(&self, alloc: Global, group_index: usize) -> Result<State, AllocError>
        requires { group_index < length self.now.states }
        ensures ok { IfOk result
            (λ s. s ≡ slice_index_or self.now.states group_index no_statistics) }
        ensures roomy { has_one_size self.now.kind ≡ true → IsOk result }
    {
        self.cells.state(alloc, group_index)
    }
}
