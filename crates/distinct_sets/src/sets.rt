//! The sets of entries of all groups, in one list and one hash table.
ghost use Rattle.std.specs.Prelude.{◌≡◌, ◌<◌, ◌+◌, ◌∷◌, ◌++◌, [], length, map, pos, slice_index_or, take, true, All, OnOk, OnErr, IfOk, IfSome};
ghost use Rattle.meaning.specs.declared.plan.AggregateKind.TheVariants.{CountDistinct};
ghost use Rattle.meaning.specs.declared.value.Value.TheVariants.{Int, Null};
ghost use Rattle.meaning.specs.Aggregate.{kept_by, no_statistics, present};
ghost use Rattle.meaning.specs.Order.{is_ascending, value_cmp, value_in};
ghost use Rattle.distinct_sets.specs.declared.entry.Entry.{Entry as AnEntry};
ghost use Rattle.distinct_sets.specs.Sets.{are_sets, entries_of, has, in_group, merged_at, AreEntered, IsGrown};
ghost use Rattle.aggregate_states.specs.Entries.{state_of, together};
ghost use Rattle.aggregate_states.specs.Kinds.{extreme_of};
ghost use Rattle.aggregate_states.specs.Values.{entry, is_spelled, selected};
ghost use Rattle.vectors.specs.Vector.{values_of};

use crate::entry::{Entry, narrow};
use crate::hints::Hints;
use crate::int_table::IntTable;
use crate::ordered_sets::{OrderedSets, no_extreme};
use aggregate_states::{End, State, is_null, owned, plain_ints, selected_value};
use group_keys::hash_in_group;
use hash_slots::probe_slots;
use meaning::{Value, ValueRef, compare_lent};
use std::alloc::{AllocError, Global};
use std::marker::Model;
use vectors::{Selection, Vector};

/// The entries of all groups, in the order in which they came. An entry may stand twice, where no
/// hash table led to it. Contracts see the entries.
#[derive(Drop)]
pub struct EntryList {
    entries: Vec<Entry>,
    // Leads to the texts.
    hints: Hints,
    // Holds integers that are in sets.
    ints: IntTable,
}

impl Model for EntryList {
    ghost use Rattle.std.specs.Prelude.{List};
    ghost use Rattle.distinct_sets.specs.declared.entry.Entry.{Entry};
    ghost use Rattle.distinct_sets.specs.Slots.{AreSlotsOf};

    ghost Value = { List Entry };

    ghost view = { λ l. l.entries.items };

    ghost invariant = { λ l. AreSlotsOf l.entries.items l.ints.slots.items };
}

#[inline(always)]
fn is_value(value: &Value, other: ValueRef<'_>) -> bool
    ensures { result ≡ true → value.now ≡ value_in other.entry }
{
    match value {
        Value::Null => is_null(other),
        Value::Int(int) => match other {
            ValueRef::Int(other) => *int == other,
            ValueRef::Null => false,
            ValueRef::Text(_) => false,
        },
        Value::Text(_) => compare_lent(value.as_value_ref(), other).is_eq(),
    }
}

#[inline(always)]
fn entry_at(entries: &[Entry], at: u32) -> Option<&Entry>
    ensures within { IfSome result (λ _. at < length entries.now) }
    ensures is { IfSome result (λ e. (d : AnEntry) → slice_index_or entries.now at d ≡ e.now) }
{
    entries.get(at as usize)
}

/// Whether this entry is the value in the set of the group.
#[inline(always)]
fn is_entry(entries: &[Entry], at: u32, group_index: u32, value: ValueRef<'_>) -> bool
    ensures { result ≡ true → has (value_in value.entry) (in_group group_index entries.now) ≡ true }
{
    let Some(entry) = entry_at(entries, at) else {
        return false;
    };
    entry.group_index == group_index && is_value(&entry.value, value)
}

impl EntryList {
    /// No entry. Takes no memory.
    fn new(alloc: Global) -> EntryList
        ensures { result ≡ [] }
    {
        EntryList {
            entries: Vec::new(alloc),
            hints: Hints::new(alloc),
            ints: IntTable::new(alloc),
        }
    }

    /// How many entries there are.
    fn len(&self) -> usize
        ensures { result ≡ length self.now }
    {
        self.entries.len()
    }

    fn as_slice(&self) -> &[Entry]
        ensures { result.now ≡ self.now }
    {
        self.entries.as_slice()
    }

    /// Whether the hints lead to the value in the set of the group.
    #[inline(always)]
    fn finds(&self, hash: u64, group_index: u32, value: ValueRef<'_>) -> bool
        ensures { result ≡ true
            → has (value_in value.entry) (in_group group_index self.now) ≡ true }
    {
        let stop = probe_slots(
            self.hints.most_steps(),
            |step| self.hints.after(hash, step),
            |at| is_entry(self.entries.as_slice(), at, group_index, value),
        );
        stop.is_some()
    }

    #[cold]
    #[inline(never)]
    fn push(
        &mut self,
        alloc: Global,
        hash: u64,
        group_index: u32,
        value: ValueRef<'_>,
    ) -> Result<(), AllocError>
        requires { is_spelled (value_in value) ≡ true }
        ensures ok { OnOk result (AreEntered group_index (value_in value.entry ∷ [])
            self.old self.new) }
        ensures grown { IsGrown group_index self.old self.new }
        ensures err { OnErr result (self.new ≡ self.old) }
    {
        let value = owned(alloc, value)?;
        self.entries.reserve(1)?;
        self.hints.lead(alloc, hash, self.entries.len())?;
        self.entries.push(Entry { group_index, value })?;
        Ok(())
    }

    #[cold]
    #[inline(never)]
    fn push_int(&mut self, alloc: Global, group_index: u32, int: &i64) -> Result<(), AllocError>
        ensures ok { OnOk result (AreEntered group_index (Int int.now ∷ []) self.old self.new) }
        ensures grown { IsGrown group_index self.old self.new }
        ensures err { OnErr result (self.new ≡ self.old) }
    {
        self.entries.reserve(1)?;
        self.ints.make_room(alloc)?;
        let value = Value::Int(*int);
        self.entries.push(Entry { group_index, value })?;
        self.ints.add(group_index, int);
        Ok(())
    }

    /// An integer more in the set of a group. On an error nothing changes.
    #[inline(always)]
    fn enter_int(&mut self, alloc: Global, group_index: u32, int: &i64) -> Result<(), AllocError>
        ensures ok { OnOk result (AreEntered group_index (Int int.now ∷ []) self.old self.new) }
        ensures grown { IsGrown group_index self.old self.new }
        ensures err { OnErr result (self.new ≡ self.old) }
    {
        if self.ints.finds(group_index, int) {
            return Ok(());
        }
        self.push_int(alloc, group_index, int)
    }

    /// A text more in the set of a group, or NULL. On an error nothing changes.
    #[inline(always)]
    fn enter_hinted(
        &mut self,
        alloc: Global,
        group_index: u32,
        value: ValueRef<'_>,
    ) -> Result<(), AllocError>
        requires { is_spelled (value_in value) ≡ true }
        ensures ok { OnOk result (AreEntered group_index (value_in value.entry ∷ []) self.old
            self.new) }
        ensures grown { IsGrown group_index self.old self.new }
        ensures err { OnErr result (self.new ≡ self.old) }
    {
        let hash = hash_in_group(group_index, value);
        if self.finds(hash, group_index, value) {
            return Ok(());
        }
        self.push(alloc, hash, group_index, value)
    }

    /// A value more in the set of a group. On an error nothing changes.
    #[inline(always)]
    fn enter(
        &mut self,
        alloc: Global,
        group_index: u32,
        value: ValueRef<'_>,
    ) -> Result<(), AllocError>
        requires { is_spelled (value_in value) ≡ true }
        ensures ok { OnOk result (AreEntered group_index (value_in value.entry ∷ [])
            self.old self.new) }
        ensures grown { IsGrown group_index self.old self.new }
        ensures err { OnErr result (self.new ≡ self.old) }
    {
        match value {
            ValueRef::Int(int) => self.enter_int(alloc, group_index, &int),
            ValueRef::Text(_) => self.enter_hinted(alloc, group_index, value),
            ValueRef::Null => self.enter_hinted(alloc, group_index, value),
        }
    }

    /// The same of a value that may be NULL, which is in no set.
    #[inline(always)]
    fn enter_present(
        &mut self,
        alloc: Global,
        group_index: u32,
        value: ValueRef<'_>,
    ) -> Result<(), AllocError>
        requires { is_spelled (value_in value) ≡ true }
        ensures ok { OnOk result (AreEntered group_index (present (value_in value.entry ∷ []))
            self.old self.new) }
        ensures grown { IsGrown group_index self.old self.new }
        ensures err { OnErr result (self.new ≡ self.old) }
    {
        if is_null(value) {
            return Ok(());
        }
        self.enter(alloc, group_index, value)
    }

    /// Integers more in the set of a group.
    fn enter_ints(
        &mut self,
        alloc: Global,
        group_index: u32,
        ints: &[i64],
    ) -> Result<(), AllocError>
        ensures ok { OnOk result (AreEntered group_index (map Int ints.now)
            self.old self.new) }
        ensures grown { IsGrown group_index self.old self.new }
    {
        for k in 0..ints.len() {
            self.enter_int(alloc, group_index, &ints[k])?;
        }
        Ok(())
    }

    /// The selected values more in the set of a group, one by one.
    fn enter_each(
        &mut self,
        alloc: Global,
        group_index: u32,
        lanes: &Vector<'_>,
        selection: &Selection,
    ) -> Result<(), AllocError>
        requires lanes { length (values_of lanes.now) ≡ selection.now.below }
        requires spelled { All (λ v. is_spelled v ≡ true) (values_of lanes.now) }
        ensures ok { OnOk result (AreEntered group_index
            (present (selected (values_of lanes.now) selection.now.list)) self.old
            self.new) }
        ensures grown { IsGrown group_index self.old self.new }
    {
        for k in 0..selection.len() {
            self.enter_present(alloc, group_index, selected_value(lanes, selection, k))?;
        }
        Ok(())
    }

    /// The selected values more in the set of a group.
    fn enter_selected(
        &mut self,
        alloc: Global,
        group_index: u32,
        lanes: &Vector<'_>,
        selection: &Selection,
    ) -> Result<(), AllocError>
        requires lanes { length (values_of lanes.now) ≡ selection.now.below }
        requires spelled { All (λ v. is_spelled v ≡ true) (values_of lanes.now) }
        ensures ok { OnOk result (AreEntered group_index
            (present (selected (values_of lanes.now) selection.now.list)) self.old
            self.new) }
        ensures grown { IsGrown group_index self.old self.new }
    {
        if let Some(ints) = plain_ints(lanes, selection) {
            return self.enter_ints(alloc, group_index, ints);
        }
        self.enter_each(alloc, group_index, lanes, selection)
    }

    /// The same. On an error nothing changes.
    fn enter_batch(
        &mut self,
        alloc: Global,
        group_index: u32,
        lanes: &Vector<'_>,
        selection: &Selection,
    ) -> Result<(), AllocError>
        requires lanes { length (values_of lanes.now) ≡ selection.now.below }
        requires spelled { All (λ v. is_spelled v ≡ true) (values_of lanes.now) }
        ensures ok { OnOk result (AreEntered group_index
            (present (selected (values_of lanes.now) selection.now.list)) self.old
            self.new) }
        ensures grown { IsGrown group_index self.old self.new }
        ensures err { OnErr result (self.new ≡ self.old) }
    {
        let many = self.len();
        match self.enter_selected(alloc, group_index, lanes, selection) {
            Ok(()) => Ok(()),
            Err(fault) => {
                self.truncate(many);
                Err(fault)
            }
        }
    }

    /// Values more in the set of a group.
    fn enter_values(
        &mut self,
        alloc: Global,
        group_index: u32,
        values: &[Value],
    ) -> Result<(), AllocError>
        requires { All (λ v. is_spelled v ≡ true) values.now }
        ensures ok { OnOk result (AreEntered group_index values.now self.old
            self.new) }
        ensures grown { IsGrown group_index self.old self.new }
    {
        for k in 0..values.len() {
            self.enter(alloc, group_index, values[k].as_value_ref())?;
        }
        Ok(())
    }

    /// Forgets all but so many entries.
    fn truncate(&mut self, many: usize)
        ensures { self.new ≡ take many self.old }
    {
        self.ints.clear();
        self.entries.truncate(many);
        self.hints.truncate(many);
    }

    /// The entries of a state more in the set of a group. On an error nothing changes. A state
    /// whose entries don't ascend is no set, and is refused as want of memory.
    fn enter_state(
        &mut self,
        alloc: Global,
        group_index: u32,
        state: &State,
    ) -> Result<(), AllocError>
        ensures set { OnOk result (is_ascending value_cmp state.now.entries ≡ true) }
        ensures ok { OnOk result (AreEntered group_index state.now.entries self.old
            self.new) }
        ensures grown { IsGrown group_index self.old self.new }
        ensures err { OnErr result (self.new ≡ self.old) }
    {
        if !state.has_set() {
            return Err(AllocError);
        }
        let entries = state.entries();
        let many = self.len();
        match self.enter_values(alloc, group_index, entries) {
            Ok(()) => Ok(()),
            Err(fault) => {
                self.truncate(many);
                Err(fault)
            }
        }
    }

    /// The entries of states more in the set of a group, one state after the other.
    fn enter_each_state(
        &mut self,
        alloc: Global,
        group_index: u32,
        states: &[State],
    ) -> Result<(), AllocError>
        ensures sets { OnOk result (are_sets states.now ≡ true) }
        ensures ok { OnOk result (AreEntered group_index (entries_of states.now)
            self.old self.new) }
        ensures grown { IsGrown group_index self.old self.new }
    {
        for k in 0..states.len() {
            self.enter_state(alloc, group_index, &states[k])?;
        }
        Ok(())
    }

    /// The same. On an error nothing changes.
    fn enter_states(
        &mut self,
        alloc: Global,
        group_index: u32,
        states: &[State],
    ) -> Result<(), AllocError>
        ensures sets { OnOk result (are_sets states.now ≡ true) }
        ensures ok { OnOk result (AreEntered group_index (entries_of states.now)
            self.old self.new) }
        ensures grown { IsGrown group_index self.old self.new }
        ensures err { OnErr result (self.new ≡ self.old) }
    {
        let many = self.len();
        match self.enter_each_state(alloc, group_index, states) {
            Ok(()) => Ok(()),
            Err(fault) => {
                self.truncate(many);
                Err(fault)
            }
        }
    }

    /// The same entries, in memory of their own.
    fn copy(&self, alloc: Global) -> Result<EntryList, AllocError>
        ensures { IfOk result (λ list. list ≡ self.now) }
    {
        let entries = self.entries.clone()?;
        let hints = self.hints.copy(alloc)?;
        let ints = self.ints.copy(alloc)?;
        Ok(EntryList {
            entries,
            hints,
            ints,
        })
    }
}

/// The sets of all groups, by their group indexes. Contracts see their states.
#[derive(Drop)]
pub struct Sets {
    groups: usize,
    list: EntryList,
}

impl Model for Sets {
    ghost use Rattle.std.specs.Prelude.{List};
    ghost use Rattle.meaning.specs.declared.answer.Statistics.{Statistics};
    ghost use Rattle.distinct_sets.specs.Sets.{sets_of, IsSets};

    ghost Value = { List Statistics };

    ghost view = { λ s. sets_of s.groups s.list };

    ghost invariant = { λ s. IsSets s.groups s.list };
}

impl Sets {
    /// Of no group. Takes no memory.
    pub fn new(alloc: Global) -> Sets
        ensures { result ≡ [] }
    {
        Sets {
            groups: 0,
            list: EntryList::new(alloc),
        }
    }

    /// Of one group, of no entry. Takes no memory.
    pub fn of_one_group(alloc: Global) -> Sets
        ensures { result ≡ no_statistics ∷ [] }
    {
        Sets {
            groups: 1,
            list: EntryList::new(alloc),
        }
    }

    /// How many groups there are.
    pub fn len(&self) -> usize
        ensures { result ≡ length self.now }
    {
        self.groups
    }

    /// A group more, of no entry. On an error nothing changes.
    pub fn push(&mut self) -> Result<(), AllocError>
        ensures ok { OnOk result (self.new ≡ self.old ++ no_statistics ∷ []) }
        ensures err { OnErr result (self.new ≡ self.old) }
    {
        let Some(groups) = self.groups.checked_add(1) else {
            return Err(AllocError);
        };
        self.groups = groups;
        Ok(())
    }

    /// One value more. On an error nothing changes.
    #[inline(always)]
    pub fn add(
        &mut self,
        alloc: Global,
        group_index: usize,
        value: ValueRef<'_>,
    ) -> Result<(), AllocError>
        requires group_index { group_index < length self.old }
        requires spelled { is_spelled (value_in value) ≡ true }
        ensures ok { OnOk result (self.new ≡ merged_at self.old group_index
            (state_of CountDistinct (value_in value.entry ∷ []))) }
        ensures err { OnErr result (self.new ≡ self.old) }
    {
        let group_index = narrow(group_index)?;
        self.list.enter_present(alloc, group_index, value)
    }

    /// One of some integers more. On an error nothing changes.
    #[inline(always)]
    pub fn add_int(
        &mut self,
        alloc: Global,
        group_index: u32,
        ints: &[i64],
        k: usize,
    ) -> Result<(), AllocError>
        requires group_index { group_index < length self.old }
        requires within { k < length ints.now }
        ensures ok { OnOk result (self.new ≡ merged_at self.old group_index
            (state_of CountDistinct (Int (slice_index_or ints.now k (pos 0)) ∷ []))) }
        ensures err { OnErr result (self.new ≡ self.old) }
    {
        self.list.enter_int(alloc, group_index, &ints[k])
    }

    /// Selected values more. On an error nothing changes.
    pub fn add_selected(
        &mut self,
        alloc: Global,
        group_index: usize,
        lanes: &Vector<'_>,
        selection: &Selection,
    ) -> Result<(), AllocError>
        requires group_index { group_index < length self.old }
        requires lanes { length (values_of lanes.now) ≡ selection.now.below }
        requires spelled { All (λ v. is_spelled v ≡ true) (values_of lanes.now) }
        ensures ok { OnOk result (self.new ≡ merged_at self.old group_index
            (state_of CountDistinct (selected (values_of lanes.now) selection.now.list))) }
        ensures err { OnErr result (self.new ≡ self.old) }
    {
        let group_index = narrow(group_index)?;
        self.list.enter_batch(alloc, group_index, lanes, selection)
    }

    /// The entries of a state more. On an error nothing changes.
    pub fn add_state(
        &mut self,
        alloc: Global,
        group_index: usize,
        state: &State,
    ) -> Result<(), AllocError>
        requires { group_index < length self.old }
        ensures ok { OnOk result (self.new ≡ merged_at self.old group_index
            (kept_by CountDistinct state.now)) }
        ensures err { OnErr result (self.new ≡ self.old) }
    {
        let group_index = narrow(group_index)?;
        self.list.enter_state(alloc, group_index, state)
    }

    /// The entries of several states more. On an error nothing changes.
    pub fn add_states(
        &mut self,
        alloc: Global,
        group_index: usize,
        states: &[State],
    ) -> Result<(), AllocError>
        requires { group_index < length self.old }
        ensures ok { OnOk result (self.new ≡ merged_at self.old group_index
            (together CountDistinct states.now)) }
        ensures err { OnErr result (self.new ≡ self.old) }
    {
        let group_index = narrow(group_index)?;
        self.list.enter_states(alloc, group_index, states)
    }

    /// The same sets, in memory of their own.
    pub fn copy(&self, alloc: Global) -> Result<Sets, AllocError>
        ensures { IfOk result (λ sets. sets ≡ self.now) }
    {
        let list = self.list.copy(alloc)?;
        Ok(Sets {
            groups: self.groups,
            list,
        })
    }

    /// The sets in the order of their groups, to be handed out.
    pub fn ordered(&self, alloc: Global) -> Result<OrderedSets<'_>, AllocError>
        ensures { IfOk result (λ sets. sets ≡ self.now) }
    {
        OrderedSets::of_entries(alloc, self.groups, self.list.as_slice())
    }

    /// The state of a group. To hand out several, use `ordered`.
    pub fn state(&self, alloc: Global, group_index: usize) -> Result<State, AllocError>
        requires { group_index < length self.now }
        ensures { IfOk result (λ s. s ≡ slice_index_or self.now group_index no_statistics) }
    {
        self.ordered(alloc)?.state(alloc, group_index)
    }
    /// The entry that a group's set keeps from an end: NULL, as sets keep none.
    pub fn extreme(&self, end: End, group_index: usize) -> ValueRef<'_>
        requires { group_index < length self.now }
        ensures { entry (value_in result)
            ≡ extreme_of end (slice_index_or self.now group_index no_statistics) }
    {
        // No effect at run time. The proof reads from this that the states are those of sets.
        let _groups = &self.groups;
        no_extreme(end)
    }
}
