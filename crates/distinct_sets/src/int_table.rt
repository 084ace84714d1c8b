//! A hash table whose slots hold the integers that are in sets, so that an integer that is found costs
//! one slot. Neighbouring groups that have the same integer share a slot. An integer that isn't found
//! is entered again, which changes no set.
ghost use Rattle.std.specs.Prelude.{◌≡◌, ℕ, ◌↔◌, ◌⊎◌, [], List, length, slice_get, true, IfOk, IfSome};
ghost use Rattle.hash_slots.specs.Probing.{slot_at};
ghost use Rattle.meaning.specs.declared.value.Value.TheVariants.{Int};
ghost use Rattle.distinct_sets.specs.declared.entry.Entry.{Entry as AnEntry};
ghost use Rattle.distinct_sets.specs.Sets.{has, in_group};
ghost use Rattle.distinct_sets.specs.Marks.{IsMarked};
ghost use Rattle.distinct_sets.specs.Slots.{AreSlotsOf, IsFor, IsSlotOf};

use crate::int_slot::{EMPTY, IntSlot};
use crate::marks::{Marks, in_block};
use crate::table_size::larger_size;
use group_keys::hash_in_group;
use hash_slots::{probe_slots, slot_number};
use meaning::ValueRef;
use std::alloc::{AllocError, Global};

/// Integers by their groups.
#[derive(Drop)]
pub struct IntTable {
    // A power of two of them, at least half of them empty.
    pub slots: Vec<IntSlot>,
    taken: usize,
}

#[inline(always)]
fn hash_of(block: u32, int: &i64) -> u64 {
    hash_in_group(block, ValueRef::Int(*int))
}

/// Whether a slot is the one of an integer in the groups of a block.
#[inline(always)]
fn is_slot_for(slot: IntSlot, block: u32, int: &i64) -> bool
    ensures block { result ≡ true → slot.block ≡ block }
    ensures value { result ≡ true → slot.value ≡ int.now }
{
    slot.value == *int && slot.block == block
}

/// A slot for an integer in one group.
fn slot_of(group_index: u32, int: &i64) -> IntSlot
    ensures { (entries : List AnEntry) → has (Int int.now) (in_group group_index entries) ≡ true
        → IsSlotOf entries result }
{
    let group = in_block(group_index);
    IntSlot {
        block: group.block,
        marks: Marks::of(group.offset),
        value: *int,
    }
}

/// Where a search for an integer and a block stops: at their slot, or at the first empty one.
#[inline(always)]
fn stops(held: IntSlot, block: u32, int: &i64) -> bool
    ensures { result ≡ true → IsFor held block int.now }
{
    is_slot_for(held, block, int) || held.marks.are_none()
}

/// The slot to look at after so many steps, if it is there.
#[inline(always)]
fn slot_after(slots: &[IntSlot], hash: u64, step: usize) -> Option<IntSlot>
    ensures { result ≡ slice_get slots.now (slot_at hash step (length slots.now)) }
{
    slots.get(slot_number(hash, step, slots.len())).copied()
}

/// Where a slot is, and what it holds.
#[derive(Clone, Copy)]
struct Place {
    number: usize,
    held: IntSlot,
}

/// The slot for an integer and a block, or else the first empty one.
#[inline(always)]
fn find_place(slots: &[IntSlot], block: u32, int: &i64) -> Option<Place>
    ensures own { IfSome result (λ place. IsFor place.held block int.now) }
    ensures held { (entries : List AnEntry) → AreSlotsOf entries slots.now
        → IfSome result (λ place. IsSlotOf entries place.held) }
{
    let hash = hash_of(block, int);
    let stop = probe_slots(
        slots.len(),
        |step| slot_after(slots, hash, step),
        |held| stops(held, block, int),
    )?;
    Some(Place {
        number: slot_number(hash, stop.step, slots.len()),
        held: stop.slot,
    })
}

/// A slot with the marks of another as well.
fn joined(slot: IntSlot, held: IntSlot) -> IntSlot
    ensures block { result.block ≡ slot.block }
    ensures value { result.value ≡ slot.value }
    ensures marks { (k : ℕ) → IsMarked result.marks k
        ↔ (IsMarked slot.marks k ⊎ IsMarked held.marks k) }
{
    IntSlot {
        block: slot.block,
        marks: slot.marks.with(held.marks),
        value: slot.value,
    }
}

/// Puts what a slot holds into the slot for its integer and block, or else into the first empty one.
/// Gives whether an empty one was taken.
fn put(slots: &mut [IntSlot], slot: IntSlot) -> bool
    ensures { (entries : List AnEntry) → IsSlotOf entries slot → AreSlotsOf entries slots.old
        → AreSlotsOf entries slots.new }
{
    let Some(Place { number, held }) = find_place(slots, slot.block, &slot.value) else {
        return false;
    };
    if number < slots.len() {
        slots[number] = joined(slot, held);
    }
    held.marks.are_none()
}

fn put_all(slots: &mut [IntSlot], others: &[IntSlot])
    ensures { (entries : List AnEntry) → AreSlotsOf entries others.now
        → AreSlotsOf entries slots.old → AreSlotsOf entries slots.new }
{
    for k in 0..others.len() {
        put_taken(slots, others[k]);
    }
}

fn put_taken(slots: &mut [IntSlot], slot: IntSlot)
    ensures { (entries : List AnEntry) → IsSlotOf entries slot → AreSlotsOf entries slots.old
        → AreSlotsOf entries slots.new }
{
    if !slot.marks.are_none() {
        let _taken = put(slots, slot);
    }
}

/// So many empty slots.
fn empty_slots(alloc: Global, many: usize) -> Result<Vec<IntSlot>, AllocError>
    ensures { IfOk result (λ slots. (entries : List AnEntry) → AreSlotsOf entries slots.items) }
{
    let slots = vec![in alloc; EMPTY; many]?;
    Ok(slots)
}

impl IntTable {
    /// Of no integer. Takes no memory.
    pub fn new(alloc: Global) -> IntTable
        ensures { result.slots.items ≡ [] }
    {
        IntTable {
            slots: Vec::new(alloc),
            taken: 0,
        }
    }

    /// Whether the integer is found in the group.
    #[inline(always)]
    pub fn finds(&self, group_index: u32, int: &i64) -> bool
        ensures { (entries : List AnEntry) → AreSlotsOf entries self.now.slots.items → result ≡ true
            → has (Int int.now) (in_group group_index entries) ≡ true }
    {
        let group = in_block(group_index);
        match find_place(self.slots.as_slice(), group.block, int) {
            Some(place) => place.held.marks.have(group.offset),
            None => false,
        }
    }

    /// Makes the table twice as large where half of it is full.
    pub fn make_room(&mut self, alloc: Global) -> Result<(), AllocError>
        ensures { (entries : List AnEntry) → AreSlotsOf entries self.old.slots.items
            → AreSlotsOf entries self.new.slots.items }
    {
        let Some(many) = larger_size(self.taken, self.slots.len()) else {
            return Ok(());
        };
        let mut slots = empty_slots(alloc, many)?;
        put_all(slots.as_mut_slice(), self.slots.as_slice());
        self.slots = slots;
        Ok(())
    }

    /// An integer more. It is found from now on where there is room.
    pub fn add(&mut self, group_index: u32, int: &i64)
        ensures { (entries : List AnEntry) → has (Int int.now) (in_group group_index entries) ≡ true
            → AreSlotsOf entries self.old.slots.items → AreSlotsOf entries self.new.slots.items }
    {
        let slot = slot_of(group_index, int);
        if put(self.slots.as_mut_slice(), slot) {
            self.taken = self.taken.wrapping_add(1);
        }
    }

    /// Forgets all integers. Takes no memory.
    pub fn clear(&mut self)
        ensures { self.new.slots.items ≡ [] }
    {
        self.slots.clear();
        self.taken = 0;
    }

    /// The same table, in memory of its own.
    pub fn copy(&self, alloc: Global) -> Result<IntTable, AllocError>
        ensures { IfOk result (λ table. table.slots.items ≡ self.now.slots.items) }
    {
        let slots = Vec::from_slice(alloc, self.slots.as_slice())?;
        Ok(IntTable {
            slots,
            taken: self.taken,
        })
    }
}
