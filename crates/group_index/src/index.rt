//! Keys by their group indexes, and a hash table that leads to them.
//!
//! The hash table is a hint: a group index that it names is taken only after its key was compared,
//! and a key for which it leads to none gets a new one. So what is found rests on no hash. The
//! groups of a key with two group indexes are made one when they are handed out.
ghost use Rattle.std.specs.Prelude.{◌≡◌, ◌≢◌, ℕ, ◌<◌, ◌≤◌, ◌∷◌, ◌++◌, [], length, slice_get, slice_index_or, All, true, false, IfNone, IfOk, IfSome, OnOk};
ghost use Rattle.std.specs.Str.{is_utf8};
ghost use Rattle.meaning.specs.declared.value.Value.TheVariants.{Int, Text};
ghost use Rattle.vectors.specs.Vector.{values_of};
ghost use Rattle.hash_slots.specs.Probing.{slot_at};
ghost use Rattle.group_keys.specs.Keys.{IsReturned};
ghost use Rattle.group_keys.specs.Rows.{int_keys, row_at, rows_at, text_keys, AreLanesOf};
ghost use Rattle.group_index.specs.Found.{AreFound, IsFound};
ghost use Rattle.group_index.specs.Keys.{empty_key, IsLed};
ghost use Rattle.group_index.specs.declared.index.Slot.{Slot as ASlot};
ghost use Rattle.group_index.specs.Probing.{tag_in, ComesTo, IsFull, IsMissed, Leads};
ghost use Rattle.group_index.specs.RowGroups.{listed};

use crate::row_groups::{RowGroups, row_groups};
use aggregate_states::position;
use group_keys::{
    KeyList, NOWHERE, are_known, hash_int, hash_row, hash_rows, key_of, key_of_text, only_int,
    plain_key, plain_text_key, selected_key,
};
use hash_slots::{probe_slots, slot_number};
use meaning::{GroupingKey, Row, Sequence};
use std::alloc::{AllocError, Global};
use vectors::{Selection, Vector};

/// An entry of the hash table: a group index, and the part of its key's hash that doesn't choose
/// the slot.
#[derive(Clone, Copy)]
struct Slot {
    tag: u32,
    group_index: u32,
}

const EMPTY: u32 = u32::MAX;

// So many that few keys seldom share a first slot.
const LEAST_SLOTS: usize = 1024;

/// Keys in the order in which they came.
#[derive(Drop)]
pub struct KeyIndex {
    pub keys: KeyList,
    // How many of them the hash table leads to.
    led: usize,
    // A power of two of them, at least half of them empty.
    slots: Vec<Slot>,
    // How many of the last keys the hash table doesn't lead to, since they came in order.
    unled: u32,
    // Where the next of keys that come in order is expected.
    next: u32,
}

// How many keys are looked at from the one that is expected on.
const STEPS: u32 = 4;

#[inline(always)]
fn tag_of(hash: u64) -> u32
    ensures { result ≡ tag_in hash }
{
    (hash >> 32) as u32
}

/// Whether the slot's group index is that of the key at a position.
#[inline(always)]
fn leads_to_lanes(slot: Slot, hash: u64, keys: &KeyList, lanes: &[Vector<'_>], at: usize) -> bool
    requires { All (λ column. at < length (values_of column)) lanes.now }
    ensures same { result ≡ true → (slot.group_index < length keys.now)
        × (slice_index_or keys.now slot.group_index [] ≡ row_at lanes.now at) }
    ensures apart { Leads (row_at lanes.now at) hash keys.now slot → result ≡ true }
{
    if slot.tag != tag_of(hash) {
        return false;
    }
    keys.is_key(slot.group_index, lanes, at)
}

#[inline(always)]
fn leads_to_row(slot: Slot, hash: u64, keys: &KeyList, row: &Row) -> bool
    ensures same { result ≡ true → (slot.group_index < length keys.now)
        × (slice_index_or keys.now slot.group_index [] ≡ row.now) }
    ensures apart { Leads row.now hash keys.now slot → result ≡ true }
{
    if slot.tag != tag_of(hash) {
        return false;
    }
    keys.is_row(slot.group_index, row)
}

#[inline(always)]
fn leads_to_text(slot: Slot, hash: u64, keys: &KeyList, text: &[u8]) -> bool
    ensures same { result ≡ true → (slot.group_index < length keys.now)
        × (slice_index_or keys.now slot.group_index [] ≡ Text text.now ∷ []) }
    ensures apart { Leads (Text text.now ∷ []) hash keys.now slot → result ≡ true }
{
    if slot.tag != tag_of(hash) {
        return false;
    }
    keys.is_text(slot.group_index, text)
}

/// The slot to look at after so many steps, if it is there.
#[inline(always)]
fn slot_after(slots: &[Slot], hash: u64, step: usize) -> Option<Slot>
    ensures { result ≡ slice_get slots.now (slot_at hash step (length slots.now)) }
{
    slots.get(slot_number(hash, step, slots.len())).copied()
}

/// The group index in the first slot that leads to a key, of those to which probing for its hash
/// comes before an empty one.
#[inline(always)]
fn probe<F: Fn(Slot) -> bool>(slots: &[Slot], hash: u64, leads: F) -> Option<u32>
    requires { F.IsAlwaysCallable leads }
    ensures found { IfSome result (λ group_index. (slot : ASlot)
        × (slot.group_index ≡ group_index) × F.post leads slot true) }
    ensures missed { IfNone result ((step : ℕ) (d : ASlot) → step < length slots.now
        → ComesTo hash slots.now step
        → IsFull slots.now (slot_at hash step (length slots.now)) d
        → F.post leads (slice_index_or slots.now (slot_at hash step (length slots.now)) d) false) }
{
    let stop = probe_slots(
        slots.len(),
        |step| slot_after(slots, hash, step),
        |slot| slot.group_index == EMPTY || leads(slot),
    )?;
    if stop.slot.group_index == EMPTY {
        return None;
    }
    Some(stop.slot.group_index)
}

/// The number of the first empty slot for a hash, if there is one.
fn empty_slot(slots: &[Slot], hash: u64) -> Option<usize> {
    let stop = probe_slots(
        slots.len(),
        |step| slot_after(slots, hash, step),
        |slot| slot.group_index == EMPTY,
    )?;
    Some(slot_number(hash, stop.step, slots.len()))
}

/// Puts a group index into the first empty slot for its hash.
fn enter(slots: &mut [Slot], hash: u64, group_index: u32) {
    let Some(number) = empty_slot(slots, hash) else {
        return;
    };
    if number < slots.len() {
        slots[number] = Slot {
            tag: tag_of(hash),
            group_index,
        };
    }
}

/// So many empty slots, raised to a power of two.
fn empty_slots(alloc: Global, many: usize) -> Result<Vec<Slot>, AllocError> {
    let Some(many) = many.checked_next_power_of_two() else {
        return Err(AllocError);
    };
    Ok(vec![in alloc; Slot {
        tag: 0,
        group_index: EMPTY
    }; many]?)
}

/// The same of each key from one group index up to another.
fn enter_all(slots: &mut [Slot], keys: &KeyList, from: u32, before: u32) {
    for group_index in from..before {
        if let Some(hash) = keys.hash_of(group_index) {
            enter(slots, hash, group_index);
        }
    }
}

impl KeyIndex {
    /// These keys, to which no slot leads yet.
    fn over(alloc: Global, keys: KeyList) -> KeyIndex
        ensures { result.keys ≡ keys }
    {
        KeyIndex {
            keys,
            led: 0,
            slots: Vec::new(alloc),
            unled: 0,
            next: 0,
        }
    }

    /// The group index of the key at a position, where the hash table leads to one.
    #[inline(always)]
    fn find_lanes(&self, hash: u64, lanes: &[Vector<'_>], at: usize) -> Option<u32>
        requires { All (λ column. at < length (values_of column)) lanes.now }
        ensures found { IfSome result (λ group_index. (group_index < length self.now.keys)
            × (slice_index_or self.now.keys group_index [] ≡ row_at lanes.now at)) }
        ensures missed { IfNone result
            (IsMissed (row_at lanes.now at) hash self.now.keys self.now.slots.items) }
    {
        probe(
            self.slots.as_slice(),
            hash,
            |slot| leads_to_lanes(slot, hash, &self.keys, lanes, at),
        )
    }

    /// The group index of a key, where the hash table leads to one.
    fn find_row(&self, hash: u64, row: &Row) -> Option<u32>
        ensures found { IfSome result (λ group_index. (group_index < length self.now.keys)
            × (slice_index_or self.now.keys group_index [] ≡ row.now)) }
        ensures missed { IfNone result
            (IsMissed row.now hash self.now.keys self.now.slots.items) }
    {
        probe(
            self.slots.as_slice(),
            hash,
            |slot| leads_to_row(slot, hash, &self.keys, row),
        )
    }

    /// Makes the hash table twice as large where half of it is full. It leads to the keys before
    /// a group index.
    fn make_room(&mut self, alloc: Global, before: u32) -> Result<(), AllocError>
        ensures { self.new.keys ≡ self.old.keys }
    {
        if self.led < self.slots.len() / 2 {
            return Ok(());
        }
        let many = self.slots.len().saturating_mul(2).max(LEAST_SLOTS);
        let mut slots = empty_slots(alloc, many)?;
        enter_all(slots.as_mut_slice(), &self.keys, 0, before);
        self.slots = slots;
        Ok(())
    }

    /// Has the hash table lead to a group index.
    fn lead(&mut self, alloc: Global, hash: u64, group_index: u32) -> Result<(), AllocError>
        ensures { self.new.keys ≡ self.old.keys }
    {
        self.make_room(alloc, group_index)?;
        self.led = self.led.saturating_add(1);
        enter(self.slots.as_mut_slice(), hash, group_index);
        Ok(())
    }

    /// A group index for a new key. More than 2^32 keys are refused as more than memory holds.
    fn push(&mut self, alloc: Global, hash: u64, key: Row) -> Result<u32, AllocError>
        ensures group_index { IfOk result (λ group_index. group_index ≡ length self.old.keys) }
        ensures keys { IfOk result (λ group_index. self.new.keys ≡ self.old.keys ++ key ∷ []) }
    {
        let Ok(group_index) = u32::try_from(self.keys.len()) else {
            return Err(AllocError);
        };
        self.lead(alloc, hash, group_index)?;
        self.keys.push(alloc, key)?;
        Ok(group_index)
    }

    /// The same for a copy of a key.
    fn push_copy(&mut self, alloc: Global, hash: u64, key: &Row) -> Result<u32, AllocError>
        ensures group_index { IfOk result (λ group_index. group_index ≡ length self.old.keys) }
        ensures keys { IfOk result (λ group_index. self.new.keys ≡ self.old.keys
            ++ key.now ∷ []) }
    {
        let Ok(group_index) = u32::try_from(self.keys.len()) else {
            return Err(AllocError);
        };
        self.lead(alloc, hash, group_index)?;
        self.keys.push_copy(alloc, key)?;
        Ok(group_index)
    }

    /// A group index for the key at a position.
    #[cold]
    #[inline(never)]
    fn push_lanes(
        &mut self,
        alloc: Global,
        hash: u64,
        lanes: &[Vector<'_>],
        at: usize,
        below: usize,
    ) -> Result<u32, AllocError>
        requires lanes { AreLanesOf below lanes.now }
        requires at { at < below }
        ensures group_index { IfOk result (λ group_index. group_index ≡ length self.old.keys) }
        ensures keys { IfOk result (λ group_index. self.new.keys ≡ self.old.keys
            ++ row_at lanes.now at ∷ []) }
    {
        let key = key_of(alloc, lanes, at, below)?;
        self.push(alloc, hash, key)
    }

    /// The group index of the key at a position, which gets one where it has none. On an error the
    /// keys are open.
    #[inline(always)]
    fn group_index_of_lanes(
        &mut self,
        alloc: Global,
        hash: u64,
        lanes: &[Vector<'_>],
        at: usize,
        below: usize,
    ) -> Result<u32, AllocError>
        requires lanes { AreLanesOf below lanes.now }
        requires at { at < below }
        ensures { IfOk result (λ group_index. IsFound (row_at lanes.now at) self.old.keys
            group_index self.new.keys) }
    {
        if let Some(group_index) = self.find_lanes(hash, lanes, at) {
            return Ok(group_index);
        }
        self.push_lanes(alloc, hash, lanes, at, below)
    }

    /// Has the hash table lead to every key. It is made anew where less than half of it would be
    /// empty.
    fn lead_all(&mut self, alloc: Global) -> Result<(), AllocError>
        ensures { self.new.keys ≡ self.old.keys }
    {
        let Ok(many) = u32::try_from(self.keys.len()) else {
            return Err(AllocError);
        };
        let mut from = many.saturating_sub(self.unled);
        if many as usize >= self.slots.len() / 2 {
            let room = (many as usize).saturating_mul(2).saturating_add(1);
            self.slots = empty_slots(alloc, room.max(LEAST_SLOTS))?;
            from = 0;
        }
        enter_all(self.slots.as_mut_slice(), &self.keys, from, many);
        self.led = many as usize;
        self.unled = 0;
        Ok(())
    }

    /// The group index of a key that is one of the few from the expected one on.
    #[inline(always)]
    fn find_next(&self, row: &Row) -> Option<u32>
        ensures { IfSome result (λ group_index. (group_index < length self.now.keys)
            × (slice_index_or self.now.keys group_index [] ≡ row.now)) }
    {
        for step in 0..STEPS {
            let group_index = self.next.saturating_add(step);
            if self.keys.is_row(group_index, row) {
                return Some(group_index);
            }
        }
        None
    }

    /// A group index for a new key that comes behind all others, if they came in order and it does.
    /// The hash table leads to it once another key is looked for there. On an error the keys are
    /// open.
    fn append(&mut self, alloc: Global, row: &Row) -> Result<Option<u32>, AllocError>
        ensures appended { IfOk result (λ found. IfSome found (λ group_index.
            (group_index ≡ length self.old.keys)
            × (self.new.keys ≡ self.old.keys ++ row.now ∷ []))) }
        ensures unchanged { IfOk result (λ found. IfNone found (self.new.keys ≡ self.old.keys)) }
    {
        let Ok(group_index) = u32::try_from(self.keys.len()) else {
            return Err(AllocError);
        };
        if !self.keys.push_behind(alloc, row)? {
            return Ok(None);
        }
        self.unled = self.unled.saturating_add(1);
        Ok(Some(group_index))
    }

    /// The group index of a key, which gets one where it has none, by the hash table. On an error
    /// the keys are open.
    fn group_index_by_hash(&mut self, alloc: Global, row: &Row) -> Result<u32, AllocError>
        ensures { IfOk result (λ group_index. IsFound row.now self.old.keys group_index
            self.new.keys) }
    {
        if let Some(int) = only_int(row) {
            return self.group_index_of_int(alloc, int);
        }
        let hash = hash_row(row);
        if let Some(group_index) = self.find_row(hash, row) {
            return Ok(group_index);
        }
        self.push_copy(alloc, hash, row)
    }

    /// The same, where the key is looked for in order first.
    #[inline(always)]
    fn group_index_in_order(&mut self, alloc: Global, row: &Row) -> Result<u32, AllocError>
        ensures { IfOk result (λ group_index. IsFound row.now self.old.keys group_index
            self.new.keys) }
    {
        if self.keys.do_ascend() {
            if let Some(group_index) = self.append(alloc, row)? {
                return Ok(group_index);
            }
        }
        if let Some(group_index) = self.find_next(row) {
            return Ok(group_index);
        }
        if self.unled > 0 {
            self.lead_all(alloc)?;
        }
        self.group_index_by_hash(alloc, row)
    }

    /// The group index of a key, which gets one where it has none. On an error the keys are open.
    ///
    /// Keys that come in order take one pass beside those that are there: one behind all others is
    /// put there unhashed, and another is looked for from the one before on, and behind the last
    /// from the first on. A key that isn't found so takes a look in the hash table.
    pub fn group_index_of_row(&mut self, alloc: Global, row: &Row) -> Result<u32, AllocError>
        ensures { IfOk result (λ group_index. IsFound row.now self.old.keys group_index
            self.new.keys) }
    {
        let group_index = self.group_index_in_order(alloc, row)?;
        self.next = group_index.saturating_add(1);
        if self.next as usize >= self.keys.len() {
            self.next = 0;
        }
        Ok(group_index)
    }

    /// The group index of the empty key, for each selected row. On an error the keys are open.
    fn group_indexes_without_keys(
        &mut self,
        alloc: Global,
        selection: &Selection,
    ) -> Result<RowGroups, AllocError>
        ensures { IfOk result (λ group_indexes. AreFound (rows_at [] selection.now.list)
            self.old.keys (listed group_indexes) self.new.keys) }
    {
        if selection.len() == 0 {
            return Ok(RowGroups::Each(Vec::new(alloc)));
        }
        let key = Sequence::new(alloc);
        let group_index = self.group_index_of_row(alloc, &key)?;
        Ok(RowGroups::One {
            group_index,
            behind: selection.len() - 1,
        })
    }

    /// The group index of the key of this integer alone, where the hash table leads to one.
    #[inline(always)]
    fn find_int(&self, hash: u64, int: &i64) -> Option<u32>
        ensures found { IfSome result (λ group_index. (group_index < length self.now.keys)
            × (slice_index_or self.now.keys group_index [] ≡ Int int.now ∷ [])) }
        ensures missed { IfNone result
            (IsMissed (Int int.now ∷ []) hash self.now.keys self.now.slots.items) }
    {
        probe(
            self.slots.as_slice(),
            hash,
            |slot| self.keys.is_int(slot.group_index, int),
        )
    }

    /// A group index for the key of this integer alone.
    #[cold]
    #[inline(never)]
    fn push_int(&mut self, alloc: Global, hash: u64, int: &i64) -> Result<u32, AllocError>
        ensures group_index { IfOk result (λ group_index. group_index ≡ length self.old.keys) }
        ensures keys { IfOk result (λ group_index. self.new.keys ≡ self.old.keys
            ++ (Int int.now ∷ []) ∷ []) }
    {
        let Ok(group_index) = u32::try_from(self.keys.len()) else {
            return Err(AllocError);
        };
        self.keys.push_int(alloc, int)?;
        if self.keys.close_group_index(int) != NOWHERE {
            return Ok(group_index);
        }
        self.lead(alloc, hash, group_index)?;
        Ok(group_index)
    }

    /// The group index of the key of this integer alone, which gets one where it has none. On an
    /// error the keys are open.
    #[inline(always)]
    fn group_index_of_int(&mut self, alloc: Global, int: &i64) -> Result<u32, AllocError>
        ensures { IfOk result (λ group_index. IsFound (Int int.now ∷ []) self.old.keys group_index
            self.new.keys) }
    {
        let group_index = self.keys.close_group_index(int);
        if group_index != NOWHERE {
            return Ok(group_index);
        }
        let hash = hash_int(int);
        if let Some(group_index) = self.find_int(hash, int) {
            return Ok(group_index);
        }
        self.push_int(alloc, hash, int)
    }

    /// The same where a first look found the group index or `NOWHERE`.
    #[inline(always)]
    fn settle(&mut self, alloc: Global, group_index: u32, int: &i64) -> Result<u32, AllocError>
        requires { group_index ≢ NOWHERE → (group_index < length self.old.keys)
            × (slice_index_or self.old.keys group_index [] ≡ Int int.now ∷ []) }
        ensures { IfOk result (λ group_index. IsFound (Int int.now ∷ []) self.old.keys group_index
            self.new.keys) }
    {
        if group_index != NOWHERE {
            return Ok(group_index);
        }
        self.group_index_of_int(alloc, int)
    }

    /// The group indexes of integers' keys, where a first look found some and left `NOWHERE` for
    /// the others. On an error the keys are open.
    fn settle_all(
        &mut self,
        alloc: Global,
        returned: Vec<u32>,
        ints: &[i64],
    ) -> Result<Vec<u32>, AllocError>
        requires long { length returned.items ≡ length ints.now }
        requires returned { (k : ℕ) → k < length ints.now → IsReturned self.old.keys ints.now
            returned.items k }
        ensures { IfOk result (λ group_indexes. AreFound (int_keys ints.now) self.old.keys
            group_indexes.items self.new.keys) }
    {
        let mut group_indexes = returned;
        for k in 0..ints.len() {
            group_indexes[k] = self.settle(alloc, group_indexes[k], &ints[k])?;
        }
        Ok(group_indexes)
    }

    /// The group index of each integer's key. On an error the keys are open.
    fn find_ints(&mut self, alloc: Global, ints: &[i64]) -> Result<Vec<u32>, AllocError>
        ensures { IfOk result (λ group_indexes. AreFound (int_keys ints.now) self.old.keys
            group_indexes.items self.new.keys) }
    {
        self.keys.expect_ints(alloc, ints)?;
        let group_indexes = self.keys.close_group_indexes(alloc, ints)?;
        if are_known(group_indexes.as_slice()) {
            return Ok(group_indexes);
        }
        self.settle_all(alloc, group_indexes, ints)
    }

    /// The group index in the slot where probing for a text begins, where the key there is the text
    /// alone, else `NOWHERE`.
    #[inline(always)]
    fn at_first_slot(&self, hash: u64, text: &[u8]) -> u32
        ensures { result ≢ NOWHERE → (result < length self.now.keys)
            × (slice_index_or self.now.keys result [] ≡ Text text.now ∷ []) }
    {
        let slots = self.slots.as_slice();
        let Some(slot) = slots.get(slot_number(hash, 0, slots.len())) else {
            return NOWHERE;
        };
        if leads_to_text(*slot, hash, &self.keys, text) {
            return slot.group_index;
        }
        NOWHERE
    }

    #[inline(always)]
    fn at_first_slot_of(&self, hashes: &[u64], texts: &[&[u8]], k: usize) -> u32
        requires hashes { k < length hashes.now }
        requires texts { k < length texts.now }
        ensures { result ≢ NOWHERE → (result < length self.now.keys)
            × (slice_index_or self.now.keys result [] ≡ slice_index_or (text_keys texts.now) k []) }
    {
        self.at_first_slot(hashes[k], texts[k])
    }

    /// What each text's first slot names. No text's group index depends on another's, so that the
    /// processor looks several up at once.
    fn at_first_slots(
        &self,
        alloc: Global,
        hashes: &[u64],
        texts: &[&[u8]],
    ) -> Result<Vec<u32>, AllocError>
        requires { length hashes.now ≡ length texts.now }
        ensures long { IfOk result (λ group_indexes. length group_indexes.items
            ≡ length texts.now) }
        ensures led { IfOk result (λ group_indexes. (k : ℕ) → k < length texts.now
            → IsLed self.now.keys (text_keys texts.now) group_indexes.items k) }
    {
        let mut group_indexes = vec![in alloc; NOWHERE; texts.len()]?;
        for k in 0..texts.len() {
            group_indexes[k] = self.at_first_slot_of(hashes, texts, k);
        }
        Ok(group_indexes)
    }

    /// The group index of the key of this text alone, where the hash table leads to one.
    fn find_text(&self, hash: u64, text: &[u8]) -> Option<u32>
        ensures found { IfSome result (λ group_index. (group_index < length self.now.keys)
            × (slice_index_or self.now.keys group_index [] ≡ Text text.now ∷ [])) }
        ensures missed { IfNone result
            (IsMissed (Text text.now ∷ []) hash self.now.keys self.now.slots.items) }
    {
        probe(
            self.slots.as_slice(),
            hash,
            |slot| leads_to_text(slot, hash, &self.keys, text),
        )
    }

    /// A group index for the key of this text alone.
    #[cold]
    #[inline(never)]
    fn push_text(&mut self, alloc: Global, hash: u64, text: &[u8]) -> Result<u32, AllocError>
        requires { is_utf8 text.now ≡ true }
        ensures group_index { IfOk result (λ group_index. group_index ≡ length self.old.keys) }
        ensures keys { IfOk result (λ group_index. self.new.keys ≡ self.old.keys
            ++ (Text text.now ∷ []) ∷ []) }
    {
        let key = key_of_text(alloc, text)?;
        self.push(alloc, hash, key)
    }

    /// The group index of the key of this text alone, which gets one where it has none. On an error
    /// the keys are open.
    fn group_index_of_text(
        &mut self,
        alloc: Global,
        hash: u64,
        text: &[u8],
    ) -> Result<u32, AllocError>
        requires { is_utf8 text.now ≡ true }
        ensures { IfOk result (λ group_index. IsFound (Text text.now ∷ []) self.old.keys group_index
            self.new.keys) }
    {
        if let Some(group_index) = self.find_text(hash, text) {
            return Ok(group_index);
        }
        self.push_text(alloc, hash, text)
    }

    /// The same of the k-th text, where a first look found the group index or `NOWHERE`.
    #[inline(always)]
    fn settle_text(
        &mut self,
        alloc: Global,
        group_index: u32,
        hashes: &[u64],
        texts: &[&[u8]],
        k: usize,
    ) -> Result<u32, AllocError>
        requires hashes { k < length hashes.now }
        requires texts { k < length texts.now }
        requires spelled { All (λ t. is_utf8 t.now ≡ true) texts.now }
        requires led { group_index ≢ NOWHERE → (group_index < length self.old.keys)
            × (slice_index_or self.old.keys group_index []
            ≡ slice_index_or (text_keys texts.now) k []) }
        ensures { IfOk result (λ group_index. IsFound (slice_index_or (text_keys texts.now) k [])
            self.old.keys group_index self.new.keys) }
    {
        if group_index != NOWHERE {
            return Ok(group_index);
        }
        self.group_index_of_text(alloc, hashes[k], texts[k])
    }

    /// The group indexes of texts' keys, where a first look found some and left `NOWHERE` for the
    /// others. On an error the keys are open.
    fn settle_texts(
        &mut self,
        alloc: Global,
        returned: Vec<u32>,
        hashes: &[u64],
        texts: &[&[u8]],
    ) -> Result<Vec<u32>, AllocError>
        requires hashes { length hashes.now ≡ length texts.now }
        requires spelled { All (λ t. is_utf8 t.now ≡ true) texts.now }
        requires long { length returned.items ≡ length texts.now }
        requires led { (k : ℕ) → k < length texts.now
            → IsLed self.old.keys (text_keys texts.now) returned.items k }
        ensures { IfOk result (λ group_indexes. AreFound (text_keys texts.now) self.old.keys
            group_indexes.items self.new.keys) }
    {
        let mut group_indexes = returned;
        for k in 0..texts.len() {
            group_indexes[k] = self.settle_text(alloc, group_indexes[k], hashes, texts, k)?;
        }
        Ok(group_indexes)
    }

    /// The group index of each text's key. On an error the keys are open.
    fn find_texts(
        &mut self,
        alloc: Global,
        hashes: &[u64],
        texts: &[&[u8]],
    ) -> Result<Vec<u32>, AllocError>
        requires hashes { length hashes.now ≡ length texts.now }
        requires spelled { All (λ t. is_utf8 t.now ≡ true) texts.now }
        ensures { IfOk result (λ group_indexes. AreFound (text_keys texts.now) self.old.keys
            group_indexes.items self.new.keys) }
    {
        let group_indexes = self.at_first_slots(alloc, hashes, texts)?;
        if are_known(group_indexes.as_slice()) {
            return Ok(group_indexes);
        }
        self.settle_texts(alloc, group_indexes, hashes, texts)
    }

    /// The group index of each selected row's key, of one column or more. On an error the keys are
    /// open.
    fn find_rows(
        &mut self,
        alloc: Global,
        hashes: &[u64],
        lanes: &[Vector<'_>],
        selection: &Selection,
    ) -> Result<Vec<u32>, AllocError>
        requires lanes { AreLanesOf selection.now.below lanes.now }
        requires hashes { length hashes.now ≡ length selection.now.list }
        ensures { IfOk result (λ group_indexes. AreFound (rows_at lanes.now selection.now.list)
            self.old.keys group_indexes.items self.new.keys) }
    {
        let mut group_indexes = Vec::with_capacity(alloc, selection.len())?;
        for k in 0..selection.len() {
            let at = position(selection, k);
            group_indexes.push(self.group_index_of_lanes(
                alloc,
                hashes[k],
                lanes,
                at,
                selection.below(),
            )?)?;
        }
        Ok(group_indexes)
    }

    /// The same by the loop that fits the columns. On an error the keys are open.
    fn find_each(
        &mut self,
        alloc: Global,
        lanes: &[Vector<'_>],
        selection: &Selection,
    ) -> Result<Vec<u32>, AllocError>
        requires { AreLanesOf selection.now.below lanes.now }
        ensures { IfOk result (λ group_indexes. AreFound (rows_at lanes.now selection.now.list)
            self.old.keys group_indexes.items self.new.keys) }
    {
        if let Some(ints) = plain_key(lanes, selection) {
            return self.find_ints(alloc, ints);
        }
        if let Some(ints) = selected_key(alloc, lanes, selection)? {
            return self.find_ints(alloc, ints.as_slice());
        }
        let hashes = hash_rows(alloc, lanes, selection)?;
        if let Some(texts) = plain_text_key(lanes, selection) {
            return self.find_texts(alloc, hashes.as_slice(), texts);
        }
        self.find_rows(alloc, hashes.as_slice(), lanes, selection)
    }

    /// The group index of each selected row's key. Keys that have none get one. On an error the
    /// keys are open.
    pub fn find_group_indexes(
        &mut self,
        alloc: Global,
        lanes: &[Vector<'_>],
        selection: &Selection,
    ) -> Result<RowGroups, AllocError>
        requires { AreLanesOf selection.now.below lanes.now }
        ensures { IfOk result (λ group_indexes. AreFound (rows_at lanes.now selection.now.list)
            self.old.keys (listed group_indexes) self.new.keys) }
    {
        if lanes.is_empty() {
            return self.group_indexes_without_keys(alloc, selection);
        }
        if self.unled > 0 {
            self.lead_all(alloc)?;
        }
        Ok(row_groups(self.find_each(alloc, lanes, selection)?))
    }

    /// The empty key alone, or no key yet, of these columns.
    pub fn certain(
        alloc: Global,
        is_certain: bool,
        keys: &[GroupingKey],
    ) -> Result<KeyIndex, AllocError>
        ensures { IfOk result (λ index. index.keys ≡ empty_key is_certain) }
    {
        let mut index = KeyIndex::over(alloc, KeyList::of(alloc, keys)?);
        if is_certain {
            let key = Sequence::new(alloc);
            let hash = hash_row(&key);
            index.push(alloc, hash, key)?;
        }
        Ok(index)
    }

    /// The same keys at the same group indexes, in memory of their own.
    pub fn copy(&self, alloc: Global) -> Result<KeyIndex, AllocError>
        ensures { IfOk result (λ index. index.keys ≡ self.now.keys) }
    {
        let keys = self.keys.copy(alloc)?;
        let slots = Vec::from_slice(alloc, self.slots.as_slice())?;
        Ok(KeyIndex {
            keys,
            led: self.led,
            slots,
            unled: self.unled,
            next: self.next,
        })
    }
}
