//! A hash table that leads to the entries of sets. It is a hint: what it leads to is compared, and
//! what it doesn't lead to is entered again, which changes no set.
use crate::table_size::larger_size;
use hash_slots::{probe_slots, slot_number};
use std::alloc::{AllocError, Global};

// What an empty slot holds.
const NO_ENTRY: u32 = u32::MAX;

/// The hash of an entry, and where it stands.
#[derive(Clone, Copy)]
struct Hashed {
    hash: u64,
    entry: u32,
}

/// Where entries stand, by their hashes.
#[derive(Drop)]
pub struct Hints {
    // Of the entries that the table leads to, in their order.
    hashed: Vec<Hashed>,
    // A power of two of them. The slot of an entry that was forgotten stays taken.
    slots: Vec<u32>,
}

/// What the slot to look at after so many steps holds, if it is there.
#[inline(always)]
fn slot_after(slots: &[u32], hash: u64, step: usize) -> Option<u32> {
    slots.get(slot_number(hash, step, slots.len())).copied()
}

/// The number of the first empty slot for a hash, if there is one.
fn empty_slot(slots: &[u32], hash: u64) -> Option<usize> {
    let stop = probe_slots(
        slots.len(),
        |step| slot_after(slots, hash, step),
        |entry| entry == NO_ENTRY,
    )?;
    Some(slot_number(hash, stop.step, slots.len()))
}

/// Puts an entry's index into the first empty slot for its hash.
fn enter(slots: &mut [u32], hashed: Hashed) {
    let Some(number) = empty_slot(slots, hashed.hash) else {
        return;
    };
    if number < slots.len() {
        slots[number] = hashed.entry;
    }
}

fn enter_all(slots: &mut [u32], hashed: &[Hashed]) {
    for one in hashed {
        enter(slots, *one);
    }
}

impl Hints {
    /// To no entry. Takes no memory.
    pub fn new(alloc: Global) -> Hints {
        Hints {
            hashed: Vec::new(alloc),
            slots: Vec::new(alloc),
        }
    }

    /// How many steps a search takes at most.
    #[inline(always)]
    pub fn most_steps(&self) -> usize {
        self.slots.len()
    }

    /// The entry that the slot to look at after so many steps leads to, unless it is empty.
    #[inline(always)]
    pub fn after(&self, hash: u64, step: usize) -> Option<u32> {
        let entry = slot_after(self.slots.as_slice(), hash, step)?;
        if entry == NO_ENTRY {
            return None;
        }
        Some(entry)
    }

    /// Makes the table twice as large where half of it is full.
    fn make_room(&mut self, alloc: Global) -> Result<(), AllocError> {
        let Some(many) = larger_size(self.hashed.len(), self.slots.len()) else {
            return Ok(());
        };
        let mut slots = vec![in alloc; NO_ENTRY; many]?;
        enter_all(slots.as_mut_slice(), self.hashed.as_slice());
        self.slots = slots;
        Ok(())
    }

    /// Has the table lead to an entry behind those that it leads to. More than 2^32 entries are
    /// refused as more than memory holds.
    pub fn lead(&mut self, alloc: Global, hash: u64, entry: usize) -> Result<(), AllocError> {
        let Ok(entry) = u32::try_from(entry) else {
            return Err(AllocError);
        };
        self.make_room(alloc)?;
        let hashed = Hashed { hash, entry };
        self.hashed.push(hashed)?;
        enter(self.slots.as_mut_slice(), hashed);
        Ok(())
    }

    /// Forgets the hashes of all but so many entries.
    pub fn truncate(&mut self, entries: usize) {
        self.hashed.retain(|one| (one.entry as usize) < entries);
    }

    /// The same table, in memory of its own.
    pub fn copy(&self, alloc: Global) -> Result<Hints, AllocError> {
        let hashed = Vec::from_slice(alloc, self.hashed.as_slice())?;
        let slots = Vec::from_slice(alloc, self.slots.as_slice())?;
        Ok(Hints { hashed, slots })
    }
}
