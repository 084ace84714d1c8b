//! A number for each row, the same only for rows with equal cells.
ghost use Rattle.std.specs.Prelude.{◌≡◌, ◌<◌, ◌≤◌, ◌+◌, [], ◌∷◌, ◌++◌, nat_lt, true, length, map, slice_index_or, slice_index, OnOk, IfOk, IfErr};
ghost use Rattle.std.specs.List.{list_all};
ghost use Rattle.meaning.specs.Limits.{row_group_rows};
ghost use Rattle.meaning.specs.declared.value.Value.TheVariants.{Null};
ghost use Rattle.encodings.specs.Entries.{AreNumbers};

use crate::dictionary::cell::Cell;
use std::alloc::{AllocError, Global};
use std::mem::drop;

/// How many slots there are, twice as many as there may be numbers.
const SLOTS: usize = 16_384;

/// In how many slots from its first on a cell is looked for. A cell that isn't found gets a number
/// more than it needs, which is put together with its first when the numbers are put in order.
const REACH: usize = 8;

/// A number for each row, and for each number the first row that has it.
#[derive(Drop)]
pub struct Numbers {
    pub firsts: Vec<usize>,
    pub of_rows: Vec<u16>,
}

/// The number of a cell, or a slot for one.
fn look<K: Cell>(cells: &[K], firsts: &[usize], slots: &[u16], cell: K) -> Result<u16, usize>
    requires slots { length slots.now ≡ 16384 }
    requires rows { list_all (λ row. nat_lt row (length cells.now)) firsts.now ≡ true }
    ensures number { IfOk result (λ n. (n < length firsts.now)
        × (slice_index_or (map K.value cells.now) (slice_index firsts.now n) Null ≡ K.value cell)) }
    ensures slot { IfErr result (λ slot. slot < 16384) }
{
    let first_slot = cell.slot() / 2;
    for step in 0..REACH {
        let slot = (first_slot + step) % SLOTS;
        let number = slots[slot];
        if firsts.len() <= usize::from(number) {
            return Err(slot);
        }
        if cells[firsts[usize::from(number)]] == cell {
            return Ok(number);
        }
    }
    Err(first_slot)
}

impl Numbers {
    fn new(alloc: Global, rows: usize) -> Result<Numbers, AllocError>
        ensures firsts { IfOk result (λ numbers. numbers.firsts.items ≡ []) }
        ensures of_rows { IfOk result (λ numbers. numbers.of_rows.items ≡ []) }
    {
        let of_rows = Vec::with_capacity(alloc, rows)?;
        Ok(Numbers {
            firsts: Vec::new(alloc),
            of_rows,
        })
    }

    /// Gives a row a number that no row has yet.
    fn add(&mut self, row: usize) -> Result<u16, AllocError>
        requires { length self.old.firsts.items < row_group_rows }
        ensures firsts { OnOk result (self.new.firsts.items ≡ self.old.firsts.items ++ row ∷ []) }
        ensures of_rows { IfOk result (λ number. self.new.of_rows.items ≡ self.old.of_rows.items
            ++ number ∷ []) }
        ensures number { IfOk result (λ number. number ≡ length self.old.firsts.items) }
    {
        let number = self.firsts.len() as u16;
        self.firsts.push(row)?;
        self.of_rows.push(number)?;
        Ok(number)
    }

    /// Gives a row the number of a row with its cell, or a new one.
    fn add_cell<K: Cell>(
        &mut self,
        slots: &mut [u16],
        cells: &[K],
        row: usize,
    ) -> Result<(), AllocError>
        requires few { length cells.now ≤ row_group_rows }
        requires within { row < length cells.now }
        requires slots { length slots.old ≡ 16384 }
        requires numbers { AreNumbers (map K.value cells.now) self.old.firsts.items
            self.old.of_rows.items row }
        ensures numbers { OnOk result
            (AreNumbers (map K.value cells.now) self.new.firsts.items self.new.of_rows.items
            (row + 1)) }
        ensures slots { length slots.new ≡ 16384 }
    {
        match look(cells, self.firsts.as_slice(), slots, cells[row]) {
            Ok(number) => self.of_rows.push(number)?,
            Err(slot) => {
                slots[slot] = self.add(row)?;
            }
        }
        Ok(())
    }

    /// Numbers the cells in the order in which they come.
    fn add_cells<K: Cell>(&mut self, slots: &mut [u16], cells: &[K]) -> Result<(), AllocError>
        requires few { length cells.now ≤ row_group_rows }
        requires slots { length slots.old ≡ 16384 }
        requires none { AreNumbers (map K.value cells.now) self.old.firsts.items
            self.old.of_rows.items 0 }
        ensures { OnOk result (AreNumbers (map K.value cells.now) self.new.firsts.items
            self.new.of_rows.items (length cells.now)) }
    {
        for row in 0..cells.len() {
            self.add_cell(slots, cells, row)?;
        }
        Ok(())
    }
}

fn numbers_by_slots<K: Cell>(
    alloc: Global,
    slots: &mut [u16],
    cells: &[K],
) -> Result<Numbers, AllocError>
    requires few { length cells.now ≤ row_group_rows }
    requires slots { length slots.old ≡ 16384 }
    ensures { IfOk result (λ n. AreNumbers (map K.value cells.now) n.firsts.items n.of_rows.items
        (length cells.now)) }
{
    let mut numbers = Numbers::new(alloc, cells.len())?;
    match numbers.add_cells(slots, cells) {
        Ok(()) => Ok(numbers),
        Err(fault) => {
            drop(numbers);
            Err(fault)
        }
    }
}

pub fn numbers_of<K: Cell>(alloc: Global, cells: &[K]) -> Result<Numbers, AllocError>
    requires { length cells.now ≤ row_group_rows }
    ensures { IfOk result (λ n. AreNumbers (map K.value cells.now) n.firsts.items n.of_rows.items
        (length cells.now)) }
{
    let mut slots = vec![in alloc; u16::MAX; SLOTS]?;
    numbers_by_slots(alloc, slots.as_mut_slice(), cells)
}
