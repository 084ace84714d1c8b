//! Numbers in the order of their cells, and the code of each: which of the different cells it has.
ghost use Rattle.std.specs.Prelude.{ℕ, List, ◌≡◌, ◌<◌, ◌≤◌, ◌+◌, ◌-◌, [], ◌++◌, nat_lt, true, false, length, map, slice_index_or, OnOk, IfOk};
ghost use Rattle.std.specs.List.{list_all};
ghost use Rattle.std.specs.Ordering.{is_lt};
ghost use Rattle.meaning.specs.Limits.{row_group_rows};
ghost use Rattle.meaning.specs.Order.{value_cmp};
ghost use Rattle.meaning.specs.declared.value.Value.{Value};
ghost use Rattle.meaning.specs.declared.value.Value.TheVariants.{Null};
ghost use Rattle.encodings.specs.Entries.{AreNumbered, AreNumberEntries, AreFirstEntries, DoNotFall};
ghost use Rattle.blocks.specs.Plain.{cells_at};

use crate::dictionary::cell::Cell;
use crate::dictionary::of_cells::Dictionary;
use std::alloc::{AllocError, Global};
use std::mem::drop;

/// The numbers of some first rows, each with its cell.
fn put_numbered<K: Cell>(
    cells: &[K],
    firsts: &[usize],
    numbered: &mut Vec<(K, usize)>,
) -> Result<(), AllocError>
    requires none { numbered.old.items ≡ [] }
    requires within { list_all (λ row. nat_lt row (length cells.now)) firsts.now ≡ true }
    ensures { OnOk result (AreNumbered K.value (cells_at (map K.value cells.now) firsts.now)
        numbered.new.items (length firsts.now)) }
{
    for number in 0..firsts.len() {
        numbered.push((cells[firsts[number]], number))?;
    }
    Ok(())
}

/// Puts the numbers in the order of their cells.
fn sort<K: Cell>(numbered: &mut Vec<(K, usize)>)
    ensures { (cells : List Value) (count : ℕ) → AreNumbered K.value cells numbered.old.items count
        → AreNumbered K.value cells numbered.new.items count
        × DoNotFall (map (λ p. K.value p.0) numbered.new.items) }
{
    numbered.sort_unstable();
}

/// The numbers in the order of their cells, each with its cell.
fn sorted<K: Cell>(
    alloc: Global,
    cells: &[K],
    firsts: &[usize],
) -> Result<Vec<(K, usize)>, AllocError>
    requires within { list_all (λ row. nat_lt row (length cells.now)) firsts.now ≡ true }
    ensures numbered { IfOk result
        (λ numbered. AreNumbered K.value (cells_at (map K.value cells.now) firsts.now)
        numbered.items (length firsts.now)) }
    ensures sorted { IfOk result (λ numbered. DoNotFall (map (λ p. K.value p.0) numbered.items)) }
{
    let mut numbered = Vec::with_capacity(alloc, firsts.len())?;
    match put_numbered(cells, firsts, &mut numbered) {
        Ok(()) => {
            sort(&mut numbered);
            Ok(numbered)
        }
        Err(fault) => {
            drop(numbered);
            Err(fault)
        }
    }
}

/// Whether the cell at an index is another one than that before it.
fn begins_entry<K: Cell>(sorted: &[(K, usize)], index: usize) -> bool
    requires within { index < length sorted.now }
    requires sorted { DoNotFall (map (λ p. K.value p.0) sorted.now) }
    ensures begins { result ≡ true → 0 < index
        → is_lt (value_cmp (slice_index_or (map (λ p. K.value p.0) sorted.now) (index - 1) Null)
        (slice_index_or (map (λ p. K.value p.0) sorted.now) index Null)) ≡ true }
    ensures stays { result ≡ false → (0 < index)
        × (slice_index_or (map (λ p. K.value p.0) sorted.now) (index - 1) Null
        ≡ slice_index_or (map (λ p. K.value p.0) sorted.now) index Null) }
{
    index == 0 || sorted[index - 1].0 != sorted[index].0
}

/// Puts the first row of a number behind `entry_rows` where its cell begins an entry, and gives the
/// code of the cell.
fn enter<K: Cell>(
    cells: &[K],
    sorted: &[(K, usize)],
    firsts: &[usize],
    index: usize,
    entry_rows: &mut Vec<usize>,
) -> Result<u16, AllocError>
    requires few { length firsts.now ≤ row_group_rows }
    requires rows { list_all (λ row. nat_lt row (length cells.now)) firsts.now ≡ true }
    requires within { index < length sorted.now }
    requires numbered { AreNumbered K.value (cells_at (map K.value cells.now) firsts.now)
        sorted.now (length firsts.now) }
    requires sorted { DoNotFall (map (λ p. K.value p.0) sorted.now) }
    requires before { AreFirstEntries (map K.value cells.now) (map (λ p. K.value p.0) sorted.now)
        index entry_rows.old.items }
    ensures entries { OnOk result
        (AreFirstEntries (map K.value cells.now) (map (λ p. K.value p.0) sorted.now) (index + 1)
        entry_rows.new.items) }
    ensures kept { OnOk result ((more : List ℕ) × (entry_rows.new.items ≡ entry_rows.old.items ++ more)) }
    ensures code { IfOk result (λ code. (code < length entry_rows.new.items)
        × (slice_index_or (cells_at (map K.value cells.now) entry_rows.new.items) code Null
        ≡ slice_index_or (map (λ p. K.value p.0) sorted.now) index Null)) }
{
    if begins_entry(sorted, index) {
        entry_rows.push(firsts[sorted[index].1])?;
    }
    Ok((entry_rows.len() - 1) as u16)
}

/// Puts the first row of each entry into `entry_rows`, and for each number the code of its entry into
/// `codes`.
fn put_entries<K: Cell>(
    cells: &[K],
    sorted: &[(K, usize)],
    firsts: &[usize],
    entry_rows: &mut Vec<usize>,
    codes: &mut [u16],
) -> Result<(), AllocError>
    requires few { length firsts.now ≤ row_group_rows }
    requires rows { list_all (λ row. nat_lt row (length cells.now)) firsts.now ≡ true }
    requires numbered { AreNumbered K.value (cells_at (map K.value cells.now) firsts.now)
        sorted.now (length firsts.now) }
    requires sorted { DoNotFall (map (λ p. K.value p.0) sorted.now) }
    requires none { entry_rows.old.items ≡ [] }
    requires room { length codes.old ≡ length firsts.now }
    ensures { OnOk result (AreNumberEntries (map K.value cells.now) firsts.now entry_rows.new.items
        codes.new) }
{
    for index in 0..sorted.len() {
        let code = enter(cells, sorted, firsts, index, entry_rows)?;
        codes[sorted[index].1] = code;
    }
    Ok(())
}

/// A dictionary of the numbers: a first row for each entry, and for each number the code of its
/// entry.
fn entries_of<K: Cell>(
    alloc: Global,
    cells: &[K],
    sorted: &[(K, usize)],
    firsts: &[usize],
) -> Result<Dictionary, AllocError>
    requires few { length firsts.now ≤ row_group_rows }
    requires rows { list_all (λ row. nat_lt row (length cells.now)) firsts.now ≡ true }
    requires numbered { AreNumbered K.value (cells_at (map K.value cells.now) firsts.now)
        sorted.now (length firsts.now) }
    requires sorted { DoNotFall (map (λ p. K.value p.0) sorted.now) }
    ensures { IfOk result (λ d. AreNumberEntries (map K.value cells.now) firsts.now d.entry_rows.items
        d.codes.items) }
{
    let mut codes = vec![in alloc; 0; firsts.len()]?;
    let mut entry_rows = Vec::new(alloc);
    match put_entries(cells, sorted, firsts, &mut entry_rows, codes.as_mut_slice()) {
        Ok(()) => Ok(Dictionary { entry_rows, codes }),
        Err(fault) => {
            drop(entry_rows);
            drop(codes);
            Err(fault)
        }
    }
}

/// A dictionary of the numbers that some first rows have.
pub fn numbers_in_order<K: Cell>(
    alloc: Global,
    cells: &[K],
    firsts: &[usize],
) -> Result<Dictionary, AllocError>
    requires few { length firsts.now ≤ row_group_rows }
    requires rows { list_all (λ row. nat_lt row (length cells.now)) firsts.now ≡ true }
    ensures { IfOk result (λ d. AreNumberEntries (map K.value cells.now) firsts.now d.entry_rows.items
        d.codes.items) }
{
    let sorted = sorted(alloc, cells, firsts)?;
    let entries = entries_of(alloc, cells, sorted.as_slice(), firsts);
    drop(sorted);
    entries
}
