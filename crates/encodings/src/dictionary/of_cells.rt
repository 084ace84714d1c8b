//! The dictionary of some cells, as it is made to be written.
ghost use Rattle.std.specs.Prelude.{List, ◌≡◌, ◌<◌, ◌≤◌, ◌-◌, length, map, slice_index, IfOk, take, drop};
ghost use Rattle.meaning.specs.Limits.{row_group_rows};
ghost use Rattle.meaning.specs.declared.value.Value.{Value};
ghost use Rattle.encodings.specs.Entries.{AreNumberEntries, AreNumbers};
ghost use Rattle.meaning.specs.declared.value.Value.TheVariants.{Int, Text};
ghost use Rattle.blocks.specs.Dictionary.{AreEntries};

use crate::dictionary::cell::Cell;
use crate::dictionary::entries::numbers_in_order;
use crate::dictionary::numbers::{Numbers, numbers_of};
use columns::TextList;
use std::alloc::{AllocError, Global};
use std::mem::drop;

/// A row for each entry, in the order of their cells, and for each row the code of its entry.
#[derive(Drop)]
pub struct Dictionary {
    pub entry_rows: Vec<usize>,
    pub codes: Vec<u16>,
}

fn code_of(codes: &[u16], number: u16) -> u16
    ensures { result ≡ slice_index codes.now number }
{
    codes.get(usize::from(number)).copied().unwrap_or(0)
}

/// Puts the code of each number in place of the number.
fn recode(of_rows: &mut [u16], codes: &[u16])
    ensures { of_rows.new ≡ map (λ number. slice_index codes.now number) of_rows.old }
{
    for number in of_rows {
        *number = code_of(codes, *number);
    }
}

/// The dictionary of the rows, by that of their numbers.
fn recoded(numbers: Numbers, entries: Dictionary) -> Dictionary
    ensures { (cells : List Value)
        → AreNumbers cells numbers.firsts.items numbers.of_rows.items (length cells)
        → AreNumberEntries cells numbers.firsts.items entries.entry_rows.items entries.codes.items
        → AreEntries cells result.entry_rows.items result.codes.items }
{
    let mut codes = numbers.of_rows;
    recode(codes.as_mut_slice(), entries.codes.as_slice());
    Dictionary {
        entry_rows: entries.entry_rows,
        codes,
    }
}

/// The dictionary of some cells.
fn dictionary_of<K: Cell>(alloc: Global, cells: &[K]) -> Result<Dictionary, AllocError>
    requires { length cells.now ≤ row_group_rows }
    ensures { IfOk result (λ d. AreEntries (map K.value cells.now) d.entry_rows.items d.codes.items) }
{
    let numbers = numbers_of(alloc, cells)?;
    match numbers_in_order(alloc, cells, numbers.firsts.as_slice()) {
        Ok(entries) => Ok(recoded(numbers, entries)),
        Err(fault) => {
            drop(numbers);
            Err(fault)
        }
    }
}

pub fn dictionary_of_ints(alloc: Global, ints: &[i64]) -> Result<Dictionary, AllocError>
    requires { length ints.now ≤ row_group_rows }
    ensures { IfOk result (λ d. AreEntries (map Int ints.now) d.entry_rows.items d.codes.items) }
{
    dictionary_of(alloc, ints)
}

fn texts_between(
    alloc: Global,
    texts: &TextList,
    from: usize,
    to: usize,
) -> Result<Vec<&[u8]>, AllocError>
    requires ordered { from ≤ to }
    requires within { to ≤ length texts.now }
    ensures { IfOk result (λ cells. map (λ text. text.now) cells.items
        ≡ take (to - from) (drop from texts.now)) }
{
    let mut cells = Vec::with_capacity(alloc, to - from)?;
    for row in from..to {
        cells.push(texts.get(row))?;
    }
    Ok(cells)
}

pub fn dictionary_of_texts(
    alloc: Global,
    texts: &TextList,
    from: usize,
    to: usize,
) -> Result<Dictionary, AllocError>
    requires some { from < to }
    requires within { to ≤ length texts.now }
    requires few { to - from ≤ row_group_rows }
    ensures { IfOk result (λ d. AreEntries (map Text (take (to - from) (drop from texts.now)))
        d.entry_rows.items d.codes.items) }
{
    let cells = texts_between(alloc, texts, from, to)?;
    let dictionary = dictionary_of(alloc, cells.as_slice());
    drop(cells);
    dictionary
}
