//! How many bytes the different ones of some cells take at least: cells whose slots are different
//! are different.
ghost use Rattle.std.specs.Prelude.{◌≡◌, ◌-◌, ◌*◌, ◌<◌, ◌≤◌, false, true, if◌then◌else◌, length, map, take, drop, set, slice_index_or, IfOk};
ghost use Rattle.meaning.specs.Limits.{row_group_rows};
ghost use Rattle.meaning.specs.Order.{value_cmp, ascending_set};
ghost use Rattle.meaning.specs.declared.value.Value.TheVariants.{Int, Text};
ghost use Rattle.blocks.specs.Plain.{form_size};
ghost use Rattle.meaning.specs.declared.value.ColType.TheVariants as of_type;

use crate::dictionary::slots::{HASH_SLOTS, slot_of_int, slot_of_text};
use crate::plain::encode::text_at;
use columns::TextList;
use std::alloc::{AllocError, Global};

/// After how many rows it is asked whether to go on.
const STEP: usize = 512;

/// Marks a slot. Gives the size of a cell whose slot had no mark.
#[inline(always)]
fn mark(marks: &mut [bool], slot: usize, size: usize) -> usize
    requires { slot < length marks.old }
    ensures marks { marks.new ≡ set marks.old slot true }
    ensures size { result ≡ (if slice_index_or marks.old slot false then 0 else size) }
{
    let more = if marks[slot] { 0 } else { size };
    marks[slot] = true;
    more
}

/// Whether a size is reached, or hardly will be: after `done` of the rows there is less than half
/// of what they would share.
fn is_settled(size: usize, wanted: usize, done: usize, rows: usize) -> bool {
    wanted < size || size.saturating_mul(rows).saturating_mul(2) < wanted.saturating_mul(done)
}

/// How many bytes the different ones of some integers take at least. It is looked for no more than
/// is wanted.
fn size_of_different_ints(ints: &[i64], wanted: usize, marks: &mut [bool]) -> usize
    requires slots { length marks.old ≡ 32768 }
    requires few { length ints.now ≤ row_group_rows }
    ensures least { result ≤ form_size of_type.Int (ascending_set value_cmp (map Int ints.now)) }
    ensures bound { result ≤ 65539 * row_group_rows }
{
    let mut size = 0;
    for row in (0..ints.len()).rev() {
        size += mark(marks, slot_of_int(ints[row]), 8);
        if row % STEP == 0 && is_settled(size, wanted, ints.len() - row, ints.len()) {
            return size;
        }
    }
    size
}

/// The same of the texts from one row up to another.
fn size_of_different_texts(
    texts: &TextList,
    from: usize,
    to: usize,
    wanted: usize,
    marks: &mut [bool],
) -> usize
    requires slots { length marks.old ≡ 32768 }
    requires ordered { from ≤ to }
    requires within { to ≤ length texts.now }
    requires few { to - from ≤ row_group_rows }
    ensures least { result ≤ form_size of_type.Text
        (ascending_set value_cmp (map Text (take (to - from) (drop from texts.now)))) }
    ensures bound { result ≤ 65539 * row_group_rows }
{
    let mut size = 0;
    for row in (0..to - from).rev() {
        let text = text_at(texts, from, to, row);
        size += mark(marks, slot_of_text(text), 4 + text.len());
        if row % STEP == 0 && is_settled(size, wanted, to - from - row, to - from) {
            return size;
        }
    }
    size
}

/// How many bytes the different ones of some integers take at least, as far as it is more than is
/// wanted.
pub fn least_size_of_ints(alloc: Global, ints: &[i64], wanted: usize) -> Result<usize, AllocError>
    requires few { length ints.now ≤ row_group_rows }
    ensures bound { IfOk result (λ size. size ≤ 65539 * row_group_rows) }
    ensures least { IfOk result
        (λ size. size ≤ form_size of_type.Int (ascending_set value_cmp (map Int ints.now))) }
{
    let mut marks = vec![in alloc; false; HASH_SLOTS]?;
    Ok(size_of_different_ints(ints, wanted, marks.as_mut_slice()))
}

/// The same of the texts from one row up to another.
pub fn least_size_of_texts(
    alloc: Global,
    texts: &TextList,
    from: usize,
    to: usize,
    wanted: usize,
) -> Result<usize, AllocError>
    requires ordered { from ≤ to }
    requires within { to ≤ length texts.now }
    requires few { to - from ≤ row_group_rows }
    ensures bound { IfOk result (λ size. size ≤ 65539 * row_group_rows) }
    ensures least { IfOk result
        (λ size. size ≤ form_size of_type.Text
        (ascending_set value_cmp (map Text (take (to - from) (drop from texts.now))))) }
{
    let mut marks = vec![in alloc; false; HASH_SLOTS]?;
    Ok(size_of_different_texts(texts, from, to, wanted, marks.as_mut_slice()))
}
