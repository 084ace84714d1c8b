//! The dictionary of some cells, where it takes no more than so many bytes.
ghost use Rattle.std.specs.Prelude.{◌≡◌, ◌≤◌, ◌<◌, ◌*◌, ◌-◌, true, length, map, take, drop, IfOk, List, nat_lt};
ghost use Rattle.std.specs.List.{list_all};
ghost use Rattle.meaning.specs.Limits.{row_group_rows};
ghost use Rattle.blocks.specs.Dictionary.{AreEntries};
ghost use Rattle.blocks.specs.Plain.{cells_at};
ghost use Rattle.meaning.specs.declared.value.Value.{Value};
ghost use Rattle.meaning.specs.declared.value.Value.TheVariants.{Int, Text};
ghost use Rattle.encodings.specs.Choosing.{body_size};
ghost use Rattle.blocks.specs.Plain.{form_size};
ghost use Rattle.encodings.specs.Choice.{IsDictionaryWithin};
ghost use Rattle.meaning.specs.declared.value.ColType.TheVariants as of_type;
ghost use Rattle.blocks.specs.declared.kind.Kind.TheVariants as kind;

use crate::dictionary::least_size::{least_size_of_ints, least_size_of_texts};
use crate::dictionary::of_cells::{Dictionary, dictionary_of_ints, dictionary_of_texts};
use crate::plain::encode::text_at;
use columns::TextList;
use std::alloc::{AllocError, Global};
use std::mem::drop;

/// A dictionary, if its size is at most a number.
fn kept(dictionary: Dictionary, size: usize, most: usize) -> Option<Dictionary>
    ensures { (cells : List Value) → AreEntries cells dictionary.entry_rows.items dictionary.codes.items
        → IsDictionaryWithin cells size most result }
{
    if most < size {
        drop(dictionary);
        return None;
    }
    Some(dictionary)
}

/// The dictionary, if it takes no more than so many bytes. It isn't made where as few entries as
/// there may be take more.
pub fn dictionary_of_ints_within(
    alloc: Global,
    ints: &[i64],
    most: usize,
) -> Result<Option<Dictionary>, AllocError>
    requires some { 1 ≤ length ints.now }
    requires few { length ints.now ≤ row_group_rows }
    ensures { IfOk result (IsDictionaryWithin (map Int ints.now)
        (body_size kind.Dict of_type.Int (map Int ints.now)) most) }
{
    let beside = 4 + 2 * ints.len();
    if most < beside + 8 {
        return Ok(None);
    }
    let entries = least_size_of_ints(alloc, ints, most - beside)?;
    if most < beside + entries {
        return Ok(None);
    }
    let dictionary = dictionary_of_ints(alloc, ints)?;
    let size = 4 + 8 * dictionary.entry_rows.len() + 2 * ints.len();
    Ok(kept(dictionary, size, most))
}

/// How many bytes the texts of some rows take one by one.
fn text_size_at(texts: &TextList, from: usize, to: usize, rows: &[usize]) -> usize
    requires within { to ≤ length texts.now }
    requires rows { list_all (λ row. nat_lt row (to - from)) rows.now ≡ true }
    requires few { length rows.now ≤ row_group_rows }
    ensures value { result ≡ form_size of_type.Text
        (cells_at (map Text (take (to - from) (drop from texts.now))) rows.now) }
    ensures bound { result ≤ 65539 * length rows.now }
{
    let mut total = 0;
    for row in rows {
        total += 4 + text_at(texts, from, to, *row).len();
    }
    total
}

/// The dictionary, if it takes no more than so many bytes. It isn't made where as few entries as
/// there may be take more.
pub fn dictionary_of_texts_within(
    alloc: Global,
    texts: &TextList,
    from: usize,
    to: usize,
    most: usize,
) -> Result<Option<Dictionary>, AllocError>
    requires some { from < to }
    requires within { to ≤ length texts.now }
    requires few { to - from ≤ row_group_rows }
    ensures { let cells = map Text (take (to - from) (drop from texts.now)) in
        IfOk result (IsDictionaryWithin cells (body_size kind.Dict of_type.Text cells) most) }
{
    let beside = 4 + 2 * (to - from);
    if most < beside + 4 {
        return Ok(None);
    }
    let entries = least_size_of_texts(alloc, texts, from, to, most - beside)?;
    if most < beside + entries {
        return Ok(None);
    }
    let dictionary = dictionary_of_texts(alloc, texts, from, to)?;
    let size = 4
        + text_size_at(texts, from, to, dictionary.entry_rows.as_slice())
        + 2 * (to - from);
    Ok(kept(dictionary, size, most))
}
