//! Bodies of dictionaries.
ghost use Rattle.std.specs.Prelude.{◌≡◌, ◌≤◌, ◌<◌, ◌-◌, false, true, length, map, take, drop, OnOk};
ghost use Rattle.std.specs.List.{list_all};
ghost use Rattle.meaning.specs.Limits.{row_group_rows};
ghost use Rattle.meaning.specs.declared.value.Value.TheVariants.{Int, Text};
ghost use Rattle.columns.specs.Column.{is_of};
ghost use Rattle.blocks.specs.Dictionary.{AreEntries};
ghost use Rattle.encodings.specs.Encoded.{PutsBody};
ghost use Rattle.meaning.specs.declared.value.ColType.TheVariants as of_type;
ghost use Rattle.blocks.specs.declared.kind.Kind.TheVariants as kind;

use crate::dictionary::of_cells::{Dictionary, dictionary_of_ints, dictionary_of_texts};
use crate::numbers::{put_shorts, put_word};
use crate::plain::encode::{put_integers_at, put_texts_at};
use bit_packing::make_room;
use columns::TextList;
use std::alloc::{AllocError, Global};
use std::mem::drop;

pub fn put_int_dictionary(
    out: &mut Vec<u8>,
    ints: &[i64],
    dictionary: &Dictionary,
) -> Result<(), AllocError>
    requires fit { list_all (is_of of_type.Int false) (map Int ints.now) ≡ true }
    requires some { 1 ≤ length ints.now }
    requires few { length ints.now ≤ row_group_rows }
    requires entries { AreEntries (map Int ints.now) dictionary.now.entry_rows.items
        dictionary.now.codes.items }
    ensures { OnOk result (PutsBody out.old.items out.new.items kind.Dict of_type.Int
        (map Int ints.now)) }
{
    let entries = dictionary.entry_rows.len();
    make_room(
        out,
        entries.saturating_mul(8).saturating_add(4 + 2 * ints.len()),
    )?;
    put_word(out, entries as u32)?;
    put_integers_at(out, ints, dictionary.entry_rows.as_slice())?;
    put_shorts(out, dictionary.codes.as_slice())?;
    Ok(())
}

pub fn put_dictionary_of_ints(
    alloc: Global,
    out: &mut Vec<u8>,
    ints: &[i64],
) -> Result<(), AllocError>
    requires fit { list_all (is_of of_type.Int false) (map Int ints.now) ≡ true }
    requires some { 1 ≤ length ints.now }
    requires few { length ints.now ≤ row_group_rows }
    ensures { OnOk result (PutsBody out.old.items out.new.items kind.Dict of_type.Int
        (map Int ints.now)) }
{
    let dictionary = dictionary_of_ints(alloc, ints)?;
    let put = put_int_dictionary(out, ints, &dictionary);
    drop(dictionary);
    put
}

pub fn put_text_dictionary(
    out: &mut Vec<u8>,
    texts: &TextList,
    from: usize,
    to: usize,
    dictionary: &Dictionary,
) -> Result<(), AllocError>
    requires fit { list_all (is_of of_type.Text false)
        (map Text (take (to - from) (drop from texts.now))) ≡ true }
    requires some { from < to }
    requires within { to ≤ length texts.now }
    requires few { to - from ≤ row_group_rows }
    requires entries { AreEntries (map Text (take (to - from) (drop from texts.now)))
        dictionary.now.entry_rows.items dictionary.now.codes.items }
    ensures { OnOk result (PutsBody out.old.items out.new.items kind.Dict of_type.Text
        (map Text (take (to - from) (drop from texts.now)))) }
{
    put_word(out, dictionary.entry_rows.len() as u32)?;
    put_texts_at(out, texts, from, to, dictionary.entry_rows.as_slice())?;
    put_shorts(out, dictionary.codes.as_slice())?;
    Ok(())
}

pub fn put_dictionary_of_texts(
    alloc: Global,
    out: &mut Vec<u8>,
    texts: &TextList,
    from: usize,
    to: usize,
) -> Result<(), AllocError>
    requires fit { list_all (is_of of_type.Text false)
        (map Text (take (to - from) (drop from texts.now))) ≡ true }
    requires some { from < to }
    requires within { to ≤ length texts.now }
    requires few { to - from ≤ row_group_rows }
    ensures { OnOk result (PutsBody out.old.items out.new.items kind.Dict of_type.Text
        (map Text (take (to - from) (drop from texts.now)))) }
{
    let dictionary = dictionary_of_texts(alloc, texts, from, to)?;
    let put = put_text_dictionary(out, texts, from, to, &dictionary);
    drop(dictionary);
    put
}
