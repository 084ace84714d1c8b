//! Values one by one: integers, or where each text ends and then the texts.
ghost use Rattle.std.specs.Prelude.{◌≡◌, ◌≤◌, ◌<◌, nat_lt, ◌+◌, ◌-◌, ◌++◌, [], length, take, drop, slice_index_or, true, OnOk, false, map};
ghost use Rattle.std.specs.List.{concat, flat_map, list_all};
ghost use Rattle.meaning.specs.Limits.{row_group_rows};
ghost use Rattle.columns.specs.Column.{is_text, is_of};
ghost use Rattle.columns.specs.Texts.{ends_from};
ghost use Rattle.blocks.specs.Numbers.{integer_bytes, word_bytes};
ghost use Rattle.blocks.specs.Plain.{ints_at, texts_at};
ghost use Rattle.encodings.specs.Encoded.{PutsBody};
ghost use Rattle.meaning.specs.declared.value.Value.TheVariants.{Int, Text};
ghost use Rattle.meaning.specs.declared.value.ColType.TheVariants as of_type;
ghost use Rattle.blocks.specs.declared.kind.Kind.TheVariants as kind;

use crate::numbers::{put_integer, put_word};
use bit_packing::make_room;
use columns::TextList;
use std::alloc::AllocError;

pub fn put_integers(out: &mut Vec<u8>, ints: &[i64]) -> Result<(), AllocError>
    ensures { OnOk result (out.new.items ≡ out.old.items ++ flat_map integer_bytes ints.now) }
{
    for n in ints {
        put_integer(out, *n)?;
    }
    Ok(())
}

/// The integers of some rows.
pub fn put_integers_at(out: &mut Vec<u8>, ints: &[i64], rows: &[usize]) -> Result<(), AllocError>
    requires { list_all (λ row. nat_lt row (length ints.now)) rows.now ≡ true }
    ensures { OnOk result (out.new.items
        ≡ out.old.items ++ flat_map integer_bytes (ints_at ints.now rows.now)) }
{
    for row in rows {
        put_integer(out, ints[*row])?;
    }
    Ok(())
}

fn put_ends(out: &mut Vec<u8>, texts: &TextList, from: usize, to: usize) -> Result<(), AllocError>
    requires ordered { from ≤ to }
    requires within { to ≤ length texts.now }
    requires few { to - from ≤ row_group_rows }
    ensures { OnOk result (out.new.items
        ≡ out.old.items ++ flat_map word_bytes
        (ends_from 0 (take (to - from) (drop from texts.now)))) }
{
    let mut end = 0;
    for row in from..to {
        end += texts.get(row).len() as u32;
        put_word(out, end)?;
    }
    Ok(())
}

/// The texts from one row up to another.
pub fn put_texts(
    out: &mut Vec<u8>,
    texts: &TextList,
    from: usize,
    to: usize,
) -> Result<(), AllocError>
    requires ordered { from ≤ to }
    requires within { to ≤ length texts.now }
    requires few { to - from ≤ row_group_rows }
    ensures { OnOk result (out.new.items
        ≡ out.old.items ++ (flat_map word_bytes
        (ends_from 0 (take (to - from) (drop from texts.now)))
        ++ concat (take (to - from) (drop from texts.now)))) }
{
    put_ends(out, texts, from, to)?;
    out.extend_from_slice(texts.joined(from, to))
}

/// The text of a row, where rows count from `from`.
pub fn text_at(texts: &TextList, from: usize, to: usize, row: usize) -> &[u8]
    requires within { to ≤ length texts.now }
    requires row { row < to - from }
    ensures value { result.now ≡ slice_index_or (take (to - from) (drop from texts.now)) row [] }
    ensures text { is_text result.now ≡ true }
{
    texts.get(from + row)
}

fn put_ends_at(
    out: &mut Vec<u8>,
    texts: &TextList,
    from: usize,
    to: usize,
    rows: &[usize],
) -> Result<(), AllocError>
    requires within { to ≤ length texts.now }
    requires rows { list_all (λ row. nat_lt row (to - from)) rows.now ≡ true }
    requires few { length rows.now ≤ row_group_rows }
    ensures { OnOk result (out.new.items
        ≡ out.old.items ++ flat_map word_bytes
        (ends_from 0 (texts_at (take (to - from) (drop from texts.now)) rows.now))) }
{
    let mut end = 0;
    for row in rows {
        end += text_at(texts, from, to, *row).len() as u32;
        put_word(out, end)?;
    }
    Ok(())
}

fn put_joined_at(
    out: &mut Vec<u8>,
    texts: &TextList,
    from: usize,
    to: usize,
    rows: &[usize],
) -> Result<(), AllocError>
    requires within { to ≤ length texts.now }
    requires rows { list_all (λ row. nat_lt row (to - from)) rows.now ≡ true }
    ensures { OnOk result (out.new.items
        ≡ out.old.items ++ concat (texts_at (take (to - from) (drop from texts.now)) rows.now)) }
{
    for row in rows {
        out.extend_from_slice(text_at(texts, from, to, *row))?;
    }
    Ok(())
}

/// The texts of some rows, which count from `from`.
pub fn put_texts_at(
    out: &mut Vec<u8>,
    texts: &TextList,
    from: usize,
    to: usize,
    rows: &[usize],
) -> Result<(), AllocError>
    requires within { to ≤ length texts.now }
    requires rows { list_all (λ row. nat_lt row (to - from)) rows.now ≡ true }
    requires few { length rows.now ≤ row_group_rows }
    ensures { OnOk result (out.new.items
        ≡ out.old.items ++ (flat_map word_bytes
        (ends_from 0 (texts_at (take (to - from) (drop from texts.now)) rows.now))
        ++ concat (texts_at (take (to - from) (drop from texts.now)) rows.now))) }
{
    put_ends_at(out, texts, from, to, rows)?;
    put_joined_at(out, texts, from, to, rows)?;
    Ok(())
}

pub fn put_plain_ints(out: &mut Vec<u8>, ints: &[i64]) -> Result<(), AllocError>
    requires fit { list_all (is_of of_type.Int false) (map Int ints.now) ≡ true }
    requires few { length ints.now ≤ row_group_rows }
    ensures { OnOk result (PutsBody out.old.items out.new.items kind.Plain of_type.Int
        (map Int ints.now)) }
{
    make_room(out, 8 * ints.len())?;
    put_integers(out, ints)?;
    Ok(())
}

pub fn put_plain_texts(
    out: &mut Vec<u8>,
    texts: &TextList,
    from: usize,
    to: usize,
) -> Result<(), AllocError>
    requires fit { list_all (is_of of_type.Text false)
        (map Text (take (to - from) (drop from texts.now))) ≡ true }
    requires some { from < to }
    requires within { to ≤ length texts.now }
    requires few { to - from ≤ row_group_rows }
    ensures { OnOk result (PutsBody out.old.items out.new.items kind.Plain of_type.Text
        (map Text (take (to - from) (drop from texts.now)))) }
{
    make_room(out, 4 * (to - from) + texts.joined(from, to).len())?;
    put_texts(out, texts, from, to)?;
    Ok(())
}
