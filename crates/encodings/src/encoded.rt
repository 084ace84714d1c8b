//! Rows of a column as the payload of a block.
ghost use Rattle.std.specs.Prelude.{◌≡◌, ◌≤◌, ◌<◌, ◌-◌, false, true, length, map, take, drop, IfOk, IfErr, OnOk};
ghost use Rattle.std.specs.List.{list_all};
ghost use Rattle.meaning.specs.Limits.{row_group_rows};
ghost use Rattle.meaning.specs.declared.value.Value.TheVariants.{Int, Text};
ghost use Rattle.columns.specs.Column.{is_of};
ghost use Rattle.blocks.specs.Block.{is_block, values_of};
ghost use Rattle.encodings.specs.Choice.{IsMadeOf};
ghost use Rattle.encodings.specs.Choosing.{between, cells_for, is_chosen, payload_size};
ghost use Rattle.encodings.specs.Encoded.{is_tight};
ghost use Rattle.encodings.specs.Encoded.{PutsBody, PutsMask, block_of};
ghost use Rattle.encodings.specs.Fault.{FaultOf};
ghost use Rattle.encodings.specs.declared.fault.EncodeFault.TheVariants.{Memory};
ghost use Rattle.meaning.specs.declared.value.ColType.TheVariants as of_type;

use crate::choice::Choice;
use crate::choosing::choice_of;
use crate::dictionary::encode::{
    put_dictionary_of_ints, put_dictionary_of_texts, put_int_dictionary, put_text_dictionary,
};
use crate::fault::EncodeFault;
use crate::frame::encode::put_frame;
use crate::plain::encode::{put_plain_ints, put_plain_texts};
use crate::runs::encode::{put_runs_of_ints, put_runs_of_texts};
use bit_packing::put_mask;
use blocks::Kind;
use columns::{Column, LentCells, TextList};
use std::alloc::{AllocError, Global};
use std::mem::drop;

/// Some rows of a column as the payload of a block, and its kind.
#[derive(Drop)]
pub struct Encoded {
    pub kind: Kind,
    pub payload: Vec<u8>,
}

fn put_ints(
    alloc: Global,
    out: &mut Vec<u8>,
    choice: &Choice,
    ints: &[i64],
) -> Result<(), EncodeFault>
    requires fit { list_all (is_of of_type.Int false) (map Int ints.now) ≡ true }
    requires some { 1 ≤ length ints.now }
    requires few { length ints.now ≤ row_group_rows }
    requires made { IsMadeOf (map Int ints.now) choice.now.kind choice.now.dictionary }
    ensures ok { OnOk result
        (PutsBody out.old.items out.new.items choice.now.kind of_type.Int (map Int ints.now)) }
    ensures err { IfErr result (FaultOf choice.now.kind of_type.Int) }
{
    if let Some(dictionary) = &choice.dictionary {
        return Ok(put_int_dictionary(out, ints, dictionary)?);
    }
    match choice.kind {
        Kind::Plain => Ok(put_plain_ints(out, ints)?),
        Kind::Dict => Ok(put_dictionary_of_ints(alloc, out, ints)?),
        Kind::Runs => Ok(put_runs_of_ints(alloc, out, ints)?),
        Kind::Frame => Ok(put_frame(out, ints)?),
    }
}

fn put_texts(
    alloc: Global,
    out: &mut Vec<u8>,
    choice: &Choice,
    texts: &TextList,
    from: usize,
    to: usize,
) -> Result<(), EncodeFault>
    requires fit { list_all (is_of of_type.Text false)
        (map Text (take (to - from) (drop from texts.now))) ≡ true }
    requires some { from < to }
    requires within { to ≤ length texts.now }
    requires few { to - from ≤ row_group_rows }
    requires made { IsMadeOf (map Text (take (to - from) (drop from texts.now))) choice.now.kind
        choice.now.dictionary }
    ensures ok { OnOk result
        (PutsBody out.old.items out.new.items choice.now.kind of_type.Text
        (map Text (take (to - from) (drop from texts.now)))) }
    ensures err { IfErr result (FaultOf choice.now.kind of_type.Text) }
{
    if let Some(dictionary) = &choice.dictionary {
        return Ok(put_text_dictionary(out, texts, from, to, dictionary)?);
    }
    match choice.kind {
        Kind::Plain => Ok(put_plain_texts(out, texts, from, to)?),
        Kind::Dict => Ok(put_dictionary_of_texts(alloc, out, texts, from, to)?),
        Kind::Runs => Ok(put_runs_of_texts(alloc, out, texts, from, to)?),
        Kind::Frame => Err(EncodeFault::FrameOnText),
    }
}

/// The mask of some rows, in a nullable column.
fn put_nulls(out: &mut Vec<u8>, column: &Column, from: usize, to: usize) -> Result<(), AllocError>
    requires some { from < to }
    requires within { to ≤ length column.now.values }
    ensures { OnOk result (PutsMask out.old.items out.new.items column.now.nullable
        (between from to column.now)) }
{
    if let Some(nulls) = column.nulls() {
        put_mask(out, &nulls[from..to])?;
    }
    Ok(())
}

/// The cells of some rows, in a kind.
fn put_cells(
    alloc: Global,
    out: &mut Vec<u8>,
    choice: &Choice,
    column: &Column,
    from: usize,
    to: usize,
) -> Result<(), EncodeFault>
    requires some { from < to }
    requires within { to ≤ length column.now.values }
    requires few { to - from ≤ row_group_rows }
    requires made { IsMadeOf (cells_for column.now.col_type (between from to column.now))
        choice.now.kind choice.now.dictionary }
    ensures ok { OnOk result
        (PutsBody out.old.items out.new.items choice.now.kind column.now.col_type
        (cells_for column.now.col_type (between from to column.now))) }
    ensures err { IfErr result (FaultOf choice.now.kind column.now.col_type) }
{
    match column.cells() {
        LentCells::Ints(ints) => put_ints(alloc, out, choice, &ints[from..to]),
        LentCells::Texts(texts) => put_texts(alloc, out, choice, texts, from, to),
    }
}

/// The payload of some rows, in a kind that was chosen or given.
fn payload_of(
    alloc: Global,
    choice: &Choice,
    column: &Column,
    from: usize,
    to: usize,
) -> Result<Vec<u8>, EncodeFault>
    requires some { from < to }
    requires within { to ≤ length column.now.values }
    requires few { to - from ≤ row_group_rows }
    requires made { IsMadeOf (cells_for column.now.col_type (between from to column.now))
        choice.now.kind choice.now.dictionary }
    ensures block { IfOk result
        (λ bytes. is_block (block_of choice.now.kind column.now from to bytes.items) ≡ true) }
    ensures values { IfOk result
        (λ bytes. values_of (block_of choice.now.kind column.now from to bytes.items)
        ≡ between from to column.now) }
    ensures tight { IfOk result
        (λ bytes. is_tight (block_of choice.now.kind column.now from to bytes.items) ≡ true) }
    ensures size { IfOk result (λ bytes. length bytes.items
        ≡ payload_size choice.now.kind column.now.col_type column.now.nullable
        (between from to column.now)) }
    ensures fault { IfErr result (FaultOf choice.now.kind column.now.col_type) }
{
    let mut out = Vec::new(alloc);
    // No effect at run time. The proof reads from this call that each value fits the column.
    let _rows = column.len();
    put_nulls(&mut out, column, from, to)?;
    put_cells(alloc, &mut out, choice, column, from, to)?;
    Ok(out)
}

/// The rows from one on and up to another, 1 to 8,192 of them, as the payload of a block of a kind.
/// A frame of reference is refused on a text column; the only other error is out of memory.
pub fn encode_as(
    alloc: Global,
    kind: Kind,
    column: &Column,
    from: usize,
    to: usize,
) -> Result<Vec<u8>, EncodeFault>
    requires some { from < to }
    requires within { to ≤ length column.now.values }
    requires few { to - from ≤ row_group_rows }
    ensures block { IfOk result (λ bytes. is_block (block_of kind column.now from to bytes.items)
        ≡ true) }
    ensures values { IfOk result (λ bytes. values_of (block_of kind column.now from to bytes.items)
        ≡ between from to column.now) }
    ensures tight { IfOk result (λ bytes. is_tight (block_of kind column.now from to bytes.items)
        ≡ true) }
    ensures size { IfOk result (λ bytes. length bytes.items
        ≡ payload_size kind column.now.col_type column.now.nullable (between from to column.now)) }
    ensures fault { IfErr result (FaultOf kind column.now.col_type) }
{
    payload_of(alloc, &Choice::of_kind(kind), column, from, to)
}

/// The rows from one on and up to another, 1 to 8,192 of them, as the payload of a block of the
/// kind in which they take the fewest bytes; of equals the first in the order of the kinds. The
/// only error is out of memory.
pub fn encode(
    alloc: Global,
    column: &Column,
    from: usize,
    to: usize,
) -> Result<Encoded, EncodeFault>
    requires some { from < to }
    requires within { to ≤ length column.now.values }
    requires few { to - from ≤ row_group_rows }
    ensures chosen { IfOk result
        (λ e. is_chosen column.now.col_type column.now.nullable (between from to column.now) e.kind
        ≡ true) }
    ensures block { IfOk result (λ e. is_block (block_of e.kind column.now from to e.payload.items)
        ≡ true) }
    ensures values { IfOk result
        (λ e. values_of (block_of e.kind column.now from to e.payload.items)
        ≡ between from to column.now) }
    ensures tight { IfOk result (λ e. is_tight (block_of e.kind column.now from to e.payload.items)
        ≡ true) }
    ensures size { IfOk result (λ e. length e.payload.items
        ≡ payload_size e.kind column.now.col_type column.now.nullable
        (between from to column.now)) }
    ensures fault { IfErr result (λ f. f ≡ Memory) }
{
    let choice = choice_of(alloc, column, from, to)?;
    let kind = choice.kind;
    match payload_of(alloc, &choice, column, from, to) {
        Ok(payload) => {
            drop(choice);
            Ok(Encoded { kind, payload })
        }
        Err(fault) => {
            drop(choice);
            Err(fault)
        }
    }
}
