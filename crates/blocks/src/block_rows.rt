//! Some rows of a block, read into a buffer.
ghost use Rattle.std.specs.Prelude.{◌≡◌, ◌+◌, ◌≤◌, length, map, take, drop, true};
ghost use Rattle.meaning.specs.Limits.{row_group_rows};
ghost use Rattle.meaning.specs.declared.value.Value.TheVariants.{Int, Text};
ghost use Rattle.blocks.specs.Block.{body_cells, is_block, is_body, values_of};
ghost use Rattle.blocks.specs.VectorBuf.{cells_in};
ghost use Rattle.meaning.specs.declared.value.ColType.TheVariants as of_type;

use crate::cells::mask_length;
use crate::dictionary::read::{read_coded_integers, read_coded_texts};
use crate::frame::read::read_frame;
use crate::int_buf::IntBuf;
use crate::kind::Kind;
use crate::plain::read::{read_plain_integers, read_plain_texts};
use crate::runs::read::{read_integer_runs, read_text_runs};
use crate::vector_buf::VectorBuf;
use bit_packing::read_nulls;
use meaning::ColType;

fn read_integers(kind: Kind, rows: usize, body: &[u8], from: usize, out: &mut [i64])
    requires body { is_body kind of_type.Int rows body.now ≡ true }
    requires few { rows ≤ row_group_rows }
    requires within { from + length out.old ≤ rows }
    ensures { map Int out.new
        ≡ take (length out.old) (drop from (body_cells kind of_type.Int rows body.now)) }
{
    match kind {
        Kind::Plain => read_plain_integers(rows, body, from, out),
        Kind::Dict => read_coded_integers(rows, body, from, out),
        Kind::Runs => read_integer_runs(rows, body, from, out),
        Kind::Frame => read_frame(rows, body, from, out),
    }
}

fn read_texts<'a>(kind: Kind, rows: usize, body: &'a [u8], from: usize, out: &mut [&'a [u8]])
    requires body { is_body kind of_type.Text rows body.now ≡ true }
    requires within { from + length out.old ≤ rows }
    ensures { map Text (map (λ t. t.now) out.new)
        ≡ take (length out.old) (drop from (body_cells kind of_type.Text rows body.now)) }
{
    match kind {
        Kind::Plain => read_plain_texts(rows, body, from, out),
        Kind::Dict => read_coded_texts(rows, body, from, out),
        Kind::Runs => read_text_runs(rows, body, from, out),
        Kind::Frame => {}
    }
}

/// Where the rows stand that are read: the block's parts, and which of its rows.
#[derive(Clone, Copy)]
struct Rows<'a> {
    kind: Kind,
    col_type: ColType,
    rows: usize,
    body: &'a [u8],
    from: usize,
    count: usize,
}

/// The cells of `count` rows, into the first of the cells of their type.
fn read_cells<'a>(part: Rows<'a>, ints: &mut [i64], texts: &mut [&'a [u8]])
    requires body { is_body part.kind part.col_type part.rows part.body.now ≡ true }
    requires few { part.rows ≤ row_group_rows }
    requires within { part.from + part.count ≤ part.rows }
    requires ints_room { part.col_type ≡ of_type.Int → part.count ≤ length ints.old }
    requires texts_room { part.col_type ≡ of_type.Text → part.count ≤ length texts.old }
    ensures { cells_in part.entry.col_type (take part.entry.count ints.new)
        (take part.entry.count (map (λ t. t.now) texts.new))
        ≡ take part.entry.count (drop part.entry.from
        (body_cells part.entry.kind part.entry.col_type part.entry.rows part.entry.body.now)) }
{
    match part.col_type {
        ColType::Int => read_integers(
            part.kind,
            part.rows,
            part.body,
            part.from,
            &mut ints[..part.count],
        ),
        ColType::Text => read_texts(
            part.kind,
            part.rows,
            part.body,
            part.from,
            &mut texts[..part.count],
        ),
    }
}

/// The bytes of a block, and what is known of it from elsewhere.
#[derive(Clone, Copy)]
pub struct Parts<'a> {
    pub kind: Kind,
    pub col_type: ColType,
    pub nullable: bool,
    pub rows: usize,
    pub payload: &'a [u8],
}

/// The values of a block from row `from` on, as many as there is room for. What was in the buffer
/// is gone, and its type is the block's.
pub fn read_rows<'a>(block: Parts<'a>, from: usize, out: &mut VectorBuf<'a>)
    requires block { is_block
        (record {
          kind = block.kind;
          col_type = block.col_type;
          nullable = block.nullable;
          rows = block.rows;
          payload = block.payload.now;
        }) ≡ true }
    ensures { out.new ≡ record {
      room = out.old.room;
      col_type = block.entry.col_type;
      values = take out.old.room (drop from
          (values_of (record {
            kind = block.entry.kind;
            col_type = block.entry.col_type;
            nullable = block.entry.nullable;
            rows = block.entry.rows;
            payload = block.entry.payload.now;
          })));
    } }
{
    let count = out.nulls.len().min(block.rows.saturating_sub(from));
    let (mask, body) = block
        .payload
        .split_at(mask_length(block.nullable, block.rows));
    let start = from.min(block.rows);
    read_nulls(block.nullable, mask, start, count, out.nulls.as_mut_slice());
    let part = Rows {
        kind: block.kind,
        col_type: block.col_type,
        rows: block.rows,
        body,
        from: start,
        count,
    };
    read_cells(part, out.ints.as_mut_slice(), out.texts.as_mut_slice());
    out.col_type = block.col_type;
    out.len = count;
}

/// The same of a block of integers.
pub fn read_ints(block: Parts<'_>, from: usize, out: &mut IntBuf)
    requires block { is_block
        (record {
          kind = block.kind;
          col_type = block.col_type;
          nullable = block.nullable;
          rows = block.rows;
          payload = block.payload.now;
        }) ≡ true }
    requires ints { block.col_type ≡ of_type.Int }
    ensures { out.new ≡ record {
      room = out.old.room;
      col_type = of_type.Int;
      values = take out.old.room (drop from
          (values_of (record {
            kind = block.entry.kind;
            col_type = block.entry.col_type;
            nullable = block.entry.nullable;
            rows = block.entry.rows;
            payload = block.entry.payload.now;
          })));
    } }
{
    let count = out.nulls.len().min(block.rows.saturating_sub(from));
    let (mask, body) = block
        .payload
        .split_at(mask_length(block.nullable, block.rows));
    let start = from.min(block.rows);
    read_nulls(block.nullable, mask, start, count, out.nulls.as_mut_slice());
    let part = Rows {
        kind: block.kind,
        col_type: block.col_type,
        rows: block.rows,
        body,
        from: start,
        count,
    };
    read_cells(part, out.ints.as_mut_slice(), &mut []);
    out.len = count;
}
