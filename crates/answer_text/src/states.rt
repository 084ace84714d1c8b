//! States of coordinators.
ghost use Rattle.std.specs.Prelude.{◌≡◌, ◌++◌, [], List, OnOk, codes, decimal, string_bytes};
ghost use Rattle.wire.specs.Reading.{repeat_at};
ghost use Rattle.answer_fields.specs.Fields.{shape_in};
ghost use Rattle.answer_fields.specs.LayoutReading.{body_at};
ghost use Rattle.answer_fields.specs.StateSpelling.{cell_at};
ghost use Rattle.meaning.specs.declared.answer.Cell.TheVariants.{One};
ghost use Rattle.meaning.specs.Said.{Cell};
ghost use Rattle.answer_text.specs.Reading.{IsSamePart, Shows, sealed_cells_at, shaped_cells_at, state_at};
ghost use Rattle.answer_text.specs.StateTexts.{AreListed, ShowsCell, ShowsCells, cells_text, first_state_line, fragments_text, held_state_text, held_text, shaped_cells_text, state_line};
ghost use Rattle.answer_text.specs.Texts.{where_groups};

use crate::body::show_body;
use crate::cursor::Cursor;
use crate::damage::{Stop, Wrong};
use crate::detail::Detail;
use crate::job_head::{put_head, put_shape, take_head, take_shape};
use crate::numbers::put_ranges;
use answer_fields::{Format, Shape};
use std::alloc::{AllocError, Global};
use std::mem::drop;

/// The fragments of which there is an answer, of which there is none, and whose answers differ.
#[derive(Drop)]
struct Fragments {
    held: Vec<u32>,
    missing: Vec<u32>,
    in_conflict: Vec<u32>,
}

impl Fragments {
    fn none(alloc: Global) -> Fragments
        ensures { AreListed result [] }
    {
        Fragments {
            held: Vec::new(alloc),
            missing: Vec::new(alloc),
            in_conflict: Vec::new(alloc),
        }
    }

    fn put(&self, out: &mut String) -> Result<(), AllocError>
        ensures { OnOk result ((cells : List Cell) → AreListed self.now cells
            → string_bytes out.new ≡ string_bytes out.old ++ fragments_text cells) }
    {
        put_ranges(out, "in", self.held.as_slice())?;
        put_ranges(out, "missing", self.missing.as_slice())?;
        put_ranges(out, "in conflict", self.in_conflict.as_slice())
    }
}

fn put_fragment(out: &mut String, fragment: u32) -> Result<(), AllocError>
    ensures { OnOk result (string_bytes out.new ≡ string_bytes out.old ++ (codes "fragment "
        ++ decimal fragment ++ codes ": ")) }
{
    write!(out, "fragment {fragment}: ")
}

/// Shows the answer that is held for a fragment, where its groups are asked for.
fn show_held(
    alloc: Global,
    cursor: &mut Cursor<'_>,
    shape: &Shape,
    fragment: u32,
    detail: Detail,
    out: &mut String,
) -> Result<(), Stop>
    ensures shown { Shows
        (λ body. where_groups detail (held_text (shape_in shape.now) fragment (One body))) result
        (string_bytes out.old) (string_bytes out.new) cursor.new.rest.now
        (body_at (shape_in shape.now) cursor.old.rest.now) }
    ensures part { IsSamePart cursor.old cursor.new }
{
    if detail != Detail::Groups {
        return show_body(alloc, cursor, shape, Detail::Nothing, out);
    }
    put_fragment(out, fragment)?;
    show_body(alloc, cursor, shape, Detail::Groups, out)
}

/// Reads what is held for a fragment.
#[tactic(auto, unfolding(answer_fields::specs::StateSpelling::cell_at, answer_fields::specs::StateSpelling::tagged_cell_at))]
fn show_cell(
    alloc: Global,
    cursor: &mut Cursor<'_>,
    shape: &Shape,
    fragment: u32,
    detail: Detail,
    fragments: &mut Fragments,
    out: &mut String,
) -> Result<(), Stop>
    ensures shown { ShowsCell detail (shape_in shape.now) fragment result fragments.old
        fragments.new (string_bytes out.old) (string_bytes out.new) cursor.new.rest.now
        (cell_at (shape_in shape.now) cursor.old.rest.now) }
    ensures part { IsSamePart cursor.old cursor.new }
{
    let field = "what is held for a fragment";
    match cursor.take_u8(field)? {
        0 => Ok(fragments.missing.push(fragment)?),
        1 => {
            show_held(alloc, cursor, shape, fragment, detail, out)?;
            Ok(fragments.held.push(fragment)?)
        }
        2 => Ok(fragments.in_conflict.push(fragment)?),
        _ => Err(cursor.refuse(Wrong::Unknown, field)),
    }
}

fn show_cells(
    alloc: Global,
    cursor: &mut Cursor<'_>,
    shape: &Shape,
    count: u32,
    detail: Detail,
    fragments: &mut Fragments,
    out: &mut String,
) -> Result<(), Stop>
    ensures shown { AreListed fragments.old [] → ShowsCells detail (shape_in shape.now) result
        fragments.new (string_bytes out.old) (string_bytes out.new) cursor.new.rest.now
        (repeat_at (cell_at (shape_in shape.now)) count cursor.old.rest.now) }
    ensures part { IsSamePart cursor.old cursor.new }
{
    for fragment in 0..count {
        show_cell(alloc, cursor, shape, fragment, detail, fragments, out)?;
    }
    Ok(())
}

/// Shows the cells, and which of them were read.
fn show_fragments(
    alloc: Global,
    cursor: &mut Cursor<'_>,
    shape: &Shape,
    count: u32,
    detail: Detail,
    out: &mut String,
) -> Result<(), Stop>
    ensures shown { Shows (cells_text detail (shape_in shape.now)) result (string_bytes out.old)
        (string_bytes out.new) cursor.new.rest.now
        (repeat_at (cell_at (shape_in shape.now)) count cursor.old.rest.now) }
    ensures part { IsSamePart cursor.old cursor.new }
{
    let mut fragments = Fragments::none(alloc);
    let shown = show_cells(alloc, cursor, shape, count, detail, &mut fragments, out);
    fragments.put(out)?;
    shown
}

/// Shows the shape of the groups and the cells, behind which the seal stands.
fn show_sealed(
    alloc: Global,
    cursor: &mut Cursor<'_>,
    shape: &Shape,
    count: u32,
    detail: Detail,
    out: &mut String,
) -> Result<(), Stop>
    ensures shown { Shows (λ cells. shaped_cells_text detail (shape_in shape.now, cells)) result
        (string_bytes out.old) (string_bytes out.new) cursor.new.rest.now
        (sealed_cells_at (shape_in shape.now) count cursor.old.bytes.now cursor.old.rest.now) }
    ensures part { IsSamePart cursor.old cursor.new }
{
    put_shape(out, shape)?;
    show_fragments(alloc, cursor, shape, count, detail, out)?;
    cursor.take_seal()
}

/// Shows the shape of the groups and the cells.
fn show_shaped(
    alloc: Global,
    cursor: &mut Cursor<'_>,
    format: Format,
    count: u32,
    detail: Detail,
    out: &mut String,
) -> Result<(), Stop>
    ensures shown { Shows (shaped_cells_text detail) result (string_bytes out.old)
        (string_bytes out.new) cursor.new.rest.now
        (shaped_cells_at format count cursor.old.bytes.now cursor.old.rest.now) }
    ensures part { IsSamePart cursor.old cursor.new }
{
    let shape = take_shape(alloc, cursor, format)?;
    let shown = show_sealed(alloc, cursor, &shape, count, detail, out);
    drop(shape);
    shown
}

fn put_numbered(out: &mut String, number: u8, size: usize) -> Result<(), AllocError>
    ensures { OnOk result (string_bytes out.new ≡ string_bytes out.old ++ state_line number size) }
{
    writeln!(out, "state in format {number}, {size} bytes")
}

/// Writes what a file is, in which format, and how many bytes it has.
fn put_first_line(out: &mut String, format: Format, size: usize) -> Result<(), AllocError>
    ensures { OnOk result (string_bytes out.new ≡ string_bytes out.old
        ++ first_state_line format size) }
{
    put_numbered(out, format.number(), size)
}

/// Shows a state in this format, behind its magic.
pub fn show_state(
    alloc: Global,
    cursor: &mut Cursor<'_>,
    format: Format,
    size: usize,
    detail: Detail,
    out: &mut String,
) -> Result<(), Stop>
    ensures shown { Shows (held_state_text detail size) result (string_bytes out.old)
        (string_bytes out.new) cursor.new.rest.now
        (state_at format cursor.old.bytes.now cursor.old.rest.now) }
    ensures part { IsSamePart cursor.old cursor.new }
{
    put_first_line(out, format, size)?;
    let head = take_head(cursor)?;
    put_head(out, &head)?;
    show_shaped(alloc, cursor, format, head.fragments, detail, out)
}
