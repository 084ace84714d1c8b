//! Answers.
ghost use Rattle.std.specs.Prelude.{◌≡◌, ◌++◌, OnOk, string_bytes};
ghost use Rattle.wire.specs.Reading.{number_at};
ghost use Rattle.answer_fields.specs.Fault.{from_wire};
ghost use Rattle.answer_fields.specs.Fields.{shape_in};
ghost use Rattle.answer_fields.specs.LayoutReading.{job_at};
ghost use Rattle.answer_text.specs.Reading.{IsSamePart, Shows, answer_at, from_fragment_at, sealed_body_at, shaped_at};
ghost use Rattle.answer_text.specs.Texts.{answer_text, first_line, fragment_line, job_text, numbered_line, shaped_text};

use crate::body::show_body;
use crate::cursor::Cursor;
use crate::damage::Stop;
use crate::detail::Detail;
use crate::job_head::{put_head, put_shape, take_head, take_shape};
use answer_fields::{Format, Shape};
use std::alloc::{AllocError, Global};
use std::mem::drop;

fn put_numbered(out: &mut String, number: u8, size: usize) -> Result<(), AllocError>
    ensures { OnOk result (string_bytes out.new ≡ string_bytes out.old
        ++ numbered_line number size) }
{
    writeln!(out, "answer in format {number}, {size} bytes")
}

/// Writes what a file is, in which format, and how many bytes it has.
fn put_first_line(out: &mut String, format: Format, size: usize) -> Result<(), AllocError>
    ensures { OnOk result (string_bytes out.new ≡ string_bytes out.old ++ first_line format size) }
{
    put_numbered(out, format.number(), size)
}

/// Shows load, query and cut.
pub fn show_job(cursor: &mut Cursor<'_>, out: &mut String) -> Result<(), Stop>
    ensures shown { Shows job_text result (string_bytes out.old) (string_bytes out.new)
        cursor.new.rest.now (job_at cursor.old.rest.now) }
    ensures part { IsSamePart cursor.old cursor.new }
{
    let job = take_head(cursor)?;
    put_head(out, &job)?;
    Ok(())
}

fn put_fragment(out: &mut String, fragment: u32) -> Result<(), AllocError>
    ensures { OnOk result (string_bytes out.new ≡ string_bytes out.old ++ fragment_line fragment) }
{
    writeln!(out, "fragment {fragment}")
}

/// Shows the shape of the groups and the body, behind which the seal stands.
fn show_sealed(
    alloc: Global,
    cursor: &mut Cursor<'_>,
    shape: &Shape,
    detail: Detail,
    out: &mut String,
) -> Result<(), Stop>
    ensures shown { Shows (λ body. shaped_text detail (shape_in shape.now, body)) result
        (string_bytes out.old) (string_bytes out.new) cursor.new.rest.now
        (sealed_body_at (shape_in shape.now) cursor.old.bytes.now cursor.old.rest.now) }
    ensures part { IsSamePart cursor.old cursor.new }
{
    put_shape(out, shape)?;
    show_body(alloc, cursor, shape, detail, out)?;
    cursor.take_seal()
}

/// Shows the shape of the groups and the body.
fn show_shaped(
    alloc: Global,
    cursor: &mut Cursor<'_>,
    format: Format,
    detail: Detail,
    out: &mut String,
) -> Result<(), Stop>
    ensures shown { Shows (shaped_text detail) result (string_bytes out.old)
        (string_bytes out.new) cursor.new.rest.now
        (shaped_at format cursor.old.bytes.now cursor.old.rest.now) }
    ensures part { IsSamePart cursor.old cursor.new }
{
    let shape = take_shape(alloc, cursor, format)?;
    let shown = show_sealed(alloc, cursor, &shape, detail, out);
    drop(shape);
    shown
}

/// Shows the fragment, and what stands behind it.
fn show_from_fragment(
    alloc: Global,
    cursor: &mut Cursor<'_>,
    format: Format,
    detail: Detail,
    out: &mut String,
) -> Result<(), Stop>
    ensures shown { Shows (λ p. fragment_line p.0 ++ shaped_text detail p.1) result
        (string_bytes out.old) (string_bytes out.new) cursor.new.rest.now
        (from_fragment_at format cursor.old.bytes.now cursor.old.rest.now) }
    ensures part { IsSamePart cursor.old cursor.new }
{
    let fragment = cursor.take_u32("the fragment")?;
    put_fragment(out, fragment)?;
    show_shaped(alloc, cursor, format, detail, out)
}

/// Shows an answer in this format, behind its magic.
pub fn show_answer(
    alloc: Global,
    cursor: &mut Cursor<'_>,
    format: Format,
    size: usize,
    detail: Detail,
    out: &mut String,
) -> Result<(), Stop>
    ensures shown { Shows (answer_text detail size) result (string_bytes out.old)
        (string_bytes out.new) cursor.new.rest.now
        (answer_at format cursor.old.bytes.now cursor.old.rest.now) }
    ensures part { IsSamePart cursor.old cursor.new }
{
    put_first_line(out, format, size)?;
    show_job(cursor, out)?;
    show_from_fragment(alloc, cursor, format, detail, out)
}
