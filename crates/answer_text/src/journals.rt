//! Journals of coordinators.
ghost use Rattle.std.specs.Prelude.{◌≡◌, ◌++◌, OnOk, codes, decimal, string_bytes};
ghost use Rattle.answer_fields.specs.Fields.{AreJobFields, shape_in};
ghost use Rattle.answer_fields.specs.Format as formats;
ghost use Rattle.answer_fields.specs.LayoutReading.{JobFields as Fields, laid_out};
ghost use Rattle.answer_fields.specs.declared.format.Content.TheVariants as content;
ghost use Rattle.answer_text.specs.Journals.{ShowsGate, behind_text, first_text, gate_at, gate_text, gates_at, gates_text, journal_at, journal_line, journal_text, record_answer_text, record_at, record_line, record_text, whole_answer_at};
ghost use Rattle.answer_text.specs.Reading.{IsSamePart, Shows, Takes, from_fragment_at, sealed_body_at, shaped_at};

use crate::body::show_body;
use crate::cursor::Cursor;
use crate::damage::{Stop, Wrong};
use crate::detail::Detail;
use crate::job_head::{put_head, put_shape, take_head, take_shape};
use answer_fields::{Content, Format, JobFields, Shape, format_in};
use std::alloc::{AllocError, Global};
use std::mem::drop;

/// The most records that a journal has.
const MOST_RECORDS: u32 = 1 << 20;

/// Which record it is, where the bytes of its answer begin in the file, and how many they are.
#[derive(Clone, Copy, Drop)]
struct Place {
    number: u32,
    at: usize,
    size: usize,
}

/// What stands before the shape of a record's answer.
#[derive(Drop)]
struct AnswerHead<'a> {
    place: Place,
    format: Format,
    job: &'a JobFields<'a>,
    fragment: u32,
}

/// Shows what the job is, where this is the first record.
fn put_job(
    out: &mut String,
    number: u32,
    job: &JobFields<'_>,
    shape: &Shape,
) -> Result<(), AllocError>
    ensures { OnOk result ((read : Fields) → AreJobFields job.now read
        → string_bytes out.new ≡ string_bytes out.old
        ++ first_text number read (shape_in shape.now)) }
{
    if number != 0 {
        return Ok(());
    }
    put_head(out, job)?;
    put_shape(out, shape)
}

fn put_numbered(out: &mut String, place: Place, format: u8, fragment: u32) -> Result<(), AllocError>
    ensures { OnOk result (string_bytes out.new ≡ string_bytes out.old
        ++ record_line place.number place.at place.size format fragment) }
{
    let number = place.number;
    let at = place.at;
    let size = place.size;
    write!(
        out,
        "record {number} at byte {at}, {size} bytes in format {format}, fragment {fragment}: "
    )
}

/// Writes which record it is, where it is and of which fragment.
fn put_record(
    out: &mut String,
    place: Place,
    format: Format,
    fragment: u32,
) -> Result<(), AllocError>
    ensures { OnOk result (string_bytes out.new ≡ string_bytes out.old
        ++ record_line place.number place.at place.size (formats.number format) fragment) }
{
    put_numbered(out, place, format.number(), fragment)
}

/// Shows the body of a record's answer, behind which the seal stands.
fn show_sealed(
    alloc: Global,
    cursor: &mut Cursor<'_>,
    head: &AnswerHead<'_>,
    shape: &Shape,
    detail: Detail,
    out: &mut String,
) -> Result<(), Stop>
    ensures shown { (read : Fields) → AreJobFields head.now.job.now read → Shows
        (λ body. record_answer_text detail head.now.place.number head.now.place.at
        head.now.place.size
        (laid_out head.now.format read head.now.fragment (shape_in shape.now) body)) result
        (string_bytes out.old) (string_bytes out.new) cursor.new.rest.now
        (sealed_body_at (shape_in shape.now) cursor.old.bytes.now cursor.old.rest.now) }
    ensures part { IsSamePart cursor.old cursor.new }
{
    put_job(out, head.place.number, head.job, shape)?;
    put_record(out, head.place, head.format, head.fragment)?;
    show_body(alloc, cursor, shape, detail, out)?;
    cursor.take_seal()
}

/// Shows a record's answer from its shape on.
fn show_shaped(
    alloc: Global,
    cursor: &mut Cursor<'_>,
    head: &AnswerHead<'_>,
    detail: Detail,
    out: &mut String,
) -> Result<(), Stop>
    ensures shown { (read : Fields) → AreJobFields head.now.job.now read → Shows
        (λ p. record_answer_text detail head.now.place.number head.now.place.at
        head.now.place.size (laid_out head.now.format read head.now.fragment p.0 p.1)) result
        (string_bytes out.old) (string_bytes out.new) cursor.new.rest.now
        (shaped_at head.now.format cursor.old.bytes.now cursor.old.rest.now) }
    ensures part { IsSamePart cursor.old cursor.new }
{
    let shape = take_shape(alloc, cursor, head.format)?;
    let shown = show_sealed(alloc, cursor, head, &shape, detail, out);
    drop(shape);
    shown
}

/// Shows a record's answer from its fragment on.
fn show_from_fragment(
    alloc: Global,
    cursor: &mut Cursor<'_>,
    place: Place,
    format: Format,
    job: &JobFields<'_>,
    detail: Detail,
    out: &mut String,
) -> Result<(), Stop>
    ensures shown { (read : Fields) → AreJobFields job.now read → Shows
        (λ b. record_answer_text detail place.number place.at place.size
        (laid_out format read b.0 b.1.0 b.1.1)) result
        (string_bytes out.old) (string_bytes out.new) cursor.new.rest.now
        (from_fragment_at format cursor.old.bytes.now cursor.old.rest.now) }
    ensures part { IsSamePart cursor.old cursor.new }
{
    let fragment = cursor.take_u32("the fragment")?;
    let head = AnswerHead {
        place,
        format,
        job,
        fragment,
    };
    show_shaped(alloc, cursor, &head, detail, out)
}

/// The format of an answer, which its magic says.
#[tactic(auto, unfolding(answer_fields::specs::Format::format_at))]
fn take_format(cursor: &mut Cursor<'_>) -> Result<Format, Stop>
    ensures read { Takes (λ f. f) result cursor.new.rest.now
        (formats.format_at content.Answer cursor.old.rest.now) }
    ensures part { IsSamePart cursor.old cursor.new }
{
    let field = "the magic of an answer";
    let magic = cursor.take_bytes(4, field)?;
    match format_in(Content::Answer, magic) {
        Some(format) => Ok(format),
        None => Err(cursor.refuse(Wrong::OtherMagic, field)),
    }
}

/// Shows the answer of a record, whose bytes are the cursor's.
fn show_answer_of(
    alloc: Global,
    cursor: &mut Cursor<'_>,
    place: Place,
    detail: Detail,
    out: &mut String,
) -> Result<(), Stop>
    requires whole { cursor.old.rest.now ≡ cursor.old.bytes.now }
    ensures shown { Shows (record_answer_text detail place.number place.at place.size) result
        (string_bytes out.old) (string_bytes out.new) cursor.new.rest.now
        (whole_answer_at cursor.old.bytes.now) }
{
    let format = take_format(cursor)?;
    let job = take_head(cursor)?;
    show_from_fragment(alloc, cursor, place, format, &job, detail, out)
}

/// Shows the record behind an open gate.
fn show_record(
    alloc: Global,
    cursor: &mut Cursor<'_>,
    number: u32,
    detail: Detail,
    out: &mut String,
) -> Result<(), Stop>
    ensures shown { Shows (record_text detail cursor.old.first number) result
        (string_bytes out.old) (string_bytes out.new) cursor.new.rest.now
        (record_at cursor.old.bytes.now cursor.old.rest.now) }
    ensures part { IsSamePart cursor.old cursor.new }
{
    let length = cursor.take_u32("the length of a record")?;
    let at = cursor.at();
    let bytes = cursor.take_bytes(length as usize, "a record")?;
    let size = bytes.len();
    let mut answer = Cursor::new(at, bytes);
    show_answer_of(alloc, &mut answer, Place { number, at, size }, detail, out)
}

fn put_behind(out: &mut String, behind: usize) -> Result<(), AllocError>
    ensures { OnOk result (string_bytes out.new ≡ string_bytes out.old ++ behind_text behind) }
{
    if behind == 0 {
        return Ok(());
    }
    writeln!(out, "{behind} bytes behind it, which count for nothing")
}

fn put_gate_line(out: &mut String, at: usize) -> Result<(), AllocError>
    ensures { OnOk result (string_bytes out.new ≡ string_bytes out.old ++ (codes "closed gate at byte "
        ++ decimal at ++ codes "\n")) }
{
    writeln!(out, "closed gate at byte {at}")
}

/// Shows the closed gate, which ends the records, and how many bytes stand behind it.
fn put_gate(out: &mut String, at: usize, behind: usize) -> Result<(), AllocError>
    ensures { OnOk result (string_bytes out.new ≡ string_bytes out.old ++ gate_text at behind) }
{
    put_gate_line(out, at)?;
    put_behind(out, behind)
}

fn take_gate(cursor: &mut Cursor<'_>) -> Result<u8, Stop>
    ensures read { Takes (λ n. n) result cursor.new.rest.now (gate_at cursor.old.rest.now) }
    ensures part { IsSamePart cursor.old cursor.new }
{
    let field = "a gate";
    match cursor.take_u8(field) {
        Ok(gate) => Ok(gate),
        Err(Stop::Memory) => Err(Stop::Memory),
        Err(Stop::Damaged(_)) => Err(cursor.refuse(Wrong::NoGate, field)),
    }
}

/// Shows the record behind a gate, or the gate where it is the closed one; and whether it is.
fn show_gate(
    alloc: Global,
    cursor: &mut Cursor<'_>,
    number: u32,
    detail: Detail,
    out: &mut String,
) -> Result<bool, Stop>
    ensures shown { ShowsGate detail cursor.old.first number cursor.old.bytes.now result
        (string_bytes out.old) (string_bytes out.new) cursor.old.rest.now cursor.new.rest.now }
    ensures part { IsSamePart cursor.old cursor.new }
{
    let at = cursor.at();
    if take_gate(cursor)? == 0 {
        put_gate(out, at, cursor.left())?;
        return Ok(true);
    }
    show_record(alloc, cursor, number, detail, out)?;
    Ok(false)
}

/// Shows records up to the closed gate, which is one of so many gates.
fn show_gates(
    alloc: Global,
    cursor: &mut Cursor<'_>,
    many: u32,
    detail: Detail,
    out: &mut String,
) -> Result<(), Stop>
    ensures shown { Shows (gates_text detail cursor.old.first) result
        (string_bytes out.old) (string_bytes out.new) cursor.new.rest.now
        (gates_at cursor.old.bytes.now many cursor.old.rest.now) }
    ensures part { IsSamePart cursor.old cursor.new }
{
    for number in 0..many {
        if show_gate(alloc, cursor, number, detail, out)? {
            return Ok(());
        }
    }
    Err(cursor.refuse(Wrong::NoGate, "the records"))
}

fn put_journal_line(out: &mut String, size: usize) -> Result<(), AllocError>
    ensures { OnOk result (string_bytes out.new ≡ string_bytes out.old ++ journal_line size) }
{
    writeln!(out, "journal, {size} bytes")
}

/// Shows a journal, behind its magic.
pub fn show_journal(
    alloc: Global,
    cursor: &mut Cursor<'_>,
    size: usize,
    detail: Detail,
    out: &mut String,
) -> Result<(), Stop>
    ensures shown { Shows (journal_text detail cursor.old.first size) result
        (string_bytes out.old) (string_bytes out.new) cursor.new.rest.now
        (journal_at cursor.old.bytes.now cursor.old.rest.now) }
    ensures part { IsSamePart cursor.old cursor.new }
{
    put_journal_line(out, size)?;
    show_gates(alloc, cursor, MOST_RECORDS + 1, detail, out)
}
