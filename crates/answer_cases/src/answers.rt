//! Cases about the bytes of answers and states.
ghost use Rattle.partial_codec.specs.Answer.{Fits};
ghost use Rattle.partial_codec.specs.State.{FitsState};

use crate::jobs::{NO_JOB, shaped_job_of};
use aggregate_states::Group;
use case_files::bytes_of;
use meaning::{Answer, Body, Cell, Value, ValueRef};
use packed_groups::PackedGroups;
use partial_codec::{
    Content, DecodeFault, Format, Job, decode, decode_state, encode, encode_state,
};
use std::alloc::{AllocError, Global};
use std::fmt::Write;
use std::mem::drop;

const MAGIC_BYTES: usize = 4;

const SEAL_BYTES: usize = 32;

fn show_value(shown: &mut String, value: ValueRef<'_>) -> Result<(), AllocError> {
    match value {
        ValueRef::Null => shown.push_str("NULL"),
        ValueRef::Int(int) => write!(shown, "{int}"),
        ValueRef::Text(text) => match str::from_utf8(text) {
            Ok(text) => write!(shown, "'{text}'"),
            Err(_) => shown.push_str("(no UTF-8)"),
        },
    }
}

// A least or a greatest value, where one is kept.
fn show_extreme(shown: &mut String, name: &str, value: ValueRef<'_>) -> Result<(), AllocError> {
    match value {
        ValueRef::Null => Ok(()),
        value => {
            write!(shown, ", {name} ")?;
            show_value(shown, value)
        }
    }
}

// The entries of a set that has any.
fn show_entries(shown: &mut String, entries: &[Value]) -> Result<(), AllocError> {
    let mut between = ", entries ";
    for entry in entries {
        shown.push_str(between)?;
        show_value(shown, entry.as_value_ref())?;
        between = " ";
    }
    Ok(())
}

fn show_group(shown: &mut String, group: &Group) -> Result<(), AllocError> {
    for value in group.key().as_slice() {
        shown.push_str("key ")?;
        show_value(shown, value.as_value_ref())?;
        shown.push_str(", ")?;
    }
    write!(shown, "rows {}", group.rows())?;
    for state in group.states() {
        write!(shown, ", count {}, sum {}", state.count(), state.sum())?;
        show_extreme(shown, "least", state.least())?;
        show_extreme(shown, "greatest", state.greatest())?;
        show_entries(shown, state.entries())?;
    }
    shown.push_str("\n")
}

fn show_groups(shown: &mut String, groups: &[Group]) -> Result<(), AllocError> {
    for group in groups {
        show_group(shown, group)?;
    }
    Ok(())
}

fn show_body(
    alloc: Global,
    shown: &mut String,
    body: &Body<PackedGroups>,
) -> Result<(), AllocError> {
    match body {
        Body::Groups(groups) => {
            let unpacked = groups.unpack(alloc)?;
            let done = show_groups(shown, &unpacked);
            drop(unpacked);
            done
        }
        Body::Fault(fault) => writeln!(shown, "fault {} at row {}", fault.code, fault.row),
    }
}

fn show_cell(
    alloc: Global,
    shown: &mut String,
    cell: &Cell<PackedGroups>,
) -> Result<(), AllocError> {
    match cell {
        Cell::Nothing => shown.push_str("nothing\n"),
        Cell::One(body) => show_body(alloc, shown, body),
        Cell::Conflict => shown.push_str("conflict\n"),
    }
}

// What stands between the magic and the seal.
fn fields(bytes: &[u8]) -> &[u8] {
    if bytes.len() < MAGIC_BYTES + SEAL_BYTES {
        return bytes;
    }
    &bytes[MAGIC_BYTES..bytes.len() - SEAL_BYTES]
}

// Whether what was read is spelled in the newest format, with the same bytes where it was read in
// that format, and else with the same fields.
fn is_spelled_again(content: Content, read: &[u8], again: &[u8]) -> bool {
    let magic = Format::newest().magic(content);
    if read.starts_with(&magic) {
        return read == again;
    }
    again.starts_with(&magic) && fields(read) == fields(again)
}

fn show_spelling(
    shown: &mut String,
    content: Content,
    read: &[u8],
    again: &[u8],
) -> Result<(), AllocError> {
    if is_spelled_again(content, read, again) {
        writeln!(shown, "{} bytes", read.len())
    } else {
        shown.push_str("(spelled again it has other bytes)\n")
    }
}

fn show_refusal(alloc: Global, fault: &DecodeFault) -> Result<String, AllocError> {
    format!(in alloc; "refused {}\n", fault.number())
}

fn answer_lines(
    alloc: Global,
    job: &Job,
    answer: &Answer<PackedGroups>,
    bytes: &[u8],
) -> Result<String, AllocError>
    requires { Fits job.now answer.now }
{
    let again = encode(alloc, job, answer)?;
    let mut shown = String::new(alloc);
    writeln!(shown, "fragment {}", answer.k)?;
    show_body(alloc, &mut shown, &answer.body)?;
    show_spelling(&mut shown, Content::Answer, bytes, again.as_slice())?;
    Ok(shown)
}

fn decoded_answer(alloc: Global, job: &Job, bytes: &[u8]) -> Result<String, AllocError> {
    match decode(alloc, job, bytes) {
        Ok(answer) => {
            let shown = answer_lines(alloc, job, &answer, bytes);
            drop(answer);
            shown
        }
        Err(fault) => show_refusal(alloc, &fault),
    }
}

fn state_lines(
    alloc: Global,
    job: &Job,
    cells: &[Cell<PackedGroups>],
    bytes: &[u8],
) -> Result<String, AllocError>
    requires { FitsState job.now cells.now }
{
    let again = encode_state(alloc, job, cells)?;
    let mut shown = String::new(alloc);
    for cell in cells {
        show_cell(alloc, &mut shown, cell)?;
    }
    show_spelling(&mut shown, Content::State, bytes, again.as_slice())?;
    Ok(shown)
}

fn decoded_state(alloc: Global, job: &Job, bytes: &[u8]) -> Result<String, AllocError> {
    match decode_state(alloc, job, bytes) {
        Ok(cells) => {
            let shown = state_lines(alloc, job, &cells, bytes);
            drop(cells);
            shown
        }
        Err(fault) => show_refusal(alloc, &fault),
    }
}

/// What the bytes of the lines say for the job that the words name, as an answer or as a state.
fn show_bytes(
    alloc: Global,
    is_state: bool,
    words: &[&str],
    body: &str,
) -> Result<String, AllocError> {
    let Some(bytes) = bytes_of(alloc, body)? else {
        return String::from_str(alloc, "(a word spells no bytes)\n");
    };
    let Some(job) = shaped_job_of(alloc, words)? else {
        return String::from_str(alloc, NO_JOB);
    };
    let shown = if is_state {
        decoded_state(alloc, &job, bytes.as_slice())
    } else {
        decoded_answer(alloc, &job, bytes.as_slice())
    };
    drop(job);
    shown
}

/// What the bytes of the lines say as an answer for the job that the words name, and how many bytes
/// they are; or the number of the refusal.
pub fn show_answer(alloc: Global, words: &[&str], body: &str) -> Result<String, AllocError> {
    show_bytes(alloc, false, words, body)
}

/// What the bytes of the lines say as a coordinator's state for the job that the words name, and how
/// many bytes they are; or the number of the refusal.
pub fn show_state(alloc: Global, words: &[&str], body: &str) -> Result<String, AllocError> {
    show_bytes(alloc, true, words, body)
}
