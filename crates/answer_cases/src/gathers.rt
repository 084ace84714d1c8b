//! Cases about coordinators: what each event does and what is printed.
ghost use Rattle.std.specs.Prelude.{◌≡◌, IfOk, IfSome, length};
ghost use Rattle.meaning.specs.SoundPlan.{IsSoundPlan};

use crate::failing_writers::show_failing;
use crate::jobs::{NO_JOB, job_of};
use case_files::{StoredFile, find, show_printed, words};
use gathering::{Absorbed, Gather, GatherFault, Report};
use partial_codec::Job;
use std::alloc::{AllocError, Global};
use std::fmt::Write;
use std::mem;
use std::mem::drop;

pub fn show_refusal(shown: &mut String, fault: &GatherFault) -> Result<(), AllocError> {
    writeln!(shown, "refused {}", fault.number())
}

fn show_fragments(shown: &mut String, word: &str, fragments: &[u32]) -> Result<(), AllocError> {
    shown.push_str(word)?;
    for fragment in fragments {
        write!(shown, " {fragment}")?;
    }
    shown.push_str("\n")
}

// ---- events of a coordinator

fn absorb(
    alloc: Global,
    gather: &mut Gather,
    bytes: &[u8],
    shown: &mut String,
) -> Result<(), AllocError> {
    match gather.absorb(alloc, bytes) {
        Ok(Absorbed::New) => shown.push_str("new\n"),
        Ok(Absorbed::Known) => shown.push_str("known\n"),
        Ok(Absorbed::Conflict { fragment }) => writeln!(shown, "conflict {fragment}"),
        Err(fault) => show_refusal(shown, &fault),
    }
}

fn show_report(shown: &mut String, report: &Report) -> Result<(), AllocError> {
    match report {
        Report::Conflict(fragments) => show_fragments(shown, "conflict", fragments.as_slice()),
        Report::Missing(fragments) => show_fragments(shown, "missing", fragments.as_slice()),
        Report::Fault => shown.push_str("fault\n"),
        Report::Rows => shown.push_str("rows\n"),
    }
}

fn report(alloc: Global, gather: &Gather, shown: &mut String) -> Result<(), AllocError> {
    match gather.report(alloc) {
        Ok(report) => show_report(shown, &report),
        Err(fault) => show_refusal(shown, &fault),
    }
}

pub fn show_printed_report(
    alloc: Global,
    gather: &Gather,
    shown: &mut String,
) -> Result<(), AllocError> {
    let mut out = Vec::new(alloc);
    match gather.print_report(alloc, &mut out) {
        Ok(_) => show_printed(alloc, shown, "out", out.as_slice()),
        Err(fault) => show_refusal(shown, &fault),
    }
}

fn preview(alloc: Global, gather: &Gather, shown: &mut String) -> Result<(), AllocError> {
    let mut out = Vec::new(alloc);
    match gather.preview(alloc, &mut out) {
        Ok(_) => show_printed(alloc, shown, "out", out.as_slice()),
        Err(fault) => show_refusal(shown, &fault),
    }
}

fn save(
    alloc: Global,
    gather: &Gather,
    path: &str,
    files: &mut Vec<StoredFile>,
    shown: &mut String,
) -> Result<(), AllocError> {
    match gather.state_bytes(alloc) {
        Ok(bytes) => {
            let path = String::from_str(alloc, path)?;
            writeln!(shown, "{} bytes", bytes.len())?;
            files.push(StoredFile { path, bytes })?;
            Ok(())
        }
        Err(fault) => show_refusal(shown, &fault),
    }
}

fn compare(
    alloc: Global,
    gather: &Gather,
    state: &[u8],
    shown: &mut String,
) -> Result<(), AllocError> {
    match gather.state_bytes(alloc) {
        Ok(bytes) if bytes.as_slice() == state => shown.push_str("equal\n"),
        Ok(_) => shown.push_str("unequal\n"),
        Err(fault) => show_refusal(shown, &fault),
    }
}

fn join(
    alloc: Global,
    gather: &mut Gather,
    other: &Gather,
    shown: &mut String,
) -> Result<(), AllocError> {
    match gather.join(alloc, other) {
        Ok(()) => shown.push_str("joined\n"),
        Err(fault) => show_refusal(shown, &fault),
    }
}

// ---- other coordinators

// A coordinator of a job: one that has taken nothing, or one that holds what a state spells.
fn started(alloc: Global, job: Job, state: Option<&[u8]>) -> Result<Gather, GatherFault>
    requires { IsSoundPlan job.plan }
{
    match state {
        Some(bytes) => Gather::from_state(alloc, job, bytes),
        None => Ok(Gather::new(alloc, job)?),
    }
}

// Where a coordinator begins: the words of its job, and what it holds.
#[derive(Clone, Copy)]
struct Origin<'a> {
    job: &'a [&'a str],
    state: Option<&'a [u8]>,
}

fn start(
    alloc: Global,
    origin: Origin<'_>,
    shown: &mut String,
) -> Result<Option<Gather>, AllocError> {
    let Some(job) = job_of(alloc, origin.job)? else {
        shown.push_str(NO_JOB)?;
        return Ok(None);
    };
    match started(alloc, job, origin.state) {
        Ok(gather) => Ok(Some(gather)),
        Err(fault) => {
            show_refusal(shown, &fault)?;
            Ok(None)
        }
    }
}

fn join_other(
    alloc: Global,
    gather: &mut Gather,
    other: Origin<'_>,
    shown: &mut String,
) -> Result<(), AllocError> {
    match start(alloc, other, shown) {
        Ok(Some(other)) => {
            let joined = join(alloc, gather, &other, shown);
            drop(other);
            joined
        }
        Ok(None) => Ok(()),
        Err(e) => Err(e),
    }
}

fn put(gather: &mut Gather, other: Gather) {
    let before = mem::replace(gather, other);
    drop(before);
}

fn restart(
    alloc: Global,
    gather: &mut Gather,
    other: Origin<'_>,
    shown: &mut String,
) -> Result<(), AllocError> {
    match start(alloc, other, shown) {
        Ok(Some(other)) => {
            put(gather, other);
            shown.push_str("started\n")
        }
        Ok(None) => Ok(()),
        Err(e) => Err(e),
    }
}

// ---- lines

fn show_unknown(shown: &mut String, event: &[&str]) -> Result<(), AllocError> {
    writeln!(shown, "(no event: {})", event.first().unwrap_or(&""))
}

// An event that names no file.
fn show_bare(
    alloc: Global,
    job: &[&str],
    gather: &mut Gather,
    event: &[&str],
    shown: &mut String,
) -> Result<(), AllocError> {
    match event {
        ["new"] => restart(alloc, gather, Origin { job, state: None }, shown),
        ["report"] => report(alloc, gather, shown),
        ["print"] => show_printed_report(alloc, gather, shown),
        ["preview"] => preview(alloc, gather, shown),
        ["print-failing"] => show_failing(alloc, gather, false, shown),
        ["preview-failing"] => show_failing(alloc, gather, true, shown),
        ["merges"] => writeln!(shown, "{} merged", gather.merges()),
        ["join-new", job @ ..] => join_other(alloc, gather, Origin { job, state: None }, shown),
        _ => show_unknown(shown, event),
    }
}

fn show_of_file(
    alloc: Global,
    job: &[&str],
    gather: &mut Gather,
    event: &[&str],
    bytes: &[u8],
    shown: &mut String,
) -> Result<(), AllocError> {
    let state = Some(bytes);
    match event {
        ["absorb", _] => absorb(alloc, gather, bytes, shown),
        ["restart", _] => restart(alloc, gather, Origin { job, state }, shown),
        ["restart", _, job @ ..] => restart(alloc, gather, Origin { job, state }, shown),
        ["join", _] => join_other(alloc, gather, Origin { job, state }, shown),
        ["compare", _] => compare(alloc, gather, bytes, shown),
        _ => show_unknown(shown, event),
    }
}

fn show_event(
    alloc: Global,
    job: &[&str],
    gather: &mut Gather,
    event: &[&str],
    files: &mut Vec<StoredFile>,
    shown: &mut String,
) -> Result<(), AllocError> {
    if let ["save", path] = event {
        return save(alloc, gather, path, files, shown);
    }
    match event {
        [_, path, ..] => match find(files.as_slice(), path) {
            Some(bytes) => show_of_file(alloc, job, gather, event, bytes, shown),
            None => show_bare(alloc, job, gather, event, shown),
        },
        _ => show_bare(alloc, job, gather, event, shown),
    }
}

fn show_line(
    alloc: Global,
    job: &[&str],
    gather: &mut Gather,
    line: &str,
    files: &mut Vec<StoredFile>,
    shown: &mut String,
) -> Result<(), AllocError> {
    let words = words(alloc, line)?;
    let event: Vec<&str> = words.iter().map(|word| word.text.as_str()).collect(alloc)?;
    show_event(alloc, job, gather, event.as_slice(), files, shown)
}

fn show_lines(
    alloc: Global,
    job: &[&str],
    gather: &mut Gather,
    lines: &str,
    files: &mut Vec<StoredFile>,
    shown: &mut String,
) -> Result<(), AllocError> {
    for line in lines.lines() {
        show_line(alloc, job, gather, line, files, shown)?;
    }
    Ok(())
}

/// What comes of each event of a coordinator of the job that the words name, one event a line.
pub fn show_gathering(
    alloc: Global,
    job: &[&str],
    body: &str,
    files: &mut Vec<StoredFile>,
) -> Result<String, AllocError> {
    let mut shown = String::new(alloc);
    if let Some(gather) = start(alloc, Origin { job, state: None }, &mut shown)? {
        let mut gather = gather;
        let ended = show_lines(alloc, job, &mut gather, body, files, &mut shown);
        drop(gather);
        ended?;
    }
    Ok(shown)
}
