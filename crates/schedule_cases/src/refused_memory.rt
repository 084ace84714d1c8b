//! Cases about coordinators that are refused memory: what stood before stands then.
ghost use Rattle.std.specs.Prelude.{IfOk, IfSome};
ghost use Rattle.meaning.specs.SoundPlan.{IsSoundPlan};

use answer_cases::{NO_JOB, planned_job_of};
use case_files::{StoredFile, find, show_printed, words};
use gathering::{Gather, GatherFault};
use std::alloc::{AllocError, Global};
use std::fmt::Write;
use std::mem::drop;

// What is seen of a coordinator.
#[derive(Drop)]
struct Seen {
    state: Vec<u8>,
    preview: Vec<u8>,
    merges: u64,
}

fn look(alloc: Global, gather: &Gather) -> Result<Seen, GatherFault> {
    let state = gather.state_bytes(alloc)?;
    let mut preview = Vec::new(alloc);
    gather.preview(alloc, &mut preview)?;
    Ok(Seen {
        state,
        preview,
        merges: gather.merges(),
    })
}

fn look_or_refuse(alloc: Global, gather: &Gather) -> Result<Seen, AllocError> {
    match look(alloc, gather) {
        Ok(seen) => Ok(seen),
        Err(_) => Err(AllocError),
    }
}

fn are_same(one: &Seen, other: &Seen) -> bool {
    one.state.as_slice() == other.state.as_slice()
        && one.preview.as_slice() == other.preview.as_slice()
        && one.merges == other.merges
}

// What a coordinator takes: an answer's bytes, or all that another holds.
#[derive(Drop)]
enum Taken<'a> {
    Answer(&'a [u8]),
    Others(Gather),
}

fn take(alloc: Global, gather: &mut Gather, taken: &Taken<'_>) -> Result<(), GatherFault> {
    match taken {
        Taken::Answer(bytes) => {
            gather.absorb(alloc, bytes)?;
            Ok(())
        }
        Taken::Others(other) => gather.join(alloc, other),
    }
}

// Where memory is refused, all is as it was, and the next try has memory.
fn show_taking(
    alloc: Global,
    gather: &mut Gather,
    taken: &Taken<'_>,
    shown: &mut String,
) -> Result<(), AllocError> {
    let before = look_or_refuse(alloc, gather)?;
    if let Err(GatherFault::Memory) = take(alloc, gather, taken) {
        if !are_same(&before, &look_or_refuse(alloc, gather)?) {
            return shown.push_str("changed by a refusal\n");
        }
        if let Err(fault) = take(alloc, gather, taken) {
            return writeln!(shown, "refused {}", fault.number());
        }
    }
    writeln!(shown, "{} merged", gather.merges())
}

fn new_gather(
    alloc: Global,
    job: &[&str],
    files: &[StoredFile],
) -> Result<Option<Gather>, AllocError> {
    match planned_job_of(alloc, job, files)? {
        Some(job) => Ok(Some(Gather::new(alloc, job)?)),
        None => Ok(None),
    }
}

fn absorb_all(
    alloc: Global,
    gather: &mut Gather,
    paths: &[&str],
    files: &[StoredFile],
) -> Result<(), AllocError> {
    for path in paths {
        let bytes = find(files, path).unwrap_or(&[]);
        if let Err(GatherFault::Memory) = gather.absorb(alloc, bytes) {
            return Err(AllocError);
        }
    }
    Ok(())
}

// Another coordinator of the job, which has taken some files.
fn other(
    alloc: Global,
    job: &[&str],
    paths: &[&str],
    files: &[StoredFile],
) -> Result<Option<Gather>, AllocError> {
    match new_gather(alloc, job, files)? {
        Some(gather) => {
            let mut gather = gather;
            match absorb_all(alloc, &mut gather, paths, files) {
                Ok(()) => Ok(Some(gather)),
                Err(e) => {
                    drop(gather);
                    Err(e)
                }
            }
        }
        None => Ok(None),
    }
}

fn answer_of<'a>(path: &str, files: &'a [StoredFile]) -> Option<Taken<'a>> {
    Some(Taken::Answer(find(files, path)?))
}

fn others_of<'a>(
    alloc: Global,
    job: &[&str],
    paths: &[&str],
    files: &'a [StoredFile],
) -> Result<Option<Taken<'a>>, AllocError> {
    match other(alloc, job, paths, files)? {
        Some(other) => Ok(Some(Taken::Others(other))),
        None => Ok(None),
    }
}

fn taken_of<'a>(
    alloc: Global,
    job: &[&str],
    line: &str,
    files: &'a [StoredFile],
) -> Result<Option<Taken<'a>>, AllocError> {
    let words = words(alloc, line)?;
    let event: Vec<&str> = words.iter().map(|word| word.text.as_str()).collect(alloc)?;
    match event.as_slice() {
        ["absorb", path] => Ok(answer_of(path, files)),
        ["join", paths @ ..] => others_of(alloc, job, paths, files),
        _ => Ok(None),
    }
}

fn show_taken(
    alloc: Global,
    gather: &mut Gather,
    taken: Taken<'_>,
    shown: &mut String,
) -> Result<(), AllocError> {
    let result = show_taking(alloc, gather, &taken, shown);
    drop(taken);
    result
}

fn show_line(
    alloc: Global,
    job: &[&str],
    gather: &mut Gather,
    line: &str,
    files: &[StoredFile],
    shown: &mut String,
) -> Result<(), AllocError> {
    match taken_of(alloc, job, line, files) {
        Ok(Some(taken)) => show_taken(alloc, gather, taken, shown),
        Ok(None) => writeln!(shown, "(no event: {line})"),
        Err(fault) => Err(fault),
    }
}

fn show_preview(alloc: Global, gather: &Gather, shown: &mut String) -> Result<(), AllocError> {
    let seen = look_or_refuse(alloc, gather)?;
    show_printed(alloc, shown, "out", seen.preview.as_slice())
}

fn show_lines(
    alloc: Global,
    job: &[&str],
    gather: &mut Gather,
    lines: &str,
    files: &[StoredFile],
    shown: &mut String,
) -> Result<(), AllocError> {
    for line in lines.lines() {
        show_line(alloc, job, gather, line, files, shown)?;
    }
    show_preview(alloc, gather, shown)
}

/// How many groups a coordinator has merged behind each event, one event a line, and what it then
/// previews. An event that is refused memory is tried again, and `changed by a refusal` is shown
/// where the coordinator isn't as it was. The words name the job.
pub fn show_refused_memory(
    alloc: Global,
    job: &[&str],
    body: &str,
    files: &[StoredFile],
) -> Result<String, AllocError> {
    let mut shown = String::new(alloc);
    match new_gather(alloc, job, files)? {
        Some(gather) => {
            let mut gather = gather;
            let ended = show_lines(alloc, job, &mut gather, body, files, &mut shown);
            drop(gather);
            ended?;
        }
        None => shown.push_str(NO_JOB)?,
    }
    Ok(shown)
}
