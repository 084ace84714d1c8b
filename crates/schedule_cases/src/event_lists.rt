//! Cases about coordinators through a list of events.
ghost use Rattle.meaning.specs.SoundPlan.{IsSoundPlan};

use answer_cases::{NO_JOB, planned_job_of, show_printed_report, show_refusal};
use case_files::{StoredFile, find, words};
use gathering::Gather;
use partial_codec::Job;
use schedules::{Event, run_world};
use std::alloc::{AllocError, Global};
use std::fmt::Write;

fn post(alloc: Global, files: &[StoredFile], path: &str) -> Result<Option<Event>, AllocError> {
    match find(files, path) {
        Some(bytes) => Ok(Some(Event::Post(bytes.to_vec(alloc)?))),
        None => Ok(None),
    }
}

fn take(to: &str, packet: &str) -> Option<Event> {
    Some(Event::Take {
        to: to.parse::<usize>().ok()?,
        packet: packet.parse::<usize>().ok()?,
    })
}

fn event_of(
    alloc: Global,
    event: &[&str],
    files: &[StoredFile],
) -> Result<Option<Event>, AllocError> {
    match event {
        ["post", path] => post(alloc, files, path),
        ["share", i] => Ok(i.parse::<usize>().ok().map(Event::Share)),
        ["take", to, "of", packet] => Ok(take(to, packet)),
        ["save", i] => Ok(i.parse::<usize>().ok().map(Event::Save)),
        ["restart", i] => Ok(i.parse::<usize>().ok().map(Event::Restart)),
        _ => Ok(None),
    }
}

fn event_in(alloc: Global, line: &str, files: &[StoredFile]) -> Result<Option<Event>, AllocError> {
    let words = words(alloc, line)?;
    let event: Vec<&str> = words.iter().map(|word| word.text.as_str()).collect(alloc)?;
    event_of(alloc, event.as_slice(), files)
}

// The events of the lines, or the first line that is none.
fn events_in<'a>(
    alloc: Global,
    lines: &'a str,
    files: &[StoredFile],
) -> Result<Result<Vec<Event>, &'a str>, AllocError> {
    let mut events = Vec::new(alloc);
    for line in lines.lines() {
        match event_in(alloc, line, files)? {
            Some(event) => events.push(event)?,
            None => return Ok(Err(line)),
        }
    }
    Ok(Ok(events))
}

fn show_each(alloc: Global, gathers: &[Gather], shown: &mut String) -> Result<(), AllocError> {
    for (i, gather) in gathers.iter().enumerate() {
        writeln!(shown, "coordinator {i}")?;
        show_printed_report(alloc, gather, shown)?;
    }
    Ok(())
}

fn show_run(
    alloc: Global,
    job: Job,
    n: usize,
    events: &[Event],
    shown: &mut String,
) -> Result<(), AllocError>
    requires { IsSoundPlan job.plan }
{
    match run_world(alloc, job, n, events) {
        Ok(gathers) => show_each(alloc, gathers.as_slice(), shown),
        Err(fault) => show_refusal(shown, &fault),
    }
}

/// What coordinators print behind a list of events, one event a line. The words say how many
/// coordinators there are, and their job.
pub fn show_schedule(
    alloc: Global,
    words: &[&str],
    body: &str,
    files: &[StoredFile],
) -> Result<String, AllocError> {
    let mut shown = String::new(alloc);
    let [n, job @ ..] = words else {
        return String::from_str(alloc, NO_JOB);
    };
    let Ok(n) = n.parse::<usize>() else {
        return String::from_str(alloc, NO_JOB);
    };
    match events_in(alloc, body, files)? {
        Ok(events) => match planned_job_of(alloc, job, files)? {
            Some(job) => show_run(alloc, job, n, events.as_slice(), &mut shown)?,
            None => shown.push_str(NO_JOB)?,
        },
        Err(line) => writeln!(shown, "(no event: {line})")?,
    }
    Ok(shown)
}
