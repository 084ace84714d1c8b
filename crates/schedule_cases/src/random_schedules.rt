//! Cases about coordinators through random lists of events, held against plain sets of answers.
ghost use Rattle.meaning.specs.SoundPlan.{IsSoundPlan};

use crate::accounts::{Account, Files, Numbers, event_of, next_step};
use answer_cases::planned_job_of;
use case_files::{StoredFile, find};
use gathering::{Gather, GatherFault};
use partial_codec::Job;
use schedules::{Event, run_world};
use std::alloc::{AllocError, Global};
use std::fmt::Write;
use std::mem::drop;

// The lists' first number, from which each list's generator begins.
const SEED: u64 = 0x9e37_79b9_7f4a_7c15;

/// How many lists of how many events, and of how many coordinators.
#[derive(Clone, Copy)]
struct Size {
    lists: usize,
    events: usize,
    coordinators: usize,
}

/// What is asked of coordinators: the words of their job, the files of its case, and those of them
/// that are posted.
#[derive(Clone, Copy)]
struct Asked<'a> {
    job: &'a [&'a str],
    stored: &'a [StoredFile],
    posted: &'a [&'a [u8]],
}

fn size_of(lists: &str, events: &str, coordinators: &str) -> Option<Size> {
    Some(Size {
        lists: lists.parse::<usize>().ok()?,
        events: events.parse::<usize>().ok()?,
        coordinators: coordinators.parse::<usize>().ok()?,
    })
}

fn run_steps(
    alloc: Global,
    numbers: &mut Numbers,
    size: Size,
    files: &[&[u8]],
    account: &mut Account,
) -> Result<Vec<Event>, AllocError> {
    let mut events = Vec::new(alloc);
    for _ in 0..size.events {
        let step = next_step(numbers, account, files.len());
        events.push(event_of(alloc, step, files)?)?;
        account.step(alloc, step, files.len())?;
    }
    Ok(events)
}

// Bytes that encode no answer change nothing.
fn absorb(alloc: Global, gather: &mut Gather, bytes: &[u8]) -> Result<(), AllocError> {
    match gather.absorb(alloc, bytes) {
        Err(GatherFault::Memory) => Err(AllocError),
        _ => Ok(()),
    }
}

fn absorb_set(
    alloc: Global,
    gather: &mut Gather,
    set: &[bool],
    files: &[&[u8]],
) -> Result<(), AllocError> {
    for (bytes, is_heard) in files.iter().zip(set) {
        if *is_heard {
            absorb(alloc, gather, bytes)?;
        }
    }
    Ok(())
}

// A coordinator that takes a set's files one by one.
fn wanted(alloc: Global, job: Job, set: &[bool], files: &[&[u8]]) -> Result<Gather, AllocError>
    requires { IsSoundPlan job.plan }
{
    let mut gather = Gather::new(alloc, job)?;
    match absorb_set(alloc, &mut gather, set, files) {
        Ok(()) => Ok(gather),
        Err(e) => {
            drop(gather);
            Err(e)
        }
    }
}

// A coordinator's state and its preview, as bytes.
fn state_and_preview(alloc: Global, gather: &Gather) -> Result<Vec<u8>, GatherFault> {
    let mut bytes = gather.state_bytes(alloc)?;
    gather.preview(alloc, &mut bytes)?;
    Ok(bytes)
}

fn says_the_same(alloc: Global, a: &Gather, b: &Gather) -> Result<bool, AllocError> {
    match (state_and_preview(alloc, a), state_and_preview(alloc, b)) {
        (Ok(a), Ok(b)) => Ok(a.as_slice() == b.as_slice()),
        _ => Err(AllocError),
    }
}

fn says_as(alloc: Global, gather: &Gather, other: Gather) -> Result<bool, AllocError> {
    let is_same = says_the_same(alloc, gather, &other);
    drop(other);
    is_same
}

// Whether it says the same as a coordinator of this job that takes a set's files.
fn says_the_set(
    alloc: Global,
    gather: &Gather,
    job: Job,
    set: &[bool],
    files: &[&[u8]],
) -> Result<bool, AllocError>
    requires { IsSoundPlan job.plan }
{
    match wanted(alloc, job, set, files) {
        Ok(heard) => says_as(alloc, gather, heard),
        Err(e) => Err(e),
    }
}

fn agrees(
    alloc: Global,
    gather: &Gather,
    asked: Asked<'_>,
    set: &[bool],
) -> Result<bool, AllocError> {
    match planned_job_of(alloc, asked.job, asked.stored)? {
        Some(job) => says_the_set(alloc, gather, job, set, asked.posted),
        None => Ok(false),
    }
}

fn all_agree(
    alloc: Global,
    gathers: &[Gather],
    asked: Asked<'_>,
    sets: &[Files],
) -> Result<bool, AllocError> {
    for (gather, set) in gathers.iter().zip(sets) {
        if !agrees(alloc, gather, asked, set)? {
            return Ok(false);
        }
    }
    Ok(gathers.len() == sets.len())
}

fn list_agrees(
    alloc: Global,
    numbers: &mut Numbers,
    size: Size,
    asked: Asked<'_>,
) -> Result<bool, AllocError> {
    let mut account = Account::new(alloc, size.coordinators, asked.posted.len())?;
    let events = run_steps(alloc, numbers, size, asked.posted, &mut account)?;
    let Some(job) = planned_job_of(alloc, asked.job, asked.stored)? else {
        return Ok(false);
    };
    match run_world(alloc, job, size.coordinators, events.as_slice()) {
        Ok(gathers) => all_agree(alloc, gathers.as_slice(), asked, account.heard()),
        Err(_) => Err(AllocError),
    }
}

fn show_lists(
    alloc: Global,
    size: Size,
    asked: Asked<'_>,
    shown: &mut String,
) -> Result<(), AllocError> {
    let mut numbers = Numbers::from(SEED);
    for list in 0..size.lists {
        if !list_agrees(alloc, &mut numbers, size, asked)? {
            return writeln!(shown, "list {list} differs");
        }
    }
    shown.push_str("all agree\n")
}

/// Whether coordinators hold and preview what they have heard, over random lists of events. The
/// words say how many lists, of how many events, of how many coordinators, and the job; the lines
/// name the files that are posted.
pub fn show_random_schedules(
    alloc: Global,
    words: &[&str],
    body: &str,
    stored: &[StoredFile],
) -> Result<String, AllocError> {
    let mut shown = String::new(alloc);
    let mut posted = Vec::new(alloc);
    for path in body.lines() {
        posted.push(find(stored, path).unwrap_or(&[]))?;
    }
    if let [lists, events, coordinators, job @ ..] = words {
        let posted = posted.as_slice();
        let asked = Asked {
            job,
            stored,
            posted,
        };
        match size_of(lists, events, coordinators) {
            Some(size) => show_lists(alloc, size, asked, &mut shown)?,
            None => shown.push_str("(no numbers)\n")?,
        }
    }
    Ok(shown)
}
