//! Runs the records of a case file and counts the mismatches.
use crate::kinds::{put_file, show};
use case_files::{Record, StoredFile, Word, records, words};
use std::alloc::{AllocError, Global};
use std::io;
use std::mem::drop;

/// How many cases passed and how many did not.
#[derive(Clone, Copy)]
pub struct Tally {
    pub passed: u32,
    pub failed: u32,
}

impl Tally {
    pub fn new() -> Tally {
        Tally {
            passed: 0,
            failed: 0,
        }
    }

    fn count(&mut self, passed: bool) {
        if passed {
            self.passed = self.passed.saturating_add(1);
        } else {
            self.failed = self.failed.saturating_add(1);
        }
    }

    pub fn add(&mut self, other: Tally) {
        self.passed = self.passed.saturating_add(other.passed);
        self.failed = self.failed.saturating_add(other.failed);
    }
}

/// Why a record is no case that passed: what it wanted, and what came.
#[derive(Drop)]
struct Mismatch {
    wanted: String,
    came: String,
}

fn texts<'a>(alloc: Global, words: &'a [Word]) -> Result<Vec<&'a str>, AllocError> {
    words.iter().map(|word| word.text.as_str()).collect(alloc)
}

fn judge_case(
    alloc: Global,
    head: &[&str],
    body: &str,
    wanted: &str,
    files: &mut Vec<StoredFile>,
) -> Result<Option<Mismatch>, AllocError> {
    let came = show(alloc, head, body, files)?;
    if came.as_str() == wanted {
        return Ok(None);
    }
    let wanted = String::from_str(alloc, wanted)?;
    Ok(Some(Mismatch { wanted, came }))
}

fn judge_file(
    alloc: Global,
    head: &[&str],
    body: &str,
    files: &mut Vec<StoredFile>,
) -> Result<Option<Mismatch>, AllocError> {
    if put_file(alloc, head, body, files)? {
        return Ok(None);
    }
    let wanted = String::from_str(alloc, "(a line ---- and what is wanted, or a file)\n")?;
    let came = String::new(alloc);
    Ok(Some(Mismatch { wanted, came }))
}

fn judge(
    alloc: Global,
    record: &Record<'_>,
    files: &mut Vec<StoredFile>,
) -> Result<Option<Mismatch>, AllocError> {
    let words = words(alloc, record.head)?;
    let head = texts(alloc, words.as_slice())?;
    let (head, body) = (head.as_slice(), record.body.as_str());
    match &record.wanted {
        Some(wanted) => judge_case(alloc, head, body, wanted.as_str(), files),
        None => judge_file(alloc, head, body, files),
    }
}

fn print_mismatch(rt: &impl Print, name: &str, line: usize, mismatch: &Mismatch) -> io::Result<()> {
    let (wanted, came) = (mismatch.wanted.as_str(), mismatch.came.as_str());
    print!(rt; "{name}:{line}: wanted\n{wanted}but came\n{came}\n")
}

fn judge_and_print(
    rt: &impl Print,
    alloc: Global,
    name: &str,
    record: &Record<'_>,
    files: &mut Vec<StoredFile>,
) -> io::Result<bool> {
    match judge(alloc, record, files)? {
        Some(mismatch) => {
            print_mismatch(rt, name, record.line, &mismatch)?;
            Ok(false)
        }
        None => Ok(true),
    }
}

// A file that a record defines counts only where it can't be read.
fn count_cases(
    rt: &impl Print,
    alloc: Global,
    name: &str,
    records: &[Record<'_>],
    files: &mut Vec<StoredFile>,
) -> io::Result<Tally> {
    let mut tally = Tally::new();
    for record in records {
        let passed = judge_and_print(rt, alloc, name, record, files)?;
        if record.wanted.is_some() || !passed {
            tally.count(passed);
        }
    }
    print_tally(rt, name, tally)?;
    Ok(tally)
}

/// Runs the cases of the file of this name and text, prints each that did not pass, and how many
/// did.
pub fn run_cases(rt: &impl Print, alloc: Global, name: &str, text: &str) -> io::Result<Tally> {
    let records = records(alloc, text)?;
    let mut files = Vec::new(alloc);
    let tally = count_cases(rt, alloc, name, records.as_slice(), &mut files);
    drop(files);
    drop(records);
    tally
}

fn print_tally(rt: &impl Print, name: &str, tally: Tally) -> io::Result<()> {
    println!(rt; "{name}: {} passed, {} failed", tally.passed, tally.failed)
}
