//! A case file as its records.
use std::alloc::{AllocError, Global};

/// What stands between two empty lines of a case file.
#[derive(Drop)]
pub struct Record<'a> {
    /// The number of its first line, from 1.
    pub line: usize,
    /// Its first line: a kind, and the words behind it.
    pub head: &'a str,
    /// The lines up to `----`, each with its end.
    pub body: String,
    /// The lines behind `----`, each with its end.
    pub wanted: Option<String>,
}

impl<'a> Record<'a> {
    fn new(alloc: Global, line: usize, head: &'a str) -> Record<'a> {
        Record {
            line,
            head,
            body: String::new(alloc),
            wanted: None,
        }
    }

    fn take(&mut self, alloc: Global, line: &str) -> Result<(), AllocError> {
        match &mut self.wanted {
            Some(wanted) => push_line(wanted, line),
            None if line == "----" => {
                self.wanted = Some(String::new(alloc));
                Ok(())
            }
            None => push_line(&mut self.body, line),
        }
    }
}

fn push_line(text: &mut String, line: &str) -> Result<(), AllocError> {
    text.push_str(line)?;
    text.push_str("\n")
}

// Puts a line into the record that isn't ended, or begins one with it. Says whether a record isn't
// ended behind it.
fn take_line<'a>(
    alloc: Global,
    records: &mut Vec<Record<'a>>,
    is_open: bool,
    number: usize,
    line: &'a str,
) -> Result<bool, AllocError> {
    if line.is_empty() {
        return Ok(false);
    }
    if is_open {
        if let Some(record) = records.last_mut() {
            record.take(alloc, line)?;
        }
        return Ok(true);
    }
    if line.starts_with('#') {
        return Ok(false);
    }
    records.push(Record::new(alloc, number, line))?;
    Ok(true)
}

/// The records of a case file, in its order. A line that begins with `#` outside of them is a
/// comment.
pub fn records<'a>(alloc: Global, text: &'a str) -> Result<Vec<Record<'a>>, AllocError> {
    let mut records = Vec::new(alloc);
    let mut is_open = false;
    for (before, line) in text.lines().enumerate() {
        is_open = take_line(alloc, &mut records, is_open, before.saturating_add(1), line)?;
    }
    Ok(records)
}
