//! Cases about cuts.
use crate::refusal_line::refusal_line;
use folders::Refusal;
use meaning::{Cut, CutFault};
use std::alloc::{AllocError, Global};
use std::fmt::Write;

fn show_run(shown: &mut String, count: usize, length: u32) -> Result<(), AllocError> {
    match count {
        0 => Ok(()),
        1 => writeln!(shown, "{length}"),
        count => writeln!(shown, "*{count} {length}"),
    }
}

fn lengths_shown(alloc: Global, lengths: &[u32]) -> Result<String, AllocError> {
    let mut shown = String::new(alloc);
    let (mut count, mut last) = (0usize, 0u32);
    for length in lengths {
        if count == 0 || *length != last {
            show_run(&mut shown, count, last)?;
            count = 0;
            last = *length;
        }
        count = count.saturating_add(1);
    }
    show_run(&mut shown, count, last)?;
    Ok(shown)
}

fn shown(alloc: Global, cut: Result<Cut, CutFault>) -> Result<String, AllocError> {
    match cut {
        Ok(cut) => lengths_shown(alloc, cut.lengths()),
        Err(fault) => refusal_line(alloc, &Refusal::Cut(fault)),
    }
}

// A length, or how often it stands in a row and the length.
fn run_of(line: &str) -> Option<(usize, u32)> {
    match line.strip_prefix('*') {
        Some(rest) => {
            let (count, length) = rest.split_once(' ')?;
            Some((count.parse::<usize>().ok()?, length.parse::<u32>().ok()?))
        }
        None => Some((1, line.parse::<u32>().ok()?)),
    }
}

fn lengths_of(alloc: Global, lines: &str) -> Result<Option<Vec<u32>>, AllocError> {
    let mut lengths = Vec::new(alloc);
    for line in lines.lines() {
        let Some((count, length)) = run_of(line) else {
            return Ok(None);
        };
        for _ in 0..count {
            lengths.push(length)?;
        }
    }
    Ok(Some(lengths))
}

fn show_even(alloc: Global, rows: &str, length: &str) -> Result<String, AllocError> {
    match (rows.parse::<u64>(), length.parse::<u32>()) {
        (Ok(rows), Ok(length)) if length > 0 => shown(alloc, Cut::even(alloc, rows, length)),
        _ => String::from_str(alloc, "(no numbers of rows)\n"),
    }
}

fn show_given(alloc: Global, lines: &str) -> Result<String, AllocError> {
    match lengths_of(alloc, lines)? {
        Some(lengths) => shown(alloc, Cut::new(lengths)),
        None => String::from_str(alloc, "(no numbers of rows)\n"),
    }
}

/// The cut into fragments of the numbers of rows that the lines say, or the even cut by the two
/// numbers behind `even`: its numbers of rows, or the line of its refusal. A line `*3 5` is the
/// number 5 three times.
pub fn show(alloc: Global, words: &[&str], body: &str) -> Result<String, AllocError> {
    match words {
        ["even", rows, length] => show_even(alloc, rows, length),
        _ => show_given(alloc, body),
    }
}
