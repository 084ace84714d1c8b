//! Cases about whole queries over the CSV files of a folder.
use crate::failing_writers::{AT_FLUSH, Bytewise, MOST_CALLS, NOT_FLUSHED, show_taken};
use crate::jobs::cut_of;
use case_files::{StoredFile, find, show_printed};
use coordinator::{Sources, WholeFault, whole};
use gathering::{Ended, Gather};
use meaning::Cut;
use std::alloc::{AllocError, Global};
use std::fmt::Write;
use std::mem::drop;

// What a query asks of the tables of a folder.
#[derive(Clone, Copy)]
struct Asked<'a> {
    folder: &'a str,
    cut: &'a str,
    vector_len: usize,
    query: &'a str,
}

fn asked_by<'a>(words: &[&'a str]) -> Option<Asked<'a>> {
    let [folder, cut, vector_len, query] = words else {
        return None;
    };
    let vector_len = vector_len.parse::<usize>().ok()?;
    Some(Asked {
        folder,
        cut,
        vector_len,
        query,
    })
}

// The table whose CSV file in the folder has this path.
fn table_of<'a>(folder: &str, path: &'a str) -> Option<&'a str> {
    let name = path.strip_prefix(folder)?.strip_prefix("/")?;
    name.strip_suffix(".csv")
}

fn catalog_of<'a>(
    alloc: Global,
    folder: &str,
    files: &'a [StoredFile],
) -> Result<&'a [u8], AllocError> {
    let path = format!(in alloc; "{folder}/catalog.txt")?;
    Ok(find(files, path.as_str()).unwrap_or(&[]))
}

fn csvs_of<'a>(
    alloc: Global,
    folder: &str,
    files: &'a [StoredFile],
) -> Result<Vec<(&'a str, &'a [u8])>, AllocError> {
    let mut csvs = Vec::new(alloc);
    for file in files.iter().rev() {
        if let Some(table) = table_of(folder, file.path.as_str()) {
            csvs.push((table, file.bytes.as_slice()))?;
        }
    }
    Ok(csvs)
}

fn refusal_line(alloc: Global, fault: &WholeFault) -> Result<String, AllocError> {
    match fault {
        WholeFault::Memory => String::from_str(alloc, "refused for want of memory\n"),
        WholeFault::Catalog(fault) => format!(in alloc; "refused catalog {}\n", fault.number()),
        WholeFault::Sql(fault) => format!(in alloc; "refused sql {}\n", fault.number()),
        WholeFault::Plan(fault) => format!(in alloc; "refused plan {}\n", fault.number()),
        WholeFault::MissingCsv(table) => {
            format!(in alloc; "refused, no CSV of {}\n", table.as_str())
        }
        WholeFault::Load(fault) => format!(in alloc; "refused load {}\n", fault.number()),
        WholeFault::VectorLength => String::from_str(alloc, "refused, vector length\n"),
        WholeFault::Writer => String::from_str(alloc, "refused by the writer\n"),
    }
}

fn show_held(alloc: Global, gather: &Gather, shown: &mut String) -> Result<(), AllocError> {
    match gather.state_bytes(alloc) {
        Ok(bytes) => writeln!(shown, "state of {} bytes", bytes.len()),
        Err(fault) => writeln!(shown, "refused {}", fault.number()),
    }
}

fn show_ended(
    alloc: Global,
    printed: &[u8],
    ended: Ended,
    gather: &Gather,
) -> Result<String, AllocError> {
    let mut shown = String::new(alloc);
    show_printed(alloc, &mut shown, "out", printed)?;
    shown.push_str(match ended {
        Ended::Rows => "rows, ",
        Ended::Fault => "fault, ",
    })?;
    show_held(alloc, gather, &mut shown)?;
    Ok(shown)
}

fn show_over(
    alloc: Global,
    asked: Asked<'_>,
    cut: &Cut,
    files: &[StoredFile],
) -> Result<String, AllocError> {
    let catalog = catalog_of(alloc, asked.folder, files)?;
    let csvs = csvs_of(alloc, asked.folder, files)?;
    let mut out = Vec::new(alloc);
    let query = asked.query.as_bytes();
    let length = asked.vector_len;
    match whole(
        alloc,
        catalog,
        csvs.as_slice(),
        query,
        cut,
        length,
        &mut out,
    ) {
        Ok((ended, gather)) => {
            let shown = show_ended(alloc, out.as_slice(), ended, &gather);
            drop(gather);
            shown
        }
        Err(fault) => {
            let shown = refusal_line(alloc, &fault);
            drop(fault);
            shown
        }
    }
}

// ---- a writer that fails

fn whole_to(
    alloc: Global,
    asked: Asked<'_>,
    cut: &Cut,
    files: &[StoredFile],
    out: &mut Bytewise,
) -> Result<Result<(), WholeFault>, AllocError> {
    let catalog = catalog_of(alloc, asked.folder, files)?;
    let csvs = csvs_of(alloc, asked.folder, files)?;
    let query = asked.query.as_bytes();
    let length = asked.vector_len;
    match whole(alloc, catalog, csvs.as_slice(), query, cut, length, out) {
        Ok((_, gather)) => {
            drop(gather);
            Ok(Ok(()))
        }
        Err(fault) => Ok(Err(fault)),
    }
}

fn show_flush(
    alloc: Global,
    asked: Asked<'_>,
    cut: &Cut,
    files: &[StoredFile],
    shown: &mut String,
) -> Result<(), AllocError> {
    let mut out = Bytewise::failing_at_flush(alloc);
    match whole_to(alloc, asked, cut, files, &mut out)? {
        Err(WholeFault::Writer) => shown.push_str(AT_FLUSH),
        Err(fault) => show_fault(alloc, fault, shown),
        Ok(()) => shown.push_str(NOT_FLUSHED),
    }
}

// Whether the writer that fails at this call is returned; what else comes is shown.
fn is_returned(
    alloc: Global,
    asked: Asked<'_>,
    cut: &Cut,
    files: &[StoredFile],
    call: u32,
    shown: &mut String,
) -> Result<bool, AllocError> {
    let mut out = Bytewise::failing(alloc, call);
    match whole_to(alloc, asked, cut, files, &mut out)? {
        Err(WholeFault::Writer) => return Ok(true),
        Err(fault) => show_fault(alloc, fault, shown)?,
        Ok(()) => {
            show_taken(alloc, call, &out, shown)?;
            show_flush(alloc, asked, cut, files, shown)?;
        }
    }
    Ok(false)
}

fn show_fault(alloc: Global, fault: WholeFault, shown: &mut String) -> Result<(), AllocError> {
    let line = refusal_line(alloc, &fault);
    drop(fault);
    shown.push_str(line?.as_str())
}

fn show_failing(
    alloc: Global,
    asked: Asked<'_>,
    cut: &Cut,
    files: &[StoredFile],
) -> Result<String, AllocError> {
    let mut shown = String::new(alloc);
    for call in 1..MOST_CALLS {
        if !is_returned(alloc, asked, cut, files, call, &mut shown)? {
            break;
        }
    }
    Ok(shown)
}

// The words without a last one that says that the writer fails.
fn without_failing<'a, 'b>(words: &'b [&'a str]) -> (&'b [&'a str], bool) {
    match words {
        [words @ .., "failing"] => (words, true),
        words => (words, false),
    }
}

/// What a query over the CSV files of a folder prints and how it ends, or its refusal. The words
/// are the folder, the rows of each fragment, the vectors' length and the query; and where the
/// writer is to fail at its first call, at its second and so on, and at last at none, `failing`.
pub fn show_whole_query(
    alloc: Global,
    words: &[&str],
    files: &[StoredFile],
) -> Result<String, AllocError> {
    let (words, is_failing) = without_failing(words);
    let Some(asked) = asked_by(words) else {
        return String::from_str(alloc, "(a folder, a cut, a vector's length and a query)\n");
    };
    match cut_of(alloc, asked.cut)? {
        Some(cut) if is_failing => show_failing(alloc, asked, &cut, files),
        Some(cut) => show_over(alloc, asked, &cut, files),
        None => String::from_str(alloc, "(no cut)\n"),
    }
}
