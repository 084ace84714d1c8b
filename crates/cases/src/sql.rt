//! Cases about SQL texts.
use crate::refusal_line::refusal_line;
use case_files::{escaped_bytes, show_line};
use folders::Refusal;
use sql_reader::tree::Query;
use sql_reader::{print, read};
use std::alloc::{AllocError, Global};
use std::mem::drop;

fn canonical_line(alloc: Global, query: &Query) -> Result<String, AllocError> {
    let text = print(alloc, query)?;
    let mut shown = String::new(alloc);
    show_line(&mut shown, text.as_str())?;
    Ok(shown)
}

fn length_line(alloc: Global, query: &Query) -> Result<String, AllocError> {
    let text = print(alloc, query)?;
    format!(in alloc; "canonical text of {} bytes\n", text.as_str().len())
}

fn query_line(alloc: Global, words: &[&str], query: &Query) -> Result<String, AllocError> {
    match words {
        ["length"] => length_line(alloc, query),
        _ => canonical_line(alloc, query),
    }
}

/// The canonical text of the query that the escaped lines spell, or its length, or the line of its
/// refusal.
pub fn show(alloc: Global, words: &[&str], body: &str) -> Result<String, AllocError> {
    let text = escaped_bytes(alloc, body)?;
    match read(alloc, text.as_slice()) {
        Ok(query) => {
            let shown = query_line(alloc, words, &query);
            drop(query);
            shown
        }
        Err(fault) => refusal_line(alloc, &Refusal::Sql(fault)),
    }
}
