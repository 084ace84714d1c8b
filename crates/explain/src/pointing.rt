//! What is said of a refusal under its line.
use folders::{Folder, Refusal, read_tables};
use query_hints::{put_plan_hint, put_sql_hint};
use refusals::{Entry, Layer, entry_of};
use std::alloc::Global;
use std::io;
use std::io::Write;
use std::mem::drop;

/// Writes the query's line at which it is refused, with a caret under the place, and what could be written
/// there, where that is known; and gives whether that takes the place of the advice.
pub fn point<F: Folder, E: Write>(
    alloc: Global,
    folder: &F,
    directory: &str,
    query: &str,
    refusal: &Refusal,
    err: &mut E,
) -> io::Result<bool> {
    match refusal {
        Refusal::Sql(fault) => put_sql_hint(alloc, query, fault, err),
        Refusal::Plan(fault) => {
            let Ok(catalog) = read_tables(alloc, folder, directory) else {
                return Ok(false);
            };
            let put = put_plan_hint(alloc, &catalog, query, fault, err);
            drop(catalog);
            put?;
            Ok(false)
        }
        _ => Ok(false),
    }
}

/// What is known of a refusal of a query or of its catalogue.
fn entry_of_refusal(refusal: &Refusal) -> Option<Entry> {
    match refusal {
        Refusal::Catalog(fault) => entry_of(Layer::Catalog, fault.number()),
        Refusal::Sql(fault) => entry_of(Layer::Sql, fault.number()),
        Refusal::Plan(fault) => entry_of(Layer::Plan, fault.number()),
        _ => None,
    }
}

// The advice without what it says of this command.
fn advice_here(advice: &str) -> &str {
    match advice.split_once("; `xcols explain") {
        Some((before, _)) => before,
        None => advice,
    }
}

/// Writes what a refusal means and, unless that was said, what to do about it, where something is known.
pub fn put_meaning<E: Write>(refusal: &Refusal, is_said: bool, err: &mut E) -> io::Result<()> {
    let Some(entry) = entry_of_refusal(refusal) else {
        return Ok(());
    };
    writeln!(err, "means: {}", entry.meaning)?;
    if is_said || entry.advice.is_empty() {
        return Ok(());
    }
    writeln!(err, "what to do: {}", advice_here(entry.advice))
}
