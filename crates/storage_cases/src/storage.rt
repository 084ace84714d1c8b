//! Which kind of case a record is.
use crate::{block_values, column, files, loading};
use case_files::StoredFile;
use std::alloc::{AllocError, Global};
use std::fmt::Write;
use std::mem::drop;

fn put(
    alloc: Global,
    shown: &mut String,
    kind: &str,
    words: &[&str],
    body: &str,
    stored: &[StoredFile],
) -> Result<(), AllocError> {
    match kind {
        "column" => column::show(alloc, shown, words, body),
        "block" => block_values::show_block(alloc, shown, words, body),
        "encode" => block_values::show_encode(alloc, shown, words, body),
        "choose" => block_values::show_choose(alloc, shown, words, body),
        "unpack" => block_values::show_unpack(alloc, shown, words, body),
        "fragment" => files::show_fragment(alloc, shown, body),
        "cut-file" => files::show_cut_file(alloc, shown, body),
        "write" => files::show_write(alloc, shown, words, body),
        "write-cut" => files::show_write_cut(alloc, shown, words),
        "cut-back" => files::show_cut_back(alloc, shown, words),
        "load" => loading::show_load(alloc, shown, words, body, stored),
        "count-rows" => loading::show_count_rows(alloc, shown, body),
        _ => writeln!(shown, "(no record is of the kind {kind})"),
    }
}

/// What a record of columns, blocks, files or loading shows.
pub fn show_storage(
    alloc: Global,
    kind: &str,
    words: &[&str],
    body: &str,
    stored: &[StoredFile],
) -> Result<String, AllocError> {
    let mut shown = String::new(alloc);
    match put(alloc, &mut shown, kind, words, body, stored) {
        Ok(()) => Ok(shown),
        Err(fault) => {
            drop(shown);
            Err(fault)
        }
    }
}
