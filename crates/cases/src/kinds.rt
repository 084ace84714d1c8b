//! Which kind of case a record is.
use crate::pieces::Host;
use crate::{catalog, cut, plan, program, sql};
use answer_cases::{show_answer, show_gathering, show_state, show_whole_query};
use case_files::{StoredFile, bytes_of, escaped_bytes, find};
use expression_cases::{show_agreement, show_expressions};
use join_cases::show_lookups;
use predicate_cases::show_predicates;
use schedule_cases::{show_random_schedules, show_refused_memory, show_schedule};
use std::alloc::{AllocError, Global};
use storage_cases::show_storage;
use vector_cases::{show_lane_loop, show_selection};

// The word behind the kind is the path of the catalogue.
fn show_plan(
    alloc: Global,
    words: &[&str],
    body: &str,
    files: &[StoredFile],
) -> Result<String, AllocError> {
    let path = words.first().copied().unwrap_or("");
    let catalog = find(files, path).unwrap_or(&[]);
    plan::show(alloc, catalog, body)
}

fn show_kind(
    alloc: Global,
    kind: &str,
    words: &[&str],
    body: &str,
    files: &mut Vec<StoredFile>,
) -> Result<String, AllocError> {
    match kind {
        "xcols" => program::show(alloc, words, files, Host::sound()),
        "sql" => sql::show(alloc, words, body),
        "catalog" => catalog::show(alloc, words, body),
        "cut" => cut::show(alloc, words, body),
        "plan" => show_plan(alloc, words, body, files.as_slice()),
        "selection" => show_selection(alloc, words, body),
        "lanes" => show_lane_loop(alloc, words, body),
        "evaluate" => show_expressions(alloc, words, body),
        "agree" => show_agreement(alloc, words, body),
        "predicate" => show_predicates(alloc, words, body),
        "join" => show_lookups(alloc, words, body),
        "answer" => show_answer(alloc, words, body),
        "state" => show_state(alloc, words, body),
        "gather" => show_gathering(alloc, words, body, files),
        "random-schedules" => show_random_schedules(alloc, words, body, files.as_slice()),
        "refused-memory" => show_refused_memory(alloc, words, body, files.as_slice()),
        "schedule" => show_schedule(alloc, words, body, files.as_slice()),
        "whole" => show_whole_query(alloc, words, files.as_slice()),
        _ => show_storage(alloc, kind, words, body, files.as_slice()),
    }
}

/// What a record's input shows, as lines. Where the words behind the kind begin with `of PATH`, the
/// bytes of that file are its body, in hexadecimal digits.
pub fn show(
    alloc: Global,
    head: &[&str],
    body: &str,
    files: &mut Vec<StoredFile>,
) -> Result<String, AllocError> {
    match head {
        [kind, "of", path, words @ ..] => {
            let digits = hex::encode(alloc, find(files.as_slice(), path).unwrap_or(&[]))?;
            show_kind(alloc, kind, words, digits.as_str(), files)
        }
        ["by", most, "xcols", words @ ..] => {
            program::show(alloc, words, files, Host::by(most.parse().unwrap_or(1)))
        }
        ["stopped", calls, "xcols", words @ ..] => {
            program::show(
                alloc,
                words,
                files,
                Host::stopped(calls.parse().unwrap_or(0)),
            )
        }
        ["failing", path, "xcols", words @ ..] => {
            program::show_failures(alloc, path, words, files.as_slice())
        }
        [kind, words @ ..] => show_kind(alloc, kind, words, body, files),
        [] => String::from_str(alloc, "(a record without a kind)\n"),
    }
}

fn file_bytes(alloc: Global, kind: &str, body: &str) -> Result<Option<Vec<u8>>, AllocError> {
    match kind {
        "file" => Ok(Some(body.as_bytes().to_vec(alloc)?)),
        "escaped" => Ok(Some(escaped_bytes(alloc, body)?)),
        "bytes" => bytes_of(alloc, body),
        _ => Ok(None),
    }
}

/// Puts the file that a record without a wanted text defines. Whether it defines one.
pub fn put_file(
    alloc: Global,
    head: &[&str],
    body: &str,
    files: &mut Vec<StoredFile>,
) -> Result<bool, AllocError> {
    let [kind, path] = head else {
        return Ok(false);
    };
    let Some(bytes) = file_bytes(alloc, kind, body)? else {
        return Ok(false);
    };
    let path = String::from_str(alloc, path)?;
    files.push(StoredFile { path, bytes })?;
    Ok(true)
}
