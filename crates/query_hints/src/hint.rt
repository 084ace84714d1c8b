//! What is said of a query that is refused, under the line of its refusal.
use crate::caret::put_caret;
use crate::grammar::{token_with_offset, why_not};
use crate::left_out::in_place_of;
use crate::plan_hints::{
    Parts, put_column, put_doubt, put_item, put_keys, put_misfit, put_table, put_ungrouped,
};
use crate::used::names_used;
use meaning::Catalog;
use planner_expressions::{PlanFault, Scope, scope_of};
use sql_reader::{SqlFault, read};
use sql_syntax::{Lexeme, Query, tokens};
use std::alloc::Global;
use std::io;
use std::io::Write;
use std::mem::drop;

/// The offset in the query that a refusal names.
fn offset_of(fault: &SqlFault) -> Option<usize> {
    match fault {
        SqlFault::UnknownCharacter { offset }
        | SqlFault::TextNotClosed { offset }
        | SqlFault::IntegerOutOfRange { offset }
        | SqlFault::UnexpectedToken { offset }
        | SqlFault::LeftOut { offset, .. } => Some(*offset),
        _ => None,
    }
}

// Why the token at an offset can't come there, where that is known.
fn why_at(lexemes: &[Lexeme<'_>], offset: usize) -> Option<&'static str> {
    match token_with_offset(lexemes, offset) {
        Some(at) => why_not(lexemes, at),
        None => Some("the query ends too early"),
    }
}

// What to write at the place at which a query's text is refused, where that is known.
fn sentence_on(alloc: Global, query: &str, fault: &SqlFault) -> Option<&'static str> {
    match fault {
        SqlFault::UnexpectedToken { offset } => match tokens(alloc, query) {
            Ok(lexemes) => why_at(lexemes.as_slice(), *offset),
            Err(_) => None,
        },
        SqlFault::LeftOut { word, .. } => Some(in_place_of(word.as_str())),
        _ => None,
    }
}

/// Writes the line of a query at which its text is refused, with a caret under the place, and what to write
/// there where that is known; and gives whether it is.
pub fn put_sql_hint<E: Write>(
    alloc: Global,
    query: &str,
    fault: &SqlFault,
    err: &mut E,
) -> io::Result<bool> {
    let Some(offset) = offset_of(fault) else {
        return Ok(false);
    };
    put_caret(query, offset, err)?;
    let Some(sentence) = sentence_on(alloc, query, fault) else {
        return Ok(false);
    };
    writeln!(err, "{sentence}")?;
    Ok(true)
}

// Of faults for which the tables of FROM are known.
fn put_scoped<E: Write>(
    alloc: Global,
    scope: &Scope,
    tree: &Query,
    fault: &PlanFault,
    parts: &Parts<'_>,
    err: &mut E,
) -> io::Result<()> {
    match fault {
        PlanFault::ColumnUnknown => put_column(alloc, scope, parts, err),
        PlanFault::Ambiguous => put_doubt(scope, parts, err),
        PlanFault::TypeMismatch => put_misfit(scope, parts, err),
        PlanFault::NoEquality => put_keys(scope, parts, err),
        PlanFault::NotGrouped => put_ungrouped(parts, err),
        PlanFault::PositionNotAllowed => put_item(alloc, tree, parts, err),
        _ => Ok(()),
    }
}

fn put_over_tree<E: Write>(
    alloc: Global,
    catalog: &Catalog,
    tree: &Query,
    fault: &PlanFault,
    parts: &Parts<'_>,
    err: &mut E,
) -> io::Result<()> {
    if let PlanFault::TableUnknown = fault {
        return put_table(alloc, catalog, parts, err);
    }
    let Ok(scope) = scope_of(alloc, catalog, &tree.source) else {
        return Ok(());
    };
    let put = put_scoped(alloc, &scope, tree, fault, parts, err);
    drop(scope);
    put
}

fn put_over_text<E: Write>(
    alloc: Global,
    catalog: &Catalog,
    query: &str,
    text: &str,
    fault: &PlanFault,
    err: &mut E,
) -> io::Result<()> {
    let Ok(lexemes) = tokens(alloc, text) else {
        return Ok(());
    };
    let Ok(used) = names_used(alloc, lexemes.as_slice()) else {
        return Ok(());
    };
    let Ok(tree) = read(alloc, query.as_bytes()) else {
        return Ok(());
    };
    let parts = Parts {
        query,
        text,
        lexemes: lexemes.as_slice(),
        used: used.as_slice(),
    };
    let put = put_over_tree(alloc, catalog, &tree, fault, &parts, err);
    drop(tree);
    put
}

/// Writes the line of a query with a caret under the name for which it has no plan, and what could be
/// written in its place. Nothing is written where that isn't found.
pub fn put_plan_hint<E: Write>(
    alloc: Global,
    catalog: &Catalog,
    query: &str,
    fault: &PlanFault,
    err: &mut E,
) -> io::Result<()> {
    let Ok(text) = query.to_ascii_lowercase(alloc) else {
        return Ok(());
    };
    put_over_text(alloc, catalog, query, text.as_str(), fault, err)
}
