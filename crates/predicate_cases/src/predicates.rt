//! Conditions on a block, and which of its rows they keep.
ghost use Rattle.std.specs.Prelude.{◌≡◌, ◌≤◌};

use crate::blocks_of::{Asked, block_asked, column_of, values_of};
use crate::kept::{kept_in, wanted_of};
use block_predicates::BlockPredicate;
use columns::Column;
use encodings::{BlockView, encode_as};
use expression_cases::postfix_expression;
use meaning::Expr;
use std::alloc::{AllocError, Global};
use std::fmt::Write;
use std::mem::drop;
use vector_cases::Word;

/// The rows are shown one by one where there are no more.
const FEW: usize = 20;

fn show_rows(shown: &mut String, kept: &[bool]) -> Result<(), AllocError> {
    if kept.len() > FEW {
        let count = kept.iter().filter(|is_kept| **is_kept).count();
        return writeln!(shown, ", {count} rows kept");
    }
    shown.push_str(", kept")?;
    for (row, is_kept) in kept.iter().enumerate() {
        if *is_kept {
            write!(shown, " {row}")?;
        }
    }
    shown.push_str("\n")
}

fn show_length(
    alloc: Global,
    shown: &mut String,
    predicate: &BlockPredicate<'_>,
    rows: usize,
    most: usize,
    wanted: &[bool],
) -> Result<(), AllocError>
    requires rows { predicate.now.block.rows ≡ rows }
    requires few { rows ≤ 8192 }
    requires some { 1 ≤ most }
{
    let kept = kept_in(alloc, predicate, rows, most)?;
    if kept.as_slice() != wanted {
        writeln!(shown, "differs in vectors of {most}")?;
    }
    Ok(())
}

/// How many lanes were evaluated, which rows are kept, and vectors of which of the lengths keep
/// others than the oracle does.
fn show_kept(
    alloc: Global,
    shown: &mut String,
    predicate: &BlockPredicate<'_>,
    rows: usize,
    lengths: &[&str],
    wanted: &[bool],
) -> Result<(), AllocError>
    requires rows { predicate.now.block.rows ≡ rows }
    requires few { rows ≤ 8192 }
{
    write!(shown, "{} lanes", predicate.count())?;
    show_rows(
        shown,
        kept_in(alloc, predicate, rows, rows.max(1))?.as_slice(),
    )?;
    for word in lengths {
        let most = word.parse::<usize>().unwrap_or(1).max(1);
        show_length(alloc, shown, predicate, rows, most, wanted)?;
    }
    Ok(())
}

fn show_condition(
    alloc: Global,
    shown: &mut String,
    block: &BlockView<'_>,
    expr: &Expr,
    lengths: &[&str],
    values: &[Word<'_>],
) -> Result<(), AllocError> {
    let rows = block.len();
    let Some(predicate) = BlockPredicate::new(alloc, expr, block)? else {
        return shown.push_str("none\n");
    };
    let wanted = wanted_of(alloc, expr, values, rows)?;
    show_kept(alloc, shown, &predicate, rows, lengths, wanted.as_slice())
}

fn show_line(
    alloc: Global,
    shown: &mut String,
    block: &BlockView<'_>,
    words: &str,
    lengths: &[&str],
    values: &[Word<'_>],
) -> Result<(), AllocError> {
    let expr = postfix_expression(alloc, words)?;
    let result = show_condition(alloc, shown, block, &expr, lengths, values);
    drop(expr);
    result
}

fn show_lines(
    alloc: Global,
    shown: &mut String,
    block: &BlockView<'_>,
    body: &str,
    lengths: &[&str],
    values: &[Word<'_>],
) -> Result<(), AllocError> {
    for line in body.lines() {
        if let Some(words) = line.strip_prefix("where ") {
            show_line(alloc, shown, block, words, lengths, values)?;
        }
    }
    Ok(())
}

fn show_column(
    alloc: Global,
    shown: &mut String,
    asked: Asked<'_>,
    column: &Column,
    body: &str,
    values: &[Word<'_>],
) -> Result<(), AllocError> {
    let rows = column.len();
    if rows == 0 || rows > 8192 {
        return shown.push_str("no block\n");
    }
    let Ok(payload) = encode_as(alloc, asked.kind, column, 0, rows) else {
        return shown.push_str("no block\n");
    };
    let made = BlockView::new(
        asked.kind,
        asked.col_type,
        asked.nullable,
        rows,
        payload.as_slice(),
    );
    match made {
        Some(block) => show_lines(alloc, shown, &block, body, asked.lengths, values),
        None => shown.push_str("no block\n"),
    }
}

fn show_asked(
    alloc: Global,
    shown: &mut String,
    asked: Asked<'_>,
    body: &str,
) -> Result<(), AllocError> {
    let values = values_of(alloc, body)?;
    let column = column_of(alloc, asked, values.as_slice())?;
    let result = show_column(alloc, shown, asked, &column, body, values.as_slice());
    drop(column);
    result
}

/// What conditions on a block of a record's values are of its rows: how many lanes are evaluated,
/// and which rows are kept. A record has values, a line each, and conditions on column 0, as
/// `where c0 5 =`.
pub fn show_predicates(alloc: Global, words: &[&str], body: &str) -> Result<String, AllocError> {
    let mut shown = String::new(alloc);
    match block_asked(words) {
        Some(asked) => show_asked(alloc, &mut shown, asked, body)?,
        None => shown.push_str("no block\n")?,
    }
    Ok(shown)
}
