//! Expressions over the rows of a case, one after the other with the same fault.
use crate::postfix::{postfix_expression, reference_of};
use meaning::Expr;
use primitives::eval_vec;
use std::alloc::{AllocError, Global};
use std::fmt::Write;
use std::mem::drop;
use vector_cases::{CaseColumn, Cells, MOST_ROWS, Word, batch_of, mask_of, show_lane, word_of};
use vector_operators::Fault1;
use vectors::{Batch, Selection, Vector};

/// The selected lanes before the fault.
fn show_lanes(
    shown: &mut String,
    lanes: &Vector<'_>,
    mask: &[bool],
    fault: &Fault1,
) -> Result<(), AllocError> {
    let end = match fault.held {
        Some(held) => held.position,
        None => mask.len(),
    };
    for (lane, is_selected) in mask.iter().enumerate() {
        if *is_selected && lane < end {
            show_lane(shown, lanes, lane)?;
        }
    }
    Ok(())
}

fn show_fault(shown: &mut String, fault: &Fault1) -> Result<(), AllocError> {
    match fault.held {
        None => shown.push_str(" no fault\n"),
        Some(held) => writeln!(shown, " fault {} at {}", held.fault.code(), held.position),
    }
}

fn show_given(
    alloc: Global,
    shown: &mut String,
    expr: &Expr,
    batch: &Batch<'_>,
    selection: &Selection,
    fault: &mut Fault1,
) -> Result<(), AllocError> {
    if selection.below() != batch.rows() {
        return shown.push_str("(another number of rows)\n");
    }
    let mask = selection.mask(alloc)?;
    let lanes = eval_vec(alloc, expr, batch, selection, fault)?;
    let mut line = String::new(alloc);
    show_lanes(&mut line, &lanes, mask.as_slice(), fault)?;
    show_fault(&mut line, fault)?;
    shown.push_str(line.as_str().trim_start())
}

fn show_expression(
    alloc: Global,
    shown: &mut String,
    line: &str,
    batch: &Batch<'_>,
    selection: &Selection,
    fault: &mut Fault1,
) -> Result<(), AllocError> {
    let expr = postfix_expression(alloc, line)?;
    let result = show_given(alloc, shown, &expr, batch, selection, fault);
    drop(expr);
    result
}

fn select(alloc: Global, selection: &mut Selection, positions: &str) -> Result<(), AllocError> {
    selection.reset();
    let mask = mask_of(alloc, selection.below(), positions, ' ')?;
    selection.keep_marked(mask.as_slice());
    Ok(())
}

/// `fresh` forgets the fault, `at POSITIONS` selects positions, `at all` all of them, and other
/// lines are expressions.
fn take_line(
    alloc: Global,
    shown: &mut String,
    line: &str,
    batch: &Batch<'_>,
    selection: &mut Selection,
    fault: &mut Fault1,
) -> Result<(), AllocError> {
    match line.split_once(' ') {
        Some(("row", _)) => Ok(()),
        Some(("at", "all")) => {
            selection.reset();
            Ok(())
        }
        Some(("at", positions)) => select(alloc, selection, positions),
        None if line == "fresh" => {
            *fault = Fault1::new();
            Ok(())
        }
        _ => show_expression(alloc, shown, line, batch, selection, fault),
    }
}

fn show_lines(
    alloc: Global,
    shown: &mut String,
    body: &str,
    batch: &Batch<'_>,
) -> Result<(), AllocError> {
    let rows = u32::try_from(batch.rows()).unwrap_or(0);
    let mut selection = Selection::all(alloc, rows)?;
    let mut fault = Fault1::new();
    for line in body.lines() {
        take_line(alloc, shown, line, batch, &mut selection, &mut fault)?;
    }
    Ok(())
}

fn push_row<'a>(columns: &mut [CaseColumn<'a>], values: &'a str) -> Result<(), AllocError> {
    let mut words = values.split(' ');
    for column in columns.iter_mut() {
        let value = match words.next() {
            Some(word) => word_of(word),
            None => Word::Null,
        };
        column.cells.push(value)?;
    }
    Ok(())
}

/// How many of the lines are rows, whose values are put into the columns.
fn push_rows<'a>(columns: &mut [CaseColumn<'a>], body: &'a str) -> Result<usize, AllocError> {
    let mut rows = 0;
    for line in body.lines() {
        if let Some(values) = line.strip_prefix("row ") {
            if rows < MOST_ROWS {
                push_row(columns, values)?;
                rows += 1;
            }
        }
    }
    Ok(rows)
}

/// `c0:int` and `k0:text` are columns.
fn columns_of<'a>(alloc: Global, words: &[&str]) -> Result<Vec<CaseColumn<'a>>, AllocError> {
    let mut columns = Vec::new(alloc);
    for word in words {
        let (name, kind) = word.split_once(':').unwrap_or((word, "int"));
        if let Some(reference) = reference_of(name) {
            let cells = Cells::masked(alloc, kind == "text");
            columns.push(CaseColumn { reference, cells })?;
        }
    }
    Ok(columns)
}

fn show_over(
    alloc: Global,
    shown: &mut String,
    columns: &[CaseColumn<'_>],
    rows: usize,
    body: &str,
) -> Result<(), AllocError> {
    let batch = batch_of(alloc, columns, rows)?;
    let result = show_lines(alloc, shown, body, &batch);
    drop(batch);
    result
}

/// For each expression its selected lanes before the fault that is then held, and that fault.
pub fn show_expressions(alloc: Global, words: &[&str], body: &str) -> Result<String, AllocError> {
    let mut shown = String::new(alloc);
    let mut columns = columns_of(alloc, words)?;
    let rows = push_rows(columns.as_mut_slice(), body)?;
    show_over(alloc, &mut shown, columns.as_slice(), rows, body)?;
    Ok(shown)
}
