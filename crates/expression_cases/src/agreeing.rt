//! Whether an expression gives on vectors what the oracle gives on each row.
use crate::combinations::{COMBINATIONS, columns_from, joined_row};
use crate::postfix::postfix_expression;
use meaning::{Expr, Fault, Outcome, Truth, Value};
use primitives::eval_vec;
use row_oracle::eval_row;
use std::alloc::{AllocError, Global};
use std::fmt::Write;
use std::mem::drop;
use vector_cases::{CaseColumn, MOST_ROWS, batch_of};
use vector_operators::Fault1;
use vectors::{Batch, Selection, Vector};

/// What the oracle gives on each combination, and the combination of the first lane.
#[derive(Clone, Copy)]
struct Known<'k> {
    outcomes: &'k [Outcome],
    first: usize,
}

impl<'k> Known<'k> {
    fn at(self, lane: usize) -> Option<&'k Outcome> {
        self.outcomes
            .get(lane.wrapping_add(self.first) % COMBINATIONS)
    }

    fn fault_at(self, lane: usize) -> Option<Fault> {
        match self.at(lane) {
            Some(Outcome::Fault(fault)) => Some(*fault),
            _ => None,
        }
    }
}

fn is_same_truth(one: Truth, other: Truth) -> bool {
    matches!(
        (one, other),
        (Truth::True, Truth::True) | (Truth::False, Truth::False) | (Truth::Unknown, Truth::Unknown)
    )
}

fn is_int(int: Option<i64>, value: &Value) -> bool {
    match (int, value) {
        (None, Value::Null) => true,
        (Some(int), Value::Int(other)) => int == *other,
        _ => false,
    }
}

fn is_text(text: Option<&[u8]>, value: &Value) -> bool {
    match (text, value) {
        (None, Value::Null) => true,
        (Some(text), Value::Text(other)) => text == other.as_bytes(),
        _ => false,
    }
}

fn is_lane(lanes: &Vector<'_>, lane: usize, outcome: &Outcome) -> bool {
    match (lanes, outcome) {
        (Vector::Ints(ints), Outcome::Value(value)) => {
            lane < ints.len() && is_int(ints.get(lane), value)
        }
        (Vector::Texts(texts), Outcome::Value(value)) => {
            lane < texts.len() && is_text(texts.get(lane), value)
        }
        (Vector::Truths(truths), Outcome::Truth(truth)) => {
            lane < truths.len() && is_same_truth(truths.get(lane), *truth)
        }
        _ => false,
    }
}

/// Whether the fault that is held is this one.
fn is_held(fault: &Fault1, lane: usize, found: Fault) -> bool {
    match fault.held {
        Some(held) => held.position == lane && held.fault.code() == found.code(),
        None => false,
    }
}

/// Whether selected lanes up to the first fault are what is known, and that fault is held.
fn are_known(lanes: &Vector<'_>, mask: &[bool], fault: &Fault1, known: Known<'_>) -> bool {
    for (lane, is_selected) in mask.iter().enumerate() {
        if *is_selected {
            if let Some(found) = known.fault_at(lane) {
                return is_held(fault, lane, found);
            }
            match known.at(lane) {
                Some(outcome) if is_lane(lanes, lane, outcome) => {}
                _ => return false,
            }
        }
    }
    fault.held.is_none()
}

fn agrees_at(
    alloc: Global,
    expr: &Expr,
    batch: &Batch<'_>,
    mask: &[bool],
    known: Known<'_>,
) -> Result<bool, AllocError> {
    let rows = u32::try_from(batch.rows()).unwrap_or(0);
    let mut selection = Selection::all(alloc, rows)?;
    if selection.below() != batch.rows() || mask.len() != batch.rows() {
        return Ok(false);
    }
    selection.keep_marked(mask);
    let mut fault = Fault1::new();
    let lanes = eval_vec(alloc, expr, batch, &selection, &mut fault)?;
    Ok(are_known(&lanes, mask, &fault, known))
}

/// The lanes without a fault, and from the middle on those of a combination.
fn mask_with(
    alloc: Global,
    rows: usize,
    combination: usize,
    known: Known<'_>,
) -> Result<Vec<bool>, AllocError> {
    let mut mask = Vec::new(alloc);
    for lane in 0..rows {
        let is_added = lane >= rows / 2
            && lane.wrapping_add(known.first) % COMBINATIONS == combination;
        mask.push(is_added || known.fault_at(lane).is_none())?;
    }
    Ok(mask)
}

fn agrees_with(
    alloc: Global,
    expr: &Expr,
    batch: &Batch<'_>,
    combination: usize,
    known: Known<'_>,
) -> Result<bool, AllocError> {
    let mask = mask_with(alloc, batch.rows(), combination, known)?;
    agrees_at(alloc, expr, batch, mask.as_slice(), known)
}

/// On all lanes, on those without a fault, and on these with each combination that faults.
fn agrees_on(
    alloc: Global,
    expr: &Expr,
    batch: &Batch<'_>,
    known: Known<'_>,
) -> Result<bool, AllocError> {
    let all = vec![in alloc; true; batch.rows()]?;
    let mut agrees = agrees_at(alloc, expr, batch, all.as_slice(), known)?;
    for combination in 0..=COMBINATIONS {
        let is_asked = match known.outcomes.get(combination) {
            Some(Outcome::Fault(_)) | None => true,
            Some(_) => false,
        };
        if is_asked {
            agrees = agrees_with(alloc, expr, batch, combination, known)? && agrees;
        }
    }
    Ok(agrees)
}

fn agrees_over(
    alloc: Global,
    expr: &Expr,
    columns: &[CaseColumn<'_>],
    rows: usize,
    known: Known<'_>,
) -> Result<bool, AllocError> {
    let batch = batch_of(alloc, columns, rows)?;
    let result = agrees_on(alloc, expr, &batch, known);
    drop(batch);
    result
}

fn agrees_from(
    alloc: Global,
    expr: &Expr,
    rows: usize,
    outcomes: &[Outcome],
    first: usize,
) -> Result<bool, AllocError> {
    let columns = columns_from(alloc, first, rows)?;
    let known = Known { outcomes, first };
    agrees_over(alloc, expr, columns.as_slice(), rows, known)
}

/// Vectors that are shorter than the combinations begin with each of them.
fn agrees_in(
    alloc: Global,
    expr: &Expr,
    rows: usize,
    outcomes: &[Outcome],
) -> Result<bool, AllocError> {
    let firsts = if rows < COMBINATIONS { COMBINATIONS } else { 1 };
    for first in 0..firsts {
        if !agrees_from(alloc, expr, rows, outcomes, first)? {
            return Ok(false);
        }
    }
    Ok(true)
}

fn outcome_of(alloc: Global, expr: &Expr, combination: usize) -> Result<Outcome, AllocError> {
    let row = joined_row(alloc, combination)?;
    eval_row(alloc, expr, &row)
}

fn outcomes_of(alloc: Global, expr: &Expr) -> Result<Vec<Outcome>, AllocError> {
    let mut outcomes = Vec::new(alloc);
    for combination in 0..COMBINATIONS {
        outcomes.push(outcome_of(alloc, expr, combination)?)?;
    }
    Ok(outcomes)
}

fn faults_in(outcomes: &[Outcome]) -> usize {
    outcomes
        .iter()
        .filter(|outcome| matches!(outcome, Outcome::Fault(_)))
        .count()
}

fn show_outcomes(
    alloc: Global,
    shown: &mut String,
    words: &[&str],
    expr: &Expr,
    outcomes: &[Outcome],
) -> Result<(), AllocError> {
    for word in words {
        let rows = word.parse::<usize>().unwrap_or(0).min(MOST_ROWS);
        if !agrees_in(alloc, expr, rows, outcomes)? {
            writeln!(shown, "differs in vectors of {rows}")?;
        }
    }
    writeln!(shown, "{} faults", faults_in(outcomes))
}

fn show_expression(
    alloc: Global,
    shown: &mut String,
    words: &[&str],
    expr: &Expr,
) -> Result<(), AllocError> {
    let outcomes = outcomes_of(alloc, expr)?;
    show_outcomes(alloc, shown, words, expr, outcomes.as_slice())
}

fn show_line(
    alloc: Global,
    shown: &mut String,
    words: &[&str],
    line: &str,
) -> Result<(), AllocError> {
    let expr = postfix_expression(alloc, line)?;
    let result = show_expression(alloc, shown, words, &expr);
    drop(expr);
    result
}

/// For each line's expression on how many combinations it faults, and in vectors of which of these
/// lengths it gives something else than the oracle does.
pub fn show_agreement(alloc: Global, words: &[&str], body: &str) -> Result<String, AllocError> {
    let mut shown = String::new(alloc);
    for line in body.lines() {
        show_line(alloc, &mut shown, words, line)?;
    }
    Ok(shown)
}
