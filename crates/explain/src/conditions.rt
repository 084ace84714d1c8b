//! The conditions of a plan, one a line, each with the place where it is tested.
ghost use Rattle.std.specs.Prelude.{◌≡◌, IfOk, OnOk, length, string_bytes};
ghost use Rattle.explain.specs.Conditions.{AddsConditions, AreConditions, IsCondition, IsPlaceText, blanks_text, marks_words};

use crate::expressions::put;
use crate::names::Names;
use crate::placing::{Place, count_leading, place_of};
use meaning::{Expr, Plan};
use std::alloc::{AllocError, Global};

// By which marks rows of the fact are tested.
fn marks_words(leads: bool) -> &'static str
    ensures { result.now ≡ marks_words leads }
{
    if leads {
        ", before the join"
    } else {
        ", applied after the conditions above"
    }
}

fn marks_text(alloc: Global, table: &str, join: usize, leads: bool) -> Result<String, AllocError>
    ensures { IfOk result (λ text. IsPlaceText (Place.Dimension join) leads (string_bytes text)) }
{
    let words = marks_words(leads);
    format!(in alloc; "once for each row of {table}{words}")
}

fn dimension_text(
    alloc: Global,
    names: &Names<'_>,
    join: usize,
    leads: bool,
) -> Result<String, AllocError>
    ensures { IfOk result (λ text. IsPlaceText (Place.Dimension join) leads (string_bytes text)) }
{
    match names.dims.get(join) {
        Some(table) => marks_text(alloc, table.called, join, leads),
        None => marks_text(alloc, "?", join, leads),
    }
}

fn blocks_text(
    alloc: Global,
    names: &Names<'_>,
    column: usize,
    leads: bool,
) -> Result<String, AllocError>
    ensures { IfOk result (λ text. IsPlaceText (Place.Blocks column) leads (string_bytes text)) }
{
    let mut name = String::new(alloc);
    names.put_column(&mut name, &names.fact, column)?;
    let name = name.as_str();
    format!(in alloc; "once for each dictionary entry or run of {name}, else row by row")
}

/// How a condition is tested.
fn place_text(
    alloc: Global,
    names: &Names<'_>,
    place: Place,
    leads: bool,
) -> Result<String, AllocError>
    ensures { IfOk result (λ text. IsPlaceText place leads (string_bytes text)) }
{
    match place {
        Place::Dimension(join) => dimension_text(alloc, names, join, leads),
        Place::Blocks(column) => blocks_text(alloc, names, column, leads),
        Place::Rows => String::from_str(alloc, "row by row"),
    }
}

fn expression_text(
    alloc: Global,
    names: &Names<'_>,
    condition: &Expr,
) -> Result<String, AllocError> {
    let mut text = String::new(alloc);
    put(&mut text, names, condition)?;
    Ok(text)
}

/// The line of the condition that stands at this index.
fn condition_line(
    alloc: Global,
    names: &Names<'_>,
    blanks: &str,
    condition: &Expr,
    joins: usize,
    number: usize,
    leads: bool,
) -> Result<String, AllocError>
    ensures { IfOk result
        (λ line. IsCondition blanks.now joins number leads condition.now (string_bytes line)) }
{
    let text = expression_text(alloc, names, condition)?;
    let place = place_text(alloc, names, place_of(condition, joins), leads)?;
    let (text, place) = (text.as_str(), place.as_str());
    format!(in alloc; "{blanks}{number}. {text}: {place}\n")
}

fn blanks_of(alloc: Global, depth: usize) -> Result<String, AllocError>
    ensures { IfOk result (λ blanks. string_bytes blanks ≡ blanks_text depth) }
{
    let mut blanks = String::new(alloc);
    for _ in 0..depth {
        blanks.push_str("  ")?;
    }
    Ok(blanks)
}

fn add_lines(
    alloc: Global,
    names: &Names<'_>,
    blanks: &str,
    conditions: &[Expr],
    joins: usize,
    out: &mut String,
) -> Result<(), AllocError>
    ensures { OnOk result (AddsConditions blanks.now joins conditions.now (string_bytes out.old)
        (string_bytes out.new)) }
{
    let leading = count_leading(conditions, joins);
    for at in 0..conditions.len() {
        let leads = at < leading;
        let line = condition_line(alloc, names, blanks, &conditions[at], joins, at + 1, leads)?;
        out.push_str(line.as_str())?;
    }
    Ok(())
}

/// The lines of a plan's conditions, in their order, so many steps in.
pub fn condition_lines(
    alloc: Global,
    names: &Names<'_>,
    plan: &Plan,
    depth: usize,
) -> Result<String, AllocError>
    ensures { IfOk result (λ text. AreConditions (blanks_text depth) (length plan.now.joins)
        plan.now.conjuncts (string_bytes text)) }
{
    let blanks = blanks_of(alloc, depth)?;
    let mut lines = String::new(alloc);
    let joins = plan.joins.as_slice().len();
    let conditions = plan.conjuncts.as_slice();
    add_lines(alloc, names, blanks.as_str(), conditions, joins, &mut lines)?;
    Ok(lines)
}
