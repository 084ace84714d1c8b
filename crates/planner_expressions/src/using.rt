//! Which columns a query names.
ghost use Rattle.std.specs.Prelude.{◌≡◌, ◌||◌, false, map, option_map};
ghost use Rattle.std.specs.List.{list_any};
ghost use Rattle.std.specs.Option.{option_map_or};
ghost use Rattle.planner_expressions.specs.Uses.{names as named_by, names_arm};

use crate::naming::is_meant;
use crate::scope::ScopeColumn;
use meaning::Boxed;
use sql_syntax::{Arm, Expr};

/// A name in the expression may refer to the column.
#[cycle(names)]
pub fn names(column: &ScopeColumn, expr: &Expr) -> bool
    ensures { result ≡ named_by column.now expr.now }
{
    match expr {
        Expr::Column { table, name } => is_meant(column, table, name),
        Expr::Integer(_) => false,
        Expr::Text(_) => false,
        Expr::CountRows => false,
        Expr::Aggregate { argument, .. } => names(column, argument.get()),
        Expr::Minus(a) => names(column, a.get()),
        Expr::Arithmetic { left, right, .. } => {
            let left = names(column, left.get());
            either(left, names(column, right.get()))
        }
        Expr::Compare { left, right, .. } => {
            let left = names(column, left.get());
            either(left, names(column, right.get()))
        }
        Expr::Not(a) => names(column, a.get()),
        Expr::And { left, right } => {
            let left = names(column, left.get());
            either(left, names(column, right.get()))
        }
        Expr::Or { left, right } => {
            let left = names(column, left.get());
            either(left, names(column, right.get()))
        }
        Expr::IsNull { subject, .. } => names(column, subject.get()),
        Expr::Between {
            subject,
            low,
            high,
            ..
        } => {
            let subject = names(column, subject.get());
            let low = names(column, low.get());
            either(subject, either(low, names(column, high.get())))
        }
        Expr::In {
            subject,
            entries,
            ..
        } => {
            let subject = names(column, subject.get());
            either(subject, names_any(column, entries.as_slice()))
        }
        Expr::Like { subject, .. } => names(column, subject.get()),
        Expr::Coalesce(entries) => names_any(column, entries.as_slice()),
        Expr::Case { arms, otherwise } => {
            let arms = names_arms(column, arms.as_slice());
            either(arms, names_else(column, otherwise))
        }
    }
}

fn either(left: bool, right: bool) -> bool
    ensures { result ≡ (left || right) }
{
    left || right
}

#[cycle(names)]
fn names_any(column: &ScopeColumn, entries: &[Expr]) -> bool
    ensures { result ≡ list_any (λ x. x) (map (named_by column.now) entries.now) }
{
    for entry in entries {
        if names(column, entry) {
            return true;
        }
    }
    false
}

#[cycle(names)]
fn names_arms(column: &ScopeColumn, arms: &[Arm]) -> bool
    ensures { result ≡ list_any (λ x. x) (map (names_arm column.now) arms.now) }
{
    for arm in arms {
        let condition = names(column, &arm.condition);
        if either(condition, names(column, &arm.value)) {
            return true;
        }
    }
    false
}

#[cycle(names)]
fn names_else(column: &ScopeColumn, otherwise: &Option<Boxed<Expr>>) -> bool
    ensures { result ≡ option_map_or (λ x. x) (option_map (named_by column.now) otherwise.now) false }
{
    match otherwise {
        Some(otherwise) => names(column, otherwise.get()),
        None => false,
    }
}
