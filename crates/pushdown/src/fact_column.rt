//! Conditions that stand on one column of the fact.
ghost use Rattle.std.specs.Prelude.{◌≡◌, ◌≢◌, ℕ, map, IsNone, IsSome, IfSome};
ghost use Rattle.meaning.specs.declared.joined_row.JoinedRow.{JoinedRow};
ghost use Rattle.meaning.specs.declared.outcome.Fault.{Fault};
ghost use Rattle.meaning.specs.declared.outcome.Outcome.TheVariants as gives;
ghost use Rattle.meaning.specs.Expr.{eval};
ghost use Rattle.pushdown.specs.FactColumn.{StandsOn, first_of, first_some, named_column, named_in_arm};

use crate::condition::{Source, can_push_down};
use meaning::{Arm, Expr};

fn first_named(left: Option<usize>, right: Option<usize>) -> Option<usize>
    ensures { result ≡ first_of left right }
{
    match left {
        Some(column) => Some(column),
        None => right,
    }
}

/// The first column of the fact that is named.
#[cycle(column_in)]
fn column_in(expr: &Expr) -> Option<usize>
    ensures { result ≡ named_column expr.now }
{
    match expr {
        Expr::Column(column) => Some(*column),
        Expr::Joined { .. } => None,
        Expr::Key(_) => None,
        Expr::Aggregate(_) => None,
        Expr::Literal(_) => None,
        Expr::Minus(a) => column_in(a.get()),
        Expr::Arithmetic(_, left, right) => {
            let left = column_in(left.get());
            first_named(left, column_in(right.get()))
        }
        Expr::Compare(_, left, right) => {
            let left = column_in(left.get());
            first_named(left, column_in(right.get()))
        }
        Expr::Not(a) => column_in(a.get()),
        Expr::And(left, right) => {
            let left = column_in(left.get());
            first_named(left, column_in(right.get()))
        }
        Expr::Or(left, right) => {
            let left = column_in(left.get());
            first_named(left, column_in(right.get()))
        }
        Expr::IsNull { subject, .. } => column_in(subject.get()),
        Expr::Between {
            subject,
            low,
            high,
            ..
        } => {
            let subject = column_in(subject.get());
            let low = column_in(low.get());
            first_named(subject, first_named(low, column_in(high.get())))
        }
        Expr::In { subject, list, .. } => {
            let subject = column_in(subject.get());
            first_named(subject, column_in_list(list.as_slice()))
        }
        Expr::Like { subject, .. } => column_in(subject.get()),
        Expr::Coalesce(list) => column_in_list(list.as_slice()),
        Expr::Case { arms, otherwise } => {
            let arms = column_in_arms(arms.as_slice());
            first_named(arms, column_in(otherwise.get()))
        }
    }
}

#[cycle(column_in)]
fn column_in_list(list: &[Expr]) -> Option<usize>
    ensures { result ≡ first_some (map named_column list.now) }
{
    for expr in list {
        if let Some(column) = column_in(expr) {
            return Some(column);
        }
    }
    None
}

#[cycle(column_in)]
fn column_in_arms(arms: &[Arm]) -> Option<usize>
    ensures { result ≡ first_some (map named_in_arm arms.now) }
{
    for arm in arms {
        let when = column_in(&arm.when);
        if let Some(column) = first_named(when, column_in(&arm.then)) {
            return Some(column);
        }
    }
    None
}

/// The column of the fact that a condition stands on: it names this column and nothing else, and
/// can't fault. A condition that names no column stands on none.
pub fn fact_column_of(condition: &Expr) -> Option<usize>
    ensures some { IfSome result (λ column. StandsOn column condition.now) }
    ensures faultless { IsSome result
        → (row : JoinedRow) (fault : Fault) → eval condition.now row ≢ gives.Fault fault }
    ensures none { IsNone result → (column : ℕ) → StandsOn column condition.now → ⊥ }
{
    let Some(column) = column_in(condition) else {
        return None;
    };
    if can_push_down(condition, Source::FactColumn(column)) {
        return Some(column);
    }
    None
}
