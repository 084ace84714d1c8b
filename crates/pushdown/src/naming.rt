//! Whether an expression names a column of the fact.
ghost use Rattle.std.specs.Prelude.{◌≡◌, ◌||◌, ℕ, map};
ghost use Rattle.std.specs.List.{list_any};
ghost use Rattle.meaning.specs.References.{columns_used};
ghost use Rattle.pushdown.specs.Naming.{is_fact_column, is_named, is_named_in_arm};

use meaning::{Arm, Expr};

fn either(left: bool, right: bool) -> bool
    ensures { result ≡ (left || right) }
{
    left || right
}

/// Whether an expression names a column of the fact, node by node.
#[cycle(names)]
fn names(expr: &Expr, column: usize) -> bool
    ensures { result ≡ is_named column expr.now }
{
    match expr {
        Expr::Column(at) => *at == column,
        Expr::Joined { .. } => false,
        Expr::Key(_) => false,
        Expr::Aggregate(_) => false,
        Expr::Literal(_) => false,
        Expr::Minus(a) => names(a.get(), column),
        Expr::Arithmetic(_, left, right) => {
            let left = names(left.get(), column);
            either(left, names(right.get(), column))
        }
        Expr::Compare(_, left, right) => {
            let left = names(left.get(), column);
            either(left, names(right.get(), column))
        }
        Expr::Not(a) => names(a.get(), column),
        Expr::And(left, right) => {
            let left = names(left.get(), column);
            either(left, names(right.get(), column))
        }
        Expr::Or(left, right) => {
            let left = names(left.get(), column);
            either(left, names(right.get(), column))
        }
        Expr::IsNull { subject, .. } => names(subject.get(), column),
        Expr::Between {
            subject,
            low,
            high,
            ..
        } => {
            let subject = names(subject.get(), column);
            let low = names(low.get(), column);
            either(subject, either(low, names(high.get(), column)))
        }
        Expr::In { subject, list, .. } => {
            let subject = names(subject.get(), column);
            either(subject, names_in_list(list.as_slice(), column))
        }
        Expr::Like { subject, .. } => names(subject.get(), column),
        Expr::Coalesce(list) => names_in_list(list.as_slice(), column),
        Expr::Case { arms, otherwise } => {
            let arms = names_in_arms(arms.as_slice(), column);
            either(arms, names(otherwise.get(), column))
        }
    }
}

#[cycle(names)]
fn names_in_list(list: &[Expr], column: usize) -> bool
    ensures { result ≡ list_any (λ x. x) (map (is_named column) list.now) }
{
    for expr in list {
        if names(expr, column) {
            return true;
        }
    }
    false
}

#[cycle(names)]
fn names_in_arms(arms: &[Arm], column: usize) -> bool
    ensures { result ≡ list_any (λ x. x) (map (is_named_in_arm column) arms.now) }
{
    for arm in arms {
        let when = names(&arm.when, column);
        if either(when, names(&arm.then, column)) {
            return true;
        }
    }
    false
}

/// Whether an expression names a column of the fact.
pub fn names_fact_column(expr: &Expr, column: usize) -> bool
    ensures { result ≡ list_any (is_fact_column column) (columns_used expr.now) }
{
    names(expr, column)
}
