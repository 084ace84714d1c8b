//! Which operator an expression begins with where it is written out.
ghost use Rattle.std.specs.Prelude.{◌≡◌};
ghost use Rattle.std.specs.List.{list_any};
ghost use Rattle.planner_expressions.specs.Operators.{operator_of as operator_in, is_mark_of as marked_by, begins as begins_by, may_be_among as may_be};

use crate::marks::{Mark, Operator, Spelling};
use sql_syntax::Expr;

/// A name and a literal have none.
fn operator_of(expr: &Expr) -> Option<Operator>
    ensures { result ≡ operator_in expr.now }
{
    Some(match expr {
        Expr::Column { .. } | Expr::Integer(_) | Expr::Text(_) => return None,
        Expr::CountRows => Operator::CountRows,
        Expr::Aggregate { kind, .. } => Operator::Aggregate(*kind),
        Expr::Minus(_) => Operator::Minus,
        Expr::Arithmetic { operator, .. } => Operator::Arithmetic(*operator),
        Expr::Compare { operator, .. } => Operator::Compare(*operator),
        Expr::Not(_) => Operator::Not,
        Expr::And { .. } => Operator::And,
        Expr::Or { .. } => Operator::Or,
        Expr::IsNull { negated, .. } => Operator::IsNull { negated: *negated },
        Expr::Between { negated, .. } => Operator::Between { negated: *negated },
        Expr::In { negated, .. } => Operator::In { negated: *negated },
        Expr::Like { negated, .. } => Operator::Like { negated: *negated },
        Expr::Coalesce(_) => Operator::Coalesce,
        Expr::Case { .. } => Operator::Case,
    })
}

fn is_mark_of(operator: Operator, mark: &Mark) -> bool
    ensures { result ≡ marked_by operator mark.now }
{
    match mark {
        Mark::Operator(other) => operator == *other,
        _ => false,
    }
}

fn begins(operator: Operator, spelling: &[Mark]) -> bool
    ensures { result ≡ begins_by operator spelling.now }
{
    match spelling {
        [] => false,
        [first, ..] => is_mark_of(operator, first),
    }
}

fn begins_any(operator: Operator, list: &[Spelling]) -> bool
    ensures { result ≡ list_any (begins_by operator) list.now }
{
    list.iter()
        .any(|spelling| begins(operator, spelling.as_slice()))
}

/// Whether a tree of one of the lists begins with the operator of this one, so that they may be
/// the same.
pub fn may_be_among(keys: &[Spelling], aggregates: &[Spelling], expr: &Expr) -> bool
    ensures { result ≡ may_be keys.now aggregates.now (operator_in expr.now) }
{
    match operator_of(expr) {
        None => true,
        Some(operator) => begins_any(operator, keys) || begins_any(operator, aggregates),
    }
}
