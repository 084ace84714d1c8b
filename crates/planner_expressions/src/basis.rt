//! What expressions are made of: columns of rows, or keys and aggregates of groups.
ghost use Rattle.std.specs.Prelude.{◌≡◌, IfOk, Option, option_map};
ghost use Rattle.meaning.specs.declared.expr.Expr as plan;
ghost use Rattle.planner_expressions.specs.Given.{column_expr, column_meant, group_given, given_in};
ghost use Rattle.planner_expressions.specs.Spelled.{spelled};

use crate::marks::Spelling;
use crate::naming::look_up;
use crate::operators::may_be_among;
use crate::scope::{Scope, ScopeColumn};
use crate::spelling::{find_same, spell};
use meaning::{Expr, Sequence};
use sql_syntax::tree;
use std::alloc::{AllocError, Global};

/// What an expression of a plan may read.
#[derive(Drop)]
pub enum Basis {
    /// The columns of a joined row.
    Rows,
    /// The keys and the aggregates of a group, each written out.
    Groups {
        keys: Sequence<Spelling>,
        aggregates: Sequence<Spelling>,
    },
}

fn expr_at(column: &ScopeColumn) -> Expr
    ensures { result ≡ column_expr column.now }
{
    match column.join {
        Some(join) => Expr::Joined {
            join,
            column: column.column,
        },
        None => Expr::Column(column.column),
    }
}

/// The column that an expression refers to, where it is a name alone.
pub fn column_of<'a>(scope: &'a Scope, expr: &tree::Expr) -> Option<&'a ScopeColumn>
    ensures { option_map (λ p. p.now) result ≡ column_meant scope.now expr.now }
{
    match expr {
        tree::Expr::Column { table, name } => match look_up(scope, table, name) {
            Ok(column) => Some(column),
            Err(_) => None,
        },
        _ => None,
    }
}

fn row_given(scope: &Scope, expr: &tree::Expr) -> Option<Expr>
    ensures { result ≡ option_map column_expr (column_meant scope.now expr.now) }
{
    column_of(scope, expr).map(expr_at)
}

fn found_in_group(keys: &[Spelling], aggregates: &[Spelling], written: &Spelling) -> Option<Expr>
    ensures { result ≡ group_given keys.now aggregates.now written.now }
{
    match find_same(keys, written) {
        Some(key) => Some(Expr::Key(key)),
        None => match find_same(aggregates, written) {
            Some(aggregate) => Some(Expr::Aggregate(aggregate)),
            None => None,
        },
    }
}

/// The expression written out.
pub fn written(alloc: Global, scope: &Scope, expr: &tree::Expr) -> Result<Spelling, AllocError>
    ensures { IfOk result (λ x. x ≡ spelled scope.now expr.now) }
{
    let mut out = Sequence::new(alloc);
    match spell(scope, expr, &mut out) {
        Ok(()) => Ok(out),
        Err(e) => {
            drop(out);
            Err(e)
        }
    }
}

/// What the expression becomes, if anything is given for it. It is written out only where a key or
/// an aggregate begins with its operator, or where it has none.
pub fn given(
    alloc: Global,
    scope: &Scope,
    basis: &Basis,
    expr: &tree::Expr,
) -> Result<Option<Expr>, AllocError>
    ensures { IfOk result (λ x. x ≡ given_in scope.now basis.now expr.now) }
{
    match basis {
        Basis::Rows => Ok(row_given(scope, expr)),
        Basis::Groups { keys, aggregates } => {
            if !may_be_among(keys.as_slice(), aggregates.as_slice(), expr) {
                return Ok(None);
            }
            let written = written(alloc, scope, expr)?;
            Ok(found_in_group(keys.as_slice(), aggregates.as_slice(), &written))
        }
    }
}
