//! The conjuncts of ON and WHERE.
ghost use Rattle.std.specs.Prelude.{◌≡◌, ◌++◌, OnOk, IfOk, flat_map, filter, find, length, option_and_then, option_copied, option_to_list, slice_get, ℕ};
ghost use Rattle.sql_syntax.specs.Joins.{condition_of};
ghost use Rattle.meaning.specs.declared.plan.JoinType.TheVariants.{Inner};
ghost use Rattle.planner_expressions.specs.Given.{column_meant};
ghost use Rattle.planner_clauses.specs.Conjuncts.{keyed as keyed_by, equality_of, join_equality, joins_left as left_dim, dim_is_left, inner_equality as inner_one, row_expr as expr_of, with_condition, with_conjunct, with_conjuncts, with_on, with_ons, with_all, conjuncts_of, joins_dim, equality_for as equality_of_dim, one_equality, left_on as on_of_left, goes_by as goes_by_it, left_on_of as on_of_dim, if_own, left_equality_for as left_equality_of};

use meaning::{ComparisonOperator, JoinType, Sequence, Text, Value, expr};
use planner_expressions::{
    Basis, Dim, PlanFault, Scope, ScopeColumn, column_of, is_left, name_of, translate,
};
use sql_syntax::{Expr, JoinKind, Joined, Query};
use std::alloc::{AllocError, Global};

/// That a column of the fact equals the key of a dimension of FROM.
#[derive(Clone, Copy)]
pub struct Equality {
    /// Which of the dimensions.
    pub join: usize,
    /// The fact's column.
    pub foreign: usize,
    /// The dimension's.
    pub key: usize,
}

/// The join equalities, and the other conditions, each in their order.
#[derive(Drop)]
pub struct Conjuncts {
    pub equalities: Sequence<Equality>,
    pub plain: Sequence<expr::Expr>,
}

fn keyed(x: &ScopeColumn, k: &ScopeColumn) -> Option<Equality>
    ensures { result ≡ keyed_by x.now k.now }
{
    match k.join {
        Some(join) => {
            if k.is_key && x.join.is_none() {
                Some(Equality {
                    join,
                    foreign: x.column,
                    key: k.column,
                })
            } else {
                None
            }
        }
        None => None,
    }
}

fn either(x: &ScopeColumn, k: &ScopeColumn) -> Option<Equality>
    ensures { result ≡ equality_of (Some x.now) (Some k.now) }
{
    match keyed(x, k) {
        Some(found) => Some(found),
        None => keyed(k, x),
    }
}

fn equal_columns(scope: &Scope, left: &Expr, right: &Expr) -> Option<Equality>
    ensures { result ≡ equality_of (column_meant scope.now left.now)
        (column_meant scope.now right.now) }
{
    match column_of(scope, left) {
        Some(left) => match column_of(scope, right) {
            Some(right) => either(left, right),
            None => None,
        },
        None => None,
    }
}

/// The join equality that a conjunct is, if it is one.
fn find_equality(scope: &Scope, expr: &Expr) -> Option<Equality>
    ensures { result ≡ join_equality scope.now expr.now }
{
    match expr {
        Expr::Compare {
            operator,
            left,
            right,
        } => match operator {
            ComparisonOperator::Equal => equal_columns(scope, left.get(), right.get()),
            ComparisonOperator::NotEqual => None,
            ComparisonOperator::Less => None,
            ComparisonOperator::LessOrEqual => None,
            ComparisonOperator::Greater => None,
            ComparisonOperator::GreaterOrEqual => None,
        },
        _ => None,
    }
}

fn joins_left(scope: &Scope, equality: &Equality) -> bool
    ensures { result ≡ left_dim scope.now equality.now }
{
    match scope.dims.as_slice().get(equality.join) {
        Some(dim) => is_left(dim.join_type),
        None => false,
    }
}

/// The join equality of an inner join that a conjunct is, if it is one.
fn inner_equality(scope: &Scope, expr: &Expr) -> Option<Equality>
    ensures { result ≡ inner_one scope.now expr.now }
{
    match find_equality(scope, expr) {
        Some(found) => {
            if joins_left(scope, &found) {
                None
            } else {
                Some(found)
            }
        }
        None => None,
    }
}

/// The expression over a joined row.
pub fn row_expr(alloc: Global, scope: &Scope, expr: &Expr) -> Result<expr::Expr, AllocError>
    ensures { IfOk result (λ x. x ≡ expr_of scope.now expr.now) }
{
    match translate(alloc, scope, &Basis::Rows, expr) {
        Ok(Some(found)) => Ok(found),
        Ok(None) => Ok(expr::Expr::Literal(Value::Null)),
        Err(e) => Err(e),
    }
}

/// Puts a condition behind the others, unless it stands in the ON of a LEFT JOIN.
fn add_plain(
    alloc: Global,
    scope: &Scope,
    by: JoinType,
    expr: &Expr,
    out: &mut Conjuncts,
) -> Result<(), AllocError>
    ensures { OnOk result (out.new ≡ with_condition scope.now by out.old expr.now) }
{
    match by {
        JoinType::Inner => {
            let found = row_expr(alloc, scope, expr)?;
            out.plain.push(found)
        }
        JoinType::Left => Ok(()),
    }
}

fn add_conjunct(
    alloc: Global,
    scope: &Scope,
    by: JoinType,
    expr: &Expr,
    out: &mut Conjuncts,
) -> Result<(), AllocError>
    ensures { OnOk result (out.new ≡ with_conjunct scope.now by out.old expr.now) }
{
    match inner_equality(scope, expr) {
        Some(found) => out.equalities.push(found),
        None => add_plain(alloc, scope, by, expr, out),
    }
}

/// Puts the operands of the topmost ANDs behind the others.
#[cycle(conjuncts)]
fn add_conjuncts(
    alloc: Global,
    scope: &Scope,
    by: JoinType,
    expr: &Expr,
    out: &mut Conjuncts,
) -> Result<(), AllocError>
    ensures { OnOk result (out.new ≡ with_conjuncts scope.now by out.old (conjuncts_of expr.now)) }
{
    match expr {
        Expr::And { left, right } => {
            add_conjuncts(alloc, scope, by, left.get(), out)?;
            add_conjuncts(alloc, scope, by, right.get(), out)
        }
        _ => add_conjunct(alloc, scope, by, expr, out),
    }
}

fn add_condition(
    alloc: Global,
    scope: &Scope,
    condition: &Option<Expr>,
    out: &mut Conjuncts,
) -> Result<(), AllocError>
    ensures { OnOk result (out.new ≡ with_conjuncts scope.now Inner out.old
        (flat_map conjuncts_of (option_to_list condition.now))) }
{
    match condition {
        Some(condition) => add_conjuncts(alloc, scope, JoinType::Inner, condition, out),
        None => Ok(()),
    }
}

fn add_join(
    alloc: Global,
    scope: &Scope,
    kind: &JoinKind,
    out: &mut Conjuncts,
) -> Result<(), AllocError>
    ensures { OnOk result (out.new ≡ with_on scope.now out.old kind.now) }
{
    match kind {
        JoinKind::Comma => Ok(()),
        JoinKind::Inner(on) => add_conjuncts(alloc, scope, JoinType::Inner, on, out),
        JoinKind::Left(on) => add_conjuncts(alloc, scope, JoinType::Left, on, out),
    }
}

fn add_ons(
    alloc: Global,
    scope: &Scope,
    others: &[Joined],
    out: &mut Conjuncts,
) -> Result<(), AllocError>
    ensures { OnOk result (out.new ≡ with_ons scope.now out.old others.now) }
{
    for joined in others {
        add_join(alloc, scope, &joined.kind, out)?;
    }
    Ok(())
}

/// Puts the conjuncts of each ON, and then those of WHERE, behind the others.
pub fn add_all(
    alloc: Global,
    scope: &Scope,
    query: &Query,
    out: &mut Conjuncts,
) -> Result<(), AllocError>
    ensures { OnOk result (out.new ≡ with_all scope.now out.old query.now) }
{
    add_ons(alloc, scope, query.source.others.as_slice(), out)?;
    add_condition(alloc, scope, &query.filter, out)
}

fn joins(equality: &Equality, dim: usize) -> bool
    ensures { result ≡ joins_dim dim equality.now }
{
    equality.join == dim
}

fn count_for(equalities: &[Equality], dim: usize) -> usize
    ensures { result ≡ length (filter (joins_dim dim) equalities.now) }
{
    equalities
        .iter()
        .filter(|equality| joins(equality, dim))
        .count()
}

fn first_for(equalities: &[Equality], dim: usize) -> Option<&Equality>
    ensures { option_copied result ≡ find (joins_dim dim) equalities.now }
{
    equalities.iter().find(|equality| joins(equality, dim))
}

/// The one join equality of a dimension of FROM.
pub fn equality_for(equalities: &[Equality], dim: usize) -> Result<Equality, PlanFault>
    ensures { result ≡ equality_of_dim equalities.now dim }
{
    let count = count_for(equalities, dim);
    match first_for(equalities, dim) {
        None => Err(PlanFault::NoEquality),
        Some(first) => {
            if count == 1 {
                Ok(*first)
            } else {
                Err(PlanFault::TwoEqualities)
            }
        }
    }
}

fn left_on(joined: &Joined) -> Option<&Expr>
    ensures { option_copied result ≡ on_of_left joined.now.kind }
{
    match &joined.kind {
        JoinKind::Comma => None,
        JoinKind::Inner(_) => None,
        JoinKind::Left(on) => Some(on),
    }
}

fn goes_by(joined: &Joined, name: &Text) -> bool
    ensures { result ≡ goes_by_it name.now joined.now }
{
    name_of(&joined.table).as_str() == name.as_str()
}

fn find_joined<'a>(others: &'a [Joined], name: &Text) -> Option<&'a Joined>
    ensures { option_copied result ≡ find (goes_by_it name.now) others.now }
{
    others.iter().find(|joined| goes_by(joined, name))
}

/// The ON of the LEFT JOIN of a dimension.
fn left_on_of<'a>(others: &'a [Joined], dim: &Dim) -> Option<&'a Expr>
    ensures { option_copied result ≡ on_of_dim others.now dim.now }
{
    match find_joined(others, &dim.called) {
        Some(joined) => left_on(joined),
        None => None,
    }
}

fn own_equality(found: Option<Equality>, join: usize) -> Result<Equality, PlanFault>
    ensures { result ≡ if_own join found }
{
    match found {
        Some(found) => {
            if joins(&found, join) {
                Ok(found)
            } else {
                Err(PlanFault::LeftNotByEquality)
            }
        }
        None => Err(PlanFault::LeftNotByEquality),
    }
}

/// The join equality that the ON of a LEFT JOIN is.
pub fn left_equality_for(
    scope: &Scope,
    others: &[Joined],
    join: usize,
    dim: &Dim,
) -> Result<Equality, PlanFault>
    ensures { result ≡ left_equality_of scope.now others.now (join, dim.now) }
{
    match left_on_of(others, dim) {
        Some(on) => own_equality(find_equality(scope, on), join),
        None => Err(PlanFault::LeftNotByEquality),
    }
}
