//! Which columns of which tables a query reads, and how the tables are joined.
ghost use Rattle.std.specs.Prelude.{◌≡◌, ◌++◌, ◌∷◌, [], ◌||◌, ◌&&◌, OnOk, IfOk, map, filter, option_to_list};
ghost use Rattle.std.specs.List.{list_any, enumerate_from};
ghost use Rattle.planner_expressions.specs.Results.{map_ok, Reports};
ghost use Rattle.planner_expressions.specs.Uses.{names as names_it};
ghost use Rattle.sql_syntax.specs.Joins.{condition_of};
ghost use Rattle.planner_clauses.specs.Checked.{on_trees, conditions};
ghost use Rattle.planner.specs.Planned.{is_named as named_in, same_join as of_join, is_read as read_in, use_of, table_use as used_of, equality_by, join_of, joins_of};

use meaning::{ColumnUse, Join, JoinType, Sequence, TableUse, Text};
use planner_clauses::{Equality, equality_for, left_equality_for};
use planner_expressions::{Dim, PlanFault, Scope, ScopeColumn, names};
use sql_syntax::{Expr, Item, JoinKind, Joined, Query};
use std::alloc::{AllocError, Global};

fn in_items(column: &ScopeColumn, items: &[Item]) -> bool
    ensures { result ≡ list_any (λ i. names_it column.now i.expr) items.now }
{
    items.iter().any(|item| names(column, &item.expr))
}

fn in_trees(column: &ScopeColumn, trees: &[Expr]) -> bool
    ensures { result ≡ list_any (names_it column.now) trees.now }
{
    trees.iter().any(|tree| names(column, tree))
}

fn in_condition(column: &ScopeColumn, condition: &Option<Expr>) -> bool
    ensures { result ≡ list_any (names_it column.now) (option_to_list condition.now) }
{
    match condition {
        Some(condition) => names(column, condition),
        None => false,
    }
}

fn in_join(column: &ScopeColumn, kind: &JoinKind) -> bool
    ensures { result ≡ list_any (names_it column.now) (option_to_list (condition_of kind.now)) }
{
    match kind {
        JoinKind::Comma => false,
        JoinKind::Inner(on) => names(column, on),
        JoinKind::Left(on) => names(column, on),
    }
}

fn in_ons(column: &ScopeColumn, others: &[Joined]) -> bool
    ensures { result ≡ list_any (names_it column.now) (on_trees others.now) }
{
    for joined in others {
        if in_join(column, &joined.kind) {
            return true;
        }
    }
    false
}

fn in_conditions(column: &ScopeColumn, query: &Query) -> bool
    ensures { result ≡ list_any (names_it column.now) (conditions query.now) }
{
    in_ons(column, query.source.others.as_slice()) || in_condition(column, &query.filter)
}

fn in_groups(column: &ScopeColumn, query: &Query) -> bool
    ensures { result ≡ (list_any (names_it column.now) query.now.group_by || list_any
        (names_it column.now) (option_to_list query.now.having)) }
{
    in_trees(column, query.group_by.as_slice()) || in_condition(column, &query.having)
}

/// Some expression of the query names the column.
fn is_named(query: &Query, column: &ScopeColumn) -> bool
    ensures { result ≡ named_in query.now column.now }
{
    in_items(column, query.items.as_slice())
        || (in_conditions(column, query) || in_groups(column, query))
}

fn same_join(left: Option<usize>, right: Option<usize>) -> bool
    ensures { result ≡ of_join left right }
{
    match left {
        None => right.is_none(),
        Some(left) => match right {
            None => false,
            Some(right) => left == right,
        },
    }
}

fn is_read(query: &Query, join: Option<usize>, column: &ScopeColumn) -> bool
    ensures { result ≡ read_in query.now join column.now }
{
    same_join(join, column.join) && is_named(query, column)
}

fn column_use(column: &ScopeColumn) -> Result<ColumnUse, AllocError>
    ensures { IfOk result (λ c. c ≡ use_of column.now) }
{
    Ok(ColumnUse {
        column: column.column,
        name: column.name.clone()?,
        col_type: column.col_type,
    })
}

/// Puts the column behind the others, if the query reads it.
fn push_use(
    query: &Query,
    join: Option<usize>,
    column: &ScopeColumn,
    out: &mut Sequence<ColumnUse>,
) -> Result<(), AllocError>
    ensures { OnOk result (out.new ≡ out.old
        ++ map use_of (filter (read_in query.now join) (column.now ∷ []))) }
{
    if is_read(query, join, column) {
        let used = column_use(column)?;
        return out.push(used);
    }
    Ok(())
}

fn push_uses(
    query: &Query,
    join: Option<usize>,
    columns: &[ScopeColumn],
    out: &mut Sequence<ColumnUse>,
) -> Result<(), AllocError>
    ensures { OnOk result (out.new ≡ out.old
        ++ map use_of (filter (read_in query.now join) columns.now)) }
{
    for column in columns {
        push_use(query, join, column, out)?;
    }
    Ok(())
}

fn table_from(
    name: &Text,
    columns: Sequence<ColumnUse>,
    pushed: Result<(), AllocError>,
) -> Result<TableUse, AllocError>
    ensures ok { IfOk result (λ t. t ≡ record { name = name.now; columns = columns }) }
    ensures pushed { IfOk result (λ _. pushed ≡ Ok tt) }
{
    match pushed {
        Ok(()) => match name.clone() {
            Ok(name) => Ok(TableUse { name, columns }),
            Err(e) => {
                drop(columns);
                Err(e)
            }
        },
        Err(e) => {
            drop(columns);
            Err(e)
        }
    }
}

/// A table with those of its columns that the query names.
pub fn table_use(
    alloc: Global,
    scope: &Scope,
    query: &Query,
    join: Option<usize>,
    name: &Text,
) -> Result<TableUse, AllocError>
    ensures { IfOk result (λ t. t ≡ used_of scope.now query.now join name.now) }
{
    let mut columns = Sequence::new(alloc);
    let pushed = push_uses(query, join, scope.columns.as_slice(), &mut columns);
    table_from(name, columns, pushed)
}

/// The equality by which a dimension of FROM is joined.
fn equality_at(
    scope: &Scope,
    others: &[Joined],
    equalities: &[Equality],
    join: usize,
    dim: &Dim,
) -> Result<Equality, PlanFault>
    ensures { result ≡ equality_by dim.now.join_type scope.now others.now equalities.now
        (join, dim.now) }
{
    match dim.join_type {
        JoinType::Inner => equality_for(equalities, join),
        JoinType::Left => left_equality_for(scope, others, join, dim),
    }
}

/// A dimension of FROM, joined by its one equality.
fn join_at(
    alloc: Global,
    scope: &Scope,
    query: &Query,
    equalities: &[Equality],
    join: usize,
    dim: &Dim,
) -> Result<Join, PlanFault>
    ensures { Reports result (join_of scope.now query.now equalities.now (join, dim.now)) }
{
    let join_type = dim.join_type;
    let others = query.source.others.as_slice();
    match equality_at(scope, others, equalities, join, dim) {
        Ok(equality) => match table_use(alloc, scope, query, Some(join), &dim.name) {
            Ok(dim) => Ok(Join {
                dim,
                join_type,
                foreign: equality.foreign,
                key: equality.key,
            }),
            Err(_) => Err(PlanFault::Memory),
        },
        Err(e) => Err(e),
    }
}

fn put_join(join: Result<Join, PlanFault>, out: &mut Sequence<Join>) -> Result<(), PlanFault>
    ensures { Reports (map_ok (λ _. out.new) result) (map_ok (λ j. out.old ++ j ∷ []) join) }
{
    match join {
        Ok(join) => match out.push(join) {
            Ok(()) => Ok(()),
            Err(_) => Err(PlanFault::Memory),
        },
        Err(e) => Err(e),
    }
}

/// Puts the joins behind the others, in the order of FROM.
pub fn push_joins(
    alloc: Global,
    scope: &Scope,
    query: &Query,
    equalities: &[Equality],
    out: &mut Sequence<Join>,
) -> Result<(), PlanFault>
    ensures { Reports (map_ok (λ _. out.new) result)
        (map_ok (λ js. out.old ++ js) (joins_of scope.now query.now equalities.now)) }
{
    for (join, dim) in scope.dims.as_slice().iter().enumerate() {
        match put_join(join_at(alloc, scope, query, equalities, join, dim), out) {
            Ok(()) => {}
            Err(e) => return Err(e),
        }
    }
    Ok(())
}
