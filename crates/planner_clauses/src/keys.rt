//! The keys and the aggregates of a query.
ghost use Rattle.std.specs.Prelude.{◌≡◌, ◌++◌, ◌∷◌, [], OnOk, IfOk, map, option_to_list};
ghost use Rattle.std.specs.List.{enumerate_from};
ghost use Rattle.planner_expressions.specs.Results.{each_ok};
ghost use Rattle.planner_clauses.specs.Aggregates.{aggregates_in, with_parts};
ghost use Rattle.planner_clauses.specs.Groups.{no_aggregates as none_gathered, aggregates_fit, is_integer as is_number, entry_check, entries_check, items_fit, keys_check, key_of as key_for, with_key, with_keys, no_keys as none_keyed, key_trees};

use crate::aggregates::{Aggregates, gather, row_type};
use crate::conjuncts::row_expr;
use meaning::{GroupingKey, MAX_AGGREGATES, MAX_KEYS, Sequence};
use planner_expressions::{PlanFault, Scope, Spelling, written};
use sql_syntax::{Expr, Item, Query};
use std::alloc::{AllocError, Global};

/// Keys, each written out and as the plan has it.
#[derive(Drop)]
pub struct Keys {
    pub written: Sequence<Spelling>,
    pub list: Sequence<GroupingKey>,
}

pub fn no_aggregates(alloc: Global) -> Aggregates
    ensures { result ≡ none_gathered }
{
    Aggregates {
        written: Sequence::new(alloc),
        list: Sequence::new(alloc),
    }
}

/// Puts the aggregates of the items behind the others.
pub fn gather_items(
    alloc: Global,
    scope: &Scope,
    items: &[Item],
    out: &mut Aggregates,
) -> Result<(), AllocError>
    ensures { OnOk result (out.new
        ≡ with_parts scope.now out.old (map (λ i. aggregates_in i.expr) items.now)) }
{
    for item in items {
        gather(alloc, scope, &item.expr, out)?;
    }
    Ok(())
}

/// Puts the aggregates of HAVING behind the others.
pub fn gather_having(
    alloc: Global,
    scope: &Scope,
    having: &Option<Expr>,
    out: &mut Aggregates,
) -> Result<(), AllocError>
    ensures { OnOk result (out.new
        ≡ with_parts scope.now out.old (map aggregates_in (option_to_list having.now))) }
{
    match having {
        Some(having) => gather(alloc, scope, having, out),
        None => Ok(()),
    }
}

/// There are no more aggregates than may be.
pub fn check_aggregates(aggregates: &Aggregates) -> Result<(), PlanFault>
    ensures { result ≡ aggregates_fit aggregates.now }
{
    if aggregates.list.len() > MAX_AGGREGATES {
        Err(PlanFault::OverLimit)
    } else {
        Ok(())
    }
}

fn is_integer(expr: &Expr) -> bool
    ensures { result ≡ is_number expr.now }
{
    match expr {
        Expr::Integer(_) => true,
        _ => false,
    }
}

fn check_entry(position: usize, entry: &Expr) -> Result<(), PlanFault>
    ensures { result ≡ entry_check (position, entry.now) }
{
    if is_integer(entry) {
        return Err(PlanFault::PositionNotAllowed);
    }
    if position >= MAX_KEYS {
        Err(PlanFault::OverLimit)
    } else {
        Ok(())
    }
}

fn check_entries(entries: &[Expr]) -> Result<(), PlanFault>
    ensures { result ≡ entries_check entries.now }
{
    for (position, entry) in entries.iter().enumerate() {
        match check_entry(position, entry) {
            Ok(()) => {}
            Err(e) => return Err(e),
        }
    }
    Ok(())
}

fn check_items(items: &[Item]) -> Result<(), PlanFault>
    ensures { result ≡ items_fit items.now }
{
    if items.len() > MAX_KEYS {
        Err(PlanFault::OverLimit)
    } else {
        Ok(())
    }
}

/// The keys are allowed, and no more than may be.
pub fn check_keys(grouped: bool, query: &Query) -> Result<(), PlanFault>
    ensures { result ≡ keys_check grouped query.now }
{
    if grouped {
        check_entries(query.group_by.as_slice())
    } else {
        check_items(query.items.as_slice())
    }
}

fn key_of(alloc: Global, scope: &Scope, expr: &Expr) -> Result<GroupingKey, AllocError>
    ensures { IfOk result (λ k. k ≡ key_for scope.now expr.now) }
{
    let col_type = row_type(scope, expr);
    Ok(GroupingKey {
        expr: row_expr(alloc, scope, expr)?,
        col_type,
    })
}

fn push_key(alloc: Global, scope: &Scope, expr: &Expr, out: &mut Keys) -> Result<(), AllocError>
    ensures { OnOk result (out.new ≡ with_key scope.now out.old expr.now) }
{
    let written = written(alloc, scope, expr)?;
    out.written.push(written)?;
    let key = key_of(alloc, scope, expr)?;
    out.list.push(key)
}

fn push_trees(
    alloc: Global,
    scope: &Scope,
    trees: &[Expr],
    out: &mut Keys,
) -> Result<(), AllocError>
    ensures { OnOk result (out.new ≡ with_keys scope.now out.old trees.now) }
{
    for tree in trees {
        push_key(alloc, scope, tree, out)?;
    }
    Ok(())
}

fn push_items(
    alloc: Global,
    scope: &Scope,
    items: &[Item],
    out: &mut Keys,
) -> Result<(), AllocError>
    ensures { OnOk result (out.new ≡ with_keys scope.now out.old (map (λ i. i.expr) items.now)) }
{
    for item in items {
        push_key(alloc, scope, &item.expr, out)?;
    }
    Ok(())
}

pub fn no_keys(alloc: Global) -> Keys
    ensures { result ≡ none_keyed }
{
    Keys {
        written: Sequence::new(alloc),
        list: Sequence::new(alloc),
    }
}

/// Puts the query's keys behind the others.
pub fn push_keys(
    alloc: Global,
    scope: &Scope,
    grouped: bool,
    query: &Query,
    out: &mut Keys,
) -> Result<(), AllocError>
    ensures { OnOk result (out.new ≡ with_keys scope.now out.old (key_trees grouped query.now)) }
{
    if grouped {
        push_trees(alloc, scope, query.group_by.as_slice(), out)
    } else {
        push_items(alloc, scope, query.items.as_slice(), out)
    }
}
