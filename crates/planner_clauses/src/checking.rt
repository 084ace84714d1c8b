//! The expressions of a query, up to the first fault.
ghost use Rattle.std.specs.Prelude.{◌≡◌, map, true, option_to_list};
ghost use Rattle.sql_syntax.specs.Joins.{condition_of};
ghost use Rattle.planner_clauses.specs.Checked.{as_value, as_truth, item_check, key_check, condition_check, on_trees, conditions_checked, groups_checked, checked};
ghost use Rattle.planner_expressions.specs.Results.{each_ok};

use planner_expressions::{PlanFault, Scope, Sort, judge};
use sql_syntax::{Expr, Item, JoinKind, Joined, Query};

fn value(returned: Result<Sort, PlanFault>) -> Result<(), PlanFault>
    ensures { result ≡ as_value returned }
{
    match returned {
        Ok(sort) => {
            if sort.is_value() {
                Ok(())
            } else {
                Err(PlanFault::TypeMismatch)
            }
        }
        Err(e) => Err(e),
    }
}

fn truth(returned: Result<Sort, PlanFault>) -> Result<(), PlanFault>
    ensures { result ≡ as_truth returned }
{
    match returned {
        Ok(sort) => {
            if Sort::Truth.is(sort) {
                Ok(())
            } else {
                Err(PlanFault::TypeMismatch)
            }
        }
        Err(e) => Err(e),
    }
}

fn check_items(scope: &Scope, items: &[Item]) -> Result<(), PlanFault>
    ensures { result ≡ each_ok (map (item_check scope.now) items.now) }
{
    for item in items {
        match value(judge(scope, &item.expr, false)) {
            Ok(()) => {}
            Err(e) => return Err(e),
        }
    }
    Ok(())
}

fn check_keys(scope: &Scope, keys: &[Expr]) -> Result<(), PlanFault>
    ensures { result ≡ each_ok (map (key_check scope.now) keys.now) }
{
    for key in keys {
        match value(judge(scope, key, true)) {
            Ok(()) => {}
            Err(e) => return Err(e),
        }
    }
    Ok(())
}

fn check_condition(scope: &Scope, barred: bool, condition: &Option<Expr>) -> Result<(), PlanFault>
    ensures { result ≡ each_ok
        (map (condition_check scope.now barred) (option_to_list condition.now)) }
{
    match condition {
        Some(condition) => truth(judge(scope, condition, barred)),
        None => Ok(()),
    }
}

fn check_join(scope: &Scope, kind: &JoinKind) -> Result<(), PlanFault>
    ensures { result ≡ each_ok
        (map (condition_check scope.now true) (option_to_list (condition_of kind.now))) }
{
    match kind {
        JoinKind::Comma => Ok(()),
        JoinKind::Inner(on) => truth(judge(scope, on, true)),
        JoinKind::Left(on) => truth(judge(scope, on, true)),
    }
}

fn check_ons(scope: &Scope, others: &[Joined]) -> Result<(), PlanFault>
    ensures { result ≡ each_ok (map (condition_check scope.now true) (on_trees others.now)) }
{
    for joined in others {
        match check_join(scope, &joined.kind) {
            Ok(()) => {}
            Err(e) => return Err(e),
        }
    }
    Ok(())
}

fn check_conditions(scope: &Scope, query: &Query) -> Result<(), PlanFault>
    ensures { result ≡ conditions_checked scope.now query.now }
{
    match check_ons(scope, query.source.others.as_slice()) {
        Ok(()) => check_condition(scope, true, &query.filter),
        Err(e) => Err(e),
    }
}

fn check_groups(scope: &Scope, query: &Query) -> Result<(), PlanFault>
    ensures { result ≡ groups_checked scope.now query.now }
{
    match check_keys(scope, query.group_by.as_slice()) {
        Ok(()) => check_condition(scope, false, &query.having),
        Err(e) => Err(e),
    }
}

/// The items, ON, WHERE, GROUP BY and HAVING in turn.
pub fn check(scope: &Scope, query: &Query) -> Result<(), PlanFault>
    ensures { result ≡ checked scope.now query.now }
{
    match check_items(scope, query.items.as_slice()) {
        Ok(()) => match check_conditions(scope, query) {
            Ok(()) => check_groups(scope, query),
            Err(e) => Err(e),
        },
        Err(e) => Err(e),
    }
}
