//! The groups of a plan, and what is shown of them.
ghost use Rattle.std.specs.Prelude.{◌≡◌, IfOk, not, Ok};
ghost use Rattle.meaning.specs.Results.{and_then};
ghost use Rattle.planner_expressions.specs.Results.{map_ok, Reports};
ghost use Rattle.planner_clauses.specs.Groups.{no_aggregates as none_gathered, all_aggregates, grouped_with, limits_check, keys_by};
ghost use Rattle.planner_expressions.specs.declared.basis.Basis.TheVariants.{Groups};
ghost use Rattle.planner_clauses.specs.Shown.{items_of, order_of};
ghost use Rattle.planner.specs.Planned.{shown_of as shown_in, groups_with, groups_of as groups_in, basis_of};

use crate::parts::{Grouped, Shown};
use meaning::{Item, OrderKey, Sequence};
use planner_clauses::{
    Aggregates, Keys, check_aggregates, check_keys, gather_having, gather_items, having_of,
    no_aggregates, no_keys, push_items, push_keys, push_order,
};
use planner_expressions::{Basis, PlanFault, Scope};
use sql_syntax::Query;
use std::alloc::{AllocError, Global};

fn items(
    alloc: Global,
    scope: &Scope,
    query: &Query,
    basis: &Basis,
) -> Result<Sequence<Item>, PlanFault>
    ensures { Reports result (items_of scope.now basis.now query.now.items) }
{
    let mut out = Sequence::new(alloc);
    match push_items(alloc, scope, basis, query.items.as_slice(), &mut out) {
        Ok(()) => Ok(out),
        Err(e) => {
            drop(out);
            Err(e)
        }
    }
}

fn order(alloc: Global, query: &Query) -> Result<Sequence<OrderKey>, PlanFault>
    ensures { Reports result (order_of query.now.items query.now.order_by) }
{
    let mut out = Sequence::new(alloc);
    match push_order(query.items.as_slice(), query.order_by.as_slice(), &mut out) {
        Ok(()) => Ok(out),
        Err(e) => {
            drop(out);
            Err(e)
        }
    }
}

fn shown(alloc: Global, scope: &Scope, query: &Query, basis: &Basis) -> Result<Shown, PlanFault>
    ensures { Reports result (shown_in scope.now query.now basis.now) }
{
    match items(alloc, scope, query, basis) {
        Ok(items) => match having_of(alloc, scope, basis, &query.having) {
            Ok(having) => match order(alloc, query) {
                Ok(order) => Ok(Shown {
                    items,
                    having,
                    order,
                }),
                Err(e) => {
                    drop(items);
                    drop(having);
                    Err(e)
                }
            },
            Err(e) => {
                drop(items);
                Err(e)
            }
        },
        Err(e) => Err(e),
    }
}

/// A query with GROUP BY, HAVING or an aggregate.
fn is_grouped(query: &Query, aggregates: &Aggregates) -> bool
    ensures { result ≡ grouped_with query.now aggregates.now }
{
    query.group_by.len() != 0 || (query.having.is_some() || aggregates.list.len() != 0)
}

fn gather_all(
    alloc: Global,
    scope: &Scope,
    query: &Query,
    out: &mut Aggregates,
) -> Result<(), PlanFault>
    requires { out.old ≡ none_gathered }
    ensures { Reports (map_ok (λ _. out.new) result)
        (and_then (limits_check scope.now query.now) (λ _. Ok
        (all_aggregates scope.now query.now))) }
{
    match gather_items(alloc, scope, query.items.as_slice(), out) {
        Ok(()) => {}
        Err(_) => return Err(PlanFault::Memory),
    }
    match check_aggregates(out) {
        Ok(()) => {}
        Err(e) => return Err(e),
    }
    match gather_having(alloc, scope, &query.having, out) {
        Ok(()) => {}
        Err(_) => return Err(PlanFault::Memory),
    }
    match check_keys(is_grouped(query, out), query) {
        Ok(()) => check_aggregates(out),
        Err(e) => Err(e),
    }
}

fn aggregates(alloc: Global, scope: &Scope, query: &Query) -> Result<Aggregates, PlanFault>
    ensures { Reports result (and_then (limits_check scope.now query.now)
        (λ _. Ok (all_aggregates scope.now query.now))) }
{
    let mut out = no_aggregates(alloc);
    match gather_all(alloc, scope, query, &mut out) {
        Ok(()) => Ok(out),
        Err(e) => {
            drop(out);
            Err(e)
        }
    }
}

fn keys(alloc: Global, scope: &Scope, query: &Query, grouped: bool) -> Result<Keys, AllocError>
    ensures { IfOk result (λ k. k ≡ keys_by grouped scope.now query.now) }
{
    let mut out = no_keys(alloc);
    match push_keys(alloc, scope, grouped, query, &mut out) {
        Ok(()) => Ok(out),
        Err(e) => {
            drop(out);
            Err(e)
        }
    }
}

fn groups_from(
    alloc: Global,
    scope: &Scope,
    query: &Query,
    plain: bool,
    keys: Keys,
    aggregates: Aggregates,
) -> Result<Grouped, PlanFault>
    ensures { Reports result (and_then
        (shown_in scope.now query.now (Groups keys.written aggregates.written))
        (λ shown. Ok (record {
          keys = keys.list;
          aggs = aggregates.list;
          plain = plain;
          shown = shown;
        }))) }
{
    let Keys {
        written: key_spellings,
        list: keys,
    } = keys;
    let Aggregates {
        written: aggregate_spellings,
        list: aggs,
    } = aggregates;
    let basis = Basis::Groups {
        keys: key_spellings,
        aggregates: aggregate_spellings,
    };
    let found = shown(alloc, scope, query, &basis);
    drop(basis);
    match found {
        Ok(shown) => Ok(Grouped {
            keys,
            aggs,
            plain,
            shown,
        }),
        Err(e) => {
            drop(keys);
            drop(aggs);
            Err(e)
        }
    }
}

fn groups_given(
    alloc: Global,
    scope: &Scope,
    query: &Query,
    aggregates: Aggregates,
) -> Result<Grouped, PlanFault>
    requires { aggregates ≡ all_aggregates scope.now query.now }
    ensures { Reports result (and_then (shown_in scope.now query.now (basis_of scope.now query.now))
        (λ shown. Ok (groups_with scope.now query.now shown))) }
{
    let grouped = is_grouped(query, &aggregates);
    match keys(alloc, scope, query, grouped) {
        Ok(found) => groups_from(alloc, scope, query, !grouped, found, aggregates),
        Err(_) => {
            drop(aggregates);
            Err(PlanFault::Memory)
        }
    }
}

/// The groups, and what is shown of them.
pub fn groups_of(alloc: Global, scope: &Scope, query: &Query) -> Result<Grouped, PlanFault>
    ensures { Reports result (groups_in scope.now query.now) }
{
    match aggregates(alloc, scope, query) {
        Ok(found) => groups_given(alloc, scope, query, found),
        Err(e) => Err(e),
    }
}
