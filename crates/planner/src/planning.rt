//! Plans of queries.
ghost use Rattle.std.specs.Prelude.{◌≡◌, IfOk, List, ℕ, Ok, true};
ghost use Rattle.meaning.specs.SoundPlan.{IsSoundPlan};
ghost use Rattle.sql_syntax.specs.Canonical.{canonical};
ghost use Rattle.sql_syntax.specs.Literals.{has_only_fitting_literals};
ghost use Rattle.planner_expressions.specs.Results.{Reports};
ghost use Rattle.planner.specs.Planned.{plan_with, planned, planned_in};
ghost use Rattle.planner.specs.PlanOf.{IsAPlanOf};
ghost use Rattle.planner.specs.Sound.{IsSoundQuery};
ghost use Rattle.planner.specs.Typed.{IsTypedOver};

use crate::groups::groups_of;
use crate::parts::{Grouped, Shown, Tables};
use crate::tables::tables_of;
use meaning::{Catalog, Plan, Text};
use planner_clauses::check;
use planner_expressions::{PlanFault, Scope, scope_of};
use sql_syntax::{Query, print};
use std::alloc::Global;

fn plan_from(text: Text, query: &Query, tables: Tables, groups: Grouped) -> Plan
    requires { text ≡ canonical query.now }
    ensures { result ≡ plan_with query.now tables groups }
{
    let Tables {
        fact,
        joins,
        conjuncts,
    } = tables;
    let Grouped {
        keys,
        aggs,
        plain,
        shown,
    } = groups;
    let Shown {
        items,
        having,
        order,
    } = shown;
    Plan {
        text,
        fact,
        joins,
        conjuncts,
        keys,
        aggs,
        having,
        items,
        order,
        limit: query.limit,
        plain,
        distinct: query.distinct,
    }
}

fn plan_with_text(
    alloc: Global,
    query: &Query,
    tables: Tables,
    groups: Grouped,
) -> Result<Plan, PlanFault>
    ensures { Reports result (Ok (plan_with query.now tables groups)) }
{
    match print(alloc, query) {
        Ok(text) => Ok(plan_from(text, query, tables, groups)),
        Err(_) => {
            drop(tables);
            drop(groups);
            Err(PlanFault::Memory)
        }
    }
}

fn plan_in(alloc: Global, fact: &Text, scope: &Scope, query: &Query) -> Result<Plan, PlanFault>
    ensures { Reports result (planned_in fact.now scope.now query.now) }
{
    match check(scope, query) {
        Ok(()) => {}
        Err(e) => return Err(e),
    }
    match tables_of(alloc, scope, query, fact) {
        Ok(tables) => match groups_of(alloc, scope, query) {
            Ok(groups) => plan_with_text(alloc, query, tables, groups),
            Err(e) => {
                drop(tables);
                Err(e)
            }
        },
        Err(e) => Err(e),
    }
}

fn plan_returned(alloc: Global, catalog: &Catalog, query: &Query) -> Result<Plan, PlanFault>
    ensures { Reports result (planned catalog.now query.now) }
{
    match scope_of(alloc, catalog, &query.source) {
        Ok(scope) => {
            let found = plan_in(alloc, &catalog.fact.name, &scope, query);
            drop(scope);
            found
        }
        Err(e) => Err(e),
    }
}

/// The plan of a query over the tables of a catalogue, or its first fault.
#[tactic(auto, using(crate::proofs::PlansMean::means_returned, crate::proofs::SoundPlans::planned_returned))]
pub fn plan(alloc: Global, catalog: &Catalog, query: &Query) -> Result<Plan, PlanFault>
    // It is the plan that is defined, or exactly the first fault, unless memory is wanting.
    ensures returned { Reports result (planned catalog.now query.now) }
    // A plan that is given is the defined one.
    ensures defined { IfOk result (λ p. planned catalog.now query.now ≡ Ok p) }
    // A plan is the query's.
    ensures means { IfOk result (λ p. IsAPlanOf catalog.now query.now p) }
    // The plan of a query whose literals fit is typed.
    ensures typed { IfOk result (λ p. has_only_fitting_literals query.now ≡ true
        → IsTypedOver catalog.now p) }
    // The plan of a query that was read is sound.
    ensures sound { IfOk result (λ p. IsSoundQuery query.now → IsSoundPlan p) }
{
    plan_returned(alloc, catalog, query)
}
