//! The tables of a plan, and what is asked of their rows.
ghost use Rattle.std.specs.Prelude.{◌≡◌, IfOk, None, Ok};
ghost use Rattle.meaning.specs.declared.plan.TableUse as plan_table;
ghost use Rattle.planner_expressions.specs.Results.{Reports};
ghost use Rattle.planner.specs.Planned.{conjuncts as conjuncts_in, joins_of, tables_with, tables_of as tables_in, table_use as used_of};

use crate::parts::Tables;
use crate::reading::{push_joins, table_use};
use meaning::{Join, Sequence, TableUse, Text};
use planner_clauses::{Conjuncts, Equality, add_all};
use planner_expressions::{PlanFault, Scope};
use sql_syntax::Query;
use std::alloc::{AllocError, Global};

fn conjuncts(alloc: Global, scope: &Scope, query: &Query) -> Result<Conjuncts, AllocError>
    ensures { IfOk result (λ c. c ≡ conjuncts_in scope.now query.now) }
{
    let mut out = Conjuncts {
        equalities: Sequence::new(alloc),
        plain: Sequence::new(alloc),
    };
    match add_all(alloc, scope, query, &mut out) {
        Ok(()) => Ok(out),
        Err(e) => {
            drop(out);
            Err(e)
        }
    }
}

fn joins(
    alloc: Global,
    scope: &Scope,
    query: &Query,
    equalities: &[Equality],
) -> Result<Sequence<Join>, PlanFault>
    ensures { Reports result (joins_of scope.now query.now equalities.now) }
{
    let mut out = Sequence::new(alloc);
    match push_joins(alloc, scope, query, equalities, &mut out) {
        Ok(()) => Ok(out),
        Err(e) => {
            drop(out);
            Err(e)
        }
    }
}

fn tables_from(
    fact: Result<TableUse, AllocError>,
    joins: Sequence<Join>,
    conjuncts: Conjuncts,
) -> Result<Tables, PlanFault>
    ensures { (t : plan_table.TableUse) → IfOk fact (λ f. f ≡ t)
        → Reports result (Ok (record { fact = t; joins = joins; conjuncts = conjuncts.plain })) }
{
    let Conjuncts { equalities, plain } = conjuncts;
    drop(equalities);
    match fact {
        Ok(fact) => Ok(Tables {
            fact,
            joins,
            conjuncts: plain,
        }),
        Err(_) => {
            drop(joins);
            drop(plain);
            Err(PlanFault::Memory)
        }
    }
}

fn tables_given(
    alloc: Global,
    scope: &Scope,
    query: &Query,
    fact: &Text,
    conjuncts: Conjuncts,
) -> Result<Tables, PlanFault>
    requires { conjuncts ≡ conjuncts_in scope.now query.now }
    ensures { Reports result (tables_in fact.now scope.now query.now) }
{
    match joins(alloc, scope, query, conjuncts.equalities.as_slice()) {
        Ok(joins) => {
            let fact = table_use(alloc, scope, query, None, fact);
            tables_from(fact, joins, conjuncts)
        }
        Err(e) => {
            drop(conjuncts);
            Err(e)
        }
    }
}

/// The tables, joined each by its one equality, and the other conditions.
pub fn tables_of(
    alloc: Global,
    scope: &Scope,
    query: &Query,
    fact: &Text,
) -> Result<Tables, PlanFault>
    ensures { Reports result (tables_in fact.now scope.now query.now) }
{
    match conjuncts(alloc, scope, query) {
        Ok(found) => tables_given(alloc, scope, query, fact, found),
        Err(_) => Err(PlanFault::Memory),
    }
}
