//! The plan of a query's text.
ghost use Rattle.std.specs.Prelude.{◌≡◌, IfOk, IfErr, Ok};
ghost use Rattle.meaning.specs.SoundPlan.{IsSoundPlan};
ghost use Rattle.planner.specs.Planned.{planned};
ghost use Rattle.planner.specs.QueryText.{IsPlanned, IsTreeRefused, IsTextRefused};

use crate::planning::plan;
use crate::query_fault::QueryFault;
use meaning::{Catalog, Plan};
use sql_reader::read;
use sql_syntax::Query;
use std::alloc::Global;
use std::mem::drop;

/// The plan of a query's tree.
fn plan_tree(alloc: Global, catalog: &Catalog, query: &Query) -> Result<Plan, QueryFault>
    ensures planned { IfOk result (λ plan. planned catalog.now query.now ≡ Ok plan) }
    ensures refused { IfErr result (IsTreeRefused catalog.now query.now) }
{
    Ok(plan(alloc, catalog, query)?)
}

/// The plan of a query's text over a catalogue's tables.
///
/// # Errors
///
/// Out of memory, the text's first fault, or its plan's.
pub fn plan_query(alloc: Global, catalog: &Catalog, query: &[u8]) -> Result<Plan, QueryFault>
    ensures planned { IfOk result (λ plan. IsPlanned catalog.now query.now (Ok plan)) }
    ensures sound { IfOk result IsSoundPlan }
    ensures refused { IfErr result (IsTextRefused catalog.now query.now) }
{
    let tree = read(alloc, query)?;
    let planned = plan_tree(alloc, catalog, &tree);
    drop(tree);
    planned
}
