//! The plan of a query's text, or the refusal of the whole.
ghost use Rattle.std.specs.Prelude.{◌≡◌, IfOk, IfErr, Ok};
ghost use Rattle.meaning.specs.SoundPlan.{IsSoundPlan};
ghost use Rattle.planner.specs.QueryText.{IsPlanned};
ghost use Rattle.coordinator.specs.Whole.{IsPlanRefused};

use crate::fault::WholeFault;
use meaning::{Catalog, Plan};
use planner::plan_query;
use std::alloc::Global;

/// The plan of a query's text over a catalogue's tables.
pub fn plan_of(alloc: Global, catalog: &Catalog, query: &[u8]) -> Result<Plan, WholeFault>
    ensures planned { IfOk result (λ plan. IsPlanned catalog.now query.now (Ok plan)) }
    ensures sound { IfOk result IsSoundPlan }
    ensures refused { IfErr result (IsPlanRefused catalog.now query.now) }
{
    match plan_query(alloc, catalog, query) {
        Ok(plan) => Ok(plan),
        Err(fault) => Err(WholeFault::from(fault)),
    }
}
