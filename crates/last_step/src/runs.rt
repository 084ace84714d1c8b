//! The rows of groups, as runs.
ghost use Rattle.std.specs.Prelude.{[]};
ghost use Rattle.last_step.specs.Fitting.{AreGroupsOf};
ghost use Rattle.meaning.specs.Wanting.{ReportsIfMemory};
ghost use Rattle.last_step.specs.Given.{fault_returned};
ghost use Rattle.last_step.specs.Best.{best, best_of};
ghost use Rattle.last_step.specs.Runs.{expanded, rows_after};

use crate::run::Run;
use crate::showing::{push_grouped, push_plain};
use crate::stop::Stop;
use group_by::GroupSlice;
use meaning::Plan;
use std::alloc::Global;

fn push_all(
    alloc: Global,
    plan: &Plan,
    groups: GroupSlice<'_>,
    runs: &mut Vec<Run>,
) -> Result<(), Stop>
    requires { AreGroupsOf plan.now groups }
    ensures { ReportsIfMemory fault_returned (λ _. best plan.now (expanded runs.new.items)) result
        (best_of plan.now (rows_after plan.now (expanded runs.old.items) groups.entry)) }
{
    if plan.plain {
        return Ok(push_plain(alloc, plan.distinct, &groups, runs)?);
    }
    push_grouped(alloc, plan, groups, runs)
}

/// Runs of which LIMIT leaves what it leaves of all rows of the groups, or the first fault from group
/// to group.
pub fn runs_of(alloc: Global, plan: &Plan, groups: GroupSlice<'_>) -> Result<Vec<Run>, Stop>
    requires { AreGroupsOf plan.now groups }
    ensures { ReportsIfMemory fault_returned (λ runs. best plan.now (expanded runs.items)) result
        (best_of plan.now (rows_after plan.now [] groups.entry)) }
{
    let mut runs = Vec::new(alloc);
    push_all(alloc, plan, groups, &mut runs)?;
    Ok(runs)
}
