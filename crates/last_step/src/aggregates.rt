//! Aggregates, read off the states of groups.
ghost use Rattle.std.specs.Prelude.{◌≡◌, ◌<◌, true, false, length, map, slice_index_or, zip, IfOk};
ghost use Rattle.meaning.specs.declared.answer.Group.{Group as AGroup};
ghost use Rattle.meaning.specs.Aggregate.{no_statistics, value};
ghost use Rattle.meaning.specs.Order.{value_in};
ghost use Rattle.aggregate_states.specs.Values.{fits};
ghost use Rattle.last_step.specs.Batches.{IsFront, IsJudged};
ghost use Rattle.last_step.specs.Fitting.{AreGroupsOf};
ghost use Rattle.meaning.specs.Wanting.{ReportsIfMemory};
ghost use Rattle.last_step.specs.Given.{fault_returned};

use crate::stop::Stop;
use aggregate_states::AggFault;
use group_by::GroupSlice;
use meaning::{Aggregate, AggregateKind, Plan, ValueRef};
use std::alloc::{AllocError, Global};

/// The number of the fault of a sum outside 64 bits.
const SUM_OUT_OF_RANGE: u8 = 3;

/// The value of an aggregate of a group, lent where a state has it.
pub fn value_at<'a>(
    alloc: Global,
    kind: AggregateKind,
    groups: &'a GroupSlice<'_>,
    group: usize,
    aggregate: usize,
) -> Result<ValueRef<'a>, Stop>
    requires group { group < length groups.now }
    requires aggregate { (d : AGroup)
        → aggregate < length (slice_index_or groups.now group d).states }
    ensures value { (d : AGroup) → ReportsIfMemory fault_returned value_in result
        (value kind (slice_index_or (slice_index_or groups.now group d).states aggregate
        no_statistics)) }
    ensures fits { IfOk result (λ v. fits (value_in v) ≡ true) }
{
    match groups.value(alloc, kind, group, aggregate) {
        Ok(value) => Ok(value),
        Err(AggFault::Memory) => Err(Stop::Memory),
        Err(AggFault::SumOutOfRange) => Err(Stop::Fault(SUM_OUT_OF_RANGE)),
    }
}

/// Whether each aggregate of a group has a value, or the first fault.
fn check(
    alloc: Global,
    aggs: &[Aggregate],
    groups: &GroupSlice<'_>,
    group: usize,
) -> Result<(), Stop>
    requires group { group < length groups.now }
    requires widths { (d : AGroup)
        → length (slice_index_or groups.now group d).states ≡ length aggs.now }
    ensures { (d : AGroup) → IsJudged (map (λ p. value p.0.kind p.1)
        (zip aggs.now (slice_index_or groups.now group d).states)) result }
{
    for k in 0..aggs.len() {
        value_at(alloc, aggs[k].kind, groups, group, k)?;
    }
    Ok(())
}

/// How many groups stand before the first whose aggregates have a fault, and that fault.
#[derive(Clone, Copy)]
pub struct Front {
    pub count: usize,
    pub fault: Option<u8>,
}

/// The groups before the first fault of an aggregate.
pub fn front_of(alloc: Global, plan: &Plan, groups: &GroupSlice<'_>) -> Result<Front, AllocError>
    requires grouped { plan.now.plain ≡ false }
    requires groups { AreGroupsOf plan.now groups.now }
    ensures { IfOk result (λ front. IsFront plan.now groups.now front.count front.fault) }
{
    for k in 0..groups.len() {
        match check(alloc, plan.aggs.as_slice(), groups, k) {
            Ok(()) => {}
            Err(Stop::Fault(code)) => {
                return Ok(Front {
                    count: k,
                    fault: Some(code),
                });
            }
            Err(Stop::Memory) => return Err(AllocError),
        }
    }
    Ok(Front {
        count: groups.len(),
        fault: None,
    })
}
