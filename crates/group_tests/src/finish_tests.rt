//! What the last step gives over few groups.

use crate::groups::{BEYOND, groups_of};
use crate::plans::{ALL, Having, Query, plan_of};
use crate::rows::show_row;
use last_step::{Finished, finish};
use short_vectors::NULL;
use std::alloc::{AllocError, Global};
use std::fmt::Write;
use std::mem::drop;
use std::process::Abort;

fn shown(alloc: Global, finished: &Finished) -> Result<String, AllocError> {
    let mut shown = String::new(alloc);
    match finished {
        Finished::Rows(rows) => {
            for row in rows.as_slice() {
                show_row(&mut shown, row)?;
                shown.push_str("; ")?;
            }
        }
        Finished::Fault(code) => write!(shown, "fault {code}")?,
    }
    Ok(shown)
}

#[tactic(auto, using(crate::proofs::SumPlans::groups_fit))]
fn finished(alloc: Global, query: Query, list: &[(i64, u64, i64)]) -> Result<Finished, AllocError> {
    let groups = groups_of(alloc, list)?;
    let plan = plan_of(alloc, query)?;
    let finished = finish(alloc, &plan, groups.as_slice());
    drop(plan);
    finished
}

fn expect(
    rt: &impl Abort,
    alloc: Global,
    query: Query,
    list: &[(i64, u64, i64)],
    want: &str,
) -> Result<(), AllocError> {
    let shown = shown(alloc, &finished(alloc, query, list)?)?;
    assert_eq!(rt; shown.as_str(), want);
    Ok(())
}

#[test]
fn rows_stand_in_whole_order(rt: HostRuntime) -> Result<(), AllocError> {
    let list = [(1, 1, 5), (2, 1, NULL), (3, 4, 7)];
    expect(&rt, rt.alloc(), ALL, &list, "1 5 ; 2 NULL ; 3 7 ; ")
}

#[test]
fn descending_has_null_last(rt: HostRuntime) -> Result<(), AllocError> {
    let query = Query {
        descending: Some(true),
        ..ALL
    };
    let list = [(1, 1, 5), (2, 1, NULL), (3, 4, 7), (4, 1, 5)];
    expect(&rt, rt.alloc(), query, &list, "3 7 ; 1 5 ; 4 5 ; 2 NULL ; ")
}

#[test]
fn limit_cuts_behind_the_order(rt: HostRuntime) -> Result<(), AllocError> {
    let query = Query {
        descending: Some(false),
        limit: Some(2),
        ..ALL
    };
    let list = [(1, 1, 9), (2, 1, 8), (3, 1, 7)];
    expect(&rt, rt.alloc(), query, &list, "3 7 ; 2 8 ; ")
}

#[test]
fn having_takes_only_true(rt: HostRuntime) -> Result<(), AllocError> {
    let query = Query {
        having: Having::SumAboveTwo,
        ..ALL
    };
    let list = [(1, 1, 2), (2, 1, NULL), (3, 1, 3)];
    expect(&rt, rt.alloc(), query, &list, "3 3 ; ")
}

#[test]
fn first_fault_by_key_is_returned_whatever_limit_says(rt: HostRuntime) -> Result<(), AllocError> {
    let query = Query {
        having: Having::HundredBySumAboveTwo,
        limit: Some(0),
        ..ALL
    };
    let list = [(1, 1, 2), (2, 1, 0), (3, 1, BEYOND)];
    expect(&rt, rt.alloc(), query, &list, "fault 2")
}

#[test]
fn sum_outside_64_bits_is_fault_3(rt: HostRuntime) -> Result<(), AllocError> {
    let list = [(1, 1, 2), (2, 1, BEYOND)];
    expect(&rt, rt.alloc(), ALL, &list, "fault 3")
}

#[test]
fn distinct_query_shows_each_row_once(rt: HostRuntime) -> Result<(), AllocError> {
    let query = Query {
        plain: true,
        distinct: true,
        ..ALL
    };
    let list = [(1, 2, NULL), (2, 9_000_000_000, NULL)];
    expect(&rt, rt.alloc(), query, &list, "1 ; 2 ; ")
}

#[test]
fn plain_query_shows_each_repeat_within_limit(rt: HostRuntime) -> Result<(), AllocError> {
    let query = Query {
        limit: Some(5),
        plain: true,
        ..ALL
    };
    let list = [(1, 2, NULL), (2, 9_000_000_000, NULL)];
    expect(&rt, rt.alloc(), query, &list, "1 ; 1 ; 2 ; 2 ; 2 ; ")
}
