//! Positions in the order of the answer.
ghost use Rattle.std.specs.Prelude.{◌≡◌, ◌<◌, ◌^◌, true, false, map, All, IfOk};
ghost use Rattle.meaning.specs.Finish.{order_cmp};
ghost use Rattle.meaning.specs.Order.{number, rank, sorted, value_in};
ghost use Rattle.last_step.specs.Batches.{lane_row};
ghost use Rattle.last_step.specs.Best.{IsKeyed, arranged, best, by_head, first_value, head_cmp, is_descending, keyed_cmp};

use crate::keyed::Keyed;
use crate::lanes::{compare_lanes, item_value};
use crate::leading::leading_positions;
use crate::repeats::different_lanes;
use aggregate_states::position;
use meaning::{OrderKey, Plan, ValueRef};
use std::alloc::{AllocError, Global};
use std::cmp::Ordering;
use vectors::{Selection, Vector};

/// Up to so many rows are picked from each batch, and more are sorted at once.
pub const FEW_ROWS: u64 = 256;

/// The value by which ORDER BY sorts first.
fn first_value<'a>(order: &[OrderKey], items: &[Vector<'a>], lane: usize) -> ValueRef<'a>
    ensures { value_in result ≡ first_value order.now (lane_row items.now lane) }
{
    match order.first() {
        Some(key) => item_value(items, key.item, lane),
        None => ValueRef::Null,
    }
}

/// NULL before integers, and these before texts.
fn rank_of(value: ValueRef<'_>) -> u8
    ensures { result ≡ rank (value_in value.entry) }
{
    match value {
        ValueRef::Null => 0,
        ValueRef::Int(_) => 1,
        ValueRef::Text(_) => 2,
    }
}

/// An integer's number, and 0 for any other value.
fn number_of(value: ValueRef<'_>) -> i64
    ensures { result ≡ number (value_in value.entry) }
{
    match value {
        ValueRef::Null => 0,
        ValueRef::Int(number) => number,
        ValueRef::Text(_) => 0,
    }
}

fn keyed(order: &[OrderKey], items: &[Vector<'_>], position: u32) -> Keyed
    ensures position { result.position ≡ position }
    ensures key { IsKeyed order.now items.now result }
{
    let value = first_value(order, items, position as usize);
    Keyed {
        number: number_of(value),
        position,
        rank: rank_of(value),
    }
}

fn keyed_positions(
    alloc: Global,
    order: &[OrderKey],
    items: &[Vector<'_>],
    kept: &Selection,
) -> Result<Vec<Keyed>, AllocError>
    requires { kept.now.below < 2 ^ 32 }
    ensures positions { IfOk result (λ ks. map (λ k. k.position) ks.items ≡ kept.now.list) }
    ensures keys { IfOk result (λ ks. All (IsKeyed order.now items.now) ks.items) }
{
    let mut all = Vec::with_capacity(alloc, kept.len())?;
    for k in 0..kept.len() {
        all.push(keyed(order, items, position(kept, k) as u32))?;
    }
    Ok(all)
}

fn compare_heads(one: &Keyed, other: &Keyed) -> Ordering
    ensures { result ≡ head_cmp one.now other.now }
{
    let by_rank = one.rank.cmp(&other.rank);
    if by_rank != Ordering::Equal {
        return by_rank;
    }
    one.number.cmp(&other.number)
}

fn is_descending(order: &[OrderKey]) -> bool
    ensures { result ≡ is_descending order.now }
{
    match order.first() {
        Some(key) => key.descending,
        None => false,
    }
}

/// By the keys, and under DESC the other way round.
fn compare_by_head(order: &[OrderKey], one: &Keyed, other: &Keyed) -> Ordering
    ensures { result ≡ by_head order.now one.now other.now }
{
    if is_descending(order) {
        return compare_heads(other, one);
    }
    compare_heads(one, other)
}

/// By the keys, and where they are the same by the rows.
fn compare_keyed(order: &[OrderKey], items: &[Vector<'_>], one: &Keyed, other: &Keyed) -> Ordering
    ensures { result ≡ keyed_cmp order.now items.now one.now other.now }
{
    let by_head = compare_by_head(order, one, other);
    if by_head != Ordering::Equal {
        return by_head;
    }
    compare_lanes(order, items, one.position as usize, other.position as usize)
}

fn positions_of(alloc: Global, keyed: &[Keyed]) -> Result<Vec<u32>, AllocError>
    ensures { IfOk result (λ ps. ps.items ≡ map (λ k. k.position) keyed.now) }
{
    keyed.iter().map(|key| key.position).collect(alloc)
}

/// The selected positions in the order of the answer.
fn sorted_positions(
    alloc: Global,
    order: &[OrderKey],
    items: &[Vector<'_>],
    kept: &Selection,
) -> Result<Vec<u32>, AllocError>
    requires { kept.now.below < 2 ^ 32 }
    ensures { IfOk result (λ ps. map (lane_row items.now) ps.items
        ≡ sorted (order_cmp order.now) (map (lane_row items.now) kept.now.list)) }
{
    let mut keyed = keyed_positions(alloc, order, items, kept)?;
    keyed.sort_by(|one, other| compare_keyed(order, items, one, other))?;
    positions_of(alloc, keyed.as_slice())
}

/// The selected positions in the order of the answer, one of equal rows where DISTINCT asks so.
fn arranged_positions(
    alloc: Global,
    plan: &Plan,
    items: &[Vector<'_>],
    kept: &Selection,
) -> Result<Vec<u32>, AllocError>
    requires { kept.now.below < 2 ^ 32 }
    ensures { IfOk result (λ ps. map (lane_row items.now) ps.items
        ≡ arranged plan.now.distinct (order_cmp plan.now.order) (map
        (lane_row items.now) kept.now.list)) }
{
    let order = plan.order.as_slice();
    let positions = sorted_positions(alloc, order, items, kept)?;
    if plan.distinct {
        return Ok(different_lanes(order, items, positions));
    }
    Ok(positions)
}

/// Whether LIMIT leaves few rows.
fn are_few(plan: &Plan) -> bool {
    match plan.limit {
        Some(most) => most <= FEW_ROWS,
        None => false,
    }
}

/// Whether the rows that LIMIT leaves are picked one by one.
fn is_led(plan: &Plan) -> bool
    ensures { result ≡ true → plan.now.distinct ≡ false }
{
    if plan.distinct {
        return false;
    }
    are_few(plan)
}

/// The selected positions in the order of the answer, cut by LIMIT.
pub fn best_positions(
    alloc: Global,
    plan: &Plan,
    items: &[Vector<'_>],
    kept: &Selection,
) -> Result<Vec<u32>, AllocError>
    requires { kept.now.below < 2 ^ 32 }
    ensures { IfOk result (λ ps. map (lane_row items.now) ps.items
        ≡ best plan.now (map (lane_row items.now) kept.now.list)) }
{
    let Some(most) = plan.limit else {
        return arranged_positions(alloc, plan, items, kept);
    };
    if is_led(plan) {
        let order = plan.order.as_slice();
        return leading_positions(alloc, order, items, kept, most as usize);
    }
    let mut positions = arranged_positions(alloc, plan, items, kept)?;
    positions.truncate(most as usize);
    Ok(positions)
}
