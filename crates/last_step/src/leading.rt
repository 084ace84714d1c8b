//! The few rows of many that come first, by their positions.
ghost use Rattle.std.specs.Prelude.{◌≡◌, ◌≤◌, ◌<◌, ◌^◌, length, map, take, IfOk, OnOk, IsSorted};
ghost use Rattle.std.specs.List.{insert};
ghost use Rattle.meaning.specs.Finish.{order_cmp};
ghost use Rattle.meaning.specs.Order.{inserted, sorted};
ghost use Rattle.last_step.specs.Batches.{lane_row};

use crate::lanes::is_before;
use aggregate_states::position;
use meaning::OrderKey;
use std::alloc::{AllocError, Global};
use vectors::{Selection, Vector};

/// Where a position belongs among others that are in order.
fn place_of(order: &[OrderKey], items: &[Vector<'_>], leading: &[u32], position: u32) -> usize
    requires { IsSorted (order_cmp order.now) (map (lane_row items.now) leading.now) }
    ensures within { result ≤ length leading.now }
    ensures place { insert (map (lane_row items.now) leading.now) result
        (lane_row items.now position)
        ≡ inserted (order_cmp order.now) (lane_row items.now position)
        (map (lane_row items.now) leading.now) }
{
    let Some(last) = leading.last() else {
        return 0;
    };
    if is_before(order, items, *last, position) {
        return leading.len();
    }
    leading.partition_point(|other| is_before(order, items, *other, position))
}

/// Puts a position at its place among others, of which so many stay.
fn offer(
    order: &[OrderKey],
    items: &[Vector<'_>],
    most: usize,
    leading: &mut Vec<u32>,
    position: u32,
) -> Result<(), AllocError>
    requires ascending { IsSorted (order_cmp order.now) (map (lane_row items.now)
        leading.old.items) }
    requires few { length leading.old.items ≤ most }
    ensures { OnOk result (map (lane_row items.now) leading.new.items
        ≡ take most (inserted (order_cmp order.now) (lane_row items.now position)
        (map (lane_row items.now) leading.old.items))) }
{
    let place = place_of(order, items, leading.as_slice(), position);
    if place >= most {
        return Ok(());
    }
    leading.insert(place, position)?;
    leading.truncate(most);
    Ok(())
}

/// So many of the selected positions whose rows come first, in the order of the answer.
pub fn leading_positions(
    alloc: Global,
    order: &[OrderKey],
    items: &[Vector<'_>],
    kept: &Selection,
    most: usize,
) -> Result<Vec<u32>, AllocError>
    requires { kept.now.below < 2 ^ 32 }
    ensures { IfOk result (λ ps. map (lane_row items.now) ps.items
        ≡ take most (sorted (order_cmp order.now) (map (lane_row items.now) kept.now.list))) }
{
    let mut leading = Vec::new(alloc);
    for k in 0..kept.len() {
        offer(order, items, most, &mut leading, position(kept, k) as u32)?;
    }
    Ok(leading)
}
