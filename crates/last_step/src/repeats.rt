//! Equal rows that are shown once.
ghost use Rattle.std.specs.Prelude.{◌≡◌, map};
ghost use Rattle.std.specs.List.{dedup};
ghost use Rattle.std.specs.Ordering.{eq_by_cmp};
ghost use Rattle.meaning.specs.Finish.{order_cmp};
ghost use Rattle.last_step.specs.Batches.{lane_row};

use crate::lanes::compare_lanes;
use crate::ordering::compare;
use meaning::{OrderKey, Row};
use vectors::Vector;

fn are_same_lanes(order: &[OrderKey], items: &[Vector<'_>], one: u32, other: u32) -> bool
    ensures { result ≡ eq_by_cmp (order_cmp order.now) (lane_row items.now one)
        (lane_row items.now other) }
{
    compare_lanes(order, items, one as usize, other as usize).is_eq()
}

/// The positions but for those whose row is that of the one before.
pub fn different_lanes(order: &[OrderKey], items: &[Vector<'_>], positions: Vec<u32>) -> Vec<u32>
    ensures { map (lane_row items.now) result.items
        ≡ dedup (eq_by_cmp (order_cmp order.now)) (map (lane_row items.now) positions.items) }
{
    let mut positions = positions;
    positions.dedup_by(|later, earlier| are_same_lanes(order, items, *later, *earlier));
    positions
}

fn are_same_rows(order: &[OrderKey], one: &Row, other: &Row) -> bool
    ensures { result ≡ eq_by_cmp (order_cmp order.now) one.now other.now }
{
    compare(order, one, other).is_eq()
}

/// The rows but for those that the one before equals.
pub fn different_rows(order: &[OrderKey], rows: Vec<Row>) -> Vec<Row>
    ensures { result.items ≡ dedup (eq_by_cmp (order_cmp order.now)) rows.items }
{
    let mut rows = rows;
    rows.dedup_by(|later, earlier| are_same_rows(order, later, earlier));
    rows
}
