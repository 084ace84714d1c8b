//! The rows of lanes, and their order.
ghost use Rattle.std.specs.Prelude.{◌≡◌, ◌≤◌, ◌<◌, true, false, slice_index_or, length};
ghost use Rattle.std.specs.Ordering.{is_lt};
ghost use Rattle.meaning.specs.declared.value.Value.TheVariants.{Null};
ghost use Rattle.meaning.specs.Finish.{by_key, order_cmp};
ghost use Rattle.meaning.specs.Order.{column, row_cmp, value_in};
ghost use Rattle.vectors.specs.Vector.{values_of};
ghost use Rattle.last_step.specs.Batches.{lane_row};

use aggregate_states::value_at;
use meaning::{OrderKey, ValueRef, compare_lent};
use std::cmp::Ordering;
use vectors::Vector;

/// Whether a value stands in the lane.
#[inline(always)]
fn has_value(item: &Vector<'_>, lane: usize) -> bool
    ensures there { result ≡ true → lane < length (values_of item.now) }
    ensures past { result ≡ false → length (values_of item.now) ≤ lane }
{
    match item {
        Vector::Ints(ints) => lane < ints.len(),
        Vector::Texts(texts) => lane < texts.len(),
        Vector::Truths(_) => false,
    }
}

/// The value of a lane, and NULL past the end.
#[inline(always)]
pub fn lane_value<'a>(item: &Vector<'a>, lane: usize) -> ValueRef<'a>
    ensures { value_in result ≡ slice_index_or (values_of item.now) lane Null }
{
    if has_value(item, lane) {
        return value_at(item, lane);
    }
    ValueRef::Null
}

/// The value that an item gives in a lane, and NULL past the last item.
#[inline(always)]
pub fn item_value<'a>(items: &[Vector<'a>], item: usize, lane: usize) -> ValueRef<'a>
    ensures { value_in result ≡ column (lane_row items.now lane) item }
{
    match items.get(item) {
        Some(vector) => lane_value(vector, lane),
        None => ValueRef::Null,
    }
}

/// The order by one item. DESC turns it round, also for NULL.
#[inline(always)]
fn compare_by(key: &OrderKey, items: &[Vector<'_>], one: usize, other: usize) -> Ordering
    ensures { result ≡ by_key key.now (lane_row items.now one) (lane_row items.now other) }
{
    let left = item_value(items, key.item, one);
    let right = item_value(items, key.item, other);
    if key.descending {
        return compare_lent(right, left);
    }
    compare_lent(left, right)
}

fn compare_whole(items: &[Vector<'_>], one: usize, other: usize) -> Ordering
    ensures { result ≡ row_cmp (lane_row items.now one) (lane_row items.now other) }
{
    for item in items {
        let by_item = compare_lent(lane_value(item, one), lane_value(item, other));
        if by_item != Ordering::Equal {
            return by_item;
        }
    }
    Ordering::Equal
}

/// The order of the answer: by the items of ORDER BY, then by whole rows.
pub fn compare_lanes(order: &[OrderKey], items: &[Vector<'_>], one: usize, other: usize) -> Ordering
    ensures { result ≡ order_cmp order.now (lane_row items.now one) (lane_row items.now other) }
{
    for key in order {
        let by_item = compare_by(key, items, one, other);
        if by_item != Ordering::Equal {
            return by_item;
        }
    }
    compare_whole(items, one, other)
}

/// Whether a lane's row comes before another's.
pub fn is_before(order: &[OrderKey], items: &[Vector<'_>], one: u32, other: u32) -> bool
    ensures { result ≡ is_lt (order_cmp order.now (lane_row items.now one)
        (lane_row items.now other)) }
{
    compare_lanes(order, items, one as usize, other as usize).is_lt()
}
