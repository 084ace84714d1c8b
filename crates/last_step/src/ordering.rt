//! Rows in the order of the answer.
ghost use Rattle.std.specs.Prelude.{◌≡◌, OnOk};
ghost use Rattle.meaning.specs.Finish.{by_key, order_cmp};
ghost use Rattle.meaning.specs.Order.{row_cmp, sorted};
ghost use Rattle.last_step.specs.Runs.{expanded};

use crate::run::Run;
use aggregate_states::column_value;
use meaning::{OrderKey, Row, compare_lent};
use std::alloc::AllocError;
use std::cmp::Ordering;

/// The order by one item. DESC turns it round, also for NULL.
fn compare_by(key: &OrderKey, one: &Row, other: &Row) -> Ordering
    ensures { result ≡ by_key key.now one.now other.now }
{
    let left = column_value(one, key.item);
    let right = column_value(other, key.item);
    if key.descending {
        return compare_lent(right, left);
    }
    compare_lent(left, right)
}

fn compare_whole(one: &Row, other: &Row) -> Ordering
    ensures { result ≡ row_cmp one.now other.now }
{
    one.as_slice().cmp(other.as_slice())
}

/// The order of the answer: by the items of ORDER BY, then by whole rows.
pub fn compare(order: &[OrderKey], one: &Row, other: &Row) -> Ordering
    ensures { result ≡ order_cmp order.now one.now other.now }
{
    for key in order {
        let by_item = compare_by(key, one, other);
        if by_item != Ordering::Equal {
            return by_item;
        }
    }
    compare_whole(one, other)
}

fn compare_runs(order: &[OrderKey], one: &Run, other: &Run) -> Ordering
    ensures { result ≡ order_cmp order.now one.now.row other.now.row }
{
    compare(order, &one.row, &other.row)
}

/// Puts runs in the order of the answer.
pub fn sort(runs: &mut Vec<Run>, order: &[OrderKey]) -> Result<(), AllocError>
    ensures { OnOk result (expanded runs.new.items
        ≡ sorted (order_cmp order.now) (expanded runs.old.items)) }
{
    runs.sort_by(|one, other| compare_runs(order, one, other))?;
    Ok(())
}
