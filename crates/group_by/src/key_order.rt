//! The order of keys, by their group indexes. They are sorted before any group is made, so that no
//! group is moved.
ghost use Rattle.std.specs.Prelude.{◌≡◌, ℕ, ◌+◌, ◌<◌, [], length, slice_index_or, true, All, IfOk, IfSome, IsPermutation, OnOk};
ghost use Rattle.std.specs.List.{range_with_len};
ghost use Rattle.std.specs.List.Sorted.{IsStableBy};
ghost use Rattle.std.specs.Ordering.{is_lt};
ghost use Rattle.meaning.specs.Order.{row_cmp};
ghost use Rattle.group_by.specs.KeyOrder.{key_near, AreApart, AreOrdered, AreSorted};

use crate::int_order::int_order;
use group_index::KeyList;
use std::alloc::{AllocError, Global};
use std::cmp::Ordering;

fn group_indexes(alloc: Global, many: usize) -> Result<Vec<usize>, AllocError>
    ensures { IfOk result (λ order. order.items ≡ range_with_len 0 many) }
{
    let mut order = Vec::with_capacity(alloc, many)?;
    for group_index in 0..many {
        order.push(group_index)?;
    }
    Ok(order)
}

/// The order of the keys at two group indexes, of which one past the last is taken for that: a
/// sort may ask for any two.
fn compare(keys: &KeyList, one: usize, other: usize) -> Ordering
    ensures { result ≡ row_cmp (key_near keys.now one) (key_near keys.now other) }
{
    let many = keys.len();
    if many == 0 {
        return Ordering::Equal;
    }
    keys.compare(one.min(many - 1), other.min(many - 1))
}

/// Puts group indexes in the order of their keys, those of one key in the order in which they
/// stand.
fn sort(order: &mut Vec<usize>, keys: &KeyList) -> Result<(), AllocError>
    ensures stable { OnOk result (IsStableBy
        (λ i j. is_lt (row_cmp (key_near keys.now i) (key_near keys.now j))) order.old.items
        order.new.items) }
    ensures permutation { OnOk result (IsPermutation order.old.items order.new.items) }
{
    order.sort_by(|one, other| compare(keys, *one, *other))?;
    Ok(())
}

/// The group indexes of keys in their order.
fn row_order(alloc: Global, keys: &KeyList) -> Result<Vec<usize>, AllocError>
    ensures { IfOk result (λ order. AreSorted keys.now order.items) }
{
    let mut order = group_indexes(alloc, keys.len())?;
    order.reverse();
    sort(&mut order, keys)?;
    Ok(order)
}

/// The same. Integers that are keys alone are sorted by themselves.
fn sorted(alloc: Global, keys: &KeyList) -> Result<Vec<usize>, AllocError>
    ensures { IfOk result (λ order. AreSorted keys.now order.items) }
{
    match keys.ints() {
        Some(ints) => int_order(alloc, ints),
        None => row_order(alloc, keys),
    }
}

fn comes_before(keys: &KeyList, order: &[usize], k: usize) -> bool
    requires within { All (λ group_index. group_index < length keys.now) order.now }
    requires next { k + 1 < length order.now }
    ensures { (d : ℕ) → result ≡ true
        → is_lt (row_cmp (slice_index_or keys.now (slice_index_or order.now k d) [])
        (slice_index_or keys.now (slice_index_or order.now (k + 1) d) [])) ≡ true }
{
    keys.compare(order[k], order[k + 1]).is_lt()
}

/// Whether each key is less than the next.
fn are_apart(keys: &KeyList, order: &[usize]) -> bool
    requires { All (λ group_index. group_index < length keys.now) order.now }
    ensures { result ≡ true → AreApart keys.now order.now }
{
    for k in 1..order.len() {
        if !comes_before(keys, order, k - 1) {
            return false;
        }
    }
    true
}

/// The group indexes as they stand, where the keys ascend.
fn order_as_it_stands(alloc: Global, keys: &KeyList) -> Result<Option<Vec<usize>>, AllocError>
    ensures { IfOk result (λ found. IfSome found (λ order. AreOrdered keys.now order.items)) }
{
    let order = group_indexes(alloc, keys.len())?;
    if keys.do_ascend() {
        return Ok(Some(order));
    }
    if !are_apart(keys, order.as_slice()) {
        return Ok(None);
    }
    Ok(Some(order))
}

/// The group indexes of keys in their order, where no key stands twice.
pub fn key_order(alloc: Global, keys: &KeyList) -> Result<Option<Vec<usize>>, AllocError>
    ensures { IfOk result (λ found. IfSome found (λ order. AreOrdered keys.now order.items)) }
{
    if let Some(order) = order_as_it_stands(alloc, keys)? {
        return Ok(Some(order));
    }
    let order = sorted(alloc, keys)?;
    if !are_apart(keys, order.as_slice()) {
        return Ok(None);
    }
    Ok(Some(order))
}
