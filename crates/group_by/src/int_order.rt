//! Integers that are keys alone, sorted with their group indexes beside them.
ghost use Rattle.std.specs.Prelude.{◌≡◌, ◌∷◌, [], length, map, true, IfOk, IsPermutation, OnOk};
ghost use Rattle.std.specs.List.Sorted.{IsStableBy};
ghost use Rattle.std.specs.Ordering.{is_lt};
ghost use Rattle.meaning.specs.declared.value.Value.TheVariants.{Int};
ghost use Rattle.meaning.specs.Order.{row_cmp};
ghost use Rattle.group_keys.specs.Rows.{int_keys};
ghost use Rattle.group_by.specs.KeyOrder.{key_in, AreIndexed, AreSorted};

use std::alloc::{AllocError, Global};
use std::cmp::Ordering;

/// An integer, and the group index of the key of it alone.
#[derive(Clone, Copy)]
pub struct IntKey {
    pub int: i64,
    pub group_index: usize,
}

fn int_key(int: &i64, group_index: usize) -> IntKey
    ensures key { key_in result ≡ Int int.now ∷ [] }
    ensures group_index { result.group_index ≡ group_index }
{
    IntKey {
        int: *int,
        group_index,
    }
}

/// Integers by their group indexes.
fn indexed_ints(alloc: Global, ints: &[i64]) -> Result<Vec<IntKey>, AllocError>
    ensures { IfOk result (λ indexed. AreIndexed (int_keys ints.now) (length ints.now)
        indexed.items) }
{
    let mut indexed = Vec::with_capacity(alloc, ints.len())?;
    for k in 0..ints.len() {
        let one = int_key(&ints[k], k);
        indexed.push(one)?;
    }
    Ok(indexed)
}

fn compare(one: &IntKey, other: &IntKey) -> Ordering
    ensures { result ≡ row_cmp (key_in one.now) (key_in other.now) }
{
    one.int.cmp(&other.int)
}

/// Puts integers in order, equal ones in the order in which they stand.
fn sort(indexed: &mut Vec<IntKey>) -> Result<(), AllocError>
    ensures stable { OnOk result (IsStableBy (λ p q. is_lt (row_cmp (key_in p) (key_in q)))
        indexed.old.items indexed.new.items) }
    ensures permutation { OnOk result (IsPermutation indexed.old.items indexed.new.items) }
{
    indexed.sort_by(|one, other| compare(one, other))?;
    Ok(())
}

fn group_indexes(alloc: Global, indexed: &[IntKey]) -> Result<Vec<usize>, AllocError>
    ensures { IfOk result (λ order. order.items ≡ map (λ p. p.group_index) indexed.now) }
{
    let mut order = Vec::with_capacity(alloc, indexed.len())?;
    for one in indexed {
        order.push(one.group_index)?;
    }
    Ok(order)
}

/// The group indexes of integers in their order.
pub fn int_order(alloc: Global, ints: &[i64]) -> Result<Vec<usize>, AllocError>
    ensures { IfOk result (λ order. AreSorted (int_keys ints.now) order.items) }
{
    let mut indexed = indexed_ints(alloc, ints)?;
    indexed.reverse();
    sort(&mut indexed)?;
    group_indexes(alloc, indexed.as_slice())
}
