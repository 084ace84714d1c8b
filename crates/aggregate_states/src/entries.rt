//! The entries of which a state keeps the set.
ghost use Rattle.std.specs.Prelude.{◌≡◌, ◌+◌, ◌+ℤ◌, [], IfOk, IsOk, OnOk, OnErr};
ghost use Rattle.std.specs.Ordering.{is_lt};
ghost use Rattle.meaning.specs.Aggregate.{total};
ghost use Rattle.meaning.specs.Order.{ascending_set, is_ascending, number, union, value_cmp};
ghost use Rattle.aggregate_states.specs.State.{IsSumOf};

use meaning::{Sequence, Value, compare_lent};
use std::alloc::{AllocError, Global};
use std::cmp::Ordering;

fn compare(one: &Value, other: &Value) -> Ordering
    ensures { result ≡ value_cmp one.now other.now }
{
    compare_lent(one.as_value_ref(), other.as_value_ref())
}

/// Puts values in order, each once. On an error nothing changes. Lists in order that stand one behind
/// the other take linear time.
pub fn sort_once(values: &mut Vec<Value>) -> Result<(), AllocError>
    ensures ok { OnOk result (values.new.items ≡ ascending_set value_cmp values.old.items) }
    ensures err { OnErr result (values.new.items ≡ values.old.items) }
{
    values.sort_by(|one, other| compare(one, other))?;
    values.dedup();
    Ok(())
}

fn is_less(one: &Value, other: &Value) -> bool
    ensures { result ≡ is_lt (value_cmp one.now other.now) }
{
    compare(one, other).is_lt()
}

/// Whether each value is less than the next.
pub fn ascends(values: &[Value]) -> bool
    ensures { result ≡ is_ascending value_cmp values.now }
{
    for i in 1..values.len() {
        if !is_less(&values[i - 1], &values[i]) {
            return false;
        }
    }
    true
}

/// Two sets as one.
pub fn united(one: Sequence<Value>, other: Sequence<Value>) -> Result<Sequence<Value>, AllocError>
    ensures value { IfOk result (λ both. both ≡ union value_cmp one other) }
    ensures roomy { one ≡ [] → IsOk result }
{
    if one.len() == 0 {
        return Ok(other);
    }
    if other.len() == 0 {
        return Ok(one);
    }
    let mut both = one.into_vec();
    let mut other = other.into_vec();
    both.append(&mut other)?;
    sort_once(&mut both)?;
    Ok(Sequence::from_vec(both))
}

/// The same entries, in memory of their own.
pub fn copied(alloc: Global, entries: &[Value]) -> Result<Sequence<Value>, AllocError>
    ensures { IfOk result (λ copy. copy ≡ entries.now) }
{
    let mut copy = Vec::with_capacity(alloc, entries.len())?;
    for entry in entries {
        copy.push(entry.clone()?)?;
    }
    Ok(Sequence::from_vec(copy))
}

/// An entry more in a sum of so many.
fn plus_number(sum: &i128, many: usize, entry: &Value) -> i128
    requires { IsSumOf many sum.now }
    ensures value { result ≡ sum.now +ℤ number entry.now }
    ensures within { IsSumOf (many + 1) result }
{
    match entry {
        Value::Null => *sum,
        Value::Int(int) => *sum + i128::from(*int),
        Value::Text(_) => *sum,
    }
}

/// The exact sum of the numbers of entries.
pub fn total_of(entries: &[Value]) -> i128
    ensures { result ≡ total entries.now }
{
    let mut sum = 0;
    for k in 0..entries.len() {
        sum = plus_number(&sum, k, &entries[k]);
    }
    sum
}
