//! The value of an aggregate, lent where its state holds it.
ghost use Rattle.std.specs.Prelude.{◌≡◌, ◌≢◌, true, IfOk, IfErr, Ok};
ghost use Rattle.meaning.specs.declared.plan.AggregateKind.TheVariants as the_kind;
ghost use Rattle.meaning.specs.Aggregate.{value};
ghost use Rattle.meaning.specs.Order.{column, value_in};
ghost use Rattle.meaning.specs.Wanting.{ReportsIfMemory};
ghost use Rattle.aggregate_states.specs.declared.fault.AggFault.TheVariants.{SumOutOfRange};
ghost use Rattle.aggregate_states.specs.Fault.{fault_returned};
ghost use Rattle.aggregate_states.specs.Kinds.{has_one_size, sum_state, IsSum};
ghost use Rattle.aggregate_states.specs.Values.{fits};

use crate::evaluating::{average, sum_value};
use crate::fault::AggFault;
use crate::state::State;
use crate::tally::Tally;
use meaning::{AggregateKind, Row, Value, ValueRef};
use std::alloc::Global;

/// The value of an aggregate that gives integers.
///
/// # Errors
///
/// A sum outside 64 bits.
pub fn integer_of<'a>(
    alloc: Global,
    kind: AggregateKind,
    state: &State,
) -> Result<ValueRef<'a>, AggFault>
    requires least { kind ≢ the_kind.Min }
    requires greatest { kind ≢ the_kind.Max }
    ensures value { ReportsIfMemory fault_returned value_in result (value kind state.now) }
    ensures fits { IfOk result (λ v. fits (value_in v) ≡ true) }
    ensures roomy { IfErr result (λ f. f ≡ SumOutOfRange) }
{
    match state.evaluate(alloc, kind) {
        Ok(Value::Int(int)) => Ok(ValueRef::Int(int)),
        Ok(Value::Null) => Ok(ValueRef::Null),
        Ok(Value::Text(_)) => unreachable!(),
        Err(fault) => Err(fault),
    }
}

/// The sum of so many entries, and NULL of none.
fn sum_of<'a>(tally: Tally) -> Result<ValueRef<'a>, AggFault>
    ensures value { ReportsIfMemory fault_returned value_in result
        (value the_kind.Sum (sum_state tally.count tally.sum)) }
    ensures fits { IfOk result (λ v. fits (value_in v) ≡ true) }
    ensures roomy { IfErr result (λ f. f ≡ SumOutOfRange) }
{
    if tally.count == 0 {
        return Ok(ValueRef::Null);
    }
    match sum_value(tally.sum) {
        Ok(Value::Int(int)) => Ok(ValueRef::Int(int)),
        Ok(Value::Null) => unreachable!(),
        Ok(Value::Text(_)) => unreachable!(),
        Err(fault) => Err(fault),
    }
}

/// The mean of so many entries, and NULL of none.
fn average_of<'a>(tally: Tally) -> ValueRef<'a>
    requires { IsSum tally.count tally.sum }
    ensures value { value the_kind.Avg (sum_state tally.count tally.sum) ≡ Ok (value_in result) }
    ensures fits { fits (value_in result) ≡ true }
{
    if tally.count == 0 {
        return ValueRef::Null;
    }
    match average(tally.count, tally.sum) {
        Value::Int(int) => ValueRef::Int(int),
        Value::Null => unreachable!(),
        Value::Text(_) => unreachable!(),
    }
}

fn count_of<'a>(tally: Tally) -> ValueRef<'a>
    requires { IsSum tally.count tally.sum }
    ensures value { value the_kind.Count (sum_state tally.count tally.sum)
        ≡ Ok (value_in result) }
    ensures fits { fits (value_in result) ≡ true }
{
    ValueRef::Int(tally.count as i64)
}

/// The value of an aggregate that is read off the number of its entries and their sum.
///
/// # Errors
///
/// A sum outside 64 bits.
pub fn tally_value<'a>(kind: AggregateKind, tally: Tally) -> Result<ValueRef<'a>, AggFault>
    requires kind { has_one_size kind ≡ true }
    requires possible { IsSum tally.count tally.sum }
    ensures value { ReportsIfMemory fault_returned value_in result
        (value kind (sum_state tally.count tally.sum)) }
    ensures fits { IfOk result (λ v. fits (value_in v) ≡ true) }
    ensures roomy { IfErr result (λ f. f ≡ SumOutOfRange) }
{
    match kind {
        AggregateKind::CountRows => Ok(count_of(tally)),
        AggregateKind::Count => Ok(count_of(tally)),
        AggregateKind::Sum => sum_of(tally),
        AggregateKind::Avg => Ok(average_of(tally)),
        AggregateKind::Min => unreachable!(),
        AggregateKind::Max => unreachable!(),
        AggregateKind::CountDistinct => unreachable!(),
        AggregateKind::SumDistinct => unreachable!(),
    }
}

fn least_of(state: &State) -> ValueRef<'_>
    ensures value { value the_kind.Min state.now ≡ Ok (value_in result) }
    ensures fits { fits (value_in result) ≡ true }
{
    state.least()
}

fn greatest_of(state: &State) -> ValueRef<'_>
    ensures value { value the_kind.Max state.now ≡ Ok (value_in result) }
    ensures fits { fits (value_in result) ≡ true }
{
    state.greatest()
}

/// The value of an aggregate of this kind with this state, lent where the state holds it.
///
/// # Errors
///
/// A sum outside 64 bits.
pub fn value_of(alloc: Global, kind: AggregateKind, state: &State) -> Result<ValueRef<'_>, AggFault>
    ensures value { ReportsIfMemory fault_returned value_in result (value kind state.now) }
    ensures fits { IfOk result (λ v. fits (value_in v) ≡ true) }
    ensures roomy { IfErr result (λ f. f ≡ SumOutOfRange) }
{
    match kind {
        AggregateKind::Min => Ok(least_of(state)),
        AggregateKind::Max => Ok(greatest_of(state)),
        AggregateKind::CountRows => integer_of(alloc, kind, state),
        AggregateKind::Count => integer_of(alloc, kind, state),
        AggregateKind::Sum => integer_of(alloc, kind, state),
        AggregateKind::Avg => integer_of(alloc, kind, state),
        AggregateKind::CountDistinct => integer_of(alloc, kind, state),
        AggregateKind::SumDistinct => integer_of(alloc, kind, state),
    }
}

/// The value in a column of a row, and NULL past the end.
pub fn column_value(row: &Row, at: usize) -> ValueRef<'_>
    ensures { value_in result ≡ column row.now at }
{
    match row.as_slice().get(at) {
        Some(value) => value.as_value_ref(),
        None => ValueRef::Null,
    }
}
