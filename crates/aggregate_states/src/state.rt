//! What is known of some entries.
ghost use Rattle.std.specs.Prelude.{◌≡◌, ◌≤◌, ◌+◌, [], true, All, IsOk, Ok, Err, IfOk, IfErr};
ghost use Rattle.std.specs.List.{list_all};
ghost use Rattle.std.specs.Ordering.{ord_min};
ghost use Rattle.meaning.specs.declared.plan.AggregateKind.TheVariants as kind;
ghost use Rattle.meaning.specs.Aggregate.{merge, no_statistics, value};
ghost use Rattle.meaning.specs.Operators.{sum_out_of_range};
ghost use Rattle.meaning.specs.Order.{ascending_set, is_ascending, lesser, value_cmp, value_in};
ghost use Rattle.aggregate_states.specs.declared.fault.AggFault.TheVariants.{SumOutOfRange};
ghost use Rattle.aggregate_states.specs.State.{is_extreme, most_entries, IsState};
ghost use Rattle.aggregate_states.specs.Kinds.{cmp_from, has_one_size, keeps_set, set_state, IsSum};
ghost use Rattle.aggregate_states.specs.Values.{entry, is_spelled};

use crate::end::{End, comes_first};
use crate::entries::{ascends, copied, sort_once, total_of, united};
use crate::evaluating::{average, count_value, size_value, sum_value};
use crate::fault::AggFault;
use crate::lanes::owned;
use crate::tally::Tally;
use meaning::{AggregateKind, Sequence, Statistics, Value, ValueRef};
use std::alloc::{AllocError, Global};
use std::marker::Model;

/// What is known of a list of values that are not NULL. What an aggregate does not keep is 0, `None`
/// or empty. Contracts see the statistics.
#[derive(PartialEq, Eq, Drop)]
pub struct State {
    statistics: Statistics,
}

impl Model for State {
    ghost use Rattle.meaning.specs.declared.answer.Statistics.{Statistics};
    ghost use Rattle.aggregate_states.specs.State.{is_extreme, IsState};

    ghost Value = { Statistics };

    ghost view = { λ s. s.statistics };

    ghost inverse = { λ statistics. record { statistics = statistics } };

    ghost invariant = { λ s. IsState s.statistics };
}

fn lent(value: &Option<Value>) -> ValueRef<'_>
    requires { is_extreme value.now ≡ true }
    ensures value { entry (value_in result) ≡ value.now }
    ensures spelled { is_spelled (value_in result) ≡ true }
{
    match value {
        Some(value) => value.as_value_ref(),
        None => ValueRef::Null,
    }
}

pub fn unless_null(value: Value) -> Option<Value>
    ensures { result ≡ entry value }
{
    match value {
        Value::Null => None,
        value => Some(value),
    }
}

fn tally_of(statistics: &Statistics) -> Tally
    requires { IsState statistics.now }
    ensures count { result.count ≡ statistics.now.count }
    ensures sum { result.sum ≡ statistics.now.sum }
    ensures possible { IsSum result.count result.sum }
{
    Tally {
        count: statistics.count,
        sum: statistics.sum,
    }
}

/// Of two values the one that comes first from an end.
fn first_of(end: End, one: Value, other: Value) -> Value
    ensures { result ≡ ord_min (cmp_from end) one other }
{
    if comes_first(end, other.as_value_ref(), one.as_value_ref()) {
        return other;
    }
    one
}

/// Of two values that may be absent the one that comes first from an end.
fn nearer(end: End, one: Option<Value>, other: Option<Value>) -> Option<Value>
    ensures value { result ≡ lesser (cmp_from end) one other }
    ensures extreme { is_extreme one ≡ true → is_extreme other ≡ true → is_extreme result ≡ true }
{
    match (one, other) {
        (None, other) => other,
        (one, None) => one,
        (Some(one), Some(other)) => Some(first_of(end, one, other)),
    }
}

impl State {
    /// The state of no entry.
    pub fn new(alloc: Global) -> State
        ensures { result ≡ no_statistics }
    {
        State::of_entries(Sequence::new(alloc))
    }

    /// The state that keeps these entries alone.
    pub fn of_entries(entries: Sequence<Value>) -> State
        requires { list_all is_spelled entries ≡ true }
        ensures { result ≡ set_state entries }
    {
        State {
            statistics: Statistics {
                count: 0,
                sum: 0,
                least: None,
                greatest: None,
                entries,
            },
        }
    }

    /// The state that keeps the set of these values alone.
    pub fn of_values(values: Vec<Value>) -> Result<State, AllocError>
        requires { list_all is_spelled values.items ≡ true }
        ensures { IfOk result (λ s. s ≡ set_state (ascending_set value_cmp values.items)) }
    {
        let mut values = values;
        sort_once(&mut values)?;
        Ok(State::of_entries(Sequence::from_vec(values)))
    }

    /// Statistics as a state.
    pub fn from_statistics(statistics: Statistics) -> State
        requires { IsState statistics }
        ensures { result ≡ statistics }
    {
        State { statistics }
    }

    /// What is known of the entries of both.
    pub fn merge(self, other: State) -> Result<State, AllocError>
        requires { self.count + other.count ≤ most_entries }
        ensures value { IfOk result (λ s. s ≡ merge self other) }
        ensures roomy { self.entries ≡ [] → IsOk result }
    {
        let one = self.into_statistics();
        let other = other.into_statistics();
        let tally = tally_of(&one).plus(tally_of(&other));
        let least = nearer(End::Least, one.least, other.least);
        let greatest = nearer(End::Greatest, one.greatest, other.greatest);
        let entries = united(one.entries, other.entries)?;
        Ok(State::from_statistics(Statistics {
            count: tally.count,
            sum: tally.sum,
            least,
            greatest,
            entries,
        }))
    }

    /// The statistics alone.
    pub fn into_statistics(self) -> Statistics
        ensures value { result ≡ self }
        ensures state { IsState self }
    {
        let State { statistics } = self;
        statistics
    }

    /// How many entries there are.
    pub fn count(&self) -> u64
        ensures value { result ≡ self.now.count }
        ensures state { IsState self.now }
    {
        self.statistics.count
    }

    /// Their sum, of what keeps one.
    pub fn sum(&self) -> i128
        ensures value { result ≡ self.now.sum }
        ensures state { IsState self.now }
    {
        self.statistics.sum
    }

    /// The least entry, and NULL where none is kept.
    pub fn least(&self) -> ValueRef<'_>
        ensures value { entry (value_in result) ≡ self.now.least }
        ensures spelled { is_spelled (value_in result) ≡ true }
    {
        lent(&self.statistics.least)
    }

    /// The greatest entry, and NULL where none is kept.
    pub fn greatest(&self) -> ValueRef<'_>
        ensures value { entry (value_in result) ≡ self.now.greatest }
        ensures spelled { is_spelled (value_in result) ≡ true }
    {
        lent(&self.statistics.greatest)
    }

    /// The set of entries, of what keeps one.
    pub fn entries(&self) -> &[Value]
        ensures value { result.now ≡ self.now.entries }
        ensures spelled { All (λ v. is_spelled v ≡ true) result.now }
        ensures texts { list_all is_spelled result.now ≡ true }
    {
        self.statistics.entries.as_slice()
    }

    /// Whether its entries are a set: each is less than the next.
    pub fn has_set(&self) -> bool
        ensures { result ≡ is_ascending value_cmp self.now.entries }
    {
        ascends(self.entries())
    }

    /// A copy.
    pub fn copy(&self, alloc: Global) -> Result<State, AllocError>
        ensures { IfOk result (λ s. s ≡ self.now) }
    {
        let least = owned(alloc, self.least())?;
        let greatest = owned(alloc, self.greatest())?;
        let entries = copied(alloc, self.entries())?;
        Ok(State {
            statistics: Statistics {
                count: self.statistics.count,
                sum: self.statistics.sum,
                least: unless_null(least),
                greatest: unless_null(greatest),
                entries,
            },
        })
    }

    fn evaluate_sum(&self) -> Result<Value, AggFault>
        ensures ok { IfOk result (λ v. value kind.Sum self.now ≡ Ok v) }
        ensures err { IfErr result (λ f. f ≡ SumOutOfRange) }
        ensures out { IfErr result (λ f. value kind.Sum self.now ≡ Err sum_out_of_range) }
    {
        if self.statistics.count == 0 {
            return Ok(Value::Null);
        }
        sum_value(self.statistics.sum)
    }

    fn evaluate_average(&self) -> Value
        ensures { value kind.Avg self.now ≡ Ok result }
    {
        if self.statistics.count == 0 {
            return Value::Null;
        }
        average(self.statistics.count, self.statistics.sum)
    }

    fn evaluate_distinct_sum(&self) -> Result<Value, AggFault>
        ensures ok { IfOk result (λ v. value kind.SumDistinct self.now ≡ Ok v) }
        ensures err { IfErr result (λ f. f ≡ SumOutOfRange) }
        ensures out { IfErr result (λ f. value kind.SumDistinct self.now ≡ Err sum_out_of_range) }
    {
        let entries = self.entries();
        if entries.is_empty() {
            return Ok(Value::Null);
        }
        sum_value(total_of(entries))
    }

    /// The value of an aggregate of this kind with this state.
    ///
    /// # Errors
    ///
    /// A sum outside 64 bits; of the least and the greatest, out of memory.
    pub fn evaluate(&self, alloc: Global, kind: AggregateKind) -> Result<Value, AggFault>
        ensures ok { IfOk result (λ v. value kind self.now ≡ Ok v) }
        ensures err { IfErr result (λ f. f ≡ SumOutOfRange
            → value kind self.now ≡ Err sum_out_of_range) }
        ensures roomy { has_one_size kind ≡ true → IfErr result (λ f. f ≡ SumOutOfRange) }
        ensures sets { keeps_set kind ≡ true → IfErr result (λ f. f ≡ SumOutOfRange) }
    {
        match kind {
            AggregateKind::CountRows => Ok(count_value(self.statistics.count)),
            AggregateKind::Count => Ok(count_value(self.statistics.count)),
            AggregateKind::Sum => self.evaluate_sum(),
            AggregateKind::Avg => Ok(self.evaluate_average()),
            AggregateKind::Min => Ok(owned(alloc, self.least())?),
            AggregateKind::Max => Ok(owned(alloc, self.greatest())?),
            AggregateKind::CountDistinct => Ok(size_value(self.entries())),
            AggregateKind::SumDistinct => self.evaluate_distinct_sum(),
        }
    }
}
