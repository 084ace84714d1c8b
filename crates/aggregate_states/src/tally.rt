//! How many entries there are, and their exact sum.
ghost use Rattle.std.specs.Prelude.{◌≡◌, ◌≤◌, ◌+◌, ◌*◌, ◌+ℤ◌, ◌∷◌, [], length, map, pos};
ghost use Rattle.meaning.specs.declared.plan.AggregateKind.TheVariants.{Sum};
ghost use Rattle.meaning.specs.Aggregate.{kept_by, no_statistics};
ghost use Rattle.meaning.specs.declared.value.Value.TheVariants.{Int};
ghost use Rattle.meaning.specs.Order.{value_in};
ghost use Rattle.aggregate_states.specs.Entries.{state_of};
ghost use Rattle.aggregate_states.specs.Kinds.{sum_state, IsSum};
ghost use Rattle.aggregate_states.specs.State.{most_entries};

use crate::state::State;
use meaning::ValueRef;

/// The sums of the high and of the low halves of integers, each of them 2^63 more than it is.
/// Neither leaves 64 bits, so that the processor adds several at once.
#[derive(Clone, Copy)]
struct Halves {
    high: u64,
    low: u64,
}

#[inline(always)]
fn raised(int: &i64) -> u64
    ensures { pos result ≡ int.now +ℤ pos 9223372036854775808 }
{
    int.abs_diff(i64::MIN)
}

impl Halves {
    #[inline(always)]
    fn plus(self, number: u64) -> Halves
        requires high { self.high ≤ 18446744069414584320 }
        requires low { self.low ≤ 18446744069414584320 }
        ensures whole { result.high * 4294967296 + result.low
            ≡ self.high * 4294967296 + self.low + number }
        ensures high { result.high ≤ self.high + 4294967295 }
        ensures low { result.low ≤ self.low + 4294967295 }
    {
        Halves {
            high: self.high + number / 4294967296,
            low: self.low + number % 4294967296,
        }
    }

    /// So many integers less 2^63 each.
    fn to_tally(self, count: u64) -> Tally
        requires few { count ≤ most_entries }
        requires high { self.high ≤ count * 4294967295 }
        requires low { self.low ≤ count * 4294967295 }
        ensures count { result.count ≡ count }
        ensures sum { result.sum +ℤ pos (count * 9223372036854775808)
            ≡ pos (self.high * 4294967296 + self.low) }
        ensures possible { IsSum result.count result.sum }
    {
        let raised = i128::from(self.high) * 4294967296 + i128::from(self.low);
        Tally {
            count,
            sum: raised - i128::from(count) * 9223372036854775808,
        }
    }
}

/// How many entries there are, and their exact sum.
#[derive(Clone, Copy)]
pub struct Tally {
    pub count: u64,
    pub sum: i128,
}

impl Tally {
    pub fn new() -> Tally
        ensures value { sum_state result.count result.sum ≡ no_statistics }
        ensures possible { IsSum result.count result.sum }
    {
        Tally { count: 0, sum: 0 }
    }

    /// Of one integer.
    #[inline(always)]
    pub fn of_int(int: i64) -> Tally
        ensures count { result.count ≡ 1 }
        ensures sum { result.sum ≡ int }
        ensures possible { IsSum result.count result.sum }
    {
        Tally {
            count: 1,
            sum: i128::from(int),
        }
    }

    /// Of integers.
    pub fn of_ints(ints: &[i64]) -> Tally
        requires { length ints.now ≤ most_entries }
        ensures value { sum_state result.count result.sum ≡ state_of Sum (map Int ints.now) }
        ensures count { result.count ≡ length ints.now }
        ensures possible { IsSum result.count result.sum }
    {
        let mut halves = Halves { high: 0, low: 0 };
        for k in 0..ints.len() {
            halves = halves.plus(raised(&ints[k]));
        }
        halves.to_tally(ints.len() as u64)
    }

    /// Of one text, which adds nothing to a sum.
    fn of_text() -> Tally
        ensures value { sum_state result.count result.sum ≡ sum_state 1 (pos 0) }
        ensures possible { IsSum result.count result.sum }
    {
        Tally { count: 1, sum: 0 }
    }

    /// Of one value.
    #[inline(always)]
    pub fn of_value(value: ValueRef<'_>) -> Tally
        ensures value { sum_state result.count result.sum
            ≡ state_of Sum (value_in value.entry ∷ []) }
        ensures possible { IsSum result.count result.sum }
        ensures one { result.count ≤ 1 }
    {
        match value {
            ValueRef::Null => Tally::new(),
            ValueRef::Int(int) => Tally::of_int(int),
            ValueRef::Text(_) => Tally::of_text(),
        }
    }

    /// Of what a state keeps.
    pub fn of_state(state: &State) -> Tally
        ensures value { sum_state result.count result.sum ≡ kept_by Sum state.now }
        ensures possible { IsSum result.count result.sum }
    {
        Tally {
            count: state.count(),
            sum: state.sum(),
        }
    }

    /// Both together.
    #[inline(always)]
    pub fn plus(self, other: Tally) -> Tally
        requires few { self.count + other.count ≤ most_entries }
        requires possible { IsSum self.count self.sum }
        requires other_possible { IsSum other.count other.sum }
        ensures count { result.count ≡ self.count + other.count }
        ensures sum { result.sum ≡ self.sum +ℤ other.sum }
        ensures possible { IsSum result.count result.sum }
    {
        Tally {
            count: self.count + other.count,
            sum: self.sum + other.sum,
        }
    }
}
