//! Which parts of a state are packed.
ghost use Rattle.std.specs.Prelude.{◌≡◌};
ghost use Rattle.meaning.specs.Order.{value_in};
ghost use Rattle.aggregate_states.specs.Values.{entry};
ghost use Rattle.packed_groups.specs.Parts.{beside_least, parts_in, parts_of_extremes, parts_of_sum, tag_of, unless_sum, without_least};

use aggregate_states::State;
use meaning::ValueRef;

/// The parts of a state that are packed behind the number of its entries: those that it has, where
/// they are a sum, a least or a greatest entry alone, or all parts.
#[derive(Clone, Copy)]
pub enum Parts {
    Count,
    Sum,
    Least,
    Greatest,
    All,
}

impl Parts {
    /// The byte that stands for them.
    pub fn tag(self) -> u8
        ensures { result ≡ tag_of self }
    {
        match self {
            Parts::Count => 0,
            Parts::Sum => 1,
            Parts::Least => 2,
            Parts::Greatest => 3,
            Parts::All => 4,
        }
    }
}

#[tactic(auto, unfolding(crate::specs::Parts::parts_of_sum))]
fn parts_of_sum(sum: i128) -> Parts
    ensures { result ≡ parts_of_sum sum }
{
    if sum == 0 {
        return Parts::Count;
    }
    Parts::Sum
}

/// These parts, or all where there is a sum beside them.
#[tactic(auto, unfolding(crate::specs::Parts::unless_sum))]
fn unless_sum(sum: i128, parts: Parts) -> Parts
    ensures { result ≡ unless_sum sum parts }
{
    if sum == 0 {
        return parts;
    }
    Parts::All
}

fn beside_least(sum: i128, greatest: ValueRef<'_>) -> Parts
    ensures { result ≡ beside_least sum (entry (value_in greatest.entry)) }
{
    match greatest {
        ValueRef::Null => unless_sum(sum, Parts::Least),
        ValueRef::Int(_) => Parts::All,
        ValueRef::Text(_) => Parts::All,
    }
}

fn without_least(sum: i128, greatest: ValueRef<'_>) -> Parts
    ensures { result ≡ without_least sum (entry (value_in greatest.entry)) }
{
    match greatest {
        ValueRef::Null => parts_of_sum(sum),
        ValueRef::Int(_) => unless_sum(sum, Parts::Greatest),
        ValueRef::Text(_) => unless_sum(sum, Parts::Greatest),
    }
}

fn parts_of_extremes(sum: i128, least: ValueRef<'_>, greatest: ValueRef<'_>) -> Parts
    ensures { result ≡ parts_of_extremes sum (entry (value_in least.entry))
        (entry (value_in greatest.entry)) }
{
    match least {
        ValueRef::Null => without_least(sum, greatest),
        ValueRef::Int(_) => beside_least(sum, greatest),
        ValueRef::Text(_) => beside_least(sum, greatest),
    }
}

/// The parts that are packed of a state.
pub fn parts_of(state: &State) -> Parts
    ensures { result ≡ parts_in state.now }
{
    if state.entries().is_empty() {
        return parts_of_extremes(state.sum(), state.least(), state.greatest());
    }
    Parts::All
}
