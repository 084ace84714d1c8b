//! Groups with an integer as key and a sum.
ghost use Rattle.std.specs.Prelude.{◌≡◌, [], ◌∷◌, ℤ, true, All, IfOk};
ghost use Rattle.meaning.specs.declared.answer.Statistics.{Statistics as AStatistics};
ghost use Rattle.meaning.specs.declared.value.Value.TheVariants.{Int};
ghost use Rattle.meaning.specs.Operators.{fits_i64};
ghost use Rattle.group_tests.specs.Shapes.{IsSumGroup, IsSumState};

use accumulators::{Group, State};
use meaning::{Row, Sequence, Statistics, Value};
use short_vectors::NULL;
use std::alloc::{AllocError, Global};

/// A sum that 64 bits don't hold.
pub const BEYOND: i64 = 505;

/// The state of one integer.
fn state_of(alloc: Global, int: i64) -> State
    ensures count { result.count ≡ 1 }
    ensures sum { IsSumState result }
{
    State::from_statistics(Statistics {
        count: 1,
        sum: i128::from(int),
        least: None,
        greatest: None,
        entries: Sequence::new(alloc),
    })
}

/// The state of a sum; 404 is none, 505 for one outside 64 bits.
fn state(alloc: Global, sum: i64) -> Result<State, AllocError>
    ensures { IfOk result IsSumState }
{
    match sum {
        NULL => Ok(State::new(alloc)),
        BEYOND => state_of(alloc, i64::MAX).merge(state_of(alloc, i64::MAX)),
        sum => Ok(state_of(alloc, sum)),
    }
}

fn key_of(alloc: Global, key: i64) -> Result<Row, AllocError>
    ensures { IfOk result (λ row. (n : ℤ) × (fits_i64 n ≡ true) × (row ≡ Int n ∷ [])) }
{
    let mut row = Sequence::new(alloc);
    row.push(Value::Int(key))?;
    Ok(row)
}

fn states_of(alloc: Global, sum: i64) -> Result<Sequence<State>, AllocError>
    ensures { IfOk result (λ states. (s : AStatistics) × (states ≡ s ∷ []) × IsSumState s) }
{
    let mut states = Sequence::new(alloc);
    states.push(state(alloc, sum)?)?;
    Ok(states)
}

/// Groups of these keys, row counts and sums.
pub fn groups_of(alloc: Global, list: &[(i64, u64, i64)]) -> Result<Vec<Group>, AllocError>
    ensures { IfOk result (λ groups. All IsSumGroup groups.items) }
{
    let mut groups = Vec::new(alloc);
    for (key, rows, sum) in list {
        let states = states_of(alloc, *sum)?;
        let key = key_of(alloc, *key)?;
        groups.push(Group::new(key, *rows, states))?;
    }
    Ok(groups)
}
