//! The states of a group's aggregates, read from front to back.
ghost use Rattle.std.specs.Prelude.{◌≡◌, IfOk};
ghost use Rattle.meaning.specs.Wanting.{GivesIfMemory, KeepsIfMemory};
ghost use Rattle.answer_fields.specs.Keeping.{AreKept, IsKept, IsKeepable, has_possible_sum, kept_state};
ghost use Rattle.answer_fields.specs.LayoutReading as reading;
ghost use Rattle.wire.specs.Reading.{Reads};

use aggregate_states::State;
use answer_fields::{AggregateShape, DecodeFault, is_sum_of, take_set, take_value, unless_null};
use meaning::{AggregateKind, Sequence, Statistics};
use std::alloc::Global;
use wire::{take_i128, take_u32};

/// The statistics as a state, and whether so many integers can have their sum. A sum that they
/// can't have is kept as 0.
#[inline(always)]
fn keep(statistics: Statistics) -> (State, bool)
    requires { IsKeepable statistics }
    ensures state { result.0 ≡ kept_state statistics }
    ensures possible { result.1 ≡ has_possible_sum statistics }
{
    if is_sum_of(statistics.count, statistics.sum) {
        return (State::from_statistics(statistics), true);
    }
    let Statistics {
        count,
        least,
        greatest,
        entries,
        ..
    } = statistics;
    let kept = State::from_statistics(Statistics {
        count,
        sum: 0,
        least,
        greatest,
        entries,
    });
    (kept, false)
}

#[tactic(auto, unfolding(answer_fields::specs::LayoutReading::state_at))]
#[inline(always)]
fn take_count(alloc: Global, bytes: &[u8]) -> Result<(Statistics, &[u8]), DecodeFault>
    ensures read { Reads (λ x. (x.0, x.1.now)) result
        (reading.state_at AggregateKind.Count bytes.now) }
    ensures keepable { IfOk result (λ x. IsKeepable x.0) }
{
    let (count, rest) = take_u32(bytes)?;
    Ok((
        Statistics {
            count: u64::from(count),
            sum: 0,
            least: None,
            greatest: None,
            entries: Sequence::new(alloc),
        },
        rest,
    ))
}

#[tactic(auto, unfolding(answer_fields::specs::LayoutReading::state_at))]
#[inline(always)]
fn take_sum(alloc: Global, bytes: &[u8]) -> Result<(Statistics, &[u8]), DecodeFault>
    ensures read { Reads (λ x. (x.0, x.1.now)) result (reading.state_at AggregateKind.Sum
        bytes.now) }
    ensures keepable { IfOk result (λ x. IsKeepable x.0) }
{
    let (count, rest) = take_u32(bytes)?;
    let (sum, rest) = take_i128(rest)?;
    Ok((
        Statistics {
            count: u64::from(count),
            sum,
            least: None,
            greatest: None,
            entries: Sequence::new(alloc),
        },
        rest,
    ))
}

#[tactic(auto, unfolding(answer_fields::specs::LayoutReading::state_at))]
#[inline(always)]
fn take_least(alloc: Global, bytes: &[u8]) -> Result<(Statistics, &[u8]), DecodeFault>
    ensures read { GivesIfMemory DecodeFault.Memory (λ x. (x.0, x.1.now)) result
        (reading.state_at AggregateKind.Min bytes.now) }
    ensures keepable { IfOk result (λ x. IsKeepable x.0) }
{
    let (count, rest) = take_u32(bytes)?;
    let (value, rest) = take_value(alloc, rest)?;
    Ok((
        Statistics {
            count: u64::from(count),
            sum: 0,
            least: unless_null(value),
            greatest: None,
            entries: Sequence::new(alloc),
        },
        rest,
    ))
}

#[tactic(auto, unfolding(answer_fields::specs::LayoutReading::state_at))]
#[inline(always)]
fn take_greatest(alloc: Global, bytes: &[u8]) -> Result<(Statistics, &[u8]), DecodeFault>
    ensures read { GivesIfMemory DecodeFault.Memory (λ x. (x.0, x.1.now)) result
        (reading.state_at AggregateKind.Max bytes.now) }
    ensures keepable { IfOk result (λ x. IsKeepable x.0) }
{
    let (count, rest) = take_u32(bytes)?;
    let (value, rest) = take_value(alloc, rest)?;
    Ok((
        Statistics {
            count: u64::from(count),
            sum: 0,
            least: None,
            greatest: unless_null(value),
            entries: Sequence::new(alloc),
        },
        rest,
    ))
}

#[tactic(auto, unfolding(answer_fields::specs::LayoutReading::state_at))]
fn take_entries(alloc: Global, bytes: &[u8]) -> Result<(Statistics, &[u8]), DecodeFault>
    ensures read { GivesIfMemory DecodeFault.Memory (λ x. (x.0, x.1.now)) result
        (reading.state_at AggregateKind.CountDistinct bytes.now) }
    ensures keepable { IfOk result (λ x. IsKeepable x.0) }
{
    let (entries, rest) = take_set(alloc, bytes)?;
    Ok((
        Statistics {
            count: 0,
            sum: 0,
            least: None,
            greatest: None,
            entries,
        },
        rest,
    ))
}

/// What an aggregate of the kind keeps.
#[tactic(auto, unfolding(answer_fields::specs::LayoutReading::state_at))]
#[inline(always)]
fn take_statistics(
    alloc: Global,
    kind: AggregateKind,
    bytes: &[u8],
) -> Result<(Statistics, &[u8]), DecodeFault>
    ensures read { GivesIfMemory DecodeFault.Memory (λ x. (x.0, x.1.now)) result
        (reading.state_at kind bytes.now) }
    ensures keepable { IfOk result (λ x. IsKeepable x.0) }
{
    match kind {
        AggregateKind::CountRows => take_count(alloc, bytes),
        AggregateKind::Count => take_count(alloc, bytes),
        AggregateKind::Sum => take_sum(alloc, bytes),
        AggregateKind::Avg => take_sum(alloc, bytes),
        AggregateKind::Min => take_least(alloc, bytes),
        AggregateKind::Max => take_greatest(alloc, bytes),
        AggregateKind::CountDistinct => take_entries(alloc, bytes),
        AggregateKind::SumDistinct => take_entries(alloc, bytes),
    }
}

#[inline(always)]
fn take_state(
    alloc: Global,
    kind: AggregateKind,
    bytes: &[u8],
) -> Result<(State, bool, &[u8]), DecodeFault>
    ensures { KeepsIfMemory DecodeFault.Memory
        (λ x. IsKept kept_state has_possible_sum x.0 x.1 x.2.now) result
        (reading.state_at kind bytes.now) }
{
    let (statistics, rest) = take_statistics(alloc, kind, bytes)?;
    let (state, is_possible) = keep(statistics);
    Ok((state, is_possible, rest))
}

/// One state for each aggregate, in a buffer that is used again. Memory is taken for no more states
/// than are read.
pub fn take_states<'a>(
    alloc: Global,
    spare: Vec<State>,
    aggregates: &[AggregateShape],
    bytes: &'a [u8],
) -> Result<(Sequence<State>, bool, &'a [u8]), DecodeFault>
    ensures { KeepsIfMemory DecodeFault.Memory
        (λ x. AreKept kept_state has_possible_sum x.0 x.1 x.2.now) result
        (reading.states_at aggregates.now bytes.now) }
{
    let mut states = spare;
    states.clear();
    let mut are_possible = true;
    let mut rest = bytes;
    for aggregate in aggregates {
        let (state, is_possible, behind) = take_state(alloc, aggregate.kind, rest)?;
        states.push(state)?;
        are_possible &= is_possible;
        rest = behind;
    }
    Ok((Sequence::from_vec(states), are_possible, rest))
}
