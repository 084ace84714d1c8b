//! States as they are packed: put behind other bytes, and taken from the front.
ghost use Rattle.std.specs.Prelude.{◌≡◌, ◌≤◌, ◌++◌, true, OnOk, IfOk};
ghost use Rattle.std.specs.List.{list_all};
ghost use Rattle.aggregate_states.specs.State.{is_extreme, most_entries};
ghost use Rattle.aggregate_states.specs.Values.{is_spelled};
ghost use Rattle.answer_fields.specs.Spelling.{value_or_null};
ghost use Rattle.meaning.specs.Fitting as fitting;
ghost use Rattle.meaning.specs.Wanting.{GivesIfMemory};
ghost use Rattle.meaning.specs.Order.{value_in};
ghost use Rattle.packed_groups.specs.declared.parts.Parts.TheVariants as parts;
ghost use Rattle.packed_groups.specs.Packable.{ArePackableValues, IsPackableState, IsPackableValue};
ghost use Rattle.packed_groups.specs.Packing.{parts_bytes, state_bytes, sum_bytes, value_bytes};
ghost use Rattle.packed_groups.specs.Parts.{parts_in};
ghost use Rattle.packed_groups.specs.Reading as reading;
ghost use Rattle.wire.specs.Reading.{Reads};

use crate::parts::{Parts, parts_of};
use crate::small::{put_small, take_small};
use crate::value::{put_value, put_values, take_value, take_values};
use aggregate_states::State;
use answer_fields::{DecodeFault, is_sum_of, unless_null};
use meaning::{Sequence, Statistics, Value, ValueRef};
use std::alloc::{AllocError, Global};
use wire::{append_i128, append_u8, take_i128, take_u8};

// ---- packing

#[tactic(auto, unfolding(crate::specs::Packing::sum_bytes))]
fn put_sum(out: &mut Vec<u8>, sum: i128) -> Result<(), AllocError>
    ensures { OnOk result (out.new.items ≡ out.old.items ++ sum_bytes sum) }
{
    if sum == 0 {
        return append_u8(out, 0);
    }
    append_u8(out, 1)?;
    append_i128(out, sum)
}

/// The least and the greatest value, and NULL where there is none.
fn put_extremes(out: &mut Vec<u8>, state: &State) -> Result<(), AllocError>
    ensures packed { OnOk result (out.new.items ≡ out.old.items
        ++ (value_bytes (value_or_null state.now.least)
        ++ value_bytes (value_or_null state.now.greatest))) }
    ensures least { OnOk result (IsPackableValue (value_or_null state.now.least)) }
    ensures greatest { OnOk result (IsPackableValue (value_or_null state.now.greatest)) }
{
    put_value(out, state.least())?;
    put_value(out, state.greatest())
}

/// All parts of a state.
#[tactic(auto, unfolding(crate::specs::Packing::parts_bytes))]
fn put_all(out: &mut Vec<u8>, state: &State) -> Result<(), AllocError>
    ensures packed { OnOk result (out.new.items ≡ out.old.items ++ parts_bytes parts.All state.now) }
    ensures entries { OnOk result (ArePackableValues state.now.entries) }
{
    put_sum(out, state.sum())?;
    put_extremes(out, state)?;
    put_values(out, state.entries())
}

/// These parts of a state.
#[tactic(auto, unfolding(crate::specs::Packing::parts_bytes), using(crate::proofs::Again::entries_none))]
fn put_parts(out: &mut Vec<u8>, parts: Parts, state: &State) -> Result<(), AllocError>
    requires { parts ≡ parts_in state.now }
    ensures packed { OnOk result (out.new.items ≡ out.old.items ++ parts_bytes parts state.now) }
    ensures entries { OnOk result (ArePackableValues state.now.entries) }
{
    match parts {
        Parts::Count => Ok(()),
        Parts::Sum => append_i128(out, state.sum()),
        Parts::Least => put_value(out, state.least()),
        Parts::Greatest => put_value(out, state.greatest()),
        Parts::All => put_all(out, state),
    }
}

/// No effect at run time. The proof reads from this that an integer has 64 bits, and that a text is
/// as long as a slice may be.
#[inline(always)]
fn is_packable(value: ValueRef<'_>)
    requires { is_spelled (value_in value) ≡ true }
    ensures { IsPackableValue (value_in value.entry) }
{
    match value {
        ValueRef::Null => {}
        ValueRef::Int(_) => {}
        ValueRef::Text(text) => {
            let _length = text.len();
        }
    }
}

/// Which parts a state has, how many entries, and the parts.
#[tactic(auto, unfolding(crate::specs::Packing::state_bytes))]
pub fn put_state(out: &mut Vec<u8>, state: &State) -> Result<(), AllocError>
    ensures packed { OnOk result (out.new.items ≡ out.old.items ++ state_bytes state.now) }
    ensures packable { OnOk result (IsPackableState state.now) }
{
    let parts = parts_of(state);
    let count = state.count();
    let _sum = state.sum();
    is_packable(state.least());
    is_packable(state.greatest());
    append_u8(out, parts.tag())?;
    put_small(out, count)?;
    put_parts(out, parts, state)
}

// ---- taking

#[tactic(auto, unfolding(crate::specs::Reading::sum_at, crate::specs::Reading::tagged_sum_at))]
fn take_sum(bytes: &[u8]) -> Result<(i128, &[u8]), DecodeFault>
    ensures { Reads (λ x. (x.0, x.1.now)) result (reading.sum_at bytes.now) }
{
    let (tag, rest) = take_u8(bytes)?;
    if tag == 0 {
        return Ok((0, rest));
    }
    Ok(take_i128(rest)?)
}

/// How many entries a state knows of at most.
const MOST_ENTRIES: u64 = 1 << 32;

/// How many entries there are and their sum.
#[derive(Clone, Copy)]
struct Tally {
    count: u64,
    sum: i128,
}

/// So many entries with this sum, where that is possible.
fn tally_of(count: u64, sum: i128) -> Result<Tally, DecodeFault>
    ensures read { Reads (λ t. record { count = t.count; sum = t.sum }) result
        (reading.possible_tally (record { count = count; sum = sum })) }
    ensures possible { IfOk result (λ t. (t.count ≤ most_entries)
        × (fitting.is_sum_of t.count t.sum ≡ true)) }
{
    if count > MOST_ENTRIES || !is_sum_of(count, sum) {
        return Err(DecodeFault::Numbers);
    }
    Ok(Tally { count, sum })
}

/// The state of what was taken.
fn state_of(
    tally: Tally,
    least: Option<Value>,
    greatest: Option<Value>,
    entries: Sequence<Value>,
) -> State
    requires count { tally.count ≤ most_entries }
    requires possible { fitting.is_sum_of tally.count tally.sum ≡ true }
    requires least { is_extreme least ≡ true }
    requires greatest { is_extreme greatest ≡ true }
    requires spelled { list_all is_spelled entries ≡ true }
    ensures { result ≡ record {
      count = tally.count;
      sum = tally.sum;
      least = least;
      greatest = greatest;
      entries = entries;
    } }
{
    State::from_statistics(Statistics {
        count: tally.count,
        sum: tally.sum,
        least,
        greatest,
        entries,
    })
}

/// A state without entries.
fn alone(
    alloc: Global,
    count: u64,
    sum: i128,
    least: Option<Value>,
    greatest: Option<Value>,
) -> Result<State, DecodeFault>
    requires least { is_extreme least ≡ true }
    requires greatest { is_extreme greatest ≡ true }
    ensures { Reads (λ s. s) result (reading.alone count sum least greatest) }
{
    match tally_of(count, sum) {
        Ok(tally) => Ok(state_of(tally, least, greatest, Sequence::new(alloc))),
        Err(fault) => Err(fault),
    }
}

#[tactic(auto, unfolding(crate::specs::Reading::all_parts_at))]
fn take_all(alloc: Global, count: u64, bytes: &[u8]) -> Result<(State, &[u8]), DecodeFault>
    ensures { GivesIfMemory DecodeFault.Memory (λ x. (x.0, x.1.now)) result
        (reading.all_parts_at count bytes.now) }
{
    let (sum, rest) = take_sum(bytes)?;
    let tally = tally_of(count, sum)?;
    let (least, rest) = take_value(alloc, rest)?;
    let (greatest, rest) = take_value(alloc, rest)?;
    let (entries, rest) = take_values(alloc, Vec::new(alloc), rest)?;
    let state = state_of(tally, unless_null(least), unless_null(greatest), entries);
    Ok((state, rest))
}

/// The parts that a tag stands for.
#[tactic(auto, unfolding(crate::specs::Reading::tagged_parts_at))]
fn take_parts(
    alloc: Global,
    tag: u8,
    count: u64,
    bytes: &[u8],
) -> Result<(State, &[u8]), DecodeFault>
    ensures { GivesIfMemory DecodeFault.Memory (λ x. (x.0, x.1.now)) result
        (reading.tagged_parts_at tag count bytes.now) }
{
    match tag {
        0 => Ok((alone(alloc, count, 0, None, None)?, bytes)),
        1 => {
            let (sum, rest) = take_i128(bytes)?;
            Ok((alone(alloc, count, sum, None, None)?, rest))
        }
        2 => {
            let (least, rest) = take_value(alloc, bytes)?;
            Ok((alone(alloc, count, 0, unless_null(least), None)?, rest))
        }
        3 => {
            let (greatest, rest) = take_value(alloc, bytes)?;
            Ok((alone(alloc, count, 0, None, unless_null(greatest))?, rest))
        }
        4 => take_all(alloc, count, bytes),
        _ => Err(DecodeFault::Shape),
    }
}

#[tactic(auto, unfolding(crate::specs::Reading::state_at))]
pub fn take_state(alloc: Global, bytes: &[u8]) -> Result<(State, &[u8]), DecodeFault>
    ensures { GivesIfMemory DecodeFault.Memory (λ x. (x.0, x.1.now)) result
        (reading.state_at bytes.now) }
{
    let (tag, rest) = take_u8(bytes)?;
    let (count, rest) = take_small(rest)?;
    take_parts(alloc, tag, count, rest)
}
