//! Groups as they are packed: put behind other bytes, and taken from the front.
ghost use Rattle.std.specs.Prelude.{◌≡◌, ◌++◌, OnOk};
ghost use Rattle.std.specs.List.{flat_map, AllByRecursion};
ghost use Rattle.meaning.specs.Wanting.{GivesIfMemory};
ghost use Rattle.packed_groups.specs.Packable.{ArePackableStates, IsPackableGroup, IsPackableState};
ghost use Rattle.packed_groups.specs.Packing.{group_bytes, state_bytes, states_bytes};
ghost use Rattle.packed_groups.specs.Reading as reading;
ghost use Rattle.wire.specs.Reading.{repeat_at};

use crate::small::{put_small, take_small};
use crate::state::{put_state, take_state};
use crate::value::{put_values, take_values};
use aggregate_states::{Group, State};
use answer_fields::DecodeFault;
use meaning::{Sequence, Value};
use std::alloc::{AllocError, Global};

// ---- packing

fn put_all_states(out: &mut Vec<u8>, states: &[State]) -> Result<(), AllocError>
    ensures packed { OnOk result (out.new.items
        ≡ out.old.items ++ flat_map state_bytes states.now) }
    ensures packable { OnOk result (AllByRecursion IsPackableState states.now) }
{
    for state in states {
        put_state(out, state)?;
    }
    Ok(())
}

/// States behind their number.
#[tactic(auto, unfolding(crate::specs::Packing::states_bytes))]
fn put_states(out: &mut Vec<u8>, states: &[State]) -> Result<(), AllocError>
    ensures packed { OnOk result (out.new.items ≡ out.old.items ++ states_bytes states.now) }
    ensures packable { OnOk result (ArePackableStates states.now) }
{
    put_small(out, states.len() as u64)?;
    put_all_states(out, states)
}

#[tactic(auto, unfolding(crate::specs::Packing::group_bytes))]
pub fn put_group(out: &mut Vec<u8>, group: &Group) -> Result<(), AllocError>
    ensures packed { OnOk result (out.new.items ≡ out.old.items ++ group_bytes group.now) }
    ensures packable { OnOk result (IsPackableGroup group.now) }
{
    put_values(out, group.key().as_slice())?;
    put_small(out, group.rows())?;
    put_states(out, group.states())
}

pub fn put_groups(out: &mut Vec<u8>, groups: &[Group]) -> Result<(), AllocError>
    ensures packed { OnOk result (out.new.items
        ≡ out.old.items ++ flat_map group_bytes groups.now) }
    ensures packable { OnOk result (AllByRecursion IsPackableGroup groups.now) }
{
    for group in groups {
        put_group(out, group)?;
    }
    Ok(())
}

// ---- taking

/// So many states, in a buffer that is used again.
fn take_all_states(
    alloc: Global,
    spare: Vec<State>,
    width: usize,
    bytes: &[u8],
) -> Result<(Sequence<State>, &[u8]), DecodeFault>
    ensures { GivesIfMemory DecodeFault.Memory (λ x. (x.0, x.1.now)) result
        (repeat_at reading.state_at width bytes.now) }
{
    let mut states = spare;
    states.clear();
    let mut rest = bytes;
    for _ in 0..width {
        let (state, behind) = take_state(alloc, rest)?;
        states.push(state)?;
        rest = behind;
    }
    Ok((Sequence::from_vec(states), rest))
}

#[tactic(auto, unfolding(crate::specs::Reading::states_at))]
fn take_states(
    alloc: Global,
    spare: Vec<State>,
    bytes: &[u8],
) -> Result<(Sequence<State>, &[u8]), DecodeFault>
    ensures { GivesIfMemory DecodeFault.Memory (λ x. (x.0, x.1.now)) result
        (reading.states_at bytes.now) }
{
    let (width, rest) = take_small(bytes)?;
    take_all_states(alloc, spare, width as usize, rest)
}

/// The buffers of a group that is given up.
fn buffers_of(alloc: Global, spare: Option<Group>) -> (Vec<Value>, Vec<State>) {
    match spare {
        Some(group) => {
            let (key, _, states) = group.into_parts();
            (key.into_vec(), states.into_vec())
        }
        None => (Vec::new(alloc), Vec::new(alloc)),
    }
}

/// A group, in the buffers of one that is given up.
#[tactic(auto, unfolding(crate::specs::Reading::group_at))]
fn take_group(
    alloc: Global,
    spare: Option<Group>,
    bytes: &[u8],
) -> Result<(Group, &[u8]), DecodeFault>
    ensures { GivesIfMemory DecodeFault.Memory (λ x. (x.0, x.1.now)) result
        (reading.group_at bytes.now) }
{
    let (values, states) = buffers_of(alloc, spare);
    let (key, rest) = take_values(alloc, values, bytes)?;
    let (rows, rest) = take_small(rest)?;
    let (states, rest) = take_states(alloc, states, rest)?;
    Ok((Group::new(key, rows, states), rest))
}

/// So many groups, in the buffers of groups that are given up. Memory is taken for no more of them
/// than the bytes can hold.
pub fn take_groups(
    alloc: Global,
    spare: Vec<Group>,
    count: usize,
    bytes: &[u8],
) -> Result<(Vec<Group>, &[u8]), DecodeFault>
    ensures { GivesIfMemory DecodeFault.Memory (λ x. (x.0.items, x.1.now)) result
        (repeat_at reading.group_at count bytes.now) }
{
    let mut spare = spare;
    let mut groups = Vec::with_capacity(alloc, count.min(bytes.len() / 3))?;
    let mut rest = bytes;
    for _ in 0..count {
        let (group, behind) = take_group(alloc, spare.pop(), rest)?;
        groups.push(group)?;
        rest = behind;
    }
    Ok((groups, rest))
}
