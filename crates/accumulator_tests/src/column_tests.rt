//! States of two groups, by group index: 5 and 7 go to the first, NULL to the second.
ghost use Rattle.std.specs.Prelude.{◌≡◌, ◌≤◌, ◌<◌, ◌+◌, [], ◌∷◌, length, map, sum, All, IfOk};
ghost use Rattle.aggregate_states.specs.State.{most_entries};
ghost use Rattle.meaning.specs.Aggregate.{no_statistics};

use crate::aggregate_tests::{expect_shown, show_value};
use accumulators::{State, StateColumn};
use meaning::AggregateKind;
use short_vectors::{NULL, plain, vector_of};
use std::alloc::{AllocError, Global};
use std::mem::drop;
use std::process::Abort;
use vectors::Selection;

fn two_groups(alloc: Global, kind: AggregateKind) -> Result<StateColumn, AllocError>
    ensures { IfOk result (λ c. c ≡ record {
      kind = kind;
      states = no_statistics ∷ no_statistics ∷
          [];
    }) }
{
    let mut column = StateColumn::new(alloc, kind);
    column.push()?;
    column.push()?;
    Ok(column)
}

/// The column, unless what was done with it was refused.
fn column_if(column: StateColumn, done: Result<(), AllocError>) -> Result<StateColumn, AllocError>
    ensures { IfOk result (λ c. c ≡ column) }
{
    match done {
        Ok(()) => Ok(column),
        Err(refused) => {
            drop(column);
            Err(refused)
        }
    }
}

fn update(alloc: Global, column: &mut StateColumn) -> Result<(), AllocError>
    requires { column.old.states ≡ no_statistics ∷ no_statistics ∷ [] }
    ensures { length column.new.states ≡ 2 }
{
    let lanes = vector_of(alloc, &[5, NULL, 7], 3)?;
    let selection = Selection::all(alloc, 3)?;
    column.update(alloc, &[0, 1, 0], &lanes, &selection)
}

fn updated(alloc: Global, kind: AggregateKind) -> Result<StateColumn, AllocError>
    ensures { IfOk result (λ c. length c.states ≡ 2) }
{
    let mut column = two_groups(alloc, kind)?;
    let done = update(alloc, &mut column);
    column_if(column, done)
}

/// The first group's state.
fn first_state(alloc: Global, kind: AggregateKind) -> Result<Vec<State>, AllocError>
    ensures one { IfOk result (λ states. length states.items ≡ 1) }
    ensures few { IfOk result (λ states. sum (map (λ s. s.count) states.items) ≤ most_entries) }
{
    let column = updated(alloc, kind)?;
    let state = column.state(alloc, 0);
    drop(column);
    let state = state?;
    let _few = state.count();
    Ok(vec![in alloc; state]?)
}

fn merge(alloc: Global, kind: AggregateKind, column: &mut StateColumn) -> Result<(), AllocError>
    requires { column.old.states ≡ no_statistics ∷ no_statistics ∷ [] }
    ensures { length column.new.states ≡ 2 }
{
    let states = first_state(alloc, kind)?;
    column.merge(alloc, &[1], states.as_slice())
}

/// The first group's state, merged into the second of others.
fn merged(alloc: Global, kind: AggregateKind) -> Result<StateColumn, AllocError>
    ensures { IfOk result (λ c. length c.states ≡ 2) }
{
    let mut column = two_groups(alloc, kind)?;
    let done = merge(alloc, kind, &mut column);
    column_if(column, done)
}

/// What the aggregate of a state is.
fn show_state(
    alloc: Global,
    kind: AggregateKind,
    state: State,
    shown: &mut String,
) -> Result<(), AllocError> {
    let value = state.evaluate(alloc, kind);
    drop(state);
    show_value(shown, value)?;
    shown.push_str(";")
}

/// What the aggregate is in each group.
fn shown(alloc: Global, kind: AggregateKind, column: &StateColumn) -> Result<String, AllocError>
    requires { length column.now.states ≡ 2 }
{
    let mut shown = String::new(alloc);
    for group_index in 0..2 {
        let state = column.state(alloc, group_index)?;
        show_state(alloc, kind, state, &mut shown)?;
    }
    Ok(shown)
}

fn expect(
    rt: &impl Abort,
    alloc: Global,
    kind: AggregateKind,
    want: &str,
) -> Result<(), AllocError> {
    let column = updated(alloc, kind)?;
    let shown = shown(alloc, kind, &column);
    drop(column);
    expect_shown(rt, shown, want)
}

const BY_GROUP: &[(AggregateKind, &str)] = &[
    (AggregateKind::Count, "2;0;"),
    (AggregateKind::Sum, "12;NULL;"),
    (AggregateKind::Avg, "6;NULL;"),
    (AggregateKind::Min, "5;NULL;"),
    (AggregateKind::Max, "7;NULL;"),
    (AggregateKind::CountDistinct, "2;0;"),
    (AggregateKind::SumDistinct, "12;NULL;"),
];

#[test]
fn aggregates_by_group(rt: HostRuntime) -> Result<(), AllocError> {
    for (kind, want) in BY_GROUP {
        expect(&rt, rt.alloc(), *kind, want)?;
    }
    Ok(())
}

fn expect_merged(
    rt: &impl Abort,
    alloc: Global,
    kind: AggregateKind,
    want: &str,
) -> Result<(), AllocError> {
    let column = merged(alloc, kind)?;
    let shown = shown(alloc, kind, &column);
    drop(column);
    expect_shown(rt, shown, want)
}

const MERGED: &[(AggregateKind, &str)] = &[
    (AggregateKind::Sum, "NULL;12;"),
    (AggregateKind::Min, "NULL;5;"),
    (AggregateKind::CountDistinct, "0;2;"),
];

#[test]
fn states_are_merged_by_group(rt: HostRuntime) -> Result<(), AllocError> {
    for (kind, want) in MERGED {
        expect_merged(&rt, rt.alloc(), *kind, want)?;
    }
    Ok(())
}

/// The integers below so many, each twice, and each one's remainder by 7.
fn twice_by_seven(alloc: Global, many: usize) -> Result<(Vec<i64>, Vec<u32>), AllocError>
    requires { many ≤ 1000 }
    ensures ints { IfOk result (λ rows. length rows.0.items ≡ many + many) }
    ensures group_indexes { IfOk result (λ rows. length rows.1.items ≡ many + many) }
    ensures within { IfOk result (λ rows. All (λ group_index. group_index < 7) rows.1.items) }
{
    let mut ints = Vec::new(alloc);
    let mut group_indexes = Vec::new(alloc);
    for k in 0..many + many {
        ints.push((k / 2) as i64)?;
        group_indexes.push((k / 2 % 7) as u32)?;
    }
    Ok((ints, group_indexes))
}

fn seven_groups(alloc: Global, kind: AggregateKind) -> Result<StateColumn, AllocError>
    ensures seven { IfOk result (λ c. length c.states ≡ 7) }
    ensures fresh { IfOk result (λ c. All (λ s. s.count ≡ 0) c.states) }
{
    let mut column = StateColumn::new(alloc, kind);
    for _ in 0..7_usize {
        column.push()?;
    }
    Ok(column)
}

fn update_by_seven(alloc: Global, column: &mut StateColumn, many: usize) -> Result<(), AllocError>
    requires many { many ≤ 1000 }
    requires seven { length column.old.states ≡ 7 }
    requires fresh { All (λ s. s.count ≡ 0) column.old.states }
    ensures { length column.new.states ≡ 7 }
{
    let (ints, group_indexes) = twice_by_seven(alloc, many)?;
    let selection = Selection::all(alloc, (many + many) as u32)?;
    column.update(
        alloc,
        group_indexes.as_slice(),
        &plain(ints.as_slice()),
        &selection,
    )
}

fn updated_by_seven(
    alloc: Global,
    kind: AggregateKind,
    many: usize,
) -> Result<StateColumn, AllocError>
    requires { many ≤ 1000 }
    ensures { IfOk result (λ c. length c.states ≡ 7) }
{
    let mut column = seven_groups(alloc, kind)?;
    let done = update_by_seven(alloc, &mut column, many);
    column_if(column, done)
}

fn show_seven(
    alloc: Global,
    kind: AggregateKind,
    column: &StateColumn,
    shown: &mut String,
) -> Result<(), AllocError>
    requires { length column.now.states ≡ 7 }
{
    let states = column.ordered(alloc)?;
    for group_index in 0..7 {
        let state = states.state(alloc, group_index)?;
        show_state(alloc, kind, state, shown)?;
    }
    Ok(())
}

/// What the aggregate is in each of seven groups.
fn shown_of_seven(alloc: Global, kind: AggregateKind, many: usize) -> Result<String, AllocError>
    requires { many ≤ 1000 }
{
    let column = updated_by_seven(alloc, kind, many)?;
    let mut shown = String::new(alloc);
    let ended = show_seven(alloc, kind, &column, &mut shown);
    drop(column);
    ended?;
    Ok(shown)
}

const BY_SEVEN: &[(AggregateKind, &str)] = &[
    (AggregateKind::CountDistinct, "143;143;143;143;143;143;142;"),
    (
        AggregateKind::SumDistinct,
        "71071;71214;71357;71500;71643;71786;70929;",
    ),
];

#[test]
fn sets_of_a_thousand_entries(rt: HostRuntime) -> Result<(), AllocError> {
    for (kind, want) in BY_SEVEN {
        expect_shown(&rt, shown_of_seven(rt.alloc(), *kind, 1000), want)?;
    }
    Ok(())
}
