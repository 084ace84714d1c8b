//! Each kind over two lists, one merged into the other; MIN and MAX over four, three of them merged
//! by one call.
ghost use Rattle.std.specs.Prelude.{◌≡◌, ◌≤◌, length, map, sum, true, All, IfOk};
ghost use Rattle.aggregate_states.specs.Values.{is_spelled};
ghost use Rattle.vectors.specs.Vector.{values_of};
ghost use Rattle.accumulators.specs.AnyAcc.{held_by};

use accumulators::{Accumulator, AggFault, AnyAcc, State};
use meaning::{AggregateKind, Value};
use short_vectors::{NULL, twice, vector_of};
use std::alloc::{AllocError, Global};
use std::fmt::Write;
use std::mem::drop;
use std::process::Abort;
use vectors::{Selection, Vector};

const MOST: i64 = i64::MAX;

/// The aggregate over so many lanes.
fn aggregate_over(
    alloc: Global,
    kind: AggregateKind,
    lanes: &Vector<'_>,
    many: usize,
) -> Result<AnyAcc, AllocError>
    requires long { length (values_of lanes.now) ≡ many }
    requires spelled { All (λ v. is_spelled v ≡ true) (values_of lanes.now) }
    requires few { many ≤ 100 }
{
    let selection = Selection::all(alloc, many as u32)?;
    let mut acc = AnyAcc::new(alloc, kind);
    match acc.update_batch(alloc, lanes, &selection) {
        Ok(()) => Ok(acc),
        Err(refused) => {
            drop(acc);
            Err(refused)
        }
    }
}

/// Integers, or a text twice.
#[derive(Clone, Copy)]
enum Entries {
    Ints(&'static [i64]),
    Text(&'static str),
}

use Entries::{Ints, Text};

/// The aggregate over a list.
fn aggregate_of(alloc: Global, kind: AggregateKind, list: &[i64]) -> Result<AnyAcc, AllocError>
    requires { length list.now ≤ 100 }
{
    let lanes = vector_of(alloc, list, list.len())?;
    aggregate_over(alloc, kind, &lanes, list.len())
}

fn aggregate_of_entries(
    alloc: Global,
    kind: AggregateKind,
    entries: Entries,
) -> Result<AnyAcc, AllocError> {
    match entries {
        Ints(list) if list.len() <= 100 => aggregate_of(alloc, kind, list),
        Ints(_) => Err(AllocError),
        Text(text) => aggregate_over(alloc, kind, &twice(text), 2),
    }
}

/// A state, where it knows of few entries, as those here do.
fn few(alloc: Global, acc: &AnyAcc) -> Result<State, AllocError>
    ensures few { IfOk result (λ s. s.count ≤ 100) }
    ensures value { IfOk result (λ s. s ≡ held_by acc.now) }
{
    let state = acc.state(alloc)?;
    if state.count() > 100 {
        drop(state);
        return Err(AllocError);
    }
    Ok(state)
}

fn few_of(alloc: Global, kind: AggregateKind, entries: Entries) -> Result<State, AllocError>
    ensures { IfOk result (λ s. s.count ≤ 100) }
{
    few(alloc, &aggregate_of_entries(alloc, kind, entries)?)
}

/// The state of the aggregate over a list.
fn one_state(alloc: Global, kind: AggregateKind, entries: Entries) -> Result<Vec<State>, AllocError>
    ensures { IfOk result (λ states. sum (map (λ s. s.count) states.items) ≤ 300) }
{
    let state = few_of(alloc, kind, entries)?;
    Ok(vec![in alloc; state]?)
}

/// The state, and behind it those over two lists.
fn two_more(
    alloc: Global,
    kind: AggregateKind,
    one: State,
    entries: (Entries, Entries),
) -> Result<Vec<State>, AllocError>
    requires { one.count ≤ 100 }
    ensures { IfOk result (λ states. sum (map (λ s. s.count) states.items) ≤ 300) }
{
    let two = few_of(alloc, kind, entries.0)?;
    let three = few_of(alloc, kind, entries.1)?;
    Ok(vec![in alloc; one, two, three]?)
}

fn three_states(
    alloc: Global,
    kind: AggregateKind,
    entries: (Entries, Entries, Entries),
) -> Result<Vec<State>, AllocError>
    ensures { IfOk result (λ states. sum (map (λ s. s.count) states.items) ≤ 300) }
{
    let one = few_of(alloc, kind, entries.0)?;
    two_more(alloc, kind, one, (entries.1, entries.2))
}

pub fn show_value(shown: &mut String, value: Result<Value, AggFault>) -> Result<(), AllocError> {
    match value {
        Ok(Value::Null) => shown.push_str("NULL"),
        Ok(Value::Int(int)) => write!(shown, "{int}"),
        Ok(Value::Text(text)) => shown.push_str(text.as_str()),
        Err(AggFault::SumOutOfRange) => shown.push_str("refused"),
        Err(AggFault::Memory) => Err(AllocError),
    }
}

/// How many entries there are, their sum, and the aggregate.
fn show(alloc: Global, acc: &AnyAcc, shown: &mut String) -> Result<(), AllocError> {
    let state = acc.state(alloc)?;
    let written = write!(shown, "{} {} ", state.count(), state.sum());
    drop(state);
    written?;
    show_value(shown, acc.evaluate(alloc))
}

/// What is shown of an aggregate into which these states are merged by one call.
fn merge_and_show(
    alloc: Global,
    acc: &mut AnyAcc,
    states: &[State],
    shown: &mut String,
) -> Result<(), AllocError>
    requires { sum (map (λ s. s.count) states.now) ≤ 300 }
{
    drop(few(alloc, acc)?);
    acc.merge_batch(alloc, states)?;
    show(alloc, acc, shown)
}

fn show_merged(
    alloc: Global,
    kind: AggregateKind,
    first: Entries,
    states: &[State],
    shown: &mut String,
) -> Result<(), AllocError>
    requires { sum (map (λ s. s.count) states.now) ≤ 300 }
{
    match aggregate_of_entries(alloc, kind, first) {
        Ok(acc) => {
            let mut acc = acc;
            let ended = merge_and_show(alloc, &mut acc, states, shown);
            drop(acc);
            ended
        }
        Err(refused) => Err(refused),
    }
}

/// What is shown of the aggregate over a list, with these states merged into it.
fn shown_merged(
    alloc: Global,
    kind: AggregateKind,
    first: Entries,
    states: Vec<State>,
) -> Result<String, AllocError>
    requires { sum (map (λ s. s.count) states.items) ≤ 300 }
{
    let mut shown = String::new(alloc);
    let ended = show_merged(alloc, kind, first, states.as_slice(), &mut shown);
    drop(states);
    ended?;
    Ok(shown)
}

/// Two lists, and what is shown once the second is merged into the first.
type Merged = (AggregateKind, &'static [i64], &'static [i64], &'static str);

pub fn expect_shown(
    rt: &impl Abort,
    shown: Result<String, AllocError>,
    want: &str,
) -> Result<(), AllocError> {
    assert_eq!(rt; shown?.as_str(), want);
    Ok(())
}

fn expect(rt: &impl Abort, alloc: Global, case: &Merged) -> Result<(), AllocError> {
    let (kind, first, second, want) = *case;
    let states = one_state(alloc, kind, Ints(second))?;
    expect_shown(rt, shown_merged(alloc, kind, Ints(first), states), want)
}

const MERGED: &[Merged] = &[
    // A sum outside of 64 bits is refused when it is read, and what is merged may bring it back.
    (
        AggregateKind::Sum,
        &[MOST, 1],
        &[],
        "2 9223372036854775808 refused",
    ),
    (
        AggregateKind::Sum,
        &[MOST, 1],
        &[-1],
        "3 9223372036854775807 9223372036854775807",
    ),
    // An average leaves NULL out, and rounds towards zero.
    (AggregateKind::Avg, &[2, NULL, 4], &[1], "3 7 2"),
    (AggregateKind::Avg, &[-7], &[2], "2 -5 -2"),
    // The least of nothing is NULL, and nothing is counted as zero.
    (AggregateKind::Min, &[NULL], &[NULL], "0 0 NULL"),
    (AggregateKind::Count, &[NULL], &[NULL], "0 0 0"),
    (AggregateKind::CountRows, &[1, 1], &[1], "3 0 3"),
    (AggregateKind::Max, &[-5, NULL], &[-3], "2 0 -3"),
    // A set has no count and no sum of its own. Entries that are in both lists are taken once,
    // whichever of them is merged into the other.
    (
        AggregateKind::CountDistinct,
        &[2, NULL, 2, 5],
        &[5, 9],
        "0 0 3",
    ),
    (
        AggregateKind::CountDistinct,
        &[5, 9],
        &[2, NULL, 2, 5],
        "0 0 3",
    ),
    (
        AggregateKind::SumDistinct,
        &[2, NULL, 2, 5],
        &[5, 9],
        "0 0 16",
    ),
    (
        AggregateKind::SumDistinct,
        &[5, 9],
        &[2, NULL, 2, 5],
        "0 0 16",
    ),
    // Nothing has no different entries, and their sum is NULL.
    (AggregateKind::CountDistinct, &[NULL, NULL], &[], "0 0 0"),
    (AggregateKind::CountDistinct, &[], &[NULL, NULL], "0 0 0"),
    (AggregateKind::SumDistinct, &[NULL, NULL], &[], "0 0 NULL"),
    (AggregateKind::SumDistinct, &[], &[NULL, NULL], "0 0 NULL"),
    // The greatest integer is summed once.
    (
        AggregateKind::SumDistinct,
        &[MOST, MOST],
        &[1, MOST],
        "0 0 refused",
    ),
    (
        AggregateKind::SumDistinct,
        &[1, MOST],
        &[MOST, MOST],
        "0 0 refused",
    ),
    (
        AggregateKind::SumDistinct,
        &[MOST, 1],
        &[-1, MOST],
        "0 0 9223372036854775807",
    ),
    (
        AggregateKind::SumDistinct,
        &[-1, MOST],
        &[MOST, 1],
        "0 0 9223372036854775807",
    ),
];

#[test]
fn one_list_is_merged_into_another(rt: HostRuntime) -> Result<(), AllocError> {
    for case in MERGED {
        expect(&rt, rt.alloc(), case)?;
    }
    Ok(())
}

/// Entries, three more whose states are merged into theirs by one call, and what is then shown.
type AtOnce = (Entries, (Entries, Entries, Entries), &'static str);

fn expect_at_once(
    rt: &impl Abort,
    alloc: Global,
    kind: AggregateKind,
    case: &AtOnce,
) -> Result<(), AllocError> {
    let (first, others, want) = *case;
    let states = three_states(alloc, kind, others)?;
    expect_shown(rt, shown_merged(alloc, kind, first, states), want)
}

fn expect_each(
    rt: &impl Abort,
    alloc: Global,
    kind: AggregateKind,
    cases: &[AtOnce],
) -> Result<(), AllocError> {
    for case in cases {
        expect_at_once(rt, alloc, kind, case)?;
    }
    Ok(())
}

const LEAST: &[AtOnce] = &[
    (Ints(&[5]), (Ints(&[3, 9]), Ints(&[7]), Ints(&[4])), "5 0 3"),
    (Ints(&[5]), (Ints(&[7]), Ints(&[3, 9]), Ints(&[4])), "5 0 3"),
    (Ints(&[5]), (Ints(&[7]), Ints(&[4]), Ints(&[9, 3])), "5 0 3"),
    (Ints(&[2]), (Ints(&[7]), Ints(&[4]), Ints(&[9, 3])), "5 0 2"),
    (Ints(&[]), (Ints(&[7]), Ints(&[NULL]), Ints(&[8])), "2 0 7"),
    (
        Ints(&[]),
        (Ints(&[NULL]), Ints(&[]), Ints(&[NULL])),
        "0 0 NULL",
    ),
    (Text("m"), (Text("x"), Text("east"), Text("n")), "8 0 east"),
    (Text("b"), (Text("x"), Text("east"), Text("n")), "8 0 b"),
];

const GREATEST: &[AtOnce] = &[
    (Ints(&[5]), (Ints(&[9, 3]), Ints(&[7]), Ints(&[4])), "5 0 9"),
    (Ints(&[5]), (Ints(&[7]), Ints(&[3, 9]), Ints(&[4])), "5 0 9"),
    (Ints(&[5]), (Ints(&[7]), Ints(&[4]), Ints(&[9, 3])), "5 0 9"),
    (
        Ints(&[12]),
        (Ints(&[7]), Ints(&[4]), Ints(&[9, 3])),
        "5 0 12",
    ),
    (
        Ints(&[]),
        (Ints(&[-7]), Ints(&[NULL]), Ints(&[-8])),
        "2 0 -7",
    ),
    (
        Ints(&[]),
        (Ints(&[NULL]), Ints(&[]), Ints(&[NULL])),
        "0 0 NULL",
    ),
    (Text("m"), (Text("b"), Text("west"), Text("n")), "8 0 west"),
    (Text("x"), (Text("b"), Text("west"), Text("n")), "8 0 x"),
];

const DIFFERENT: &[AtOnce] = &[
    (
        Ints(&[5]),
        (Ints(&[3, 9]), Ints(&[]), Ints(&[9, 5])),
        "0 0 3",
    ),
    (
        Ints(&[]),
        (Ints(&[NULL]), Ints(&[]), Ints(&[NULL])),
        "0 0 0",
    ),
    (Text("m"), (Text("x"), Text("m"), Text("n")), "0 0 3"),
    (Text(""), (Text("x"), Text("east"), Text("")), "0 0 3"),
];

const SEVERAL: &[(AggregateKind, &[AtOnce])] = &[
    (AggregateKind::Min, LEAST),
    (AggregateKind::Max, GREATEST),
    (AggregateKind::CountDistinct, DIFFERENT),
];

#[test]
fn several_states_are_merged_at_once(rt: HostRuntime) -> Result<(), AllocError> {
    for (kind, cases) in SEVERAL {
        expect_each(&rt, rt.alloc(), *kind, cases)?;
    }
    Ok(())
}
