//! What tables hand out, by the order of their keys.
ghost use Rattle.std.specs.Prelude.{◌≡◌, ◌≤◌, ◌+◌, ◌∷◌, [], length, map, IfOk};
ghost use Rattle.meaning.specs.declared.plan.AggregateKind.TheVariants.{Sum};
ghost use Rattle.group_keys.specs.Rows.{AreLanesOf};
ghost use Rattle.group_by.specs.Shape.{shape_of};
ghost use Rattle.group_tests.specs.Tables.{HasTaken};

use crate::lanes::{alike, vectors_of};
use crate::tables::{shown, sum_by, table_of, with_rows};
use accumulators::Group;
use group_by::{GroupTable, OrderedGroups};
use meaning::{Plan, Value};
use short_vectors::{NULL, plain, twice, vector_of};
use std::alloc::{AllocError, Global};
use std::mem::drop;
use std::process::Abort;
use vectors::Vector;

/// What a table hands out.
fn shown_out(alloc: Global, table: GroupTable) -> Result<String, AllocError> {
    let groups = table.into_groups(alloc)?;
    shown(alloc, groups.as_slice())
}

/// What the table of these rows hands out.
fn shown_of(
    alloc: Global,
    plan: &Plan,
    keys: &[Vector<'_>],
    list: &[i64],
) -> Result<String, AllocError>
    requires sum { map (λ a. a.kind) plan.now.aggs ≡ Sum ∷ [] }
    requires few { length list.now ≤ 1000 }
    requires keys { AreLanesOf (length list.now) keys.now }
{
    let table = table_of(alloc, plan, keys, list)?;
    shown_out(alloc, table)
}

/// The groups from one place up to another.
fn shown_batch(
    alloc: Global,
    groups: &OrderedGroups<'_>,
    from: usize,
    to: usize,
) -> Result<String, AllocError>
    requires ordered { from ≤ to }
    requires within { to ≤ length groups.now }
{
    let batch = groups.batch(alloc, from, to, Vec::new(alloc))?;
    shown(alloc, batch.as_slice())
}

fn shown_batches(alloc: Global, groups: &OrderedGroups<'_>) -> Result<String, AllocError> {
    let middle = groups.len() / 2;
    let mut said = shown_batch(alloc, groups, 0, middle)?;
    let behind = shown_batch(alloc, groups, middle, groups.len())?;
    said.push_str(behind.as_str())?;
    Ok(said)
}

fn shown_in_order(alloc: Global, table: &GroupTable) -> Result<String, AllocError> {
    match table.ordered(alloc) {
        Ok(groups) => {
            let said = shown_batches(alloc, &groups);
            drop(groups);
            said
        }
        Err(refused) => Err(refused),
    }
}

/// What the table of these rows hands out in two batches.
fn shown_in_halves(
    alloc: Global,
    plan: &Plan,
    keys: &[Vector<'_>],
    list: &[i64],
) -> Result<String, AllocError>
    requires sum { map (λ a. a.kind) plan.now.aggs ≡ Sum ∷ [] }
    requires few { length list.now ≤ 1000 }
    requires keys { AreLanesOf (length list.now) keys.now }
{
    match table_of(alloc, plan, keys, list) {
        Ok(table) => {
            let said = shown_in_order(alloc, &table);
            drop(table);
            said
        }
        Err(refused) => Err(refused),
    }
}

fn expect_shown(
    rt: &impl Abort,
    shown: Result<String, AllocError>,
    want: &str,
) -> Result<(), AllocError> {
    assert_eq!(rt; shown?.as_str(), want);
    Ok(())
}

fn expect(
    rt: &impl Abort,
    alloc: Global,
    keys: &[Vector<'_>],
    list: &[i64],
    want: &str,
) -> Result<(), AllocError>
    requires few { length list.now ≤ 1000 }
    requires keys { AreLanesOf (length list.now) keys.now }
{
    let plan = sum_by(alloc, keys.len())?;
    let shown = shown_of(alloc, &plan, keys, list);
    let halves = shown_in_halves(alloc, &plan, keys, list);
    drop(plan);
    expect_shown(rt, shown, want)?;
    expect_shown(rt, halves, want)
}

/// Keys by columns, each row's argument, and what is handed out.
type Case = (&'static [&'static [i64]], &'static [i64], &'static str);

const CASES: &[Case] = &[
    // No keys: one group, of no rows too.
    (&[], &[], "0 0 0; "),
    (&[], &[5, NULL, 7], "3 2 12; "),
    // No rows by a key: no group.
    (&[&[]], &[], ""),
    // One key of each row, and NULL as one key.
    (&[&[8, 8, 8]], &[1, 2, 3], "8 3 3 6; "),
    // The keys a, b, NULL and a.
    (
        &[&[1, 2, NULL, 1]],
        &[1, 2, 4, 8],
        "NULL 1 1 4; 1 2 2 9; 2 1 1 2; ",
    ),
    (
        &[&[7, -3, NULL, 7, NULL]],
        &[1, 2, NULL, 4, 5],
        "NULL 2 1 5; -3 1 1 2; 7 2 2 5; ",
    ),
    (
        &[&[2, 1, 2, 1], &[1, 1, NULL, 1]],
        &[1, 2, 3, 4],
        "1 1 2 2 6; 2 NULL 1 1 3; 2 1 1 1 1; ",
    ),
    // NULL and 1 have one hash.
    (
        &[&[1, NULL, 1, NULL]],
        &[1, 2, 4, 8],
        "NULL 2 2 10; 1 2 2 5; ",
    ),
    // So have these two pairs.
    (
        &[
            &[1, 3, 1, 3],
            &[2, -3_678_574_936_564_667_395, 2, -3_678_574_936_564_667_395],
        ],
        &[1, 2, 4, 8],
        "1 2 2 2 5; 3 -3678574936564667395 2 2 10; ",
    ),
    // These four begin in one slot.
    (
        &[&[
            7_779_491_247_981_941_025,
            7_189_624_168_607_336_246,
            438_440_827_956_427_855,
            6_805_971_758_090_519_332,
            7_189_624_168_607_336_246,
        ]],
        &[1, 2, 4, 8, 16],
        "438440827956427855 1 1 4; 6805971758090519332 1 1 8; 7189624168607336246 2 2 18; 7779491247981941025 1 1 1; ",
    ),
];

fn expect_case(rt: &impl Abort, alloc: Global, case: &Case) -> Result<(), AllocError> {
    let (keys, list, want) = *case;
    if list.len() > 1000 {
        return Err(AllocError);
    }
    let keys = vectors_of(alloc, keys, list.len())?;
    expect(rt, alloc, keys.as_slice(), list, want)
}

#[test]
fn rows_by_integers(rt: HostRuntime) -> Result<(), AllocError> {
    for case in CASES {
        expect_case(&rt, rt.alloc(), case)?;
    }
    Ok(())
}

/// Rows by keys, with what is summed.
#[derive(Clone, Copy)]
struct Part<'a> {
    keys: &'a [Vector<'a>],
    list: &'a [i64],
}

/// What the table of these rows hands out, and of those behind them.
fn shown_of_both(
    alloc: Global,
    plan: &Plan,
    first: &Part<'_>,
    more: &Part<'_>,
) -> Result<String, AllocError>
    requires sum { map (λ a. a.kind) plan.now.aggs ≡ Sum ∷ [] }
    requires few { length first.now.list.now ≤ 1000 }
    requires few_more { length more.now.list.now ≤ 1000 }
    requires keys { AreLanesOf (length first.now.list.now) first.now.keys.now }
    requires more_keys { AreLanesOf (length more.now.list.now) more.now.keys.now }
{
    let table = table_of(alloc, plan, first.keys, first.list)?;
    let arguments = [vector_of(alloc, more.list, more.list.len())?];
    let table = with_rows(alloc, table, more.keys, &arguments, more.list.len())?;
    shown_out(alloc, table)
}

fn expect_both(
    rt: &impl Abort,
    alloc: Global,
    first: &Part<'_>,
    more: &Part<'_>,
    want: &str,
) -> Result<(), AllocError>
    requires few { length first.now.list.now ≤ 1000 }
    requires few_more { length more.now.list.now ≤ 1000 }
    requires keys { AreLanesOf (length first.now.list.now) first.now.keys.now }
    requires more_keys { AreLanesOf (length more.now.list.now) more.now.keys.now }
{
    let plan = sum_by(alloc, 1)?;
    let shown = shown_of_both(alloc, &plan, first, more);
    drop(plan);
    expect_shown(rt, shown, want)
}

/// Rows by one key.
type Rows = (&'static [i64], &'static [i64]);

/// Rows of a vector without a mask, rows of one with a mask, and what is handed out.
type Both = (Rows, Rows, &'static str);

const BOTH: &[Both] = &[
    // The first are close to each other, so their group indexes stand in a table of their own;
    // those with a mask are hashed.
    (
        (&[5, 6, 5], &[1, 2, 4]),
        (&[6, NULL, 7, 6], &[8, 16, 32, 64]),
        "NULL 1 1 16; 5 2 2 5; 6 3 3 74; 7 1 1 32; ",
    ),
    // Such a table ends with the integers of 64 bits, and others lie beyond it.
    (
        (
            &[9_223_372_036_854_775_807, 9_223_372_036_854_775_806],
            &[1, 2],
        ),
        (
            &[-9_223_372_036_854_775_808, 9_223_372_036_854_775_807, 0],
            &[4, 8, 16],
        ),
        "-9223372036854775808 1 1 4; 0 1 1 16; 9223372036854775806 1 1 2; 9223372036854775807 2 2 9; ",
    ),
    (
        (
            &[-9_223_372_036_854_775_808, -9_223_372_036_854_775_807],
            &[1, 2],
        ),
        (
            &[9_223_372_036_854_775_807, -9_223_372_036_854_775_808],
            &[4, 8],
        ),
        "-9223372036854775808 2 2 9; -9223372036854775807 1 1 2; 9223372036854775807 1 1 4; ",
    ),
    // Their distance is beyond 63 bits.
    (
        (
            &[
                -9_223_372_036_854_775_808,
                9_223_372_036_854_775_807,
                -9_223_372_036_854_775_808,
            ],
            &[1, 2, 4],
        ),
        (&[9_223_372_036_854_775_807], &[8]),
        "-9223372036854775808 2 2 5; 9223372036854775807 2 2 10; ",
    ),
    // These four begin in one slot.
    (
        (
            &[
                7_779_491_247_981_941_025,
                7_189_624_168_607_336_246,
                438_440_827_956_427_855,
                6_805_971_758_090_519_332,
            ],
            &[1, 2, 4, 8],
        ),
        (
            &[6_805_971_758_090_519_332, 7_189_624_168_607_336_246],
            &[16, 32],
        ),
        "438440827956427855 1 1 4; 6805971758090519332 2 2 24; 7189624168607336246 2 2 34; 7779491247981941025 1 1 1; ",
    ),
];

fn expect_both_ways(rt: &impl Abort, alloc: Global, case: &Both) -> Result<(), AllocError> {
    let ((keys, list), (more_keys, more), want) = *case;
    if keys.len() != list.len() || list.len() > 1000 || more.len() > 1000 {
        return Err(AllocError);
    }
    let bare = [plain(keys)];
    let masked = [vector_of(alloc, more_keys, more.len())?];
    let bare = Part { keys: &bare, list };
    let masked = Part {
        keys: &masked,
        list: more,
    };
    expect_both(rt, alloc, &bare, &masked, want)?;
    expect_both(rt, alloc, &masked, &bare, want)
}

#[test]
fn rows_with_and_without_a_mask(rt: HostRuntime) -> Result<(), AllocError> {
    for case in BOTH {
        expect_both_ways(&rt, rt.alloc(), case)?;
    }
    Ok(())
}

#[test]
fn text_keys_are_one_by_their_bytes(rt: HostRuntime) -> Result<(), AllocError> {
    let keys = [twice("a longer text")];
    expect(&rt, rt.alloc(), &keys, &[1, 2], "a longer text 2 2 3; ")
}

/// A key of 64 columns of one number, and behind it the text.
fn long_key(alloc: Global, number: &str, behind: &str) -> Result<String, AllocError> {
    let mut key = String::new(alloc);
    for _ in 0..64 {
        key.push_str(number)?;
    }
    key.push_str(behind)?;
    Ok(key)
}

#[test]
fn sixty_four_keys(rt: HostRuntime) -> Result<(), AllocError> {
    let alloc = rt.alloc();
    let keys = alike(alloc, &[1, NULL, 1], 64)?;
    let mut want = long_key(alloc, "NULL ", "1 1 2; ")?;
    let one = long_key(alloc, "1 ", "2 2 5; ")?;
    want.push_str(one.as_str())?;
    expect(&rt, alloc, keys.as_slice(), &[1, 2, 4], want.as_str())
}

const ONE: Rows = (&[7, NULL, 2], &[1, 2, 4]);

const TWO: Rows = (&[2, 9], &[8, NULL]);

const THREE: Rows = (&[NULL, 7, -5, 7], &[16, 32, 64, 128]);

const ORDERS: &[(Rows, Rows, Rows)] = &[
    (ONE, TWO, THREE),
    (ONE, THREE, TWO),
    (TWO, ONE, THREE),
    (TWO, THREE, ONE),
    (THREE, ONE, TWO),
    (THREE, TWO, ONE),
];

fn table_by(alloc: Global, plan: &Plan, rows: Rows) -> Result<GroupTable, AllocError>
    requires { map (λ a. a.kind) plan.now.aggs ≡ Sum ∷ [] }
    ensures { IfOk result (λ t. HasTaken (shape_of plan.now) t.rows 0 t × (t.rows ≤ 1000)) }
{
    let (keys, list) = rows;
    if list.len() > 1000 {
        return Err(AllocError);
    }
    let keys = vectors_of(alloc, &[keys], list.len())?;
    table_of(alloc, plan, keys.as_slice(), list)
}

/// The table with the groups of these rows.
fn with_groups_of(
    alloc: Global,
    plan: &Plan,
    table: GroupTable,
    rows: Rows,
) -> Result<GroupTable, AllocError>
    requires sum { map (λ a. a.kind) plan.now.aggs ≡ Sum ∷ [] }
    requires shape { table.shape ≡ shape_of plan.now }
    requires few { table.rows ≤ 100000 }
    requires handed { table.handed ≤ 1000 }
    ensures { IfOk result (λ t. (t.shape ≡ table.shape) × (t.rows ≤ table.rows + 1000)
        × (t.handed ≤ table.handed + 1000)) }
{
    let other = table_by(alloc, plan, rows)?;
    let groups = other.into_groups(alloc)?;
    if groups.len() > 1000 {
        return Err(AllocError);
    }
    table.absorb_groups(alloc, groups.as_slice())
}

/// What is handed out of the first table, with the groups of the two others.
fn shown_merged(
    alloc: Global,
    plan: &Plan,
    one: Rows,
    two: Rows,
    three: Rows,
) -> Result<String, AllocError>
    requires { map (λ a. a.kind) plan.now.aggs ≡ Sum ∷ [] }
{
    let table = table_by(alloc, plan, one)?;
    let table = with_groups_of(alloc, plan, table, two)?;
    let table = with_groups_of(alloc, plan, table, three)?;
    shown_out(alloc, table)
}

fn expect_merged(
    rt: &impl Abort,
    alloc: Global,
    one: Rows,
    two: Rows,
    three: Rows,
) -> Result<(), AllocError> {
    let plan = sum_by(alloc, 1)?;
    let shown = shown_merged(alloc, &plan, one, two, three);
    drop(plan);
    let want = "NULL 2 2 18; -5 1 1 64; 2 2 2 12; 7 3 3 161; 9 1 0 0; ";
    expect_shown(rt, shown, want)
}

#[test]
fn three_tables_are_merged_in_every_order(rt: HostRuntime) -> Result<(), AllocError> {
    for (one, two, three) in ORDERS {
        expect_merged(&rt, rt.alloc(), *one, *two, *three)?;
    }
    Ok(())
}

/// What a table has, which keeps it.
fn shown_kept(alloc: Global, table: &GroupTable) -> Result<String, AllocError> {
    let groups = table.groups(alloc)?;
    shown(alloc, groups.as_slice())
}

/// What a table has once it has taken groups.
fn shown_with_groups(alloc: Global, plan: &Plan, table: GroupTable) -> Result<String, AllocError>
    requires sum { map (λ a. a.kind) plan.now.aggs ≡ Sum ∷ [] }
    requires shape { table.shape ≡ shape_of plan.now }
    requires few { table.rows ≤ 1000 }
    requires handed { table.handed ≡ 0 }
{
    match with_groups_of(alloc, plan, table, TWO) {
        Ok(table) => {
            let said = shown_kept(alloc, &table);
            drop(table);
            said
        }
        Err(refused) => Err(refused),
    }
}

/// What a copy hands out whose table takes groups, and what the table then has.
fn shown_copied(alloc: Global, plan: &Plan) -> Result<String, AllocError>
    requires { map (λ a. a.kind) plan.now.aggs ≡ Sum ∷ [] }
{
    let table = table_by(alloc, plan, ONE)?;
    let copy = table.copy(alloc);
    let new = shown_with_groups(alloc, plan, table);
    let mut said = shown_out(alloc, copy?)?;
    said.push_str("and then ")?;
    said.push_str(new?.as_str())?;
    Ok(said)
}

#[test]
fn a_copy_stays_as_it_is(rt: HostRuntime) -> Result<(), AllocError> {
    let alloc = rt.alloc();
    let plan = sum_by(alloc, 1)?;
    let shown = shown_copied(alloc, &plan);
    drop(plan);
    let want = "NULL 1 1 2; 2 1 1 4; 7 1 1 1; and then NULL 1 1 2; 2 2 2 12; 7 1 1 1; 9 1 0 0; ";
    expect_shown(&rt, shown, want)
}

/// So many integers, each so far above the one before, in another order.
fn different(alloc: Global, many: usize, apart: i64) -> Result<Vec<i64>, AllocError>
    ensures { IfOk result (λ list. length list.items ≡ many) }
{
    let mut list = vec![in alloc; 0; many]?;
    for k in 0..list.len() {
        let number = k.wrapping_mul(7919).checked_rem(many).unwrap_or(0);
        list[k] = i64::try_from(number).unwrap_or(0).wrapping_mul(apart);
    }
    Ok(list)
}

/// Whether a group is that of one row, whose argument and first and last key are this number.
fn is_of(group: &Group, number: i64) -> bool {
    let key = group.key().as_slice();
    let states = group.states();
    let ([first, ..], [.., last], [state]) = (key, key, states) else {
        return false;
    };
    let is_key = first == &Value::Int(number) && last == &Value::Int(number);
    is_key && group.rows() == 1 && state.sum() == i128::from(number)
}

/// How many groups stand where their keys say.
fn in_order(groups: &[Group], apart: i64) -> usize {
    let mut many: usize = 0;
    for k in 0..groups.len() {
        if is_of(
            &groups[k],
            i64::try_from(k).unwrap_or(-1).wrapping_mul(apart),
        ) {
            many = many.wrapping_add(1);
        }
    }
    many
}

fn in_order_of(
    alloc: Global,
    plan: &Plan,
    keys: &[Vector<'_>],
    list: &[i64],
    apart: i64,
) -> Result<(usize, usize), AllocError>
    requires sum { map (λ a. a.kind) plan.now.aggs ≡ Sum ∷ [] }
    requires few { length list.now ≤ 1000000 }
    requires keys { AreLanesOf (length list.now) keys.now }
{
    let table = GroupTable::new(alloc, plan)?;
    let arguments = [plain(list)];
    let table = with_rows(alloc, table, keys, &arguments, list.len())?;
    let groups = table.into_groups(alloc)?;
    Ok((groups.len(), in_order(groups.as_slice(), apart)))
}

fn expect_in_order(
    rt: &impl Abort,
    alloc: Global,
    many: usize,
    apart: i64,
) -> Result<(), AllocError>
    requires { many ≤ 1000000 }
{
    let list = different(alloc, many, apart)?;
    let plan = sum_by(alloc, 1)?;
    let keys = [plain(list.as_slice())];
    let found = in_order_of(alloc, &plan, &keys, list.as_slice(), apart);
    drop(plan);
    assert!(rt; found? == (many, many));
    Ok(())
}

fn expect_pairs_in_order(rt: &impl Abort, alloc: Global, many: usize) -> Result<(), AllocError>
    requires { many ≤ 1000000 }
{
    let list = different(alloc, many, 1)?;
    let plan = sum_by(alloc, 2)?;
    let keys = [plain(list.as_slice()), plain(list.as_slice())];
    let found = in_order_of(alloc, &plan, &keys, list.as_slice(), 1);
    drop(plan);
    assert!(rt; found? == (many, many));
    Ok(())
}

/// Keys whose group indexes stand in a table of their own, keys that are hashed, and keys of two
/// columns that are many.
#[test]
fn a_million_keys(rt: HostRuntime) -> Result<(), AllocError> {
    expect_in_order(&rt, rt.alloc(), 1_000_000, 1)?;
    expect_in_order(&rt, rt.alloc(), 1_000_000, 9_000_000_000_000)?;
    expect_pairs_in_order(&rt, rt.alloc(), 3_000)
}
