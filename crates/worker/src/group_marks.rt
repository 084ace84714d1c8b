//! What is known of a row group ahead of its rows.
ghost use Rattle.std.specs.Prelude.{◌≡◌, ◌≢◌, ◌||◌, ◌==◌, [], length, map, not, IfOk, OnOk};
ghost use Rattle.std.specs.List.{list_any, range_with_len};
ghost use Rattle.worker.specs.Gathered.{AreMarksAt, AreMarksBehind};
ghost use Rattle.worker.specs.Packed.{any_unmarked, is_read, names, reads_where};

use block_predicates::EntryMarks;
use meaning::{Aggregate, Expr, GroupingKey, Join, Plan};
use pushdown::names_fact_column;
use scan_select::{RowGroups, Scan, mark_conditions};
use std::alloc::{AllocError, Global};

/// The marks of a plan's conditions on the blocks of a row group, and by that which columns stay
/// packed.
#[derive(Drop)]
pub struct GroupMarks {
    /// Of each condition its marks, where it has such.
    pub conditions: Vec<Option<EntryMarks>>,
    /// Of each of the file's columns whether no row's value is read.
    pub packed: Vec<bool>,
}

impl GroupMarks {
    /// Before the first row group.
    pub fn none(alloc: Global) -> GroupMarks {
        GroupMarks {
            conditions: Vec::new(alloc),
            packed: Vec::new(alloc),
        }
    }
}

fn is_foreign(joins: &[Join], column: usize) -> bool
    ensures { result ≡ list_any (λ j. j.foreign == column) joins.now }
{
    for join in joins {
        if join.foreign == column {
            return true;
        }
    }
    false
}

fn is_in_keys(keys: &[GroupingKey], column: usize) -> bool
    ensures { result ≡ list_any (λ k. names column k.expr) keys.now }
{
    for key in keys {
        if names_fact_column(&key.expr, column) {
            return true;
        }
    }
    false
}

fn is_in_arguments(aggregates: &[Aggregate], column: usize) -> bool
    ensures { result ≡ list_any (λ a. names column a.argument) aggregates.now }
{
    for aggregate in aggregates {
        if names_fact_column(&aggregate.argument, column) {
            return true;
        }
    }
    false
}

/// Whether a condition is evaluated on rows, and names the column.
fn is_in_condition(condition: &Expr, marks: &Option<EntryMarks>, column: usize) -> bool
    ensures { result ≡ reads_where column condition.now marks.now }
{
    match marks {
        Some(_) => false,
        None => names_fact_column(condition, column),
    }
}

fn is_in_conditions(conditions: &[Expr], marks: &[Option<EntryMarks>], column: usize) -> bool
    requires { length marks.now ≡ length conditions.now }
    ensures { result ≡ any_unmarked column conditions.now marks.now }
{
    for at in 0..conditions.len() {
        if is_in_condition(&conditions[at], &marks[at], column) {
            return true;
        }
    }
    false
}

/// Whether a column of the fact is read of rows, where these conditions have marks.
fn is_read_of_rows(plan: &Plan, marks: &[Option<EntryMarks>], column: usize) -> bool
    requires { length marks.now ≡ length plan.now.conjuncts }
    ensures { result ≡ is_read column plan.now marks.now }
{
    let foreign = is_foreign(plan.joins.as_slice(), column);
    let key = is_in_keys(plan.keys.as_slice(), column);
    let argument = is_in_arguments(plan.aggs.as_slice(), column);
    let condition = is_in_conditions(plan.conjuncts.as_slice(), marks, column);
    (foreign || key) || (argument || condition)
}

/// Of so many columns of the fact whether they aren't read of rows.
fn packed_columns(
    alloc: Global,
    plan: &Plan,
    marks: &[Option<EntryMarks>],
    count: usize,
) -> Result<Vec<bool>, AllocError>
    requires { length marks.now ≡ length plan.now.conjuncts }
    ensures { IfOk result (λ packed. packed.items
        ≡ map (λ column. not (is_read column plan.now marks.now)) (range_with_len 0 count)) }
{
    let mut packed = Vec::with_capacity(alloc, count)?;
    for column in 0..count {
        packed.push(!is_read_of_rows(plan, marks, column))?;
    }
    Ok(packed)
}

/// Makes the marks of the row group that the vector is of, where it is its first. Those of the vector
/// before stay, where it isn't.
pub fn mark_group<G: RowGroups + Drop>(
    alloc: Global,
    plan: &Plan,
    columns: usize,
    scan: &Scan<G>,
    marks: &mut GroupMarks,
) -> Result<(), AllocError>
    requires { AreMarksBehind plan.now scan.now.at marks.old }
    ensures { OnOk result (AreMarksAt plan.now scan.now.at marks.new) }
{
    let Some(standing) = scan.standing() else {
        return Ok(());
    };
    if standing.first_row == 0 {
        let rows = standing.group.rows();
        let conjuncts = plan.conjuncts.as_slice();
        let conditions = mark_conditions(alloc, conjuncts, &standing.group, rows)?;
        let packed = packed_columns(alloc, plan, conditions.as_slice(), columns)?;
        *marks = GroupMarks { conditions, packed };
    }
    Ok(())
}
