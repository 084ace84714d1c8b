//! Marks of runs, as marks of their rows.
ghost use Rattle.std.specs.Prelude.{◌≡◌, ◌+◌, ◌-◌, ◌≤◌, ◌++◌, false, length, replicate, slice_index_or, sum, take, drop, IfOk};
ghost use Rattle.meaning.specs.Limits.{row_group_rows};
ghost use Rattle.blocks.specs.Runs.{repeats};

use blocks::RunsView;
use std::alloc::{AllocError, Global};

/// Whether the mark with this number is set; one that isn't there is not.
#[inline(always)]
pub fn is_marked(marks: &[bool], index: usize) -> bool
    ensures { result ≡ slice_index_or marks.now index false }
{
    marks.get(index).copied().unwrap_or(false)
}

/// How many rows the runs have.
fn rows_of(runs: &RunsView<'_>) -> usize
    requires { sum runs.now.lengths ≤ row_group_rows }
    ensures { result ≡ sum runs.now.lengths }
{
    let mut rows = 0;
    for run in 0..runs.len() {
        rows += runs.length(run) as usize;
    }
    rows
}

/// Marks so many rows from one on, where the mark is set: a run that isn't kept costs nothing. None
/// of them is marked yet, nor one behind them.
#[inline(always)]
fn put_marks(rows: &mut [bool], from: usize, count: usize, mark: bool)
    requires within { from + count ≤ length rows.old }
    requires unmarked { drop from rows.old ≡ replicate (length rows.old - from) false }
    ensures marked { take (from + count) rows.new ≡ take from rows.old ++ replicate count mark }
    ensures unmarked { drop (from + count) rows.new
        ≡ replicate (length rows.old - (from + count)) false }
{
    if mark {
        rows[from..from + count].fill(true);
    }
}

/// Puts into each row the mark of its run. No row is marked yet.
fn put_runs(rows: &mut [bool], runs: &RunsView<'_>, marks: &[bool])
    requires rows { rows.old ≡ replicate (sum runs.now.lengths) false }
    requires long { length runs.now.lengths ≤ length marks.now }
    ensures { rows.new ≡ repeats marks.now runs.now.lengths }
{
    let mut done = 0;
    for run in 0..runs.len() {
        let count = runs.length(run) as usize;
        put_marks(rows, done, count, is_marked(marks, run));
        done += count;
    }
}

/// Of each row the mark of its run.
pub fn spread(alloc: Global, runs: &RunsView<'_>, marks: &[bool]) -> Result<Vec<bool>, AllocError>
    requires few { sum runs.now.lengths ≤ row_group_rows }
    requires long { length runs.now.lengths ≤ length marks.now }
    ensures { IfOk result (λ rows. rows.items ≡ repeats marks.now runs.now.lengths) }
{
    let mut rows = vec![in alloc; false; rows_of(runs)]?;
    put_runs(rows.as_mut_slice(), runs, marks);
    Ok(rows)
}
