//! The rows of runs, as far as LIMIT goes.
ghost use Rattle.std.specs.Prelude.{◌≡◌, ◌++◌, ◌-◌, min, replicate, reverse, IfOk, OnOk};
ghost use Rattle.meaning.specs.Finish.{limited};
ghost use Rattle.last_step.specs.Runs.{expanded, room};

use crate::run::Run;
use crate::showing::copy_row;
use meaning::{Row, Sequence};
use std::alloc::{AllocError, Global};
use std::mem::drop;

/// How many of a run's rows LIMIT leaves behind these many.
fn times_within(limit: Option<u64>, shown: usize, times: u64) -> u64
    ensures { result ≡ room limit shown times }
{
    match limit {
        None => times,
        Some(most) => times.min(most.saturating_sub(shown as u64)),
    }
}

fn push_times(
    alloc: Global,
    rows: &mut Sequence<Row>,
    row: &Row,
    times: u64,
) -> Result<(), AllocError>
    ensures { OnOk result (rows.new ≡ rows.old ++ replicate times row.now) }
{
    for _ in 0..times {
        rows.push(copy_row(alloc, row)?)?;
    }
    Ok(())
}

/// A run's rows behind the others, the last of them without a copy.
fn push_rows(
    alloc: Global,
    rows: &mut Sequence<Row>,
    row: Row,
    times: u64,
) -> Result<(), AllocError>
    ensures { OnOk result (rows.new ≡ rows.old ++ replicate times row) }
{
    if times == 0 {
        drop(row);
        return Ok(());
    }
    let copied = push_times(alloc, rows, &row, times - 1);
    match copied {
        Ok(()) => rows.push(row),
        Err(fault) => {
            drop(row);
            Err(fault)
        }
    }
}

/// The rows of the runs from the last to the first, cut by LIMIT. What it cuts off is never made.
pub fn expand(
    alloc: Global,
    runs: Vec<Run>,
    limit: Option<u64>,
) -> Result<Sequence<Row>, AllocError>
    ensures { IfOk result (λ rows. rows ≡ limited limit (expanded (reverse runs.items))) }
{
    let mut runs = runs;
    let mut rows = Sequence::new(alloc);
    while let Some(Run { row, times }) = runs.pop() {
        let times = times_within(limit, rows.len(), times);
        push_rows(alloc, &mut rows, row, times)?;
    }
    Ok(rows)
}
