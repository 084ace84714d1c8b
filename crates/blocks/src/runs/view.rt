//! The runs that a block lends.
ghost use Rattle.std.specs.Prelude.{◌≡◌, ◌+◌, ◌*◌, ◌/◌, ◌<◌, ◌≤◌, List, true, length, drop, slice_index_or, slice_index, zip, sum};
ghost use Rattle.meaning.specs.Order.{value_in};
ghost use Rattle.meaning.specs.declared.value.Value.{Value};
ghost use Rattle.meaning.specs.declared.value.Value.TheVariants.{Null};
ghost use Rattle.blocks.specs.Runs.{are_runs, run_cells, run_value_bytes, repeated};
ghost use Rattle.blocks.specs.Numbers.{count_of};
ghost use Rattle.bit_packing.specs.Bytes.{shorts};
ghost use Rattle.blocks.specs.RunsView.{runs_of};

use crate::numbers::leading_count;
use crate::plain::values::value_at;
use bit_packing::short_at;
use meaning::{ColType, ValueRef};
use std::marker::Model;

/// The values and the lengths of runs. Contracts see both lists.
#[derive(Drop)]
pub struct RunsView<'a> {
    col_type: ColType,
    count: usize,
    values: &'a [u8],
    lengths: &'a [u8],
}

impl<'a> Model for RunsView<'a> {
    ghost use Rattle.blocks.specs.Plain.{values_form};
    ghost use Rattle.bit_packing.specs.Bytes.{shorts};
    ghost use Rattle.blocks.specs.RunsView.{RunsSpec, IsRunsOf};

    ghost Value = { RunsSpec };

    ghost view = { λ r. record {
      values = values_form r.col_type r.count r.values.now;
      lengths = shorts r.count r.lengths.now;
    } };

    ghost invariant = { λ r. IsRunsOf r.col_type r.count r.values.now r.lengths.now };
}

/// The bytes of the lengths, and what stands behind them.
pub fn length_bytes(body: &[u8]) -> &[u8]
    requires { 4 ≤ length body.now }
    ensures { result.now ≡ drop 4 body.now }
{
    &body[4..]
}

/// The bytes of the values.
pub fn run_value_bytes(body: &[u8], count: usize) -> &[u8]
    requires long { 4 + 2 * count ≤ length body.now }
    requires counted { count ≡ count_of body.now }
    ensures { result.now ≡ run_value_bytes body.now }
{
    &body[4 + 2 * count..]
}

/// The run in which a row is.
fn run_of(count: usize, lengths: &[u8], row: usize) -> usize
    requires room { count ≤ length lengths.now / 2 }
    requires within { row < sum (shorts count lengths.now) }
    ensures below { result < count }
    ensures cell { (values : List Value) → length values ≡ count
        → slice_index_or (repeated (zip values (shorts count lengths.now))) row Null
        ≡ slice_index_or values result Null }
{
    let mut rest = row;
    for i in 0..count {
        let run = short_at(lengths, i) as usize;
        if rest < run {
            return i;
        }
        rest -= run;
    }
    count
}

/// What stands in the cell of a row.
pub fn run_cell(col_type: ColType, rows: usize, body: &[u8], row: usize) -> ValueRef<'_>
    requires form { are_runs col_type rows body.now ≡ true }
    requires within { row < rows }
    ensures { value_in result ≡ slice_index_or (run_cells col_type body.now) row Null }
{
    let count = leading_count(body);
    let run = run_of(count, length_bytes(body), row);
    value_at(col_type, count, run_value_bytes(body, count), run)
}

/// The runs that a body is.
pub fn lend_runs(col_type: ColType, rows: usize, body: &[u8]) -> RunsView<'_>
    requires { are_runs col_type rows body.now ≡ true }
    ensures { result ≡ runs_of col_type body.now }
{
    let count = leading_count(body);
    RunsView {
        col_type,
        count,
        values: run_value_bytes(body, count),
        lengths: length_bytes(body),
    }
}

impl<'a> RunsView<'a> {
    /// The number of runs.
    pub fn len(&self) -> usize
        ensures value { result ≡ length self.now.values }
        ensures same { result ≡ length self.now.lengths }
    {
        self.count
    }

    /// The value of a run.
    pub fn value(&self, run: usize) -> ValueRef<'a>
        requires { run < length self.now.values }
        ensures { value_in result ≡ slice_index_or self.now.values run Null }
    {
        value_at(self.col_type, self.count, self.values, run)
    }

    /// The number of rows of a run.
    pub fn length(&self, run: usize) -> u16
        requires { run < length self.now.lengths }
        ensures { result ≡ slice_index self.now.lengths run }
    {
        short_at(self.lengths, run)
    }
}
