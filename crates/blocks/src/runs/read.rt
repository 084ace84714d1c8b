//! Values with the lengths of their runs, into a buffer.
ghost use Rattle.std.specs.Prelude.{◌≡◌, ◌+◌, ◌*◌, ◌++◌, ◌≤◌, length, map, take, drop, sum, replicate, true};
ghost use Rattle.bit_packing.specs.Bytes.{integer_of};
ghost use Rattle.std.specs.Simd.{first_chunks};
ghost use Rattle.meaning.specs.declared.value.Value.TheVariants.{Int, Text};
ghost use Rattle.blocks.specs.Runs.{are_runs, run_cells, run_value_bytes};
ghost use Rattle.blocks.specs.Numbers.{count_of};
ghost use Rattle.blocks.specs.Dictionary.{codes_in};
ghost use Rattle.blocks.specs.Plain.{texts_in, are_texts};
ghost use Rattle.blocks.specs.Runs.{repeats};
ghost use Rattle.meaning.specs.declared.value.ColType.TheVariants as of_type;

use crate::numbers::{chunks, leading_count};
use crate::plain::texts::{Texts, text_at, texts_form};
use crate::runs::seek::{pass_over, run_at};

/// Puts a text into `n` cells from `at` on.
fn put_texts<'a>(out: &mut [&'a [u8]], at: usize, n: usize, text: &'a [u8])
    requires { at + n ≤ length out.old }
    ensures { take (at + n) (map (λ t. t.now) out.new) ≡ take at (map (λ t. t.now) out.old)
        ++ replicate n text.now }
{
    for i in at..at + n {
        out[i] = text;
    }
}

/// Puts an integer into `n` cells from `at` on. Apart from the loop over short runs, which then
/// keeps to registers.
#[inline(never)]
fn put_many(out: &mut [i64], at: usize, n: usize, value: i64)
    requires { at + n ≤ length out.old }
    ensures { take (at + n) out.new ≡ take at out.old ++ replicate n value }
{
    out[at..at + n].fill(value);
}

/// Puts an integer into `n` cells from `at` on, where there are eight. What lies behind them may
/// change too.
#[inline(always)]
fn put_few(out: &mut [i64], at: usize, n: usize, value: i64)
    requires few { n ≤ 8 }
    requires room { at + 8 ≤ length out.old }
    ensures { take (at + n) out.new ≡ take at out.old ++ replicate n value }
{
    out[at..at + 8].fill(value);
}

/// The same for any number, where there are eight.
#[inline(always)]
fn put_run(out: &mut [i64], at: usize, n: usize, value: i64)
    requires within { at + n ≤ length out.old }
    requires room { at + 8 ≤ length out.old }
    ensures { take (at + n) out.new ≡ take at out.old ++ replicate n value }
{
    if n <= 8 {
        put_few(out, at, n, value);
    } else {
        put_many(out, at, n, value);
    }
}

/// Whether there are cells for a run and for eight rows.
#[inline(always)]
fn is_room(cells: usize, done: usize, rows: usize) -> bool
    requires some { 8 ≤ cells }
    requires within { done ≤ cells }
    ensures { result ≡ true → (done + 8 ≤ cells) × (done + rows ≤ cells) }
{
    if rows <= 8 {
        return done <= cells - 8;
    }
    done <= cells - 8 && rows <= cells - done
}

/// Whole runs from the first on, as long as there are cells for each, and for eight rows: how many
/// runs, and how many cells.
#[inline(always)]
fn fill_front(lengths: &[[u8; 2]], values: &[[u8; 8]], out: &mut [i64]) -> (usize, usize)
    requires each { length lengths.now ≡ length values.now }
    ensures runs { result.0 ≤ length lengths.now }
    ensures cells { result.1 ≤ length out.old }
    ensures lined { take result.1 out.new
        ++ repeats (drop result.0 (map integer_of values.now))
        (drop result.0 (codes_in lengths.now))
        ≡ repeats (map integer_of values.now) (codes_in lengths.now) }
{
    if out.len() < 8 {
        return (0, 0);
    }
    let mut done = 0;
    for run in 0..lengths.len() {
        let rows = u16::from_le_bytes(lengths[run]) as usize;
        if !is_room(out.len(), done, rows) {
            return (run, done);
        }
        put_run(out, done, rows, i64::from_le_bytes(values[run]));
        done += rows;
    }
    (lengths.len(), done)
}

/// The cells from one on, by the runs from one on. The last is filled as far as there are cells.
fn fill_rest(lengths: &[[u8; 2]], values: &[[u8; 8]], first: usize, filled: usize, out: &mut [i64])
    requires each { length lengths.now ≡ length values.now }
    requires runs { first ≤ length lengths.now }
    requires cells { filled ≤ length out.old }
    requires within { length out.old ≤ sum (codes_in lengths.now) }
    requires lined { take filled out.old
        ++ repeats (drop first (map integer_of values.now)) (drop first (codes_in lengths.now))
        ≡ repeats (map integer_of values.now) (codes_in lengths.now) }
    ensures { out.new ≡ take (length out.old)
        (repeats (map integer_of values.now) (codes_in lengths.now)) }
{
    let mut done = filled;
    for run in first..lengths.len() {
        let rows = u16::from_le_bytes(lengths[run]) as usize;
        let n = rows.min(out.len() - done);
        put_many(out, done, n, i64::from_le_bytes(values[run]));
        done += n;
        if done == out.len() {
            return;
        }
    }
}

/// The rows from the first on.
fn fill_runs(lengths: &[[u8; 2]], values: &[[u8; 8]], out: &mut [i64])
    requires each { length lengths.now ≡ length values.now }
    requires within { length out.old ≤ sum (codes_in lengths.now) }
    ensures { out.new ≡ take (length out.old)
        (repeats (map integer_of values.now) (codes_in lengths.now)) }
{
    let (runs, cells) = fill_front(lengths, values, out);
    fill_rest(lengths, values, runs, cells, out);
}

/// The rows from `from` on, run by run.
pub fn fill_integer_runs(lengths: &[[u8; 2]], values: &[[u8; 8]], from: usize, out: &mut [i64])
    requires each { length lengths.now ≡ length values.now }
    requires within { from + length out.old ≤ sum (codes_in lengths.now) }
    ensures { out.new ≡ take (length out.old)
        (drop from (repeats (map integer_of values.now) (codes_in lengths.now))) }
{
    let (run, skip) = run_at(lengths, from);
    if run == lengths.len() {
        return;
    }
    let rows = u16::from_le_bytes(lengths[run]) as usize;
    let n = (rows - skip).min(out.len());
    let (first, rest) = out.split_at_mut(n);
    first.fill(i64::from_le_bytes(values[run]));
    fill_runs(&lengths[run + 1..], &values[run + 1..], rest);
}

/// The same for texts.
pub fn fill_text_runs<'a>(lengths: &[[u8; 2]], values: Texts<'a>, from: usize, out: &mut [&'a [u8]])
    requires each { length lengths.now ≡ length values.ends.now }
    requires valid { are_texts values.ends.now values.joined.now ≡ true }
    requires within { from + length out.old ≤ sum (codes_in lengths.now) }
    ensures { map (λ t. t.now) out.new ≡ take (length out.old)
        (drop from (repeats (texts_in values.entry.ends.now values.entry.joined.now)
        (codes_in lengths.now))) }
{
    let (start, left) = pass_over(lengths, from);
    let mut skip = left;
    let mut done = 0;
    for run in start..lengths.len() {
        let rows = u16::from_le_bytes(lengths[run]) as usize;
        if rows <= skip {
            skip -= rows;
            continue;
        }
        let n = (rows - skip).min(out.len() - done);
        put_texts(out, done, n, text_at(values, run));
        done += n;
        if done == out.len() {
            return;
        }
        skip = 0;
    }
}

/// The lengths of the runs, and the bytes of their values.
fn run_parts(body: &[u8]) -> (&[[u8; 2]], &[u8])
    requires front { 4 ≤ length body.now }
    requires lengths { 4 + 2 * count_of body.now ≤ length body.now }
    ensures lengths { result.0.now ≡ first_chunks 2 (count_of body.now) (drop 4 body.now) }
    ensures values { result.1.now ≡ run_value_bytes body.now }
    ensures len { length result.0.now ≡ count_of body.now }
{
    let count = leading_count(body);
    (chunks::<2>(&body[4..], count), &body[4 + 2 * count..])
}

/// The integers from row `from` on.
pub fn read_integer_runs(rows: usize, body: &[u8], from: usize, out: &mut [i64])
    requires form { are_runs of_type.Int rows body.now ≡ true }
    requires within { from + length out.old ≤ rows }
    ensures { map Int out.new ≡ take (length out.old) (drop from (run_cells of_type.Int body.now)) }
{
    let (lengths, bytes) = run_parts(body);
    fill_integer_runs(lengths, chunks::<8>(bytes, lengths.len()), from, out);
}

/// The texts from row `from` on.
pub fn read_text_runs<'a>(rows: usize, body: &'a [u8], from: usize, out: &mut [&'a [u8]])
    requires form { are_runs of_type.Text rows body.now ≡ true }
    requires within { from + length out.old ≤ rows }
    ensures { map Text (map (λ t. t.now) out.new)
        ≡ take (length out.old) (drop from (run_cells of_type.Text body.now)) }
{
    let (lengths, bytes) = run_parts(body);
    fill_text_runs(lengths, texts_form(bytes, lengths.len()), from, out);
}
