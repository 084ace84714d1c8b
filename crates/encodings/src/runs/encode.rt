//! Bodies of runs.
ghost use Rattle.std.specs.Prelude.{◌≡◌, ◌≤◌, ◌<◌, ◌-◌, false, true, length, map, take, drop, OnOk};
ghost use Rattle.std.specs.List.{list_all};
ghost use Rattle.meaning.specs.Limits.{row_group_rows};
ghost use Rattle.meaning.specs.declared.value.Value.TheVariants.{Int, Text};
ghost use Rattle.columns.specs.Column.{is_of};
ghost use Rattle.blocks.specs.Runs.{AreRuns};
ghost use Rattle.encodings.specs.Encoded.{PutsBody};
ghost use Rattle.meaning.specs.declared.value.ColType.TheVariants as of_type;
ghost use Rattle.blocks.specs.declared.kind.Kind.TheVariants as kind;

use crate::numbers::{put_shorts, put_word};
use crate::plain::encode::{put_integers_at, put_texts_at};
use crate::runs::of_cells::{Runs, runs_of_ints, runs_of_texts};
use bit_packing::make_room;
use columns::TextList;
use std::alloc::{AllocError, Global};
use std::mem::drop;

fn put_int_runs(out: &mut Vec<u8>, ints: &[i64], runs: &Runs) -> Result<(), AllocError>
    requires fit { list_all (is_of of_type.Int false) (map Int ints.now) ≡ true }
    requires some { 1 ≤ length ints.now }
    requires few { length ints.now ≤ row_group_rows }
    requires runs { AreRuns (map Int ints.now) runs.now.starts.items runs.now.lengths.items }
    ensures { OnOk result (PutsBody out.old.items out.new.items kind.Runs of_type.Int
        (map Int ints.now)) }
{
    make_room(out, runs.starts.len().saturating_mul(10).saturating_add(4))?;
    put_word(out, runs.starts.len() as u32)?;
    put_shorts(out, runs.lengths.as_slice())?;
    put_integers_at(out, ints, runs.starts.as_slice())?;
    Ok(())
}

pub fn put_runs_of_ints(alloc: Global, out: &mut Vec<u8>, ints: &[i64]) -> Result<(), AllocError>
    requires fit { list_all (is_of of_type.Int false) (map Int ints.now) ≡ true }
    requires some { 1 ≤ length ints.now }
    requires few { length ints.now ≤ row_group_rows }
    ensures { OnOk result (PutsBody out.old.items out.new.items kind.Runs of_type.Int
        (map Int ints.now)) }
{
    let runs = runs_of_ints(alloc, ints)?;
    let put = put_int_runs(out, ints, &runs);
    drop(runs);
    put
}

fn put_text_runs(
    out: &mut Vec<u8>,
    texts: &TextList,
    from: usize,
    to: usize,
    runs: &Runs,
) -> Result<(), AllocError>
    requires fit { list_all (is_of of_type.Text false)
        (map Text (take (to - from) (drop from texts.now))) ≡ true }
    requires some { from < to }
    requires within { to ≤ length texts.now }
    requires few { to - from ≤ row_group_rows }
    requires runs { AreRuns (map Text (take (to - from) (drop from texts.now)))
        runs.now.starts.items runs.now.lengths.items }
    ensures { OnOk result (PutsBody out.old.items out.new.items kind.Runs of_type.Text
        (map Text (take (to - from) (drop from texts.now)))) }
{
    put_word(out, runs.starts.len() as u32)?;
    put_shorts(out, runs.lengths.as_slice())?;
    put_texts_at(out, texts, from, to, runs.starts.as_slice())?;
    Ok(())
}

pub fn put_runs_of_texts(
    alloc: Global,
    out: &mut Vec<u8>,
    texts: &TextList,
    from: usize,
    to: usize,
) -> Result<(), AllocError>
    requires fit { list_all (is_of of_type.Text false)
        (map Text (take (to - from) (drop from texts.now))) ≡ true }
    requires some { from < to }
    requires within { to ≤ length texts.now }
    requires few { to - from ≤ row_group_rows }
    ensures { OnOk result (PutsBody out.old.items out.new.items kind.Runs of_type.Text
        (map Text (take (to - from) (drop from texts.now)))) }
{
    let runs = runs_of_texts(alloc, texts, from, to)?;
    let put = put_text_runs(out, texts, from, to, &runs);
    drop(runs);
    put
}
