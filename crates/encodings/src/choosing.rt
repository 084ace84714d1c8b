//! The kind of fewest bytes, which is found without encoding.
ghost use Rattle.std.specs.Prelude.{◌≡◌, ◌≤◌, ◌<◌, ◌-◌, true, length, map, take, drop, IfOk, IfErr};
ghost use Rattle.meaning.specs.Limits.{row_group_rows};
ghost use Rattle.meaning.specs.declared.value.Value.TheVariants.{Int, Text};
ghost use Rattle.encodings.specs.Choosing.{is_chosen, between};
ghost use Rattle.encodings.specs.declared.fault.EncodeFault.TheVariants.{Memory};
ghost use Rattle.encodings.specs.Choice.{IsBestOf, IsBestOfRows};
ghost use Rattle.encodings.specs.Choosing.{IsLeastOfOthers, IsLeastOfTwo};
ghost use Rattle.meaning.specs.declared.value.ColType.TheVariants as of_type;

use crate::choice::Choice;
use crate::dictionary::within::{dictionary_of_ints_within, dictionary_of_texts_within};
use crate::fault::EncodeFault;
use crate::frame::encode::frame_size;
use crate::runs::size::{runs_size_of_ints, runs_size_of_texts};
use blocks::Kind;
use columns::{Column, LentCells, TextList};
use std::alloc::{AllocError, Global};
use std::mem::drop;

/// The kind of fewest bytes besides a dictionary.
fn least_of_others(plain: usize, runs: usize, frame: usize) -> Kind
    ensures { IsLeastOfOthers result plain runs frame }
{
    if plain <= runs && plain <= frame {
        return Kind::Plain;
    }
    if runs < plain && runs <= frame {
        return Kind::Runs;
    }
    Kind::Frame
}

/// The same, where there is no frame.
fn least_of_two(plain: usize, runs: usize) -> Kind
    ensures { IsLeastOfTwo result plain runs }
{
    if plain <= runs {
        return Kind::Plain;
    }
    Kind::Runs
}

fn choose_ints(alloc: Global, ints: &[i64]) -> Result<Choice, AllocError>
    requires some { 1 ≤ length ints.now }
    requires few { length ints.now ≤ row_group_rows }
    ensures { IfOk result (IsBestOf of_type.Int (map Int ints.now)) }
{
    let plain = 8 * ints.len();
    let runs = runs_size_of_ints(ints);
    let frame = frame_size(ints);
    let most = (plain - 1).min(runs).min(frame);
    match dictionary_of_ints_within(alloc, ints, most)? {
        Some(dictionary) => Ok(Choice::of_dictionary(dictionary)),
        None => Ok(Choice::of_kind(least_of_others(plain, runs, frame))),
    }
}

fn choose_texts(
    alloc: Global,
    texts: &TextList,
    from: usize,
    to: usize,
) -> Result<Choice, AllocError>
    requires some { from < to }
    requires within { to ≤ length texts.now }
    requires few { to - from ≤ row_group_rows }
    ensures { IfOk result (IsBestOf of_type.Text
        (map Text (take (to - from) (drop from texts.now)))) }
{
    let plain = 4 * (to - from) + texts.joined(from, to).len();
    let runs = runs_size_of_texts(texts, from, to);
    let most = (plain - 1).min(runs);
    match dictionary_of_texts_within(alloc, texts, from, to, most)? {
        Some(dictionary) => Ok(Choice::of_dictionary(dictionary)),
        None => Ok(Choice::of_kind(least_of_two(plain, runs))),
    }
}

/// The kind in which some rows take the fewest bytes, with their dictionary where it is one.
pub fn choice_of(
    alloc: Global,
    column: &Column,
    from: usize,
    to: usize,
) -> Result<Choice, AllocError>
    requires some { from < to }
    requires within { to ≤ length column.now.values }
    requires few { to - from ≤ row_group_rows }
    ensures { IfOk result (IsBestOfRows column.now from to) }
{
    match column.cells() {
        LentCells::Ints(ints) => choose_ints(alloc, &ints[from..to]),
        LentCells::Texts(texts) => choose_texts(alloc, texts, from, to),
    }
}

/// The kind in which some rows, 1 to 8,192 of them, take the fewest bytes; of equals the first in
/// the order of the kinds. The only error is out of memory.
pub fn choose(alloc: Global, column: &Column, from: usize, to: usize) -> Result<Kind, EncodeFault>
    requires some { from < to }
    requires within { to ≤ length column.now.values }
    requires few { to - from ≤ row_group_rows }
    ensures ok { IfOk result
        (λ k. is_chosen column.now.col_type column.now.nullable (between from to column.now) k
        ≡ true) }
    ensures err { IfErr result (λ f. f ≡ Memory) }
{
    let choice = choice_of(alloc, column, from, to)?;
    let kind = choice.kind;
    drop(choice);
    Ok(kind)
}
