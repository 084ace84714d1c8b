//! What answers do to cells and to the totals of these. On an error nothing changes: totals that
//! take more are made first, and nothing behind that takes memory.
ghost use Rattle.std.specs.Prelude.{◌≡◌, ◌<◌, true, length, slice_set, OnErr, OnOk, IfOk, replicate};
ghost use Rattle.meaning.specs.declared.answer.Cell.TheVariants.{Nothing, One, Conflict};
ghost use Rattle.meaning.specs.Answer.{groups_of};
ghost use Rattle.gathering.specs.Fitted.{AreFitting, is_fitting};
ghost use Rattle.gathering.specs.Gathering.{IsHeld, Rises, cell_at, join_states};
ghost use Rattle.gathering.specs.Merging.{all_groups, groups_in};
ghost use Rattle.gathering.specs.Totals.{AreDeltas, behind, handed_at_join, is_delta, merges_of, most_at_change};

use crate::joining::join_all;
use crate::packing::{HeldBody, HeldCell};
use crate::totals::Totals;
use meaning::Cell;
use partial_codec::Job;
use std::alloc::{AllocError, Global};
use std::mem::drop;

/// Nothing for each of so many fragments.
pub fn no_answers(alloc: Global, fragments: usize) -> Result<Vec<HeldCell>, AllocError>
    ensures { IfOk result (λ cells. cells.items ≡ replicate fragments Nothing) }
{
    let mut cells = Vec::new(alloc);
    for _ in 0..fragments {
        cells.push(Cell::Nothing)?;
    }
    Ok(cells)
}

/// Puts an answer into a cell that holds nothing.
fn put(
    alloc: Global,
    job: &Job,
    cells: &mut Vec<HeldCell>,
    totals: &mut Totals,
    k: u32,
    body: HeldBody,
) -> Result<(), AllocError>
    requires held { IsHeld job.now cells.old.items totals.old }
    requires within { k < length cells.old.items }
    requires nothing { cell_at cells.old.items k ≡ Nothing }
    requires fits { is_fitting job.now.plan job.now.cut k (One body) ≡ true }
    ensures held { OnOk result (IsHeld job.now cells.new.items totals.new) }
    ensures cells { OnOk result (cells.new.items ≡ slice_set cells.old.items k (One body)) }
    ensures counted { OnOk result (Rises (length (groups_of body)) (length (groups_of body))
        (merges_of totals.old) (merges_of totals.new)) }
    ensures unchanged { OnErr result ((cells.new ≡ cells.old) × (totals.new ≡ totals.old)) }
{
    // No effect at run time. The proof reads from this call the limits of a cut.
    let _lengths = job.cut().lengths();
    match totals.add(alloc, &body) {
        Ok(()) => {
            cells[k as usize] = Cell::One(body);
            Ok(())
        }
        Err(e) => {
            drop(body);
            Err(e)
        }
    }
}

/// Joins each cell with its delta.
pub fn change_all(
    alloc: Global,
    job: &Job,
    cells: &mut Vec<HeldCell>,
    totals: &mut Totals,
    deltas: Vec<HeldCell>,
) -> Result<(), AllocError>
    requires held { IsHeld job.now cells.old.items totals.old }
    requires deltas { AreDeltas cells.old.items deltas.items }
    requires fitting { AreFitting job.now.plan job.now.cut
        (join_states cells.old.items deltas.items) }
    ensures held { OnOk result (IsHeld job.now cells.new.items totals.new) }
    ensures cells { OnOk result (cells.new.items ≡ join_states cells.old.items deltas.items) }
    ensures counted { OnOk result (Rises 0 (handed_at_join cells.old.items deltas.items)
        (merges_of totals.old) (merges_of totals.new)) }
    ensures unchanged { OnErr result ((cells.new ≡ cells.old) × (totals.new ≡ totals.old)) }
{
    // No effect at run time. The proof reads from this call the limits of a cut.
    let _lengths = job.cut().lengths();
    match totals.with_deltas(alloc, job.plan(), cells.as_slice(), deltas.as_slice()) {
        Ok(changed) => {
            *totals = changed;
            join_all(cells, deltas);
            Ok(())
        }
        Err(e) => {
            drop(deltas);
            Err(e)
        }
    }
}

/// Nothing for each of so many fragments, and a conflict for one.
fn conflict_at(alloc: Global, fragments: usize, k: u32) -> Result<Vec<HeldCell>, AllocError>
    requires { k < fragments }
    ensures { IfOk result
        (λ deltas. deltas.items ≡ slice_set (replicate fragments Nothing) k Conflict) }
{
    let mut deltas = no_answers(alloc, fragments)?;
    deltas[k as usize] = Cell::Conflict;
    Ok(deltas)
}

/// Makes a conflict of a cell that holds an answer.
fn withdraw(
    alloc: Global,
    job: &Job,
    cells: &mut Vec<HeldCell>,
    totals: &mut Totals,
    k: u32,
) -> Result<(), AllocError>
    requires held { IsHeld job.now cells.old.items totals.old }
    requires within { k < length cells.old.items }
    requires delta { is_delta (cell_at cells.old.items k) Conflict ≡ true }
    ensures held { OnOk result (IsHeld job.now cells.new.items totals.new) }
    ensures cells { OnOk result (cells.new.items ≡ slice_set cells.old.items k Conflict) }
    ensures counted { OnOk result (Rises 0 (length (all_groups cells.new.items))
        (merges_of totals.old) (merges_of totals.new)) }
    ensures unchanged { OnErr result ((cells.new ≡ cells.old) × (totals.new ≡ totals.old)) }
{
    let deltas = conflict_at(alloc, cells.len(), k)?;
    change_all(alloc, job, cells, totals, deltas)
}

/// Joins a fragment's cell with its delta.
pub fn change(
    alloc: Global,
    job: &Job,
    cells: &mut Vec<HeldCell>,
    totals: &mut Totals,
    k: u32,
    delta: HeldCell,
) -> Result<(), AllocError>
    requires held { IsHeld job.now cells.old.items totals.old }
    requires within { k < length cells.old.items }
    requires delta { is_delta (cell_at cells.old.items k) delta ≡ true }
    requires fits { is_fitting job.now.plan job.now.cut k delta ≡ true }
    ensures held { OnOk result (IsHeld job.now cells.new.items totals.new) }
    ensures cells { OnOk result
        (cells.new.items
        ≡ slice_set cells.old.items k (behind (cell_at cells.old.items k) delta)) }
    ensures counted { OnOk result (Rises (length (groups_in delta))
        (most_at_change delta cells.new.items) (merges_of totals.old) (merges_of totals.new)) }
    ensures unchanged { OnErr result ((cells.new ≡ cells.old) × (totals.new ≡ totals.old)) }
{
    match delta {
        Cell::Nothing => Ok(()),
        Cell::One(body) => put(alloc, job, cells, totals, k, body),
        Cell::Conflict => withdraw(alloc, job, cells, totals, k),
    }
}
