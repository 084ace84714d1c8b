//! Joins the cells of two coordinators.
ghost use Rattle.std.specs.Prelude.{◌≡◌, ◌<◌, length, slice_set, slice_index_or, IfOk};
ghost use Rattle.meaning.specs.declared.answer.Cell.TheVariants.{Nothing, One};
ghost use Rattle.meaning.specs.Gather.{join_cells, same_body};
ghost use Rattle.gathering.specs.Gathering.{join_states};
ghost use Rattle.gathering.specs.Joining.{conflict_unless, delta_of, all_deltas};

use crate::packing::{HeldBody, HeldCell, copy_body};
use meaning::{Body, Cell};
use std::alloc::{AllocError, Global};
use std::mem;
use std::mem::drop;

/// Whether two answers are equal.
pub fn is_same(a: &HeldBody, b: &HeldBody) -> bool
    ensures { result ≡ same_body a.now b.now }
{
    match (a, b) {
        (Body::Groups(groups), Body::Groups(others)) => groups.is_same(others),
        (Body::Fault(fault), Body::Fault(other)) => fault == other,
        _ => false,
    }
}

/// The cell after one more answer for its fragment.
pub fn with_answer(cell: HeldCell, body: HeldBody) -> HeldCell
    ensures { result ≡ join_cells cell (One body) }
{
    match cell {
        Cell::Nothing => Cell::One(body),
        Cell::One(known) => {
            if is_same(&known, &body) {
                Cell::One(known)
            } else {
                Cell::Conflict
            }
        }
        Cell::Conflict => Cell::Conflict,
    }
}

/// The least that a cell is to be joined with, to become what it is with the other's: nothing where
/// it stays.
fn delta_of(alloc: Global, own: &HeldCell, other: &HeldCell) -> Result<HeldCell, AllocError>
    ensures { IfOk result (λ delta. delta ≡ delta_of own.now other.now) }
{
    match (own, other) {
        (Cell::Conflict, _) | (_, Cell::Nothing) => Ok(Cell::Nothing),
        (_, Cell::Conflict) => Ok(Cell::Conflict),
        (Cell::Nothing, Cell::One(said)) => Ok(Cell::One(copy_body(alloc, said)?)),
        (Cell::One(known), Cell::One(said)) => Ok(conflict_unless(is_same(known, said))),
    }
}

/// Equal answers are no delta.
fn conflict_unless(is_known: bool) -> HeldCell
    ensures { result ≡ conflict_unless is_known }
{
    if is_known {
        Cell::Nothing
    } else {
        Cell::Conflict
    }
}

/// The same where the other is given up, which takes no memory.
pub fn delta_with(own: &HeldCell, other: HeldCell) -> HeldCell
    ensures { result ≡ delta_of own.now other }
{
    match own {
        Cell::Nothing => other,
        Cell::One(known) => delta_to(known, other),
        Cell::Conflict => {
            drop(other);
            Cell::Nothing
        }
    }
}

fn delta_to(known: &HeldBody, other: HeldCell) -> HeldCell
    ensures { result ≡ delta_of (One known.now) other }
{
    match other {
        Cell::Nothing => Cell::Nothing,
        Cell::One(said) => {
            let is_known = is_same(known, &said);
            drop(said);
            conflict_unless(is_known)
        }
        Cell::Conflict => Cell::Conflict,
    }
}

/// What is new of a cell, in place of it.
fn reduce_at(others: &mut Vec<HeldCell>, k: usize, own: &HeldCell)
    requires { k < length others.old.items }
    ensures { others.new.items
        ≡ slice_set others.old.items k (delta_of own.now (slice_index_or others.old.items k Nothing)) }
{
    let cell = &mut others[k];
    let other = mem::replace(cell, Cell::Nothing);
    *cell = delta_with(own, other);
}

/// What is new of each cell, in place of these.
pub fn reduce_all(own: &[HeldCell], others: &mut Vec<HeldCell>)
    requires { length own.now ≡ length others.old.items }
    ensures { others.new.items ≡ all_deltas own.now others.old.items }
{
    for k in 0..own.len() {
        reduce_at(others, k, &own[k]);
    }
}

/// What is new of each cell.
pub fn all_deltas(
    alloc: Global,
    own: &[HeldCell],
    others: &[HeldCell],
) -> Result<Vec<HeldCell>, AllocError>
    requires { length own.now ≡ length others.now }
    ensures { IfOk result (λ delta. delta.items ≡ all_deltas own.now others.now) }
{
    let mut delta = Vec::new(alloc);
    for k in 0..own.len() {
        delta.push(delta_of(alloc, &own[k], &others[k])?)?;
    }
    Ok(delta)
}

/// Two cells of one fragment as one.
fn joined(own: HeldCell, other: HeldCell) -> HeldCell
    ensures { result ≡ join_cells own other }
{
    match other {
        Cell::Nothing => own,
        Cell::One(said) => with_answer(own, said),
        Cell::Conflict => Cell::Conflict,
    }
}

/// Joins a fragment's cell with another.
pub fn join_at(cells: &mut Vec<HeldCell>, k: usize, other: HeldCell)
    requires { k < length cells.old.items }
    ensures { cells.new.items
        ≡ slice_set cells.old.items k (join_cells (slice_index_or cells.old.items k Nothing) other) }
{
    let cell = &mut cells[k];
    let held = mem::replace(cell, Cell::Nothing);
    *cell = joined(held, other);
}

/// Joins each cell with its delta.
pub fn join_all(cells: &mut Vec<HeldCell>, delta: Vec<HeldCell>)
    requires { length cells.old.items ≡ length delta.items }
    ensures { cells.new.items ≡ join_states cells.old.items delta.items }
{
    let mut delta = delta;
    while let Some(change) = delta.pop() {
        join_at(cells, delta.len(), change);
    }
}
