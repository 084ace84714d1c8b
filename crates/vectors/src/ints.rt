//! Integers, lane by lane, some of them NULL.
ghost use Rattle.std.specs.Prelude.{◌≡◌, ◌<◌, pos, length, map, slice_index_or, IfSome};
ghost use Rattle.meaning.specs.declared.value.Value.TheVariants.{Int, Null};
ghost use Rattle.vectors.specs.Lanes.{AreLanes, int_lanes, ints_of, or_null};

use crate::nulls::Nulls;
use std::marker::Model;

/// Where the integers stand: elsewhere, here, or one for all lanes.
#[derive(Drop)]
pub enum IntCells<'a> {
    Lent(&'a [i64]),
    Owned(Vec<i64>),
    Repeated { cell: i64, lanes: usize },
}

fn int_at(cells: &[i64], lane: usize) -> i64
    requires { lane < length cells.now }
    ensures { result ≡ slice_index_or cells.now lane (pos 0) }
{
    cells[lane]
}

impl<'a> IntCells<'a> {
    fn len(&self) -> usize
        ensures { result ≡ length (ints_of self.now) }
    {
        match self {
            IntCells::Lent(cells) => cells.len(),
            IntCells::Owned(cells) => cells.len(),
            IntCells::Repeated { lanes, .. } => *lanes,
        }
    }

    fn cell(&self, lane: usize) -> i64
        requires { lane < length (ints_of self.now) }
        ensures { result ≡ slice_index_or (ints_of self.now) lane (pos 0) }
    {
        match self {
            IntCells::Lent(cells) => int_at(cells, lane),
            IntCells::Owned(cells) => int_at(cells.as_slice(), lane),
            IntCells::Repeated { cell, .. } => *cell,
        }
    }

    fn present(&self, lane: usize) -> Option<i64>
        requires { lane < length (ints_of self.now) }
        ensures { or_null Int result ≡ Int (slice_index_or (ints_of self.now) lane (pos 0)) }
    {
        Some(self.cell(lane))
    }
}

/// Integers, some of them NULL. Contracts see the value of each lane.
#[derive(Drop)]
pub struct Ints<'a> {
    cells: IntCells<'a>,
    nulls: Nulls<'a>,
}

impl<'a> Model for Ints<'a> {
    ghost use Rattle.std.specs.Prelude.{List};
    ghost use Rattle.meaning.specs.declared.value.Value.{Value as AValue};
    ghost use Rattle.vectors.specs.Lanes.{AreLanes, int_lanes, ints_of};

    ghost Value = { List AValue };

    ghost view = { λ v. int_lanes v.cells v.nulls };

    ghost invariant = { λ v. AreLanes (ints_of v.cells) v.nulls };
}

impl<'a> Ints<'a> {
    /// Lanes of these cells, NULL where it is marked so. What stands in the cell of a NULL lane is
    /// of no account.
    pub fn new(cells: IntCells<'a>, nulls: Nulls<'a>) -> Ints<'a>
        requires { AreLanes (ints_of cells) nulls }
        ensures { result ≡ int_lanes cells.entry nulls.entry }
    {
        Ints { cells, nulls }
    }

    /// How many lanes there are.
    pub fn len(&self) -> usize
        ensures { result ≡ length self.now }
    {
        self.cells.len()
    }

    /// The integer of a lane, unless it is NULL.
    pub fn get(&self, lane: usize) -> Option<i64>
        requires { lane < length self.now }
        ensures { or_null Int result ≡ slice_index_or self.now lane Null }
    {
        if self.nulls.is_null(lane) {
            return None;
        }
        self.cells.present(lane)
    }

    /// The integers of the lanes, where they stand one by one and none is NULL.
    pub fn plain(&self) -> Option<&[i64]>
        ensures { IfSome result (λ cells. map Int cells.now ≡ self.now) }
    {
        let (cells, nulls) = self.parts();
        let None = nulls.mask() else {
            return None;
        };
        match cells {
            IntCells::Lent(cells) => Some(*cells),
            IntCells::Owned(cells) => Some(cells.as_slice()),
            IntCells::Repeated { .. } => None,
        }
    }

    /// The cells and NULLs of the lanes.
    pub fn parts(&self) -> (&IntCells<'a>, &Nulls<'a>)
        ensures value { self.now ≡ int_lanes result.0.now result.1.now }
        ensures sound { AreLanes (ints_of result.0.now) result.1.now }
    {
        (&self.cells, &self.nulls)
    }
}
