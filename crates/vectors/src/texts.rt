//! Texts, lane by lane, some of them NULL.
ghost use Rattle.std.specs.Prelude.{◌≡◌, ◌<◌, [], length, map, slice_index_or};
ghost use Rattle.meaning.specs.declared.value.Value.TheVariants.{Null, Text};
ghost use Rattle.vectors.specs.Lanes.{AreLanes, or_null, text_lanes, texts_of};

use crate::nulls::Nulls;
use std::marker::Model;

/// Where the texts stand: elsewhere, here, or one for all lanes. Their bytes stand elsewhere.
#[derive(Drop)]
pub enum TextCells<'a> {
    Lent(&'a [&'a [u8]]),
    Owned(Vec<&'a [u8]>),
    Repeated { cell: &'a [u8], lanes: usize },
}

fn text_at<'a>(cells: &[&'a [u8]], lane: usize) -> &'a [u8]
    requires { lane < length cells.now }
    ensures { result.now ≡ slice_index_or (map (λ t. t.now) cells.now) lane [] }
{
    cells[lane]
}

impl<'a> TextCells<'a> {
    fn len(&self) -> usize
        ensures { result ≡ length (texts_of self.now) }
    {
        match self {
            TextCells::Lent(cells) => cells.len(),
            TextCells::Owned(cells) => cells.len(),
            TextCells::Repeated { lanes, .. } => *lanes,
        }
    }

    fn cell(&self, lane: usize) -> &'a [u8]
        requires { lane < length (texts_of self.now) }
        ensures { result.now ≡ slice_index_or (texts_of self.now) lane [] }
    {
        match self {
            TextCells::Lent(cells) => text_at(cells, lane),
            TextCells::Owned(cells) => text_at(cells.as_slice(), lane),
            TextCells::Repeated { cell, .. } => cell,
        }
    }
}

/// Texts, some of them NULL. Contracts see the value of each lane.
#[derive(Drop)]
pub struct Texts<'a> {
    cells: TextCells<'a>,
    nulls: Nulls<'a>,
}

impl<'a> Model for Texts<'a> {
    ghost use Rattle.std.specs.Prelude.{List};
    ghost use Rattle.meaning.specs.declared.value.Value.{Value as AValue};
    ghost use Rattle.vectors.specs.Lanes.{AreLanes, text_lanes, texts_of};

    ghost Value = { List AValue };

    ghost view = { λ v. text_lanes v.cells v.nulls };

    ghost invariant = { λ v. AreLanes (texts_of v.cells) v.nulls };
}

impl<'a> Texts<'a> {
    /// Lanes of these cells, NULL where it is marked so. What stands in the cell of a NULL lane is
    /// of no account.
    pub fn new(cells: TextCells<'a>, nulls: Nulls<'a>) -> Texts<'a>
        requires { AreLanes (texts_of cells) nulls }
        ensures { result ≡ text_lanes cells.entry nulls.entry }
    {
        Texts { cells, nulls }
    }

    /// How many lanes there are.
    pub fn len(&self) -> usize
        ensures { result ≡ length self.now }
    {
        self.cells.len()
    }

    /// The bytes of a lane's text, unless it is NULL.
    pub fn get(&self, lane: usize) -> Option<&'a [u8]>
        requires { lane < length self.now }
        ensures { or_null (λ t. Text t.now) result ≡ slice_index_or self.now lane Null }
    {
        if self.nulls.is_null(lane) {
            return None;
        }
        Some(self.cells.cell(lane))
    }

    /// The cells and NULLs of the lanes.
    pub fn parts(&self) -> (&TextCells<'a>, &Nulls<'a>)
        ensures value { self.now ≡ text_lanes result.0.now result.1.now }
        ensures sound { AreLanes (texts_of result.0.now) result.1.now }
    {
        (&self.cells, &self.nulls)
    }
}
