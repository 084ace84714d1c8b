//! Truths, lane by lane. UNKNOWN is one of them.
ghost use Rattle.std.specs.Prelude.{◌≡◌, ◌<◌, length, slice_index_or};
ghost use Rattle.meaning.specs.declared.outcome.Truth.TheVariants.{Unknown};
ghost use Rattle.vectors.specs.Lanes.{truths_of};

use meaning::Truth;
use std::marker::Model;

/// Where the truths stand: here, or one for all lanes.
#[derive(Drop)]
pub enum TruthCells {
    Owned(Vec<Truth>),
    Repeated { truth: Truth, lanes: usize },
}

/// Truths. Contracts see that of each lane.
#[derive(Drop)]
pub struct Truths {
    cells: TruthCells,
}

impl Model for Truths {
    ghost use Rattle.std.specs.Prelude.{List};
    ghost use Rattle.meaning.specs.declared.outcome.Truth.{Truth as ATruth};
    ghost use Rattle.vectors.specs.Lanes.{truths_of};

    ghost Value = { List ATruth };

    ghost view = { λ v. truths_of v.cells };
}

impl Truths {
    pub fn new(cells: TruthCells) -> Truths
        ensures { result ≡ truths_of cells }
    {
        Truths { cells }
    }

    /// How many lanes there are.
    pub fn len(&self) -> usize
        ensures { result ≡ length self.now }
    {
        match &self.cells {
            TruthCells::Owned(cells) => cells.len(),
            TruthCells::Repeated { lanes, .. } => *lanes,
        }
    }

    /// The truth of a lane.
    pub fn get(&self, lane: usize) -> Truth
        requires { lane < length self.now }
        ensures { result ≡ slice_index_or self.now lane Unknown }
    {
        match &self.cells {
            TruthCells::Owned(cells) => cells.as_slice()[lane],
            TruthCells::Repeated { truth, .. } => *truth,
        }
    }

    /// The cells of the lanes.
    pub fn cells(&self) -> &TruthCells
        ensures { self.now ≡ truths_of result.now }
    {
        &self.cells
    }
}
