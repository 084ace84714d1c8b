//! The lanes on which a part of an expression is evaluated. Unlike a selection they are never
//! listed, so narrowing is one loop over masks.
ghost use Rattle.std.specs.Prelude.{◌≡◌, ◌<◌, ◌&&◌, false, slice_index, not, Some, length, if◌then◌else◌, IfOk};
ghost use Rattle.vectors.specs.Selection.{IsMask, IsSelection, is_among, without};
ghost use Rattle.lane_loops.specs.Lanes.{AreLanes, null_at};
ghost use Rattle.vector_operators.specs.Given.{AreNarrowed};
ghost use Rattle.vector_operators.specs.LaneSets.{AreMarks, MarkWhere, lanes_in, marked, mask_in};
ghost use Rattle.vector_operators.specs.Broadcast.{broadcast_cells};

use crate::broadcast::Broadcast;
use lane_loops::{keep_flags, mark_both, mark_first_alone};
use std::alloc::{AllocError, Global};
use std::marker::Model;
use vectors::Selection;

/// Which lanes are meant: all, or those that a mask marks.
#[derive(Drop)]
pub enum Marks {
    All,
    Marked(Vec<bool>),
}

fn marks_of(alloc: Global, selection: &Selection) -> Result<Marks, AllocError>
    ensures { IfOk result (λ marks. MarkWhere selection.now.below (is_among selection.now.list)
        (mask_in marks)) }
{
    match selection.positions() {
        None => Ok(Marks::All),
        Some(_) => Ok(Marks::Marked(selection.mask(alloc)?)),
    }
}

fn copied(alloc: Global, marks: &Marks) -> Result<Marks, AllocError>
    ensures { IfOk result (λ copy. mask_in copy ≡ mask_in marks.now) }
{
    match marks {
        Marks::All => Ok(Marks::All),
        Marks::Marked(mask) => Ok(Marks::Marked(Vec::from_slice(alloc, mask.as_slice())?)),
    }
}

fn broadcast<'a>(
    alloc: Global,
    marks: &'a Marks,
    lanes: usize,
) -> Result<Broadcast<'a, bool>, AllocError>
    requires { AreMarks lanes (mask_in marks.now) }
    ensures { IfOk result (λ mask. AreLanes false lanes (marked (mask_in marks.now))
        (broadcast_cells mask)) }
{
    match marks {
        Marks::All => Ok(Broadcast::Owned(vec![in alloc; true; lanes]?)),
        Marks::Marked(mask) => Ok(Broadcast::Lent(mask.as_slice())),
    }
}

fn in_both(alloc: Global, left: &[bool], right: &[bool]) -> Result<Vec<bool>, AllocError>
    requires { length right.now ≡ length left.now }
    ensures { IfOk result (λ out. AreLanes false (length left.now) (λ i. null_at left.now i
        && null_at right.now i) out.items) }
{
    let mut out = vec![in alloc; false; left.len()]?;
    mark_both(left, right, out.as_mut_slice());
    Ok(out)
}

fn in_first_alone(alloc: Global, left: &[bool], right: &[bool]) -> Result<Vec<bool>, AllocError>
    requires { length right.now ≡ length left.now }
    ensures { IfOk result (λ out. AreLanes false (length left.now) (λ i. null_at left.now i
        && not (null_at right.now i)) out.items) }
{
    let mut out = vec![in alloc; false; left.len()]?;
    mark_first_alone(left, right, out.as_mut_slice());
    Ok(out)
}

/// The marks that the mask has too.
fn narrowed(alloc: Global, marks: &Marks, mask: Vec<bool>) -> Result<Vec<bool>, AllocError>
    requires { AreMarks (length mask.items) (mask_in marks.now) }
    ensures { IfOk result (λ out. AreLanes false (length mask.items)
        (λ i. marked (mask_in marks.now) i && null_at mask.items i) out.items) }
{
    match marks {
        Marks::All => Ok(mask),
        Marks::Marked(marked) => in_both(alloc, marked.as_slice(), mask.as_slice()),
    }
}

/// Lanes of a vector. Contracts see them as positions below its length.
#[derive(Drop)]
pub struct LaneSet {
    lanes: usize,
    marks: Marks,
}

impl Model for LaneSet {
    ghost use Rattle.vectors.specs.Selection.{Positions};
    ghost use Rattle.vector_operators.specs.LaneSets.{AreMarks, lanes_in, mask_in};

    ghost Value = { Positions };

    ghost view = { λ s. lanes_in s.lanes (mask_in s.marks) };

    ghost invariant = { λ s. AreMarks s.lanes (mask_in s.marks) };
}

impl LaneSet {
    /// The selected positions.
    pub fn of(alloc: Global, selection: &Selection) -> Result<LaneSet, AllocError>
        ensures { IfOk result (λ s. s ≡ selection.now) }
    {
        // That positions ascend below the length.
        let _ = selection.len();
        let marks = marks_of(alloc, selection)?;
        Ok(LaneSet {
            lanes: selection.below(),
            marks,
        })
    }

    /// How many lanes the vector has.
    pub fn below(&self) -> usize
        ensures value { result ≡ self.now.below }
        ensures sound { IsSelection self.now }
    {
        self.lanes
    }

    /// A copy, with memory of its own.
    pub fn copy(&self, alloc: Global) -> Result<LaneSet, AllocError>
        ensures { IfOk result (λ s. s ≡ self.now) }
    {
        let marks = copied(alloc, &self.marks)?;
        Ok(LaneSet {
            lanes: self.lanes,
            marks,
        })
    }

    /// For each lane whether it is one of these.
    pub fn mask(&self, alloc: Global) -> Result<Broadcast<'_, bool>, AllocError>
        ensures { IfOk result (λ mask. IsMask self.now.list self.now.below (broadcast_cells mask)) }
    {
        broadcast(alloc, &self.marks, self.lanes)
    }

    /// Takes the flag off each lane that isn't one of these.
    pub fn keep_flags(&self, flags: &mut [u8])
        requires { length flags.old ≡ self.now.below }
        ensures { AreLanes 0 (length flags.old)
            (λ i. if is_among self.now.list i then slice_index flags.old i else 0) flags.new }
    {
        let _ = self.lanes;
        match &self.marks {
            Marks::All => {}
            Marks::Marked(mask) => keep_flags(mask.as_slice(), flags),
        }
    }

    /// Those of the lanes that the mask marks.
    pub fn narrowed(&self, alloc: Global, mask: Vec<bool>) -> Result<LaneSet, AllocError>
        requires { length mask.items ≡ self.now.below }
        ensures { IfOk result (AreNarrowed (λ i. null_at mask.items i) self.now) }
    {
        let lanes = self.lanes;
        let mask = narrowed(alloc, &self.marks, mask)?;
        Ok(LaneSet {
            lanes,
            marks: Marks::Marked(mask),
        })
    }

    /// Those of the lanes that aren't in `other`.
    pub fn minus(&self, alloc: Global, other: &LaneSet) -> Result<LaneSet, AllocError>
        requires { other.now.below ≡ self.now.below }
        ensures { IfOk result (λ s. s
            ≡ record { below = self.now.below; list = without self.now.list other.now.list }) }
    {
        let lanes = self.lanes;
        let these = self.mask(alloc)?;
        let those = other.mask(alloc)?;
        let mask = in_first_alone(alloc, these.as_slice(), those.as_slice())?;
        Ok(LaneSet {
            lanes,
            marks: Marks::Marked(mask),
        })
    }
}
