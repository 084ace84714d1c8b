//! Selections: ascending positions below a length, which a select narrows without copying a value.
ghost use Rattle.std.specs.Prelude.{◌≡◌, ◌<◌, ◌≤◌, ◌^◌, ◌==◌, ℕ, length, replicate, filter, slice_index_or, take, All, true, false, IfOk, IfSome, IsNone};
ghost use Rattle.std.specs.List.{range_with_len};
ghost use Rattle.vectors.specs.Selection.{IsHeld, IsMask, IsSelection, Keeps, Positions, all_below, positions_of, without};

use std::alloc::{AllocError, Global};
use std::marker::Model;

/// Strictly ascending positions below a length. Contracts see both.
///
/// Room for all positions is taken once; to narrow takes none.
#[derive(Drop)]
pub struct Selection {
    // As many as there are positions; the first `count` are selected, unless all are.
    positions: Vec<u32>,
    count: usize,
    is_all: bool,
}

impl Model for Selection {
    ghost use Rattle.std.specs.Prelude.{vec_len};
    ghost use Rattle.vectors.specs.Selection.{IsHeld, Positions, positions_of};

    ghost Value = { Positions };

    ghost view = { λ s. positions_of s.is_all s.count s.positions.items };

    ghost invariant = { λ s. IsHeld s.is_all s.count s.positions.items };
}

/// Puts in front the positions below the length at which `keep` answers true, and returns how many
/// these are.
fn keep_of_all<F: Fn(u32) -> bool>(positions: &mut [u32], keep: &F) -> usize
    requires few { length positions.old < 2 ^ 32 }
    requires askable { (p : ℕ) → p < length positions.old → F.pre keep.now p }
    ensures kept { Keeps (F.post keep.now) (range_with_len 0 (length positions.old))
        (take result positions.new) }
    ensures within { result ≤ length positions.new }
{
    let mut count = 0;
    for position in 0..positions.len() {
        let position = position as u32;
        positions[count] = position;
        count += usize::from(keep(position));
    }
    count
}

/// Puts in front those of the first `n` at which `keep` answers true, and returns how many these
/// are.
fn keep_of_front<F: Fn(u32) -> bool>(positions: &mut [u32], n: usize, keep: &F) -> usize
    requires front { n ≤ length positions.old }
    requires below { All (λ p. p < length positions.old) (take n positions.old) }
    requires askable { (p : ℕ) → p < length positions.old → F.pre keep.now p }
    ensures kept { Keeps (F.post keep.now) (take n positions.old) (take result positions.new) }
    ensures within { result ≤ n }
{
    let mut count = 0;
    for i in 0..n {
        let position = positions[i];
        positions[count] = position;
        count += usize::from(keep(position));
    }
    count
}

/// Puts in front those that `keep` leaves of all positions or of the first `count`, and returns how
/// many these are.
fn keep_positions<F: Fn(u32) -> bool>(
    positions: &mut [u32],
    is_all: bool,
    count: usize,
    keep: &F,
) -> usize
    requires held { IsHeld is_all count positions.old }
    requires askable { (p : ℕ) → p < length positions.old → F.pre keep.now p }
    ensures held { IsHeld false result positions.new }
    ensures kept { Keeps (F.post keep.now) (positions_of is_all count positions.old).list
        (positions_of false result positions.new).list }
{
    if is_all {
        return keep_of_all(positions, keep);
    }
    keep_of_front(positions, count, keep)
}

/// Marks the positions among so many.
fn mask_of_positions(
    alloc: Global,
    positions: &[u32],
    below: usize,
) -> Result<Vec<bool>, AllocError>
    requires { All (λ p. p < below) positions.now }
    ensures { IfOk result (λ mask. IsMask positions.now below mask.items) }
{
    let mut mask = vec![in alloc; false; below]?;
    for position in positions {
        mask[*position as usize] = true;
    }
    Ok(mask)
}

fn all_marked(alloc: Global, below: usize) -> Result<Vec<bool>, AllocError>
    ensures { IfOk result (λ mask. mask.items ≡ replicate below true) }
{
    vec![in alloc; true; below]
}

/// A mask of all positions.
fn mask_of_all(alloc: Global, below: usize) -> Result<Vec<bool>, AllocError>
    ensures { IfOk result (λ mask. IsMask (range_with_len 0 below) below mask.items) }
{
    all_marked(alloc, below)
}

/// For each position below the length whether it is selected.
fn mask_of(alloc: Global, selection: &Selection) -> Result<Vec<bool>, AllocError>
    ensures { IfOk result (λ mask. IsMask selection.now.list selection.now.below mask.items) }
{
    match selection.positions() {
        None => mask_of_all(alloc, selection.below()),
        Some(positions) => mask_of_positions(alloc, positions, selection.below()),
    }
}

impl Selection {
    /// All positions below `n`.
    pub fn all(alloc: Global, n: u32) -> Result<Selection, AllocError>
        ensures { IfOk result (λ s. s ≡ all_below n) }
    {
        let positions = vec![in alloc; 0; n as usize]?;
        Ok(Selection {
            positions,
            count: n as usize,
            is_all: true,
        })
    }

    /// Selects all positions again. Takes no memory.
    pub fn reset(&mut self)
        ensures { self.new ≡ all_below self.old.below }
    {
        self.count = self.positions.len();
        self.is_all = true;
    }

    /// The length that the positions lie below.
    pub fn below(&self) -> usize
        ensures { result ≡ self.now.below }
    {
        self.positions.len()
    }

    /// How many positions are selected.
    pub fn len(&self) -> usize
        ensures value { result ≡ length self.now.list }
        ensures sound { IsSelection self.now }
    {
        self.count
    }

    /// Whether no position is selected.
    pub fn is_empty(&self) -> bool
        ensures { result ≡ (length self.now.list == 0) }
    {
        self.count == 0
    }

    /// The selected positions, ascending; `None` where all are selected and no list was made.
    pub fn positions(&self) -> Option<&[u32]>
        ensures list { IfSome result (λ positions. positions.now ≡ self.now.list) }
        ensures all { IsNone result → self.now ≡ all_below self.now.below }
        ensures sound { IsSelection self.now }
    {
        if self.is_all {
            return None;
        }
        Some(&self.positions.as_slice()[..self.count])
    }

    /// Keeps the positions at which `keep` answers true. `keep` may be asked at each position below
    /// the length. Takes no memory.
    pub fn narrow<F: Fn(u32) -> bool>(&mut self, keep: F)
        requires askable { (p : ℕ) → p < self.old.below → F.pre keep p }
        ensures kept { Keeps (F.post keep) self.old.list self.new.list }
        ensures below { self.new.below ≡ self.old.below }
    {
        let positions = self.positions.as_mut_slice();
        self.count = keep_positions(positions, self.is_all, self.count, &keep);
        self.is_all = false;
    }

    /// Keeps the positions that the mask marks. Takes no memory.
    pub fn keep_marked(&mut self, mask: &[bool])
        requires { length mask.now ≡ self.old.below }
        ensures { self.new ≡ record {
          below = self.old.below;
          list = filter (λ p. slice_index_or mask.now p false) self.old.list;
        } }
    {
        // That each position lies below the length.
        let _ = &self.positions;
        self.narrow(|position| mask[position as usize]);
    }

    /// For each position below the length whether it is selected.
    pub fn mask(&self, alloc: Global) -> Result<Vec<bool>, AllocError>
        ensures { IfOk result (λ mask. IsMask self.now.list self.now.below mask.items) }
    {
        mask_of(alloc, self)
    }

    /// A copy, with room of its own.
    pub fn copy(&self, alloc: Global) -> Result<Selection, AllocError>
        ensures { IfOk result (λ s. s ≡ self.now) }
    {
        let positions = Vec::from_slice(alloc, self.positions.as_slice())?;
        Ok(Selection {
            positions,
            count: self.count,
            is_all: self.is_all,
        })
    }

    /// The selected positions that aren't in `other`.
    pub fn minus(&self, alloc: Global, other: &Selection) -> Result<Selection, AllocError>
        requires { other.now.below ≡ self.now.below }
        ensures { IfOk result (λ s. s
            ≡ record { below = self.now.below; list = without self.now.list other.now.list }) }
    {
        // That each position lies below the length.
        let _ = &self.positions;
        let is_other = mask_of(alloc, other)?;
        let mut left = self.copy(alloc)?;
        let is_other = is_other.as_slice();
        left.narrow(|position| !is_other[position as usize]);
        Ok(left)
    }
}
