//! A buffer for integers that are read out of a block. It borrows nothing.
ghost use Rattle.std.specs.Prelude.{◌≡◌, map, [], IfOk};
ghost use Rattle.meaning.specs.Order.{is_null, number};
ghost use Rattle.blocks.specs.VectorBuf.{Vector};
ghost use Rattle.meaning.specs.declared.value.ColType.TheVariants as of_type;

use std::alloc::{AllocError, Global};
use std::marker::Model;

/// Room for the values of a column of integers, filled anew by each read.
#[derive(Drop)]
pub struct IntBuf {
    pub(crate) ints: Vec<i64>,
    pub(crate) nulls: Vec<bool>,
    pub(crate) len: usize,
}

impl Model for IntBuf {
    ghost use Rattle.blocks.specs.VectorBuf.{Vector, vector_of, AreCells, no_texts};
    ghost use Rattle.meaning.specs.declared.value.ColType.TheVariants as of_type;

    ghost Value = { Vector };

    ghost view = { λ v. vector_of of_type.Int v.len v.nulls.items v.ints.items
        (no_texts v.nulls.items) };

    ghost invariant = { λ v. AreCells of_type.Int v.len v.nulls.items v.ints.items
        (no_texts v.nulls.items) };
}

impl IntBuf {
    /// Room for `n` values, and none there.
    pub fn new(alloc: Global, n: usize) -> Result<IntBuf, AllocError>
        ensures { IfOk result (λ v. v ≡ record { room = n; col_type = of_type.Int; values = [] }) }
    {
        Ok(IntBuf {
            ints: vec![in alloc; 0; n]?,
            nulls: vec![in alloc; false; n]?,
            len: 0,
        })
    }

    /// Which values are NULL.
    pub fn nulls(&self) -> &[bool]
        ensures { result.now ≡ map is_null self.now.values }
    {
        &self.nulls.as_slice()[..self.len]
    }

    /// The integers, with 0 for NULL.
    pub fn ints(&self) -> &[i64]
        ensures { result.now ≡ map number self.now.values }
    {
        &self.ints.as_slice()[..self.len]
    }
}
