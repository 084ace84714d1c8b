//! Batches: the columns of some rows, as vectors.
ghost use Rattle.std.specs.Prelude.{◌≡◌, [], ◌∷◌, ◌++◌, length, find, option_map, IfSome, OnOk, OnErr};
ghost use Rattle.vectors.specs.Vector.{outcomes_of, same_reference};

use crate::vector::Vector;
use std::alloc::{AllocError, Global};
use std::marker::Model;

/// Where an expression finds a column.
#[derive(Clone, Copy, PartialEq, Eq)]
pub enum ColumnReference {
    Fact { column: usize },
    Join { join: usize, column: usize },
    Key { key: usize },
    Aggregate { aggregate: usize },
}

/// A column of a batch.
#[derive(Drop)]
pub struct BatchColumn<'a> {
    pub reference: ColumnReference,
    pub lanes: Vector<'a>,
}

/// The columns of some rows, of which there need be no more than expressions name. Contracts see
/// how many rows there are, and the columns in the order in which they were put.
#[derive(Drop)]
pub struct Batch<'a> {
    rows: usize,
    columns: Vec<BatchColumn<'a>>,
}

impl<'a> Model for Batch<'a> {
    ghost use Rattle.std.specs.Prelude.{◌≡◌, length, All};
    ghost use Rattle.vectors.specs.Vector.{BatchSpec, outcomes_of};

    ghost Value = { BatchSpec };

    ghost view = { λ b. record { rows = b.rows; columns = b.columns.items } };

    ghost invariant = { λ b. All (λ column. length (outcomes_of column.lanes) ≡ b.rows)
        b.columns.items };
}

impl<'a> Batch<'a> {
    /// So many rows, and no column yet. Takes no memory.
    pub fn new(alloc: Global, rows: usize) -> Batch<'a>
        ensures { result ≡ record { rows = rows; columns = [] } }
    {
        Batch {
            rows,
            columns: Vec::new(alloc),
        }
    }

    /// How many rows there are.
    pub fn rows(&self) -> usize
        ensures { result ≡ self.now.rows }
    {
        self.rows
    }

    /// Puts a column behind the last. On an error nothing changes.
    pub fn push(&mut self, column: BatchColumn<'a>) -> Result<(), AllocError>
        requires { length (outcomes_of column.lanes) ≡ self.old.rows }
        ensures ok { OnOk result
            (self.new ≡ record {
              rows = self.old.rows;
              columns = self.old.columns ++ column.entry ∷ [];
            }) }
        ensures err { OnErr result (self.new ≡ self.old) }
    {
        self.columns.push(column)?;
        Ok(())
    }

    /// The lanes of the first column with this reference.
    pub fn column(&self, reference: ColumnReference) -> Option<&Vector<'a>>
        ensures value { option_map (λ lanes. lanes.now) result
            ≡ option_map (λ column. column.lanes)
            (find (λ column. same_reference column.reference reference) self.now.columns) }
        ensures long { IfSome result (λ lanes. length (outcomes_of lanes.now) ≡ self.now.rows) }
    {
        let column = self
            .columns
            .iter()
            .find(|column| column.reference == reference)?;
        Some(&column.lanes)
    }
}
