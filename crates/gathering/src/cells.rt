//! What is held for each fragment while many answers are taken, before anything is made of them.
ghost use Rattle.std.specs.Prelude.{◌≡◌, [], length, IfErr, IfOk, OnErr, OnOk};
ghost use Rattle.meaning.specs.Said.{Answer as AnAnswer};
ghost use Rattle.meaning.specs.Gather.{joined};
ghost use Rattle.meaning.specs.SoundPlan.{IsSoundPlan};
ghost use Rattle.partial_codec.specs.Answer.{Spells};
ghost use Rattle.gathering.specs.Gathering.{Refuses, cells_with};
ghost use Rattle.gathering.specs.Merging.{all_groups};

use crate::changing::no_answers;
use crate::fault::GatherFault;
use crate::gather::{Gather, holding};
use crate::joining::join_at;
use crate::packing::HeldCell;
use meaning::{Answer, Cell};
use partial_codec::{Job, decode};
use std::alloc::{AllocError, Global};
use std::marker::Model;
use std::mem::drop;

/// A coordinator without totals: it holds for each fragment what `Gather` does, and merges no
/// groups until `into_gather` makes a table of all answers at once. So many answers, conflicts
/// among them, cost no more than their reading.
#[derive(Drop)]
pub struct Cells {
    job: Job,
    cells: Vec<HeldCell>,
}

impl Model for Cells {
    ghost use Rattle.std.specs.Coded.{codes};
    ghost use Rattle.meaning.specs.contracts.plan.Plan as a_plan;
    ghost use Rattle.packed_groups.specs.contracts.packed.PackedGroups as some_groups;
    ghost use Rattle.meaning.specs.contracts.answer.Cell as a_cell;
    ghost use Rattle.gathering.specs.Gathering.{GatherSpec, IsGather};

    ghost Value = { GatherSpec };

    ghost coded = { Prim.hlevel
        (codes, a_plan.the_row.coded, (a_cell.the_row some_groups.the_row).coded) };

    ghost view = { λ c. record { job = c.job; cells = c.cells.items; merges = 0 } };

    ghost invariant = { λ c. IsGather
        (record { job = c.job; cells = c.cells.items; merges = 0 }) };
}

impl Cells {
    ghost use Rattle.gathering.specs.Gathering.{IsGather};

    /// Nothing for any fragment.
    pub fn new(alloc: Global, job: Job) -> Result<Cells, AllocError>
        requires { IsSoundPlan job.plan }
        ensures job { IfOk result (λ c. c.job ≡ job) }
        ensures cells { IfOk result (λ c. c.cells ≡ joined job.cut []) }
    {
        match no_answers(alloc, job.cut().lengths().len()) {
            Ok(cells) => Ok(Cells { job, cells }),
            Err(e) => {
                drop(job);
                Err(e)
            }
        }
    }

    /// What the answers are for.
    pub fn job(&self) -> &Job
        ensures value { result.now ≡ self.now.job }
        ensures sound { IsGather self.now }
    {
        &self.job
    }

    /// Takes the answer that the bytes spell. The bytes' refusals are those of
    /// `partial_codec::decode`. On error nothing changes.
    pub fn absorb(&mut self, alloc: Global, bytes: &[u8]) -> Result<(), GatherFault>
        ensures job { self.new.job ≡ self.old.job }
        // The answer's cell is joined with it.
        ensures takes { OnOk result ((a : AnAnswer) × Spells self.old.job bytes.now a
            × (self.new.cells ≡ cells_with self.old.cells a)) }
        ensures refused { IfErr result (Refuses self.old.job bytes.now) }
        ensures unchanged { OnErr result (self.new ≡ self.old) }
    {
        let Answer { k, body } = decode(alloc, &self.job, bytes)?;
        join_at(&mut self.cells, k as usize, Cell::One(body));
        Ok(())
    }

    /// The coordinator that holds this.
    pub fn into_gather(self, alloc: Global) -> Result<Gather, AllocError>
        ensures { IfOk result (λ g. g ≡ record {
          job = self.job;
          cells = self.cells;
          merges = length (all_groups self.cells);
        }) }
    {
        let Cells { job, cells } = self;
        holding(alloc, job, cells)
    }
}
