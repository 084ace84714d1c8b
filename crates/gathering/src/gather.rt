//! The coordinator: a cell for each fragment, what an answer does to it, and what is reported.
ghost use Rattle.std.specs.Prelude.{◌≡◌, ◌⊎◌, ◌≤◌, ◌<◌, ◌^◌, ℕ, [], ◌∷◌, ◌++◌, List, length, IfOk, IfErr, OnOk, OnErr};
ghost use Rattle.std.specs.Io.KnownBytes.{Appends};
ghost use Rattle.meaning.specs.Said.{Answer as AnAnswer};
ghost use Rattle.meaning.specs.Said.{Cell as ACell};
ghost use Rattle.meaning.specs.Gather.{joined, preview, report};
ghost use Rattle.meaning.specs.Print.{output_text, report_text};
ghost use Rattle.meaning.specs.SoundPlan.{IsSoundPlan};
ghost use Rattle.partial_codec.specs.Answer.{Fits, Spells};
ghost use Rattle.partial_codec.specs.State.{SpellsState, state_bytes};
ghost use Rattle.gathering.specs.Fitted.{AreFitting};
ghost use Rattle.gathering.specs.Gathering.{Takes, Would, Joins, Refuses, RefusesState, RefusesJoin, absorbed_as, changes};
ghost use Rattle.gathering.specs.Merging.{all_groups};
ghost use Rattle.gathering.specs.Report.{ended_as, summary, IsPrintRefusal};

use crate::changing::{change, change_all, no_answers};
use crate::fault::GatherFault;
use crate::joining::{all_deltas, delta_with, is_same, reduce_all};
use crate::output::{Output, output_together};
use crate::packing::{HeldBody, HeldCell};
use crate::report::{Ended, FullReport, Report, full_report, print_text};
use crate::same_job::is_same_job;
use crate::totals::{Totals, totals_of};
use meaning::{Answer, Cell};
use packed_groups::PackedGroups;
use partial_codec::{Job, decode, decode_state, encode_state};
use std::alloc::{AllocError, Global};
use std::io::Write;
use std::marker::Model;
use std::mem::drop;

/// What a coordinator holds of a job: for each fragment of the cut nothing, one answer, or a
/// conflict; and what the answers say together. Its type keeps one live table, which is of the
/// groups in the cells that hold one answer, and the fault of the least row among these cells'
/// faults.
#[derive(Drop)]
pub struct Gather {
    job: Job,
    cells: Vec<HeldCell>,
    totals: Totals,
}

/// What became of an answer.
#[derive(Clone, Copy, Debug, PartialEq, Eq)]
pub enum Absorbed {
    /// Nothing was held for its fragment.
    New,
    /// It is the answer that was held.
    Known,
    /// Unequal answers came for its fragment, now or before.
    Conflict { fragment: u32 },
}

impl Model for Gather {
    ghost use Rattle.std.specs.Coded.{codes};
    ghost use Rattle.meaning.specs.contracts.plan.Plan as a_plan;
    ghost use Rattle.packed_groups.specs.contracts.packed.PackedGroups as some_groups;
    ghost use Rattle.meaning.specs.contracts.answer.Cell as a_cell;
    ghost use Rattle.gathering.specs.Gathering.{GatherSpec, IsHeld};
    ghost use Rattle.gathering.specs.Totals.{merges_of};

    ghost Value = { GatherSpec };

    ghost coded = { Prim.hlevel
        (codes, a_plan.the_row.coded, (a_cell.the_row some_groups.the_row).coded) };

    ghost view = { λ g. record {
      job = g.job;
      cells = g.cells.items;
      merges = merges_of g.totals;
    } };

    ghost invariant = { λ g. IsHeld g.job g.cells.items g.totals };
}

/// What is said of an answer for a fragment of which this is held, and whether it would change it.
fn judged(held: &HeldCell, fragment: u32, body: &HeldBody) -> (Absorbed, bool)
    ensures said { result.0 ≡ absorbed_as held.now fragment body.now }
    ensures changes { result.1 ≡ changes held.now body.now }
{
    match held {
        Cell::Nothing => (Absorbed::New, true),
        Cell::One(known) => {
            if is_same(known, body) {
                (Absorbed::Known, false)
            } else {
                (Absorbed::Conflict { fragment }, true)
            }
        }
        Cell::Conflict => (Absorbed::Conflict { fragment }, false),
    }
}

/// The cells that a state's bytes spell. Their refusals are those of `partial_codec::decode_state`.
fn read_cells(alloc: Global, job: &Job, bytes: &[u8]) -> Result<Vec<HeldCell>, GatherFault>
    ensures spelled { IfOk result (λ cells. SpellsState job.now bytes.now cells.items) }
    ensures complete { (cells : List ACell) → SpellsState job.now bytes.now cells
        → IfErr result (λ e. e ≡ GatherFault.Memory) }
    ensures refused { IfErr result (RefusesState job.now bytes.now) }
{
    Ok(decode_state(alloc, job, bytes)?)
}

/// A coordinator that holds these cells.
pub(crate) fn holding(alloc: Global, job: Job, cells: Vec<HeldCell>) -> Result<Gather, AllocError>
    requires sound { IsSoundPlan job.plan }
    requires each { length cells.items ≡ length job.cut }
    requires fitting { AreFitting job.plan job.cut cells.items }
    ensures { IfOk result (λ g. g ≡ record {
      job = job;
      cells = cells.items;
      merges = length (all_groups cells.items);
    }) }
{
    // No effect at run time. The proof reads from this call the limits of a cut.
    let _lengths = job.cut().lengths();
    match totals_of(alloc, job.plan(), cells.as_slice()) {
        Ok(totals) => Ok(Gather { job, cells, totals }),
        Err(e) => {
            drop(job);
            drop(cells);
            Err(e)
        }
    }
}

impl Gather {
    ghost use Rattle.gathering.specs.Gathering.{IsGather, IsHeld};

    /// A coordinator that has taken no answer.
    pub fn new(alloc: Global, job: Job) -> Result<Gather, AllocError>
        requires { IsSoundPlan job.plan }
        ensures job { IfOk result (λ g. g.job ≡ job) }
        ensures cells { IfOk result (λ g. g.cells ≡ joined job.cut []) }
        ensures merges { IfOk result (λ g. g.merges ≡ 0) }
    {
        match no_answers(alloc, job.cut().lengths().len()) {
            Ok(cells) => holding(alloc, job, cells),
            Err(e) => {
                drop(job);
                Err(e)
            }
        }
    }

    /// What the answers are for.
    pub fn job(&self) -> &Job
        ensures value { result.now ≡ self.now.job }
        ensures sound { IsGather self.now }
    {
        &self.job
    }

    /// What is held for each fragment.
    pub fn cells(&self) -> &[HeldCell]
        ensures value { result.now ≡ self.now.cells }
        ensures sound { IsGather self.now }
    {
        &self.cells
    }

    /// What the answers say together, as it was kept while they came.
    pub(crate) fn totals(&self) -> &Totals
        ensures { IsHeld self.now.job self.now.cells result.now }
    {
        &self.totals
    }

    /// How many groups were merged into the live table and those before it. Takes no memory.
    pub fn merges(&self) -> u64
        ensures value { result ≡ self.now.merges }
        ensures few { result < 2 ^ 45 }
    {
        // No effect at run time. The proof reads from this call the limits of a cut.
        let _lengths = self.job.cut().lengths();
        self.totals.merges()
    }

    /// Takes the answer that the bytes spell. The bytes' refusals are those of
    /// `partial_codec::decode`. On error nothing changes.
    pub fn absorb(&mut self, alloc: Global, bytes: &[u8]) -> Result<Absorbed, GatherFault>
        // The answer's cell is joined with it.
        ensures takes { IfOk result (Takes self.old self.new bytes.now) }
        // The state of a set of answers becomes that of the set with this one.
        ensures joins { IfOk result (λ _. (answers : List AnAnswer) (a : AnAnswer)
            → Spells self.old.job bytes.now a
            → self.old.cells ≡ joined self.old.job.cut answers
            → self.new.cells ≡ joined self.old.job.cut (answers ++ a ∷ [])) }
        ensures refused { IfErr result (Refuses self.old.job bytes.now) }
        ensures unchanged { OnErr result (self.new ≡ self.old) }
    {
        let answer = self.read_answer(alloc, bytes)?;
        Ok(self.take_answer(alloc, answer)?)
    }

    /// What an `absorb` of these bytes would return if it succeeded, and whether it would change
    /// what is held for a fragment. The bytes' refusals are those of `partial_codec::decode`.
    pub fn would(&self, alloc: Global, bytes: &[u8]) -> Result<(Absorbed, bool), GatherFault>
        ensures would { IfOk result (Would self.now bytes.now) }
        ensures refused { IfErr result (Refuses self.now.job bytes.now) }
    {
        let answer = self.read_answer(alloc, bytes)?;
        let returned = self.would_take(&answer);
        drop(answer);
        Ok(returned)
    }

    /// The answer that the bytes spell, which `would_take` judges and `take_answer` takes: `would`
    /// and `absorb` are these in a row. The bytes' refusals are those of `partial_codec::decode`.
    pub fn read_answer(
        &self,
        alloc: Global,
        bytes: &[u8],
    ) -> Result<Answer<PackedGroups>, GatherFault>
        ensures spelled { IfOk result (Spells self.now.job bytes.now) }
        // No other is spelled so.
        ensures only { IfOk result (λ a. (other : AnAnswer)
            → Spells self.now.job bytes.now other → other ≡ a) }
        ensures refused { IfErr result (Refuses self.now.job bytes.now) }
    {
        Ok(decode(alloc, &self.job, bytes)?)
    }

    /// What a `take_answer` of this answer would return if it succeeded, and whether it would change
    /// what is held for its fragment. Takes no memory.
    pub fn would_take(&self, answer: &Answer<PackedGroups>) -> (Absorbed, bool)
        requires { Fits self.now.job answer.now }
        ensures { (bytes : List ℕ)
            → Spells self.now.job bytes answer.now → Would self.now bytes result }
    {
        // No effect at run time. The proof reads from this call that the job is within its limits.
        let _plan = self.job.plan();
        let held = &self.cells[answer.k as usize];
        judged(held, answer.k, &answer.body)
    }

    /// Takes an answer. An error is that memory ran out, and then nothing changes.
    pub fn take_answer(
        &mut self,
        alloc: Global,
        answer: Answer<PackedGroups>,
    ) -> Result<Absorbed, AllocError>
        requires { Fits self.old.job answer }
        // As bytes that spell it are taken.
        ensures takes { IfOk result (λ returned. (bytes : List ℕ)
            → Spells self.old.job bytes answer → Takes self.old self.new bytes returned) }
        ensures joins { OnOk result ((answers : List AnAnswer)
            → self.old.cells ≡ joined self.old.job.cut answers
            → self.new.cells ≡ joined self.old.job.cut (answers ++ answer ∷ [])) }
        ensures unchanged { OnErr result (self.new ≡ self.old) }
    {
        let Answer { k, body } = answer;
        let held = &self.cells[k as usize];
        let (absorbed, _) = judged(held, k, &body);
        let delta = delta_with(held, Cell::One(body));
        change(
            alloc,
            &self.job,
            &mut self.cells,
            &mut self.totals,
            k,
            delta,
        )?;
        Ok(absorbed)
    }

    /// Takes all that another coordinator holds. Another load, plan or cut is refused. On error
    /// nothing changes.
    pub fn join(&mut self, alloc: Global, other: &Gather) -> Result<(), GatherFault>
        // Each cell is joined with the other's.
        ensures same { OnOk result (self.old.job ≡ other.now.job) }
        ensures joins { OnOk result (Joins self.old self.new other.now.cells) }
        // The states of two sets of answers become that of both together.
        ensures together { OnOk result ((own others : List AnAnswer)
            → self.old.cells ≡ joined self.old.job.cut own
            → other.now.cells ≡ joined self.old.job.cut others
            → self.new.cells ≡ joined self.old.job.cut (own ++ others)) }
        ensures refused { IfErr result (RefusesJoin self.old.job other.now.job) }
        ensures unchanged { OnErr result (self.new ≡ self.old) }
    {
        if !is_same_job(&self.job, other.job()) {
            return Err(GatherFault::OtherJob);
        }
        let deltas = all_deltas(alloc, &self.cells, other.cells())?;
        change_all(alloc, &self.job, &mut self.cells, &mut self.totals, deltas)?;
        Ok(())
    }

    /// Takes all that a state's bytes spell, as `from_state` reads them and `join` takes them.
    /// Their refusals are those of `partial_codec::decode_state`. On error nothing changes.
    pub fn absorb_state(&mut self, alloc: Global, bytes: &[u8]) -> Result<(), GatherFault>
        // Each cell is joined with that which is spelled.
        ensures joins { OnOk result ((cells : List ACell) × SpellsState self.old.job bytes.now cells
            × Joins self.old self.new cells) }
        ensures refused { IfErr result (RefusesState self.old.job bytes.now) }
        ensures unchanged { OnErr result (self.new ≡ self.old) }
    {
        let mut deltas = read_cells(alloc, &self.job, bytes)?;
        reduce_all(&self.cells, &mut deltas);
        change_all(alloc, &self.job, &mut self.cells, &mut self.totals, deltas)?;
        Ok(())
    }

    /// The one spelling of what is held.
    pub fn state_bytes(&self, alloc: Global) -> Result<Vec<u8>, GatherFault>
        ensures spelled { IfOk result
            (λ bytes. bytes.items ≡ state_bytes self.now.job self.now.cells) }
        ensures refused { IfErr result (λ e. e ≡ GatherFault.Memory) }
    {
        Ok(encode_state(alloc, &self.job, &self.cells)?)
    }

    /// A coordinator that holds what the bytes spell. Their refusals are those of
    /// `partial_codec::decode_state`.
    pub fn from_state(alloc: Global, job: Job, bytes: &[u8]) -> Result<Gather, GatherFault>
        requires { IsSoundPlan job.plan }
        // What it holds is spelled so.
        ensures reads { IfOk result (λ g. (g.job ≡ job) × SpellsState job bytes.now g.cells) }
        // What is spelled so is read, unless memory runs out.
        ensures complete { (cells : List ACell) → SpellsState job bytes.now cells
            → IfErr result (λ e. e ≡ GatherFault.Memory) }
        ensures refused { IfErr result (RefusesState job bytes.now) }
        // No more groups were merged than its answers have.
        ensures merges { IfOk result (λ g. g.merges ≤ length (all_groups g.cells)) }
    {
        match read_cells(alloc, &job, bytes) {
            Ok(cells) => Ok(holding(alloc, job, cells)?),
            Err(fault) => {
                drop(job);
                Err(fault)
            }
        }
    }

    /// Which report would be printed.
    pub fn report(&self, alloc: Global) -> Result<Report, GatherFault>
        ensures value { IfOk result (λ r. r ≡ summary (report self.now.job.plan self.now.cells)) }
        ensures refused { IfErr result (λ e. e ≡ GatherFault.Memory) }
    {
        let FullReport { report, text } = full_report(alloc, self)?;
        drop(text);
        Ok(report)
    }

    /// Prints the conflicts, if there are any; else the missing fragments; else what the answers
    /// say together; and says which report it was. What a failed writer let out is open; any other
    /// refusal leaves `out` as it was.
    pub fn print_report<W: Write>(&self, alloc: Global, out: &mut W) -> Result<Report, GatherFault>
        ensures printed { OnOk result (Appends (W.contents out.old) (W.contents out.new)
            (report_text self.now.job.plan (report self.now.job.plan self.now.cells))) }
        ensures value { IfOk result (λ r. r ≡ summary (report self.now.job.plan self.now.cells)) }
        ensures refused { IfErr result IsPrintRefusal }
        ensures quiet { IfErr result (λ e. (e ≡ GatherFault.Writer)
            ⊎ (W.contents out.new ≡ W.contents out.old)) }
    {
        let FullReport { report, text } = full_report(alloc, self)?;
        match print_text(text, out) {
            Ok(()) => Ok(report),
            Err(fault) => {
                drop(report);
                Err(fault)
            }
        }
    }

    /// Prints what the answers say together, as if the fragments that hold one were all, and says
    /// whether it is rows or a fault. What a failed writer let out is open; any other refusal
    /// leaves `out` as it was.
    pub fn preview<W: Write>(&self, alloc: Global, out: &mut W) -> Result<Ended, GatherFault>
        ensures printed { OnOk result (Appends (W.contents out.old) (W.contents out.new)
            (output_text self.now.job.plan (preview self.now.job.plan self.now.cells))) }
        ensures value { IfOk result
            (λ e. e ≡ ended_as (preview self.now.job.plan self.now.cells)) }
        ensures refused { IfErr result IsPrintRefusal }
        ensures quiet { IfErr result (λ e. (e ≡ GatherFault.Writer)
            ⊎ (W.contents out.new ≡ W.contents out.old)) }
    {
        let Output { ended, text } = output_together(alloc, self)?;
        print_text(text, out)?;
        Ok(ended)
    }
}
