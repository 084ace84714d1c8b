//! A coordinator whose answers outlive a stop at any moment.
ghost use Rattle.std.specs.Prelude.{◌≡◌, ◌≢◌, [], ◌<◌, ◌^◌, false, true, length, Ok, Err, IfErr, IfOk, IsOk, OnOk};
ghost use Rattle.disk.specs.Disk.{HasRoom, IsHonest, IsImage, LeavesOnly};
ghost use Rattle.meaning.specs.Gather.{joined};
ghost use Rattle.meaning.specs.Said.{Answer as AnAnswer};
ghost use Rattle.meaning.specs.SoundPlan.{IsSoundPlan};
ghost use Rattle.partial_codec.specs.Answer.{Spells};
ghost use Rattle.gathering.specs.Gathering.{Takes, cells_with};
ghost use Rattle.gathering.specs.declared.gather.Absorbed.TheVariants as absorbed;
ghost use Rattle.journal.specs.Durable.{IsBeforeOrAfter, IsDurable};
ghost use Rattle.journal.specs.Fault.{IsNoFile, RefusesAbsorb, RefusesCreate, RefusesReading};
ghost use Rattle.journal.specs.Journal.{IsLean, IsOpened};

use crate::appending::{append_record, entry_of};
use crate::clearing::{MAGIC, clear};
use crate::fault::JournalFault;
use crate::opening::open_journal;
use disk::Disk;
use gathering::{Absorbed, Gather};
use meaning::Answer;
use packed_groups::PackedGroups;
use partial_codec::Job;
use std::alloc::Global;
use std::marker::Model;
use std::mem::drop;

/// The most bytes of an answer whose length a record can say.
const MOST_BYTES: usize = 4_294_967_295;

/// A coordinator and the disk with its journal. Each answer that `absorb` acknowledged is in the
/// journal for good.
///
/// Behind a call in which the disk failed nothing but the disk can be had: open it again.
#[derive(Drop)]
pub struct DurableGather<D: Disk + Drop> {
    disk: D,
    gather: Gather,
    // The offset of the closed gate.
    gate: usize,
    // No call of the disk has failed.
    is_open: bool,
}

impl<D: Disk + Drop> Model for DurableGather<D> {
    ghost use Rattle.std.specs.Coded.{codes};
    ghost use Rattle.meaning.specs.contracts.plan.Plan as a_plan;
    ghost use Rattle.meaning.specs.contracts.answer.Group as a_group;
    ghost use Rattle.meaning.specs.contracts.answer.Cell as a_cell;
    ghost use Rattle.meaning.specs.contracts.sequence.Sequence as a_sequence;
    ghost use Rattle.journal.specs.Durable.{DurableSpec, IsKept};

    ghost Value = { DurableSpec };

    ghost coded = { Prim.hlevel
        (codes, a_plan.the_row.coded, (a_cell.the_row (a_sequence.the_row a_group.the_row)).coded) };

    ghost view = { λ d. record {
      disk = D.shown d.disk;
      gather = d.gather;
      is_open = d.is_open;
    } };

    ghost invariant = { λ d. IsKept d.gate (record {
      disk = D.shown d.disk;
      gather = d.gather;
      is_open = d.is_open;
    }) };
}

impl<D: Disk + Drop> DurableGather<D> {
    /// With an empty journal in the place of whatever the disk holds. A refusal gives the disk
    /// back. Where it was stopped it is called again.
    pub fn create(alloc: Global, disk: D, job: Job) -> Result<DurableGather<D>, (JournalFault, D)>
        requires room { HasRoom (D.shown disk) }
        requires sound { IsSoundPlan job.plan }
        // It has taken no answer.
        ensures job { IfOk result (λ d. d.gather.job ≡ job) }
        ensures fresh { IfOk result (λ d. d.gather.cells ≡ joined job.cut []) }
        ensures is_open { IfOk result (λ d. d.is_open ≡ true) }
        ensures honest { IfOk result (λ d. d.disk.is_honest ≡ (D.shown disk).is_honest) }
        ensures durable { IfOk result IsDurable }
        // The journal has no record too many.
        ensures lean { IfOk result (λ d. IsHonest d.disk → IsLean job d.disk.now.reads) }
        ensures still_honest { IfErr result
            (λ e. (D.shown e.1).is_honest ≡ (D.shown disk).is_honest) }
        ensures refused { IfErr result (λ e. RefusesCreate (D.shown disk) (D.shown e.1) e.0) }
    {
        match Gather::new(alloc, job) {
            Ok(gather) => DurableGather::over_empty(disk, gather),
            Err(_) => Err((JournalFault::Memory, disk)),
        }
    }

    fn over_empty(disk: D, gather: Gather) -> Result<DurableGather<D>, (JournalFault, D)>
        requires room { HasRoom (D.shown disk) }
        requires fresh { gather.cells ≡ joined gather.job.cut [] }
        ensures value { IfOk result (λ d. d.gather ≡ gather) }
        ensures is_open { IfOk result (λ d. d.is_open ≡ true) }
        ensures honest { IfOk result (λ d. d.disk.is_honest ≡ (D.shown disk).is_honest) }
        ensures durable { IfOk result IsDurable }
        ensures lean { IfOk result (λ d. IsHonest d.disk → IsLean gather.job d.disk.now.reads) }
        ensures still_honest { IfErr result
            (λ e. (D.shown e.1).is_honest ≡ (D.shown disk).is_honest) }
        ensures refused { IfErr result (λ e. RefusesCreate (D.shown disk) (D.shown e.1) e.0) }
    {
        let mut disk = disk;
        match clear(&mut disk) {
            Ok(()) => Ok(DurableGather {
                disk,
                gather,
                gate: MAGIC.len(),
                is_open: true,
            }),
            Err(fault) => {
                drop(gather);
                Err((JournalFault::from(fault), disk))
            }
        }
    }

    /// With the journal that the disk holds. It syncs the disk first, and writes nothing. A refusal
    /// gives the disk back.
    pub fn open(alloc: Global, disk: D, job: Job) -> Result<DurableGather<D>, (JournalFault, D)>
        requires room { HasRoom (D.shown disk) }
        requires sound { IsSoundPlan job.plan }
        ensures job { IfOk result (λ d. d.gather.job ≡ job) }
        ensures is_open { IfOk result (λ d. d.is_open ≡ true) }
        ensures honest { IfOk result (λ d. d.disk.is_honest ≡ (D.shown disk).is_honest) }
        // What reads give is a journal of what is gathered, ..
        ensures reads { IfOk result (λ d. IsHonest (D.shown disk)
            → IsOpened d.gather (D.shown disk).now.reads) }
        // .. and is as it was.
        ensures same { IfOk result (λ d. IsHonest (D.shown disk)
            → d.disk.now.reads ≡ (D.shown disk).now.reads) }
        ensures durable { IfOk result IsDurable }
        // A crash at any moment leaves nothing but what it could leave before, ..
        ensures any_moment { IfOk result (λ d. IsHonest (D.shown disk)
            → LeavesOnly (D.shown disk) d.disk (IsImage (D.shown disk).now)) }
        // .. nor behind a refusal.
        ensures any_moment_refused { IfErr result (λ e. IsHonest (D.shown disk)
            → LeavesOnly (D.shown disk) (D.shown e.1) (IsImage (D.shown disk).now)) }
        ensures still_honest { IfErr result
            (λ e. (D.shown e.1).is_honest ≡ (D.shown disk).is_honest) }
        ensures refused { IfErr result (λ e. RefusesReading (D.shown disk) (D.shown e.1)
            (IsNoFile job (D.shown disk).now.reads) e.0) }
    {
        let mut disk = disk;
        match open_journal(alloc, &mut disk, job) {
            Ok((gather, gate)) => Ok(DurableGather {
                disk,
                gather,
                gate,
                is_open: true,
            }),
            Err(fault) => Err((fault, disk)),
        }
    }

    /// What is gathered.
    pub fn gather(&self) -> Result<&Gather, JournalFault>
        ensures value { IfOk result (λ g. g.now ≡ self.now.gather) }
        // A crash now leaves a journal of it.
        ensures durable { OnOk result (IsDurable self.now) }
        ensures given { self.now.is_open ≡ true → IsOk result }
        ensures again { self.now.is_open ≡ false → result ≡ Err JournalFault.OpenAgain }
    {
        if self.is_open {
            Ok(&self.gather)
        } else {
            Err(JournalFault::OpenAgain)
        }
    }

    /// The disk as it stands.
    pub fn into_disk(self) -> D
        ensures { D.shown result ≡ self.disk }
    {
        let DurableGather { disk, gather, .. } = self;
        drop(gather);
        disk
    }

    /// Takes the answer that the bytes spell. An `Ok` acknowledges it: from then on whatever a
    /// crash leaves holds it.
    pub fn absorb(&mut self, alloc: Global, bytes: &[u8]) -> Result<Absorbed, JournalFault>
        // As a coordinator takes it.
        ensures takes { IfOk result (Takes self.old.gather self.new.gather bytes.now) }
        // An answer that is known, or whose fragment was in conflict, leaves the disk untouched.
        ensures known { IfOk result (λ r. r ≡ absorbed.Known → self.new ≡ self.old) }
        ensures untouched { OnOk result (self.new.gather.cells ≡ self.old.gather.cells
            → self.new ≡ self.old) }
        ensures stays_open { OnOk result (self.new.is_open ≡ true) }
        ensures again { self.old.is_open ≡ false → result ≡ Err JournalFault.OpenAgain }
        ensures honest { self.new.disk.is_honest ≡ self.old.disk.is_honest }
        // A crash behind it leaves a journal of what is gathered now.
        ensures acknowledged { OnOk result (IsDurable self.new) }
        // A crash at any moment of the call, or behind its refusal, leaves a journal of what was
        // gathered, or of that with the answer, ..
        ensures any_moment { self.old.is_open ≡ true → IsHonest self.old.disk
            → LeavesOnly self.old.disk self.new.disk (IsBeforeOrAfter self.old.gather bytes.now) }
        // .. without a record too many, if there was none.
        ensures lean { self.old.is_open ≡ true → IsHonest self.old.disk
            → IsLean self.old.gather.job self.old.disk.now.reads
            → LeavesOnly self.old.disk self.new.disk (IsLean self.old.gather.job) }
        ensures refused { IfErr result (RefusesAbsorb self.old self.new bytes.now) }
    {
        if !self.is_open {
            return Err(JournalFault::OpenAgain);
        }
        let answer = self.gather.read_answer(alloc, bytes)?;
        self.absorb_answer(alloc, bytes, answer)
    }

    /// Takes an answer that the bytes spell.
    fn absorb_answer(
        &mut self,
        alloc: Global,
        bytes: &[u8],
        answer: Answer<PackedGroups>,
    ) -> Result<Absorbed, JournalFault>
        requires is_open { self.old.is_open ≡ true }
        requires spelled { Spells self.old.gather.job bytes.now answer }
        ensures takes { IfOk result (Takes self.old.gather self.new.gather bytes.now) }
        ensures known { IfOk result (λ r. r ≡ absorbed.Known → self.new ≡ self.old) }
        ensures untouched { OnOk result (self.new.gather.cells ≡ self.old.gather.cells
            → self.new ≡ self.old) }
        ensures stays_open { OnOk result (self.new.is_open ≡ true) }
        ensures honest { self.new.disk.is_honest ≡ self.old.disk.is_honest }
        ensures acknowledged { OnOk result (IsDurable self.new) }
        ensures any_moment { IsHonest self.old.disk
            → LeavesOnly self.old.disk self.new.disk (IsBeforeOrAfter self.old.gather bytes.now) }
        ensures lean { IsHonest self.old.disk
            → IsLean self.old.gather.job self.old.disk.now.reads
            → LeavesOnly self.old.disk self.new.disk (IsLean self.old.gather.job) }
        ensures refused { IfErr result (RefusesAbsorb self.old self.new bytes.now) }
    {
        let (returned, changes) = self.gather.would_take(&answer);
        if !changes {
            drop(answer);
            return Ok(returned);
        }
        if bytes.len() > MOST_BYTES {
            drop(answer);
            return Err(JournalFault::TooLong);
        }
        self.append(alloc, bytes, answer)
    }

    /// Takes an answer that the bytes spell, and that changes what is gathered. All memory is taken
    /// before the disk is touched.
    fn append(
        &mut self,
        alloc: Global,
        bytes: &[u8],
        answer: Answer<PackedGroups>,
    ) -> Result<Absorbed, JournalFault>
        requires is_open { self.old.is_open ≡ true }
        requires spelled { Spells self.old.gather.job bytes.now answer }
        requires short { length bytes.now < 2 ^ 32 }
        requires changes { (a : AnAnswer) → Spells self.old.gather.job bytes.now a
            → cells_with self.old.gather.cells a ≢ self.old.gather.cells }
        ensures takes { IfOk result (Takes self.old.gather self.new.gather bytes.now) }
        ensures stays_open { OnOk result (self.new.is_open ≡ true) }
        ensures honest { self.new.disk.is_honest ≡ self.old.disk.is_honest }
        ensures acknowledged { OnOk result (IsDurable self.new) }
        ensures any_moment { IsHonest self.old.disk
            → LeavesOnly self.old.disk self.new.disk (IsBeforeOrAfter self.old.gather bytes.now) }
        ensures lean { IsHonest self.old.disk
            → IsLean self.old.gather.job self.old.disk.now.reads
            → LeavesOnly self.old.disk self.new.disk (IsLean self.old.gather.job) }
        ensures refused { IfErr result (RefusesAbsorb self.old self.new bytes.now) }
    {
        // No effect at run time. The proof reads from this call that the job is within its limits.
        let _plan = self.gather.job().plan();
        let entry = entry_of(alloc, bytes)?;
        let returned = self.gather.take_answer(alloc, answer)?;
        match append_record(&mut self.disk, self.gate, entry.as_slice()) {
            Ok(()) => {
                self.gate += entry.len();
                Ok(returned)
            }
            Err(fault) => {
                self.is_open = false;
                Err(JournalFault::from(fault))
            }
        }
    }
}
