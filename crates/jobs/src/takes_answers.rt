//! What takes the bytes of answers and states.
ghost use Rattle.std.specs.Prelude.{◌≡◌, Bool, IfErr, OnErr, OnOk, false, true};
ghost use Rattle.gathering.specs.Gathering.{GatherSpec};
ghost use Rattle.partial_codec.specs.State.{is_state};
ghost use Rattle.jobs.specs.Taking.{Failing, HasRisen, IsFailure, IsRefused, Leaves, TakesBytes, take_fault_of};

use disk::Disk;
use folders::JournalRefusal;
use gathering::{Gather, GatherFault};
use journal::{DurableGather, JournalFault};
use partial_codec::{DecodeFault, is_state};
use std::alloc::Global;

/// Why bytes were not taken.
#[derive(Drop)]
pub enum TakeFault {
    Memory,
    /// They encode neither an answer nor a state for the job.
    Refused(DecodeFault),
    /// The answer can't be put into the journal. Nothing is taken from then on.
    Journal(JournalRefusal),
}

/// What takes the bytes of answers and states of one job, as a coordinator does.
pub trait TakesAnswers {
    // The job, and what is held for each fragment.
    ghost held: { Self → GatherSpec };

    // Whether it has a journal. It takes no states then.
    ghost journaled: { Bool };

    // How often the journal's disk has failed, how often it was full, and whether the journal can
    // still be written to.
    ghost failing: { Self → Failing };

    /// Takes the bytes of an answer or of a state. On error nothing changes, unless the journal
    /// failed.
    fn take(&mut self, alloc: Global, bytes: &[u8]) -> Result<(), TakeFault>
        ensures taken { OnOk result (TakesBytes journaled (held self.old) (held self.new) bytes.now) }
        ensures stays_open { OnOk result ((failing self.new).is_open ≡ true) }
        // A journal is to be opened again only where it isn't open, and an answer is too long for
        // it only from 2^32 bytes on.
        ensures refused { IfErr result
            (IsRefused journaled (failing self.old).is_open (held self.old).job bytes.now) }
        ensures left { IfErr result (Leaves (held self.old) (held self.new)) }
        ensures risen { IfErr result (HasRisen (failing self.old) (failing self.new)) };
}

/// Takes an answer's bytes.
fn take_answer(alloc: Global, gather: &mut Gather, bytes: &[u8]) -> Result<(), GatherFault>
    requires { is_state bytes.now ≡ false }
    ensures taken { OnOk result (TakesBytes false gather.old gather.new bytes.now) }
    ensures refused { IfErr result (IsFailure gather.old.job bytes.now) }
    ensures unchanged { OnErr result (gather.new ≡ gather.old) }
{
    gather.absorb(alloc, bytes)?;
    Ok(())
}

/// Takes a state's bytes.
fn take_state(alloc: Global, gather: &mut Gather, bytes: &[u8]) -> Result<(), GatherFault>
    requires { is_state bytes.now ≡ true }
    ensures taken { OnOk result (TakesBytes false gather.old gather.new bytes.now) }
    ensures refused { IfErr result (IsFailure gather.old.job bytes.now) }
    ensures unchanged { OnErr result (gather.new ≡ gather.old) }
{
    gather.absorb_state(alloc, bytes)
}

/// Takes the bytes of an answer or of a state. On error nothing changes.
fn take_bytes(alloc: Global, gather: &mut Gather, bytes: &[u8]) -> Result<(), GatherFault>
    ensures taken { OnOk result (TakesBytes false gather.old gather.new bytes.now) }
    ensures refused { IfErr result (IsFailure gather.old.job bytes.now) }
    ensures unchanged { OnErr result (gather.new ≡ gather.old) }
{
    if is_state(bytes) {
        take_state(alloc, gather, bytes)
    } else {
        take_answer(alloc, gather, bytes)
    }
}

impl TakesAnswers for Gather {
    ghost held = { λ g. g };

    ghost journaled = { false };

    ghost failing = { λ _. record { failures = 0; fulls = 0; is_open = true } };

    fn take(&mut self, alloc: Global, bytes: &[u8]) -> Result<(), TakeFault> {
        match take_bytes(alloc, self, bytes) {
            Ok(()) => Ok(()),
            Err(GatherFault::Decode(fault)) => Err(TakeFault::Refused(fault)),
            Err(GatherFault::Memory) => Err(TakeFault::Memory),
            Err(GatherFault::OtherJob | GatherFault::Writer) => unreachable!(),
        }
    }
}

/// Why an answer was not taken into a journal.
pub fn take_fault_of(fault: JournalFault) -> TakeFault
    ensures { result ≡ take_fault_of fault }
{
    match fault {
        JournalFault::Memory => TakeFault::Memory,
        JournalFault::Decode(fault) => TakeFault::Refused(fault),
        JournalFault::Device => TakeFault::Journal(JournalRefusal::Device),
        JournalFault::Full => TakeFault::Journal(JournalRefusal::Full),
        JournalFault::NotAJournal => TakeFault::Journal(JournalRefusal::NotAJournal),
        JournalFault::OpenAgain => TakeFault::Journal(JournalRefusal::OpenAgain),
        JournalFault::TooLong => TakeFault::Journal(JournalRefusal::TooLong),
    }
}

impl<D: Disk + Drop> TakesAnswers for DurableGather<D> {
    ghost use Rattle.std.specs.Prelude.{true};

    ghost held = { λ d. d.gather };

    ghost journaled = { true };

    ghost failing = { λ d. record {
      failures = d.disk.failures;
      fulls = d.disk.fulls;
      is_open = d.is_open;
    } };

    fn take(&mut self, alloc: Global, bytes: &[u8]) -> Result<(), TakeFault> {
        match self.absorb(alloc, bytes) {
            Ok(_) => Ok(()),
            Err(fault) => Err(take_fault_of(fault)),
        }
    }
}
