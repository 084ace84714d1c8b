//! Why a durable coordinator refuses a call.
ghost use Rattle.std.specs.Prelude.{◌≡◌};
ghost use Rattle.journal.specs.Fault.{fault_of_disk, fault_of_gather, number_of};
ghost use Rattle.journal.specs.declared.fault.JournalFault.TheVariants as fault;

use disk::DiskFault;
use gathering::GatherFault;
use partial_codec::DecodeFault;
use std::alloc::{AllocError, AllocFailed};
use thiserror::Error;

/// Why a durable coordinator did not do what was asked.
#[derive(Debug, Drop, Error)]
pub enum JournalFault {
    #[error("out of memory")]
    Memory,
    /// Bytes that are no answer for the job.
    #[error("{0}")]
    Decode(DecodeFault),
    #[error("the device failed")]
    Device,
    #[error("the disk is full")]
    Full,
    #[error("not a journal of this job")]
    NotAJournal,
    #[error("the disk failed before: open the journal again")]
    OpenAgain,
    #[error("an answer of more than 4294967295 bytes")]
    TooLong,
}

impl JournalFault {
    /// The error code.
    pub fn number(&self) -> u8
        ensures { result ≡ number_of self.now }
    {
        match self {
            JournalFault::Memory => 0,
            JournalFault::Decode(fault) => fault.number(),
            JournalFault::Device => 12,
            JournalFault::Full => 13,
            JournalFault::NotAJournal => 14,
            JournalFault::OpenAgain => 15,
            JournalFault::TooLong => 16,
        }
    }
}

impl From<AllocError> for JournalFault {
    ghost from_gives = { λ _ given. given ≡ fault.Memory };

    fn from(_: AllocError) -> JournalFault {
        JournalFault::Memory
    }
}

impl<T: Drop> From<AllocFailed<T>> for JournalFault {
    ghost from_gives = { λ _ given. given ≡ fault.Memory };

    fn from(_: AllocFailed<T>) -> JournalFault {
        JournalFault::Memory
    }
}

impl From<DiskFault> for JournalFault {
    ghost from_gives = { λ e given. given ≡ fault_of_disk e };

    fn from(fault: DiskFault) -> JournalFault {
        match fault {
            DiskFault::Device => JournalFault::Device,
            DiskFault::Full => JournalFault::Full,
        }
    }
}

impl From<GatherFault> for JournalFault {
    ghost from_gives = { λ e given. given ≡ fault_of_gather e };

    fn from(fault: GatherFault) -> JournalFault {
        match fault {
            GatherFault::Decode(fault) => JournalFault::Decode(fault),
            // The others don't come where bytes are taken.
            GatherFault::Memory | GatherFault::OtherJob | GatherFault::Writer => {
                JournalFault::Memory
            }
        }
    }
}
