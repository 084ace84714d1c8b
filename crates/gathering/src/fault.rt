//! Why a coordinator refuses a call.
ghost use Rattle.std.specs.Prelude.{◌≡◌};
ghost use Rattle.gathering.specs.Gathering.{fault_of, number_of};
ghost use Rattle.gathering.specs.declared.fault.GatherFault.TheVariants as fault;

use partial_codec::DecodeFault;
use std::alloc::{AllocError, AllocFailed};
use thiserror::Error;

/// Why a coordinator did not do what was asked.
#[derive(Debug, Drop, Error)]
pub enum GatherFault {
    #[error("out of memory")]
    Memory,
    /// Bytes that are no answer for the job.
    #[error("{0}")]
    Decode(DecodeFault),
    #[error("another load, plan or cut")]
    OtherJob,
    #[error("the writer failed")]
    Writer,
}

impl GatherFault {
    /// The error code.
    pub fn number(&self) -> u8
        ensures { result ≡ number_of self.now }
    {
        match self {
            GatherFault::Memory => 0,
            GatherFault::Decode(fault) => fault.number(),
            GatherFault::OtherJob => 11,
            GatherFault::Writer => 12,
        }
    }
}

impl From<AllocError> for GatherFault {
    ghost from_gives = { λ _ given. given ≡ fault.Memory };

    fn from(_: AllocError) -> GatherFault {
        GatherFault::Memory
    }
}

impl<T: Drop> From<AllocFailed<T>> for GatherFault {
    ghost from_gives = { λ _ given. given ≡ fault.Memory };

    fn from(_: AllocFailed<T>) -> GatherFault {
        GatherFault::Memory
    }
}

impl From<DecodeFault> for GatherFault {
    ghost from_gives = { λ e given. given ≡ fault_of e };

    fn from(fault: DecodeFault) -> GatherFault {
        match fault {
            DecodeFault::Memory => GatherFault::Memory,
            other => GatherFault::Decode(other),
        }
    }
}
