//! Why an aggregate has no value.
ghost use Rattle.std.specs.Prelude.{◌≡◌};
ghost use Rattle.aggregate_states.specs.Fault.{number_of};
ghost use Rattle.aggregate_states.specs.declared.fault.AggFault.TheVariants.{Memory};

use std::alloc::{AllocError, AllocFailed};
use thiserror::Error;

/// Why an aggregate has no value.
#[derive(Debug, Drop, Error)]
pub enum AggFault {
    #[error("out of memory")]
    Memory,
    #[error("sum out of range")]
    SumOutOfRange,
}

impl AggFault {
    /// The error code.
    pub fn number(&self) -> u8
        ensures { result ≡ number_of self.now }
    {
        match self {
            AggFault::Memory => 0,
            AggFault::SumOutOfRange => 3,
        }
    }
}

impl From<AllocError> for AggFault {
    ghost from_gives = { λ _ given. given ≡ Memory };

    fn from(_: AllocError) -> AggFault {
        AggFault::Memory
    }
}

impl<T: Drop> From<AllocFailed<T>> for AggFault {
    ghost from_gives = { λ _ given. given ≡ Memory };

    fn from(_: AllocFailed<T>) -> AggFault {
        AggFault::Memory
    }
}
