//! Why a block is not written.
ghost use Rattle.std.specs.Prelude.{◌≡◌};
ghost use Rattle.encodings.specs.declared.fault.EncodeFault.TheVariants.{Memory};
ghost use Rattle.encodings.specs.Fault.{number_of_fault};

use std::alloc::{AllocError, AllocFailed};
use thiserror::Error;

/// Why a block is not written.
#[derive(Debug, Drop, Error)]
pub enum EncodeFault {
    #[error("out of memory")]
    Memory,
    #[error("a frame of reference holds integers only")]
    FrameOnText,
}

impl EncodeFault {
    /// The error code.
    pub fn number(&self) -> u8
        ensures { result ≡ number_of_fault self.now }
    {
        match self {
            EncodeFault::Memory => 0,
            EncodeFault::FrameOnText => 1,
        }
    }
}

impl From<AllocError> for EncodeFault {
    ghost from_gives = { λ _ given. given ≡ Memory };

    fn from(_: AllocError) -> EncodeFault {
        EncodeFault::Memory
    }
}

impl<T: Drop> From<AllocFailed<T>> for EncodeFault {
    ghost from_gives = { λ _ given. given ≡ Memory };

    fn from(_: AllocFailed<T>) -> EncodeFault {
        EncodeFault::Memory
    }
}
