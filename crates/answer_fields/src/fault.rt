//! Why bytes are no answer, or no state, for a job.
ghost use Rattle.std.specs.Prelude.{◌≡◌};
ghost use Rattle.answer_fields.specs.Fault.{fault_of, number_of};
ghost use Rattle.answer_fields.specs.declared.fault.DecodeFault.TheVariants.{Memory};

use std::alloc::{AllocError, AllocFailed};
use thiserror::Error;
use wire::WireFault;

/// Why bytes are no answer, or no state, for a job: the first obstacle from front to back.
#[derive(Debug, Drop, Error)]
pub enum DecodeFault {
    #[error("out of memory")]
    Memory,
    #[error("no file of this kind and of a known version")]
    Magic,
    #[error("the bytes end within a field")]
    Truncated,
    #[error("bytes stand behind the seal")]
    TrailingBytes,
    #[error("the seal does not fit the bytes")]
    Seal,
    #[error("made for another load")]
    OtherLoad,
    #[error("made for another query")]
    OtherQuery,
    #[error("made for another cut")]
    OtherCut,
    #[error("the groups do not ascend by their keys, or a set by its entries")]
    UnsortedGroups,
    #[error("a tag, a shape or a type that does not belong there")]
    Shape,
    #[error("a number that the fragment's rows cannot give")]
    Numbers,
}

impl DecodeFault {
    /// The error code.
    pub fn number(&self) -> u8
        ensures { result ≡ number_of self.now }
    {
        match self {
            DecodeFault::Memory => 0,
            DecodeFault::Magic => 1,
            DecodeFault::Truncated => 2,
            DecodeFault::TrailingBytes => 3,
            DecodeFault::Seal => 4,
            DecodeFault::OtherLoad => 5,
            DecodeFault::OtherQuery => 6,
            DecodeFault::OtherCut => 7,
            DecodeFault::UnsortedGroups => 8,
            DecodeFault::Shape => 9,
            DecodeFault::Numbers => 10,
        }
    }
}

impl From<AllocError> for DecodeFault {
    ghost from_gives = { λ _ given. given ≡ Memory };

    fn from(_: AllocError) -> DecodeFault {
        DecodeFault::Memory
    }
}

impl<T: Drop> From<AllocFailed<T>> for DecodeFault {
    ghost from_gives = { λ _ given. given ≡ Memory };

    fn from(_: AllocFailed<T>) -> DecodeFault {
        DecodeFault::Memory
    }
}

impl From<WireFault> for DecodeFault {
    ghost from_gives = { λ fault given. given ≡ fault_of fault };

    fn from(fault: WireFault) -> DecodeFault {
        match fault {
            WireFault::Magic => DecodeFault::Magic,
            WireFault::Truncated => DecodeFault::Truncated,
            WireFault::NotUtf8 => DecodeFault::Shape,
            WireFault::TrailingBytes => DecodeFault::TrailingBytes,
            WireFault::Seal => DecodeFault::Seal,
        }
    }
}
