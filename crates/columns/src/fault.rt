//! Why a column refuses a value.
ghost use Rattle.std.specs.Prelude.{◌≡◌};
ghost use Rattle.columns.specs.Column.{number_of};
ghost use Rattle.columns.specs.declared.fault.ColumnFault.TheVariants.{Memory};

use std::alloc::{AllocError, AllocFailed};
use thiserror::Error;

/// Why a column refuses a value.
#[derive(Debug, Drop, Error)]
pub enum ColumnFault {
    #[error("out of memory")]
    Memory,
    #[error("a value of another type")]
    WrongType,
    #[error("NULL is not allowed here")]
    NullNotAllowed,
    #[error("a text of more than 65,535 bytes")]
    TextTooLong,
}

impl ColumnFault {
    /// The error code.
    pub fn number(&self) -> u8
        ensures { result ≡ number_of self.now }
    {
        match self {
            ColumnFault::Memory => 0,
            ColumnFault::WrongType => 1,
            ColumnFault::NullNotAllowed => 2,
            ColumnFault::TextTooLong => 3,
        }
    }
}

impl From<AllocError> for ColumnFault {
    ghost from_gives = { λ _ given. given ≡ Memory };

    fn from(_: AllocError) -> ColumnFault {
        ColumnFault::Memory
    }
}

impl<T: Drop> From<AllocFailed<T>> for ColumnFault {
    ghost from_gives = { λ _ given. given ≡ Memory };

    fn from(_: AllocFailed<T>) -> ColumnFault {
        ColumnFault::Memory
    }
}
