//! Why a fragment isn't answered.
ghost use Rattle.std.specs.Prelude.{◌≡◌};
ghost use Rattle.job_files.specs.Fault.{of_file, number_of};
ghost use Rattle.job_files.specs.declared.fault.WorkFault.TheVariants.{Memory};

use fragment_file::FileFault;
use std::alloc::{AllocError, AllocFailed};
use thiserror::Error;

/// Why a fragment isn't answered: the first obstacle in the order that `work` states.
#[derive(Debug, Drop, Error)]
pub enum WorkFault {
    #[error("out of memory")]
    Memory,
    #[error("a file isn't the one that the job names")]
    OtherFile,
    #[error("a column that the plan uses isn't in its place with its name and type")]
    OtherColumn,
    #[error("a file is ill-formed")]
    File(FileFault),
    #[error("a vector has 1 to 4,096 rows")]
    VectorLength,
    #[error("a dimension's key stands twice")]
    KeyTwice,
}

impl WorkFault {
    /// The error code.
    pub fn number(&self) -> u8
        ensures { result ≡ number_of self.now }
    {
        match self {
            WorkFault::Memory => 0,
            WorkFault::OtherFile => 1,
            WorkFault::OtherColumn => 2,
            WorkFault::File(_) => 3,
            WorkFault::VectorLength => 4,
            WorkFault::KeyTwice => 5,
        }
    }
}

impl From<AllocError> for WorkFault {
    ghost from_gives = { λ _ given. given ≡ Memory };

    fn from(_: AllocError) -> WorkFault {
        WorkFault::Memory
    }
}

impl<T: Drop> From<AllocFailed<T>> for WorkFault {
    ghost from_gives = { λ _ given. given ≡ Memory };

    fn from(_: AllocFailed<T>) -> WorkFault {
        WorkFault::Memory
    }
}

impl From<FileFault> for WorkFault {
    ghost from_gives = { λ fault given. given ≡ of_file fault };

    fn from(fault: FileFault) -> WorkFault {
        match fault {
            FileFault::Memory => WorkFault::Memory,
            other => WorkFault::File(other),
        }
    }
}
