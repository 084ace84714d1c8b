//! Why a report was not printed.
ghost use Rattle.std.specs.Prelude.{◌≡◌, if◌then◌else◌};
ghost use Rattle.csv.specs.Reading.{error_kind, is_io};
ghost use Rattle.last_step.specs.PrintFaults.{number_of};
ghost use Rattle.last_step.specs.declared.print_fault.PrintFault.TheVariants.{Memory, Writer};

use std::alloc::AllocError;
use std::io;
use thiserror::Error;

/// Why a query's report wasn't printed whole.
#[derive(Debug, Drop, Error)]
pub enum PrintFault {
    #[error("out of memory")]
    Memory,
    #[error("the output can't be written")]
    Writer,
}

impl PrintFault {
    /// The error code.
    pub fn number(&self) -> u8
        ensures { result ≡ number_of self.now }
    {
        match self {
            PrintFault::Memory => 0,
            PrintFault::Writer => 1,
        }
    }
}

impl From<AllocError> for PrintFault {
    ghost from_gives = { λ _ given. given ≡ Memory };

    fn from(_: AllocError) -> PrintFault {
        PrintFault::Memory
    }
}

impl From<io::Error> for PrintFault {
    ghost from_gives = { λ _ given. given ≡ Writer };

    fn from(_: io::Error) -> PrintFault {
        PrintFault::Writer
    }
}

impl From<csv::Error> for PrintFault {
    ghost from_gives = { λ error given. given
        ≡ (if is_io (error_kind error) then Writer else Memory) };

    fn from(error: csv::Error) -> PrintFault {
        if error.is_io_error() {
            PrintFault::Writer
        } else {
            PrintFault::Memory
        }
    }
}
