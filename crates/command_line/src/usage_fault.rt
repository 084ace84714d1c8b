//! Why words are no command.
ghost use Rattle.std.specs.Prelude.{◌≡◌};
ghost use Rattle.std.specs.IoError.{error_kind};
ghost use Rattle.clap.specs.Words.{kind_of};
ghost use Rattle.command_line.specs.Usage.{of_arguments, of_clap, status_of};
ghost use Rattle.command_line.specs.declared.usage_fault.UsageFault.TheVariants.{Memory};

use clap::error::ErrorKind;
use std::alloc::{AllocError, AllocFailed};
use std::io;
use thiserror::Error;

/// Why words are no command of the program. The texts are whole lines.
#[derive(Debug, Drop, Error)]
pub enum UsageFault {
    #[error("xcols: memory\n")]
    Memory,
    #[error("error: a word is not UTF-8\n")]
    Encoding,
    /// With clap's text, which may be the help that was asked for.
    #[error("{0}")]
    Words(clap::Error),
}

impl UsageFault {
    /// The program's exit status.
    pub fn status(&self) -> u8
        ensures { result ≡ status_of self.now }
    {
        match self {
            UsageFault::Memory => 1,
            UsageFault::Encoding | UsageFault::Words(_) => 2,
        }
    }
}

impl From<clap::Error> for UsageFault {
    ghost from_gives = { λ error given. given ≡ of_clap error (kind_of error) };

    fn from(error: clap::Error) -> UsageFault {
        match error.kind() {
            ErrorKind::OutOfMemory => UsageFault::Memory,
            _ => UsageFault::Words(error),
        }
    }
}

/// Of the arguments of a program: they are no text, or memory ran out.
impl From<io::Error> for UsageFault {
    ghost from_gives = { λ error given. given ≡ of_arguments (error_kind error) };

    fn from(error: io::Error) -> UsageFault {
        match error.kind() {
            io::ErrorKind::OutOfMemory => UsageFault::Memory,
            _ => UsageFault::Encoding,
        }
    }
}

impl From<AllocError> for UsageFault {
    ghost from_gives = { λ _ given. given ≡ Memory };

    fn from(_: AllocError) -> UsageFault {
        UsageFault::Memory
    }
}

impl<T: Drop> From<AllocFailed<T>> for UsageFault {
    ghost from_gives = { λ _ given. given ≡ Memory };

    fn from(_: AllocFailed<T>) -> UsageFault {
        UsageFault::Memory
    }
}
