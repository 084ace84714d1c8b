//! Why a text is no query.
ghost use Rattle.std.specs.Prelude.{◌≡◌};
ghost use Rattle.sql_reader.specs.declared.fault.SqlFault.TheVariants.{Memory};
ghost use Rattle.sql_reader.specs.Faults.{number_of};

use meaning::Text;
use std::alloc::AllocError;
use thiserror::Error;

/// Why a text isn't a query. Offsets are bytes of the text, counted from 0; at the end of the text,
/// its length.
#[derive(Debug, Drop, Error)]
pub enum SqlFault {
    #[error("out of memory")]
    Memory,
    #[error("the text is not UTF-8")]
    NotUtf8,
    #[error("unknown character at {offset}")]
    UnknownCharacter { offset: usize },
    /// The offset is that of the opening quote.
    #[error("the text that begins at {offset} is not closed")]
    TextNotClosed { offset: usize },
    #[error("integer out of range at {offset}")]
    IntegerOutOfRange { offset: usize },
    #[error("token not expected at {offset}")]
    UnexpectedToken { offset: usize },
    #[error("nested too deeply")]
    TooDeep,
    /// The text, or its canonical text, has over 65,535 bytes.
    #[error("the text or its canonical text is too long")]
    TooLong,
    /// A part of SQL that is left out. The word is in lower case.
    #[error("left out at {offset}: {}", .word.as_str())]
    LeftOut { offset: usize, word: Text },
}

impl SqlFault {
    /// The number under which a program reports the refusal.
    pub fn number(&self) -> u8
        ensures { result ≡ number_of self.now }
    {
        match self {
            SqlFault::Memory => 0,
            SqlFault::NotUtf8 => 1,
            SqlFault::UnknownCharacter { .. } => 2,
            SqlFault::TextNotClosed { .. } => 3,
            SqlFault::IntegerOutOfRange { .. } => 4,
            SqlFault::UnexpectedToken { .. } => 5,
            SqlFault::TooDeep => 6,
            SqlFault::TooLong => 7,
            SqlFault::LeftOut { .. } => 8,
        }
    }
}

impl From<AllocError> for SqlFault {
    ghost from_gives = { λ _ e. e ≡ Memory };

    fn from(_error: AllocError) -> SqlFault {
        SqlFault::Memory
    }
}
