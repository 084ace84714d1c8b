//! Why the records of a CSV file are no table.

use thiserror::Error;

/// Why the records of a CSV file are no table of a declaration. Rows count from 0 behind the
/// header, columns from 0 in the order of the catalogue. Its text says what is wrong, its fields
/// where.
#[derive(Clone, Copy, Debug, Error)]
pub enum TableFault {
    #[error("the header does not have each declared column once")]
    Header,
    #[error("a row does not have a field for each column")]
    FieldCount { row: u64 },
    #[error("a field is not an integer of 64 bits")]
    NotAnInteger { row: u64, column: u64 },
    #[error("a field is NULL, which its column does not allow")]
    NullNotAllowed { row: u64, column: u64 },
    #[error("a field is a text of over 65,535 bytes")]
    TextTooLong { row: u64, column: u64 },
    #[error("a field is not UTF-8")]
    NotUtf8 { row: u64, column: u64 },
    #[error("a row has the key of an earlier row")]
    KeyTwice { row: u64 },
    #[error("too many rows")]
    TooManyRows,
    #[error("too few rows")]
    TooFewRows,
}

impl TableFault {
    ghost use Rattle.std.specs.Prelude.{◌≡◌};
    ghost use Rattle.meaning.specs.Records.{number_of};

    /// The error code.
    pub fn number(self) -> u8
        ensures { result ≡ number_of self }
    {
        match self {
            TableFault::Header => 1,
            TableFault::FieldCount { .. } => 2,
            TableFault::NotAnInteger { .. } => 3,
            TableFault::NullNotAllowed { .. } => 4,
            TableFault::TextTooLong { .. } => 5,
            TableFault::NotUtf8 { .. } => 6,
            TableFault::KeyTwice { .. } => 7,
            TableFault::TooManyRows => 8,
            TableFault::TooFewRows => 9,
        }
    }
}
