//! Why a journal was not made, opened or written.
ghost use Rattle.std.specs.Prelude.{◌≡◌};
ghost use Rattle.folders.specs.JournalRefusal.{number_of};

/// Why a journal was not made, opened or written.
#[derive(Clone, Copy, Debug, Drop, PartialEq, Eq)]
pub enum JournalRefusal {
    /// The device failed.
    Device,
    /// The disk is full.
    Full,
    /// The file is no journal of the job.
    NotAJournal,
    /// The disk failed before.
    OpenAgain,
    /// An answer of more than 4,294,967,295 bytes.
    TooLong,
}

impl JournalRefusal {
    /// The error code.
    pub fn number(self) -> u8
        ensures { result ≡ number_of self }
    {
        match self {
            JournalRefusal::Device => 12,
            JournalRefusal::Full => 13,
            JournalRefusal::NotAJournal => 14,
            JournalRefusal::OpenAgain => 15,
            JournalRefusal::TooLong => 16,
        }
    }
}
