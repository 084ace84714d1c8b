//! What is wrong with a file, and where.
ghost use Rattle.std.specs.Prelude.{◌≡◌, codes};
ghost use Rattle.answer_fields.specs.Fault.{fault_of as of_wire};
ghost use Rattle.answer_text.specs.Reading.{IsDamage, IsUnplaced, fault_of, number_of};
ghost use Rattle.answer_text.specs.declared.damage.Stop.TheVariants as stop;

use fragment_file::FileFault;
use std::alloc::{AllocError, AllocFailed};
use thiserror::Error;
use wire::WireFault;

/// What is wrong with a file.
#[derive(Clone, Copy, Debug, Drop, Error)]
pub enum Wrong {
    #[error("the bytes end within this field")]
    EndsEarly,
    #[error("bytes stand behind the seal")]
    BytesBehind,
    #[error("the seal is not that of the bytes before it")]
    OtherSeal,
    #[error("the bytes are no block of this kind, type and number of rows")]
    NoBlock { group: u64, column: u64 },
    #[error("not as a header or a row group has it")]
    Header,
    #[error("over its limit")]
    Limit,
    #[error("a tag, a kind or a type that is unknown, or a text that is not UTF-8")]
    Unknown,
    #[error("not the magic of such a file")]
    OtherMagic,
    #[error("the file ends before a closed gate, or has too many records")]
    NoGate,
}

impl Wrong {
    /// The number by which the commands report it, in files of tables and cuts and in answers and
    /// states.
    pub fn number(self) -> u8
        ensures { result ≡ number_of self }
    {
        match self {
            Wrong::OtherMagic => 1,
            Wrong::EndsEarly => 2,
            Wrong::BytesBehind => 3,
            Wrong::OtherSeal => 4,
            Wrong::NoBlock { .. } => 5,
            Wrong::Header => 6,
            Wrong::Limit => 7,
            Wrong::Unknown => 9,
            Wrong::NoGate => 14,
        }
    }
}

/// What is wrong with a field that `wire` doesn't read so.
pub fn wrong_of(fault: WireFault) -> Wrong
    ensures { fault_of result ≡ of_wire fault }
{
    match fault {
        WireFault::Magic => Wrong::OtherMagic,
        WireFault::Truncated => Wrong::EndsEarly,
        WireFault::NotUtf8 => Wrong::Unknown,
        WireFault::TrailingBytes => Wrong::BytesBehind,
        WireFault::Seal => Wrong::OtherSeal,
    }
}

/// The first thing that is wrong with a file, and the field in which it stands.
#[derive(Clone, Copy, Debug, Drop)]
pub struct Damage {
    pub wrong: Wrong,
    /// The field's first byte, counted from the front of the file.
    pub at: usize,
    pub field: &'static str,
}

/// Why reading ended.
#[derive(Clone, Copy, Debug, Drop)]
pub enum Stop {
    Memory,
    Damaged(Damage),
}

impl From<AllocError> for Stop {
    ghost from_gives = { λ _ given. given ≡ stop.Memory };

    fn from(_: AllocError) -> Stop {
        Stop::Memory
    }
}

impl<T: Drop> From<AllocFailed<T>> for Stop {
    ghost from_gives = { λ _ given. given ≡ stop.Memory };

    fn from(_: AllocFailed<T>) -> Stop {
        Stop::Memory
    }
}

// Of a file whose parts were shown without a fault, so that there is no place.
fn unplaced(wrong: Wrong) -> Stop
    ensures { IsDamage wrong 0 (codes "the file") result }
{
    Stop::Damaged(Damage {
        wrong,
        at: 0,
        field: "the file",
    })
}

impl From<FileFault> for Stop {
    ghost from_gives = { λ fault given. IsUnplaced fault given };

    fn from(fault: FileFault) -> Stop {
        match fault {
            FileFault::Memory | FileFault::Device => Stop::Memory,
            FileFault::Magic => unplaced(Wrong::OtherMagic),
            FileFault::Truncated => unplaced(Wrong::EndsEarly),
            FileFault::TrailingBytes => unplaced(Wrong::BytesBehind),
            FileFault::Seal => unplaced(Wrong::OtherSeal),
            FileFault::Block { group, column } => unplaced(Wrong::NoBlock { group, column }),
            FileFault::Header => unplaced(Wrong::Header),
            FileFault::Limit => unplaced(Wrong::Limit),
        }
    }
}
