//! Why bytes are no file, and why a file is not written.
ghost use Rattle.std.specs.Prelude.{◌≡◌};
ghost use Rattle.fragment_file.specs.Fault.{fault_of, number_of};
ghost use Rattle.fragment_file.specs.declared.fault.FileFault.TheVariants.{Device, Memory};

use std::alloc::{AllocError, AllocFailed};
use thiserror::Error;
use wire::{DeviceFault, WireFault};

/// Why bytes are no file, or why a file is not written: the first obstacle from front to back.
#[derive(Clone, Copy, Debug, Drop, Error)]
pub enum FileFault {
    #[error("out of memory")]
    Memory,
    #[error("no file of this kind and of a known version")]
    Magic,
    #[error("the bytes end within a field")]
    Truncated,
    #[error("bytes stand behind the seal")]
    TrailingBytes,
    #[error("the seal does not fit the bytes")]
    Seal,
    /// Groups and columns count from 0.
    #[error("the block of column {column} in row group {group} is ill-formed")]
    Block { group: u64, column: u64 },
    #[error("an ill-formed header, or another number of rows in a row group")]
    Header,
    #[error("a length or a number is over its limit")]
    Limit,
    #[error("the device failed")]
    Device,
}

impl FileFault {
    /// The error code.
    pub fn number(&self) -> u8
        ensures { result ≡ number_of self.now }
    {
        match self {
            FileFault::Memory => 0,
            FileFault::Magic => 1,
            FileFault::Truncated => 2,
            FileFault::TrailingBytes => 3,
            FileFault::Seal => 4,
            FileFault::Block { .. } => 5,
            FileFault::Header => 6,
            FileFault::Limit => 7,
            FileFault::Device => 8,
        }
    }
}

impl From<AllocError> for FileFault {
    ghost from_gives = { λ _ given. given ≡ Memory };

    fn from(_: AllocError) -> FileFault {
        FileFault::Memory
    }
}

impl<T: Drop> From<AllocFailed<T>> for FileFault {
    ghost from_gives = { λ _ given. given ≡ Memory };

    fn from(_: AllocFailed<T>) -> FileFault {
        FileFault::Memory
    }
}

impl From<WireFault> for FileFault {
    ghost from_gives = { λ fault given. given ≡ fault_of fault };

    fn from(fault: WireFault) -> FileFault {
        match fault {
            WireFault::Magic => FileFault::Magic,
            WireFault::Truncated => FileFault::Truncated,
            WireFault::NotUtf8 => FileFault::Header,
            WireFault::TrailingBytes => FileFault::TrailingBytes,
            WireFault::Seal => FileFault::Seal,
        }
    }
}

impl From<DeviceFault> for FileFault {
    ghost from_gives = { λ _ given. given ≡ Device };

    fn from(_: DeviceFault) -> FileFault {
        FileFault::Device
    }
}
