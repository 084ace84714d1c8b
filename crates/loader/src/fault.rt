//! Why a table is not loaded.
ghost use Rattle.std.specs.Prelude.{◌≡◌};
ghost use Rattle.loader.specs.Fault.{number_of};

use meaning::TableFault;
use std::alloc::{AllocError, AllocFailed};
use thiserror::Error;

/// Why a table is not loaded.
#[derive(Debug, Drop, Error)]
pub enum LoadFault {
    #[error("out of memory")]
    Memory,
    #[error("{0}")]
    Table(TableFault),
    /// The reader failed.
    #[error("the device failed")]
    Device,
}

impl LoadFault {
    /// The error code.
    pub fn number(&self) -> u8
        ensures { result ≡ number_of self.now }
    {
        match self {
            LoadFault::Memory => 0,
            LoadFault::Table(fault) => fault.number(),
            LoadFault::Device => 10,
        }
    }
}

impl From<AllocError> for LoadFault {
    ghost use Rattle.std.specs.Prelude.{◌≡◌};
    ghost use Rattle.loader.specs.declared.fault.LoadFault.TheVariants.{Memory};

    ghost from_gives = { λ _ given. given ≡ Memory };

    fn from(_: AllocError) -> LoadFault {
        LoadFault::Memory
    }
}

impl<T: Drop> From<AllocFailed<T>> for LoadFault {
    ghost use Rattle.std.specs.Prelude.{◌≡◌};
    ghost use Rattle.loader.specs.declared.fault.LoadFault.TheVariants.{Memory};

    ghost from_gives = { λ _ given. given ≡ Memory };

    fn from(_: AllocFailed<T>) -> LoadFault {
        LoadFault::Memory
    }
}

impl From<TableFault> for LoadFault {
    ghost use Rattle.std.specs.Prelude.{◌≡◌};
    ghost use Rattle.loader.specs.declared.fault.LoadFault.TheVariants.{Table};

    ghost from_gives = { λ fault given. given ≡ Table fault };

    fn from(fault: TableFault) -> LoadFault {
        LoadFault::Table(fault)
    }
}
