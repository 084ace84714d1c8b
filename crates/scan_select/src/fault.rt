//! Why there is no scan.
ghost use Rattle.std.specs.Prelude.{◌≡◌};
ghost use Rattle.scan_select.specs.Scanned.{number_of};
ghost use Rattle.scan_select.specs.declared.fault.ScanFault.TheVariants.{Memory};

use std::alloc::AllocError;
use thiserror::Error;

/// Why there is no scan.
#[derive(Debug, Drop, Error)]
pub enum ScanFault {
    #[error("out of memory")]
    Memory,
    #[error("a vector has 1 to 4,096 rows")]
    VectorLength,
}

impl ScanFault {
    /// The error code.
    pub fn number(&self) -> u8
        ensures { result ≡ number_of self.now }
    {
        match self {
            ScanFault::Memory => 0,
            ScanFault::VectorLength => 1,
        }
    }
}

impl From<AllocError> for ScanFault {
    ghost from_gives = { λ _ given. given ≡ Memory };

    fn from(_: AllocError) -> ScanFault {
        ScanFault::Memory
    }
}
