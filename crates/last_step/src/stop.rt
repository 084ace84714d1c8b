//! Why a group has no row.
ghost use Rattle.std.specs.Prelude.{◌≡◌};
ghost use Rattle.last_step.specs.declared.stop.Stop.TheVariants.{Memory};

use std::alloc::{AllocError, AllocFailed};

/// Why there are no rows: no memory, or a fault over a group by its number.
#[derive(Drop)]
pub enum Stop {
    Memory,
    Fault(u8),
}

impl From<AllocError> for Stop {
    ghost from_gives = { λ _ given. given ≡ Memory };

    fn from(_: AllocError) -> Stop {
        Stop::Memory
    }
}

impl<T: Drop> From<AllocFailed<T>> for Stop {
    ghost from_gives = { λ _ given. given ≡ Memory };

    fn from(_: AllocFailed<T>) -> Stop {
        Stop::Memory
    }
}
