//! Why reading stops.
ghost use Rattle.sql_expressions.specs.declared.stop.Stop.TheVariants.{Memory};
ghost use Rattle.std.specs.Prelude.{◌≡◌};

use std::alloc::AllocError;

/// Why the tokens that are left aren't read.
#[derive(Clone, Copy)]
pub enum Stop {
    Memory,
    /// The tree is too deep, or too many are open.
    TooDeep,
    /// A token isn't expected. So many tokens are left where it stands, itself among them.
    At(usize),
}

impl From<AllocError> for Stop {
    ghost from_gives = { λ _ e. e ≡ Memory };

    fn from(_error: AllocError) -> Stop {
        Stop::Memory
    }
}
