//! Loops over lanes by the processor's vectors, eight lanes at a time.
#![tactic(auto)]

mod adding;
mod comparing;
mod looking;
mod places;
mod positions;

pub use adding::{add_ints, sub_ints};
pub use comparing::{compare_ints, compare_ints_to};
pub use positions::mask_to_places;
