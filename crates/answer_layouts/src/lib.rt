//! The fields of answers and states read from front to back. Groups are packed and held against the
//! plan as they are read, so that no more than one of them stands in memory unpacked.
#![tactic(auto)]

mod body;
mod buffers;
mod checks;
mod findings;
mod layout;
mod state_layout;
mod states;

pub use findings::Findings;
pub use layout::{Layout, take_layout};
pub use state_layout::{StateLayout, take_state_layout};
