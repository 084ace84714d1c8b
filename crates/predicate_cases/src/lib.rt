//! Cases of conditions that stand on blocks.
#![tactic(auto)]

mod blocks_of;
mod kept;
mod predicates;

pub use predicates::show_predicates;
