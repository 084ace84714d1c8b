//! What the commands come to, one behind the other.
#![tactic(auto)]

mod laws;

pub use laws::runs_mean;
