//! Copies of plans.
#![tactic(auto)]

mod expressions;
mod plans;

pub use plans::copy_plan;
