//! Whether two plans are equal.
#![tactic(auto)]

mod expressions;
mod plans;

pub use plans::is_same_plan;
