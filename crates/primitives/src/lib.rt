//! Expressions over vectors: what a tree gives on the selected rows of a batch, and the least
//! fault; and the rows of which a condition is TRUE.
#![tactic(auto)]

mod evaluation;
mod narrowing;
mod nodes;

pub use evaluation::{eval_lanes, eval_vec};
pub use narrowing::keep_where;
pub use vector_operators::Fault1;
