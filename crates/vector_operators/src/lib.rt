//! Operators over vectors under a selection, and the least fault.
#![tactic(auto)]

mod broadcast;
mod calculating;
mod choice;
mod comparing;
mod fault;
mod given;
mod lane_set;
mod laws;
mod logic;

pub use calculating::{arithmetic, minus};
pub use choice::{coalesce, put};
pub use comparing::{compare, is_null, like, one_truth};
pub use fault::{Fault1, Faulted};
pub use given::{Given, lent_column, repeated};
pub use lane_set::LaneSet;
pub use laws::least_is_held;
pub use logic::{and, not, not_if, or, unless_false, unless_true, where_null, where_true};
