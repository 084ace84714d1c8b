//! Aggregates as running states: how the state of a list grows by vectors and merges with others, for
//! one list and for a column of groups.
#![tactic(auto)]

mod accumulator;
mod any_acc;
mod cell;
mod cells;
mod count_acc;
mod distinct_acc;
mod extreme_acc;
mod ordered_states;
mod state_column;
mod sum_acc;

pub use accumulator::Accumulator;
pub use aggregate_states::{AggFault, Group, State, owned, plain_ints, position, value_at};
pub use any_acc::AnyAcc;
pub use count_acc::CountAcc;
pub use distinct_acc::DistinctAcc;
pub use extreme_acc::{ExtremeAcc, FromGreatest, FromLeast, MaxAcc, MinAcc, Side};
pub use ordered_states::OrderedStates;
pub use state_column::StateColumn;
pub use sum_acc::SumAcc;
