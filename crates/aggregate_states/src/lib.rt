//! What is known of a list of entries: states of aggregates and what they evaluate to, the parts of
//! which accumulators make them, and the groups that hold them.
#![tactic(auto)]

mod end;
mod entries;
mod evaluating;
mod extreme;
mod fault;
mod group;
mod lanes;
mod one_group;
mod state;
mod tally;
mod value;

pub use end::{End, is_null};
pub use extreme::{Extreme, Found, found_in_states, found_selected};
pub use fault::AggFault;
pub use group::{Group, Groups};
pub use lanes::{owned, plain_ints, position, selected_value, value_at};
pub use one_group::one_group_index;
pub use state::State;
pub use tally::Tally;
pub use value::{column_value, integer_of, tally_value, value_of};
