//! Groups: the set of the keys, with the states of each one's rows.
#![tactic(auto)]

mod counts;
mod group_slice;
mod handing_out;
mod int_order;
mod key_order;
mod laws;
mod ordered_groups;
mod state_columns;
mod table;
mod unmade_groups;

pub use group_slice::GroupSlice;
pub use laws::{says_as, tables_grow};
pub use ordered_groups::{OrderedGroups, spare_groups};
pub use table::GroupTable;
