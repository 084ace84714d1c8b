//! The sets of values off which COUNT(DISTINCT ..) and SUM(DISTINCT ..) are read, of all groups in one
//! list.
#![tactic(auto)]

mod entry;
mod hints;
mod int_slot;
mod int_table;
mod marks;
mod ordered_sets;
mod sets;
mod table_size;

pub use ordered_sets::OrderedSets;
pub use sets::Sets;
