//! What stands in a file that the program writes, as text, and where a damaged one stops being such.
#![tactic(auto)]

mod csv_rows;
mod file_kind;
mod showing;

pub use showing::{ShowOptions, show};
