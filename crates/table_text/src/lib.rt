//! The text of what stands in the file of a table or of a cut.
#![tactic(auto)]

mod blocks_shown;
mod cuts;
mod header;
mod tables;

pub use blocks_shown::take_block;
pub use cuts::show_cut_file;
pub use header::{show_columns, show_front};
pub use tables::{show_table_file, take_group_rows};
