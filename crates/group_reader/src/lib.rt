//! The row groups of a file one after the other, from any reader.
#![tactic(auto)]

mod ending;
mod fields;
mod front;
mod groups;
mod laws;
mod numbers;
mod payload;
mod reader;
mod source;
mod standing;

pub use laws::{row_groups_in_turn_are_the_file, streams_are_files};
pub use reader::GroupReader;
