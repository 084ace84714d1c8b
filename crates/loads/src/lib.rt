//! The command `load` over a folder: CSV files become files of columns.
#![tactic(auto)]

mod counting;
mod fragments;
mod load;
mod loading;
mod ready;
mod saving;
mod target;

pub use counting::{counted_rows, even_cut};
pub use load::load_tables;
