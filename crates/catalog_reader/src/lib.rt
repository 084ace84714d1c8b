//! Reads a catalogue from its text: each line by itself, the tables that the lines declare
//! together, and one fact table with its dimensions of these.
#![tactic(auto)]

mod catalog_line;
mod catalog_tables;
mod reading;

pub use reading::read_catalog;
