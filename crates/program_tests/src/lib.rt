//! Tests that data can't say: folders and outputs that fail.
#![tactic(auto)]

#[cfg(test)]
mod failing_tests;
#[cfg(test)]
mod memory_folder;
