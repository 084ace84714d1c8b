//! Tests of reading row groups in turn, that data can't say: readers that give little at a time or
//! fail, and damaged files.
#![tactic(auto)]

#[cfg(test)]
mod tests;
