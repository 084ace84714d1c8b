//! Tests that data can't say: damage at every byte of an answer, reports on writers that are full,
//! and fields of texts.
#![tactic(auto)]

#[cfg(test)]
mod counting;
#[cfg(test)]
mod damage_tests;
#[cfg(test)]
mod printing_tests;
#[cfg(test)]
mod writer_tests;
