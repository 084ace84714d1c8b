//! Tests of aggregates, of lists and by group.
#![tactic(auto)]

#[cfg(test)]
mod aggregate_tests;
#[cfg(test)]
mod column_tests;
#[cfg(test)]
mod text_tests;
