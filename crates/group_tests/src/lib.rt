//! Tests of tables of groups and the last step.
#![tactic(auto)]

#[cfg(test)]
mod finish_tests;
#[cfg(test)]
mod groups;
#[cfg(test)]
mod lanes;
#[cfg(test)]
mod plans;
#[cfg(test)]
mod rows;
#[cfg(test)]
mod table_tests;
#[cfg(test)]
mod tables;
