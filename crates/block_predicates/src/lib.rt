//! Conditions on one column, evaluated on the entries of a dictionary or on the values of runs in
//! place of the rows.
#![tactic(auto)]

mod entries;
mod evaluating;
mod keeping;
mod lanes;
mod marks;
mod predicate;
mod spreading;

pub use marks::EntryMarks;
pub use predicate::BlockPredicate;
