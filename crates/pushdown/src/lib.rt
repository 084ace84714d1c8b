//! Which conditions can be evaluated ahead of the joins: on one dimension's rows, or on the values of
//! one column of the fact.
#![tactic(auto)]

mod condition;
mod fact_column;
mod naming;

pub use condition::{Source, can_push_down, dimension_of};
pub use fact_column::fact_column_of;
pub use naming::names_fact_column;
