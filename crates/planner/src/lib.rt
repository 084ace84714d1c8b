//! Planning: from a query's tree to a plan, with every name looked up.
#![tactic(auto)]

mod groups;
mod laws;
mod parts;
mod planning;
mod query_fault;
mod query_text;
mod reading;
mod tables;

pub use laws::{
    comma_is_join, forms_agree, groups_are_typed, plans_agree, plans_are_declared,
    plans_are_limited, plans_are_sound, plans_are_typed, plans_mean, plans_serve,
};
pub use planner_expressions::PlanFault;
pub use planning::plan;
pub use query_fault::QueryFault;
pub use query_text::plan_query;
