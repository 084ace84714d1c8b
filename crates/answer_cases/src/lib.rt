//! Kinds of cases: answers and states as bytes, coordinators that take them one by one, and queries over
//! any cut.
#![tactic(auto)]

mod answers;
mod failing_writers;
mod gathers;
mod jobs;
mod shapes;
mod wholes;

pub use answers::{show_answer, show_state};
pub use gathers::{show_gathering, show_printed_report, show_refusal};
pub use jobs::{NO_JOB, job_of, planned_job_of};
pub use wholes::show_whole_query;
