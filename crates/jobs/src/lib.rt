//! One fragment's answer, and answers gathered, over the folder of files that tables were loaded
//! into.
#![tactic(auto)]

mod gather_command;
mod job;
mod journals;
mod laws;
mod passed_over;
mod saving;
mod takes_answers;
mod taking;
mod working;

pub use gather_command::gather_answers;
pub use job::plan_of;
pub use laws::{answers_are_joined, own_answers_mean};
pub use takes_answers::{TakeFault, TakesAnswers};
pub use working::answer_fragment;
