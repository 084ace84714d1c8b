//! One fragment's own answer to a query, and the dimensions that fragments are answered over.
#![tactic(auto)]

mod answering;
mod batches;
mod dim_condition;
mod dimensions;
mod expressions;
mod group_marks;
mod joining;
mod lanes;
mod packing;
mod progress;
mod rows;

pub use answering::{work, work_from, work_over};
pub use dimensions::Dimensions;
pub use job_files::WorkFault;
