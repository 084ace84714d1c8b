//! Gathering the answers of fragments, and reporting what they say together.
#![tactic(auto)]

mod batches;
mod cells;
mod changing;
mod combining;
mod fault;
mod gather;
mod joining;
mod laws;
mod lines;
mod live_table;
mod output;
mod packing;
mod report;
mod same_job;
mod totals;

pub use cells::Cells;
pub use fault::GatherFault;
pub use gather::{Absorbed, Gather};
pub use last_step::PrintFault;
pub use laws::{answers_decide, states_join};
pub use lines::{print_fault, print_fragments, print_row_fault};
pub use packing::{HeldBody, HeldCell};
pub use report::{Ended, Report};
