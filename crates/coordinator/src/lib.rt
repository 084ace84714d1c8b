//! The coordinator: what gathers answers, and a whole query in memory, from a catalogue, CSV files
//! and a query's text to what is printed.
#![tactic(auto)]

mod answering;
mod csvs;
mod fault;
mod fragments;
mod planning;
mod sources;
mod table_files;
mod tables;

pub use answering::{answer_plan, whole};
pub use fault::WholeFault;
pub use gathering::{
    Absorbed, Ended, Gather, GatherFault, PrintFault, Report, answers_decide, states_join,
};
pub use schedules::{Event, run_world};
pub use sources::Sources;
