//! A coordinator that may be stopped anywhere: each answer that it took is in a journal on a disk.
#![tactic(auto)]

mod appending;
mod clearing;
mod durable;
mod fault;
mod laws;
mod opening;
mod reading;

pub use disk::{Disk, DiskFault};
pub use durable::DurableGather;
pub use fault::JournalFault;
pub use laws::{lean_journals_open, one_state, runs_hold_acknowledged};
