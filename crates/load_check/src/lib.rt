//! The command `check`: the first fault that a load of a folder would have, with the line of the file.
#![tactic(auto)]

mod advice;
mod catalog_fault;
mod checking;
mod header;
mod keys;
mod sentence;
mod site;
mod telling;

pub use checking::{Unfit, first_unfit};
pub use telling::{Told, check, first_fault};
