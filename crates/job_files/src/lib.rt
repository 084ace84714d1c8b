//! The files that a job is answered over: a fragment's, and the dimensions of its joins in memory.
#![tactic(auto)]

mod decoding;
mod dimensions;
mod fault;
mod lending;
mod refusals;

pub use dimensions::{Dimension, open_dimensions};
pub use fault::WorkFault;
pub use lending::lend_files;
pub use refusals::{check_length, judge_fragment};
