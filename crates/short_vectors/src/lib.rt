//! Vectors of a few lanes, for tests.
#![tactic(auto)]

mod lanes;

pub use lanes::{NULL, plain, twice, vector_of};
