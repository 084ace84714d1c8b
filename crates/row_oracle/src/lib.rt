//! The oracle that the cases hold vectors against: an expression on one joined row, node by node,
//! as its definition says. Queries themselves are evaluated over vectors, in `primitives`.
#![tactic(auto)]

mod eval;
#[cfg(test)]
mod eval_tests;
mod like;
mod operators;

pub use eval::eval_row;
