//! Tests of columns as blocks of each kind, and of loading, that data can't say: many sizes and
//! patterns, readers that give little at a time or fail, and dimensions of the most rows.
#![tactic(auto)]

#[cfg(test)]
mod block_sizes;
#[cfg(test)]
mod readers;
