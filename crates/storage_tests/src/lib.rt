//! Tests of files and scans that data can't say: large tables, every byte damaged, and writers that
//! fail.
#![tactic(auto)]

#[cfg(test)]
mod batches;
#[cfg(test)]
mod damage;
#[cfg(test)]
mod files;
#[cfg(test)]
mod scans;
