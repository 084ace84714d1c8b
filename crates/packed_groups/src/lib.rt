//! Groups in few bytes, as they are kept where many stand in memory and few are looked at.
//!
//! `specs/` has their form, which stands in memory alone and in no file.
#![tactic(auto)]

mod group;
mod packed;
mod parts;
mod small;
mod state;
mod value;

pub use packed::{PackedGroups, Unpacking};
