//! A frame of reference: a base, and an offset of a fixed width in bits for each row.

pub mod bounds;
pub mod encode;
