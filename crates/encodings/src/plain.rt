//! Values that stand one by one.

pub mod encode;
