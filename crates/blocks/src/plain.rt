//! Values that stand one by one.

pub mod check;
pub mod read;
pub mod texts;
pub mod values;
