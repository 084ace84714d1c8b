//! Keys of several columns, kept column by column, so that no key takes memory of its own; and
//! whether two values are one.
#![tactic(auto)]

mod comparing;
mod filling;
mod key_columns;
mod refilling;
mod same_bytes;

pub use comparing::{is_null, is_number, is_same, is_text, order_of};
pub use key_columns::KeyColumns;
pub use same_bytes::are_same_bytes;
