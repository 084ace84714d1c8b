//! Entries in ascending order, and a code for each row.

pub(crate) mod check;
pub(crate) mod read;
pub(crate) mod view;

pub use view::DictionaryView;
