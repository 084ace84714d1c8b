//! Entries in ascending order, and a code for each row.

pub(crate) mod cell;
pub(crate) mod encode;
pub(crate) mod entries;
pub(crate) mod least_size;
pub(crate) mod numbers;
pub(crate) mod of_cells;
pub(crate) mod slots;
pub(crate) mod within;
