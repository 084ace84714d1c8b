//! Typed columns with a NULL mask.
#![tactic(auto)]

mod cells;
mod column;
mod fault;
mod text_list;

pub use column::{Column, LentCells};
pub use fault::ColumnFault;
pub use text_list::TextList;
