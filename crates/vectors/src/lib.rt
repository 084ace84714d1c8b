//! Short pieces of columns, and ascending positions in them.
#![tactic(auto)]

mod batch;
mod ints;
mod nulls;
mod selection;
mod texts;
mod truths;
mod vector;

pub use batch::{Batch, BatchColumn, ColumnReference};
pub use ints::{IntCells, Ints};
pub use nulls::Nulls;
pub use selection::Selection;
pub use texts::{TextCells, Texts};
pub use truths::{TruthCells, Truths};
pub use vector::Vector;
