//! Blocks, as they are read: the values of one column in up to 8,192 rows, in bytes of one of four
//! kinds. A view is made only of bytes that are a block.
#![tactic(auto)]

mod block_rows;
mod cells;
mod dictionary;
mod frame;
mod int_buf;
mod kind;
mod numbers;
mod plain;
mod runs;
mod vector_buf;
mod view;

pub use dictionary::DictionaryView;
pub use int_buf::IntBuf;
pub use kind::Kind;
pub use runs::RunsView;
pub use vector_buf::{Lanes, VectorBuf};
pub use view::BlockView;
