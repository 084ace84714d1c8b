//! Cases of columns, blocks, files and loading.
#![tactic(auto)]

mod block_values;
mod column;
mod files;
mod lengths;
mod loading;
mod storage;
mod values;

pub use storage::show_storage;
