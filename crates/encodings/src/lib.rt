//! Blocks, as they are written: the kind in which the values of a column take the fewest bytes, and
//! their bytes in it.
#![tactic(auto)]

mod choice;
mod choosing;
mod dictionary;
mod encoded;
mod fault;
mod frame;
mod numbers;
mod plain;
mod runs;

pub use bit_packing::unpack;
pub use blocks::{BlockView, DictionaryView, Kind, RunsView, VectorBuf};
pub use choosing::choose;
pub use encoded::{Encoded, encode, encode_as};
pub use fault::EncodeFault;
