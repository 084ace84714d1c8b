//! Tables from CSV: the records that `csv` reads, judged and put into columns.
#![tactic(auto)]

mod ahead;
mod blocks;
mod counted;
mod counting;
mod dimension;
mod fact;
mod fault;
mod field;
mod header;
mod in_order;
mod keys;
mod record;
mod record_state;
mod rows;
mod source;
mod table;

pub use counting::{count_rows, next_byte, read_block};
pub use dimension::{dimension_named, has_dim, load_dim, load_dimension};
pub use fact::{FactReader, load_fact, open_fact};
pub use fault::LoadFault;
pub use record_state::RecordState;
pub use source::{csv_reader, next_record};
