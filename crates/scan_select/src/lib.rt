//! Scans: the rows of a file, vector by vector.
#![tactic(auto)]

mod buffers;
mod fault;
mod file_groups;
mod laws;
mod marked;
mod read_groups;
mod row_groups;
mod scan;
mod selecting;

pub use block_predicates::{BlockPredicate, EntryMarks};
pub use fault::ScanFault;
pub use file_groups::FileGroups;
pub use laws::{batches_are_rows, batches_are_typed, conditions_judge};
pub use marked::{mark_conditions, select_marked};
pub use row_groups::{RowGroups, read_out};
pub use scan::{Scan, ScanBatch, Standing};
pub use selecting::select;
