//! A catalogue for the CSV files of a folder, made from what stands in them.
#![tactic(auto)]

mod agreeing;
mod checking;
mod choosing;
mod evidence;
mod fault;
mod findings;
mod keys;
mod listing;
mod looks;
mod making;
mod naming;
mod noting;
mod paths;
mod reading;
mod reporting;
mod telling;
mod writing;

pub use checking::{check_catalog, check_dimension, check_fact};
pub use fault::{ColumnFault, InitFault, PathFault};
pub use listing::{CsvFile, Listing};
pub use making::{guess_catalog, make_catalog};
