//! What is wrong with the names of CSV files and of their columns, and with a record that is no row, in
//! sentences.
#![tactic(auto)]

mod endings;
mod flaws;
mod headers;
mod records;

pub use endings::advice_by_ending;
pub use headers::report_file;
pub use records::report_place;
