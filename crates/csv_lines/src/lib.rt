//! Where the records of a CSV file are, by its lines, and how a field is shown in a message.
#![tactic(auto)]

mod front;
mod line;
mod records;
mod shown;

pub use line::line_of;
pub use records::record_at;
pub use shown::shown_field;
