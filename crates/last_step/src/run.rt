//! A row with the number of its repeats.

use meaning::Row;

/// A row that stands so many times in the answer.
#[derive(Drop)]
pub struct Run {
    pub row: Row,
    pub times: u64,
}
