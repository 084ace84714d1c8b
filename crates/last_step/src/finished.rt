//! What the last step gives.

use meaning::{Row, Sequence};

/// The rows in their order, or the number of the first fault over groups.
#[derive(Drop)]
pub enum Finished {
    Rows(Sequence<Row>),
    Fault(u8),
}

/// The text of a header and the rows in their order, or the number of the first fault over groups.
#[derive(Drop)]
pub enum FinishedText {
    Rows(Vec<u8>),
    Fault(u8),
}
