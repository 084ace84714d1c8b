//! A position with what it is sorted by first.

/// A position with the first value that ORDER BY names there: NULL, integers and texts by their
/// rank, and the number of an integer. Beside one another in memory, so that a sort seldom looks
/// into columns.
#[derive(Clone, Copy)]
pub struct Keyed {
    pub number: i64,
    pub position: u32,
    pub rank: u8,
}
