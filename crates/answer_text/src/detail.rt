//! How much is shown of an answer's groups.

/// How much is shown of an answer's groups.
#[derive(Clone, Copy, PartialEq, Eq)]
pub enum Detail {
    Nothing,
    /// How many there are.
    Count,
    /// Each group with its statistics.
    Groups,
}
