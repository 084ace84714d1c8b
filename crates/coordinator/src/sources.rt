//! What a query is answered over, beside the catalogue.

use meaning::Cut;

/// The tables' CSV files, and how they are gone through.
#[derive(Clone, Copy)]
pub struct Sources<'a> {
    /// The bytes of files by the names of their tables. Those are loaded that the plan names.
    pub csvs: &'a [(&'a str, &'a [u8])],
    /// How many of the fact's rows each fragment has.
    pub cut: &'a Cut,
    /// How many values a vector has, from 1 to 4,096. No result depends on it.
    pub vector_len: usize,
}
