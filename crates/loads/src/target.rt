//! What is loaded, and where its files go.
use meaning::Catalog;

/// What is loaded, and where its files go.
#[derive(Clone, Copy)]
pub struct Target<'a> {
    /// The folder's name.
    pub directory: &'a str,
    /// The number of the load, which each file carries.
    pub load: u64,
    pub catalog: &'a Catalog,
}
