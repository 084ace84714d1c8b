//! A query over a folder, and how it is answered.
use meaning::Catalog;

/// What is asked of a folder that wasn't read yet.
#[derive(Clone, Copy)]
pub struct Request<'a> {
    /// The folder's name.
    pub directory: &'a str,
    /// The query's text.
    pub query: &'a str,
    /// How many of the fact's rows a fragment has at most.
    pub rows: u32,
    /// How many values a vector has.
    pub vector: u32,
}

/// A query over a folder's CSV files, and how it is answered.
#[derive(Clone, Copy)]
pub struct Question<'a> {
    /// The folder's name.
    pub directory: &'a str,
    /// What the folder's catalogue declares.
    pub catalog: &'a Catalog,
    /// The query's text.
    pub query: &'a str,
    /// How many of the fact's rows a fragment has at most.
    pub rows: u32,
    /// How many values a vector has.
    pub vector: u32,
}
