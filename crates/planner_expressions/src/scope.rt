//! What the names of a query may mean.
use meaning::{ColType, JoinType, Sequence, Text};

/// A column of a table of FROM.
#[derive(Drop)]
pub struct ScopeColumn {
    /// The name that its table goes by.
    pub owner: Text,
    /// Which of the dimensions of FROM has it; none where the fact has it.
    pub join: Option<usize>,
    /// Which of its table's columns it is.
    pub column: usize,
    /// It is its dimension's key.
    pub is_key: bool,
    pub name: Text,
    pub col_type: ColType,
}

/// A dimension of FROM: the name that it goes by, the name that the catalogue gives it, which of its
/// columns is its key, and how it is joined.
#[derive(Drop)]
pub struct Dim {
    pub called: Text,
    pub name: Text,
    pub key: usize,
    pub join_type: JoinType,
}

/// How often a table is named.
#[derive(Clone, Copy)]
pub enum Times {
    Never,
    Once,
    Often,
}

/// The tables of FROM: the names that they go by, how often the fact is named, the dimensions, and
/// all columns of all tables.
#[derive(Drop)]
pub struct Scope {
    pub names: Sequence<Text>,
    pub fact: Times,
    pub dims: Sequence<Dim>,
    pub columns: Sequence<ScopeColumn>,
}
