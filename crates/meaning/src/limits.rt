//! The limits of names, tables, cuts and queries. `specs/Limits.antt` has the same numbers for
//! contracts.

/// The most bytes of a name; a name has at least one.
pub const MAX_NAME_BYTES: usize = 64;

/// The most columns of a table; a table has at least one.
pub const MAX_COLUMNS: usize = 64;

/// The most dimensions of a catalogue.
pub const MAX_DIMENSIONS: usize = 16;

/// The most bytes of a text value.
pub const MAX_TEXT_BYTES: usize = 65_535;

/// The most fragments of a cut; a cut has at least one.
pub const MAX_FRAGMENTS: usize = 4_096;

/// The most rows of a fragment or of a dimension.
pub const MAX_ROWS: u32 = 1_048_576;

/// The rows of each row group of a file but the last.
pub const ROW_GROUP_ROWS: usize = 8_192;

/// The most rows of a vector; a vector has at least one.
pub const MAX_VECTOR_ROWS: usize = 4_096;

/// The most bytes of a query's text, and of its canonical text.
pub const MAX_QUERY_BYTES: usize = 65_535;

/// The greatest depth of a query's tree.
pub const MAX_TREE_DEPTH: usize = 128;

/// The most brackets, CASE, NOT and unary minus that are open together in a query's text.
pub const MAX_OPEN: usize = 256;

/// The most joins of a query.
pub const MAX_JOINS: usize = 16;

/// The most grouping keys of a query.
pub const MAX_KEYS: usize = 64;

/// The most different aggregates of a query.
pub const MAX_AGGREGATES: usize = 64;
