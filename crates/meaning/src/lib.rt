//! What a query over a star of tables means, what each fragment of the fact table answers, and how
//! answers combine.
//!
//! The types are plain data. Contracts see a `Text` as its bytes, a `Sequence` as its list and a
//! `Boxed` as its part. `specs/` has the definitions, and `proofs/` lemmas on them that the crates
//! above share. The theorems are the crate `meaning_laws`.
#![tactic(auto)]

mod answer;
mod boxed;
mod catalog;
mod cut;
pub mod expr;
mod joined_row;
mod limits;
mod name;
mod outcome;
pub mod plan;
mod reserved;
mod sequence;
mod table;
mod text;
mod value;
mod vector_length;

pub use answer::{Answer, Body, Cell, RowFault, Statistics};
pub use boxed::Boxed;
pub use catalog::{Catalog, CatalogFault, Column, Dimension, Table};
pub use cut::{Cut, CutFault};
pub use expr::{ArithmeticOperator, Arm, ComparisonOperator, Expr};
pub use joined_row::{JoinedRow, joined_value, value_at};
pub use limits::{
    MAX_AGGREGATES, MAX_COLUMNS, MAX_DIMENSIONS, MAX_FRAGMENTS, MAX_JOINS, MAX_KEYS,
    MAX_NAME_BYTES, MAX_QUERY_BYTES, MAX_ROWS, MAX_TEXT_BYTES, MAX_VECTOR_ROWS, ROW_GROUP_ROWS,
};
pub use name::is_name;
pub use outcome::{Fault, Outcome, Truth};
pub use plan::{
    Aggregate, AggregateKind, ColumnUse, GroupingKey, Item, Join, JoinType, OrderKey, Plan,
    TableUse,
};
pub use sequence::Sequence;
pub use table::TableFault;
pub use text::{Text, text_of};
pub use value::{ColType, Row, Value, ValueRef, compare_lent, type_code};
pub use vector_length::is_vector_length;
