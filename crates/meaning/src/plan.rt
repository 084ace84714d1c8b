//! A query with its names looked up.

use crate::expr::Expr;
use crate::sequence::Sequence;
use crate::text::Text;
use crate::value::ColType;

/// A column that a plan reads. A worker finds it by this number, with this name and type.
#[derive(Drop)]
pub struct ColumnUse {
    pub column: usize,
    pub name: Text,
    pub col_type: ColType,
}

/// A table that a plan reads.
#[derive(Drop)]
pub struct TableUse {
    pub name: Text,
    pub columns: Sequence<ColumnUse>,
}

/// What becomes of a fact row that meets no row of a join's dimension: an inner join drops it, a left
/// join keeps it, with NULL in each of the dimension's columns.
#[derive(Clone, Copy, PartialEq, Eq, Drop)]
pub enum JoinType {
    Inner,
    Left,
}

/// A dimension joined to the fact table: the fact's column `foreign` equals the dimension's column
/// `key`.
#[derive(Drop)]
pub struct Join {
    pub dim: TableUse,
    pub join_type: JoinType,
    pub foreign: usize,
    pub key: usize,
}

/// A grouping expression. An answer's shape shows its type.
#[derive(Drop)]
pub struct GroupingKey {
    pub expr: Expr,
    pub col_type: ColType,
}

/// The aggregate functions. `CountRows` is COUNT(*), `CountDistinct` COUNT(DISTINCT ..) and
/// `SumDistinct` SUM(DISTINCT ..).
#[derive(Clone, Copy, PartialEq, Eq, Drop)]
pub enum AggregateKind {
    CountRows,
    Count,
    Sum,
    Min,
    Max,
    Avg,
    CountDistinct,
    SumDistinct,
}

/// An aggregate. The argument of `CountRows` is a literal that is not NULL. An answer's shape shows
/// the type.
#[derive(Drop)]
pub struct Aggregate {
    pub kind: AggregateKind,
    pub argument: Expr,
    pub col_type: ColType,
}

/// What is printed in one column: its name in the header, and an expression over the group.
#[derive(Drop)]
pub struct Item {
    pub header: Text,
    pub expr: Expr,
}

/// An item that the rows are ordered by.
#[derive(Drop)]
pub struct OrderKey {
    pub item: usize,
    pub descending: bool,
}

/// A query with its names looked up. The items of a plain query, one with no groups, are its keys.
#[derive(Drop)]
pub struct Plan {
    /// The canonical text, by which two jobs are distinguished.
    pub text: Text,
    pub fact: TableUse,
    pub joins: Sequence<Join>,
    /// The conditions of ON and WHERE other than the joins' equalities, from left to right.
    pub conjuncts: Sequence<Expr>,
    pub keys: Sequence<GroupingKey>,
    pub aggs: Sequence<Aggregate>,
    pub having: Option<Expr>,
    pub items: Sequence<Item>,
    pub order: Sequence<OrderKey>,
    pub limit: Option<u64>,
    pub plain: bool,
    /// Whether equal rows are shown once, as SELECT DISTINCT asks.
    pub distinct: bool,
}
