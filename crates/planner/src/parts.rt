//! The parts of a plan.
use meaning::{Aggregate, Expr, GroupingKey, Item, Join, OrderKey, Sequence, TableUse};

/// The tables, and what is asked of their rows.
#[derive(Drop)]
pub struct Tables {
    pub fact: TableUse,
    pub joins: Sequence<Join>,
    pub conjuncts: Sequence<Expr>,
}

/// What is shown of the groups.
#[derive(Drop)]
pub struct Shown {
    pub items: Sequence<Item>,
    pub having: Option<Expr>,
    pub order: Sequence<OrderKey>,
}

/// The groups, and what is shown of them.
#[derive(Drop)]
pub struct Grouped {
    pub keys: Sequence<GroupingKey>,
    pub aggs: Sequence<Aggregate>,
    pub plain: bool,
    pub shown: Shown,
}
