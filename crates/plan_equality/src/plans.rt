//! Whether two plans are equal.
ghost use Rattle.std.specs.Prelude.{◌≡◌, ◌↔◌, IsTrue};

use crate::expressions::{are_same_exprs, is_same_expr};
use meaning::{Aggregate, ColumnUse, Expr, GroupingKey, Item, Join, OrderKey, Plan, TableUse};

fn is_same_column(a: &ColumnUse, b: &ColumnUse) -> bool
    ensures { IsTrue result ↔ (a.now ≡ b.now) }
{
    a.column == b.column && a.name == b.name && a.col_type == b.col_type
}

fn are_same_columns(a: &[ColumnUse], b: &[ColumnUse]) -> bool
    ensures { IsTrue result ↔ (a.now ≡ b.now) }
{
    if a.len() != b.len() {
        return false;
    }
    for i in 0..a.len() {
        if !is_same_column(&a[i], &b[i]) {
            return false;
        }
    }
    true
}

fn is_same_table(a: &TableUse, b: &TableUse) -> bool
    ensures { IsTrue result ↔ (a.now ≡ b.now) }
{
    a.name == b.name && are_same_columns(a.columns.as_slice(), b.columns.as_slice())
}

fn is_same_join(a: &Join, b: &Join) -> bool
    ensures { IsTrue result ↔ (a.now ≡ b.now) }
{
    a.join_type == b.join_type
        && a.foreign == b.foreign
        && a.key == b.key
        && is_same_table(&a.dim, &b.dim)
}

fn are_same_joins(a: &[Join], b: &[Join]) -> bool
    ensures { IsTrue result ↔ (a.now ≡ b.now) }
{
    if a.len() != b.len() {
        return false;
    }
    for i in 0..a.len() {
        if !is_same_join(&a[i], &b[i]) {
            return false;
        }
    }
    true
}

fn is_same_key(a: &GroupingKey, b: &GroupingKey) -> bool
    ensures { IsTrue result ↔ (a.now ≡ b.now) }
{
    a.col_type == b.col_type && is_same_expr(&a.expr, &b.expr)
}

fn are_same_keys(a: &[GroupingKey], b: &[GroupingKey]) -> bool
    ensures { IsTrue result ↔ (a.now ≡ b.now) }
{
    if a.len() != b.len() {
        return false;
    }
    for i in 0..a.len() {
        if !is_same_key(&a[i], &b[i]) {
            return false;
        }
    }
    true
}

fn is_same_aggregate(a: &Aggregate, b: &Aggregate) -> bool
    ensures { IsTrue result ↔ (a.now ≡ b.now) }
{
    a.kind == b.kind && a.col_type == b.col_type && is_same_expr(&a.argument, &b.argument)
}

fn are_same_aggregates(a: &[Aggregate], b: &[Aggregate]) -> bool
    ensures { IsTrue result ↔ (a.now ≡ b.now) }
{
    if a.len() != b.len() {
        return false;
    }
    for i in 0..a.len() {
        if !is_same_aggregate(&a[i], &b[i]) {
            return false;
        }
    }
    true
}

fn is_same_item(a: &Item, b: &Item) -> bool
    ensures { IsTrue result ↔ (a.now ≡ b.now) }
{
    a.header == b.header && is_same_expr(&a.expr, &b.expr)
}

fn are_same_items(a: &[Item], b: &[Item]) -> bool
    ensures { IsTrue result ↔ (a.now ≡ b.now) }
{
    if a.len() != b.len() {
        return false;
    }
    for i in 0..a.len() {
        if !is_same_item(&a[i], &b[i]) {
            return false;
        }
    }
    true
}

fn is_same_having(a: &Option<Expr>, b: &Option<Expr>) -> bool
    ensures { IsTrue result ↔ (a.now ≡ b.now) }
{
    match (a, b) {
        (None, None) => true,
        (Some(a), Some(b)) => is_same_expr(a, b),
        _ => false,
    }
}

fn is_same_order_key(a: &OrderKey, b: &OrderKey) -> bool
    ensures { IsTrue result ↔ (a.now ≡ b.now) }
{
    a.item == b.item && a.descending == b.descending
}

fn are_same_order(a: &[OrderKey], b: &[OrderKey]) -> bool
    ensures { IsTrue result ↔ (a.now ≡ b.now) }
{
    if a.len() != b.len() {
        return false;
    }
    for i in 0..a.len() {
        if !is_same_order_key(&a[i], &b[i]) {
            return false;
        }
    }
    true
}

/// Whether rows are taken alike: the tables, the conditions, the keys and the aggregates.
fn is_same_front(a: &Plan, b: &Plan) -> bool
    ensures { IsTrue result ↔ ((a.now.fact ≡ b.now.fact) × (a.now.joins ≡ b.now.joins)
        × (a.now.conjuncts ≡ b.now.conjuncts) × (a.now.keys ≡ b.now.keys)
        × (a.now.aggs ≡ b.now.aggs)) }
{
    is_same_table(&a.fact, &b.fact)
        && are_same_joins(a.joins.as_slice(), b.joins.as_slice())
        && are_same_exprs(a.conjuncts.as_slice(), b.conjuncts.as_slice())
        && are_same_keys(a.keys.as_slice(), b.keys.as_slice())
        && are_same_aggregates(a.aggs.as_slice(), b.aggs.as_slice())
}

/// Whether groups are shown alike: HAVING, the items, their order, LIMIT and DISTINCT.
fn is_same_end(a: &Plan, b: &Plan) -> bool
    ensures { IsTrue result ↔ ((a.now.having ≡ b.now.having) × (a.now.items ≡ b.now.items)
        × (a.now.order ≡ b.now.order) × (a.now.limit ≡ b.now.limit) × (a.now.plain ≡ b.now.plain)
        × (a.now.distinct ≡ b.now.distinct)) }
{
    is_same_having(&a.having, &b.having)
        && are_same_items(a.items.as_slice(), b.items.as_slice())
        && are_same_order(a.order.as_slice(), b.order.as_slice())
        && a.limit == b.limit
        && a.plain == b.plain
        && a.distinct == b.distinct
}

/// Whether two plans are equal, their texts too.
pub fn is_same_plan(a: &Plan, b: &Plan) -> bool
    ensures { IsTrue result ↔ (a.now ≡ b.now) }
{
    a.text == b.text && is_same_front(a, b) && is_same_end(a, b)
}
