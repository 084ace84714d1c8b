//! Copies of plans.
ghost use Rattle.std.specs.Prelude.{◌≡◌, IfOk};

use crate::expressions::{copy_expr, copy_exprs};
use meaning::{
    Aggregate, ColumnUse, Expr, GroupingKey, Item, Join, OrderKey, Plan, Sequence, TableUse, Text,
};
use std::alloc::{AllocError, Global};
use std::mem::drop;

fn copy_columns(alloc: Global, columns: &[ColumnUse]) -> Result<Sequence<ColumnUse>, AllocError>
    ensures { IfOk result (λ copies. copies ≡ columns.now) }
{
    let mut copies = Sequence::new(alloc);
    for column in columns {
        copies.push(ColumnUse {
            column: column.column,
            name: column.name.clone()?,
            col_type: column.col_type,
        })?;
    }
    Ok(copies)
}

fn copy_table(alloc: Global, table: &TableUse) -> Result<TableUse, AllocError>
    ensures { IfOk result (λ copy. copy ≡ table.now) }
{
    Ok(TableUse {
        name: table.name.clone()?,
        columns: copy_columns(alloc, table.columns.as_slice())?,
    })
}

fn copy_joins(alloc: Global, joins: &[Join]) -> Result<Sequence<Join>, AllocError>
    ensures { IfOk result (λ copies. copies ≡ joins.now) }
{
    let mut copies = Sequence::new(alloc);
    for join in joins {
        copies.push(Join {
            dim: copy_table(alloc, &join.dim)?,
            join_type: join.join_type,
            foreign: join.foreign,
            key: join.key,
        })?;
    }
    Ok(copies)
}

fn copy_keys(alloc: Global, keys: &[GroupingKey]) -> Result<Sequence<GroupingKey>, AllocError>
    ensures { IfOk result (λ copies. copies ≡ keys.now) }
{
    let mut copies = Sequence::new(alloc);
    for key in keys {
        copies.push(GroupingKey {
            expr: copy_expr(alloc, &key.expr)?,
            col_type: key.col_type,
        })?;
    }
    Ok(copies)
}

fn copy_aggregates(
    alloc: Global,
    aggregates: &[Aggregate],
) -> Result<Sequence<Aggregate>, AllocError>
    ensures { IfOk result (λ copies. copies ≡ aggregates.now) }
{
    let mut copies = Sequence::new(alloc);
    for aggregate in aggregates {
        copies.push(Aggregate {
            kind: aggregate.kind,
            argument: copy_expr(alloc, &aggregate.argument)?,
            col_type: aggregate.col_type,
        })?;
    }
    Ok(copies)
}

fn copy_having(alloc: Global, having: &Option<Expr>) -> Result<Option<Expr>, AllocError>
    ensures { IfOk result (λ copy. copy ≡ having.now) }
{
    match having {
        Some(expr) => Ok(Some(copy_expr(alloc, expr)?)),
        None => Ok(None),
    }
}

fn copy_item(alloc: Global, item: &Item) -> Result<Item, AllocError>
    ensures { IfOk result (λ copy. copy ≡ item.now) }
{
    let header = item.header.clone()?;
    let expr = copy_expr(alloc, &item.expr)?;
    Ok(Item { header, expr })
}

fn copy_items(alloc: Global, items: &[Item]) -> Result<Sequence<Item>, AllocError>
    ensures { IfOk result (λ copies. copies ≡ items.now) }
{
    let mut copies = Sequence::new(alloc);
    for item in items {
        copies.push(copy_item(alloc, item)?)?;
    }
    Ok(copies)
}

fn copy_order(alloc: Global, order: &[OrderKey]) -> Result<Sequence<OrderKey>, AllocError>
    ensures { IfOk result (λ copies. copies ≡ order.now) }
{
    let mut copies = Sequence::new(alloc);
    for key in order {
        copies.push(OrderKey {
            item: key.item,
            descending: key.descending,
        })?;
    }
    Ok(copies)
}

/// Which rows a plan takes: its tables, and the conditions on their rows.
#[derive(Drop)]
struct Taken {
    fact: TableUse,
    joins: Sequence<Join>,
    conjuncts: Sequence<Expr>,
}

fn copy_taken(alloc: Global, plan: &Plan) -> Result<Taken, AllocError>
    ensures { IfOk result (λ copy. (copy.fact ≡ plan.now.fact) × (copy.joins ≡ plan.now.joins)
        × (copy.conjuncts ≡ plan.now.conjuncts)) }
{
    let joins = copy_joins(alloc, plan.joins.as_slice())?;
    let conjuncts = copy_exprs(alloc, plan.conjuncts.as_slice())?;
    let fact = copy_table(alloc, &plan.fact)?;
    Ok(Taken {
        fact,
        joins,
        conjuncts,
    })
}

/// Which groups a plan makes of its rows, and which of them it keeps.
#[derive(Drop)]
struct Grouped {
    keys: Sequence<GroupingKey>,
    aggs: Sequence<Aggregate>,
    having: Option<Expr>,
}

fn copy_grouped(alloc: Global, plan: &Plan) -> Result<Grouped, AllocError>
    ensures { IfOk result (λ copy. (copy.keys ≡ plan.now.keys) × (copy.aggs ≡ plan.now.aggs)
        × (copy.having ≡ plan.now.having)) }
{
    let keys = copy_keys(alloc, plan.keys.as_slice())?;
    let aggs = copy_aggregates(alloc, plan.aggs.as_slice())?;
    let having = copy_having(alloc, &plan.having)?;
    Ok(Grouped { keys, aggs, having })
}

/// What a plan prints, and in which order.
#[derive(Drop)]
struct Printed {
    text: Text,
    items: Sequence<Item>,
    order: Sequence<OrderKey>,
}

fn copy_printed(alloc: Global, plan: &Plan) -> Result<Printed, AllocError>
    ensures { IfOk result (λ copy. (copy.text ≡ plan.now.text) × (copy.items ≡ plan.now.items)
        × (copy.order ≡ plan.now.order)) }
{
    let items = copy_items(alloc, plan.items.as_slice())?;
    let order = copy_order(alloc, plan.order.as_slice())?;
    let text = plan.text.clone()?;
    Ok(Printed { text, items, order })
}

fn plan_of(taken: Taken, grouped: Grouped, printed: Printed, plan: &Plan) -> Plan
    ensures fact { result.fact ≡ taken.fact }
    ensures joins { result.joins ≡ taken.joins }
    ensures conjuncts { result.conjuncts ≡ taken.conjuncts }
    ensures keys { result.keys ≡ grouped.keys }
    ensures aggs { result.aggs ≡ grouped.aggs }
    ensures having { result.having ≡ grouped.having }
    ensures text { result.text ≡ printed.text }
    ensures items { result.items ≡ printed.items }
    ensures order { result.order ≡ printed.order }
    ensures limit { result.limit ≡ plan.now.limit }
    ensures plain { result.plain ≡ plan.now.plain }
    ensures distinct { result.distinct ≡ plan.now.distinct }
{
    Plan {
        text: printed.text,
        fact: taken.fact,
        joins: taken.joins,
        conjuncts: taken.conjuncts,
        keys: grouped.keys,
        aggs: grouped.aggs,
        having: grouped.having,
        items: printed.items,
        order: printed.order,
        limit: plan.limit,
        plain: plan.plain,
        distinct: plan.distinct,
    }
}

/// A plan of its parts, where the last of them has been copied.
fn with_printed(
    taken: Taken,
    grouped: Grouped,
    printed: Result<Printed, AllocError>,
    plan: &Plan,
) -> Result<Plan, AllocError>
    requires taken { (taken.fact ≡ plan.now.fact) × (taken.joins ≡ plan.now.joins)
        × (taken.conjuncts ≡ plan.now.conjuncts) }
    requires grouped { (grouped.keys ≡ plan.now.keys) × (grouped.aggs ≡ plan.now.aggs)
        × (grouped.having ≡ plan.now.having) }
    requires printed { IfOk printed (λ p. (p.text ≡ plan.now.text) × (p.items ≡ plan.now.items)
        × (p.order ≡ plan.now.order)) }
    ensures { IfOk result (λ copy. copy ≡ plan.now) }
{
    match printed {
        Ok(printed) => Ok(plan_of(taken, grouped, printed, plan)),
        Err(error) => {
            drop(taken);
            drop(grouped);
            Err(error)
        }
    }
}

/// A copy of a plan.
pub fn copy_plan(alloc: Global, plan: &Plan) -> Result<Plan, AllocError>
    ensures { IfOk result (λ copy. copy ≡ plan.now) }
{
    let taken = copy_taken(alloc, plan)?;
    match copy_grouped(alloc, plan) {
        Ok(grouped) => with_printed(taken, grouped, copy_printed(alloc, plan), plan),
        Err(error) => {
            drop(taken);
            Err(error)
        }
    }
}
