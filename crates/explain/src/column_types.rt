//! The types of a report's columns.
use meaning::{Aggregate, AggregateKind, Arm, ColType, Expr, Plan, Value};

fn aggregate_type(aggregate: &Aggregate) -> ColType {
    match aggregate.kind {
        AggregateKind::Min | AggregateKind::Max => aggregate.col_type,
        AggregateKind::CountRows
        | AggregateKind::Count
        | AggregateKind::Sum
        | AggregateKind::Avg
        | AggregateKind::CountDistinct
        | AggregateKind::SumDistinct => ColType::Int,
    }
}

fn key_type(plan: &Plan, key: usize) -> Option<ColType> {
    match plan.keys.as_slice().get(key) {
        Some(key) => Some(key.col_type),
        None => None,
    }
}

/// The type of an expression over a group; none where it is NULL alone.
#[cycle(typing)]
pub fn type_over(plan: &Plan, expr: &Expr) -> Option<ColType> {
    match expr {
        Expr::Key(key) => key_type(plan, *key),
        Expr::Aggregate(aggregate) => plan.aggs.as_slice().get(*aggregate).map(aggregate_type),
        Expr::Literal(Value::Text(_)) => Some(ColType::Text),
        Expr::Literal(Value::Null) => None,
        Expr::Coalesce(list) => type_among(plan, list.as_slice()),
        Expr::Case { arms, otherwise } => match type_of_arms(plan, arms.as_slice()) {
            Some(found) => Some(found),
            None => type_over(plan, otherwise.get()),
        },
        _ => Some(ColType::Int),
    }
}

/// The first type among alternatives, all of which have one type.
#[cycle(typing)]
fn type_among(plan: &Plan, list: &[Expr]) -> Option<ColType> {
    for expr in list {
        if let Some(found) = type_over(plan, expr) {
            return Some(found);
        }
    }
    None
}

#[cycle(typing)]
fn type_of_arms(plan: &Plan, arms: &[Arm]) -> Option<ColType> {
    for arm in arms {
        if let Some(found) = type_over(plan, &arm.then) {
            return Some(found);
        }
    }
    None
}
