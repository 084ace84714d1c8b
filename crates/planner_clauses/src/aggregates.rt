//! The aggregates of a query.
ghost use Rattle.std.specs.Prelude.{◌≡◌, ◌++◌, ◌∷◌, [], OnOk, IfOk, map, option_map, option_to_list};
ghost use Rattle.planner_clauses.specs.Conjuncts.{row_expr as expr_of};
ghost use Rattle.planner_clauses.specs.Aggregates.{kind_of as plan_kind, type_in, row_type as type_of_row, aggregate_of, aggregates_in, arm_aggregates, with_aggregate, with_aggregates, with_parts, count_rows as rows_counted, arm_parts};

use crate::conjuncts::row_expr;
use meaning::{AggregateKind, Boxed, ColType, Sequence, Value, expr, plan};
use planner_expressions::{PlanFault, Scope, Sort, Spelling, find_same, judge, written};
use sql_syntax::{Aggregate, Arm, Expr};
use std::alloc::{AllocError, Global};

/// Aggregates, each written out and as the plan has it.
#[derive(Drop)]
pub struct Aggregates {
    pub written: Sequence<Spelling>,
    pub list: Sequence<plan::Aggregate>,
}

fn kind_of(kind: Aggregate) -> AggregateKind
    ensures { result ≡ plan_kind kind }
{
    match kind {
        Aggregate::Count => AggregateKind::Count,
        Aggregate::Sum => AggregateKind::Sum,
        Aggregate::Min => AggregateKind::Min,
        Aggregate::Max => AggregateKind::Max,
        Aggregate::Average => AggregateKind::Avg,
        Aggregate::CountDistinct => AggregateKind::CountDistinct,
        Aggregate::SumDistinct => AggregateKind::SumDistinct,
    }
}

fn type_of(returned: Result<Sort, PlanFault>) -> ColType
    ensures { result ≡ type_in returned }
{
    match returned {
        Ok(sort) => match sort {
            Sort::Integer => ColType::Int,
            Sort::Text => ColType::Text,
            Sort::Truth => ColType::Int,
        },
        Err(_) => ColType::Int,
    }
}

/// The type of an expression over rows.
pub fn row_type(scope: &Scope, expr: &Expr) -> ColType
    ensures { result ≡ type_of_row scope.now expr.now }
{
    type_of(judge(scope, expr, true))
}

fn count_rows() -> plan::Aggregate
    ensures { result ≡ rows_counted }
{
    plan::Aggregate {
        kind: AggregateKind::CountRows,
        argument: expr::Expr::Literal(Value::Int(1)),
        col_type: ColType::Int,
    }
}

fn over(
    alloc: Global,
    scope: &Scope,
    kind: Aggregate,
    argument: &Expr,
) -> Result<plan::Aggregate, AllocError>
    ensures { IfOk result (λ a. a
        ≡ record {
          kind = plan_kind kind;
          argument = expr_of scope.now argument.now;
          col_type = type_of_row scope.now argument.now;
        }) }
{
    let kind = kind_of(kind);
    let col_type = row_type(scope, argument);
    Ok(plan::Aggregate {
        kind,
        argument: row_expr(alloc, scope, argument)?,
        col_type,
    })
}

fn plan_aggregate(alloc: Global, scope: &Scope, expr: &Expr) -> Result<plan::Aggregate, AllocError>
    ensures { IfOk result (λ a. a ≡ aggregate_of scope.now expr.now) }
{
    match expr {
        Expr::Aggregate { kind, argument } => over(alloc, scope, *kind, argument.get()),
        _ => Ok(count_rows()),
    }
}

/// Puts an aggregate behind the others.
fn push(
    alloc: Global,
    scope: &Scope,
    expr: &Expr,
    written: Spelling,
    out: &mut Aggregates,
) -> Result<(), AllocError>
    ensures { OnOk result (out.new
        ≡ record {
          written = out.old.written ++ written ∷ [];
          list = out.old.list ++ aggregate_of scope.now expr.now ∷ [];
        }) }
{
    out.written.push(written)?;
    let aggregate = plan_aggregate(alloc, scope, expr)?;
    out.list.push(aggregate)
}

/// Puts an aggregate behind the others, unless it is there.
fn add(alloc: Global, scope: &Scope, expr: &Expr, out: &mut Aggregates) -> Result<(), AllocError>
    ensures { OnOk result (out.new ≡ with_aggregate scope.now out.old expr.now) }
{
    let written = written(alloc, scope, expr)?;
    match find_same(out.written.as_slice(), &written) {
        Some(_) => {
            drop(written);
            Ok(())
        }
        None => push(alloc, scope, expr, written, out),
    }
}

/// Puts the aggregates of an expression behind the others, equal ones once.
#[cycle(gather)]
pub fn gather(
    alloc: Global,
    scope: &Scope,
    expr: &Expr,
    out: &mut Aggregates,
) -> Result<(), AllocError>
    ensures { OnOk result (out.new ≡ with_aggregates scope.now out.old (aggregates_in expr.now)) }
{
    match expr {
        Expr::Column { .. } => Ok(()),
        Expr::Integer(_) => Ok(()),
        Expr::Text(_) => Ok(()),
        Expr::CountRows => add(alloc, scope, expr, out),
        Expr::Aggregate { .. } => add(alloc, scope, expr, out),
        Expr::Minus(a) => gather(alloc, scope, a.get(), out),
        Expr::Arithmetic { left, right, .. } => {
            gather_two(alloc, scope, left.get(), right.get(), out)
        }
        Expr::Compare { left, right, .. } => gather_two(alloc, scope, left.get(), right.get(), out),
        Expr::Not(a) => gather(alloc, scope, a.get(), out),
        Expr::And { left, right } => gather_two(alloc, scope, left.get(), right.get(), out),
        Expr::Or { left, right } => gather_two(alloc, scope, left.get(), right.get(), out),
        Expr::IsNull { subject, .. } => gather(alloc, scope, subject.get(), out),
        Expr::Between {
            subject,
            low,
            high,
            ..
        } => gather_three(alloc, scope, subject.get(), low.get(), high.get(), out),
        Expr::In {
            subject,
            entries,
            ..
        } => gather_in(alloc, scope, entries.as_slice(), subject.get(), out),
        Expr::Like { subject, .. } => gather(alloc, scope, subject.get(), out),
        Expr::Coalesce(entries) => gather_entries(alloc, scope, entries.as_slice(), out),
        Expr::Case { arms, otherwise } => {
            gather_arms(alloc, scope, arms.as_slice(), out)?;
            gather_else(alloc, scope, otherwise, out)
        }
    }
}

/// Those of two parts, from left to right.
#[cycle(gather)]
fn gather_two(
    alloc: Global,
    scope: &Scope,
    left: &Expr,
    right: &Expr,
    out: &mut Aggregates,
) -> Result<(), AllocError>
    ensures { OnOk result (out.new ≡ with_parts scope.now out.old (aggregates_in left.now
        ∷ aggregates_in right.now ∷ [])) }
{
    gather(alloc, scope, left, out)?;
    gather(alloc, scope, right, out)
}

/// Those of three parts, from left to right.
#[cycle(gather)]
fn gather_three(
    alloc: Global,
    scope: &Scope,
    first: &Expr,
    second: &Expr,
    third: &Expr,
    out: &mut Aggregates,
) -> Result<(), AllocError>
    ensures { OnOk result (out.new ≡ with_parts scope.now out.old (aggregates_in first.now
        ∷ aggregates_in second.now ∷ aggregates_in third.now ∷ [])) }
{
    gather(alloc, scope, first, out)?;
    gather_two(alloc, scope, second, third, out)
}

/// Those of an expression, and then those of each of a list.
#[cycle(gather)]
fn gather_in(
    alloc: Global,
    scope: &Scope,
    entries: &[Expr],
    subject: &Expr,
    out: &mut Aggregates,
) -> Result<(), AllocError>
    ensures { OnOk result (out.new ≡ with_parts scope.now out.old (aggregates_in subject.now
        ∷ map aggregates_in entries.now)) }
{
    gather(alloc, scope, subject, out)?;
    gather_entries(alloc, scope, entries, out)
}

#[cycle(gather)]
fn gather_entries(
    alloc: Global,
    scope: &Scope,
    entries: &[Expr],
    out: &mut Aggregates,
) -> Result<(), AllocError>
    ensures { OnOk result (out.new ≡ with_parts scope.now out.old (map aggregates_in entries.now)) }
{
    for entry in entries {
        gather(alloc, scope, entry, out)?;
    }
    Ok(())
}

#[cycle(gather)]
fn gather_arms(
    alloc: Global,
    scope: &Scope,
    arms: &[Arm],
    out: &mut Aggregates,
) -> Result<(), AllocError>
    ensures { OnOk result (out.new
        ≡ with_parts scope.now out.old (arm_parts (map arm_aggregates arms.now))) }
{
    for arm in arms {
        gather(alloc, scope, &arm.condition, out)?;
        gather(alloc, scope, &arm.value, out)?;
    }
    Ok(())
}

#[cycle(gather)]
fn gather_else(
    alloc: Global,
    scope: &Scope,
    otherwise: &Option<Boxed<Expr>>,
    out: &mut Aggregates,
) -> Result<(), AllocError>
    ensures { OnOk result (out.new
        ≡ with_parts scope.now out.old (option_to_list (option_map aggregates_in otherwise.now))) }
{
    match otherwise {
        Some(otherwise) => gather(alloc, scope, otherwise.get(), out),
        None => Ok(()),
    }
}
