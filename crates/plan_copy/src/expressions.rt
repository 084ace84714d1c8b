//! Copies of expressions.
ghost use Rattle.std.specs.Prelude.{◌≡◌, IfOk};
ghost use Rattle.meaning.specs.declared.expr.Expr.TheVariants as node;

use meaning::{ArithmeticOperator, Arm, Boxed, ComparisonOperator, Expr, Sequence, Text, Value};
use std::alloc::{AllocError, Global};
use std::mem::drop;

#[cycle(copy)]
fn copy_part(alloc: Global, part: &Boxed<Expr>) -> Result<Boxed<Expr>, AllocError>
    ensures { IfOk result (λ copy. copy ≡ part.now) }
{
    Boxed::new(alloc, copy_expr(alloc, part.get())?)
}

/// A copy of an expression.
#[cycle(copy)]
pub fn copy_expr(alloc: Global, expr: &Expr) -> Result<Expr, AllocError>
    ensures { IfOk result (λ copy. copy ≡ expr.now) }
{
    match expr {
        Expr::Column(column) => Ok(Expr::Column(*column)),
        Expr::Joined { join, column } => Ok(Expr::Joined {
            join: *join,
            column: *column,
        }),
        Expr::Key(key) => Ok(Expr::Key(*key)),
        Expr::Aggregate(aggregate) => Ok(Expr::Aggregate(*aggregate)),
        Expr::Literal(value) => copy_literal(value),
        Expr::Minus(part) => copy_minus(alloc, part),
        Expr::Arithmetic(operator, left, right) => copy_arithmetic(alloc, *operator, left, right),
        Expr::Compare(operator, left, right) => copy_comparison(alloc, *operator, left, right),
        Expr::Not(part) => copy_not(alloc, part),
        Expr::And(left, right) => copy_and(alloc, left, right),
        Expr::Or(left, right) => copy_or(alloc, left, right),
        Expr::IsNull { negated, subject } => copy_is_null(alloc, *negated, subject),
        Expr::Between {
            negated,
            subject,
            low,
            high,
        } => copy_between(alloc, *negated, subject, low, high),
        Expr::In {
            negated,
            subject,
            list,
        } => copy_in(alloc, *negated, list, subject),
        Expr::Like {
            negated,
            subject,
            pattern,
        } => copy_like(alloc, *negated, subject, pattern),
        Expr::Coalesce(parts) => copy_coalesce(alloc, parts),
        Expr::Case { arms, otherwise } => copy_case(alloc, arms, otherwise),
    }
}

fn copy_literal(value: &Value) -> Result<Expr, AllocError>
    ensures { IfOk result (λ copy. copy ≡ node.Literal value.now) }
{
    Ok(Expr::Literal(value.clone()?))
}

#[cycle(copy)]
fn copy_minus(alloc: Global, part: &Boxed<Expr>) -> Result<Expr, AllocError>
    ensures { IfOk result (λ copy. copy ≡ node.Minus part.now) }
{
    Ok(Expr::Minus(copy_part(alloc, part)?))
}

#[cycle(copy)]
fn copy_not(alloc: Global, part: &Boxed<Expr>) -> Result<Expr, AllocError>
    ensures { IfOk result (λ copy. copy ≡ node.Not part.now) }
{
    Ok(Expr::Not(copy_part(alloc, part)?))
}

#[cycle(copy)]
fn copy_and(alloc: Global, left: &Boxed<Expr>, right: &Boxed<Expr>) -> Result<Expr, AllocError>
    ensures { IfOk result (λ copy. copy ≡ node.And left.now right.now) }
{
    Ok(Expr::And(copy_part(alloc, left)?, copy_part(alloc, right)?))
}

#[cycle(copy)]
fn copy_or(alloc: Global, left: &Boxed<Expr>, right: &Boxed<Expr>) -> Result<Expr, AllocError>
    ensures { IfOk result (λ copy. copy ≡ node.Or left.now right.now) }
{
    Ok(Expr::Or(copy_part(alloc, left)?, copy_part(alloc, right)?))
}

#[cycle(copy)]
fn copy_coalesce(alloc: Global, parts: &Sequence<Expr>) -> Result<Expr, AllocError>
    ensures { IfOk result (λ copy. copy ≡ node.Coalesce parts.now) }
{
    Ok(Expr::Coalesce(copy_exprs(alloc, parts.as_slice())?))
}

#[cycle(copy)]
fn copy_arithmetic(
    alloc: Global,
    operator: ArithmeticOperator,
    left: &Boxed<Expr>,
    right: &Boxed<Expr>,
) -> Result<Expr, AllocError>
    ensures { IfOk result (λ copy. copy ≡ node.Arithmetic operator left.now right.now) }
{
    Ok(Expr::Arithmetic(operator, copy_part(alloc, left)?, copy_part(alloc, right)?))
}

#[cycle(copy)]
fn copy_comparison(
    alloc: Global,
    operator: ComparisonOperator,
    left: &Boxed<Expr>,
    right: &Boxed<Expr>,
) -> Result<Expr, AllocError>
    ensures { IfOk result (λ copy. copy ≡ node.Compare operator left.now right.now) }
{
    Ok(Expr::Compare(operator, copy_part(alloc, left)?, copy_part(alloc, right)?))
}

#[cycle(copy)]
fn copy_is_null(alloc: Global, negated: bool, subject: &Boxed<Expr>) -> Result<Expr, AllocError>
    ensures { IfOk result (λ copy. copy ≡ node.IsNull negated subject.now) }
{
    Ok(Expr::IsNull {
        negated,
        subject: copy_part(alloc, subject)?,
    })
}

#[cycle(copy)]
fn copy_between(
    alloc: Global,
    negated: bool,
    subject: &Boxed<Expr>,
    low: &Boxed<Expr>,
    high: &Boxed<Expr>,
) -> Result<Expr, AllocError>
    ensures { IfOk result (λ copy. copy ≡ node.Between negated subject.now low.now high.now) }
{
    Ok(Expr::Between {
        negated,
        subject: copy_part(alloc, subject)?,
        low: copy_part(alloc, low)?,
        high: copy_part(alloc, high)?,
    })
}

#[cycle(copy)]
fn copy_in(
    alloc: Global,
    negated: bool,
    list: &Sequence<Expr>,
    subject: &Boxed<Expr>,
) -> Result<Expr, AllocError>
    ensures { IfOk result (λ copy. copy ≡ node.In negated subject.now list.now) }
{
    Ok(Expr::In {
        negated,
        subject: copy_part(alloc, subject)?,
        list: copy_exprs(alloc, list.as_slice())?,
    })
}

#[cycle(copy)]
fn copy_like(
    alloc: Global,
    negated: bool,
    subject: &Boxed<Expr>,
    pattern: &Text,
) -> Result<Expr, AllocError>
    ensures { IfOk result (λ copy. copy ≡ node.Like negated subject.now pattern.now) }
{
    Ok(Expr::Like {
        negated,
        subject: copy_part(alloc, subject)?,
        pattern: pattern.clone()?,
    })
}

#[cycle(copy)]
fn copy_case(
    alloc: Global,
    arms: &Sequence<Arm>,
    otherwise: &Boxed<Expr>,
) -> Result<Expr, AllocError>
    ensures { IfOk result (λ copy. copy ≡ node.Case arms.now otherwise.now) }
{
    Ok(Expr::Case {
        arms: copy_arms(alloc, arms.as_slice())?,
        otherwise: copy_part(alloc, otherwise)?,
    })
}

/// Copies of expressions.
#[cycle(copy)]
pub fn copy_exprs(alloc: Global, exprs: &[Expr]) -> Result<Sequence<Expr>, AllocError>
    ensures { IfOk result (λ copies. copies ≡ exprs.now) }
{
    let mut copies = Sequence::new(alloc);
    for expr in exprs {
        copies.push(copy_expr(alloc, expr)?)?;
    }
    Ok(copies)
}

#[cycle(copy)]
fn copy_arm(alloc: Global, arm: &Arm) -> Result<Arm, AllocError>
    ensures { IfOk result (λ copy. copy ≡ arm.now) }
{
    let when = copy_expr(alloc, &arm.when)?;
    arm_of(when, copy_expr(alloc, &arm.then), arm)
}

fn arm_of(when: Expr, then: Result<Expr, AllocError>, arm: &Arm) -> Result<Arm, AllocError>
    requires when { when ≡ arm.now.when }
    requires then { IfOk then (λ copy. copy ≡ arm.now.then) }
    ensures { IfOk result (λ copy. copy ≡ arm.now) }
{
    match then {
        Ok(then) => Ok(Arm { when, then }),
        Err(error) => {
            drop(when);
            Err(error)
        }
    }
}

#[cycle(copy)]
fn copy_arms(alloc: Global, arms: &[Arm]) -> Result<Sequence<Arm>, AllocError>
    ensures { IfOk result (λ copies. copies ≡ arms.now) }
{
    let mut copies = Sequence::new(alloc);
    for arm in arms {
        copies.push(copy_arm(alloc, arm)?)?;
    }
    Ok(copies)
}
