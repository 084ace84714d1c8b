//! What an expression gives on one row, node by node.

ghost use Rattle.std.specs.Prelude.{◌≡◌, IfOk, map};
ghost use Rattle.std.specs.Option.{unwrap_or};
ghost use Rattle.meaning.specs.declared.outcome.Outcome.{Outcome};
ghost use Rattle.meaning.specs.Expr.{eval, eval_arm, arms_at, outcomes};
ghost use Rattle.meaning.specs.Joined.{joined_column};
ghost use Rattle.meaning.specs.Operators as spec;
ghost use Rattle.meaning.specs.Order.{column};
ghost use Rattle.meaning.specs.declared.outcome.Outcome.TheVariants as gives;

use crate::operators::{
    and, arith, compare, decides_and, decides_or, is_at_most, is_null, like, minus, not, or,
};
use meaning::{
    ArithmeticOperator, Arm, ComparisonOperator, Expr, JoinedRow, Outcome, Row, Text, Truth, Value,
    joined_value, value_at,
};
use std::alloc::{AllocError, Global};

/// What the expression gives on the row: the plain evaluation, node by node.
#[cycle(eval)]
pub fn eval_row(alloc: Global, expr: &Expr, row: &JoinedRow) -> Result<Outcome, AllocError>
    ensures { IfOk result (λ o. o ≡ eval expr.now row.now) }
{
    match expr {
        Expr::Column(at) => outcome_at(&row.fact, *at),
        Expr::Joined { join, column } => joined_outcome(row, *join, *column),
        Expr::Key(at) => outcome_at(&row.key, *at),
        Expr::Aggregate(at) => outcome_at(&row.aggregates, *at),
        Expr::Literal(value) => literal(value),
        Expr::Minus(a) => eval_row(alloc, a.get(), row).map(minus),
        Expr::Arithmetic(op, a, b) => {
            let left = eval_row(alloc, a.get(), row);
            arith_if_known(*op, left, eval_row(alloc, b.get(), row))
        }
        Expr::Compare(op, a, b) => {
            let left = eval_row(alloc, a.get(), row);
            compare_if_known(*op, left, eval_row(alloc, b.get(), row))
        }
        Expr::Not(a) => eval_row(alloc, a.get(), row).map(not),
        Expr::And(a, b) => {
            let left = eval_row(alloc, a.get(), row);
            eval_and(alloc, left, b.get(), row)
        }
        Expr::Or(a, b) => {
            let left = eval_row(alloc, a.get(), row);
            eval_or(alloc, left, b.get(), row)
        }
        Expr::IsNull { negated, subject } => {
            let subject = eval_row(alloc, subject.get(), row);
            not_if(*negated, subject.map(is_null))
        }
        Expr::Between {
            negated,
            subject,
            low,
            high,
        } => {
            let subject = eval_row(alloc, subject.get(), row);
            let low = eval_row(alloc, low.get(), row);
            not_if(*negated, eval_between(alloc, subject, low, high.get(), row))
        }
        Expr::In {
            negated,
            subject,
            list,
        } => {
            let subject = eval_row(alloc, subject.get(), row);
            not_if(*negated, eval_in(alloc, subject, list.as_slice(), row))
        }
        Expr::Like {
            negated,
            subject,
            pattern,
        } => {
            let subject = eval_row(alloc, subject.get(), row);
            not_if(*negated, like_if_known(alloc, pattern, subject))
        }
        Expr::Coalesce(list) => eval_coalesce(alloc, list.as_slice(), row),
        Expr::Case { arms, otherwise } => match eval_arms(alloc, arms.as_slice(), row) {
            Ok(None) => eval_row(alloc, otherwise.get(), row),
            Ok(Some(found)) => Ok(found),
            Err(e) => Err(e),
        },
    }
}

/// What the first of the arms gives whose condition is true, or the fault of a condition before
/// it; nothing where no condition is true.
#[cycle(eval)]
fn eval_arms(alloc: Global, arms: &[Arm], row: &JoinedRow) -> Result<Option<Outcome>, AllocError>
    ensures { IfOk result (λ found. (otherwise : Outcome) →
        unwrap_or found otherwise
        ≡ spec.cases_of (arms_at row.now (map eval_arm arms.now)) otherwise) }
{
    for arm in arms {
        match eval_row(alloc, &arm.when, row)? {
            Outcome::Fault(f) => return Ok(Some(Outcome::Fault(f))),
            Outcome::Truth(Truth::True) => return Ok(Some(eval_row(alloc, &arm.then, row)?)),
            _ => {}
        }
    }
    Ok(None)
}

fn literal(value: &Value) -> Result<Outcome, AllocError>
    ensures { IfOk result (λ o. o ≡ gives.Value value.now) }
{
    Ok(Outcome::Value(value.clone()?))
}

fn outcome_at(row: &Row, at: usize) -> Result<Outcome, AllocError>
    ensures { IfOk result (λ o. o ≡ gives.Value (column row.now at)) }
{
    Ok(Outcome::Value(value_at(row, at)?))
}

fn joined_outcome(row: &JoinedRow, join: usize, at: usize) -> Result<Outcome, AllocError>
    ensures { IfOk result (λ o. o ≡ gives.Value (joined_column row.now join at)) }
{
    Ok(Outcome::Value(joined_value(row, join, at)?))
}

fn arith_if_known(
    op: ArithmeticOperator,
    left: Result<Outcome, AllocError>,
    right: Result<Outcome, AllocError>,
) -> Result<Outcome, AllocError>
    ensures { (a b : Outcome) → IfOk left (λ o. o ≡ a) → IfOk right (λ o. o ≡ b) →
        IfOk result (λ o. o ≡ spec.arith_of op a b) }
{
    match (left, right) {
        (Ok(left), Ok(right)) => Ok(arith(op, left, right)),
        (Err(e), _) | (_, Err(e)) => Err(e),
    }
}

fn compare_if_known(
    op: ComparisonOperator,
    left: Result<Outcome, AllocError>,
    right: Result<Outcome, AllocError>,
) -> Result<Outcome, AllocError>
    ensures { (a b : Outcome) → IfOk left (λ o. o ≡ a) → IfOk right (λ o. o ≡ b) →
        IfOk result (λ o. o ≡ spec.compare_of op a b) }
{
    match (&left, &right) {
        (Ok(left), Ok(right)) => Ok(compare(op, left, right)),
        (Err(e), _) | (_, Err(e)) => Err(*e),
    }
}

fn like_if_known(
    alloc: Global,
    pattern: &Text,
    subject: Result<Outcome, AllocError>,
) -> Result<Outcome, AllocError>
    ensures { (a : Outcome) → IfOk subject (λ o. o ≡ a)
        → IfOk result (λ o. o ≡ spec.like_of pattern.now a) }
{
    like(alloc, pattern, subject?)
}

/// The right side is not evaluated where the left one decides.
#[cycle(eval)]
fn eval_and(
    alloc: Global,
    left: Result<Outcome, AllocError>,
    right: &Expr,
    row: &JoinedRow,
) -> Result<Outcome, AllocError>
    ensures { (a : Outcome) → IfOk left (λ o. o ≡ a) →
        IfOk result (λ o. o ≡ spec.and_of a (eval right.now row.now)) }
{
    let left = left?;
    if decides_and(&left) {
        return Ok(left);
    }
    Ok(and(left, eval_row(alloc, right, row)?))
}

/// The right side is not evaluated where the left one decides.
#[cycle(eval)]
fn eval_or(
    alloc: Global,
    left: Result<Outcome, AllocError>,
    right: &Expr,
    row: &JoinedRow,
) -> Result<Outcome, AllocError>
    ensures { (a : Outcome) → IfOk left (λ o. o ≡ a) →
        IfOk result (λ o. o ≡ spec.or_of a (eval right.now row.now)) }
{
    let left = left?;
    if decides_or(&left) {
        return Ok(left);
    }
    Ok(or(left, eval_row(alloc, right, row)?))
}

/// NOT of what is given, where it is negated.
fn not_if(negated: bool, a: Result<Outcome, AllocError>) -> Result<Outcome, AllocError>
    ensures { (o : Outcome) → IfOk a (λ x. x ≡ o) → IfOk result (λ x. x ≡ spec.not_if negated o) }
{
    if negated { a.map(not) } else { a }
}

/// Whether the subject is from `low` to `high`.
#[cycle(eval)]
fn eval_between(
    alloc: Global,
    subject: Result<Outcome, AllocError>,
    low: Result<Outcome, AllocError>,
    high: &Expr,
    row: &JoinedRow,
) -> Result<Outcome, AllocError>
    ensures { (a b : Outcome) → IfOk subject (λ o. o ≡ a) → IfOk low (λ o. o ≡ b) →
        IfOk result (λ o. o ≡ spec.between_of a b (eval high.now row.now)) }
{
    match (&subject, &low) {
        (Ok(subject), Ok(low)) => find_within(alloc, subject, low, high, row),
        (Err(e), _) | (_, Err(e)) => Err(*e),
    }
}

#[cycle(eval)]
fn find_within(
    alloc: Global,
    subject: &Outcome,
    low: &Outcome,
    high: &Expr,
    row: &JoinedRow,
) -> Result<Outcome, AllocError>
    ensures { IfOk result (λ o. o ≡ spec.between_of subject.now low.now (eval high.now row.now)) }
{
    let above = compare(ComparisonOperator::GreaterOrEqual, subject, low);
    if decides_and(&above) {
        return Ok(above);
    }
    let high = eval_row(alloc, high, row)?;
    Ok(and(above, is_at_most(subject, &high)))
}

/// Whether the subject equals one of the list.
#[cycle(eval)]
fn eval_in(
    alloc: Global,
    subject: Result<Outcome, AllocError>,
    list: &[Expr],
    row: &JoinedRow,
) -> Result<Outcome, AllocError>
    ensures { (a : Outcome) → IfOk subject (λ o. o ≡ a) →
        IfOk result (λ o. o ≡ spec.one_of a (outcomes list.now row.now)) }
{
    let subject = subject?;
    find_in(alloc, &subject, list, row)
}

#[cycle(eval)]
fn find_in(
    alloc: Global,
    subject: &Outcome,
    list: &[Expr],
    row: &JoinedRow,
) -> Result<Outcome, AllocError>
    ensures { IfOk result (λ o. o ≡ spec.one_of subject.now (outcomes list.now row.now)) }
{
    let mut found = Truth::False;
    for item in list {
        let item = eval_row(alloc, item, row)?;
        match or(
            Outcome::Truth(found),
            compare(ComparisonOperator::Equal, subject, &item),
        ) {
            Outcome::Truth(Truth::True) => return Ok(Outcome::Truth(Truth::True)),
            Outcome::Truth(t) => found = t,
            other => return Ok(other),
        }
    }
    Ok(Outcome::Truth(found))
}

/// `COALESCE (list)`.
#[cycle(eval)]
fn eval_coalesce(alloc: Global, list: &[Expr], row: &JoinedRow) -> Result<Outcome, AllocError>
    ensures { IfOk result (λ o. o ≡ spec.first_of (outcomes list.now row.now)) }
{
    for item in list {
        match eval_row(alloc, item, row)? {
            Outcome::Value(Value::Null) => {}
            other => return Ok(other),
        }
    }
    Ok(Outcome::Value(Value::Null))
}
