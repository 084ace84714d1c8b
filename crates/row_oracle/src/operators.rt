//! What each operator makes of the outcomes of its operands.

ghost use Rattle.std.specs.Prelude.{◌≡◌, IfOk, if◌then◌else◌};
ghost use Rattle.std.specs.Bool.{OnTrue};
ghost use Rattle.meaning.specs.declared.expr.ComparisonOperator.{ComparisonOperator};
ghost use Rattle.meaning.specs.declared.outcome.Outcome.{Outcome};
ghost use Rattle.meaning.specs.Truth as truth;
ghost use Rattle.meaning.specs.Operators as spec;

use crate::like::is_like;
use meaning::{ArithmeticOperator, ComparisonOperator, Fault, Outcome, Text, Truth, Value};
use std::alloc::{AllocError, Global};
use std::cmp::Ordering;

fn not_truth(t: Truth) -> Truth
    ensures { result ≡ truth.not3 t }
{
    match t {
        Truth::True => Truth::False,
        Truth::False => Truth::True,
        Truth::Unknown => Truth::Unknown,
    }
}

fn and_truth(t: Truth, u: Truth) -> Truth
    ensures { result ≡ truth.and3 t u }
{
    match (t, u) {
        (Truth::False, _) | (_, Truth::False) => Truth::False,
        (Truth::True, Truth::True) => Truth::True,
        _ => Truth::Unknown,
    }
}

fn or_truth(t: Truth, u: Truth) -> Truth
    ensures { result ≡ truth.or3 t u }
{
    match (t, u) {
        (Truth::True, _) | (_, Truth::True) => Truth::True,
        (Truth::False, Truth::False) => Truth::False,
        _ => Truth::Unknown,
    }
}

fn known(test: bool) -> Truth
    ensures { result ≡ truth.known test }
{
    if test { Truth::True } else { Truth::False }
}

/// The truth, and UNKNOWN where there is none.
fn truth_of(a: &Outcome) -> Truth
    ensures { result ≡ spec.truth_of a.now }
{
    match a {
        Outcome::Truth(t) => *t,
        _ => Truth::Unknown,
    }
}

pub fn not(a: Outcome) -> Outcome
    ensures { result ≡ spec.not_of a }
{
    match a {
        Outcome::Fault(f) => Outcome::Fault(f),
        a => Outcome::Truth(not_truth(truth_of(&a))),
    }
}

pub fn and(left: Outcome, right: Outcome) -> Outcome
    ensures { result ≡ spec.and_of left right }
{
    match (left, right) {
        (Outcome::Fault(f), _) => Outcome::Fault(f),
        (Outcome::Truth(Truth::False), _) => Outcome::Truth(Truth::False),
        (_, Outcome::Fault(f)) => Outcome::Fault(f),
        (a, b) => Outcome::Truth(and_truth(truth_of(&a), truth_of(&b))),
    }
}

pub fn or(left: Outcome, right: Outcome) -> Outcome
    ensures { result ≡ spec.or_of left right }
{
    match (left, right) {
        (Outcome::Fault(f), _) => Outcome::Fault(f),
        (Outcome::Truth(Truth::True), _) => Outcome::Truth(Truth::True),
        (_, Outcome::Fault(f)) => Outcome::Fault(f),
        (a, b) => Outcome::Truth(or_truth(truth_of(&a), truth_of(&b))),
    }
}

/// Whether AND is what its left side is, whatever the right side gives.
pub fn decides_and(left: &Outcome) -> bool
    ensures { OnTrue result ((right : Outcome) → left.now ≡ spec.and_of left.now right) }
{
    matches!(left, Outcome::Fault(_) | Outcome::Truth(Truth::False))
}

/// Whether OR is what its left side is, whatever the right side gives.
pub fn decides_or(left: &Outcome) -> bool
    ensures { OnTrue result ((right : Outcome) → left.now ≡ spec.or_of left.now right) }
{
    matches!(left, Outcome::Fault(_) | Outcome::Truth(Truth::True))
}

fn fitted(n: Option<i64>) -> Outcome
    ensures { result ≡ spec.or_overflow n }
{
    match n {
        Some(n) => Outcome::Value(Value::Int(n)),
        None => Outcome::Fault(Fault::Overflow),
    }
}

fn of_integers(op: ArithmeticOperator, m: i64, n: i64) -> Outcome
    ensures { result ≡ spec.of_integers op m n }
{
    match op {
        ArithmeticOperator::Add => fitted(m.checked_add(n)),
        ArithmeticOperator::Subtract => fitted(m.checked_sub(n)),
        ArithmeticOperator::Multiply => fitted(m.checked_mul(n)),
        ArithmeticOperator::Divide if n == 0 => Outcome::Fault(Fault::DivisionByZero),
        ArithmeticOperator::Divide => fitted(m.checked_div(n)),
    }
}

pub fn arith(op: ArithmeticOperator, left: Outcome, right: Outcome) -> Outcome
    ensures { result ≡ spec.arith_of op left right }
{
    match (left, right) {
        (Outcome::Fault(f), _) | (_, Outcome::Fault(f)) => Outcome::Fault(f),
        (Outcome::Value(Value::Int(m)), Outcome::Value(Value::Int(n))) => of_integers(op, m, n),
        _ => Outcome::Value(Value::Null),
    }
}

pub fn minus(a: Outcome) -> Outcome
    ensures { result ≡ spec.minus_of a }
{
    match a {
        Outcome::Fault(f) => Outcome::Fault(f),
        Outcome::Value(Value::Int(n)) => fitted(n.checked_neg()),
        _ => Outcome::Value(Value::Null),
    }
}

fn test(op: ComparisonOperator, order: Ordering) -> bool
    ensures { result ≡ spec.test op order }
{
    match op {
        ComparisonOperator::Equal => order.is_eq(),
        ComparisonOperator::NotEqual => order.is_ne(),
        ComparisonOperator::Less => order.is_lt(),
        ComparisonOperator::LessOrEqual => order.is_le(),
        ComparisonOperator::Greater => order.is_gt(),
        ComparisonOperator::GreaterOrEqual => order.is_ge(),
    }
}

pub fn compare(op: ComparisonOperator, left: &Outcome, right: &Outcome) -> Outcome
    ensures { result ≡ spec.compare_of op left.now right.now }
{
    match (left, right) {
        (Outcome::Fault(f), _) | (_, Outcome::Fault(f)) => Outcome::Fault(*f),
        (Outcome::Value(Value::Null), _) | (_, Outcome::Value(Value::Null)) => Outcome::Truth(
            Truth::Unknown,
        ),
        (Outcome::Value(x), Outcome::Value(y)) => Outcome::Truth(known(test(op, x.cmp(y)))),
        _ => Outcome::Truth(Truth::Unknown),
    }
}

/// The upper half of BETWEEN.
pub fn is_at_most(subject: &Outcome, high: &Outcome) -> Outcome
    ensures { result ≡ spec.compare_of ComparisonOperator.LessOrEqual subject.now high.now }
{
    compare(ComparisonOperator::LessOrEqual, subject, high)
}

pub fn is_null(a: Outcome) -> Outcome
    ensures { result ≡ spec.is_null_of a }
{
    match a {
        Outcome::Fault(f) => Outcome::Fault(f),
        Outcome::Value(Value::Int(_)) | Outcome::Value(Value::Text(_)) => Outcome::Truth(
            Truth::False,
        ),
        _ => Outcome::Truth(Truth::True),
    }
}

pub fn like(alloc: Global, pattern: &Text, a: Outcome) -> Result<Outcome, AllocError>
    ensures { IfOk result (λ o. o ≡ spec.like_of pattern.now a) }
{
    match a {
        Outcome::Fault(f) => Ok(Outcome::Fault(f)),
        Outcome::Value(Value::Text(text)) => Ok(Outcome::Truth(known(is_like(
            alloc, pattern, &text,
        )?))),
        _ => Ok(Outcome::Truth(Truth::Unknown)),
    }
}
