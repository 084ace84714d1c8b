//! Expressions of plans from their parts, where each part may be wanting.
ghost use Rattle.std.specs.Prelude.{◌≡◌, IfOk, Option, List, option_map};
ghost use Rattle.meaning.specs.declared.expr.Expr as plan;
ghost use Rattle.meaning.specs.declared.expr.Expr.TheVariants as expr;
ghost use Rattle.meaning.specs.declared.expr.Arm.{Arm};
ghost use Rattle.planner_expressions.specs.Translated.{two_some, three_some, pair_some, arm_of};

use meaning::{ArithmeticOperator, Arm, Boxed, ComparisonOperator, Expr, Sequence, Text};
use std::alloc::{AllocError, Global};

/// A part on the heap.
fn one(
    alloc: Global,
    part: Result<Option<Expr>, AllocError>,
) -> Result<Option<Boxed<Expr>>, AllocError>
    ensures { (a : Option plan.Expr) → IfOk part (λ x. x ≡ a) → IfOk result (λ x. x ≡ a) }
{
    match part {
        Ok(Some(part)) => Ok(Some(Boxed::new(alloc, part)?)),
        Ok(None) => Ok(None),
        Err(e) => Err(e),
    }
}

/// Two parts on the heap.
fn pair(alloc: Global, left: Expr, right: Expr) -> Result<(Boxed<Expr>, Boxed<Expr>), AllocError>
    ensures { IfOk result (λ x. x ≡ (left, right)) }
{
    match Boxed::new(alloc, left) {
        Ok(left) => match Boxed::new(alloc, right) {
            Ok(right) => Ok((left, right)),
            Err(e) => {
                drop(left);
                Err(e)
            }
        },
        Err(e) => {
            drop(right);
            Err(e)
        }
    }
}

/// Two parts on the heap, if both are there.
fn two(
    alloc: Global,
    left: Result<Option<Expr>, AllocError>,
    right: Result<Option<Expr>, AllocError>,
) -> Result<Option<(Boxed<Expr>, Boxed<Expr>)>, AllocError>
    ensures { (a b : Option plan.Expr) → IfOk left (λ x. x ≡ a) → IfOk right (λ x. x ≡ b)
        → IfOk result (λ x. x ≡ pair_some a b) }
{
    match left {
        Ok(Some(left)) => match right {
            Ok(Some(right)) => Ok(Some(pair(alloc, left, right)?)),
            Ok(None) => {
                drop(left);
                Ok(None)
            }
            Err(e) => {
                drop(left);
                Err(e)
            }
        },
        Ok(None) => match right {
            Ok(right) => {
                drop(right);
                Ok(None)
            }
            Err(e) => Err(e),
        },
        Err(e) => {
            drop(right);
            Err(e)
        }
    }
}

pub fn minus(
    alloc: Global,
    part: Result<Option<Expr>, AllocError>,
) -> Result<Option<Expr>, AllocError>
    ensures { (a : Option plan.Expr) → IfOk part (λ x. x ≡ a)
        → IfOk result (λ x. x ≡ option_map (λ y. expr.Minus y) a) }
{
    match one(alloc, part) {
        Ok(Some(part)) => Ok(Some(Expr::Minus(part))),
        Ok(None) => Ok(None),
        Err(e) => Err(e),
    }
}

pub fn not(
    alloc: Global,
    part: Result<Option<Expr>, AllocError>,
) -> Result<Option<Expr>, AllocError>
    ensures { (a : Option plan.Expr) → IfOk part (λ x. x ≡ a)
        → IfOk result (λ x. x ≡ option_map (λ y. expr.Not y) a) }
{
    match one(alloc, part) {
        Ok(Some(part)) => Ok(Some(Expr::Not(part))),
        Ok(None) => Ok(None),
        Err(e) => Err(e),
    }
}

pub fn is_null(
    alloc: Global,
    negated: bool,
    part: Result<Option<Expr>, AllocError>,
) -> Result<Option<Expr>, AllocError>
    ensures { (a : Option plan.Expr) → IfOk part (λ x. x ≡ a)
        → IfOk result (λ x. x ≡ option_map (λ y. expr.IsNull negated y) a) }
{
    match one(alloc, part) {
        Ok(Some(part)) => Ok(Some(Expr::IsNull {
            negated,
            subject: part,
        })),
        Ok(None) => Ok(None),
        Err(e) => Err(e),
    }
}

pub fn like(
    alloc: Global,
    negated: bool,
    part: Result<Option<Expr>, AllocError>,
    pattern: &Text,
) -> Result<Option<Expr>, AllocError>
    ensures { (a : Option plan.Expr) → IfOk part (λ x. x ≡ a)
        → IfOk result (λ x. x ≡ option_map (λ y. expr.Like negated y pattern.now) a) }
{
    match one(alloc, part) {
        Ok(Some(part)) => match pattern.clone() {
            Ok(pattern) => Ok(Some(Expr::Like {
                negated,
                subject: part,
                pattern,
            })),
            Err(e) => {
                drop(part);
                Err(e)
            }
        },
        Ok(None) => Ok(None),
        Err(e) => Err(e),
    }
}

#[tactic(auto, using(crate::proofs::Pairs::two_made, crate::proofs::Pairs::two_wanting))]
pub fn arithmetic(
    alloc: Global,
    operator: ArithmeticOperator,
    left: Result<Option<Expr>, AllocError>,
    right: Result<Option<Expr>, AllocError>,
) -> Result<Option<Expr>, AllocError>
    ensures { (a b : Option plan.Expr) → IfOk left (λ x. x ≡ a) → IfOk right (λ x. x ≡ b) →
        IfOk result (λ x. x ≡ two_some (λ y z. expr.Arithmetic operator y z) a b) }
{
    match two(alloc, left, right) {
        Ok(Some((left, right))) => Ok(Some(Expr::Arithmetic(operator, left, right))),
        Ok(None) => Ok(None),
        Err(e) => Err(e),
    }
}

#[tactic(auto, using(crate::proofs::Pairs::two_made, crate::proofs::Pairs::two_wanting))]
pub fn compare(
    alloc: Global,
    operator: ComparisonOperator,
    left: Result<Option<Expr>, AllocError>,
    right: Result<Option<Expr>, AllocError>,
) -> Result<Option<Expr>, AllocError>
    ensures { (a b : Option plan.Expr) → IfOk left (λ x. x ≡ a) → IfOk right (λ x. x ≡ b) →
        IfOk result (λ x. x ≡ two_some (λ y z. expr.Compare operator y z) a b) }
{
    match two(alloc, left, right) {
        Ok(Some((left, right))) => Ok(Some(Expr::Compare(operator, left, right))),
        Ok(None) => Ok(None),
        Err(e) => Err(e),
    }
}

#[tactic(auto, using(crate::proofs::Pairs::two_made, crate::proofs::Pairs::two_wanting))]
pub fn and(
    alloc: Global,
    left: Result<Option<Expr>, AllocError>,
    right: Result<Option<Expr>, AllocError>,
) -> Result<Option<Expr>, AllocError>
    ensures { (a b : Option plan.Expr) → IfOk left (λ x. x ≡ a) → IfOk right (λ x. x ≡ b) →
        IfOk result (λ x. x ≡ two_some (λ y z. expr.And y z) a b) }
{
    match two(alloc, left, right) {
        Ok(Some((left, right))) => Ok(Some(Expr::And(left, right))),
        Ok(None) => Ok(None),
        Err(e) => Err(e),
    }
}

#[tactic(auto, using(crate::proofs::Pairs::two_made, crate::proofs::Pairs::two_wanting))]
pub fn or(
    alloc: Global,
    left: Result<Option<Expr>, AllocError>,
    right: Result<Option<Expr>, AllocError>,
) -> Result<Option<Expr>, AllocError>
    ensures { (a b : Option plan.Expr) → IfOk left (λ x. x ≡ a) → IfOk right (λ x. x ≡ b) →
        IfOk result (λ x. x ≡ two_some (λ y z. expr.Or y z) a b) }
{
    match two(alloc, left, right) {
        Ok(Some((left, right))) => Ok(Some(Expr::Or(left, right))),
        Ok(None) => Ok(None),
        Err(e) => Err(e),
    }
}

pub fn between(
    alloc: Global,
    negated: bool,
    subject: Result<Option<Expr>, AllocError>,
    low: Result<Option<Expr>, AllocError>,
    high: Result<Option<Expr>, AllocError>,
) -> Result<Option<Expr>, AllocError>
    ensures { (a b c : Option plan.Expr) → IfOk subject (λ x. x ≡ a) → IfOk low (λ x. x ≡ b)
        → IfOk high (λ x. x ≡ c) →
        IfOk result (λ x. x ≡ three_some (λ u v w. expr.Between negated u v w) a b c) }
{
    let bounds = two(alloc, low, high);
    match one(alloc, subject) {
        Ok(Some(subject)) => match bounds {
            Ok(Some((low, high))) => Ok(Some(Expr::Between {
                negated,
                subject,
                low,
                high,
            })),
            Ok(None) => {
                drop(subject);
                Ok(None)
            }
            Err(e) => {
                drop(subject);
                Err(e)
            }
        },
        Ok(None) => match bounds {
            Ok(bounds) => {
                drop(bounds);
                Ok(None)
            }
            Err(e) => Err(e),
        },
        Err(e) => {
            drop(bounds);
            Err(e)
        }
    }
}

/// IN
pub fn listed(
    alloc: Global,
    negated: bool,
    subject: Result<Option<Expr>, AllocError>,
    entries: Result<Option<Sequence<Expr>>, AllocError>,
) -> Result<Option<Expr>, AllocError>
    ensures { (a : Option plan.Expr) (b : Option (List plan.Expr)) → IfOk subject (λ x. x ≡ a)
        → IfOk entries (λ x. x ≡ b) →
        IfOk result (λ x. x ≡ two_some (λ y z. expr.In negated y z) a b) }
{
    match one(alloc, subject) {
        Ok(Some(subject)) => match entries {
            Ok(Some(list)) => Ok(Some(Expr::In {
                negated,
                subject,
                list,
            })),
            Ok(None) => {
                drop(subject);
                Ok(None)
            }
            Err(e) => {
                drop(subject);
                Err(e)
            }
        },
        Ok(None) => match entries {
            Ok(entries) => {
                drop(entries);
                Ok(None)
            }
            Err(e) => Err(e),
        },
        Err(e) => {
            drop(entries);
            Err(e)
        }
    }
}

pub fn coalesce(
    entries: Result<Option<Sequence<Expr>>, AllocError>,
) -> Result<Option<Expr>, AllocError>
    ensures { (a : Option (List plan.Expr)) → IfOk entries (λ x. x ≡ a)
        → IfOk result (λ x. x ≡ option_map (λ y. expr.Coalesce y) a) }
{
    match entries {
        Ok(Some(entries)) => Ok(Some(Expr::Coalesce(entries))),
        Ok(None) => Ok(None),
        Err(e) => Err(e),
    }
}

/// CASE
pub fn case(
    alloc: Global,
    arms: Result<Option<Sequence<Arm>>, AllocError>,
    otherwise: Result<Option<Expr>, AllocError>,
) -> Result<Option<Expr>, AllocError>
    ensures { (a : Option (List Arm)) (b : Option plan.Expr) → IfOk arms (λ x. x ≡ a)
        → IfOk otherwise (λ x. x ≡ b) →
        IfOk result (λ x. x ≡ two_some (λ y z. expr.Case y z) a b) }
{
    match arms {
        Ok(Some(arms)) => match one(alloc, otherwise) {
            Ok(Some(otherwise)) => Ok(Some(Expr::Case { arms, otherwise })),
            Ok(None) => {
                drop(arms);
                Ok(None)
            }
            Err(e) => {
                drop(arms);
                Err(e)
            }
        },
        Ok(None) => match otherwise {
            Ok(otherwise) => {
                drop(otherwise);
                Ok(None)
            }
            Err(e) => Err(e),
        },
        Err(e) => {
            drop(otherwise);
            Err(e)
        }
    }
}

/// An arm of a CASE.
pub fn arm(
    when: Result<Option<Expr>, AllocError>,
    value: Result<Option<Expr>, AllocError>,
) -> Result<Option<Arm>, AllocError>
    ensures { (a b : Option plan.Expr) → IfOk when (λ x. x ≡ a) → IfOk value (λ x. x ≡ b)
        → IfOk result (λ x. x ≡ arm_of (a, b)) }
{
    match when {
        Ok(Some(when)) => match value {
            Ok(Some(value)) => Ok(Some(Arm { when, then: value })),
            Ok(None) => {
                drop(when);
                Ok(None)
            }
            Err(e) => {
                drop(when);
                Err(e)
            }
        },
        Ok(None) => match value {
            Ok(value) => {
                drop(value);
                Ok(None)
            }
            Err(e) => Err(e),
        },
        Err(e) => {
            drop(value);
            Err(e)
        }
    }
}
