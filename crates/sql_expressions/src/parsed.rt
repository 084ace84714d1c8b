//! Expressions with their depth, made of parts that were read before.
ghost use Rattle.sql_expressions.specs.Rules.{Gives, case_node, deeper, leaf, negative, node, positive};
ghost use Rattle.sql_syntax.specs.Strength.{node_of};
ghost use Rattle.sql_syntax.specs.declared.tree.Expr.TheVariants as expr;
ghost use Rattle.std.specs.Prelude.{◌≡◌, IfOk, IsOkUnless, max};
ghost use Rattle.sql_expressions.specs.declared.stop.Stop.TheVariants.{TooDeep};

use crate::stop::Stop;
use meaning::{Boxed, ComparisonOperator, Sequence, Text};
use sql_syntax::{Aggregate, Arm, Expr, Operator};
use std::alloc::{AllocError, Global};
use std::mem::drop;

/// How deep a tree may be.
const MAX_DEPTH: u8 = 128;

/// An expression. A literal, a column and COUNT(*) have depth 1, any other is one deeper than its
/// deepest part.
#[derive(Drop)]
pub struct Parsed {
    pub expr: Expr,
    pub depth: u8,
}

/// An expression without parts.
pub fn leaf(expr: Expr) -> Parsed
    ensures { result ≡ leaf expr }
{
    Parsed { expr, depth: 1 }
}

fn deeper(deepest: u8) -> Result<u8, Stop>
    ensures reads { Gives (λ d. d) result (deeper 128 deepest) }
    ensures stops { IsOkUnless result TooDeep }
{
    if deepest < MAX_DEPTH {
        Ok(deepest + 1)
    } else {
        Err(Stop::TooDeep)
    }
}

/// An expression whose deepest part is so deep.
fn node(deepest: u8, expr: Expr) -> Result<Parsed, Stop>
    ensures reads { Gives (λ p. p) result (node 128 deepest expr) }
    ensures stops { IsOkUnless result TooDeep }
{
    match deeper(deepest) {
        Ok(depth) => Ok(Parsed { expr, depth }),
        Err(stop) => {
            drop(expr);
            Err(stop)
        }
    }
}

/// Both parts of a node.
fn boxed_pair(
    alloc: Global,
    left: Expr,
    right: Expr,
) -> Result<(Boxed<Expr>, Boxed<Expr>), AllocError>
    ensures left { IfOk result (λ parts. parts.0 ≡ left) }
    ensures right { IfOk result (λ parts. parts.1 ≡ right) }
{
    let left = match Boxed::new(alloc, left) {
        Ok(left) => left,
        Err(e) => {
            drop(right);
            return Err(e);
        }
    };
    match Boxed::new(alloc, right) {
        Ok(right) => Ok((left, right)),
        Err(e) => {
            drop(left);
            Err(e)
        }
    }
}

pub fn aggregate(alloc: Global, kind: Aggregate, argument: Parsed) -> Result<Parsed, Stop>
    ensures reads { Gives (λ p. p) result (node 128 argument.depth (expr.Aggregate kind argument.expr)) }
{
    let depth = argument.depth;
    let argument = Boxed::new(alloc, argument.expr)?;
    node(depth, Expr::Aggregate { kind, argument })
}

pub fn minus(alloc: Global, operand: Parsed) -> Result<Parsed, Stop>
    ensures reads { Gives (λ p. p) result (node 128 operand.depth (expr.Minus operand.expr)) }
{
    let depth = operand.depth;
    let operand = Boxed::new(alloc, operand.expr)?;
    node(depth, Expr::Minus(operand))
}

pub fn not(alloc: Global, operand: Parsed) -> Result<Parsed, Stop>
    ensures reads { Gives (λ p. p) result (node 128 operand.depth (expr.Not operand.expr)) }
{
    let depth = operand.depth;
    let operand = Boxed::new(alloc, operand.expr)?;
    node(depth, Expr::Not(operand))
}

fn joined_expr(operator: Operator, left: Boxed<Expr>, right: Boxed<Expr>) -> Expr
    ensures { result ≡ node_of operator left right }
{
    match operator {
        Operator::Or => Expr::Or { left, right },
        Operator::And => Expr::And { left, right },
        Operator::Reckon(operator) => Expr::Arithmetic {
            operator,
            left,
            right,
        },
    }
}

/// An operator between its operands.
pub fn joined(
    alloc: Global,
    operator: Operator,
    left: Parsed,
    right: Parsed,
) -> Result<Parsed, Stop>
    ensures reads { Gives (λ p. p) result
        (node 128 (max left.depth right.depth) (node_of operator left.expr right.expr)) }
{
    let depth = left.depth.max(right.depth);
    let (left, right) = boxed_pair(alloc, left.expr, right.expr)?;
    node(depth, joined_expr(operator, left, right))
}

pub fn compare(
    alloc: Global,
    operator: ComparisonOperator,
    left: Parsed,
    right: Parsed,
) -> Result<Parsed, Stop>
    ensures reads { Gives (λ p. p) result
        (node 128 (max left.depth right.depth) (expr.Compare operator left.expr right.expr)) }
{
    let depth = left.depth.max(right.depth);
    let (left, right) = boxed_pair(alloc, left.expr, right.expr)?;
    node(
        depth,
        Expr::Compare {
            operator,
            left,
            right,
        },
    )
}

pub fn between(
    alloc: Global,
    negated: bool,
    subject: Parsed,
    low: Parsed,
    high: Parsed,
) -> Result<Parsed, Stop>
    ensures reads { Gives (λ p. p) result
        (node 128 (max subject.depth (max low.depth high.depth))
        (expr.Between negated subject.expr low.expr high.expr)) }
{
    let depth = subject.depth.max(low.depth.max(high.depth));
    let bounds = boxed_pair(alloc, low.expr, high.expr);
    match bounds {
        Ok((low, high)) => match Boxed::new(alloc, subject.expr) {
            Ok(subject) => node(
                depth,
                Expr::Between {
                    negated,
                    subject,
                    low,
                    high,
                },
            ),
            Err(_) => {
                drop(low);
                drop(high);
                Err(Stop::Memory)
            }
        },
        Err(_) => {
            drop(subject.expr);
            Err(Stop::Memory)
        }
    }
}

pub fn among(
    alloc: Global,
    negated: bool,
    subject: Parsed,
    entries: Sequence<Expr>,
    deepest: u8,
) -> Result<Parsed, Stop>
    ensures reads { Gives (λ p. p) result
        (node 128 (max subject.depth deepest) (expr.In negated subject.expr entries)) }
{
    let depth = subject.depth.max(deepest);
    match Boxed::new(alloc, subject.expr) {
        Ok(subject) => node(
            depth,
            Expr::In {
                negated,
                subject,
                entries,
            },
        ),
        Err(_) => {
            drop(entries);
            Err(Stop::Memory)
        }
    }
}

pub fn like(alloc: Global, negated: bool, subject: Parsed, pattern: Text) -> Result<Parsed, Stop>
    ensures reads { Gives (λ p. p) result
        (node 128 subject.depth (expr.Like negated subject.expr pattern)) }
{
    let depth = subject.depth;
    let subject = Boxed::new(alloc, subject.expr)?;
    node(
        depth,
        Expr::Like {
            negated,
            subject,
            pattern,
        },
    )
}

pub fn is_null(alloc: Global, negated: bool, subject: Parsed) -> Result<Parsed, Stop>
    ensures reads { Gives (λ p. p) result (node 128 subject.depth (expr.IsNull negated subject.expr)) }
{
    let depth = subject.depth;
    let subject = Boxed::new(alloc, subject.expr)?;
    node(depth, Expr::IsNull { negated, subject })
}

pub fn coalesce(entries: Sequence<Expr>, deepest: u8) -> Result<Parsed, Stop>
    ensures reads { Gives (λ p. p) result (node 128 deepest (expr.Coalesce entries)) }
    ensures stops { IsOkUnless result TooDeep }
{
    node(deepest, Expr::Coalesce(entries))
}

/// CASE with its arms, of which the deepest expression is so deep.
pub fn case(
    alloc: Global,
    arms: Sequence<Arm>,
    deepest: u8,
    otherwise: Option<Parsed>,
) -> Result<Parsed, Stop>
    ensures reads { Gives (λ p. p) result
        (case_node 128 (record { arms = arms; deepest = deepest }) otherwise) }
{
    let Some(value) = otherwise else {
        return node(
            deepest,
            Expr::Case {
                arms,
                otherwise: None,
            },
        );
    };
    let depth = deepest.max(value.depth);
    match Boxed::new(alloc, value.expr) {
        Ok(value) => node(
            depth,
            Expr::Case {
                arms,
                otherwise: Some(value),
            },
        ),
        Err(_) => {
            drop(arms);
            Err(Stop::Memory)
        }
    }
}

/// The literal that digits are, where no minus stands before them.
pub fn positive(digits: u64) -> Option<i64>
    ensures { result ≡ positive digits }
{
    if digits <= 9223372036854775807 {
        Some(digits as i64)
    } else {
        None
    }
}

/// The literal that a minus and the digits right behind it are.
pub fn negative(digits: u64) -> Option<i64>
    ensures { result ≡ negative digits }
{
    if digits == 0 {
        Some(0)
    } else if digits <= 9223372036854775808 {
        Some(-((digits - 1) as i64) - 1)
    } else {
        None
    }
}
