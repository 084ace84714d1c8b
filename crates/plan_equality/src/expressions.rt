//! Whether two expressions are equal.
ghost use Rattle.std.specs.Prelude.{◌≡◌, ◌↔◌, IsTrue};
ghost use Rattle.meaning.specs.declared.expr.Expr.TheVariants as node;

use meaning::{ArithmeticOperator, Arm, ComparisonOperator, Expr, Text, Value};

fn is_same_arithmetic(a: ArithmeticOperator, b: ArithmeticOperator) -> bool
    ensures { IsTrue result ↔ (a ≡ b) }
{
    match (a, b) {
        (ArithmeticOperator::Add, ArithmeticOperator::Add)
        | (ArithmeticOperator::Subtract, ArithmeticOperator::Subtract)
        | (ArithmeticOperator::Multiply, ArithmeticOperator::Multiply)
        | (ArithmeticOperator::Divide, ArithmeticOperator::Divide) => true,
        _ => false,
    }
}

fn is_same_comparison(a: ComparisonOperator, b: ComparisonOperator) -> bool
    ensures { IsTrue result ↔ (a ≡ b) }
{
    match (a, b) {
        (ComparisonOperator::Equal, ComparisonOperator::Equal)
        | (ComparisonOperator::NotEqual, ComparisonOperator::NotEqual)
        | (ComparisonOperator::Less, ComparisonOperator::Less)
        | (ComparisonOperator::LessOrEqual, ComparisonOperator::LessOrEqual)
        | (ComparisonOperator::Greater, ComparisonOperator::Greater)
        | (ComparisonOperator::GreaterOrEqual, ComparisonOperator::GreaterOrEqual) => true,
        _ => false,
    }
}

fn is_same_value(a: &Value, b: &Value) -> bool
    ensures { IsTrue result ↔ (a.now ≡ b.now) }
{
    a == b
}

/// Whether two expressions are equal, node by node.
#[cycle(same)]
pub fn is_same_expr(a: &Expr, b: &Expr) -> bool
    ensures { IsTrue result ↔ (a.now ≡ b.now) }
{
    match a {
        Expr::Column(column) => is_column(*column, b),
        Expr::Joined { join, column } => is_joined(*join, *column, b),
        Expr::Key(key) => is_key(*key, b),
        Expr::Aggregate(aggregate) => is_aggregate(*aggregate, b),
        Expr::Literal(value) => is_literal(value, b),
        Expr::Minus(operand) => is_minus(operand.get(), b),
        Expr::Arithmetic(operator, left, right) => {
            is_arithmetic(*operator, left.get(), right.get(), b)
        }
        Expr::Compare(operator, left, right) => is_comparison(
            *operator,
            left.get(),
            right.get(),
            b,
        ),
        Expr::Not(operand) => is_not(operand.get(), b),
        Expr::And(left, right) => is_and(left.get(), right.get(), b),
        Expr::Or(left, right) => is_or(left.get(), right.get(), b),
        Expr::IsNull { negated, subject } => is_null_test(*negated, subject.get(), b),
        Expr::Between {
            negated,
            subject,
            low,
            high,
        } => is_between(*negated, subject.get(), low.get(), high.get(), b),
        Expr::In {
            negated,
            subject,
            list,
        } => is_in(*negated, list.as_slice(), subject.get(), b),
        Expr::Like {
            negated,
            subject,
            pattern,
        } => is_like(*negated, subject.get(), pattern, b),
        Expr::Coalesce(list) => is_coalesce(list.as_slice(), b),
        Expr::Case { arms, otherwise } => is_case(arms.as_slice(), otherwise.get(), b),
    }
}

fn is_column(column: usize, b: &Expr) -> bool
    ensures { IsTrue result ↔ (node.Column column ≡ b.now) }
{
    match b {
        Expr::Column(other) => column == *other,
        _ => false,
    }
}

fn is_joined(join: usize, column: usize, b: &Expr) -> bool
    ensures { IsTrue result ↔ (node.Joined join column ≡ b.now) }
{
    match b {
        Expr::Joined { join: i, column: p } => join == *i && column == *p,
        _ => false,
    }
}

fn is_key(key: usize, b: &Expr) -> bool
    ensures { IsTrue result ↔ (node.Key key ≡ b.now) }
{
    match b {
        Expr::Key(other) => key == *other,
        _ => false,
    }
}

fn is_aggregate(aggregate: usize, b: &Expr) -> bool
    ensures { IsTrue result ↔ (node.Aggregate aggregate ≡ b.now) }
{
    match b {
        Expr::Aggregate(other) => aggregate == *other,
        _ => false,
    }
}

fn is_literal(value: &Value, b: &Expr) -> bool
    ensures { IsTrue result ↔ (node.Literal value.now ≡ b.now) }
{
    match b {
        Expr::Literal(other) => is_same_value(value, other),
        _ => false,
    }
}

#[cycle(same)]
fn is_minus(operand: &Expr, b: &Expr) -> bool
    ensures { IsTrue result ↔ (node.Minus operand.now ≡ b.now) }
{
    match b {
        Expr::Minus(other) => is_same_expr(operand, other.get()),
        _ => false,
    }
}

#[cycle(same)]
fn is_arithmetic(operator: ArithmeticOperator, left: &Expr, right: &Expr, b: &Expr) -> bool
    ensures { IsTrue result ↔ (node.Arithmetic operator left.now right.now ≡ b.now) }
{
    match b {
        Expr::Arithmetic(other, b_left, b_right) => {
            is_same_arithmetic(operator, *other)
                && is_same_expr(left, b_left.get())
                && is_same_expr(right, b_right.get())
        }
        _ => false,
    }
}

#[cycle(same)]
fn is_comparison(operator: ComparisonOperator, left: &Expr, right: &Expr, b: &Expr) -> bool
    ensures { IsTrue result ↔ (node.Compare operator left.now right.now ≡ b.now) }
{
    match b {
        Expr::Compare(other, b_left, b_right) => {
            is_same_comparison(operator, *other)
                && is_same_expr(left, b_left.get())
                && is_same_expr(right, b_right.get())
        }
        _ => false,
    }
}

#[cycle(same)]
fn is_not(operand: &Expr, b: &Expr) -> bool
    ensures { IsTrue result ↔ (node.Not operand.now ≡ b.now) }
{
    match b {
        Expr::Not(other) => is_same_expr(operand, other.get()),
        _ => false,
    }
}

#[cycle(same)]
fn is_and(left: &Expr, right: &Expr, b: &Expr) -> bool
    ensures { IsTrue result ↔ (node.And left.now right.now ≡ b.now) }
{
    match b {
        Expr::And(b_left, b_right) => {
            is_same_expr(left, b_left.get()) && is_same_expr(right, b_right.get())
        }
        _ => false,
    }
}

#[cycle(same)]
fn is_or(left: &Expr, right: &Expr, b: &Expr) -> bool
    ensures { IsTrue result ↔ (node.Or left.now right.now ≡ b.now) }
{
    match b {
        Expr::Or(b_left, b_right) => {
            is_same_expr(left, b_left.get()) && is_same_expr(right, b_right.get())
        }
        _ => false,
    }
}

#[cycle(same)]
fn is_null_test(negated: bool, subject: &Expr, b: &Expr) -> bool
    ensures { IsTrue result ↔ (node.IsNull negated subject.now ≡ b.now) }
{
    match b {
        Expr::IsNull {
            negated: n,
            subject: other,
        } => negated == *n && is_same_expr(subject, other.get()),
        _ => false,
    }
}

#[cycle(same)]
fn is_between(negated: bool, subject: &Expr, low: &Expr, high: &Expr, b: &Expr) -> bool
    ensures { IsTrue result ↔ (node.Between negated subject.now low.now high.now ≡ b.now) }
{
    match b {
        Expr::Between {
            negated: n,
            subject: other,
            low: b_low,
            high: b_high,
        } => {
            negated == *n
                && is_same_expr(subject, other.get())
                && is_same_expr(low, b_low.get())
                && is_same_expr(high, b_high.get())
        }
        _ => false,
    }
}

#[cycle(same)]
fn is_in(negated: bool, list: &[Expr], subject: &Expr, b: &Expr) -> bool
    ensures { IsTrue result ↔ (node.In negated subject.now list.now ≡ b.now) }
{
    match b {
        Expr::In {
            negated: n,
            subject: other,
            list: b_list,
        } => {
            negated == *n
                && is_same_expr(subject, other.get())
                && are_same_exprs(list, b_list.as_slice())
        }
        _ => false,
    }
}

#[cycle(same)]
fn is_like(negated: bool, subject: &Expr, pattern: &Text, b: &Expr) -> bool
    ensures { IsTrue result ↔ (node.Like negated subject.now pattern.now ≡ b.now) }
{
    match b {
        Expr::Like {
            negated: n,
            subject: other,
            pattern: q,
        } => negated == *n && pattern == q && is_same_expr(subject, other.get()),
        _ => false,
    }
}

#[cycle(same)]
fn is_coalesce(list: &[Expr], b: &Expr) -> bool
    ensures { IsTrue result ↔ (node.Coalesce list.now ≡ b.now) }
{
    match b {
        Expr::Coalesce(other) => are_same_exprs(list, other.as_slice()),
        _ => false,
    }
}

#[cycle(same)]
fn is_case(arms: &[Arm], otherwise: &Expr, b: &Expr) -> bool
    ensures { IsTrue result ↔ (node.Case arms.now otherwise.now ≡ b.now) }
{
    match b {
        Expr::Case {
            arms: b_arms,
            otherwise: other,
        } => is_same_expr(otherwise, other.get()) && are_same_arms(arms, b_arms.as_slice()),
        _ => false,
    }
}

/// Whether two lists of expressions are equal.
#[cycle(same)]
pub fn are_same_exprs(a: &[Expr], b: &[Expr]) -> bool
    ensures { IsTrue result ↔ (a.now ≡ b.now) }
{
    if a.len() != b.len() {
        return false;
    }
    for i in 0..a.len() {
        if !is_same_expr(&a[i], &b[i]) {
            return false;
        }
    }
    true
}

#[cycle(same)]
fn is_same_arm(a: &Arm, b: &Arm) -> bool
    ensures { IsTrue result ↔ (a.now ≡ b.now) }
{
    is_same_expr(&a.when, &b.when) && is_same_expr(&a.then, &b.then)
}

#[cycle(same)]
fn are_same_arms(a: &[Arm], b: &[Arm]) -> bool
    ensures { IsTrue result ↔ (a.now ≡ b.now) }
{
    if a.len() != b.len() {
        return false;
    }
    for i in 0..a.len() {
        if !is_same_arm(&a[i], &b[i]) {
            return false;
        }
    }
    true
}
