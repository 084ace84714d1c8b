//! The text of an expression, as the canonical text of a query has it, with each column behind its
//! table's name where there are several.
use crate::names::{Names, Phrase};
use crate::words::{aggregate_word, put_literal, put_text};
use meaning::{
    Aggregate, AggregateKind, ArithmeticOperator, Arm, Boxed, ComparisonOperator, Expr,
    GroupingKey, Sequence, Text, Value,
};
use sql_syntax::{Level, Sign, level_of_arithmetic, sign_of_arithmetic, sign_of_comparison};
use std::alloc::{AllocError, Global};

fn level_among(phrases: &[Phrase], at: usize) -> Level {
    match phrases.get(at) {
        Some(phrase) => phrase.level,
        None => Level::Primary,
    }
}

fn put_phrase(out: &mut String, phrases: &[Phrase], at: usize) -> Result<(), AllocError> {
    match phrases.get(at) {
        Some(phrase) => out.push_str(phrase.text.as_str()),
        None => out.push_str("?"),
    }
}

/// The strongest rule that gives an expression without brackets.
fn strength(names: &Names<'_>, expr: &Expr) -> Level {
    match expr {
        Expr::Key(key) => level_among(names.keys.as_slice(), *key),
        Expr::Aggregate(aggregate) => level_among(names.aggregates.as_slice(), *aggregate),
        Expr::Or(_, _) => Level::Disjunction,
        Expr::And(_, _) => Level::Conjunction,
        Expr::Not(_) => Level::Negation,
        Expr::Compare(_, _, _)
        | Expr::IsNull { .. }
        | Expr::Between { .. }
        | Expr::In { .. }
        | Expr::Like { .. } => Level::Predicate,
        Expr::Arithmetic(operator, _, _) => level_of_arithmetic(*operator),
        Expr::Minus(_) | Expr::Literal(Value::Int(_)) => Level::Factor,
        _ => Level::Primary,
    }
}

/// A leaf, which has no parts.
fn put_leaf(out: &mut String, names: &Names<'_>, expr: &Expr) -> Result<(), AllocError> {
    match expr {
        Expr::Column(column) => names.put_column(out, &names.fact, *column),
        Expr::Joined { join, column } => names.put_joined(out, *join, *column),
        Expr::Key(key) => put_phrase(out, names.keys.as_slice(), *key),
        Expr::Aggregate(aggregate) => put_phrase(out, names.aggregates.as_slice(), *aggregate),
        Expr::Literal(value) => put_literal(out, value),
        _ => Ok(()),
    }
}

/// An expression where those of a rule are taken, in brackets where it binds less.
#[cycle(writing)]
pub fn put_at(
    out: &mut String,
    names: &Names<'_>,
    level: Level,
    expr: &Expr,
) -> Result<(), AllocError> {
    if level.rank() <= strength(names, expr).rank() {
        put_expr(out, names, expr)
    } else {
        out.push_str("(")?;
        put_expr(out, names, expr)?;
        out.push_str(")")
    }
}

/// An expression behind some words.
#[cycle(writing)]
fn put_behind(
    out: &mut String,
    names: &Names<'_>,
    words: &str,
    level: Level,
    expr: &Expr,
) -> Result<(), AllocError> {
    out.push_str(words)?;
    put_at(out, names, level, expr)
}

/// An expression behind a sign, which has a blank on each side.
#[cycle(writing)]
fn put_behind_sign(
    out: &mut String,
    names: &Names<'_>,
    sign: Sign,
    level: Level,
    expr: &Expr,
) -> Result<(), AllocError> {
    out.push_str(" ")?;
    out.push_str(sign.spelling())?;
    put_behind(out, names, " ", level, expr)
}

/// Two operands with an operator of arithmetic between.
#[cycle(writing)]
fn put_arithmetic(
    out: &mut String,
    names: &Names<'_>,
    operator: ArithmeticOperator,
    left: &Boxed<Expr>,
    right: &Boxed<Expr>,
) -> Result<(), AllocError> {
    let level = level_of_arithmetic(operator);
    put_at(out, names, level, left.get())?;
    put_behind_sign(
        out,
        names,
        sign_of_arithmetic(operator),
        level.next(),
        right.get(),
    )
}

#[cycle(writing)]
fn put_comparison(
    out: &mut String,
    names: &Names<'_>,
    operator: ComparisonOperator,
    left: &Boxed<Expr>,
    right: &Boxed<Expr>,
) -> Result<(), AllocError> {
    put_at(out, names, Level::Sum, left.get())?;
    put_behind_sign(
        out,
        names,
        sign_of_comparison(operator),
        Level::Sum,
        right.get(),
    )
}

#[cycle(writing)]
fn put_and(
    out: &mut String,
    names: &Names<'_>,
    left: &Boxed<Expr>,
    right: &Boxed<Expr>,
) -> Result<(), AllocError> {
    put_at(out, names, Level::Conjunction, left.get())?;
    put_behind(out, names, " AND ", Level::Negation, right.get())
}

#[cycle(writing)]
fn put_or(
    out: &mut String,
    names: &Names<'_>,
    left: &Boxed<Expr>,
    right: &Boxed<Expr>,
) -> Result<(), AllocError> {
    put_at(out, names, Level::Disjunction, left.get())?;
    put_behind(out, names, " OR ", Level::Conjunction, right.get())
}

#[cycle(writing)]
fn put_is_null(
    out: &mut String,
    names: &Names<'_>,
    negated: bool,
    subject: &Boxed<Expr>,
) -> Result<(), AllocError> {
    put_at(out, names, Level::Sum, subject.get())?;
    out.push_str(if negated { " IS NOT NULL" } else { " IS NULL" })
}

/// What a predicate is about, and whether NOT stands behind it.
#[cycle(writing)]
fn put_subject(
    out: &mut String,
    names: &Names<'_>,
    negated: bool,
    subject: &Expr,
) -> Result<(), AllocError> {
    put_at(out, names, Level::Sum, subject)?;
    out.push_str(if negated { " NOT" } else { "" })
}

#[cycle(writing)]
fn put_bounds(
    out: &mut String,
    names: &Names<'_>,
    low: &Expr,
    high: &Expr,
) -> Result<(), AllocError> {
    put_behind(out, names, " BETWEEN ", Level::Sum, low)?;
    put_behind(out, names, " AND ", Level::Sum, high)
}

#[cycle(writing)]
fn put_between(
    out: &mut String,
    names: &Names<'_>,
    negated: bool,
    subject: &Boxed<Expr>,
    low: &Boxed<Expr>,
    high: &Boxed<Expr>,
) -> Result<(), AllocError> {
    put_subject(out, names, negated, subject.get())?;
    put_bounds(out, names, low.get(), high.get())
}

#[cycle(writing)]
fn put_in(
    out: &mut String,
    names: &Names<'_>,
    list: &Sequence<Expr>,
    negated: bool,
    subject: &Boxed<Expr>,
) -> Result<(), AllocError> {
    put_subject(out, names, negated, subject.get())?;
    put_list(out, names, " IN (", list.as_slice())
}

#[cycle(writing)]
fn put_like(
    out: &mut String,
    names: &Names<'_>,
    negated: bool,
    subject: &Boxed<Expr>,
    pattern: &Text,
) -> Result<(), AllocError> {
    put_subject(out, names, negated, subject.get())?;
    out.push_str(" LIKE ")?;
    put_text(out, pattern.as_str())
}

#[cycle(writing)]
fn put_case(
    out: &mut String,
    names: &Names<'_>,
    arms: &Sequence<Arm>,
    otherwise: &Boxed<Expr>,
) -> Result<(), AllocError> {
    put_arms(out, names, arms.as_slice())?;
    put_else(out, names, otherwise.get())
}

#[cycle(writing)]
fn put_expr(out: &mut String, names: &Names<'_>, expr: &Expr) -> Result<(), AllocError> {
    match expr {
        Expr::Column(_)
        | Expr::Joined { .. }
        | Expr::Key(_)
        | Expr::Aggregate(_)
        | Expr::Literal(_) => put_leaf(out, names, expr),
        Expr::Minus(operand) => put_behind(out, names, "-", Level::Primary, operand.get()),
        Expr::Arithmetic(operator, left, right) => {
            put_arithmetic(out, names, *operator, left, right)
        }
        Expr::Compare(operator, left, right) => {
            put_comparison(out, names, *operator, left, right)
        }
        Expr::Not(operand) => put_behind(out, names, "NOT ", Level::Negation, operand.get()),
        Expr::And(left, right) => put_and(out, names, left, right),
        Expr::Or(left, right) => put_or(out, names, left, right),
        Expr::IsNull { negated, subject } => put_is_null(out, names, *negated, subject),
        Expr::Between {
            negated,
            subject,
            low,
            high,
        } => put_between(out, names, *negated, subject, low, high),
        Expr::In {
            negated,
            subject,
            list,
        } => put_in(out, names, list, *negated, subject),
        Expr::Like {
            negated,
            subject,
            pattern,
        } => put_like(out, names, *negated, subject, pattern),
        Expr::Coalesce(list) => put_list(out, names, "COALESCE(", list.as_slice()),
        Expr::Case { arms, otherwise } => put_case(out, names, arms, otherwise),
    }
}

/// Expressions between brackets, of which the opening one stands behind some words.
#[cycle(writing)]
fn put_list(
    out: &mut String,
    names: &Names<'_>,
    opening: &str,
    list: &[Expr],
) -> Result<(), AllocError> {
    out.push_str(opening)?;
    put_entries(out, names, list)?;
    out.push_str(")")
}

/// Expressions with commas between.
#[cycle(writing)]
fn put_entries(out: &mut String, names: &Names<'_>, list: &[Expr]) -> Result<(), AllocError> {
    let Some((first, rest)) = list.split_first() else {
        return Ok(());
    };
    put_at(out, names, Level::Disjunction, first)?;
    for entry in rest {
        put_behind(out, names, ", ", Level::Disjunction, entry)?;
    }
    Ok(())
}

#[cycle(writing)]
fn put_arms(out: &mut String, names: &Names<'_>, arms: &[Arm]) -> Result<(), AllocError> {
    out.push_str("CASE")?;
    for arm in arms {
        put_behind(out, names, " WHEN ", Level::Disjunction, &arm.when)?;
        put_behind(out, names, " THEN ", Level::Disjunction, &arm.then)?;
    }
    Ok(())
}

/// A query can't write NULL, so that it is an ELSE which is missing.
#[cycle(writing)]
fn put_else(out: &mut String, names: &Names<'_>, otherwise: &Expr) -> Result<(), AllocError> {
    match otherwise {
        Expr::Literal(Value::Null) => {}
        _ => put_behind(out, names, " ELSE ", Level::Disjunction, otherwise)?,
    }
    out.push_str(" END")
}

/// Writes an expression where any is taken.
pub fn put(out: &mut String, names: &Names<'_>, expr: &Expr) -> Result<(), AllocError> {
    put_at(out, names, Level::Disjunction, expr)
}

fn put_aggregate(
    out: &mut String,
    names: &Names<'_>,
    aggregate: &Aggregate,
) -> Result<(), AllocError> {
    out.push_str(aggregate_word(aggregate.kind))?;
    match aggregate.kind {
        AggregateKind::CountRows => out.push_str("*")?,
        _ => put(out, names, &aggregate.argument)?,
    }
    out.push_str(")")
}

/// The texts of grouping keys, over rows.
pub fn phrase_keys(
    alloc: Global,
    names: &Names<'_>,
    keys: &[GroupingKey],
) -> Result<Vec<Phrase>, AllocError> {
    let mut phrases = Vec::new(alloc);
    for key in keys {
        let mut text = String::new(alloc);
        put(&mut text, names, &key.expr)?;
        let level = strength(names, &key.expr);
        phrases.push(Phrase { text, level })?;
    }
    Ok(phrases)
}

/// The texts of aggregates, over rows.
pub fn phrase_aggregates(
    alloc: Global,
    names: &Names<'_>,
    aggregates: &[Aggregate],
) -> Result<Vec<Phrase>, AllocError> {
    let mut phrases = Vec::new(alloc);
    for aggregate in aggregates {
        let mut text = String::new(alloc);
        put_aggregate(&mut text, names, aggregate)?;
        let level = Level::Primary;
        phrases.push(Phrase { text, level })?;
    }
    Ok(phrases)
}
