//! Each node over NULL, faults and values.
use crate::eval_row;
use meaning::{
    ArithmeticOperator, Arm, Boxed, ComparisonOperator, Expr, JoinedRow, Outcome, Row, Sequence,
    Text, Truth, Value,
};
use std::alloc::{AllocError, Global};
use std::mem::drop;
use std::process::Abort;

const Q: Expr = Expr::Column(2);

const P: Expr = Expr::Column(3);

type Built = Result<Expr, AllocError>;

fn number(n: i64) -> Expr {
    Expr::Literal(Value::Int(n))
}

fn int(n: i64) -> Built {
    Ok(number(n))
}

fn boxed(alloc: Global, a: Built) -> Result<Boxed<Expr>, AllocError> {
    Boxed::new(alloc, a?)
}

fn both(alloc: Global, a: Built, b: Built) -> Result<(Boxed<Expr>, Boxed<Expr>), AllocError> {
    Ok((boxed(alloc, a)?, boxed(alloc, b)?))
}

fn divide(alloc: Global, a: Built, b: Built) -> Built {
    let (a, b) = both(alloc, a, b)?;
    Ok(Expr::Arithmetic(ArithmeticOperator::Divide, a, b))
}

fn equal(alloc: Global, a: Built, b: Built) -> Built {
    let (a, b) = both(alloc, a, b)?;
    Ok(Expr::Compare(ComparisonOperator::Equal, a, b))
}

fn and(alloc: Global, a: Built, b: Built) -> Built {
    let (a, b) = both(alloc, a, b)?;
    Ok(Expr::And(a, b))
}

/// `p BETWEEN low AND high`.
fn between(alloc: Global, low: i64, high: i64) -> Built {
    let (low, high) = both(alloc, int(low), int(high))?;
    Ok(Expr::Between {
        negated: false,
        subject: boxed(alloc, Ok(P))?,
        low,
        high,
    })
}

fn pair(alloc: Global, a: Expr, b: Expr) -> Result<Sequence<Expr>, AllocError> {
    Ok(Sequence::from_vec(vec![in alloc; a, b]?))
}

/// `p NOT IN (list)`.
fn not_in(alloc: Global, list: Result<Sequence<Expr>, AllocError>) -> Built {
    let list = list?;
    Ok(Expr::In {
        negated: true,
        subject: boxed(alloc, Ok(P))?,
        list,
    })
}

/// `t LIKE pattern`.
fn like(alloc: Global, pattern: &str) -> Built {
    let pattern = Text::new(alloc, pattern)?;
    Ok(Expr::Like {
        negated: false,
        subject: boxed(alloc, Ok(Expr::Column(4)))?,
        pattern,
    })
}

/// `CASE WHEN when THEN then ELSE otherwise END`.
fn case(alloc: Global, when: Built, then: i64, otherwise: i64) -> Built {
    let arm = Arm {
        when: when?,
        then: number(then),
    };
    let arms = Sequence::from_vec(vec![in alloc; arm]?);
    Ok(Expr::Case {
        arms,
        otherwise: boxed(alloc, int(otherwise))?,
    })
}

/// `COALESCE (q, p, last)`.
fn coalesce(alloc: Global, last: Built) -> Built {
    let last = last?;
    let list = Sequence::from_vec(vec![in alloc; Q, P, last]?);
    Ok(Expr::Coalesce(list))
}

/// `1 / 0 = 1`.
fn faulty(alloc: Global) -> Built {
    equal(alloc, divide(alloc, int(1), int(0)), int(1))
}

/// The row (2, 10, NULL, 7, 'é').
fn fact(alloc: Global) -> Result<Row, AllocError> {
    let text = Value::Text(Text::new(alloc, "é")?);
    let values = vec![in alloc;
        Value::Int(2),
        Value::Int(10),
        Value::Null,
        Value::Int(7),
        text,
    ]?;
    Ok(Row::from_vec(values))
}

/// The row (10, 'north').
fn store(alloc: Global) -> Result<Row, AllocError> {
    let text = Value::Text(Text::new(alloc, "north")?);
    Ok(Row::from_vec(vec![in alloc; Value::Int(10), text]?))
}

fn row(alloc: Global) -> Result<JoinedRow, AllocError> {
    let store = store(alloc)?;
    let joins = Sequence::from_vec(vec![in alloc; store]?);
    Ok(JoinedRow {
        fact: fact(alloc)?,
        joins,
        key: Row::new(alloc),
        aggregates: Row::new(alloc),
    })
}

fn truth_word(truth: Truth) -> &'static str {
    match truth {
        Truth::False => "FALSE",
        Truth::Unknown => "UNKNOWN",
        Truth::True => "TRUE",
    }
}

fn outcome_text(alloc: Global, outcome: &Outcome) -> Result<String, AllocError> {
    match outcome {
        Outcome::Value(Value::Null) => String::from_str(alloc, "NULL"),
        Outcome::Value(Value::Int(n)) => format!(in alloc; "{n}"),
        Outcome::Value(Value::Text(text)) => String::from_str(alloc, text.as_str()),
        Outcome::Truth(truth) => String::from_str(alloc, truth_word(*truth)),
        Outcome::Fault(fault) => format!(in alloc; "fault {}", fault.code()),
    }
}

/// The text of what the expression gives on the row.
fn shown(alloc: Global, expr: &Expr) -> Result<String, AllocError> {
    let row = row(alloc)?;
    let outcome = eval_row(alloc, expr, &row);
    drop(row);
    outcome_text(alloc, &outcome?)
}

fn expect(rt: &impl Abort, alloc: Global, expr: Built, want: &str) -> Result<(), AllocError> {
    let expr = expr?;
    let shown = shown(alloc, &expr);
    drop(expr);
    assert_eq!(rt; shown?.as_str(), want);
    Ok(())
}

#[test]
fn null_comes_before_a_zero_divisor(rt: HostRuntime) -> Result<(), AllocError> {
    let alloc = rt.alloc();
    let expr = divide(alloc, Ok(Q), int(0));
    expect(&rt, alloc, expr, "NULL")
}

#[test]
fn division_rounds_towards_zero(rt: HostRuntime) -> Result<(), AllocError> {
    let alloc = rt.alloc();
    let expr = divide(alloc, int(-7), int(2));
    expect(&rt, alloc, expr, "-3")
}

#[test]
fn the_least_integer_by_minus_one_overflows(rt: HostRuntime) -> Result<(), AllocError> {
    let alloc = rt.alloc();
    let expr = divide(alloc, int(i64::MIN), int(-1));
    expect(&rt, alloc, expr, "fault 1")
}

#[test]
fn unknown_leaves_the_right_side_to_be_evaluated(rt: HostRuntime) -> Result<(), AllocError> {
    let alloc = rt.alloc();
    let expr = and(alloc, equal(alloc, Ok(Q), int(2)), faulty(alloc));
    expect(&rt, alloc, expr, "fault 2")
}

#[test]
fn false_does_not(rt: HostRuntime) -> Result<(), AllocError> {
    let alloc = rt.alloc();
    let expr = and(alloc, equal(alloc, Ok(P), int(8)), faulty(alloc));
    expect(&rt, alloc, expr, "FALSE")
}

#[test]
fn between_has_both_ends(rt: HostRuntime) -> Result<(), AllocError> {
    let alloc = rt.alloc();
    let expr = between(alloc, 7, 7);
    expect(&rt, alloc, expr, "TRUE")
}

#[test]
fn not_in_a_list_with_null_is_unknown(rt: HostRuntime) -> Result<(), AllocError> {
    let alloc = rt.alloc();
    let expr = not_in(alloc, pair(alloc, Q, number(8)));
    expect(&rt, alloc, expr, "UNKNOWN")
}

#[test]
fn a_character_of_two_bytes_is_one(rt: HostRuntime) -> Result<(), AllocError> {
    let alloc = rt.alloc();
    let expr = like(alloc, "_");
    expect(&rt, alloc, expr, "TRUE")
}

#[test]
fn a_join_lends_its_columns(rt: HostRuntime) -> Result<(), AllocError> {
    let alloc = rt.alloc();
    let expr = equal(
        alloc,
        Ok(Expr::Column(1)),
        Ok(Expr::Joined { join: 0, column: 0 }),
    );
    expect(&rt, alloc, expr, "TRUE")
}

#[test]
fn case_passes_over_unknown(rt: HostRuntime) -> Result<(), AllocError> {
    let alloc = rt.alloc();
    let expr = case(alloc, equal(alloc, Ok(Q), int(0)), 1, 3);
    expect(&rt, alloc, expr, "3")
}

#[test]
fn coalesce_stops_at_its_first_value(rt: HostRuntime) -> Result<(), AllocError> {
    let alloc = rt.alloc();
    let expr = coalesce(alloc, divide(alloc, Ok(P), int(0)));
    expect(&rt, alloc, expr, "7")
}
