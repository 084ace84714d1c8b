//! Expressions in postfix: `c0 2 *` is the column 0 times two.
use meaning::{ArithmeticOperator, Arm, Boxed, ComparisonOperator, Expr, Sequence, Text, Value};
use std::alloc::{AllocError, Global};
use std::mem::drop;
use vector_cases::{Word, comparison_of, word_of};
use vectors::ColumnReference;

type Built = Result<Expr, AllocError>;

fn number_behind(letter: char, word: &str) -> Option<usize> {
    word.strip_prefix(letter)?.parse::<usize>().ok()
}

fn join_reference(word: &str) -> Option<ColumnReference> {
    let (join, column) = word.strip_prefix('j')?.split_once('.')?;
    let join = join.parse::<usize>().ok()?;
    let column = column.parse::<usize>().ok()?;
    Some(ColumnReference::Join { join, column })
}

/// `c0` is the fact's column 0, `j0.1` the column 1 of the join 0, `k0` a key, `a0` an aggregate.
pub fn reference_of(word: &str) -> Option<ColumnReference> {
    if let Some(column) = number_behind('c', word) {
        return Some(ColumnReference::Fact { column });
    }
    if let Some(key) = number_behind('k', word) {
        return Some(ColumnReference::Key { key });
    }
    if let Some(aggregate) = number_behind('a', word) {
        return Some(ColumnReference::Aggregate { aggregate });
    }
    join_reference(word)
}

fn column_at(reference: ColumnReference) -> Expr {
    match reference {
        ColumnReference::Fact { column } => Expr::Column(column),
        ColumnReference::Join { join, column } => Expr::Joined { join, column },
        ColumnReference::Key { key } => Expr::Key(key),
        ColumnReference::Aggregate { aggregate } => Expr::Aggregate(aggregate),
    }
}

fn literal(alloc: Global, word: &str) -> Built {
    match word_of(word) {
        Word::Null => Ok(Expr::Literal(Value::Null)),
        Word::Int(int) => Ok(Expr::Literal(Value::Int(int))),
        Word::Text(text) => Ok(Expr::Literal(Value::Text(Text::new(alloc, text)?))),
    }
}

/// The last operand; NULL where there is none.
fn pop(stack: &mut Vec<Expr>) -> Expr {
    match stack.pop() {
        Some(expr) => expr,
        None => Expr::Literal(Value::Null),
    }
}

/// The last operands, in their order.
fn pop_list(
    alloc: Global,
    stack: &mut Vec<Expr>,
    count: usize,
) -> Result<Sequence<Expr>, AllocError> {
    let mut list = Vec::new(alloc);
    for _ in 0..count {
        list.push(pop(stack))?;
    }
    list.reverse();
    Ok(Sequence::from_vec(list))
}

/// The last conditions and values, in their order.
fn pop_arms(
    alloc: Global,
    stack: &mut Vec<Expr>,
    count: usize,
) -> Result<Sequence<Arm>, AllocError> {
    let mut arms = Vec::new(alloc);
    for _ in 0..count {
        let then = pop(stack);
        let when = pop(stack);
        arms.push(Arm { when, then })?;
    }
    arms.reverse();
    Ok(Sequence::from_vec(arms))
}

fn boxed(alloc: Global, stack: &mut Vec<Expr>) -> Result<Boxed<Expr>, AllocError> {
    Boxed::new(alloc, pop(stack))
}

fn both(alloc: Global, stack: &mut Vec<Expr>) -> Result<(Boxed<Expr>, Boxed<Expr>), AllocError> {
    let b = boxed(alloc, stack)?;
    match boxed(alloc, stack) {
        Ok(a) => Ok((a, b)),
        Err(error) => {
            drop(b);
            Err(error)
        }
    }
}

fn arithmetic(alloc: Global, stack: &mut Vec<Expr>, op: ArithmeticOperator) -> Built {
    let (a, b) = both(alloc, stack)?;
    Ok(Expr::Arithmetic(op, a, b))
}

fn compare(alloc: Global, stack: &mut Vec<Expr>, op: ComparisonOperator) -> Built {
    let (a, b) = both(alloc, stack)?;
    Ok(Expr::Compare(op, a, b))
}

fn and(alloc: Global, stack: &mut Vec<Expr>) -> Built {
    let (a, b) = both(alloc, stack)?;
    Ok(Expr::And(a, b))
}

fn or(alloc: Global, stack: &mut Vec<Expr>) -> Built {
    let (a, b) = both(alloc, stack)?;
    Ok(Expr::Or(a, b))
}

fn is_null(alloc: Global, stack: &mut Vec<Expr>, negated: bool) -> Built {
    let subject = boxed(alloc, stack)?;
    Ok(Expr::IsNull { negated, subject })
}

fn between(alloc: Global, stack: &mut Vec<Expr>, negated: bool) -> Built {
    let (low, high) = both(alloc, stack)?;
    match boxed(alloc, stack) {
        Ok(subject) => Ok(Expr::Between {
            negated,
            subject,
            low,
            high,
        }),
        Err(error) => {
            drop(low);
            drop(high);
            Err(error)
        }
    }
}

fn one_of(alloc: Global, stack: &mut Vec<Expr>, negated: bool, count: usize) -> Built {
    let list = pop_list(alloc, stack, count)?;
    match boxed(alloc, stack) {
        Ok(subject) => Ok(Expr::In {
            negated,
            subject,
            list,
        }),
        Err(error) => {
            drop(list);
            Err(error)
        }
    }
}

fn like(alloc: Global, stack: &mut Vec<Expr>, negated: bool, pattern: &str) -> Built {
    let pattern = Text::new(alloc, pattern)?;
    match boxed(alloc, stack) {
        Ok(subject) => Ok(Expr::Like {
            negated,
            subject,
            pattern,
        }),
        Err(error) => {
            drop(pattern);
            Err(error)
        }
    }
}

fn case(alloc: Global, stack: &mut Vec<Expr>, count: usize) -> Built {
    let otherwise = boxed(alloc, stack)?;
    match pop_arms(alloc, stack, count) {
        Ok(arms) => Ok(Expr::Case { arms, otherwise }),
        Err(error) => {
            drop(otherwise);
            Err(error)
        }
    }
}

fn arithmetic_operator(word: &str) -> Option<ArithmeticOperator> {
    match word {
        "+" => Some(ArithmeticOperator::Add),
        "-" => Some(ArithmeticOperator::Subtract),
        "*" => Some(ArithmeticOperator::Multiply),
        "/" => Some(ArithmeticOperator::Divide),
        _ => None,
    }
}

/// A word with something behind a colon: `in:2`, `like:%b`.
fn with_operand(alloc: Global, stack: &mut Vec<Expr>, word: &str, operand: &str) -> Built {
    let count = operand.parse::<usize>().unwrap_or(0);
    match word {
        "in" => one_of(alloc, stack, false, count),
        "not-in" => one_of(alloc, stack, true, count),
        "like" => like(alloc, stack, false, operand),
        "not-like" => like(alloc, stack, true, operand),
        "case" => case(alloc, stack, count),
        _ => Ok(Expr::Coalesce(pop_list(alloc, stack, count)?)),
    }
}

fn plain(alloc: Global, stack: &mut Vec<Expr>, word: &str) -> Built {
    match word {
        "and" => and(alloc, stack),
        "or" => or(alloc, stack),
        "not" => Ok(Expr::Not(boxed(alloc, stack)?)),
        "minus" => Ok(Expr::Minus(boxed(alloc, stack)?)),
        "is-null" => is_null(alloc, stack, false),
        "is-not-null" => is_null(alloc, stack, true),
        "between" => between(alloc, stack, false),
        "not-between" => between(alloc, stack, true),
        _ => literal(alloc, word),
    }
}

fn node(alloc: Global, stack: &mut Vec<Expr>, word: &str) -> Built {
    if let Some(op) = arithmetic_operator(word) {
        return arithmetic(alloc, stack, op);
    }
    if let Some(op) = comparison_of(word) {
        return compare(alloc, stack, op);
    }
    if let Some(reference) = reference_of(word) {
        return Ok(column_at(reference));
    }
    match word.split_once(':') {
        Some((name, operand)) => with_operand(alloc, stack, name, operand),
        None => plain(alloc, stack, word),
    }
}

/// The expression that the words spell. A word takes its operands off those before it, and an
/// operand that isn't there is NULL.
pub fn postfix_expression(alloc: Global, line: &str) -> Built {
    let mut stack = Vec::new(alloc);
    for word in line.split(' ') {
        let made = node(alloc, &mut stack, word)?;
        stack.push(made)?;
    }
    Ok(pop(&mut stack))
}
