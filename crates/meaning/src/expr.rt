//! Expressions over joined rows and over groups.

use crate::boxed::Boxed;
use crate::sequence::Sequence;
use crate::text::Text;
use crate::value::Value;

#[derive(Clone, Copy, PartialEq, Eq)]
pub enum ArithmeticOperator {
    Add,
    Subtract,
    Multiply,
    Divide,
}

#[derive(Clone, Copy, PartialEq, Eq)]
pub enum ComparisonOperator {
    Equal,
    NotEqual,
    Less,
    LessOrEqual,
    Greater,
    GreaterOrEqual,
}

/// An expression whose names are looked up: they are numbers, from 0. Where a node is `negated`, NOT
/// is written within it, as in `x NOT IN (..)`.
#[cycle(expr)]
#[derive(Drop)]
pub enum Expr {
    /// A column of the fact.
    Column(usize),
    /// A column of the row that a join found.
    Joined {
        join: usize,
        column: usize,
    },
    /// A key of the group.
    Key(usize),
    /// An aggregate of the group.
    Aggregate(usize),
    Literal(Value),
    Minus(Boxed<Expr>),
    Arithmetic(ArithmeticOperator, Boxed<Expr>, Boxed<Expr>),
    Compare(ComparisonOperator, Boxed<Expr>, Boxed<Expr>),
    Not(Boxed<Expr>),
    And(Boxed<Expr>, Boxed<Expr>),
    Or(Boxed<Expr>, Boxed<Expr>),
    IsNull {
        negated: bool,
        subject: Boxed<Expr>,
    },
    Between {
        negated: bool,
        subject: Boxed<Expr>,
        low: Boxed<Expr>,
        high: Boxed<Expr>,
    },
    In {
        negated: bool,
        subject: Boxed<Expr>,
        list: Sequence<Expr>,
    },
    Like {
        negated: bool,
        subject: Boxed<Expr>,
        pattern: Text,
    },
    Coalesce(Sequence<Expr>),
    /// A missing ELSE is the literal NULL.
    Case {
        arms: Sequence<Arm>,
        otherwise: Boxed<Expr>,
    },
}

/// `WHEN when THEN then`.
#[cycle(expr)]
#[derive(Drop)]
pub struct Arm {
    pub when: Expr,
    pub then: Expr,
}
