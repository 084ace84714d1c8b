//! What an expression is written as, mark by mark.
use meaning::{ArithmeticOperator, ComparisonOperator, Sequence, Text};
use sql_syntax::Aggregate;

/// What a node does with its parts.
#[derive(Clone, Copy, PartialEq, Eq)]
pub enum Operator {
    CountRows,
    Aggregate(Aggregate),
    Minus,
    Arithmetic(ArithmeticOperator),
    Compare(ComparisonOperator),
    Not,
    And,
    Or,
    IsNull { negated: bool },
    Between { negated: bool },
    In { negated: bool },
    Like { negated: bool },
    Coalesce,
    Case,
}

/// A name stands as the column that it means: by the name that its table goes by, and its own.
#[derive(PartialEq, Eq, Drop)]
pub enum Mark {
    Column { owner: Text, name: Text },
    /// A name that means no column, or several.
    Unknown,
    Integer(i64),
    Text(Text),
    /// The operator's parts follow.
    Operator(Operator),
    /// One more part of a list follows.
    More,
    /// A list ends.
    End,
}

/// An expression written out: an operator stands before its parts.
pub type Spelling = Sequence<Mark>;
