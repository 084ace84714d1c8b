//! How strongly the operators of an expression bind, and by which signs they are written: the one
//! table that reading and printing share.
ghost use Rattle.std.specs.Prelude.{◌≡◌, option_map};
ghost use Rattle.sql_syntax.specs.Strength.{compares, level_of, next, rank, token_of};
ghost use Rattle.sql_syntax.specs.Tokens.{sign_is};
ghost use Rattle.sql_syntax.specs.declared.strength.Operator.TheVariants.{Reckon};

use crate::token::Sign;
use meaning::{ArithmeticOperator, ComparisonOperator};

/// The rules of an expression, from the one that binds least.
#[derive(Clone, Copy)]
pub enum Level {
    Disjunction,
    Conjunction,
    Negation,
    Predicate,
    Sum,
    Term,
    Factor,
    Primary,
}

/// The operators that may stand between any number of operands, which they group from the left.
#[derive(Clone, Copy)]
pub enum Operator {
    Or,
    And,
    Reckon(ArithmeticOperator),
}

impl Level {
    /// The rule that a rule's operands are of.
    pub fn next(self) -> Level
        ensures { result ≡ next self }
    {
        match self {
            Level::Disjunction => Level::Conjunction,
            Level::Conjunction => Level::Negation,
            Level::Negation => Level::Predicate,
            Level::Predicate => Level::Sum,
            Level::Sum => Level::Term,
            Level::Term => Level::Factor,
            Level::Factor | Level::Primary => Level::Primary,
        }
    }

    /// What binds more has the greater rank.
    pub fn rank(self) -> u8
        ensures { result ≡ rank self }
    {
        match self {
            Level::Disjunction => 0,
            Level::Conjunction => 1,
            Level::Negation => 2,
            Level::Predicate => 3,
            Level::Sum => 4,
            Level::Term => 5,
            Level::Factor => 6,
            Level::Primary => 7,
        }
    }
}

/// The rule that gives an operator of arithmetic.
pub fn level_of_arithmetic(operator: ArithmeticOperator) -> Level
    ensures { result ≡ level_of (Reckon operator) }
{
    match operator {
        ArithmeticOperator::Add | ArithmeticOperator::Subtract => Level::Sum,
        ArithmeticOperator::Multiply | ArithmeticOperator::Divide => Level::Term,
    }
}

pub fn sign_of_arithmetic(operator: ArithmeticOperator) -> Sign
    ensures { sign_is result ≡ token_of (Reckon operator) }
{
    match operator {
        ArithmeticOperator::Add => Sign::Plus,
        ArithmeticOperator::Subtract => Sign::Minus,
        ArithmeticOperator::Multiply => Sign::Star,
        ArithmeticOperator::Divide => Sign::Slash,
    }
}

pub fn sign_of_comparison(operator: ComparisonOperator) -> Sign
    ensures { result ≡ compares operator }
{
    match operator {
        ComparisonOperator::Equal => Sign::Equal,
        ComparisonOperator::NotEqual => Sign::NotEqual,
        ComparisonOperator::Less => Sign::Less,
        ComparisonOperator::LessOrEqual => Sign::AtMost,
        ComparisonOperator::Greater => Sign::Greater,
        ComparisonOperator::GreaterOrEqual => Sign::AtLeast,
    }
}
