//! What an expression gives: a value, a truth or a fault.

ghost use Rattle.std.specs.Prelude.{◌≡◌};
ghost use Rattle.meaning.specs.Operators.{code_of};

use crate::value::Value;

/// The three truths of SQL.
#[derive(Clone, Copy)]
pub enum Truth {
    False,
    Unknown,
    True,
}

/// A fault of arithmetic.
#[derive(Clone, Copy)]
pub enum Fault {
    Overflow,
    DivisionByZero,
}

impl Fault {
    /// The fault's code in answers and refusals.
    pub fn code(self) -> u8
        ensures { result ≡ code_of self }
    {
        match self {
            Fault::Overflow => 1,
            Fault::DivisionByZero => 2,
        }
    }
}

/// What an expression gives on one row.
#[derive(Drop)]
pub enum Outcome {
    Value(Value),
    Truth(Truth),
    Fault(Fault),
}
