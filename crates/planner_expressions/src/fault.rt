//! Why a query has no plan.
ghost use Rattle.std.specs.Prelude.{◌≡◌};
ghost use Rattle.planner_expressions.specs.Numbers.{number_of};

use std::alloc::AllocError;
use std::fmt::{self, Display, Formatter, Write};
use thiserror::Error;

/// Why a query has no plan.
#[derive(Debug, Drop, Error)]
pub enum PlanFault {
    Memory,
    TableUnknown,
    ColumnUnknown,
    Ambiguous,
    TypeMismatch,
    NoEquality,
    TwoEqualities,
    FactNotOnce,
    NotGrouped,
    MisplacedAggregate,
    PositionNotAllowed,
    OverLimit,
    LeftNotByEquality,
    LeftNotBehindFact,
}

impl PlanFault {
    /// The error code.
    pub fn number(&self) -> u8
        ensures { result ≡ number_of self.now }
    {
        match self {
            PlanFault::Memory => 0,
            PlanFault::TableUnknown => 1,
            PlanFault::ColumnUnknown => 2,
            PlanFault::Ambiguous => 3,
            PlanFault::TypeMismatch => 4,
            PlanFault::NoEquality => 5,
            PlanFault::TwoEqualities => 6,
            PlanFault::FactNotOnce => 7,
            PlanFault::NotGrouped => 8,
            PlanFault::MisplacedAggregate => 9,
            PlanFault::PositionNotAllowed => 10,
            PlanFault::OverLimit => 11,
            PlanFault::LeftNotByEquality => 12,
            PlanFault::LeftNotBehindFact => 13,
        }
    }

    fn text(&self) -> &'static str {
        match self {
            PlanFault::Memory => "out of memory",
            PlanFault::TableUnknown => "a table that the catalogue does not have",
            PlanFault::ColumnUnknown => "a column that no table has",
            PlanFault::Ambiguous => "a name that refers to several things",
            PlanFault::TypeMismatch => "types that do not fit",
            PlanFault::NoEquality => "a dimension without a join equality",
            PlanFault::TwoEqualities => "a dimension with two join equalities",
            PlanFault::FactNotOnce => "the fact table is not named just once",
            PlanFault::NotGrouped => "a column that is not grouped",
            PlanFault::MisplacedAggregate => "an aggregate where none may stand",
            PlanFault::PositionNotAllowed =>
                "a position or a name that may not stand in GROUP BY or ORDER BY",
            PlanFault::OverLimit => "over a limit",
            PlanFault::LeftNotByEquality =>
                "a LEFT JOIN by another condition than its one join equality",
            PlanFault::LeftNotBehindFact =>
                "a LEFT JOIN of a table that is not a dimension behind the fact table",
        }
    }
}

impl Display for PlanFault {
    fn fmt<W: Write>(&self, f: &mut Formatter<W>) -> fmt::Result {
        f.write_str(self.text())
    }
}

impl From<AllocError> for PlanFault {
    ghost use Rattle.planner_expressions.specs.declared.fault.PlanFault.TheVariants as fault;

    ghost from_gives = { λ _ given. given ≡ fault.Memory };

    fn from(_: AllocError) -> PlanFault {
        PlanFault::Memory
    }
}
