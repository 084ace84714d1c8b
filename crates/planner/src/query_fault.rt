//! Why a query's text has no plan.
ghost use Rattle.std.specs.Prelude.{◌≡◌};
ghost use Rattle.planner.specs.QueryText.{number_of, of_plan, of_sql};
ghost use Rattle.planner.specs.declared.query_fault.QueryFault.TheVariants as fault;

use planner_expressions::PlanFault;
use sql_reader::SqlFault;
use thiserror::Error;

/// Why a query's text has no plan: the text's first fault, or its tree's.
#[derive(Debug, Drop, Error)]
pub enum QueryFault {
    #[error("out of memory")]
    Memory,
    #[error("{0}")]
    Sql(SqlFault),
    #[error("{0}")]
    Plan(PlanFault),
}

impl QueryFault {
    /// The error code, which is that of the text's or the plan's fault.
    pub fn number(&self) -> u8
        ensures { result ≡ number_of self.now }
    {
        match self {
            QueryFault::Memory => 0,
            QueryFault::Sql(fault) => fault.number(),
            QueryFault::Plan(fault) => fault.number(),
        }
    }
}

impl From<SqlFault> for QueryFault {
    ghost from_gives = { λ e given. given ≡ of_sql e };

    fn from(e: SqlFault) -> QueryFault {
        match e {
            SqlFault::Memory => QueryFault::Memory,
            e => QueryFault::Sql(e),
        }
    }
}

impl From<PlanFault> for QueryFault {
    ghost from_gives = { λ e given. given ≡ of_plan e };

    fn from(e: PlanFault) -> QueryFault {
        match e {
            PlanFault::Memory => QueryFault::Memory,
            e => QueryFault::Plan(e),
        }
    }
}
