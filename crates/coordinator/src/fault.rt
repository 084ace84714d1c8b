//! Why a whole query was refused.
ghost use Rattle.std.specs.Prelude.{◌≡◌};
ghost use Rattle.coordinator.specs.Whole.{number_of, of_catalog, of_query, of_load};
ghost use Rattle.coordinator.specs.declared.fault.WholeFault.TheVariants as fault;

use loader::LoadFault;
use meaning::{CatalogFault, TableFault, Text};
use planner::{PlanFault, QueryFault};
use sql_reader::SqlFault;
use std::alloc::{AllocError, AllocFailed};
use thiserror::Error;

/// Why a query was not answered: a layer's refusal, or one of the call's own.
#[derive(Debug, Drop, Error)]
pub enum WholeFault {
    #[error("out of memory")]
    Memory,
    #[error("the catalogue is refused")]
    Catalog(CatalogFault),
    #[error("the query is refused")]
    Sql(SqlFault),
    #[error("the query has no plan")]
    Plan(PlanFault),
    /// There is no CSV file of this table.
    #[error("a table has no CSV file")]
    MissingCsv(Text),
    #[error("a table is refused")]
    Load(TableFault),
    #[error("a vector has 1 to 4,096 values")]
    VectorLength,
    #[error("the writer failed")]
    Writer,
}

impl WholeFault {
    /// The error code: the layer's own, 1 for a missing file, and of a failed writer the
    /// coordinator's.
    pub fn number(&self) -> u8
        ensures { result ≡ number_of self.now }
    {
        match self {
            WholeFault::Memory => 0,
            WholeFault::Catalog(fault) => fault.number(),
            WholeFault::Sql(fault) => fault.number(),
            WholeFault::Plan(fault) => fault.number(),
            WholeFault::MissingCsv(_) => 1,
            WholeFault::Load(fault) => fault.number(),
            WholeFault::VectorLength => 4,
            WholeFault::Writer => 12,
        }
    }
}

impl From<AllocError> for WholeFault {
    ghost from_gives = { λ _ given. given ≡ fault.Memory };

    fn from(_: AllocError) -> WholeFault {
        WholeFault::Memory
    }
}

impl<T: Drop> From<AllocFailed<T>> for WholeFault {
    ghost from_gives = { λ _ given. given ≡ fault.Memory };

    fn from(_: AllocFailed<T>) -> WholeFault {
        WholeFault::Memory
    }
}

impl From<CatalogFault> for WholeFault {
    ghost from_gives = { λ e given. given ≡ of_catalog e };

    fn from(e: CatalogFault) -> WholeFault {
        match e {
            CatalogFault::Memory => WholeFault::Memory,
            e => WholeFault::Catalog(e),
        }
    }
}

impl From<QueryFault> for WholeFault {
    ghost from_gives = { λ e given. given ≡ of_query e };

    fn from(e: QueryFault) -> WholeFault {
        match e {
            QueryFault::Memory => WholeFault::Memory,
            QueryFault::Sql(e) => WholeFault::Sql(e),
            QueryFault::Plan(e) => WholeFault::Plan(e),
        }
    }
}

impl From<LoadFault> for WholeFault {
    ghost from_gives = { λ e given. given ≡ of_load e };

    fn from(e: LoadFault) -> WholeFault {
        match e {
            LoadFault::Memory => WholeFault::Memory,
            LoadFault::Table(e) => WholeFault::Load(e),
            // A slice's reader never fails.
            LoadFault::Device => WholeFault::Memory,
        }
    }
}
