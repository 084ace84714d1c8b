//! The declared tables, and why a text declares none.
ghost use Rattle.std.specs.Prelude.{◌≡◌};
ghost use Rattle.meaning.specs.Catalog.{number_of};

use crate::sequence::Sequence;
use crate::text::Text;
use crate::value::ColType;
use std::alloc::AllocError;
use thiserror::Error;

/// A column as the catalogue declares it.
#[derive(Drop)]
pub struct Column {
    /// In lower case.
    pub name: Text,
    pub col_type: ColType,
    pub nullable: bool,
}

/// A table as the catalogue declares it.
#[derive(Drop)]
pub struct Table {
    /// In lower case.
    pub name: Text,
    pub columns: Sequence<Column>,
}

/// A dimension: a table whose rows its key column distinguishes.
#[derive(Drop)]
pub struct Dimension {
    pub table: Table,
    /// Which of the table's columns is the key, from 0.
    pub key: usize,
}

/// The fact table, and the dimensions in the order of the text.
#[derive(Drop)]
pub struct Catalog {
    pub fact: Table,
    pub dims: Sequence<Dimension>,
}

/// Why a text is no catalogue. Lines count from 1.
#[derive(Debug, Drop, Error)]
pub enum CatalogFault {
    #[error("out of memory")]
    Memory,
    #[error("not UTF-8")]
    NotUtf8,
    #[error("line {line} has no known form")]
    UnknownLine { line: usize },
    #[error("line {line} declares a name for the second time")]
    NameTwice { line: usize },
    #[error("not just one fact table")]
    NotOneFact,
    #[error("a key column is missing or nullable")]
    UnfitKey,
    #[error("over a limit")]
    OverLimit,
}

impl CatalogFault {
    /// The error code.
    pub fn number(&self) -> u8
        ensures { result ≡ number_of self.now }
    {
        match self {
            CatalogFault::Memory => 0,
            CatalogFault::NotUtf8 => 1,
            CatalogFault::UnknownLine { .. } => 2,
            CatalogFault::NameTwice { .. } => 3,
            CatalogFault::NotOneFact => 4,
            CatalogFault::UnfitKey => 5,
            CatalogFault::OverLimit => 6,
        }
    }
}

impl From<AllocError> for CatalogFault {
    ghost use Rattle.std.specs.Prelude.{◌≡◌};
    ghost use Rattle.meaning.specs.declared.catalog.CatalogFault.TheVariants as fault;

    ghost from_gives = { λ _ given. given ≡ fault.Memory };

    fn from(_: AllocError) -> CatalogFault {
        CatalogFault::Memory
    }
}
