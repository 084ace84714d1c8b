//! Why no catalogue was made.
ghost use Rattle.std.specs.Prelude.{◌≡◌};
ghost use Rattle.init.specs.Refusing.{IsOfLoad, IsOfPath, IsOfRefusal, of_catalog};
ghost use Rattle.init.specs.declared.fault.InitFault.TheVariants as fault_is;

use folders::Refusal;
use loader::LoadFault;
use meaning::{CatalogFault, TableFault, Text};
use std::alloc::{AllocError, AllocFailed, Global};
use std::fmt::{self, Debug, Display, Formatter};
use thiserror::Error;

/// What is wrong with a file or a folder.
#[derive(Clone, Copy, Drop)]
pub enum PathFault {
    CannotRead,
    CannotWrite,
    CatalogThere,
    NoFile,
    NoFact,
    NoTableName,
    NoHeader,
    TooManyColumns,
    NoKey,
    TooManyRows,
}

impl PathFault {
    /// What a refusal says before the path, and behind it.
    fn words(self) -> (&'static str, &'static str) {
        match self {
            PathFault::CannotRead => ("cannot read ", ""),
            PathFault::CannotWrite => ("cannot write ", ""),
            PathFault::CatalogThere => (
                "",
                " is there already, and is never written over: edit it, or remove it first",
            ),
            PathFault::NoFile => ("", " has no CSV file"),
            PathFault::NoFact => ("there is no file ", " for the fact"),
            PathFault::NoTableName => (
                "",
                " can't be named after a table: a name has at most 64 lower-case letters, digits and underscores, no digit in front, and is no word of SQL",
            ),
            PathFault::NoHeader => ("", " has no header"),
            PathFault::TooManyColumns => ("", " has over 64 columns"),
            PathFault::NoKey => (
                "",
                " can't be a dimension: it has no column whose values differ and are never NULL, for a key",
            ),
            PathFault::TooManyRows => ("", " has over 4,294,967,296 rows"),
        }
    }
}

/// What is wrong with a column's name.
#[derive(Clone, Copy, Drop)]
pub enum ColumnFault {
    NoName,
    NameTwice,
}

impl ColumnFault {
    /// What a refusal says behind the column.
    fn words(self) -> &'static str {
        match self {
            ColumnFault::NoName => {
                "can't be named as in the header: a name has at most 64 letters, digits and underscores, no digit in front, and is no word of SQL"
            }
            ColumnFault::NameTwice => "has the name of one before it",
        }
    }
}

/// Why no catalogue was made for a folder. Files are named by their paths; columns count from 1, as
/// in a spreadsheet, and rows from 0 behind the header, as everywhere.
#[derive(Drop, Error)]
pub enum InitFault {
    #[error("memory")]
    Memory,
    #[error("cannot write standard error")]
    CannotReport,
    #[error("there are over 16 files beside the fact's")]
    TooManyDimensions,
    #[error("{}{path}{}", fault.words().0, fault.words().1)]
    Path {
        path: String,
        fault: PathFault,
    },
    #[error("{file}: column {column} {}", fault.words())]
    Column {
        file: String,
        column: usize,
        fault: ColumnFault,
    },
    #[error("{file}: load {}: {fault}", fault.number())]
    Table {
        file: String,
        fault: TableFault,
    },
    #[error("the text that was made is no catalogue: {0}")]
    Catalog(CatalogFault),
}

// As it is shown: one that is derived takes seconds to prove.
impl Debug for InitFault {
    fn fmt<W: fmt::Write>(&self, f: &mut Formatter<W>) -> fmt::Result {
        Display::fmt(self, f)
    }
}

impl From<AllocError> for InitFault {
    ghost from_gives = { λ _ given. given ≡ fault_is.Memory };

    fn from(_: AllocError) -> InitFault {
        InitFault::Memory
    }
}

impl<T: Drop> From<AllocFailed<T>> for InitFault {
    ghost from_gives = { λ _ given. given ≡ fault_is.Memory };

    fn from(_: AllocFailed<T>) -> InitFault {
        InitFault::Memory
    }
}

/// Of a file that is read or written; no other refusal comes there.
impl From<Refusal> for InitFault {
    ghost from_gives = { λ e given. IsOfRefusal e given };

    fn from(refusal: Refusal) -> InitFault {
        match refusal {
            Refusal::CannotRead(path) => InitFault::Path {
                path: path.into_string(),
                fault: PathFault::CannotRead,
            },
            Refusal::CannotWrite(path) => InitFault::Path {
                path: path.into_string(),
                fault: PathFault::CannotWrite,
            },
            _ => InitFault::Memory,
        }
    }
}

/// Of the text that was made.
impl From<CatalogFault> for InitFault {
    ghost from_gives = { λ e given. given ≡ of_catalog e };

    fn from(fault: CatalogFault) -> InitFault {
        match fault {
            CatalogFault::Memory => InitFault::Memory,
            fault => InitFault::Catalog(fault),
        }
    }
}

/// The refusal of a file or a folder.
pub fn of_path(alloc: Global, path: &str, fault: PathFault) -> InitFault
    ensures { IsOfPath path.now fault result }
{
    match String::from_str(alloc, path) {
        Ok(path) => InitFault::Path { path, fault },
        Err(AllocError) => InitFault::Memory,
    }
}

/// Why a table of a file was not loaded.
pub fn of_load(alloc: Global, file: &Text, fault: LoadFault) -> InitFault
    ensures { IsOfLoad file.now fault result }
{
    match fault {
        LoadFault::Memory => InitFault::Memory,
        LoadFault::Device => of_path(alloc, file.as_str(), PathFault::CannotRead),
        LoadFault::Table(fault) => match String::from_str(alloc, file.as_str()) {
            Ok(file) => InitFault::Table { file, fault },
            Err(AllocError) => InitFault::Memory,
        },
    }
}
