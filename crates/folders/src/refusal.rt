//! Why a command was refused.
ghost use Rattle.std.specs.Prelude.{◌≡◌, ◌≢◌};
ghost use Rattle.fragment_file.specs.declared.fault.FileFault.TheVariants as file_fault;
ghost use Rattle.job_files.specs.declared.fault.WorkFault.TheVariants as work_fault;
ghost use Rattle.folders.specs.Folder.{csv_path};
ghost use Rattle.folders.specs.Refused.{IsLoadPathless, IsReturnedAs, IsUnread, IsUnwritten, load_refusal, of_catalog, of_cut, of_file, of_work};
ghost use Rattle.folders.specs.declared.refusal.Refusal.TheVariants as refusal;

use crate::journal_refusal::JournalRefusal;
use crate::paths::csv_path;
use fragment_file::FileFault;
use job_files::WorkFault;
use loader::LoadFault;
use meaning::{CatalogFault, CutFault, TableFault, Text};
use planner_expressions::PlanFault;
use sql_reader::SqlFault;
use std::alloc::{AllocError, AllocFailed, Global};

/// Why a command was not done.
#[derive(Drop)]
pub enum Refusal {
    Memory,
    /// The file of this path.
    CannotRead(Text),
    /// The file of this path.
    CannotWrite(Text),
    /// Standard output failed.
    CannotPrint,
    /// Standard error failed, on which a file that is passed over is named.
    CannotReport,
    Catalog(CatalogFault),
    Cut(CutFault),
    /// The file of the cut.
    File(FileFault),
    Sql(SqlFault),
    Plan(PlanFault),
    Load(TableFault),
    Work(WorkFault),
    Journal(JournalRefusal),
}

impl From<AllocError> for Refusal {
    ghost from_gives = { λ _ given. given ≡ refusal.Memory };

    fn from(_: AllocError) -> Refusal {
        Refusal::Memory
    }
}

impl<T: Drop> From<AllocFailed<T>> for Refusal {
    ghost from_gives = { λ _ given. given ≡ refusal.Memory };

    fn from(_: AllocFailed<T>) -> Refusal {
        Refusal::Memory
    }
}

impl From<CatalogFault> for Refusal {
    ghost from_gives = { λ e given. given ≡ of_catalog e };

    fn from(fault: CatalogFault) -> Refusal {
        match fault {
            CatalogFault::Memory => Refusal::Memory,
            fault => Refusal::Catalog(fault),
        }
    }
}

impl From<CutFault> for Refusal {
    ghost from_gives = { λ e given. given ≡ of_cut e };

    fn from(fault: CutFault) -> Refusal {
        match fault {
            CutFault::Memory => Refusal::Memory,
            fault => Refusal::Cut(fault),
        }
    }
}

/// Of the file of the cut.
impl From<FileFault> for Refusal {
    ghost from_gives = { λ e given. given ≡ of_file e };

    fn from(fault: FileFault) -> Refusal {
        match fault {
            FileFault::Memory => Refusal::Memory,
            fault => Refusal::File(fault),
        }
    }
}

impl From<WorkFault> for Refusal {
    ghost from_gives = { λ e given. given ≡ of_work e };

    fn from(fault: WorkFault) -> Refusal {
        match fault {
            WorkFault::Memory => Refusal::Memory,
            fault => Refusal::Work(fault),
        }
    }
}

/// A table's CSV file cannot be read.
pub fn cannot_read_csv(alloc: Global, folder: &str, table: &str) -> Refusal
    ensures { IsUnread (csv_path folder.now table.now) result }
{
    match csv_path(alloc, folder, table) {
        Ok(path) => Refusal::CannotRead(path),
        Err(AllocError) => Refusal::Memory,
    }
}

/// A file cannot be read.
pub fn cannot_read(path: &Text) -> Refusal
    ensures { IsUnread path.now result }
{
    match path.clone() {
        Ok(path) => Refusal::CannotRead(path),
        Err(_) => Refusal::Memory,
    }
}

/// A file cannot be written.
pub fn cannot_write(path: &Text) -> Refusal
    ensures { IsUnwritten path.now result }
{
    match path.clone() {
        Ok(path) => Refusal::CannotWrite(path),
        Err(_) => Refusal::Memory,
    }
}

/// The refusal of a command by which a table of a folder was not loaded.
pub fn load_refusal(alloc: Global, folder: &str, table: &str, fault: LoadFault) -> Refusal
    ensures returned { IsReturnedAs (load_refusal folder.now table.now fault) result }
    ensures exact { IsLoadPathless fault → result ≡ load_refusal folder.now table.now fault }
{
    match fault {
        LoadFault::Memory => Refusal::Memory,
        LoadFault::Table(fault) => Refusal::Load(fault),
        LoadFault::Device => cannot_read_csv(alloc, folder, table),
    }
}

/// The refusal of a command whose worker refused the files, where the fragment's file stands under
/// this path. One that can't be read to its end can't be read.
pub fn work_refusal(path: &Text, fault: WorkFault) -> Refusal
    ensures unread { fault ≡ work_fault.File file_fault.Device → IsUnread path.now result }
    ensures other { fault ≢ work_fault.File file_fault.Device → result ≡ of_work fault }
{
    match fault {
        WorkFault::File(FileFault::Device) => cannot_read(path),
        fault => Refusal::from(fault),
    }
}
