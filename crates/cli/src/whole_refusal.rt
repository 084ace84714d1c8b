//! The refusal of a command by which a query over the files of a folder was not answered.
ghost use Rattle.std.specs.Prelude.{◌≡◌};
ghost use Rattle.folders.specs.Refused.{IsReturnedAs};
ghost use Rattle.cli.specs.WholeRefusal.{IsPathless, refusal_of};

use coordinator::WholeFault;
use folders::{Refusal, cannot_read_csv};
use job_files::WorkFault;
use std::alloc::Global;

/// The refusal of a command by which a query over the files of a folder was not answered.
pub fn refusal_of(alloc: Global, folder: &str, fault: WholeFault) -> Refusal
    ensures returned { IsReturnedAs (refusal_of folder.now fault) result }
    ensures exact { IsPathless fault → result ≡ refusal_of folder.now fault }
{
    match fault {
        WholeFault::Memory => Refusal::Memory,
        WholeFault::Catalog(fault) => Refusal::Catalog(fault),
        WholeFault::Sql(fault) => Refusal::Sql(fault),
        WholeFault::Plan(fault) => Refusal::Plan(fault),
        WholeFault::MissingCsv(table) => cannot_read_csv(alloc, folder, table.as_str()),
        WholeFault::Load(fault) => Refusal::Load(fault),
        WholeFault::VectorLength => Refusal::Work(WorkFault::VectorLength),
        WholeFault::Writer => Refusal::CannotPrint,
    }
}
