//! A coordinator with a journal, which is a file of the folder.
ghost use Rattle.std.specs.Prelude.{◌≡◌, ◌⊎◌, [], IfErr, IfOk, length, true};
ghost use Rattle.disk.specs.Disk.{HasRoom, IsHonest};
ghost use Rattle.meaning.specs.Gather.{joined};
ghost use Rattle.meaning.specs.SoundPlan.{IsSoundPlan};
ghost use Rattle.journal.specs.Journal.{IsOpened};
ghost use Rattle.folders.specs.Refused.{IsAskedFor, IsShut};
ghost use Rattle.jobs.specs.Gathering.{AreJournaled, HasFailed, IsJournaled, IsNotOnDisk, IsUnopened};
ghost use Rattle.jobs.specs.Taking.{of_take, take_fault_of};

use crate::takes_answers::{TakeFault, take_fault_of};
use disk::Disk;
use folders::{Folder, Refusal, open_disk};
use gathering::Gather;
use journal::{DurableGather, JournalFault};
use meaning::Text;
use partial_codec::Job;
use std::alloc::Global;
use std::mem::drop;

/// The refusal of a command whose journal was not made or opened.
fn refusal_of(fault: JournalFault) -> Refusal
    ensures { result ≡ of_take (take_fault_of fault) }
{
    match take_fault_of(fault) {
        TakeFault::Memory => Refusal::Memory,
        // It doesn't come where no answer is taken.
        TakeFault::Refused(_) => Refusal::Memory,
        TakeFault::Journal(fault) => Refusal::Journal(fault),
    }
}

// No effect at run time. A proof reads from this call that there is a cell for each fragment.
fn know_cells(gather: &Gather)
    ensures { length gather.now.cells ≡ length gather.now.job.cut }
{
    let _job = gather.job();
}

// The same.
fn know_durable_cells<D: Disk + Drop>(durable: &DurableGather<D>)
    requires { durable.now.is_open ≡ true }
    ensures { length durable.now.gather.cells ≡ length durable.now.gather.job.cut }
{
    if let Ok(gather) = durable.gather() {
        know_cells(gather);
    }
}

/// With an empty journal on the disk.
fn create_on<D: Disk + Drop>(alloc: Global, disk: D, job: Job) -> Result<DurableGather<D>, Refusal>
    requires room { HasRoom (D.shown disk) }
    requires sound { IsSoundPlan job.plan }
    ensures job { IfOk result (λ d. d.gather.job ≡ job) }
    ensures is_open { IfOk result (λ d. d.is_open ≡ true) }
    ensures fresh { IfOk result (λ d. d.gather.cells ≡ joined job.cut []) }
    ensures refused { IfErr result (IsNotOnDisk (D.shown disk) job) }
    ensures failed { IfErr result (HasFailed D.shown) }
{
    match DurableGather::create(alloc, disk, job) {
        Ok(durable) => Ok(durable),
        Err((fault, disk)) => {
            drop(disk);
            Err(refusal_of(fault))
        }
    }
}

/// With the journal that stands on the disk.
fn open_on<D: Disk + Drop>(alloc: Global, disk: D, job: Job) -> Result<DurableGather<D>, Refusal>
    requires room { HasRoom (D.shown disk) }
    requires sound { IsSoundPlan job.plan }
    ensures job { IfOk result (λ d. d.gather.job ≡ job) }
    ensures is_open { IfOk result (λ d. d.is_open ≡ true) }
    ensures reads { IfOk result (λ d. IsHonest (D.shown disk)
        → IsOpened d.gather (D.shown disk).now.reads) }
    ensures refused { IfErr result (IsNotOnDisk (D.shown disk) job) }
    ensures failed { IfErr result (HasFailed D.shown) }
{
    match DurableGather::open(alloc, disk, job) {
        Ok(durable) => Ok(durable),
        Err((fault, disk)) => {
            drop(disk);
            Err(refusal_of(fault))
        }
    }
}

/// With the journal that stands on the disk, or an empty one where no byte does.
fn start_on<D: Disk + Drop>(alloc: Global, disk: D, job: Job) -> Result<DurableGather<D>, Refusal>
    requires room { HasRoom (D.shown disk) }
    requires sound { IsSoundPlan job.plan }
    ensures job { IfOk result (λ d. d.gather.job ≡ job) }
    ensures is_open { IfOk result (λ d. d.is_open ≡ true) }
    ensures journaled { IfOk result (λ d. IsHonest (D.shown disk)
        → AreJournaled (D.shown disk).now.reads job d.gather.cells) }
    ensures refused { IfErr result (IsNotOnDisk (D.shown disk) job) }
    ensures failed { IfErr result (HasFailed D.shown) }
{
    let mut disk = disk;
    match disk.len() {
        Ok(0) => create_on(alloc, disk, job),
        Ok(_) => open_on(alloc, disk, job),
        Err(fault) => {
            drop(job);
            drop(disk);
            Err(refusal_of(JournalFault::from(fault)))
        }
    }
}

/// A coordinator of the job with the journal under a path, which is made where there is none.
///
/// # Errors
///
/// Out of memory, a file that can't be opened, a disk that failed, or a file that is no journal of
/// the job.
pub fn start_journal<F: Folder>(
    alloc: Global,
    folder: &F,
    path: &Text,
    job: Job,
) -> Result<DurableGather<F::Disk>, Refusal>
    requires { IsSoundPlan job.plan }
    ensures job { IfOk result (λ d. d.gather.job ≡ job) }
    ensures is_open { IfOk result (λ d. d.is_open ≡ true) }
    ensures journaled { IfOk result
        (λ d. IsJournaled (F.holds folder.now path.now) job d.gather.cells) }
    ensures refused { IfErr result (IsUnopened (F.holds folder.now path.now) job path.now) }
    ensures unread { IfErr result (IsAskedFor (F.asks folder.now)) }
    ensures shut { IfErr result (IsShut (F.shuts folder.now)) }
    ensures failed { IfErr result (HasFailed F.Disk.shown) }
{
    match open_disk(folder, path) {
        Ok(disk) => {
            let durable = start_on(alloc, disk, job)?;
            know_durable_cells(&durable);
            Ok(durable)
        }
        Err(refusal) => {
            drop(job);
            Err(refusal)
        }
    }
}
