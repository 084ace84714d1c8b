//! The job of a query over the tables that a folder was loaded with.
ghost use Rattle.std.specs.Prelude.{◌≡◌, IfErr, IfOk};
ghost use Rattle.meaning.specs.Catalog.{IsWellFormed};
ghost use Rattle.meaning.specs.SoundPlan.{IsSoundPlan};
ghost use Rattle.planner.specs.QueryText.{IsPlanned};
ghost use Rattle.folders.specs.Folder.{AreHeld, cut_path};
ghost use Rattle.folders.specs.Refused.{IsAskedFor, IsUnread};
ghost use Rattle.jobs.specs.Job.{IsCutRefused, IsCutThere, IsJobOf, IsJobOver, IsJobRefused, IsQueryRefused, IsRefusedOver};

use folders::{Folder, Refusal, cut_path, read_file, read_tables};
use fragment_file::read_cut;
use meaning::{Catalog, Cut, Plan};
use partial_codec::Job;
use planner::{QueryFault, plan_query};
use std::alloc::Global;
use std::mem::drop;

/// The bytes of the file of the cut.
fn read_cut_file<F: Folder>(alloc: Global, folder: &F, directory: &str) -> Result<Vec<u8>, Refusal>
    ensures held { IfOk result
        (λ bytes. AreHeld (F.holds folder.now (cut_path directory.now)) bytes.items) }
    ensures refused { IfErr result (IsUnread (cut_path directory.now)) }
    ensures unread { IfErr result (IsAskedFor (F.asks folder.now)) }
{
    let path = cut_path(alloc, directory)?;
    read_file(alloc, folder, &path)
}

/// The number of the load, and the cut.
fn read_load<F: Folder>(alloc: Global, folder: &F, directory: &str) -> Result<(u64, Cut), Refusal>
    ensures there { IfOk result (λ x. IsCutThere (F.holds folder.now) directory.now x.0 x.1) }
    ensures refused { IfErr result (IsCutRefused (F.holds folder.now) directory.now) }
    ensures unread { IfErr result (IsAskedFor (F.asks folder.now)) }
{
    let bytes = read_cut_file(alloc, folder, directory)?;
    match read_cut(alloc, bytes.as_slice()) {
        Ok(read) => Ok(read),
        Err(fault) => Err(Refusal::from(fault)),
    }
}

/// The plan of a query over declared tables.
///
/// # Errors
///
/// Out of memory, the text's first fault, or its plan's.
pub fn plan_of(alloc: Global, catalog: &Catalog, query: &str) -> Result<Plan, Refusal>
    ensures planned { IfOk result (λ plan. IsPlanned catalog.now query.now (Ok plan)) }
    ensures sound { IfOk result IsSoundPlan }
    ensures refused { IfErr result (IsQueryRefused catalog.now query.now) }
{
    match plan_query(alloc, catalog, query.as_bytes()) {
        Ok(plan) => Ok(plan),
        Err(QueryFault::Memory) => Err(Refusal::Memory),
        Err(QueryFault::Sql(fault)) => Err(Refusal::Sql(fault)),
        Err(QueryFault::Plan(fault)) => Err(Refusal::Plan(fault)),
    }
}

/// The job of a query over declared tables.
fn job_over<F: Folder>(
    alloc: Global,
    folder: &F,
    directory: &str,
    catalog: &Catalog,
    query: &str,
) -> Result<Job, Refusal>
    ensures over { IfOk result (IsJobOver (F.holds folder.now) directory.now catalog.now query.now) }
    ensures sound { IfOk result (λ job. IsSoundPlan job.plan) }
    ensures refused { IfErr result
        (IsRefusedOver (F.holds folder.now) directory.now catalog.now query.now) }
    ensures unread { IfErr result (IsAskedFor (F.asks folder.now)) }
{
    let (load, cut) = read_load(alloc, folder, directory)?;
    match plan_of(alloc, catalog, query) {
        Ok(plan) => {
            let job = Job::new(load, plan, cut);
            // No effect at run time. The proof reads from this call the limits on a job.
            let _plan = job.plan();
            Ok(job)
        }
        Err(refusal) => {
            drop(cut);
            Err(refusal)
        }
    }
}

/// The job of a query: its plan over the folder's catalogue, and the load and the cut of the
/// folder's file of the cut.
///
/// # Errors
///
/// Out of memory, or the first of these: the catalogue's, of the file of the cut, of the query's
/// text, of its plan.
pub fn read_job<F: Folder>(
    alloc: Global,
    folder: &F,
    directory: &str,
    query: &str,
) -> Result<Job, Refusal>
    ensures job { IfOk result (IsJobOf (F.holds folder.now) directory.now query.now) }
    ensures sound { IfOk result (λ job. IsSoundPlan job.plan) }
    ensures refused { IfErr result (IsJobRefused (F.holds folder.now) directory.now query.now) }
    ensures unread { IfErr result (IsAskedFor (F.asks folder.now)) }
{
    let catalog = read_tables(alloc, folder, directory)?;
    let job = job_over(alloc, folder, directory, &catalog, query);
    drop(catalog);
    job
}
