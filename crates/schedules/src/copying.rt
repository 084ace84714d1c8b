//! Coordinators of one job.
ghost use Rattle.std.specs.Prelude.{◌≡◌, [], IfOk, length, All};
ghost use Rattle.meaning.specs.SoundPlan.{IsSoundPlan};
ghost use Rattle.meaning_laws.specs.Heard.{Answers};
ghost use Rattle.schedules.specs.World.{Holds, IsSaved};

use gathering::Gather;
use meaning::Cut;
use partial_codec::Job;
use plan_copy::copy_plan;
use std::alloc::{AllocError, Global};
use std::mem::drop;

fn copy_cut(alloc: Global, cut: &Cut) -> Result<Cut, AllocError>
    ensures { IfOk result (λ copy. copy ≡ cut.now) }
{
    match Cut::new(cut.lengths().to_vec(alloc)?) {
        Ok(copy) => Ok(copy),
        Err(_) => unreachable!(),
    }
}

/// A copy of a job.
fn copy_job(alloc: Global, job: &Job) -> Result<Job, AllocError>
    ensures { IfOk result (λ copy. copy ≡ job.now) }
{
    let plan = copy_plan(alloc, job.plan())?;
    match copy_cut(alloc, job.cut()) {
        Ok(cut) => Ok(Job::new(job.load(), plan, cut)),
        Err(error) => {
            drop(plan);
            Err(error)
        }
    }
}

/// A coordinator of the job that has taken no answer.
pub fn new_gather(alloc: Global, job: &Job) -> Result<Gather, AllocError>
    requires { IsSoundPlan job.now.plan }
    ensures { IfOk result (λ g. Holds job.now g []) }
{
    Gather::new(alloc, copy_job(alloc, job)?)
}

/// So many of them.
pub fn new_gathers(alloc: Global, job: &Job, n: usize) -> Result<Vec<Gather>, AllocError>
    requires { IsSoundPlan job.now.plan }
    ensures each { IfOk result (λ gathers. All (λ g. Holds job.now g []) gathers.items) }
    ensures as_many { IfOk result (λ gathers. length gathers.items ≡ n) }
{
    let mut gathers = Vec::new(alloc);
    for _ in 0..n {
        gathers.push(new_gather(alloc, job)?)?;
    }
    Ok(gathers)
}

/// A coordinator of the job that holds what was saved: a state's bytes, or nothing.
pub fn restored(alloc: Global, job: &Job, saved: &Option<Vec<u8>>) -> Result<Gather, AllocError>
    requires { IsSoundPlan job.now.plan }
    ensures { IfOk result (λ g. (answers : Answers) → IsSaved job.now saved.now answers
        → Holds job.now g answers) }
{
    // No effect at run time. The proof reads from this call that the job is within its limits.
    let _plan = job.plan();
    match saved {
        None => new_gather(alloc, job),
        Some(bytes) => match Gather::from_state(alloc, copy_job(alloc, job)?, bytes) {
            Ok(gather) => Ok(gather),
            // A state that a coordinator of the job spelled is refused for nothing else.
            Err(_) => Err(AllocError),
        },
    }
}
