//! Coordinators through any list of events.
ghost use Rattle.std.specs.Prelude.{◌≡◌, IfOk, IfErr, map};
ghost use Rattle.meaning.specs.SoundPlan.{IsSoundPlan};
ghost use Rattle.meaning_laws.specs.Heard as heard;
ghost use Rattle.schedules.specs.World.{AreCoordinators, event_of};

use crate::event::Event;
use crate::world::World;
use gathering::{Gather, GatherFault};
use partial_codec::Job;
use std::alloc::{AllocError, Global};
use std::mem::drop;

fn run(alloc: Global, job: &Job, n: usize, events: &[Event]) -> Result<Vec<Gather>, AllocError>
    requires { IsSoundPlan job.now.plan }
    ensures { IfOk result (λ gathers. AreCoordinators job.now n
        (map (event_of job.now) events.now) gathers.items) }
{
    let mut world = World::new(alloc, job, n)?;
    for event in events {
        world.step(alloc, job, event)?;
    }
    Ok(world.into_gathers())
}

/// What `n` coordinators of a job come to through a list of events. Posts and shares make packets,
/// which are numbered from 0 in the order of the events. A packet that isn't there, a coordinator
/// that isn't there, and bytes that encode no answer for the job change nothing; a coordinator that
/// restarts and has saved nothing is new.
///
/// # Errors
///
/// Out of memory.
pub fn run_world(
    alloc: Global,
    job: Job,
    n: usize,
    events: &[Event],
) -> Result<Vec<Gather>, GatherFault>
    requires { IsSoundPlan job.plan }
    // Each holds the state of the answers that it has heard.
    ensures heard { IfOk result (λ gathers. AreCoordinators job n (map (event_of job) events.now)
        gathers.items) }
    ensures refused { IfErr result (λ e. e ≡ GatherFault.Memory) }
{
    let gathers = run(alloc, &job, n, events);
    drop(job);
    Ok(gathers?)
}
