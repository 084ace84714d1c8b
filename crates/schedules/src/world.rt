//! Coordinators, the packets that were sent, and what was saved.
ghost use Rattle.std.specs.Prelude.{◌≡◌, IfOk, None, OnOk, replicate};
ghost use Rattle.meaning.specs.Gather.{joined};
ghost use Rattle.meaning.specs.SoundPlan.{IsSoundPlan};
ghost use Rattle.meaning_laws.specs.Heard as heard;
ghost use Rattle.meaning_laws.specs.Heard.{Answers};
ghost use Rattle.partial_codec.specs.Job.{JobSpec};
ghost use Rattle.partial_codec.specs.State.{SpellsState};
ghost use Rattle.schedules.specs.World.{Holds, Stands, answer_in, event_of};

use crate::copying::{new_gathers, restored};
use crate::event::Event;
use crate::taking::take_packet;
use gathering::Gather;
use partial_codec::Job;
use std::alloc::{AllocError, Global};
use std::mem;
use std::mem::drop;

/// What was sent.
#[derive(Drop)]
pub enum Packet<'a> {
    /// Bytes from outside.
    Posted(&'a [u8]),
    /// A coordinator's state, spelled.
    State(Vec<u8>),
}

/// Coordinators, the packets that were sent so far, and the state that each saved last, spelled.
#[derive(Drop)]
pub struct World<'a> {
    gathers: Vec<Gather>,
    packets: Vec<Packet<'a>>,
    saved: Vec<Option<Vec<u8>>>,
}

fn nothing_saved(alloc: Global, n: usize) -> Result<Vec<Option<Vec<u8>>>, AllocError>
    ensures { IfOk result (λ saved. saved.items ≡ replicate n None) }
{
    let mut saved = Vec::new(alloc);
    for _ in 0..n {
        saved.push(None)?;
    }
    Ok(saved)
}

// What a coordinator holds, as it is spelled in the newest format.
fn spelled(alloc: Global, gather: &Gather) -> Result<Vec<u8>, AllocError>
    ensures { IfOk result (λ bytes. (job : JobSpec) (answers : Answers)
        → Holds job gather.now answers
        → SpellsState job bytes.items (joined job.cut answers)) }
{
    // No effect at run time. The proof reads from this call that what is held fits the job.
    let _job = gather.job();
    match gather.state_bytes(alloc) {
        Ok(bytes) => Ok(bytes),
        // Nothing else keeps a state from being spelled.
        Err(_) => Err(AllocError),
    }
}

fn put(place: &mut Gather, gather: Gather)
    ensures { place.new ≡ gather }
{
    let before = mem::replace(place, gather);
    drop(before);
}

impl<'a> World<'a> {
    /// So many coordinators of the job that have heard nothing.
    pub fn new(alloc: Global, job: &Job, n: usize) -> Result<World<'a>, AllocError>
        requires { IsSoundPlan job.now.plan }
        ensures { IfOk result (λ world. Stands job.now world (heard.start n)) }
    {
        Ok(World {
            gathers: new_gathers(alloc, job, n)?,
            packets: Vec::new(alloc),
            saved: nothing_saved(alloc, n)?,
        })
    }

    /// The coordinators.
    pub fn into_gathers(self) -> Vec<Gather>
        ensures { result ≡ self.entry.gathers }
    {
        let World { gathers, .. } = self;
        gathers
    }

    fn post(&mut self, bytes: &'a [u8]) -> Result<(), AllocError>
        ensures { OnOk result ((job : JobSpec) (w : heard.World) → Stands job self.old w
            → Stands job self.new (heard.happens w (heard.post (answer_in job bytes.now)))) }
    {
        self.packets.push(Packet::Posted(bytes))?;
        Ok(())
    }

    fn share(&mut self, alloc: Global, i: usize) -> Result<(), AllocError>
        ensures { OnOk result ((job : JobSpec) (w : heard.World) → Stands job self.old w
            → Stands job self.new (heard.happens w (heard.share i))) }
    {
        let Some(gather) = self.gathers.get(i) else {
            return Ok(());
        };
        let bytes = spelled(alloc, gather)?;
        self.packets.push(Packet::State(bytes))?;
        Ok(())
    }

    fn take(&mut self, alloc: Global, to: usize, packet: usize) -> Result<(), AllocError>
        ensures { OnOk result ((job : JobSpec) (w : heard.World) → Stands job self.old w
            → Stands job self.new (heard.happens w (heard.take to packet))) }
    {
        if to >= self.gathers.len() {
            return Ok(());
        }
        let Some(packet) = self.packets.get(packet) else {
            return Ok(());
        };
        take_packet(alloc, &mut self.gathers[to], packet)
    }

    fn save(&mut self, alloc: Global, i: usize) -> Result<(), AllocError>
        ensures { OnOk result ((job : JobSpec) (w : heard.World) → Stands job self.old w
            → Stands job self.new (heard.happens w (heard.save i))) }
    {
        let Some(gather) = self.gathers.get(i) else {
            return Ok(());
        };
        let bytes = spelled(alloc, gather)?;
        if i < self.saved.len() {
            self.saved[i] = Some(bytes);
        }
        Ok(())
    }

    fn restart(&mut self, alloc: Global, job: &Job, i: usize) -> Result<(), AllocError>
        requires { IsSoundPlan job.now.plan }
        ensures { OnOk result ((w : heard.World) → Stands job.now self.old w
            → Stands job.now self.new (heard.happens w (heard.restart i))) }
    {
        let Some(saved) = self.saved.get(i) else {
            return Ok(());
        };
        let gather = restored(alloc, job, saved)?;
        if i < self.gathers.len() {
            put(&mut self.gathers[i], gather);
        } else {
            drop(gather);
        }
        Ok(())
    }

    /// What an event does to coordinators of the job.
    pub fn step(&mut self, alloc: Global, job: &Job, event: &'a Event) -> Result<(), AllocError>
        requires { IsSoundPlan job.now.plan }
        ensures { OnOk result ((w : heard.World) → Stands job.now self.old w
            → Stands job.now self.new (heard.happens w (event_of job.now event.now))) }
    {
        match event {
            Event::Post(bytes) => self.post(bytes),
            Event::Share(i) => self.share(alloc, *i),
            Event::Take { to, packet } => self.take(alloc, *to, *packet),
            Event::Save(i) => self.save(alloc, *i),
            Event::Restart(i) => self.restart(alloc, job, *i),
        }
    }
}
