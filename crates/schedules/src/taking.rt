//! What a packet does to a coordinator.
ghost use Rattle.std.specs.Prelude.{◌≡◌, ◌++◌, OnOk, option_to_list};
ghost use Rattle.meaning.specs.Gather.{joined};
ghost use Rattle.meaning_laws.specs.Heard.{Answers};
ghost use Rattle.partial_codec.specs.Job.{JobSpec};
ghost use Rattle.partial_codec.specs.State.{SpellsState};
ghost use Rattle.schedules.specs.World.{Holds, IsPacket, answer_in};

use crate::world::Packet;
use gathering::{Gather, GatherFault};
use std::alloc::{AllocError, Global};

// Bytes that encode no answer for the job change nothing.
fn take_posted(alloc: Global, gather: &mut Gather, bytes: &[u8]) -> Result<(), AllocError>
    ensures { OnOk result ((job : JobSpec) (answers : Answers) → Holds job gather.old answers
        → Holds job gather.new (answers ++ option_to_list (answer_in job bytes.now))) }
{
    // No effect at run time. The proof reads from this call that the job is within its limits.
    let _plan = gather.job().plan();
    match gather.absorb(alloc, bytes) {
        Ok(_) => Ok(()),
        Err(GatherFault::Decode(_)) => Ok(()),
        Err(_) => Err(AllocError),
    }
}

fn take_state(alloc: Global, gather: &mut Gather, bytes: &[u8]) -> Result<(), AllocError>
    ensures { OnOk result ((job : JobSpec) (answers others : Answers)
        → Holds job gather.old answers → SpellsState job bytes.now (joined job.cut others)
        → Holds job gather.new (answers ++ others)) }
{
    // No effect at run time. The proof reads from this call that the job is within its limits.
    let _plan = gather.job().plan();
    match gather.absorb_state(alloc, bytes) {
        Ok(()) => Ok(()),
        // A state that a coordinator of the job spelled is refused for nothing else.
        Err(_) => Err(AllocError),
    }
}

/// Takes a packet.
pub fn take_packet(
    alloc: Global,
    gather: &mut Gather,
    packet: &Packet<'_>,
) -> Result<(), AllocError>
    ensures { OnOk result ((job : JobSpec) (answers others : Answers)
        → Holds job gather.old answers → IsPacket job packet.now others
        → Holds job gather.new (answers ++ others)) }
{
    match packet {
        Packet::Posted(bytes) => take_posted(alloc, gather, bytes),
        Packet::State(bytes) => take_state(alloc, gather, bytes),
    }
}
