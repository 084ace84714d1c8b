//! Files of answers and states, taken one after the other.
ghost use Rattle.std.specs.Prelude.{◌≡◌, ◌≤◌, ◌^◌, IfErr, OnOk, length, true};
ghost use Rattle.folders.specs.Refused.{IsAskedFor, IsFirstUnread};
ghost use Rattle.jobs.specs.Gathering.{IsFileRefused, IsTakingRefused, IsUnreturned};
ghost use Rattle.jobs.specs.Taking.{IsCounted, TakesFile, TakesOrNames, TookFiles};

use crate::passed_over::print_passed_over;
use crate::takes_answers::{TakeFault, TakesAnswers};
use folders::{Folder, Refusal, read_file};
use meaning::Text;
use std::alloc::Global;
use std::io::Write;

/// Takes a file's bytes, or names the file where they are passed over.
fn take_or_name<T: TakesAnswers, E: Write>(
    alloc: Global,
    taker: &mut T,
    path: &Text,
    bytes: &[u8],
    err: &mut E,
) -> Result<(), Refusal>
    requires { (T.failing taker.old).is_open ≡ true }
    ensures takes { OnOk result
        (TakesOrNames T.journaled (T.held taker.old) (T.held taker.new) path.now bytes.now
        (E.contents err.old) (E.contents err.new)) }
    ensures stays_open { OnOk result ((T.failing taker.new).is_open ≡ true) }
    ensures refused { IfErr result (IsUnreturned T.journaled (2 ^ 32 ≤ length bytes.now)) }
    ensures counted { IfErr result (IsCounted (T.failing taker.new)) }
{
    match taker.take(alloc, bytes) {
        Ok(()) => Ok(()),
        Err(TakeFault::Refused(fault)) => {
            match print_passed_over(fault.number(), path.as_str(), err) {
                Ok(()) => Ok(()),
                Err(_) => Err(Refusal::CannotReport),
            }
        }
        Err(TakeFault::Memory) => Err(Refusal::Memory),
        Err(TakeFault::Journal(fault)) => Err(Refusal::Journal(fault)),
    }
}

fn take_file<F: Folder, T: TakesAnswers, E: Write>(
    alloc: Global,
    folder: &F,
    taker: &mut T,
    path: &Text,
    err: &mut E,
) -> Result<(), Refusal>
    requires { (T.failing taker.old).is_open ≡ true }
    ensures takes { OnOk result
        (TakesFile T.journaled (F.holds folder.now) (T.held taker.old) (T.held taker.new) path.now
        (E.contents err.old) (E.contents err.new)) }
    ensures opened { OnOk result (F.opens folder.now path.now) }
    ensures stays_open { OnOk result ((T.failing taker.new).is_open ≡ true) }
    ensures refused { IfErr result (IsFileRefused T.journaled (F.holds folder.now) path.now) }
    ensures counted { IfErr result (IsCounted (T.failing taker.new)) }
    ensures unread { IfErr result (IsAskedFor (F.asks folder.now)) }
{
    let bytes = read_file(alloc, folder, path)?;
    take_or_name(alloc, taker, path, bytes.as_slice(), err)
}

/// Takes the files one after the other. One that is neither an answer nor a state for the job is
/// named on standard error and passed over; so is a state where there is a journal.
pub fn take_files<F: Folder, T: TakesAnswers, E: Write>(
    alloc: Global,
    folder: &F,
    taker: &mut T,
    paths: &[Text],
    err: &mut E,
) -> Result<(), Refusal>
    requires { (T.failing taker.old).is_open ≡ true }
    ensures took { OnOk result
        (TookFiles T.journaled (F.holds folder.now) (T.held taker.old) (T.held taker.new) paths.now
        (E.contents err.old) (E.contents err.new)) }
    ensures stays_open { OnOk result ((T.failing taker.new).is_open ≡ true) }
    ensures refused { IfErr result
        (IsTakingRefused T.journaled (F.holds folder.now) paths.now) }
    ensures counted { IfErr result (IsCounted (T.failing taker.new)) }
    ensures first { IfErr result (IsFirstUnread (F.opens folder.now) paths.now) }
    ensures unread { IfErr result (IsAskedFor (F.asks folder.now)) }
{
    for path in paths {
        take_file(alloc, folder, taker, path, err)?;
    }
    Ok(())
}
