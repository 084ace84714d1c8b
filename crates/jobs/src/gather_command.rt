//! What answers and states say together, from their files to the report.
ghost use Rattle.std.specs.Prelude.{◌≡◌, ◌⊎◌, None, Some, true, IfErr, IfOk, OnErr};
ghost use Rattle.partial_codec.specs.State.{state_bytes};
ghost use Rattle.folders.specs.Refused.{IsAskedFor, IsTriedFor};
ghost use Rattle.jobs.specs.Gathering.{HasFailed, IsGatherLeft, IsGathered, IsGatheredOf, IsGatherRefused, IsGatherSavedFirst, IsGatherUnread, IsReported, IsReportRefused, IsSavedFirst, IsSaveLeft, IsTogetherRefused};

use crate::job::read_job;
use crate::journals::start_journal;
use crate::saving::save_and_show;
use crate::taking::take_files;
use command_line::GatherCommand;
use disk::Disk;
use folders::{Folder, Refusal};
use gathering::{Gather, Report};
use journal::DurableGather;
use meaning::Text;
use std::alloc::Global;
use std::io::Write;
use std::mem::drop;

/// A coordinator of the query's job that has taken the files.
fn gather_in_memory<F: Folder, E: Write>(
    alloc: Global,
    folder: &F,
    command: &GatherCommand,
    err: &mut E,
) -> Result<Gather, Refusal>
    requires { command.now.journal ≡ None }
    ensures gathered { IfOk result
        (IsGatheredOf (F.holds folder.now) command.now (E.contents err.old) (E.contents err.new)) }
    ensures refused { IfErr result (IsTogetherRefused (F.holds folder.now) command.now) }
    ensures first { IfErr result (IsGatherUnread (F.opens folder.now) (F.shuts folder.now) command.now) }
    ensures unread { IfErr result (IsAskedFor (F.asks folder.now)) }
    ensures failed { IfErr result (HasFailed F.Disk.shown) }
{
    let job = read_job(
        alloc,
        folder,
        command.folder.as_str(),
        command.query.as_str(),
    )?;
    let mut gather = Gather::new(alloc, job)?;
    match take_files(alloc, folder, &mut gather, command.files.as_slice(), err) {
        Ok(()) => Ok(gather),
        Err(refusal) => {
            drop(gather);
            Err(refusal)
        }
    }
}

/// A coordinator of the query's job, with the journal under a path, that has taken the files.
fn gather_in_journal<F: Folder, E: Write>(
    alloc: Global,
    folder: &F,
    command: &GatherCommand,
    path: &Text,
    err: &mut E,
) -> Result<DurableGather<F::Disk>, Refusal>
    requires { command.now.journal ≡ Some path.now }
    ensures gathered { IfOk result (λ d. IsGatheredOf (F.holds folder.now) command.now
        (E.contents err.old) (E.contents err.new) d.gather) }
    ensures is_open { IfOk result (λ d. d.is_open ≡ true) }
    ensures refused { IfErr result (IsTogetherRefused (F.holds folder.now) command.now) }
    ensures first { IfErr result (IsGatherUnread (F.opens folder.now) (F.shuts folder.now) command.now) }
    ensures unread { IfErr result (IsAskedFor (F.asks folder.now)) }
    ensures failed { IfErr result (HasFailed F.Disk.shown) }
{
    let job = read_job(
        alloc,
        folder,
        command.folder.as_str(),
        command.query.as_str(),
    )?;
    let mut durable = start_journal(alloc, folder, path, job)?;
    match take_files(alloc, folder, &mut durable, command.files.as_slice(), err) {
        Ok(()) => Ok(durable),
        Err(refusal) => {
            drop(durable.into_disk());
            Err(refusal)
        }
    }
}

/// What the files say together is saved and shown.
fn report_from_memory<F: Folder, O: Write, E: Write>(
    alloc: Global,
    folder: &mut F,
    command: &GatherCommand,
    out: &mut O,
    err: &mut E,
) -> Result<Report, Refusal>
    requires { command.now.journal ≡ None }
    ensures gathered { IfOk result
        (IsGathered (F.holds folder.old) command.now (O.contents out.old) (O.contents out.new)
        (E.contents err.old) (E.contents err.new) (F.wrote folder.old) (F.wrote folder.new)) }
    ensures refused { IfErr result (IsGatherRefused (F.holds folder.old) command.now) }
    ensures first { IfErr result (IsGatherUnread (F.opens folder.old) (F.shuts folder.old) command.now) }
    ensures quiet { IfErr result (λ e. (e ≡ Refusal.CannotPrint)
        ⊎ (O.contents out.new ≡ O.contents out.old)) }
    ensures left { OnErr result
        (IsGatherLeft (F.holds folder.old) command.now (E.contents err.old) (F.wrote folder.old)
        (F.wrote folder.new)) }
    ensures saved { IfErr result
        (IsGatherSavedFirst (F.holds folder.old) command.now (E.contents err.old)
        (F.wrote folder.old) (F.wrote folder.new)) }
    ensures unread { IfErr result (IsAskedFor (F.asks folder.old)) }
    ensures unwritten { IfErr result (IsTriedFor (F.tries folder.old)) }
    ensures failed { IfErr result (HasFailed F.Disk.shown) }
{
    let gather = gather_in_memory(alloc, folder, command, err)?;
    let report = save_and_show(alloc, folder, &gather, command, out);
    drop(gather);
    report
}

/// What a coordinator with a journal holds is saved and shown.
fn save_and_show_durable<F: Folder, D: Disk + Drop, O: Write>(
    alloc: Global,
    folder: &mut F,
    durable: &DurableGather<D>,
    command: &GatherCommand,
    out: &mut O,
) -> Result<Report, Refusal>
    requires { durable.now.is_open ≡ true }
    ensures reported { IfOk result
        (IsReported durable.now.gather command.now.save command.now.preview (O.contents out.old)
        (O.contents out.new) (F.wrote folder.old) (F.wrote folder.new)) }
    ensures refused { IfErr result (IsReportRefused command.now.save) }
    ensures quiet { IfErr result (λ e. (e ≡ Refusal.CannotPrint)
        ⊎ (O.contents out.new ≡ O.contents out.old)) }
    ensures left { OnErr result
        (IsSaveLeft command.now.save (state_bytes durable.now.gather.job durable.now.gather.cells)
        (F.wrote folder.old) (F.wrote folder.new)) }
    ensures saved { IfErr result
        (IsSavedFirst command.now.save (state_bytes durable.now.gather.job durable.now.gather.cells)
        (F.wrote folder.old) (F.wrote folder.new)) }
    ensures unwritten { IfErr result (IsTriedFor (F.tries folder.old)) }
    ensures failed { IfErr result (HasFailed F.Disk.shown) }
{
    match durable.gather() {
        Ok(gather) => save_and_show(alloc, folder, gather, command, out),
        Err(_) => unreachable!(),
    }
}

/// What the journal under a path and the files say together is saved and shown.
fn report_from_journal<F: Folder, O: Write, E: Write>(
    alloc: Global,
    folder: &mut F,
    command: &GatherCommand,
    path: &Text,
    out: &mut O,
    err: &mut E,
) -> Result<Report, Refusal>
    requires { command.now.journal ≡ Some path.now }
    ensures gathered { IfOk result
        (IsGathered (F.holds folder.old) command.now (O.contents out.old) (O.contents out.new)
        (E.contents err.old) (E.contents err.new) (F.wrote folder.old) (F.wrote folder.new)) }
    ensures refused { IfErr result (IsGatherRefused (F.holds folder.old) command.now) }
    ensures first { IfErr result (IsGatherUnread (F.opens folder.old) (F.shuts folder.old) command.now) }
    ensures quiet { IfErr result (λ e. (e ≡ Refusal.CannotPrint)
        ⊎ (O.contents out.new ≡ O.contents out.old)) }
    ensures left { OnErr result
        (IsGatherLeft (F.holds folder.old) command.now (E.contents err.old) (F.wrote folder.old)
        (F.wrote folder.new)) }
    ensures saved { IfErr result
        (IsGatherSavedFirst (F.holds folder.old) command.now (E.contents err.old)
        (F.wrote folder.old) (F.wrote folder.new)) }
    ensures unread { IfErr result (IsAskedFor (F.asks folder.old)) }
    ensures unwritten { IfErr result (IsTriedFor (F.tries folder.old)) }
    ensures failed { IfErr result (HasFailed F.Disk.shown) }
{
    let durable = gather_in_journal(alloc, folder, command, path, err)?;
    let report = save_and_show_durable(alloc, folder, &durable, command, out);
    drop(durable);
    report
}

/// Gathers the answers and states of a query over the tables that a folder was loaded with, in the
/// order of the files; then writes the state under the path `save`, if there is one, and prints the
/// report, or the preview where the command asks for it, and says which it was. A file that spells
/// neither an answer nor a state for the query's job is named on standard error, with the error code
/// of its bytes, and passed over.
///
/// Where the command has a journal, what it holds comes before the files, and each answer of the
/// files is in it before the next file is read. It is made where there is none. States are passed
/// over then.
///
/// # Errors
///
/// Out of memory, or the first of these: what keeps the folder and the query from a job (the
/// catalogue, the file of the cut, the query's text, its plan), a journal that cannot be made or
/// opened, a file that cannot be read or named or whose answer cannot be put into the journal, a
/// state that cannot be written, a report or preview that cannot be printed.
pub fn gather_answers<F: Folder, O: Write, E: Write>(
    alloc: Global,
    folder: &mut F,
    command: &GatherCommand,
    out: &mut O,
    err: &mut E,
) -> Result<Report, Refusal>
    ensures gathered { IfOk result
        (IsGathered (F.holds folder.old) command.now (O.contents out.old) (O.contents out.new)
        (E.contents err.old) (E.contents err.new) (F.wrote folder.old) (F.wrote folder.new)) }
    ensures refused { IfErr result (IsGatherRefused (F.holds folder.old) command.now) }
    // A file that can't be read is the first of them: those before it were opened.
    ensures first { IfErr result (IsGatherUnread (F.opens folder.old) (F.shuts folder.old) command.now) }
    // Nothing is printed before the state is saved, and then only the output can fail.
    ensures quiet { IfErr result (λ e. (e ≡ Refusal.CannotPrint)
        ⊎ (O.contents out.new ≡ O.contents out.old)) }
    // No file was written, or the state that all files make, before its print failed.
    ensures left { OnErr result
        (IsGatherLeft (F.holds folder.old) command.now (E.contents err.old) (F.wrote folder.old)
        (F.wrote folder.new)) }
    // The state was saved where the output failed.
    ensures saved { IfErr result
        (IsGatherSavedFirst (F.holds folder.old) command.now (E.contents err.old)
        (F.wrote folder.old) (F.wrote folder.new)) }
    // And it was asked for.
    ensures unread { IfErr result (IsAskedFor (F.asks folder.old)) }
    // One that can't be written was to be created.
    ensures unwritten { IfErr result (IsTriedFor (F.tries folder.old)) }
    // A journal's device that failed, or is full, is that of a disk that has said so.
    ensures failed { IfErr result (HasFailed F.Disk.shown) }
{
    match &command.journal {
        Some(path) => report_from_journal(alloc, folder, command, path, out, err),
        None => report_from_memory(alloc, folder, command, out, err),
    }
}
