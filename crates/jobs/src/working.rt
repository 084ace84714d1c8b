//! A fragment's answer, from the folder's files to the answer's.
ghost use Rattle.std.specs.Prelude.{◌≡◌, List, map, IfErr, IfOk, OnErr, OnOk, Ok};
ghost use Rattle.meaning.specs.Order.{Row};
ghost use Rattle.meaning.specs.SoundPlan.{IsSoundPlan};
ghost use Rattle.meaning.specs.Said.{Answer as AnAnswer};
ghost use Rattle.folders.specs.Folder.{HasHeld, WritesOne, dimension_path, fragment_path};
ghost use Rattle.folders.specs.Each.{AreEach};
ghost use Rattle.folders.specs.Refused.{IsAskedFor, IsFirstUnread, IsTriedFor, IsUnread};
ghost use Rattle.partial_codec.specs.Answer.{Spells};
ghost use Rattle.jobs.specs.Working.{AreDimensionsUnread, IsAnswer, IsAnswerRefused, IsDimensionOf, IsOwnSpelled, IsReaderAnswer, IsReaderRefused, IsSpelled, IsSpelledRefused, IsWorkRefused, IsWorkUnread, IsWorked, paths_of};

use crate::job::read_job;
use command_line::WorkCommand;
use folders::{
    Folder, Refusal, dimension_path, fragment_path, open_file, read_file, work_refusal, write_file,
};
use job_files::lend_files;
use meaning::{Join, Sequence, Text};
use partial_codec::{Job, encode};
use std::alloc::Global;
use std::io::Read;
use std::mem::drop;
use worker::work_from;

/// A reader of the fragment's file, beside its path.
fn open_fragment<F: Folder>(
    alloc: Global,
    folder: &F,
    directory: &str,
    table: &str,
    fragment: u32,
) -> Result<(Text, F::Reader), Refusal>
    ensures path { IfOk result (λ x. x.0 ≡ fragment_path directory.now table.now fragment) }
    ensures held { IfOk result
        (λ x. HasHeld (F.holds folder.now (fragment_path directory.now table.now fragment))
        (F.Reader.remaining x.1)) }
    ensures opened { OnOk result
        (F.opens folder.now (fragment_path directory.now table.now fragment)) }
    ensures asked { OnOk result
        (F.asks folder.now (fragment_path directory.now table.now fragment)) }
    ensures refused { IfErr result (IsUnread (fragment_path directory.now table.now fragment)) }
    ensures unread { IfErr result (IsAskedFor (F.asks folder.now)) }
{
    let path = fragment_path(alloc, directory, table, fragment)?;
    let file = open_file(folder, &path)?;
    Ok((path, file))
}

fn read_dimension<F: Folder>(
    alloc: Global,
    folder: &F,
    directory: &str,
    join: &Join,
) -> Result<Sequence<u8>, Refusal>
    ensures held { IfOk result
        (λ bytes. IsDimensionOf (F.holds folder.now) directory.now join.now bytes) }
    ensures opened { OnOk result
        (F.opens folder.now (dimension_path directory.now join.now.dim.name)) }
    ensures refused { IfErr result (IsUnread (dimension_path directory.now join.now.dim.name)) }
    ensures unread { IfErr result (IsAskedFor (F.asks folder.now)) }
{
    let path = dimension_path(alloc, directory, join.dim.name.as_str())?;
    Ok(Sequence::from_vec(read_file(alloc, folder, &path)?))
}

/// The files of the dimensions that are joined, in the order of the joins.
fn read_dimensions<F: Folder>(
    alloc: Global,
    folder: &F,
    directory: &str,
    joins: &[Join],
) -> Result<Vec<Sequence<u8>>, Refusal>
    ensures held { IfOk result
        (λ dims. AreEach (IsDimensionOf (F.holds folder.now) directory.now) joins.now dims.items) }
    ensures refused { IfErr result (AreDimensionsUnread directory.now joins.now) }
    ensures first { IfErr result (IsFirstUnread (F.opens folder.now)
        (map (λ join. dimension_path directory.now join.dim.name) joins.now)) }
    ensures unread { IfErr result (IsAskedFor (F.asks folder.now)) }
{
    let mut dims = Vec::new(alloc);
    for join in joins {
        dims.push(read_dimension(alloc, folder, directory, join)?)?;
    }
    Ok(dims)
}

/// What the worker answers for the files, as bytes. The fragment's stands under this path, and one
/// row group of it at a time is in memory.
fn answer_files<R: Read + Drop>(
    alloc: Global,
    job: &Job,
    path: &Text,
    fragment: R,
    dims: &[Sequence<u8>],
    k: u32,
    vector: u32,
) -> Result<Vec<u8>, Refusal>
    requires { IsSoundPlan job.now.plan }
    ensures spelled { IfOk result (λ bytes.
        IsReaderAnswer job.now k vector (R.remaining fragment) dims.now bytes.items) }
    ensures refused { IfErr result
        (IsReaderRefused job.now k vector path.now (R.remaining fragment) dims.now) }
{
    let lent = lend_files(alloc, dims)?;
    match work_from(alloc, job, fragment, lent.as_slice(), k, vector as usize) {
        Ok(answer) => {
            let bytes = encode(alloc, job, &answer);
            drop(answer);
            Ok(bytes?)
        }
        Err(fault) => Err(work_refusal(path, fault)),
    }
}

/// The answer of the job's fragment, as bytes.
fn answer_job<F: Folder>(
    alloc: Global,
    folder: &F,
    job: &Job,
    command: &WorkCommand,
) -> Result<Vec<u8>, Refusal>
    requires { IsSoundPlan job.now.plan }
    ensures spelled { IfOk result
        (λ bytes. IsAnswer (F.holds folder.now) command.now job.now bytes.items) }
    ensures refused { IfErr result (IsAnswerRefused (F.holds folder.now) command.now job.now) }
    ensures first { IfErr result
        (IsFirstUnread (F.opens folder.now) (paths_of command.now job.now)) }
    ensures unread { IfErr result (IsAskedFor (F.asks folder.now)) }
{
    let (directory, k) = (command.folder.as_str(), command.fragment);
    let plan = job.plan();
    let (path, fragment) = open_fragment(alloc, folder, directory, plan.fact.name.as_str(), k)?;
    let dims = read_dimensions(alloc, folder, directory, plan.joins.as_slice())?;
    answer_files(
        alloc,
        job,
        &path,
        fragment,
        dims.as_slice(),
        k,
        command.vector,
    )
}

/// The answer, as bytes.
fn spelled_answer<F: Folder>(
    alloc: Global,
    folder: &F,
    command: &WorkCommand,
) -> Result<Vec<u8>, Refusal>
    ensures spelled { IfOk result (λ bytes. IsSpelled (F.holds folder.now) command.now bytes.items) }
    ensures refused { IfErr result (IsSpelledRefused (F.holds folder.now) command.now) }
    ensures first { IfErr result
        (IsWorkUnread (F.holds folder.now) (F.opens folder.now) command.now) }
    ensures unread { IfErr result (IsAskedFor (F.asks folder.now)) }
{
    let job = read_job(
        alloc,
        folder,
        command.folder.as_str(),
        command.query.as_str(),
    )?;
    let bytes = answer_job(alloc, folder, &job, command);
    drop(job);
    bytes
}

/// Answers a query for one fragment of the tables that a folder was loaded with, and writes the
/// answer under the path `out`. The files of the dimensions that the query joins are given to the
/// worker in the order of the joins, and of the fragment's file one row group at a time is in
/// memory. The fragment's file is opened, and the dimensions' are read, before one is judged.
///
/// # Errors
///
/// Out of memory, or the first of these: what keeps the folder and the query from a job (the
/// catalogue, the file of the cut, the query's text, its plan), a file that cannot be read (the
/// fragment's, then the dimensions'; the fragment's again where it can be opened and not be read to
/// its end), what the worker refuses, and last that the answer cannot be written. No file was
/// written then.
pub fn answer_fragment<F: Folder>(
    alloc: Global,
    folder: &mut F,
    command: &WorkCommand,
) -> Result<(), Refusal>
    ensures worked { OnOk result
        (IsWorked (F.holds folder.old) command.now (F.wrote folder.old) (F.wrote folder.new)) }
    // Where the folder holds the files of tables, it is the fragment's own answer over them.
    ensures own { OnOk result ((rows : List Row) (tables : List (List Row))
        → WritesOne command.now.out
        (IsOwnSpelled (F.holds folder.old) command.now rows tables) (F.wrote folder.old)
        (F.wrote folder.new)) }
    ensures refused { IfErr result (IsWorkRefused (F.holds folder.old) command.now) }
    // A file that can't be read is the first of the job's: those before it were opened.
    ensures first { IfErr result
        (IsWorkUnread (F.holds folder.old) (F.opens folder.old) command.now) }
    ensures left { OnErr result (F.wrote folder.new ≡ F.wrote folder.old) }
    // The file was asked for.
    ensures unread { IfErr result (IsAskedFor (F.asks folder.old)) }
    // One that can't be written was to be created.
    ensures unwritten { IfErr result (IsTriedFor (F.tries folder.old)) }
{
    let bytes = spelled_answer(alloc, folder, command)?;
    write_file(folder, &command.out, bytes.as_slice())
}
