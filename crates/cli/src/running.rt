//! Runs a command and gives its exit status.
ghost use Rattle.std.specs.Prelude.{◌≡◌, ◌≢◌, ◌≤◌, ℕ, List, ◌⊎◌, IfErr, IfOk, OnErr, OnOk, Ok, length, sum};
ghost use Rattle.meaning.specs.Catalog.{IsWellFormed};
ghost use Rattle.catalog_reader.specs.CatalogText.{catalog_of};
ghost use Rattle.meaning.specs.SoundPlan.{IsSoundPlan};
ghost use Rattle.planner.specs.DeclaredPlans.{IsDeclared};
ghost use Rattle.planner.specs.QueryText.{IsPlanned};
ghost use Rattle.gathering.specs.Gathering.{GatherSpec};
ghost use Rattle.coordinator.specs.Whole.{IsAnswered};
ghost use Rattle.command_line.specs.Command.{IsInRange};
ghost use Rattle.cli.specs.Refusing.{IsDiskFailed, IsInputRefused, IsQueryRefused, IsRefusedOver, IsRefusedSo, IsSilent, IsUnreadFirst, IsUnreadOfPlan, IsUnwrittenTried, IsWholeRefused};
ghost use Rattle.loads.specs.Refusing.{IsQuiet};
ghost use Rattle.cli.specs.Running.{AreTables, IsAnsweredSo, IsWholeDone, IsCommandDone, IsReportedAs, input_over};
ghost use Rattle.cli.specs.Status.{IsEndStatus, IsRunStatus, end_status, report_status};
ghost use Rattle.folders.specs.Folder.{csv_path};
ghost use Rattle.folders.specs.Refused.{IsAskedFor, IsTriedFor};
ghost use Rattle.folders.specs.declared.refusal.Refusal.{Refusal as ARefusal};
ghost use Rattle.jobs.specs.Gathering.{HasFailed, IsGatherLeft, IsGatherRefused, IsGatherSavedFirst, IsGatherUnread};
ghost use Rattle.jobs.specs.Working.{IsWorked, IsWorkRefused, IsWorkUnread};

use crate::question::{Question, Request};
use crate::refusal_lines::print_refusal;
use crate::tables::{Tables, lend_files, read_dims, read_fact};
use crate::whole_refusal::refusal_of;
use catalog_reader::read_catalog;
use command_line::{Command, GatherCommand, WorkCommand};
use coordinator::{Sources, answer_plan};
use folders::{Folder, Refusal, read_catalog_file};
use gathering::{Ended, Report};
use jobs::{answer_fragment, gather_answers, plan_of};
use loads::load_tables;
use meaning::Plan;
use std::alloc::Global;
use std::io::Write;
use std::mem::drop;

fn status_of(ended: Ended) -> u8
    ensures { result ≡ end_status ended }
{
    match ended {
        Ended::Rows => 0,
        Ended::Fault => 3,
    }
}

fn status_of_report(report: &Report) -> u8
    ensures { result ≡ report_status report.now }
{
    match report {
        Report::Rows => 0,
        Report::Fault => 3,
        Report::Missing(_) | Report::Conflict(_) => 4,
    }
}

/// Answers a plan's query over tables that were read.
fn answer_over<O: Write>(
    alloc: Global,
    question: &Question<'_>,
    plan: Plan,
    tables: &Tables,
    out: &mut O,
) -> Result<Ended, Refusal>
    requires catalog { IsWellFormed question.now.catalog.now }
    requires plan { IsSoundPlan plan }
    requires declared { IsDeclared question.now.catalog.now plan }
    ensures answered { IfOk result (λ ended. (text : List ℕ)
        → catalog_of text ≡ Ok question.now.catalog.now
        → IsPlanned question.now.catalog.now question.now.query.now (Ok plan)
        → (gather : GatherSpec) × IsAnswered
        (input_over text tables.now question.now.query.now question.now.vector) (O.contents out.old)
        (O.contents out.new) ended gather) }
    ensures refused { IfErr result (λ e. (text : List ℕ)
        → catalog_of text ≡ Ok question.now.catalog.now
        → IsPlanned question.now.catalog.now question.now.query.now (Ok plan)
        → IsInputRefused question.now.directory.now
        (input_over text tables.now question.now.query.now question.now.vector) e) }
    ensures quiet { IfErr result (λ e. IsQuiet e (O.contents out.old) (O.contents out.new)) }
    ensures missing { IfErr result (λ e. (text : List ℕ)
        → catalog_of text ≡ Ok question.now.catalog.now
        → IsPlanned question.now.catalog.now question.now.query.now (Ok plan)
        → IsUnreadOfPlan question.now.directory.now plan e) }
{
    let csvs = match lend_files(alloc, tables) {
        Ok(csvs) => csvs,
        Err(_) => {
            drop(plan);
            return Err(Refusal::Memory);
        }
    };
    let sources = Sources {
        csvs: csvs.as_slice(),
        cut: &tables.cut,
        vector_len: question.vector as usize,
    };
    match answer_plan(alloc, question.catalog, plan, sources, out) {
        Ok((ended, gather)) => {
            drop(gather);
            Ok(ended)
        }
        Err(fault) => Err(refusal_of(alloc, question.directory, fault)),
    }
}

/// Reads the files of the dimensions that the plan joins beside the fact's, and answers the plan's
/// query.
fn answer_planned<F: Folder, O: Write>(
    alloc: Global,
    folder: &F,
    question: &Question<'_>,
    plan: Plan,
    fact: Tables,
    out: &mut O,
) -> Result<Ended, Refusal>
    requires catalog { IsWellFormed question.now.catalog.now }
    requires plan { IsSoundPlan plan }
    requires declared { IsDeclared question.now.catalog.now plan }
    requires fact { AreTables (F.holds folder.now) question.now.directory.now
        question.now.catalog.now.fact.name question.now.rows fact }
    requires asked { F.asks folder.now
        (csv_path question.now.directory.now question.now.catalog.now.fact.name) }
    ensures answered { IfOk result (λ ended. (text : List ℕ)
        → catalog_of text ≡ Ok question.now.catalog.now
        → IsPlanned question.now.catalog.now question.now.query.now (Ok plan)
        → IsAnsweredSo (F.holds folder.now) question.now.directory.now text question.now.catalog.now
        question.now.query.now question.now.rows question.now.vector (O.contents out.old)
        (O.contents out.new) ended) }
    ensures refused { IfErr result (λ e. (text : List ℕ)
        → catalog_of text ≡ Ok question.now.catalog.now
        → IsPlanned question.now.catalog.now question.now.query.now (Ok plan)
        → IsRefusedOver (F.holds folder.now) question.now.directory.now text
        question.now.catalog.now question.now.query.now question.now.rows question.now.vector e) }
    ensures quiet { IfErr result (λ e. IsQuiet e (O.contents out.old) (O.contents out.new)) }
    ensures unread { IfErr result (λ e. (text : List ℕ)
        → catalog_of text ≡ Ok question.now.catalog.now
        → IsPlanned question.now.catalog.now question.now.query.now (Ok plan)
        → IsAskedFor (F.asks folder.now) e) }
{
    match read_dims(alloc, folder, question.directory, plan.joins.as_slice()) {
        Ok(dims) => {
            let Tables { fact, cut, .. } = fact;
            let tables = Tables { fact, dims, cut };
            answer_over(alloc, question, plan, &tables, out)
        }
        Err(refusal) => {
            drop(plan);
            Err(refusal)
        }
    }
}

/// Answers a query over tables that the catalogue declares: the fact's file is read and cut, then
/// the query is planned, and then the dimensions' files are read.
fn answer_declared<F: Folder, O: Write>(
    alloc: Global,
    folder: &F,
    question: &Question<'_>,
    out: &mut O,
) -> Result<Ended, Refusal>
    requires rows { 1 ≤ question.now.rows }
    requires catalog { IsWellFormed question.now.catalog.now }
    ensures answered { IfOk result (λ ended. (text : List ℕ)
        → catalog_of text ≡ Ok question.now.catalog.now
        → IsAnsweredSo (F.holds folder.now) question.now.directory.now text question.now.catalog.now
        question.now.query.now question.now.rows question.now.vector (O.contents out.old)
        (O.contents out.new) ended) }
    ensures refused { IfErr result (λ e. (text : List ℕ)
        → catalog_of text ≡ Ok question.now.catalog.now
        → IsQueryRefused (F.holds folder.now) question.now.directory.now text
        question.now.catalog.now question.now.query.now question.now.rows question.now.vector e) }
    ensures quiet { IfErr result (λ e. IsQuiet e (O.contents out.old) (O.contents out.new)) }
    ensures unread { IfErr result (λ e. (text : List ℕ)
        → catalog_of text ≡ Ok question.now.catalog.now → IsAskedFor (F.asks folder.now) e) }
{
    let Question {
        directory,
        catalog,
        ..
    } = *question;
    let fact = read_fact(alloc, folder, directory, &catalog.fact.name, question.rows)?;
    match plan_of(alloc, catalog, question.query) {
        Ok(plan) => answer_planned(alloc, folder, question, plan, fact, out),
        Err(refusal) => {
            drop(fact);
            Err(refusal)
        }
    }
}

fn answer<F: Folder, O: Write>(
    alloc: Global,
    folder: &F,
    request: &Request<'_>,
    out: &mut O,
) -> Result<u8, Refusal>
    requires { 1 ≤ request.now.rows }
    ensures done { IfOk result
        (IsWholeDone (F.holds folder.now) request.now.directory.now request.now.query.now
        request.now.rows request.now.vector (O.contents out.old) (O.contents out.new)) }
    ensures refused { IfErr result
        (IsWholeRefused (F.holds folder.now) request.now.directory.now request.now.query.now
        request.now.rows request.now.vector) }
    ensures quiet { IfErr result (λ e. IsQuiet e (O.contents out.old) (O.contents out.new)) }
    ensures unread { IfErr result (IsAskedFor (F.asks folder.now)) }
{
    let bytes = read_catalog_file(alloc, folder, request.directory)?;
    let catalog = read_catalog(alloc, bytes.as_slice())?;
    let question = Question {
        directory: request.directory,
        catalog: &catalog,
        query: request.query,
        rows: request.rows,
        vector: request.vector,
    };
    let ended = answer_declared(alloc, folder, &question, out);
    drop(catalog);
    Ok(status_of(ended?))
}

fn gather<F: Folder, O: Write, E: Write>(
    alloc: Global,
    folder: &mut F,
    command: &GatherCommand,
    out: &mut O,
    err: &mut E,
) -> Result<u8, Refusal>
    ensures status { IfOk result IsEndStatus }
    ensures done { IfOk result
        (IsReportedAs (F.holds folder.old) command.now (O.contents out.old) (O.contents out.new)
        (E.contents err.old) (E.contents err.new) (F.wrote folder.old) (F.wrote folder.new)) }
    ensures refused { IfErr result (IsGatherRefused (F.holds folder.old) command.now) }
    ensures first { IfErr result (IsGatherUnread (F.opens folder.old) (F.shuts folder.old) command.now) }
    ensures quiet { IfErr result (λ e. IsQuiet e (O.contents out.old) (O.contents out.new)) }
    ensures left { OnErr result
        (IsGatherLeft (F.holds folder.old) command.now (E.contents err.old) (F.wrote folder.old)
        (F.wrote folder.new)) }
    ensures saved { IfErr result
        (IsGatherSavedFirst (F.holds folder.old) command.now (E.contents err.old)
        (F.wrote folder.old) (F.wrote folder.new)) }
    ensures unread { IfErr result (IsAskedFor (F.asks folder.old)) }
    ensures unwritten { IfErr result (IsTriedFor (F.tries folder.old)) }
    ensures failed { IfErr result (HasFailed F.Disk.shown) }
{
    let report = gather_answers(alloc, folder, command, out, err)?;
    Ok(status_of_report(&report))
}

fn work<F: Folder>(alloc: Global, folder: &mut F, command: &WorkCommand) -> Result<(), Refusal>
    ensures worked { OnOk result
        (IsWorked (F.holds folder.old) command.now (F.wrote folder.old) (F.wrote folder.new)) }
    ensures refused { IfErr result (IsWorkRefused (F.holds folder.old) command.now) }
    ensures first { IfErr result
        (IsWorkUnread (F.holds folder.old) (F.opens folder.old) command.now) }
    ensures left { OnErr result (F.wrote folder.new ≡ F.wrote folder.old) }
    ensures unread { IfErr result (IsAskedFor (F.asks folder.old)) }
    ensures unwritten { IfErr result (IsTriedFor (F.tries folder.old)) }
{
    answer_fragment(alloc, folder, command)
}

/// Does a command, and answers the program's exit status or why the command is refused: 0 where a
/// query gave rows, the tables were loaded or an answer was written, 3 where a query ended with a
/// fault of arithmetic, 4 where answers are missing or in conflict. A report goes to `out`, and the
/// lines of files that were passed over to `err`.
///
/// # Errors
///
/// Out of memory, or the first thing that is wrong in the folder's bytes, in the command's order.
/// Whatever it is, nothing was printed then, unless standard output failed; and no file was written
/// but by a load whose files could not all be written, which leaves those before it, and by a
/// `gather` whose report could not be printed, which leaves its state.
pub fn outcome<F: Folder, O: Write, E: Write>(
    alloc: Global,
    command: &Command,
    folder: &mut F,
    out: &mut O,
    err: &mut E,
) -> Result<u8, Refusal>
    requires { IsInRange command.now }
    ensures status { IfOk result IsEndStatus }
    ensures done { IfOk result
        (IsCommandDone (F.holds folder.old) command.now (O.contents out.old) (O.contents out.new)
        (E.contents err.old) (E.contents err.new) (F.wrote folder.old) (F.wrote folder.new)) }
    ensures refused { IfErr result
        (IsRefusedSo (F.holds folder.old) command.now (O.contents out.old) (O.contents out.new)
        (E.contents err.old) (F.wrote folder.old) (F.wrote folder.new)) }
    ensures first { IfErr result
        (IsUnreadFirst (F.holds folder.old) (F.opens folder.old) (F.shuts folder.old) command.now) }
    ensures silent { OnErr result (IsSilent command.now (E.contents err.old) (E.contents err.new)) }
    // A file that can't be read was asked for.
    ensures unread { IfErr result (IsAskedFor (F.asks folder.old)) }
    // One that can't be written was to be created, put under its path or taken away.
    ensures unwritten { IfErr result (IsUnwrittenTried (F.tries folder.old) command.now) }
    // A journal's device that failed, or is full, is that of a disk that has said so.
    ensures failed { IfErr result (IsDiskFailed F.Disk.shown command.now) }
{
    match command {
        Command::Whole {
            folder: directory,
            query,
            rows,
            vector,
        } => {
            let (directory, query) = (directory.as_str(), query.as_str());
            let request = Request {
                directory,
                query,
                rows: *rows,
                vector: *vector,
            };
            answer(alloc, folder, &request, out)
        }
        Command::Load {
            folder: directory,
            load: number,
            rows,
        } => {
            load_tables(alloc, folder, directory.as_str(), *number, *rows, out)?;
            Ok(0)
        }
        Command::Work(command) => {
            work(alloc, folder, command)?;
            Ok(0)
        }
        Command::Gather(command) => gather(alloc, folder, command, out, err),
    }
}

/// Does a command, and answers the program's exit status: that of its `outcome`, or 1 where it was
/// refused. The line of a refusal goes to `err`.
pub fn run<F: Folder, O: Write, E: Write>(
    alloc: Global,
    command: &Command,
    folder: &mut F,
    out: &mut O,
    err: &mut E,
) -> u8
    requires { IsInRange command.now }
    ensures status { IsRunStatus result }
    ensures done { result ≢ 1
        → IsCommandDone (F.holds folder.old) command.now (O.contents out.old) (O.contents out.new)
        (E.contents err.old) (E.contents err.new) (F.wrote folder.old) (F.wrote folder.new) result }
    ensures refused { result ≡ 1 → (e : ARefusal)
        × IsRefusedSo (F.holds folder.old) command.now (O.contents out.old) (O.contents out.new)
        (E.contents err.old) (F.wrote folder.old) (F.wrote folder.new) e
        × IsUnreadFirst (F.holds folder.old) (F.opens folder.old) (F.shuts folder.old) command.now e
        × IsAskedFor (F.asks folder.old) e
        × IsUnwrittenTried (F.tries folder.old) command.now e
        × IsDiskFailed F.Disk.shown command.now e }
{
    match outcome(alloc, command, folder, out, err) {
        Ok(status) => status,
        Err(refusal) => {
            // A closed standard error leaves nobody to print.
            let _ = print_refusal(&refusal, err);
            1
        }
    }
}
