//! A whole query in memory, from CSV files to what is printed.
ghost use Rattle.std.specs.Prelude.{◌≡◌, ◌⊎◌, ℕ, true, List, IfOk, IfErr, OnOk, Ok};
ghost use Rattle.std.specs.Io.KnownBytes.{Appends};
ghost use Rattle.meaning.specs.Output.{Output};
ghost use Rattle.meaning.specs.Gather.{report, output};
ghost use Rattle.meaning.specs.Print.{report_text};
ghost use Rattle.catalog_reader.specs.CatalogText.{catalog_of};
ghost use Rattle.meaning.specs.Catalog.{IsWellFormed, IsWellFormedTable};
ghost use Rattle.meaning.specs.SoundPlan.{IsSoundPlan};
ghost use Rattle.meaning.specs.VectorLength.{is_vector_length};
ghost use Rattle.meaning.specs.Order.{Row};
ghost use Rattle.gathering.specs.Report.{ended_as};
ghost use Rattle.job_files.specs.RowFiles.{AreFilesOfTables};
ghost use Rattle.coordinator.specs.Fragment.{AreFragments, IsFactOf, Opens, job_of};
ghost use Rattle.planner.specs.DeclaredPlans.{IsDeclared};
ghost use Rattle.planner.specs.QueryText.{IsPlanned};
ghost use Rattle.coordinator.specs.Whole.{IsAnswered, IsAnsweredOver, IsRefused, IsEndRefusal, ended_in, input_of, whole_input};

use crate::fault::WholeFault;
use crate::fragments::answer_tables;
use crate::planning::plan_of;
use crate::sources::Sources;
use crate::tables::{Tables, checked_tables};
use catalog_reader::read_catalog;
use gathering::{Ended, Gather, GatherFault, Report};
use meaning::{Catalog, Cut, Plan, Table};
use std::alloc::Global;
use std::io::Write;
use std::mem::drop;

/// How a query ended of which this was printed. A conflict or a missing fragment is no end.
fn ended_in(report: &Report) -> Ended
    ensures { result ≡ ended_in report.now }
{
    match report {
        Report::Rows => Ended::Rows,
        Report::Fault | Report::Conflict(_) | Report::Missing(_) => Ended::Fault,
    }
}

/// Prints what the answers say together.
fn print_answer<W: Write>(alloc: Global, gather: &Gather, out: &mut W) -> Result<Ended, WholeFault>
    ensures printed { OnOk result
        (Appends (W.contents out.old) (W.contents out.new)
        (report_text gather.now.job.plan (report gather.now.job.plan gather.now.cells))) }
    ensures ended { IfOk result (λ e. (o : Output)
        → report gather.now.job.plan gather.now.cells ≡ output o → e ≡ ended_as o) }
    ensures refused { IfErr result IsEndRefusal }
    ensures quiet { IfErr result (λ e. (e ≡ WholeFault.Writer)
        ⊎ (W.contents out.new ≡ W.contents out.old)) }
{
    match gather.print_report(alloc, out) {
        Ok(report) => Ok(ended_in(&report)),
        Err(GatherFault::Writer) => Err(WholeFault::Writer),
        Err(_) => Err(WholeFault::Memory),
    }
}

/// Prints what the answers say together, and hands the coordinator on.
fn print_gathered<W: Write>(
    alloc: Global,
    gather: Gather,
    out: &mut W,
) -> Result<(Ended, Gather), WholeFault>
    ensures printed { OnOk result
        (Appends (W.contents out.old) (W.contents out.new)
        (report_text gather.job.plan (report gather.job.plan gather.cells))) }
    ensures ended { IfOk result (λ r. (o : Output) → report gather.job.plan gather.cells ≡ output o
        → r.0 ≡ ended_as o) }
    ensures same { IfOk result (λ r. r.1 ≡ gather) }
    ensures refused { IfErr result IsEndRefusal }
    ensures quiet { IfErr result (λ e. (e ≡ WholeFault.Writer)
        ⊎ (W.contents out.new ≡ W.contents out.old)) }
{
    match print_answer(alloc, &gather, out) {
        Ok(ended) => Ok((ended, gather)),
        Err(e) => {
            drop(gather);
            Err(e)
        }
    }
}

/// A plan and its tables.
#[derive(Drop)]
struct Run {
    plan: Plan,
    tables: Tables,
}

/// Answers for each fragment, gathers the answers and prints what they say together.
fn answer_run<W: Write>(
    alloc: Global,
    run: Run,
    fact: &Table,
    sources: Sources<'_>,
    out: &mut W,
) -> Result<(Ended, Gather), WholeFault>
    requires plan { IsSoundPlan run.plan }
    requires dims { Opens (job_of run.plan sources.cut.now) run.tables.dims.items }
    requires table { IsWellFormedTable fact.now }
    requires fact { IsFactOf run.plan fact.now }
    requires vectors { is_vector_length sources.vector_len ≡ true }
    requires fragments { (rows : List Row)
        × AreFragments fact.now rows sources.cut.now run.tables.fragments.items }
    ensures answered { IfOk result (λ r. (rows : List Row) (dims : List (List Row))
        → AreFragments fact.now rows sources.entry.cut.now run.tables.fragments.items
        → AreFilesOfTables dims run.tables.dims.items
        → IsAnsweredOver run.plan rows dims sources.entry.cut.now (W.contents out.old)
        (W.contents out.new) r.0 r.1) }
    ensures refused { IfErr result IsEndRefusal }
    ensures quiet { IfErr result (λ e. (e ≡ WholeFault.Writer)
        ⊎ (W.contents out.new ≡ W.contents out.old)) }
{
    let Run { plan, tables } = run;
    let gathered = answer_tables(alloc, plan, fact, &tables, sources);
    drop(tables);
    print_gathered(alloc, gathered?, out)
}

/// Answers a plan's query over tables that the catalogue declares, and prints the answer. What a
/// failed writer let out is open.
///
/// # Errors
///
/// Out of memory, or the first of these: a missing file, the tables' fault, the vectors' length,
/// and last the writer's.
pub fn answer_plan<W: Write>(
    alloc: Global,
    catalog: &Catalog,
    plan: Plan,
    sources: Sources<'_>,
    out: &mut W,
) -> Result<(Ended, Gather), WholeFault>
    requires catalog { IsWellFormed catalog.now }
    requires plan { IsSoundPlan plan }
    requires declared { IsDeclared catalog.now plan }
    // Whichever bytes declare the catalogue and whichever text has the plan: what is printed is the
    // query's meaning.
    ensures answered { IfOk result (λ r. (bytes query : List ℕ) → catalog_of bytes ≡ Ok catalog.now
        → IsPlanned catalog.now query (Ok plan)
        → IsAnswered (input_of bytes query sources.entry) (W.contents out.old) (W.contents out.new)
        r.0 r.1) }
    ensures refused { IfErr result (λ e. (bytes query : List ℕ) → catalog_of bytes ≡ Ok catalog.now
        → IsPlanned catalog.now query (Ok plan)
        → IsRefused (input_of bytes query sources.entry) e) }
    // Nothing is printed before all is well, and then only the writer can fail.
    ensures quiet { IfErr result (λ e. (e ≡ WholeFault.Writer)
        ⊎ (W.contents out.new ≡ W.contents out.old)) }
{
    match checked_tables(alloc, catalog, sources, &plan) {
        Ok(tables) => answer_run(alloc, Run { plan, tables }, &catalog.fact, sources, out),
        Err(e) => {
            drop(plan);
            Err(e)
        }
    }
}

/// Answers a query over tables that the catalogue declares.
fn answer_query<W: Write>(
    alloc: Global,
    catalog: &Catalog,
    query: &[u8],
    sources: Sources<'_>,
    out: &mut W,
) -> Result<(Ended, Gather), WholeFault>
    requires { IsWellFormed catalog.now }
    ensures answered { IfOk result (λ r. (bytes : List ℕ) → catalog_of bytes ≡ Ok catalog.now
        → IsAnswered (input_of bytes query.now sources.entry) (W.contents out.old)
        (W.contents out.new) r.0 r.1) }
    ensures refused { IfErr result (λ e. (bytes : List ℕ) → catalog_of bytes ≡ Ok catalog.now
        → IsRefused (input_of bytes query.now sources.entry) e) }
    ensures quiet { IfErr result (λ e. (e ≡ WholeFault.Writer)
        ⊎ (W.contents out.new ≡ W.contents out.old)) }
{
    let plan = plan_of(alloc, catalog, query)?;
    answer_plan(alloc, catalog, plan, sources, out)
}

/// Answers a query over CSV files, fragment by fragment, and prints the answer: the catalogue's
/// bytes, the files' by the names of their tables, the query's text, how many of the fact's rows
/// each fragment has, and how many values a vector has. The load has the number 0. What a failed
/// writer let out is open.
///
/// # Errors
///
/// Out of memory, or the first of these: the catalogue's fault, the query's, its plan's, a missing
/// file, the tables' fault, the vectors' length, and last the writer's.
pub fn whole<W: Write>(
    alloc: Global,
    catalog: &[u8],
    csvs: &[(&str, &[u8])],
    query: &[u8],
    cut: &Cut,
    vector_len: usize,
    out: &mut W,
) -> Result<(Ended, Gather), WholeFault>
    // What is printed is the query's meaning over the tables that the files are, and the state is
    // that of just every fragment's own answer.
    ensures answered { IfOk result
        (λ r. IsAnswered (whole_input catalog.now csvs.now query.now cut.now vector_len)
        (W.contents out.old) (W.contents out.new) r.0 r.1) }
    // A refusal stands in the input.
    ensures refused { IfErr result
        (IsRefused (whole_input catalog.now csvs.now query.now cut.now vector_len)) }
    // Nothing is printed before all is well, and then only the writer can fail.
    ensures quiet { IfErr result (λ e. (e ≡ WholeFault.Writer)
        ⊎ (W.contents out.new ≡ W.contents out.old)) }
{
    let sources = Sources {
        csvs,
        cut,
        vector_len,
    };
    let declared = read_catalog(alloc, catalog)?;
    let answered = answer_query(alloc, &declared, query, sources, out);
    drop(declared);
    answered
}
