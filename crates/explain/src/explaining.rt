//! The command `explain`.
ghost use Rattle.std.specs.Prelude.{◌≡◌, ◌≢◌, ◌⊎◌, ℕ, IfErr, IfOk, List, OnOk, Ok, string_bytes};
ghost use Rattle.meaning.specs.declared.plan.Plan.{Plan as APlan};
ghost use Rattle.folders.specs.Refused.{IsAskedFor};
ghost use Rattle.folders.specs.declared.refusal.Refusal.{Refusal as ARefusal};
ghost use Rattle.folders.specs.declared.refusal.Refusal.TheVariants as refusal_is;
ghost use Rattle.planner.specs.QueryText.{IsPlanned, IsTextRefused};
ghost use Rattle.planner.specs.declared.query_fault.QueryFault.TheVariants as query_fault;
ghost use Rattle.explain.specs.Explaining.{IsExplained, IsOutline, IsUnexplained, IsUnexplainedOver, PrintsOver, PrintsPlan, of_query};

use crate::outline::outline;
use crate::pointing::{point, put_meaning};
use cli::print_refusal;
use folders::{Folder, Refusal, read_tables};
use meaning::{Catalog, Plan};
use planner::{QueryFault, plan_query};
use sql_reader::read;
use std::alloc::Global;
use std::io;
use std::io::Write;
use std::mem::drop;

/// The text of a query's plan. The query is read for the names that its tables go by.
fn text_of_plan(alloc: Global, query: &str, plan: &Plan) -> Result<String, QueryFault>
    ensures text { IfOk result (λ text. IsOutline plan.now (string_bytes text)) }
    ensures refused { IfErr result (λ e. e ≡ query_fault.Memory) }
{
    let Ok(tree) = read(alloc, query.as_bytes()) else {
        return Err(QueryFault::Memory);
    };
    let text = outline(alloc, &tree, plan);
    drop(tree);
    match text {
        Ok(text) => Ok(text),
        Err(_) => Err(QueryFault::Memory),
    }
}

/// The text of the plan that a query has over declared tables.
fn text_over(alloc: Global, catalog: &Catalog, query: &str) -> Result<String, QueryFault>
    ensures planned { IfOk result
        (λ text. (plan : APlan) × IsPlanned catalog.now query.now (Ok plan)
        × IsOutline plan (string_bytes text)) }
    ensures refused { IfErr result (IsTextRefused catalog.now query.now) }
{
    match plan_query(alloc, catalog, query.as_bytes()) {
        Ok(plan) => {
            let text = text_of_plan(alloc, query, &plan);
            drop(plan);
            text
        }
        Err(fault) => Err(fault),
    }
}

/// The refusal of a command whose query has no plan.
fn refusal_of(fault: QueryFault) -> Refusal
    ensures value { result ≡ of_query fault }
    ensures unread { (path : List ℕ) → result ≢ refusal_is.CannotRead path }
{
    match fault {
        QueryFault::Memory => Refusal::Memory,
        QueryFault::Sql(fault) => Refusal::Sql(fault),
        QueryFault::Plan(fault) => Refusal::Plan(fault),
    }
}

/// Prints the plan of a query over declared tables.
fn print_plan<O: Write>(
    alloc: Global,
    catalog: &Catalog,
    query: &str,
    out: &mut O,
) -> Result<(), Refusal>
    ensures planned { OnOk result ((plan : APlan) × IsPlanned catalog.now query.now (Ok plan)) }
    ensures printed { OnOk result
        (PrintsOver catalog.now query.now (O.contents out.old) (O.contents out.new)) }
    ensures refused { IfErr result (IsUnexplainedOver catalog.now query.now) }
    ensures unread { IfErr result (λ e. (path : List ℕ) → e ≢ refusal_is.CannotRead path) }
    ensures quiet { IfErr result
        (λ e. e ≢ refusal_is.CannotPrint → O.contents out.new ≡ O.contents out.old) }
{
    let text = match text_over(alloc, catalog, query) {
        Ok(text) => text,
        Err(fault) => return Err(refusal_of(fault)),
    };
    match out.write_all(text.as_bytes()) {
        Ok(()) => Ok(()),
        Err(_) => Err(Refusal::CannotPrint),
    }
}

/// Prints the plan of a query over the tables that the folder's catalogue declares: its operators as
/// a tree, each condition with the place where it is tested, and the query's canonical text. No
/// file is read but the catalogue.
///
/// # Errors
///
/// Out of memory, the first thing that is wrong in the catalogue, in the query's text or its plan, or
/// a standard output that fails; nothing was printed then but by the last.
pub fn explanation<F: Folder, O: Write>(
    alloc: Global,
    folder: &F,
    directory: &str,
    query: &str,
    out: &mut O,
) -> Result<(), Refusal>
    ensures explained { OnOk result (IsExplained (F.holds folder.now) directory.now query.now) }
    ensures printed { OnOk result
        (PrintsPlan (F.holds folder.now) directory.now query.now (O.contents out.old)
        (O.contents out.new)) }
    ensures refused { IfErr result
        (IsUnexplained (F.holds folder.now) directory.now query.now) }
    // A file that can't be read was asked for.
    ensures unread { IfErr result (IsAskedFor (F.asks folder.now)) }
    ensures quiet { IfErr result
        (λ e. e ≢ refusal_is.CannotPrint → O.contents out.new ≡ O.contents out.old) }
{
    let catalog = read_tables(alloc, folder, directory)?;
    let printed = print_plan(alloc, &catalog, query, out);
    drop(catalog);
    printed
}

/// Writes the line of a refusal, the query with the place at which it is refused, and what it means.
fn report<F: Folder, E: Write>(
    alloc: Global,
    folder: &F,
    directory: &str,
    query: &str,
    refusal: &Refusal,
    err: &mut E,
) -> io::Result<()> {
    print_refusal(refusal, err)?;
    let is_said = point(alloc, folder, directory, query, refusal, err)?;
    put_meaning(refusal, is_said, err)
}

/// Prints the plan of a query over the tables that the folder's catalogue declares, and answers the
/// program's exit status: 0, or 1 where the query or its catalogue is refused. The refusal's line, where
/// it names a place the query with a caret under it, and what it means go to `err`.
pub fn explain<F: Folder, O: Write, E: Write>(
    alloc: Global,
    folder: &F,
    directory: &str,
    query: &str,
    out: &mut O,
    err: &mut E,
) -> u8
    ensures status { (result ≡ 0) ⊎ (result ≡ 1) }
    ensures explained { result ≡ 0 → IsExplained (F.holds folder.now) directory.now query.now }
    ensures printed { result ≡ 0
        → PrintsPlan (F.holds folder.now) directory.now query.now (O.contents out.old)
        (O.contents out.new) }
    ensures silent { result ≡ 0 → E.contents err.new ≡ E.contents err.old }
    ensures refused { result ≡ 1 → (e : ARefusal)
        × IsUnexplained (F.holds folder.now) directory.now query.now e
        × IsAskedFor (F.asks folder.now) e
        × (e ≢ refusal_is.CannotPrint → O.contents out.new ≡ O.contents out.old) }
{
    match explanation(alloc, folder, directory, query, out) {
        Ok(()) => 0,
        Err(refusal) => {
            // A closed standard error leaves nobody to print.
            let _ = report(alloc, folder, directory, query, &refusal, err);
            1
        }
    }
}
