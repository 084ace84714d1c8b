//! Jobs that the words of a case name: the number of a load, a cut, what is asked of each fragment,
//! and the text of the query.
ghost use Rattle.std.specs.Prelude.{pos, ◌≡◌, ◌≤◌, [], ◌∷◌, None, false, length, map, IfOk, IfSome};
ghost use Rattle.meaning.specs.declared.expr.Expr.TheVariants as the_expr;
ghost use Rattle.meaning.specs.declared.plan.Aggregate.{Aggregate as AnAggregate};
ghost use Rattle.meaning.specs.declared.value.ColType.TheVariants as of_type;
ghost use Rattle.meaning.specs.declared.value.Value.TheVariants as the_value;
ghost use Rattle.meaning.specs.Limits.{max_query_bytes};
ghost use Rattle.meaning.specs.SoundPlan.{IsSoundPlan};

use crate::shapes::shaped_plan;
use case_files::{StoredFile, find};
use catalog_reader::read_catalog;
use meaning::{
    Aggregate, AggregateKind, CatalogFault, ColType, Cut, Expr, Item, MAX_QUERY_BYTES, Plan,
    Sequence, TableUse, Text, Value,
};
use partial_codec::Job;
use planner::{QueryFault, plan_query};
use std::alloc::{AllocError, Global};
use std::mem::drop;

/// What is shown where words name no job.
pub const NO_JOB: &str = "(no job: a load, a cut, count or sum or a shape, and a text)\n";

fn lengths_of(alloc: Global, word: &str) -> Result<Option<Vec<u32>>, AllocError> {
    let mut lengths = Vec::new(alloc);
    for digits in word.split(',') {
        let Ok(length) = digits.parse::<u32>() else {
            return Ok(None);
        };
        lengths.push(length)?;
    }
    Ok(Some(lengths))
}

/// The cut of fragments with so many rows, as in `2,3`.
pub fn cut_of(alloc: Global, word: &str) -> Result<Option<Cut>, AllocError> {
    match lengths_of(alloc, word)? {
        Some(lengths) => Ok(Cut::new(lengths).ok()),
        None => Ok(None),
    }
}

// Of the literal 1, so that the plan names no column.
fn aggregate_of(kind: AggregateKind) -> Aggregate
    ensures kind { result.kind ≡ kind }
    ensures argument { result.argument ≡ the_expr.Literal (the_value.Int (pos 1)) }
    ensures integer { result.col_type ≡ of_type.Int }
{
    Aggregate {
        kind,
        argument: Expr::Literal(Value::Int(1)),
        col_type: ColType::Int,
    }
}

fn only_parts(
    alloc: Global,
    kind: AggregateKind,
) -> Result<(Sequence<Aggregate>, Sequence<Item>), AllocError>
    ensures aggregate { IfOk result (λ parts. (a : AnAggregate) × (parts.0 ≡ a ∷ [])
        × (a.argument ≡ the_expr.Literal (the_value.Int (pos 1))) × (a.col_type ≡ of_type.Int)) }
    ensures item { IfOk result (λ parts. map (λ i. i.expr) parts.1 ≡ the_expr.Aggregate 0 ∷ []) }
{
    let header = Text::new(alloc, "c1")?;
    let mut items = Sequence::new(alloc);
    items.push(Item {
        header,
        expr: Expr::Aggregate(0),
    })?;
    let mut aggs = Sequence::new(alloc);
    aggs.push(aggregate_of(kind))?;
    Ok((aggs, items))
}

fn with_parts(
    alloc: Global,
    text: Text,
    name: Text,
    aggs: Sequence<Aggregate>,
    items: Sequence<Item>,
) -> Plan
    ensures text { result.text ≡ text }
    ensures joins { result.joins ≡ [] }
    ensures conjuncts { result.conjuncts ≡ [] }
    ensures keys { result.keys ≡ [] }
    ensures aggregates { result.aggs ≡ aggs }
    ensures items { result.items ≡ items }
    ensures having { result.having ≡ None }
    ensures plain { result.plain ≡ false }
{
    Plan {
        text,
        fact: TableUse {
            name,
            columns: Sequence::new(alloc),
        },
        joins: Sequence::new(alloc),
        conjuncts: Sequence::new(alloc),
        keys: Sequence::new(alloc),
        aggs,
        having: None,
        items,
        order: Sequence::new(alloc),
        limit: None,
        plain: false,
        distinct: false,
    }
}

fn plan_of(alloc: Global, text: &str, kind: AggregateKind) -> Result<Plan, AllocError>
    requires { length text.now ≤ max_query_bytes }
    ensures { IfOk result IsSoundPlan }
{
    let text = Text::new(alloc, text)?;
    let name = Text::new(alloc, "t")?;
    match only_parts(alloc, kind) {
        Ok((aggs, items)) => Ok(with_parts(alloc, text, name, aggs, items)),
        Err(e) => Err(e),
    }
}

fn job_over(
    alloc: Global,
    load: u64,
    cut: Cut,
    kind: AggregateKind,
    text: &str,
) -> Result<Job, AllocError>
    requires { length text.now ≤ max_query_bytes }
    ensures { IfOk result (λ job. IsSoundPlan job.plan) }
{
    match plan_of(alloc, text, kind) {
        Ok(plan) => Ok(Job::new(load, plan, cut)),
        Err(e) => {
            drop(cut);
            Err(e)
        }
    }
}

fn kind_of(word: &str) -> Option<AggregateKind> {
    match word {
        "count" => Some(AggregateKind::CountRows),
        "sum" => Some(AggregateKind::Sum),
        _ => None,
    }
}

/// The job that the words name, where the third may be a shape, as in `7 2,3 int/rows,min:text
/// "SELECT ..."`.
pub fn shaped_job_of(alloc: Global, words: &[&str]) -> Result<Option<Job>, AllocError> {
    let [load, cut, shape, text] = words else {
        return Ok(None);
    };
    if !shape.contains('/') {
        return job_of(alloc, words);
    }
    let Ok(load) = load.parse::<u64>() else {
        return Ok(None);
    };
    let Some(cut) = cut_of(alloc, cut)? else {
        return Ok(None);
    };
    match shaped_plan(alloc, shape, text) {
        Ok(Some(plan)) => Ok(Some(Job::new(load, plan, cut))),
        Ok(None) => {
            drop(cut);
            Ok(None)
        }
        Err(e) => {
            drop(cut);
            Err(e)
        }
    }
}

/// The job that the words name, as in `7 2,3 count "SELECT COUNT(*) FROM sales"`.
pub fn job_of(alloc: Global, words: &[&str]) -> Result<Option<Job>, AllocError>
    ensures { IfOk result (λ found. IfSome found (λ job. IsSoundPlan job.plan)) }
{
    let [load, cut, kind, text] = words else {
        return Ok(None);
    };
    let (Ok(load), Some(kind)) = (load.parse::<u64>(), kind_of(kind)) else {
        return Ok(None);
    };
    if text.len() > MAX_QUERY_BYTES {
        return Ok(None);
    }
    match cut_of(alloc, cut)? {
        Some(cut) => Ok(Some(job_over(alloc, load, cut, kind, text)?)),
        None => Ok(None),
    }
}

fn plan_or_none(plan: Result<Plan, QueryFault>) -> Result<Option<Plan>, AllocError>
    requires { IfOk plan IsSoundPlan }
    ensures { IfOk result (λ found. IfSome found IsSoundPlan) }
{
    match plan {
        Ok(plan) => Ok(Some(plan)),
        Err(QueryFault::Memory) => Err(AllocError),
        Err(_) => Ok(None),
    }
}

// The plan of a query over the catalogue that the bytes declare.
fn planned(alloc: Global, catalog: &[u8], query: &str) -> Result<Option<Plan>, AllocError>
    ensures { IfOk result (λ found. IfSome found IsSoundPlan) }
{
    match read_catalog(alloc, catalog) {
        Ok(catalog) => {
            let plan = plan_query(alloc, &catalog, query.as_bytes());
            drop(catalog);
            plan_or_none(plan)
        }
        Err(CatalogFault::Memory) => Err(AllocError),
        Err(_) => Ok(None),
    }
}

fn planned_job(alloc: Global, load: u64, cut: &str, plan: Plan) -> Result<Option<Job>, AllocError>
    requires { IsSoundPlan plan }
    ensures { IfOk result (λ found. IfSome found (λ job. IsSoundPlan job.plan)) }
{
    match cut_of(alloc, cut) {
        Ok(Some(cut)) => Ok(Some(Job::new(load, plan, cut))),
        Ok(None) => {
            drop(plan);
            Ok(None)
        }
        Err(e) => {
            drop(plan);
            Err(e)
        }
    }
}

/// The job that the words name, where the third may be the path of a file: of the catalogue over
/// which the text is a query, as in `7 2,3 sales.txt "SELECT ..."`.
pub fn planned_job_of(
    alloc: Global,
    words: &[&str],
    files: &[StoredFile],
) -> Result<Option<Job>, AllocError>
    ensures { IfOk result (λ found. IfSome found (λ job. IsSoundPlan job.plan)) }
{
    let [load, cut, path, query] = words else {
        return Ok(None);
    };
    let Some(catalog) = find(files, path) else {
        return job_of(alloc, words);
    };
    let Ok(load) = load.parse::<u64>() else {
        return Ok(None);
    };
    match planned(alloc, catalog, query)? {
        Some(plan) => planned_job(alloc, load, cut, plan),
        None => Ok(None),
    }
}
