//! Cases about plans.
use catalog_reader::read_catalog;
use meaning::{Catalog, Plan};
use planner::plan;
use sql_reader::read;
use sql_reader::tree::Query;
use std::alloc::{AllocError, Global};
use std::mem::drop;

fn shape(alloc: Global, plan: &Plan) -> Result<String, AllocError> {
    let (joins, conditions) = (plan.joins.len(), plan.conjuncts.len());
    let (keys, aggregates) = (plan.keys.len(), plan.aggs.len());
    let kind = if plan.plain { "plain" } else { "grouped" };
    format!(in alloc;
        "{joins} joins, {conditions} conditions, {keys} keys, {aggregates} aggregates, {kind}\n"
    )
}

fn plan_line(alloc: Global, catalog: &Catalog, query: &Query) -> Result<String, AllocError> {
    match plan(alloc, catalog, query) {
        Ok(plan) => {
            let shown = shape(alloc, &plan);
            drop(plan);
            shown
        }
        Err(fault) => format!(in alloc; "refused {}\n", fault.number()),
    }
}

fn query_line(alloc: Global, catalog: &Catalog, text: &str) -> Result<String, AllocError> {
    match read(alloc, text.as_bytes()) {
        Ok(query) => {
            let shown = plan_line(alloc, catalog, &query);
            drop(query);
            shown
        }
        Err(_) => String::from_str(alloc, "(no query)\n"),
    }
}

/// How many joins, other conditions, keys and aggregates the plan has of the query that the text
/// is, over the catalogue that the bytes declare; or the number of the plan's refusal.
pub fn show(alloc: Global, catalog: &[u8], text: &str) -> Result<String, AllocError> {
    match read_catalog(alloc, catalog) {
        Ok(catalog) => {
            let shown = query_line(alloc, &catalog, text);
            drop(catalog);
            shown
        }
        Err(_) => String::from_str(alloc, "(no catalogue)\n"),
    }
}
