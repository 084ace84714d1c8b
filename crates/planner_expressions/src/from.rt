//! The tables of FROM.
ghost use Rattle.std.specs.Prelude.{◌≡◌, not, ◌||◌, ◌&&◌, ◌++◌, ◌∷◌, [], ℕ, List, OnOk, IfOk, bytes_eq, find, option_copied};
ghost use Rattle.std.specs.List.{list_any};
ghost use Rattle.planner_expressions.specs.From.{called, join_type_of, is_left as left_type, is_fact as fact_named, is_before_lefts, no_left_before, if_lefts_behind, is_at as at_key, scope_column_of, scope_columns, once_more, with_fact, with_dim, if_new, with_table, enter as entered, enter_all as all_entered, no_tables as nothing, whole, scope_of as scope_from, source_from, if_there};
ghost use Rattle.meaning.specs.Results.{and_then};
ghost use Rattle.planner_expressions.specs.Results.{map_ok, Reports};

use crate::fault::PlanFault;
use crate::scope::{Dim, Scope, ScopeColumn, Times};
use meaning::{Catalog, Column, Dimension, JoinType, MAX_JOINS, Sequence, Table, Text};
use sql_syntax::{JoinKind, tree};
use std::alloc::{AllocError, Global};

/// The name that a table goes by.
pub fn name_of(table: &tree::Table) -> &Text
    ensures { result.now ≡ called table.now }
{
    match &table.alias {
        Some(alias) => alias,
        None => &table.name,
    }
}

fn is_at(at: usize, key: Option<usize>) -> bool
    ensures { result ≡ at_key at key }
{
    match key {
        Some(key) => at == key,
        None => false,
    }
}

fn scope_column(
    owner: &Text,
    join: Option<usize>,
    key: Option<usize>,
    at: usize,
    column: &Column,
) -> Result<ScopeColumn, AllocError>
    ensures { IfOk result (λ p. p ≡ scope_column_of owner.now join key (at, column.now)) }
{
    let owner = owner.clone()?;
    let name = column.name.clone()?;
    Ok(ScopeColumn {
        owner,
        join,
        column: at,
        is_key: is_at(at, key),
        name,
        col_type: column.col_type,
    })
}

/// Puts the columns of a table behind the others.
fn add_columns(
    owner: &Text,
    join: Option<usize>,
    key: Option<usize>,
    columns: &[Column],
    out: &mut Sequence<ScopeColumn>,
) -> Result<(), AllocError>
    ensures { OnOk result (out.new ≡ out.old ++ scope_columns owner.now join key columns.now) }
{
    for (at, column) in columns.iter().enumerate() {
        out.push(scope_column(owner, join, key, at, column)?)?;
    }
    Ok(())
}

fn one_more(times: Times) -> Times
    ensures { result ≡ once_more times }
{
    match times {
        Times::Never => Times::Once,
        Times::Once => Times::Often,
        Times::Often => Times::Often,
    }
}

fn add_fact(scope: &mut Scope, name: &Text, table: &Table) -> Result<(), AllocError>
    ensures { OnOk result (scope.new ≡ with_fact scope.old name.now table.now) }
{
    scope.names.push(name.clone()?)?;
    scope.fact = one_more(scope.fact);
    add_columns(
        name,
        None,
        None,
        table.columns.as_slice(),
        &mut scope.columns,
    )
}

fn dim_of(called: &Text, join_type: JoinType, dimension: &Dimension) -> Result<Dim, AllocError>
    ensures { IfOk result (λ d. d ≡ record {
      called = called.now;
      name = dimension.now.table.name;
      key = dimension.now.key;
      join_type = join_type;
    }) }
{
    let called = called.clone()?;
    let name = dimension.table.name.clone()?;
    Ok(Dim {
        called,
        name,
        key: dimension.key,
        join_type,
    })
}

fn add_dim(
    scope: &mut Scope,
    name: &Text,
    join_type: JoinType,
    dimension: &Dimension,
) -> Result<(), AllocError>
    ensures { OnOk result (scope.new ≡ with_dim scope.old name.now join_type dimension.now) }
{
    scope.names.push(name.clone()?)?;
    let join = scope.dims.len();
    scope.dims.push(dim_of(name, join_type, dimension)?)?;
    add_columns(
        name,
        Some(join),
        Some(dimension.key),
        dimension.table.columns.as_slice(),
        &mut scope.columns,
    )
}

fn find_dim<'a>(catalog: &'a Catalog, name: &Text) -> Option<&'a Dimension>
    ensures { option_copied result ≡ find (λ d. bytes_eq d.table.name name.now) catalog.now.dims }
{
    let dims = catalog.dims.as_slice();
    dims.iter().find(|d| d.table.name.as_str() == name.as_str())
}

fn is_taken(scope: &Scope, name: &Text) -> bool
    ensures { result ≡ list_any (bytes_eq name.now) scope.now.names }
{
    let names = scope.names.as_slice();
    names.iter().any(|n| name.as_str() == n.as_str())
}

/// Puts the columns of a table behind the others, if the catalogue has it.
fn add_table(
    scope: &mut Scope,
    catalog: &Catalog,
    join_type: JoinType,
    table: &tree::Table,
) -> Result<bool, AllocError>
    ensures { IfOk result (λ there. if_there there scope.new
        ≡ with_table catalog.now scope.old join_type table.now) }
{
    if catalog.fact.name.as_str() == table.name.as_str() {
        add_fact(scope, name_of(table), &catalog.fact)?;
        return Ok(true);
    }
    match find_dim(catalog, &table.name) {
        Some(dimension) => {
            add_dim(scope, name_of(table), join_type, dimension)?;
            Ok(true)
        }
        None => Ok(false),
    }
}

fn enter(
    scope: &mut Scope,
    catalog: &Catalog,
    join_type: JoinType,
    table: &tree::Table,
) -> Result<(), PlanFault>
    ensures { Reports (map_ok (λ _. scope.new) result)
        (entered catalog.now scope.old join_type table.now) }
{
    let taken = is_taken(scope, name_of(table));
    match add_table(scope, catalog, join_type, table) {
        Ok(there) => {
            if !there {
                return Err(PlanFault::TableUnknown);
            }
            if taken {
                return Err(PlanFault::Ambiguous);
            }
            Ok(())
        }
        Err(_) => Err(PlanFault::Memory),
    }
}

/// How a table is joined: by a comma as by JOIN.
fn join_type(kind: &JoinKind) -> JoinType
    ensures { result ≡ join_type_of kind.now }
{
    match kind {
        JoinKind::Comma => JoinType::Inner,
        JoinKind::Inner(_) => JoinType::Inner,
        JoinKind::Left(_) => JoinType::Left,
    }
}

fn enter_all(scope: &mut Scope, catalog: &Catalog, others: &[tree::Joined]) -> Result<(), PlanFault>
    ensures { Reports (map_ok (λ _. scope.new) result) (all_entered catalog.now scope.old others.now) }
{
    for joined in others {
        match enter(scope, catalog, join_type(&joined.kind), &joined.table) {
            Ok(()) => {}
            Err(e) => return Err(e),
        }
    }
    Ok(())
}

fn no_tables(alloc: Global) -> Scope
    ensures { result ≡ nothing }
{
    Scope {
        names: Sequence::new(alloc),
        fact: Times::Never,
        dims: Sequence::new(alloc),
        columns: Sequence::new(alloc),
    }
}

/// FROM as a whole.
fn check_whole(scope: &Scope) -> Result<(), PlanFault>
    ensures { map_ok (λ _. scope.now) result ≡ whole scope.now scope.now.fact }
{
    match scope.fact {
        Times::Never => Err(PlanFault::FactNotOnce),
        Times::Often => Err(PlanFault::FactNotOnce),
        Times::Once => {
            if scope.dims.len() > MAX_JOINS {
                Err(PlanFault::OverLimit)
            } else {
                Ok(())
            }
        }
    }
}

fn is_fact(catalog: &Catalog, table: &tree::Table) -> bool
    ensures { result ≡ fact_named catalog.now.fact.name table.now }
{
    catalog.fact.name.as_str() == table.name.as_str()
}

pub fn is_left(join_type: JoinType) -> bool
    ensures { result ≡ left_type join_type }
{
    match join_type {
        JoinType::Inner => false,
        JoinType::Left => true,
    }
}

/// Of the joins up to the fact's none is LEFT.
fn no_left_before_fact(catalog: &Catalog, others: &[tree::Joined]) -> bool
    ensures { result ≡ no_left_before catalog.now.fact.name others.now }
{
    for joined in others {
        if is_left(join_type(&joined.kind)) {
            return false;
        }
        if is_fact(catalog, &joined.table) {
            return true;
        }
    }
    true
}

/// Each LEFT JOIN has the fact before it.
fn is_fact_before_lefts(catalog: &Catalog, source: &tree::Source) -> bool
    ensures { result ≡ is_before_lefts catalog.now.fact.name (source.now.first ∷ [])
        source.now.others }
{
    is_fact(catalog, &source.first) || no_left_before_fact(catalog, source.others.as_slice())
}

/// FROM as a whole: the fact, the number of joins, and then where the tables of LEFT JOIN stand.
fn check_source(scope: &Scope, catalog: &Catalog, source: &tree::Source) -> Result<(), PlanFault>
    ensures { map_ok (λ _. scope.now) result ≡ and_then (whole scope.now scope.now.fact)
        (if_lefts_behind catalog.now.fact.name source.now) }
{
    match check_whole(scope) {
        Ok(()) => {
            if is_fact_before_lefts(catalog, source) {
                Ok(())
            } else {
                Err(PlanFault::LeftNotBehindFact)
            }
        }
        Err(e) => Err(e),
    }
}

fn enter_source(
    scope: &mut Scope,
    catalog: &Catalog,
    source: &tree::Source,
) -> Result<(), PlanFault>
    ensures { Reports (map_ok (λ _. scope.new) result) (source_from catalog.now scope.old source.now) }
{
    match enter(scope, catalog, JoinType::Inner, &source.first) {
        Ok(()) => {}
        Err(e) => return Err(e),
    }
    match enter_all(scope, catalog, source.others.as_slice()) {
        Ok(()) => check_source(scope, catalog, source),
        Err(e) => Err(e),
    }
}

/// The tables of FROM, or the first fault.
pub fn scope_of(alloc: Global, catalog: &Catalog, source: &tree::Source) -> Result<Scope, PlanFault>
    ensures { Reports result (scope_from catalog.now source.now) }
{
    let mut scope = no_tables(alloc);
    match enter_source(&mut scope, catalog, source) {
        Ok(()) => Ok(scope),
        Err(e) => {
            drop(scope);
            Err(e)
        }
    }
}
