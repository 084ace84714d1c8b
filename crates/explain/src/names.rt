//! What the numbers of a plan are called in its query.
use meaning::{ColumnUse, Join, Plan, TableUse};
use sql_syntax::{Level, Source, Table};
use std::alloc::{AllocError, Global};

/// A table of FROM: the name that it goes by, and what is read of it.
#[derive(Clone, Copy)]
pub struct NamedTable<'a> {
    pub called: &'a str,
    pub table: &'a TableUse,
}

/// An expression's text, and the strongest rule that gives it without brackets.
#[derive(Drop)]
pub struct Phrase {
    pub text: String,
    pub level: Level,
}

/// What the numbers of a plan are called: the tables of FROM, and the texts of the grouping keys and
/// of the aggregates.
#[derive(Drop)]
pub struct Names<'a> {
    pub fact: NamedTable<'a>,
    /// Join by join.
    pub dims: Vec<NamedTable<'a>>,
    pub keys: Vec<Phrase>,
    pub aggregates: Vec<Phrase>,
}

impl<'a> NamedTable<'a> {
    /// The name of one of its columns. A sound plan names none that isn't listed.
    pub fn column(&self, column: usize) -> &'a str {
        for listed in self.table.columns.as_slice() {
            if listed.column == column {
                return listed.name.as_str();
            }
        }
        "?"
    }

    pub fn columns(&self) -> &'a [ColumnUse] {
        self.table.columns.as_slice()
    }
}

impl<'a> Names<'a> {
    /// The names of the tables, without those of keys and aggregates.
    pub fn of_tables(
        alloc: Global,
        plan: &'a Plan,
        source: &'a Source,
    ) -> Result<Names<'a>, AllocError> {
        let dims = name_dims(alloc, plan, source)?;
        let keys = Vec::new(alloc);
        let aggregates = Vec::new(alloc);
        Ok(Names {
            fact: name_fact(plan, source),
            dims,
            keys,
            aggregates,
        })
    }

    /// Writes the name of a table's column, behind the table's where FROM has several.
    pub fn put_column(
        &self,
        out: &mut String,
        table: &NamedTable<'_>,
        column: usize,
    ) -> Result<(), AllocError> {
        if !self.dims.is_empty() {
            out.push_str(table.called)?;
            out.push_str(".")?;
        }
        out.push_str(table.column(column))
    }

    /// Writes the name of a column of the row that a join found.
    pub fn put_joined(
        &self,
        out: &mut String,
        join: usize,
        column: usize,
    ) -> Result<(), AllocError> {
        match self.dims.get(join) {
            Some(table) => self.put_column(out, table, column),
            None => out.push_str("?"),
        }
    }
}

fn called(table: &Table) -> &str {
    match &table.alias {
        Some(alias) => alias.as_str(),
        None => table.name.as_str(),
    }
}

fn is_fact(plan: &Plan, table: &Table) -> bool {
    table.name.as_str() == plan.fact.name.as_str()
}

/// The fact, by the name that it has in FROM.
fn name_fact<'a>(plan: &'a Plan, source: &'a Source) -> NamedTable<'a> {
    let fact = &plan.fact;
    if is_fact(plan, &source.first) {
        return NamedTable {
            called: called(&source.first),
            table: fact,
        };
    }
    for joined in source.others.as_slice() {
        if is_fact(plan, &joined.table) {
            return NamedTable {
                called: called(&joined.table),
                table: fact,
            };
        }
    }
    NamedTable {
        called: fact.name.as_str(),
        table: fact,
    }
}

/// The join of a table of FROM, where so many tables before it are dimensions.
fn join_of<'a>(plan: &'a Plan, table: &Table, before: usize) -> Option<&'a Join> {
    if is_fact(plan, table) {
        return None;
    }
    plan.joins.as_slice().get(before)
}

fn push_dim<'a>(
    plan: &'a Plan,
    table: &'a Table,
    dims: &mut Vec<NamedTable<'a>>,
) -> Result<(), AllocError> {
    if let Some(join) = join_of(plan, table, dims.len()) {
        dims.push(NamedTable {
            called: called(table),
            table: &join.dim,
        })?;
    }
    Ok(())
}

/// The dimensions, by the names that they have in FROM, in whose order the joins stand.
fn name_dims<'a>(
    alloc: Global,
    plan: &'a Plan,
    source: &'a Source,
) -> Result<Vec<NamedTable<'a>>, AllocError> {
    let mut dims = Vec::new(alloc);
    push_dim(plan, &source.first, &mut dims)?;
    for joined in source.others.as_slice() {
        push_dim(plan, &joined.table, &mut dims)?;
    }
    Ok(dims)
}
