//! The tables that the lines of a catalogue declare together.
ghost use Rattle.std.specs.Prelude.{◌≡◌, ◌≢◌, ◌++◌, [], ◌∷◌, OnOk, IfOk, IfErr, Some, None, map};
ghost use Rattle.catalog_reader.specs.CatalogLine.{line_of};
ghost use Rattle.catalog_reader.specs.CatalogTables.{has_column, is_declared, new_table, table_fault, column_fault, statement_fault, fault_at, first_line_fault, with_column, with_statement, with_line, statements, tables_of};

use crate::catalog_line::{Line, Statement, line_of};
use meaning::{CatalogFault, Column, Sequence, Table, Text};
use std::alloc::Global;

/// A declared table; a dimension has the name of its key column.
#[derive(Drop)]
pub struct Declared {
    pub table: Table,
    pub key: Option<Text>,
}

fn has_column(columns: &[Column], name: &Text) -> bool
    ensures { result ≡ has_column columns.now name.now }
{
    columns.iter().any(|column| column.name == *name)
}

fn is_declared(tables: &[Declared], name: &Text) -> bool
    ensures { result ≡ is_declared tables.now name.now }
{
    tables.iter().any(|declared| declared.table.name == *name)
}

fn declare_table(
    alloc: Global,
    tables: &mut Vec<Declared>,
    line: usize,
    name: Text,
    key: Option<Text>,
) -> Result<(), CatalogFault>
    ensures ok { OnOk result (table_fault tables.old.items line name ≡ None) }
    ensures added { OnOk result (tables.new.items ≡ tables.old.items ++ new_table name key ∷ []) }
    ensures err { IfErr result (λ fault. fault ≢ CatalogFault.Memory →
        table_fault tables.old.items line name ≡ Some fault) }
{
    if is_declared(tables, &name) {
        return Err(CatalogFault::NameTwice { line });
    }
    let columns = Sequence::new(alloc);
    let table = Table { name, columns };
    tables
        .push(Declared { table, key })
        .map_err(|_| CatalogFault::Memory)
}

fn declare_column(
    tables: &mut Vec<Declared>,
    line: usize,
    column: Column,
) -> Result<(), CatalogFault>
    ensures ok { OnOk result (column_fault tables.old.items line column ≡ None) }
    ensures added { OnOk result (tables.new.items ≡ with_column tables.old.items column) }
    ensures err { IfErr result (λ fault. fault ≢ CatalogFault.Memory →
        column_fault tables.old.items line column ≡ Some fault) }
{
    let Some(declared) = tables.last_mut() else {
        return Err(CatalogFault::UnknownLine { line });
    };
    if has_column(declared.table.columns.as_slice(), &column.name) {
        return Err(CatalogFault::NameTwice { line });
    }
    declared.table.columns.push(column)?;
    Ok(())
}

fn declare(
    alloc: Global,
    tables: &mut Vec<Declared>,
    line: usize,
    statement: Statement,
) -> Result<(), CatalogFault>
    ensures ok { OnOk result (statement_fault tables.old.items line statement ≡ None) }
    ensures added { OnOk result (tables.new.items ≡ with_statement tables.old.items statement) }
    ensures err { IfErr result (λ fault. fault ≢ CatalogFault.Memory →
        statement_fault tables.old.items line statement ≡ Some fault) }
{
    match statement {
        Statement::Fact(name) => declare_table(alloc, tables, line, name, None),
        Statement::Dim { name, key } => declare_table(alloc, tables, line, name, Some(key)),
        Statement::Col(column) => declare_column(tables, line, column),
    }
}

fn declare_line(
    alloc: Global,
    tables: &mut Vec<Declared>,
    number: usize,
    line: &[u8],
) -> Result<(), CatalogFault>
    ensures ok { OnOk result (fault_at tables.old.items number (line_of line.now) ≡ None) }
    ensures added { OnOk result (tables.new.items ≡ with_line tables.old.items (line_of line.now)) }
    ensures err { IfErr result (λ fault. fault ≢ CatalogFault.Memory →
        fault_at tables.old.items number (line_of line.now) ≡ Some fault) }
{
    match line_of(alloc, line)? {
        Line::Passed => Ok(()),
        Line::Unknown => Err(CatalogFault::UnknownLine { line: number }),
        Line::Declares(statement) => declare(alloc, tables, number, statement),
    }
}

/// The tables that lines in lower case declare, where no line has a fault.
pub fn declared_tables(alloc: Global, lines: &[&str]) -> Result<Vec<Declared>, CatalogFault>
    ensures ok { OnOk result (first_line_fault [] (map line_of (map (λ line. line.now) lines.now))
        ≡ None) }
    ensures tables { IfOk result (λ tables.
        tables.items ≡ tables_of (statements (map line_of (map (λ line. line.now) lines.now)))) }
    ensures err { IfErr result (λ fault. fault ≢ CatalogFault.Memory →
        first_line_fault [] (map line_of (map (λ line. line.now) lines.now)) ≡ Some fault) }
{
    let mut tables = Vec::new(alloc);
    for (index, line) in lines.iter().enumerate() {
        declare_line(alloc, &mut tables, index + 1, line.as_bytes())?;
    }
    Ok(tables)
}
