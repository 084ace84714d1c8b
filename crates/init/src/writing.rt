//! The text of a catalogue.
ghost use Rattle.std.specs.Prelude.{◌≡◌, IfOk, string_bytes};
ghost use Rattle.init.specs.Saying.{column_name, names_text};

use crate::keys::Keyed;
use meaning::{ColType, Column, Table};
use std::alloc::{AllocError, Global};

fn type_word(col_type: ColType) -> &'static str {
    match col_type {
        ColType::Int => "int",
        ColType::Text => "text",
    }
}

fn null_word(column: &Column) -> &'static str {
    if column.nullable { " null" } else { "" }
}

fn add_column(alloc: Global, text: &mut String, column: &Column) -> Result<(), AllocError> {
    let name = column.name.as_str();
    let word = type_word(column.col_type);
    let null = null_word(column);
    let line = format!(in alloc; "col {name} {word}{null}\n")?;
    text.push_str(line.as_str())
}

fn add_columns(alloc: Global, text: &mut String, table: &Table) -> Result<(), AllocError> {
    for column in table.columns.as_slice() {
        add_column(alloc, text, column)?;
    }
    Ok(())
}

fn add_fact(alloc: Global, text: &mut String, fact: &Table) -> Result<(), AllocError> {
    text.push_str("fact ")?;
    text.push_str(fact.name.as_str())?;
    text.push_str("\n")?;
    add_columns(alloc, text, fact)
}

/// The name of a column, or nothing where there is none.
pub fn column_name(table: &Table, index: usize) -> &str
    ensures { result.now ≡ column_name table.now index }
{
    match table.columns.get(index) {
        Some(column) => column.name.as_str(),
        None => "",
    }
}

/// The names of columns, with commas between.
pub fn names_of(alloc: Global, table: &Table, columns: &[usize]) -> Result<String, AllocError>
    ensures { IfOk result (λ names. string_bytes names ≡ names_text table.now columns.now) }
{
    let mut names = String::new(alloc);
    let Some((first, others)) = columns.split_first() else {
        return Ok(names);
    };
    names.push_str(column_name(table, *first))?;
    for index in others {
        names.push_str(", ")?;
        names.push_str(column_name(table, *index))?;
    }
    Ok(names)
}

// Which other columns may be the key.
fn add_others(alloc: Global, text: &mut String, keyed: &Keyed) -> Result<(), AllocError> {
    if keyed.others.is_empty() {
        return Ok(());
    }
    let names = names_of(alloc, &keyed.dimension.table, keyed.others.as_slice())?;
    text.push_str("# The key may also be ")?;
    text.push_str(names.as_str())?;
    text.push_str(".\n")
}

fn add_dimension(alloc: Global, text: &mut String, keyed: &Keyed) -> Result<(), AllocError> {
    let table = &keyed.dimension.table;
    let name = table.name.as_str();
    let key = column_name(table, keyed.dimension.key);
    text.push_str("\n")?;
    add_others(alloc, text, keyed)?;
    let line = format!(in alloc; "dim {name} key {key}\n")?;
    text.push_str(line.as_str())?;
    add_columns(alloc, text, table)
}

/// The text of a catalogue of these tables.
pub fn catalog_text(alloc: Global, fact: &Table, dims: &[Keyed]) -> Result<String, AllocError> {
    let mut text = String::new(alloc);
    add_fact(alloc, &mut text, fact)?;
    for keyed in dims {
        add_dimension(alloc, &mut text, keyed)?;
    }
    Ok(text)
}
