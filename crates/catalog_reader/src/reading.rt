//! A catalogue from its text.
ghost use Rattle.std.specs.Prelude.{◌≡◌, ◌≢◌, ◌++◌, [], ◌∷◌, OnOk, OnErr, IfOk, map, List, Some, None, ◌↔◌};
ghost use Rattle.std.specs.List.{list_any};
ghost use Rattle.std.specs.Str.Lines.{lines};
ghost use Rattle.meaning.specs.Catalog.{IsWellFormed};
ghost use Rattle.catalog_reader.specs.declared.catalog_line.Line.{Line};
ghost use Rattle.catalog_reader.specs.CatalogTables.{first_line_fault, AreFaultless, IsFirstFault};
ghost use Rattle.catalog_reader.specs.CatalogText.{key_column, lacks_key, has_long_name, exceeds_limits, facts, dims, catalog_from, catalog_of_text, catalog_of};

use crate::catalog_tables::{Declared, declared_tables};
use meaning::{
    Catalog, CatalogFault, Column, Dimension, MAX_COLUMNS, MAX_DIMENSIONS, MAX_NAME_BYTES,
    Sequence, Table, Text,
};
use std::alloc::{AllocError, Global};

fn key_column(columns: &[Column], key: &Text) -> Option<usize>
    ensures { result ≡ key_column columns.now key.now }
{
    columns
        .iter()
        .position(|column| column.name == *key && !column.nullable)
}

fn lacks_key(declared: &Declared) -> bool
    ensures { result ≡ lacks_key declared.now }
{
    match &declared.key {
        Some(key) => key_column(declared.table.columns.as_slice(), key).is_none(),
        None => false,
    }
}

fn has_long_name(columns: &[Column]) -> bool
    ensures { result ≡ has_long_name columns.now }
{
    columns
        .iter()
        .any(|column| column.name.as_bytes().len() > MAX_NAME_BYTES)
}

fn exceeds_limits(table: &Table) -> bool
    ensures { result ≡ exceeds_limits table.now }
{
    let count = table.columns.len();
    count == 0
        || count > MAX_COLUMNS
        || table.name.as_bytes().len() > MAX_NAME_BYTES
        || has_long_name(table.columns.as_slice())
}

fn any_lacks_key(tables: &[Declared]) -> bool
    ensures { result ≡ list_any lacks_key tables.now }
{
    tables.iter().any(|declared| lacks_key(declared))
}

fn any_exceeds_limits(tables: &[Declared]) -> bool
    ensures { result ≡ list_any (λ declared. exceeds_limits declared.table) tables.now }
{
    tables
        .iter()
        .any(|declared| exceeds_limits(&declared.table))
}

fn sort_out(
    declared: Declared,
    found_facts: &mut Vec<Table>,
    found_dims: &mut Vec<Dimension>,
) -> Result<(), CatalogFault>
    ensures err { OnErr result (result ≡ Err CatalogFault.Memory) }
    ensures facts { OnOk result (found_facts.new.items ≡ found_facts.old.items
        ++ facts (declared ∷ [])) }
    ensures dims { OnOk result (found_dims.new.items ≡ found_dims.old.items
        ++ dims (declared ∷ [])) }
{
    let Declared { table, key } = declared;
    let Some(key) = key else {
        return found_facts.push(table).map_err(|_| CatalogFault::Memory);
    };
    let Some(key) = key_column(table.columns.as_slice(), &key) else {
        return Ok(());
    };
    found_dims
        .push(Dimension { table, key })
        .map_err(|_| CatalogFault::Memory)
}

fn sorted_out(
    alloc: Global,
    tables: Vec<Declared>,
) -> Result<(Vec<Table>, Vec<Dimension>), CatalogFault>
    ensures err { OnErr result (result ≡ Err CatalogFault.Memory) }
    ensures facts { IfOk result (λ parts. parts.0.items ≡ facts tables.items) }
    ensures dims { IfOk result (λ parts. parts.1.items ≡ dims tables.items) }
{
    let mut found_facts = Vec::new(alloc);
    let mut found_dims = Vec::new(alloc);
    for declared in tables {
        sort_out(declared, &mut found_facts, &mut found_dims)?;
    }
    Ok((found_facts, found_dims))
}

fn catalog_from(alloc: Global, tables: Vec<Declared>) -> Result<Catalog, CatalogFault>
    ensures { result ≢ Err CatalogFault.Memory → result ≡ catalog_from tables.items }
{
    let lacks_key = any_lacks_key(&tables);
    let exceeds_limits = any_exceeds_limits(&tables);
    let (mut facts, dims) = sorted_out(alloc, tables)?;
    let Some(fact) = facts.pop() else {
        return Err(CatalogFault::NotOneFact);
    };
    if !facts.is_empty() {
        return Err(CatalogFault::NotOneFact);
    }
    if lacks_key {
        return Err(CatalogFault::UnfitKey);
    }
    if exceeds_limits || dims.len() > MAX_DIMENSIONS {
        return Err(CatalogFault::OverLimit);
    }
    let dims = Sequence::from_vec(dims);
    Ok(Catalog { fact, dims })
}

fn lines_of(alloc: Global, text: &str) -> Result<Vec<&str>, AllocError>
    ensures { IfOk result (λ found. map (λ line. line.now) found.items ≡ lines text.now) }
{
    text.lines().collect(alloc)
}

fn catalog_of_text(alloc: Global, text: &str) -> Result<Catalog, CatalogFault>
    ensures { result ≢ Err CatalogFault.Memory → result ≡ catalog_of_text text.now }
{
    let folded = text.to_ascii_lowercase(alloc)?;
    let lines = lines_of(alloc, &folded)?;
    let tables = declared_tables(alloc, &lines)?;
    catalog_from(alloc, tables)
}

/// The catalogue that the text of a file declares.
pub fn read_catalog(alloc: Global, bytes: &[u8]) -> Result<Catalog, CatalogFault>
    ensures value { result ≢ Err CatalogFault.Memory → result ≡ catalog_of bytes.now }
    ensures well_formed { IfOk result IsWellFormed }
{
    match std::str::from_utf8(bytes) {
        Ok(text) => catalog_of_text(alloc, text),
        Err(_) => Err(CatalogFault::NotUtf8),
    }
}

/// The first of the lines that have a fault is reported.
pub fn least_fault_is_returned()
    ensures none { (lines : List Line) → (first_line_fault [] lines ≡ None) ↔ AreFaultless lines }
    ensures some { (lines : List Line) (fault : CatalogFault) →
        (first_line_fault [] lines ≡ Some fault) ↔ IsFirstFault lines fault }
{}
