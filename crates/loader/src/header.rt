//! The header of a CSV file: which field is which column's.
ghost use Rattle.std.specs.Prelude.{◌≡◌, ◌==◌, true, map, count_by, position, unwrap_or, option_map, slice_get, IfOk, IfErr, ◌≢◌};
ghost use Rattle.std.specs.List.{list_all};
ghost use Rattle.csv.specs.Records.{fields_of};
ghost use Rattle.meaning.specs.Records as declared;
ghost use Rattle.meaning.specs.Wanting.{ReportsIfMemory};
ghost use Rattle.loader.specs.Fault.{fault_returned};
ghost use Rattle.loader.specs.declared.fault.LoadFault.TheVariants.{Device};
ghost use Rattle.loader.specs.Steps.{inverse_order, has_each, is_in_order, names_one, order_of};

use crate::fault::LoadFault;
use csv::ByteRecord;
use meaning::{Column, TableFault};
use std::alloc::{AllocError, Global};
use std::mem::drop;

/// How the columns of a file stand to those of the catalogue.
#[derive(Drop)]
pub struct FileOrder {
    /// Which column of the catalogue each field has.
    pub columns: Vec<usize>,
    /// The field of each column of the catalogue.
    pub fields: Vec<usize>,
    /// Whether the fields have the order of the catalogue.
    pub in_order: bool,
    ghost inverse: { fields.items ≡ inverse_order columns.items },
    ghost each: { has_each columns.items ≡ true },
    ghost ordered: { in_order ≡ is_in_order columns.items },
}

fn names(field: &[u8], column: &Column) -> bool
    ensures { result ≡ declared.names field.now column.now }
{
    field.eq_ignore_ascii_case(column.name.as_bytes())
}

/// A field, by its index.
pub fn field_at(row: &ByteRecord, i: usize) -> Option<&[u8]>
    ensures { option_map (λ field. field.now) result ≡ slice_get (fields_of row.now) i }
{
    row.get(i)
}

fn fields_in(alloc: Global, row: &ByteRecord) -> Result<Vec<&[u8]>, AllocError>
    ensures { IfOk result (λ found. map (λ field. field.now) found.items ≡ fields_of row.now) }
{
    let mut fields = Vec::new(alloc);
    for i in 0..row.len() {
        let Some(field) = field_at(row, i) else {
            break;
        };
        fields.push(field)?;
    }
    Ok(fields)
}

fn is_named_once(column: &Column, header: &[&[u8]]) -> bool
    ensures { result ≡ (count_by (λ field. declared.names field column.now)
        (map (λ field. field.now) header.now) == 1) }
{
    header.iter().filter(|field| names(field, column)).count() == 1
}

fn are_named_once(columns: &[Column], header: &[&[u8]]) -> bool
    ensures { result ≡ list_all
        (λ c. count_by (λ field. declared.names field c) (map (λ field. field.now) header.now) == 1)
        columns.now }
{
    columns.iter().all(|column| is_named_once(column, header))
}

#[tactic(auto, unfolding(crate::specs::Steps::names_one))]
fn names_one(columns: &[Column], field: &[u8]) -> bool
    ensures { result ≡ names_one columns.now field.now }
{
    columns.iter().filter(|column| names(field, column)).count() == 1
}

fn single_names(columns: &[Column], header: &[&[u8]]) -> usize
    ensures { result ≡ count_by (names_one columns.now) (map (λ field. field.now) header.now) }
{
    header
        .iter()
        .filter(|field| names_one(columns, field))
        .count()
}

fn name_one_each(columns: &[Column], header: &[&[u8]]) -> bool
    ensures { result ≡ list_all (names_one columns.now) (map (λ field. field.now) header.now) }
{
    single_names(columns, header) == header.len()
}

#[tactic(auto, unfolding(crate::specs::Steps::names_one))]
fn is_header(columns: &[Column], header: &[&[u8]]) -> bool
    ensures { result ≡ declared.is_header columns.now (map (λ field. field.now) header.now) }
{
    header.len() == columns.len()
        && are_named_once(columns, header)
        && name_one_each(columns, header)
}

fn column_named(columns: &[Column], field: &[u8]) -> Option<usize>
    ensures { result ≡ position (declared.names field.now) columns.now }
{
    columns.iter().position(|column| names(field, column))
}

fn file_order(alloc: Global, columns: &[Column], header: &[&[u8]]) -> Result<Vec<usize>, AllocError>
    ensures { IfOk result (λ order. order.items
        ≡ declared.file_order columns.now (map (λ field. field.now) header.now)) }
{
    header
        .iter()
        .map(|field| column_named(columns, field).unwrap_or(0))
        .collect(alloc)
}

fn field_of(order: &[usize], index: usize) -> Option<usize>
    ensures { result ≡ position (λ p. p == index) order.now }
{
    order.iter().position(|p| *p == index)
}

fn inverse_order(alloc: Global, order: &[usize]) -> Result<Vec<usize>, AllocError>
    ensures { IfOk result (λ fields. fields.items ≡ inverse_order order.now) }
{
    (0..order.len())
        .map(|index| field_of(order, index).unwrap_or(0))
        .collect(alloc)
}

fn is_in_order(order: &[usize]) -> bool
    ensures { result ≡ is_in_order order.now }
{
    order.iter().enumerate().all(|(i, index)| *index == i)
}

/// Columns of the catalogue in the order of the fields, with the way back.
fn with_inverse(alloc: Global, columns: Vec<usize>) -> Result<FileOrder, AllocError>
    requires each { has_each columns.items ≡ true }
    ensures { IfOk result (λ order. order.columns.items ≡ columns.items) }
{
    let in_order = is_in_order(&columns);
    match inverse_order(alloc, &columns) {
        Ok(fields) => Ok(FileOrder {
            columns,
            fields,
            in_order,
        }),
        Err(fault) => {
            drop(columns);
            Err(fault)
        }
    }
}

/// The order of the columns that the fields of a header name.
fn order_by(alloc: Global, columns: &[Column], header: &[&[u8]]) -> Result<FileOrder, LoadFault>
    ensures read { ReportsIfMemory fault_returned (λ order. order.columns.items) result
        (order_of columns.now (map (λ field. field.now) header.now)) }
    ensures refused { IfErr result (λ f. f ≢ Device) }
{
    if !is_header(columns, header) {
        return Err(LoadFault::Table(TableFault::Header));
    }
    let order = file_order(alloc, columns, header)?;
    Ok(with_inverse(alloc, order)?)
}

/// The order of the columns that a header names.
pub fn order_of(
    alloc: Global,
    columns: &[Column],
    header: &ByteRecord,
) -> Result<FileOrder, LoadFault>
    ensures read { ReportsIfMemory fault_returned (λ order. order.columns.items) result
        (order_of columns.now (fields_of header.now)) }
    ensures refused { IfErr result (λ f. f ≢ Device) }
{
    let header = fields_in(alloc, header)?;
    let order = order_by(alloc, columns, header.as_slice());
    drop(header);
    order
}
