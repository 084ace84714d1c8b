//! The fields of a header, read from front to back.
ghost use Rattle.std.specs.Prelude.{◌≡◌, []};
ghost use Rattle.meaning.specs.Wanting.{GivesIfMemory};
ghost use Rattle.wire.specs.Reading.{behind_magic, Reads};
ghost use Rattle.fragment_file.specs.FragmentReading.{column_at, columns_at, flag_of, header_at, is_named, type_of};

use crate::fault::FileFault;
use crate::header::Header;
use crate::limits::is_1_to;
use crate::name::{take_name, text_of};
use meaning::{ColType, Column, MAX_COLUMNS, MAX_ROWS, Sequence};
use std::alloc::Global;
use std::mem::drop;
use wire::{take_u8, take_u16, take_u32, take_u64};

/// The type that a header's code names.
pub fn type_of(code: u8) -> Result<ColType, FileFault>
    ensures { Reads (λ t. t) result (type_of code) }
{
    match code {
        1 => Ok(ColType::Int),
        2 => Ok(ColType::Text),
        _ => Err(FileFault::Header),
    }
}

/// Whether a header's flag is set.
pub fn flag_of(code: u8) -> Result<bool, FileFault>
    ensures { Reads (λ b. b) result (flag_of code) }
{
    match code {
        0 => Ok(false),
        1 => Ok(true),
        _ => Err(FileFault::Header),
    }
}

/// Whether one of the columns has the name.
pub fn is_named(name: &[u8], columns: &[Column]) -> bool
    ensures { result ≡ is_named name.now columns.now }
{
    columns.iter().any(|column| column.name.as_bytes() == name)
}

/// A column whose name no earlier one has, and the bytes behind it.
#[tactic(auto, unfolding(crate::specs::FragmentReading::column_at))]
fn take_column<'a>(
    alloc: Global,
    earlier: &[Column],
    bytes: &'a [u8],
) -> Result<(Column, &'a [u8]), FileFault>
    ensures { GivesIfMemory FileFault.Memory (λ x. (x.0, x.1.now)) result
        (column_at earlier.now bytes.now) }
{
    let (name, rest) = take_name(bytes)?;
    if is_named(name, earlier) {
        return Err(FileFault::Header);
    }
    let (code, rest) = take_u8(rest)?;
    let col_type = type_of(code)?;
    let (code, rest) = take_u8(rest)?;
    let nullable = flag_of(code)?;
    let name = text_of(alloc, name)?;
    let column = Column {
        name,
        col_type,
        nullable,
    };
    Ok((column, rest))
}

fn take_columns(alloc: Global, count: u16, bytes: &[u8]) -> Result<(Vec<Column>, &[u8]), FileFault>
    ensures { GivesIfMemory FileFault.Memory (λ x. (x.0.items, x.1.now)) result
        (columns_at count [] bytes.now) }
{
    let mut columns = Vec::new(alloc);
    let mut rest = bytes;
    for _ in 0..count {
        let (column, after) = take_column(alloc, columns.as_slice(), rest)?;
        columns.push(column)?;
        rest = after;
    }
    Ok((columns, rest))
}

/// What stands in front of the row groups, and the bytes from there.
#[tactic(auto, unfolding(crate::specs::FragmentReading::header_at))]
pub fn take_header(alloc: Global, bytes: &[u8]) -> Result<(Header, &[u8]), FileFault>
    ensures { GivesIfMemory FileFault.Memory (λ x. (x.0, x.1.now)) result (header_at bytes.now) }
{
    let (load, rest) = take_u64(bytes)?;
    let (table, rest) = take_name(rest)?;
    let (fragment, rest) = take_u32(rest)?;
    let (first_row, rest) = take_u64(rest)?;
    let (rows, rest) = take_u32(rest)?;
    if rows > MAX_ROWS {
        return Err(FileFault::Limit);
    }
    let (count, rest) = take_u16(rest)?;
    if !is_1_to(MAX_COLUMNS, u32::from(count)) {
        return Err(FileFault::Limit);
    }
    let table = text_of(alloc, table)?;
    match take_columns(alloc, count, rest) {
        Ok((columns, rest)) => {
            let columns = Sequence::from_vec(columns);
            let header = Header {
                load,
                table,
                fragment,
                first_row,
                rows,
                columns,
            };
            Ok((header, rest))
        }
        Err(fault) => {
            drop(table);
            Err(fault)
        }
    }
}
