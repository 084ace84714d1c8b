//! The header of a source, field by field.
ghost use Rattle.std.specs.Prelude.{◌≡◌, ◌≤◌, [], IfOk};
ghost use Rattle.meaning.specs.Catalog.{IsName};
ghost use Rattle.meaning.specs.Limits.{max_rows};
ghost use Rattle.fragment_file.specs.Fragment.{IsHeader};
ghost use Rattle.fragment_file.specs.FragmentReading.{column_at, columns_at, header_at, name_at};
ghost use Rattle.group_reader.specs.Fields.{AreColumnsOf, AreHeaderColumns, IsNewColumn, counted_at, flag_at, slice_at, type_at};
ghost use Rattle.group_reader.specs.Source.{Takes};

use crate::numbers::{next_u8, next_u16, next_u32, next_u64};
use crate::payload::next_payload;
use crate::source::Source;
use fragment_file::{FileFault, Header, Slice, flag_of, is_1_to, is_named, text_of, type_of};
use meaning::{ColType, Column, MAX_COLUMNS, MAX_NAME_BYTES, MAX_ROWS, Sequence, Text, is_name};
use std::alloc::Global;
use std::io::Read;

/// A name behind its length.
fn next_name<R: Read + Drop>(alloc: Global, source: &mut Source<R>) -> Result<Text, FileFault>
    ensures name { IfOk result IsName }
    ensures read { Takes R.remaining source.old source.new (λ name. name) result name_at }
{
    let length = next_u16(source)?;
    if !is_1_to(MAX_NAME_BYTES, u32::from(length)) {
        return Err(FileFault::Limit);
    }
    let mut word = Vec::new(alloc);
    next_payload(source, u32::from(length), &mut word)?;
    if !is_name(word.as_slice()) {
        return Err(FileFault::Header);
    }
    text_of(alloc, word.as_slice())
}

fn next_type<R: Read + Drop>(source: &mut Source<R>) -> Result<ColType, FileFault>
    ensures { Takes R.remaining source.old source.new (λ t. t) result type_at }
{
    let code = next_u8(source)?;
    type_of(code)
}

fn next_flag<R: Read + Drop>(source: &mut Source<R>) -> Result<bool, FileFault>
    ensures { Takes R.remaining source.old source.new (λ b. b) result flag_at }
{
    let code = next_u8(source)?;
    flag_of(code)
}

/// A column whose name no earlier one has.
fn next_column<R: Read + Drop>(
    alloc: Global,
    source: &mut Source<R>,
    earlier: &[Column],
) -> Result<Column, FileFault>
    ensures new { IfOk result (IsNewColumn earlier.now) }
    ensures read { Takes R.remaining source.old source.new (λ c. c) result
        (column_at earlier.now) }
{
    let name = next_name(alloc, source)?;
    if is_named(name.as_bytes(), earlier) {
        return Err(FileFault::Header);
    }
    let col_type = next_type(source)?;
    let nullable = next_flag(source)?;
    Ok(Column {
        name,
        col_type,
        nullable,
    })
}

fn next_columns<R: Read + Drop>(
    alloc: Global,
    source: &mut Source<R>,
    count: u16,
) -> Result<Vec<Column>, FileFault>
    ensures columns { IfOk result (λ cs. AreColumnsOf count cs.items) }
    ensures read { Takes R.remaining source.old source.new (λ cs. cs.items) result
        (columns_at count []) }
{
    let mut columns = Vec::new(alloc);
    for _ in 0..count {
        let column = next_column(alloc, source, columns.as_slice())?;
        columns.push(column)?;
    }
    Ok(columns)
}

/// The columns behind how many there are.
fn next_counted<R: Read + Drop>(
    alloc: Global,
    source: &mut Source<R>,
) -> Result<Vec<Column>, FileFault>
    ensures columns { IfOk result (λ cs. AreHeaderColumns cs.items) }
    ensures read { Takes R.remaining source.old source.new (λ cs. cs.items) result counted_at }
{
    let count = next_u16(source)?;
    if !is_1_to(MAX_COLUMNS, u32::from(count)) {
        return Err(FileFault::Limit);
    }
    next_columns(alloc, source, count)
}

/// Which rows of the table the file has.
fn next_slice<R: Read + Drop>(source: &mut Source<R>) -> Result<Slice, FileFault>
    ensures rows { IfOk result (λ slice. slice.rows ≤ max_rows) }
    ensures read { Takes R.remaining source.old source.new (λ slice. slice) result slice_at }
{
    let fragment = next_u32(source)?;
    let first_row = next_u64(source)?;
    let rows = next_u32(source)?;
    if rows > MAX_ROWS {
        return Err(FileFault::Limit);
    }
    Ok(Slice {
        fragment,
        first_row,
        rows,
    })
}

/// What stands in front of the row groups, behind the magic.
pub fn next_header<R: Read + Drop>(
    alloc: Global,
    source: &mut Source<R>,
) -> Result<Header, FileFault>
    ensures header { IfOk result IsHeader }
    ensures read { Takes R.remaining source.old source.new (λ header. header) result header_at }
{
    let load = next_u64(source)?;
    let table = next_name(alloc, source)?;
    let slice = next_slice(source)?;
    let columns = next_counted(alloc, source)?;
    Ok(Header {
        load,
        table,
        fragment: slice.fragment,
        first_row: slice.first_row,
        rows: slice.rows,
        columns: Sequence::from_vec(columns),
    })
}
