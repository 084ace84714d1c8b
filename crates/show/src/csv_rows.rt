//! The first rows of a table's file as comma-separated values.
ghost use Rattle.std.specs.Prelude.{◌≡◌, ◌<◌, ◌≤◌, ◌++◌, ◌∷◌, ℕ, [], All, IfOk, List, Ok, OnOk, map, take};
ghost use Rattle.std.specs.Io.KnownBytes.{Appends};
ghost use Rattle.std.specs.List.{range_with_len};
ghost use Rattle.csv.specs.Records.{fields_of, partial_of};
ghost use Rattle.csv.specs.Writing.{default_writer, row_text, text_written};
ghost use Rattle.meaning.specs.Order.{value_in};
ghost use Rattle.meaning.specs.Print.{value_text};
ghost use Rattle.fragment_file.specs.Fragment.{group_sizes};
ghost use Rattle.answer_text.specs.Reading.{IsSamePart};
ghost use Rattle.table_text.specs.TableText.{GroupLayout, TableLayout, blocks_at, groups_at, table_at};
ghost use Rattle.show.specs.Rows.{IsBetween, records_text, row_of, rows_in, rows_text};

use answer_text::{Cursor, Stop};
use blocks::BlockView;
use csv::{ByteRecord, Writer, WriterBuilder};
use itoa::Buffer;
use meaning::{Column, ValueRef};
use std::alloc::{AllocError, Global};
use std::io::Write;
use std::mem::drop;
use table_text::{show_columns, show_front, take_block, take_group_rows};

fn push_value(fields: &mut ByteRecord, value: ValueRef<'_>) -> Result<(), AllocError>
    requires { partial_of fields.old ≡ [] }
    ensures fields { OnOk result (fields_of fields.new ≡ fields_of fields.old
        ++ value_text (value_in value.entry) ∷ []) }
    ensures partial { OnOk result (partial_of fields.new ≡ []) }
{
    match value {
        ValueRef::Null => fields.push_field(b"\\N"),
        ValueRef::Int(number) => fields.push_field(Buffer::new().format(number).as_bytes()),
        ValueRef::Text(text) => fields.push_field(text),
    }
}

fn fill_with_names(fields: &mut ByteRecord, columns: &[Column]) -> Result<(), AllocError>
    ensures { OnOk result (fields_of fields.new ≡ map (λ c. c.name) columns.now) }
{
    fields.clear();
    for column in columns {
        fields.push_field(column.name.as_bytes())?;
    }
    Ok(())
}

fn fill_with_row(
    fields: &mut ByteRecord,
    blocks: &[BlockView<'_>],
    row: usize,
) -> Result<(), AllocError>
    requires { All (λ b. row < b.rows) blocks.now }
    ensures { OnOk result (fields_of fields.new ≡ row_of blocks.now row) }
{
    fields.clear();
    for block in blocks {
        push_value(fields, block.get(row))?;
    }
    Ok(())
}

fn write_record<W: Write + Drop>(writer: &mut Writer<W>, fields: &ByteRecord) -> Result<(), Stop>
    requires { IsBetween writer.old }
    ensures behind { OnOk result (IsBetween writer.new) }
    ensures text { OnOk result
        (Appends (text_written W.contents writer.old) (text_written W.contents writer.new)
        (row_text default_writer (fields_of fields.now))) }
{
    match writer.write_byte_record(fields) {
        Ok(()) => Ok(()),
        // A list in memory refuses nothing else.
        Err(_) => Err(Stop::Memory),
    }
}

/// `fields` is room for the fields of one record.
fn write_header<W: Write + Drop>(
    writer: &mut Writer<W>,
    fields: &mut ByteRecord,
    columns: &[Column],
) -> Result<(), Stop>
    requires { IsBetween writer.old }
    ensures behind { OnOk result (IsBetween writer.new) }
    ensures text { OnOk result
        (Appends (text_written W.contents writer.old) (text_written W.contents writer.new)
        (row_text default_writer (map (λ c. c.name) columns.now))) }
{
    fill_with_names(fields, columns)?;
    write_record(writer, fields)
}

/// `fields` is room for the fields of one record.
fn write_row<W: Write + Drop>(
    writer: &mut Writer<W>,
    fields: &mut ByteRecord,
    blocks: &[BlockView<'_>],
    row: usize,
) -> Result<(), Stop>
    requires before { IsBetween writer.old }
    requires within { All (λ b. row < b.rows) blocks.now }
    ensures behind { OnOk result (IsBetween writer.new) }
    ensures text { OnOk result
        (Appends (text_written W.contents writer.old) (text_written W.contents writer.new)
        (row_text default_writer (row_of blocks.now row))) }
{
    fill_with_row(fields, blocks, row)?;
    write_record(writer, fields)
}

/// The blocks of a row group.
fn take_blocks<'a>(
    alloc: Global,
    cursor: &mut Cursor<'a>,
    group: u64,
    columns: &[Column],
    rows: u32,
) -> Result<Vec<BlockView<'a>>, Stop>
    ensures read { IfOk result (λ blocks. blocks_at columns.now rows cursor.old.rest.now
        ≡ Ok (blocks.items, cursor.new.rest.now)) }
    ensures part { IsSamePart cursor.old cursor.new }
{
    let mut blocks = Vec::new(alloc);
    for column in columns {
        let block = take_block(cursor, group, blocks.len() as u64, column, rows as usize)?;
        blocks.push(block)?;
    }
    Ok(blocks)
}

/// Writes the first rows of a row group, just so many. `fields` is room for the fields of one record.
fn write_rows<W: Write + Drop>(
    writer: &mut Writer<W>,
    fields: &mut ByteRecord,
    blocks: &[BlockView<'_>],
    rows: u32,
) -> Result<(), Stop>
    requires before { IsBetween writer.old }
    requires within { All (λ b. rows ≤ b.rows) blocks.now }
    ensures behind { OnOk result (IsBetween writer.new) }
    ensures text { OnOk result
        (Appends (text_written W.contents writer.old) (text_written W.contents writer.new)
        (records_text (map (row_of blocks.now) (range_with_len 0 rows)))) }
{
    for row in 0..rows {
        write_row(writer, fields, blocks, row as usize)?;
    }
    Ok(())
}

/// Writes the rows of a table's file behind its header, at most so many. `fields` is room for the
/// fields of one record.
fn write_groups<W: Write + Drop>(
    alloc: Global,
    cursor: &mut Cursor<'_>,
    columns: &[Column],
    rows: u32,
    most: u32,
    writer: &mut Writer<W>,
    fields: &mut ByteRecord,
) -> Result<(), Stop>
    requires { IsBetween writer.old }
    ensures { OnOk result ((groups : List GroupLayout) (rest : List ℕ)
        → groups_at cursor.old.bytes.now columns.now (group_sizes rows) cursor.old.rest.now
        ≡ Ok (groups, rest)
        → Appends (text_written W.contents writer.old) (text_written W.contents writer.new)
        (records_text (take most (rows_in groups)))) }
{
    let mut group = 0u64;
    let mut left = rows;
    let mut wanted = most;
    while left > 0 {
        if wanted == 0 {
            return Ok(());
        }
        let count = take_group_rows(cursor, left)?;
        let blocks = take_blocks(alloc, cursor, group, columns, count)?;
        write_rows(writer, fields, blocks.as_slice(), count.min(wanted))?;
        group = group.saturating_add(1);
        left = left.saturating_sub(count);
        wanted = wanted.saturating_sub(count);
    }
    Ok(())
}

/// Writes the names of the columns and the first rows of a table's file, behind its magic. `fields` is
/// room for the fields of one record.
fn write_table<W: Write + Drop>(
    alloc: Global,
    cursor: &mut Cursor<'_>,
    most: u32,
    writer: &mut Writer<W>,
    fields: &mut ByteRecord,
) -> Result<(), Stop>
    requires { IsBetween writer.old }
    ensures { OnOk result ((t : TableLayout) (rest : List ℕ)
        → table_at cursor.old.bytes.now cursor.old.rest.now ≡ Ok (t, rest)
        → Appends (text_written W.contents writer.old) (text_written W.contents writer.new)
        (rows_text most t)) }
{
    let mut unshown = String::new(alloc);
    let rows = show_front(alloc, cursor, &mut unshown)?;
    let columns = show_columns(alloc, cursor, &mut unshown)?;
    let columns = columns.as_slice();
    write_header(writer, fields, columns)?;
    write_groups(alloc, cursor, columns, rows, most, writer, fields)
}

/// The names of the columns and the first rows of a table's file, behind its magic, at most so many,
/// and why there aren't as many as it has.
pub fn rows_of_table(
    alloc: Global,
    cursor: &mut Cursor<'_>,
    most: u32,
) -> (Vec<u8>, Result<(), Stop>)
    ensures { OnOk result.1 ((t : TableLayout) (rest : List ℕ)
        → table_at cursor.old.bytes.now cursor.old.rest.now ≡ Ok (t, rest)
        → result.0.items ≡ rows_text most t) }
{
    let mut writer = WriterBuilder::new().from_writer(Vec::new(alloc));
    let mut fields = ByteRecord::new(alloc);
    let written = write_table(alloc, cursor, most, &mut writer, &mut fields);
    drop(fields);
    match writer.into_inner() {
        Ok(csv) => (csv, written),
        Err(error) => {
            drop(error);
            (Vec::new(alloc), Err(Stop::Memory))
        }
    }
}
