//! The header of a table's file.
ghost use Rattle.std.specs.Prelude.{◌≡◌, ◌++◌, ◌∷◌, [], IfOk, OnOk, codes, length, string_bytes, true};
ghost use Rattle.meaning.specs.Catalog.{is_name};
ghost use Rattle.wire.specs.Reading.{number_at};
ghost use Rattle.answer_fields.specs.Fault.{from_wire};
ghost use Rattle.answer_text.specs.Reading.{IsSamePart, Shows, Takes, TakesIfMemory};
ghost use Rattle.table_text.specs.Fields.{IsCopy, ShowsAs, number_line};
ghost use Rattle.table_text.specs.HeaderText.{all_columns_at, column_at, column_count_at, column_line, column_words, columns_at, columns_text, flag_at, front_at, front_text, name_at, name_length_at, named_place_at, named_place_text, new_name_at, null_word, place_at, place_text, row_count_at, table_line, type_at};

use answer_text::{Cursor, Stop, Wrong, type_word};
use fragment_file::{flag_of, is_1_to, is_named, text_of, type_of};
use meaning::{ColType, Column, MAX_COLUMNS, MAX_NAME_BYTES, MAX_ROWS, Text, is_name};
use std::alloc::{AllocError, Global};

// ---- what is read

fn take_name_length(cursor: &mut Cursor<'_>) -> Result<u16, Stop>
    ensures read { Takes (λ n. n) result cursor.new.rest.now
        (name_length_at cursor.old.rest.now) }
    ensures part { IsSamePart cursor.old cursor.new }
{
    let field = "the length of a name";
    let length = cursor.take_u16(field)?;
    if !is_1_to(MAX_NAME_BYTES, u32::from(length)) {
        return Err(cursor.refuse(Wrong::Limit, field));
    }
    Ok(length)
}

/// The bytes of a name behind its length.
#[tactic(auto, unfolding(crate::specs::HeaderText::name_at))]
fn take_word<'a>(cursor: &mut Cursor<'a>) -> Result<&'a [u8], Stop>
    ensures read { Takes (λ b. b.now) result cursor.new.rest.now (name_at cursor.old.rest.now) }
    ensures name { IfOk result (λ b. is_name b.now ≡ true) }
    ensures part { IsSamePart cursor.old cursor.new }
{
    let length = take_name_length(cursor)?;
    let field = "a name";
    let word = cursor.take_bytes(usize::from(length), field)?;
    if !is_name(word) {
        return Err(cursor.refuse(Wrong::Header, field));
    }
    Ok(word)
}

/// A name's text.
fn copy_name(alloc: Global, word: &[u8]) -> Result<Text, Stop>
    requires { is_name word.now ≡ true }
    ensures { IsCopy result word.now }
{
    match text_of(alloc, word) {
        Ok(name) => Ok(name),
        // A name is UTF-8.
        Err(_) => Err(Stop::Memory),
    }
}

/// A name behind its length.
fn take_name(alloc: Global, cursor: &mut Cursor<'_>) -> Result<Text, Stop>
    ensures read { TakesIfMemory (λ t. t) result cursor.new.rest.now
        (name_at cursor.old.rest.now) }
    ensures part { IsSamePart cursor.old cursor.new }
{
    let word = take_word(cursor)?;
    copy_name(alloc, word)
}

/// A name that no earlier column has.
fn take_new_name(alloc: Global, cursor: &mut Cursor<'_>, earlier: &[Column]) -> Result<Text, Stop>
    ensures read { TakesIfMemory (λ t. t) result cursor.new.rest.now
        (new_name_at earlier.now cursor.old.rest.now) }
    ensures part { IsSamePart cursor.old cursor.new }
{
    let name = take_name(alloc, cursor)?;
    if is_named(name.as_bytes(), earlier) {
        return Err(cursor.refuse(Wrong::Header, "a name"));
    }
    Ok(name)
}

fn take_type(cursor: &mut Cursor<'_>) -> Result<ColType, Stop>
    ensures read { Takes (λ t. t) result cursor.new.rest.now (type_at cursor.old.rest.now) }
    ensures part { IsSamePart cursor.old cursor.new }
{
    let field = "a column's type";
    let code = cursor.take_u8(field)?;
    match type_of(code) {
        Ok(col_type) => Ok(col_type),
        Err(_) => Err(cursor.refuse(Wrong::Header, field)),
    }
}

fn take_flag(cursor: &mut Cursor<'_>) -> Result<bool, Stop>
    ensures read { Takes (λ b. b) result cursor.new.rest.now (flag_at cursor.old.rest.now) }
    ensures part { IsSamePart cursor.old cursor.new }
{
    let field = "whether a column may have NULL";
    let code = cursor.take_u8(field)?;
    match flag_of(code) {
        Ok(nullable) => Ok(nullable),
        Err(_) => Err(cursor.refuse(Wrong::Header, field)),
    }
}

/// A column whose name no earlier one has.
#[tactic(auto, unfolding(crate::specs::HeaderText::column_at))]
fn take_column(alloc: Global, cursor: &mut Cursor<'_>, earlier: &[Column]) -> Result<Column, Stop>
    ensures read { TakesIfMemory (λ c. c) result cursor.new.rest.now
        (column_at earlier.now cursor.old.rest.now) }
    ensures part { IsSamePart cursor.old cursor.new }
{
    let name = take_new_name(alloc, cursor, earlier)?;
    let col_type = take_type(cursor)?;
    let nullable = take_flag(cursor)?;
    Ok(Column {
        name,
        col_type,
        nullable,
    })
}

fn take_column_count(cursor: &mut Cursor<'_>) -> Result<u16, Stop>
    ensures read { Takes (λ n. n) result cursor.new.rest.now
        (column_count_at cursor.old.rest.now) }
    ensures part { IsSamePart cursor.old cursor.new }
{
    let field = "the number of columns";
    let count = cursor.take_u16(field)?;
    if !is_1_to(MAX_COLUMNS, u32::from(count)) {
        return Err(cursor.refuse(Wrong::Limit, field));
    }
    Ok(count)
}

fn take_row_count(cursor: &mut Cursor<'_>) -> Result<u32, Stop>
    ensures read { Takes (λ n. n) result cursor.new.rest.now (row_count_at cursor.old.rest.now) }
    ensures part { IsSamePart cursor.old cursor.new }
{
    let field = "the number of rows";
    let rows = cursor.take_u32(field)?;
    if rows > MAX_ROWS {
        return Err(cursor.refuse(Wrong::Limit, field));
    }
    Ok(rows)
}

// ---- what is shown

fn null_word(nullable: bool) -> &'static str
    ensures { result.now ≡ null_word nullable }
{
    if nullable { " null" } else { "" }
}

fn put_words(
    out: &mut String,
    at: usize,
    name: &str,
    word: &str,
    null: &str,
) -> Result<(), AllocError>
    ensures { OnOk result (string_bytes out.new ≡ string_bytes out.old
        ++ column_words at name.now word.now null.now) }
{
    writeln!(out, "column {at}: {name} {word}{null}")
}

fn put_column(out: &mut String, at: usize, column: &Column) -> Result<(), AllocError>
    ensures { OnOk result (string_bytes out.new ≡ string_bytes out.old
        ++ column_line at column.now) }
{
    let name = column.name.as_str();
    put_words(
        out,
        at,
        name,
        type_word(column.col_type),
        null_word(column.nullable),
    )
}

/// Shows a column, and keeps it behind the earlier ones.
fn show_column(
    alloc: Global,
    cursor: &mut Cursor<'_>,
    columns: &mut Vec<Column>,
    out: &mut String,
) -> Result<(), Stop>
    ensures shown { ShowsAs (λ done c. columns.new.items ≡ columns.old.items ++ c ∷ [])
        (column_line (length columns.old.items)) result (string_bytes out.old)
        (string_bytes out.new) cursor.new.rest.now
        (column_at columns.old.items cursor.old.rest.now) }
    ensures part { IsSamePart cursor.old cursor.new }
{
    let column = take_column(alloc, cursor, columns.as_slice())?;
    put_column(out, columns.len(), &column)?;
    columns.push(column)?;
    Ok(())
}

fn show_each(
    alloc: Global,
    cursor: &mut Cursor<'_>,
    count: u16,
    out: &mut String,
) -> Result<Vec<Column>, Stop>
    ensures shown { ShowsAs (λ given columns. given.items ≡ columns) columns_text result
        (string_bytes out.old) (string_bytes out.new) cursor.new.rest.now
        (columns_at count [] cursor.old.rest.now) }
    ensures part { IsSamePart cursor.old cursor.new }
{
    let mut columns = Vec::new(alloc);
    for _ in 0..count {
        show_column(alloc, cursor, &mut columns, out)?;
    }
    Ok(columns)
}

/// The columns, which are shown as they are read.
pub fn show_columns(
    alloc: Global,
    cursor: &mut Cursor<'_>,
    out: &mut String,
) -> Result<Vec<Column>, Stop>
    ensures shown { ShowsAs (λ given columns. given.items ≡ columns) columns_text result
        (string_bytes out.old) (string_bytes out.new) cursor.new.rest.now
        (all_columns_at cursor.old.rest.now) }
    ensures part { IsSamePart cursor.old cursor.new }
{
    let count = take_column_count(cursor)?;
    show_each(alloc, cursor, count, out)
}

fn put_number(out: &mut String, word: &str, number: u64) -> Result<(), AllocError>
    ensures { OnOk result (string_bytes out.new ≡ string_bytes out.old
        ++ number_line word.now number) }
{
    writeln!(out, "{word} {number}")
}

fn put_table(out: &mut String, name: &str) -> Result<(), AllocError>
    ensures { OnOk result (string_bytes out.new ≡ string_bytes out.old ++ table_line name.now) }
{
    writeln!(out, "table {name}")
}

fn show_table(alloc: Global, cursor: &mut Cursor<'_>, out: &mut String) -> Result<(), Stop>
    ensures shown { Shows table_line result (string_bytes out.old) (string_bytes out.new)
        cursor.new.rest.now (name_at cursor.old.rest.now) }
    ensures part { IsSamePart cursor.old cursor.new }
{
    let table = take_name(alloc, cursor)?;
    put_table(out, table.as_str())?;
    Ok(())
}

fn show_fragment(cursor: &mut Cursor<'_>, out: &mut String) -> Result<(), Stop>
    ensures shown { Shows (number_line (codes "fragment")) result (string_bytes out.old)
        (string_bytes out.new) cursor.new.rest.now
        (from_wire (number_at 4 cursor.old.rest.now)) }
    ensures part { IsSamePart cursor.old cursor.new }
{
    let fragment = cursor.take_u32("the fragment")?;
    put_number(out, "fragment", fragment as u64)?;
    Ok(())
}

fn show_first_row(cursor: &mut Cursor<'_>, out: &mut String) -> Result<(), Stop>
    ensures shown { Shows (number_line (codes "first row")) result (string_bytes out.old)
        (string_bytes out.new) cursor.new.rest.now
        (from_wire (number_at 8 cursor.old.rest.now)) }
    ensures part { IsSamePart cursor.old cursor.new }
{
    let first = cursor.take_u64("the first row")?;
    put_number(out, "first row", first)?;
    Ok(())
}

fn show_row_count(cursor: &mut Cursor<'_>, out: &mut String) -> Result<u32, Stop>
    ensures shown { ShowsAs (λ given rows. given ≡ rows) (number_line (codes "rows")) result
        (string_bytes out.old) (string_bytes out.new) cursor.new.rest.now
        (row_count_at cursor.old.rest.now) }
    ensures part { IsSamePart cursor.old cursor.new }
{
    let rows = take_row_count(cursor)?;
    put_number(out, "rows", rows as u64)?;
    Ok(rows)
}

/// Which fragment it is; the number of its rows.
fn show_place(cursor: &mut Cursor<'_>, out: &mut String) -> Result<u32, Stop>
    ensures shown { ShowsAs (λ rows place. rows ≡ place.rows) place_text result
        (string_bytes out.old) (string_bytes out.new) cursor.new.rest.now
        (place_at cursor.old.rest.now) }
    ensures part { IsSamePart cursor.old cursor.new }
{
    show_fragment(cursor, out)?;
    show_first_row(cursor, out)?;
    show_row_count(cursor, out)
}

fn show_named_place(alloc: Global, cursor: &mut Cursor<'_>, out: &mut String) -> Result<u32, Stop>
    ensures shown { ShowsAs (λ rows p. rows ≡ p.1.rows) named_place_text result
        (string_bytes out.old) (string_bytes out.new) cursor.new.rest.now
        (named_place_at cursor.old.rest.now) }
    ensures part { IsSamePart cursor.old cursor.new }
{
    show_table(alloc, cursor, out)?;
    show_place(cursor, out)
}

/// What stands before the columns, shown as it is read; the number of rows.
pub fn show_front(alloc: Global, cursor: &mut Cursor<'_>, out: &mut String) -> Result<u32, Stop>
    ensures shown { ShowsAs (λ rows front. rows ≡ front.place.rows) front_text result
        (string_bytes out.old) (string_bytes out.new) cursor.new.rest.now
        (front_at cursor.old.rest.now) }
    ensures part { IsSamePart cursor.old cursor.new }
{
    let load = cursor.take_u64("the load")?;
    put_number(out, "load", load)?;
    show_named_place(alloc, cursor, out)
}
