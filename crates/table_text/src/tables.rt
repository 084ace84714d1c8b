//! Files of fragments and dimensions.
ghost use Rattle.std.specs.Prelude.{◌≡◌, ◌++◌, ◌∷◌, [], min, IfOk, OnOk, codes, decimal, length, map, string_bytes};
ghost use Rattle.meaning.specs.Limits.{row_group_rows};
ghost use Rattle.fragment_file.specs.Fragment.{group_sizes};
ghost use Rattle.answer_text.specs.Reading.{IsSamePart, Shows, Takes};
ghost use Rattle.table_text.specs.Fields.{ShowsAs};
ghost use Rattle.table_text.specs.TableText.{all_groups_text, blocks_at, blocks_text, columns_and_groups_at, columns_and_groups_text, each_total_text, group_at, group_line, group_rows_at, group_text, groups_at, groups_text, sealed_groups_at, size_line, sized_groups_text, table_at, table_text, totals_text};

use crate::blocks_shown::{put_total, show_block, total_in};
use crate::header::{show_columns, show_front};
use answer_text::{Cursor, Stop, Wrong, put_share};
use blocks::BlockView;
use fragment_file::next_rows;
use meaning::Column;
use std::alloc::{AllocError, Global};

/// The number of rows of the next row group, of which so many are left.
pub fn take_group_rows(cursor: &mut Cursor<'_>, left: u32) -> Result<u32, Stop>
    ensures rows { IfOk result (λ rows. rows ≡ min left row_group_rows) }
    ensures read { Takes (λ n. n) result cursor.new.rest.now
        (group_rows_at (min left row_group_rows) cursor.old.rest.now) }
    ensures part { IsSamePart cursor.old cursor.new }
{
    let field = "a row group's number of rows";
    let rows = cursor.take_u32(field)?;
    if rows != next_rows(left) {
        return Err(cursor.refuse(Wrong::Header, field));
    }
    Ok(rows)
}

/// Shows the blocks of a row group, and keeps them.
fn show_group_blocks<'a>(
    cursor: &mut Cursor<'a>,
    group: u64,
    rows: u32,
    columns: &[Column],
    blocks: &mut Vec<BlockView<'a>>,
    out: &mut String,
) -> Result<(), Stop>
    requires { blocks.old.items ≡ [] }
    ensures shown { ShowsAs (λ done given. blocks.new.items ≡ given) (blocks_text columns.now)
        result (string_bytes out.old) (string_bytes out.new) cursor.new.rest.now
        (blocks_at columns.now rows cursor.old.rest.now) }
    ensures part { IsSamePart cursor.old cursor.new }
{
    for column in columns {
        show_block(cursor, group, column, rows as usize, blocks, out)?;
    }
    Ok(())
}

fn put_group(out: &mut String, group: usize, at: usize, rows: u32) -> Result<(), AllocError>
    ensures { OnOk result (string_bytes out.new ≡ string_bytes out.old
        ++ group_line group at rows) }
{
    writeln!(out, "row group {group} at byte {at}: {rows} rows")
}

/// Shows a row group behind those that were read, and keeps its blocks, as many as could be read. It
/// gives its number of rows.
fn show_group<'a>(
    alloc: Global,
    cursor: &mut Cursor<'a>,
    left: u32,
    columns: &[Column],
    groups: &mut Vec<Vec<BlockView<'a>>>,
    out: &mut String,
) -> Result<u32, Stop>
    ensures shown { ShowsAs
        (λ rows g. (rows ≡ g.rows) × (map (λ v. v.items) groups.new.items
        ≡ map (λ v. v.items) groups.old.items ++ g.blocks ∷ []))
        (group_text columns.now cursor.old.first (length groups.old.items)) result
        (string_bytes out.old) (string_bytes out.new) cursor.new.rest.now
        (group_at cursor.old.bytes.now columns.now (min left row_group_rows)
        cursor.old.rest.now) }
    ensures rows { IfOk result (λ rows. rows ≡ min left row_group_rows) }
    ensures part { IsSamePart cursor.old cursor.new }
{
    let at = cursor.at();
    let group = groups.len();
    let rows = take_group_rows(cursor, left)?;
    put_group(out, group, at, rows)?;
    let mut blocks = Vec::new(alloc);
    let shown = show_group_blocks(cursor, group as u64, rows, columns, &mut blocks, out);
    groups.push(blocks)?;
    shown?;
    Ok(rows)
}

fn show_groups<'a>(
    alloc: Global,
    cursor: &mut Cursor<'a>,
    rows: u32,
    columns: &[Column],
    groups: &mut Vec<Vec<BlockView<'a>>>,
    out: &mut String,
) -> Result<(), Stop>
    requires { groups.old.items ≡ [] }
    ensures shown { ShowsAs
        (λ done given. map (λ g. g.items) groups.new.items ≡ map (λ g. g.blocks) given)
        (groups_text columns.now cursor.old.first) result
        (string_bytes out.old) (string_bytes out.new) cursor.new.rest.now
        (groups_at cursor.old.bytes.now columns.now (group_sizes rows) cursor.old.rest.now) }
    ensures part { IsSamePart cursor.old cursor.new }
{
    let mut left = rows;
    while left > 0 {
        let shown = show_group(alloc, cursor, left, columns, groups, out)?;
        left = left.saturating_sub(shown);
    }
    Ok(())
}

fn put_each_total(
    out: &mut String,
    rows: u32,
    columns: &[Column],
    groups: &[Vec<BlockView<'_>>],
) -> Result<(), AllocError>
    ensures { OnOk result (string_bytes out.new ≡ string_bytes out.old
        ++ each_total_text rows (map (λ g. g.items) groups.now) columns.now) }
{
    for number in 0..columns.len() {
        let total = total_in(groups, number);
        let column = &columns[number];
        put_total(out, column.name.as_str(), &total, rows)?;
    }
    Ok(())
}

fn put_totals(
    out: &mut String,
    rows: u32,
    columns: &[Column],
    groups: &[Vec<BlockView<'_>>],
) -> Result<(), AllocError>
    ensures { OnOk result (string_bytes out.new ≡ string_bytes out.old
        ++ totals_text rows (map (λ g. g.items) groups.now) columns.now) }
{
    out.push_str("columns in all\n")?;
    put_each_total(out, rows, columns, groups)
}

/// Shows the row groups, and what was read of each column.
fn show_blocks(
    alloc: Global,
    cursor: &mut Cursor<'_>,
    rows: u32,
    columns: &[Column],
    out: &mut String,
) -> Result<(), Stop>
    ensures shown { Shows (all_groups_text columns.now cursor.old.first rows) result
        (string_bytes out.old) (string_bytes out.new) cursor.new.rest.now
        (groups_at cursor.old.bytes.now columns.now (group_sizes rows) cursor.old.rest.now) }
    ensures part { IsSamePart cursor.old cursor.new }
{
    let mut groups = Vec::new(alloc);
    let shown = show_groups(alloc, cursor, rows, columns, &mut groups, out);
    put_totals(out, rows, columns, groups.as_slice())?;
    shown
}

fn put_file_bytes(out: &mut String, size: usize) -> Result<(), AllocError>
    ensures { OnOk result (string_bytes out.new ≡ string_bytes out.old ++ (codes "file: "
        ++ decimal size ++ codes " bytes")) }
{
    write!(out, "file: {size} bytes")
}

/// Shows the size of a file of so many rows.
fn put_size(out: &mut String, size: usize, rows: u32) -> Result<(), AllocError>
    ensures { OnOk result (string_bytes out.new ≡ string_bytes out.old ++ size_line size rows) }
{
    put_file_bytes(out, size)?;
    put_share(out, size as u64, rows)?;
    out.push_str("\n")
}

/// Shows the row groups, behind which the seal stands.
fn show_sealed(
    alloc: Global,
    cursor: &mut Cursor<'_>,
    rows: u32,
    columns: &[Column],
    size: usize,
    out: &mut String,
) -> Result<(), Stop>
    ensures shown { Shows (sized_groups_text columns.now cursor.old.first size rows) result
        (string_bytes out.old) (string_bytes out.new) cursor.new.rest.now
        (sealed_groups_at cursor.old.bytes.now columns.now rows cursor.old.rest.now) }
    ensures part { IsSamePart cursor.old cursor.new }
{
    show_blocks(alloc, cursor, rows, columns, out)?;
    cursor.take_seal()?;
    put_size(out, size, rows)?;
    Ok(())
}

/// Shows what stands behind the front of a file of so many rows.
fn show_behind_front(
    alloc: Global,
    cursor: &mut Cursor<'_>,
    rows: u32,
    size: usize,
    out: &mut String,
) -> Result<(), Stop>
    ensures shown { Shows (columns_and_groups_text cursor.old.first size rows) result
        (string_bytes out.old) (string_bytes out.new) cursor.new.rest.now
        (columns_and_groups_at cursor.old.bytes.now rows cursor.old.rest.now) }
    ensures part { IsSamePart cursor.old cursor.new }
{
    let columns = show_columns(alloc, cursor, out)?;
    show_sealed(alloc, cursor, rows, columns.as_slice(), size, out)
}

/// Shows the file of a fragment or of a dimension, behind its magic.
pub fn show_table_file(
    alloc: Global,
    cursor: &mut Cursor<'_>,
    size: usize,
    out: &mut String,
) -> Result<(), Stop>
    ensures shown { Shows (table_text cursor.old.first size) result
        (string_bytes out.old) (string_bytes out.new) cursor.new.rest.now
        (table_at cursor.old.bytes.now cursor.old.rest.now) }
    ensures part { IsSamePart cursor.old cursor.new }
{
    let rows = show_front(alloc, cursor, out)?;
    show_behind_front(alloc, cursor, rows, size, out)
}
