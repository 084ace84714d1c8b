//! The columns of an opened file, in memory of their own.
ghost use Rattle.std.specs.Prelude.{◌≡◌, ◌<◌, ◌≤◌, length, slice_index_or, true, IfOk, IfErr, OnOk};
ghost use Rattle.std.specs.List.{list_all};
ghost use Rattle.meaning.specs.Limits.{row_group_rows};
ghost use Rattle.meaning.specs.Order.{value_in};
ghost use Rattle.meaning.specs.declared.catalog.Column.{Column as ADeclared};
ghost use Rattle.columns.specs.Column.{with_value};
ghost use Rattle.blocks.specs.Block.{values_of};
ghost use Rattle.fragment_file.specs.Copying.{is_taken, with_values};
ghost use Rattle.fragment_file.specs.Fragment.{column_in, column_values, columns_in};

use crate::fault::FileFault;
use crate::view::FragmentView;
use blocks::{BlockView, VectorBuf};
use columns::{Column, ColumnFault};
use meaning::{ROW_GROUP_ROWS, ValueRef};
use std::alloc::Global;
use std::mem::drop;

/// Puts a value that the column takes behind its last.
fn push_value(column: &mut Column, value: ValueRef<'_>) -> Result<(), ColumnFault>
    requires { is_taken column.old.col_type column.old.nullable (value_in value) ≡ true }
    ensures ok { OnOk result (column.new ≡ with_value column.old (value_in value.entry)) }
    ensures err { IfErr result (λ f. f ≡ ColumnFault.Memory) }
{
    match value {
        ValueRef::Null => column.push_null(),
        ValueRef::Int(n) => column.push_int(n),
        ValueRef::Text(text) => column.push_utf8(text),
    }
}

fn append_value(column: &mut Column, value: ValueRef<'_>) -> Result<(), FileFault>
    requires { is_taken column.old.col_type column.old.nullable (value_in value) ≡ true }
    ensures ok { OnOk result (column.new ≡ with_value column.old (value_in value.entry)) }
    ensures err { IfErr result (λ f. f ≡ FileFault.Memory) }
{
    match push_value(column, value) {
        Ok(()) => Ok(()),
        Err(_) => Err(FileFault::Memory),
    }
}

fn append_values(column: &mut Column, values: &VectorBuf<'_>) -> Result<(), FileFault>
    requires { list_all (is_taken column.old.col_type column.old.nullable) values.now.values
        ≡ true }
    ensures ok { OnOk result (column.new ≡ with_values column.old values.now.values) }
    ensures err { IfErr result (λ f. f ≡ FileFault.Memory) }
{
    for i in 0..values.len() {
        append_value(column, values.get(i))?;
    }
    Ok(())
}

/// Puts all values of a block behind the last. The buffer has room for them.
fn append_block<'a>(
    column: &mut Column,
    block: &BlockView<'a>,
    buffer: &mut VectorBuf<'a>,
) -> Result<(), FileFault>
    requires room { row_group_rows ≤ buffer.old.room }
    requires col_type { block.now.col_type ≡ column.old.col_type }
    requires nullable { block.now.nullable ≡ column.old.nullable }
    ensures ok { OnOk result (column.new ≡ with_values column.old (values_of block.now)) }
    ensures err { IfErr result (λ f. f ≡ FileFault.Memory) }
    ensures room { buffer.new.room ≡ buffer.old.room }
    ensures kind { buffer.new.col_type ≡ block.now.col_type }
{
    // No effect at run time. The proof reads from this call that the view is of a block.
    let _rows = block.len();
    block.read_into(0, buffer);
    append_values(column, buffer)
}

/// Puts all values of a column of the file behind the last.
fn append_groups<'a>(
    column: &mut Column,
    view: &'a FragmentView<'_>,
    index: usize,
    buffer: &mut VectorBuf<'a>,
) -> Result<(), FileFault>
    requires within { index < length view.now.header.columns }
    requires col_type { (d : ADeclared)
        → column.old.col_type ≡ (slice_index_or view.now.header.columns index d).col_type }
    requires nullable { (d : ADeclared)
        → column.old.nullable ≡ (slice_index_or view.now.header.columns index d).nullable }
    requires room { row_group_rows ≤ buffer.old.room }
    ensures ok { OnOk result
        (column.new ≡ with_values column.old (column_values index view.now.groups)) }
    ensures err { IfErr result (λ f. f ≡ FileFault.Memory) }
{
    // No effect at run time. The proof reads from this call that the header is well-formed.
    let _header = view.header();
    for group in 0..view.group_count() {
        let block = view.group(group).column(index);
        append_block(column, &block, buffer)?;
    }
    Ok(())
}

/// A column of the file, in memory of its own: each block is read whole, and its texts
/// are copied as bytes.
///
/// # Errors
///
/// Out of memory.
pub fn read_column(
    alloc: Global,
    view: &FragmentView<'_>,
    index: usize,
) -> Result<Column, FileFault>
    requires within { index < length view.now.header.columns }
    ensures ok { IfOk result (λ c. (d : ADeclared) →
        c ≡ column_in view.now.groups (index, slice_index_or view.now.header.columns index d)) }
    ensures err { IfErr result (λ f. f ≡ FileFault.Memory) }
{
    let declared = &view.header().columns.as_slice()[index];
    let mut buffer = VectorBuf::new(alloc, ROW_GROUP_ROWS)?;
    let mut column = Column::new(alloc, declared.col_type, declared.nullable);
    match append_groups(&mut column, view, index, &mut buffer) {
        Ok(()) => Ok(column),
        Err(fault) => {
            drop(column);
            Err(fault)
        }
    }
}

/// The columns of the file, in the order of the header.
///
/// # Errors
///
/// Out of memory.
pub fn read_columns(alloc: Global, view: &FragmentView<'_>) -> Result<Vec<Column>, FileFault>
    ensures ok { IfOk result (λ columns. columns.items ≡ columns_in view.now) }
    ensures err { IfErr result (λ f. f ≡ FileFault.Memory) }
{
    let mut columns = Vec::new(alloc);
    for index in 0..view.header().columns.len() {
        let column = read_column(alloc, view, index)?;
        columns.push(column)?;
    }
    Ok(columns)
}
