//! What stands in front of the row groups.
ghost use Rattle.std.specs.Prelude.{◌≡◌, ◌++◌, ◌≤◌, length, All, flat_map, OnOk};
ghost use Rattle.meaning.specs.Catalog.{IsName};
ghost use Rattle.meaning.specs.Limits.{max_name_bytes};
ghost use Rattle.meaning.specs.TypeCodes.{type_code};
ghost use Rattle.fragment_file.specs.Fragment.{IsHeader, column_bytes, fragment_magic, header_bytes, name_bytes};

use crate::header::Header;
use crate::opening::FRAGMENT_MAGIC;
use meaning::{Column, Text, type_code};
use std::alloc::AllocError;
use wire::{append_u8, append_u16, append_u32, append_u64};

#[tactic(auto, unfolding(crate::specs::Fragment::name_bytes))]
fn append_name(out: &mut Vec<u8>, name: &Text) -> Result<(), AllocError>
    requires { length name.now ≤ max_name_bytes }
    ensures { OnOk result (out.new.items ≡ out.old.items ++ name_bytes name.now) }
{
    let bytes = name.as_bytes();
    append_u16(out, bytes.len() as u16)?;
    out.extend_from_slice(bytes)
}

#[tactic(auto, unfolding(crate::specs::Fragment::column_bytes))]
fn append_column(out: &mut Vec<u8>, column: &Column) -> Result<(), AllocError>
    requires { length column.now.name ≤ max_name_bytes }
    ensures { OnOk result (out.new.items ≡ out.old.items ++ column_bytes column.now) }
{
    append_name(out, &column.name)?;
    append_u8(out, type_code(column.col_type))?;
    if column.nullable {
        return append_u8(out, 1);
    }
    append_u8(out, 0)
}

fn append_columns(out: &mut Vec<u8>, columns: &[Column]) -> Result<(), AllocError>
    requires { All (λ c. IsName c.name) columns.now }
    ensures { OnOk result (out.new.items ≡ out.old.items ++ flat_map column_bytes columns.now) }
{
    for column in columns {
        append_column(out, column)?;
    }
    Ok(())
}

/// The magic and the header.
#[tactic(auto, unfolding(crate::specs::Fragment::header_bytes, crate::specs::Fragment::fragment_magic))]
pub fn append_header(out: &mut Vec<u8>, header: &Header) -> Result<(), AllocError>
    requires { IsHeader header.now }
    ensures { OnOk result (out.new.items ≡ out.old.items
        ++ (fragment_magic ++ header_bytes header.now)) }
{
    let columns = header.columns.as_slice();
    out.extend_from_slice(&FRAGMENT_MAGIC)?;
    append_u64(out, header.load)?;
    append_name(out, &header.table)?;
    append_u32(out, header.fragment)?;
    append_u64(out, header.first_row)?;
    append_u32(out, header.rows)?;
    append_u16(out, columns.len() as u16)?;
    append_columns(out, columns)
}
