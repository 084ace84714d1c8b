//! The names that a catalogue takes.
ghost use Rattle.std.specs.Prelude.{◌≡◌, ◌<◌, true, Err, Ok, IfErr, IfOk, OnOk};
ghost use Rattle.init.specs.Guessing.{IsColumnUnnamed, IsUnnamed};
ghost use Rattle.init.specs.Shown.{has_name, is_short_name, name_of, named};

use crate::fault::{ColumnFault, InitFault, PathFault, of_path};
use meaning::{MAX_NAME_BYTES, Text, is_name, text_of};
use std::alloc::{AllocError, Global};

fn is_short_name(name: &[u8]) -> bool
    ensures { result ≡ is_short_name name.now }
{
    is_name(name) && name.len() <= MAX_NAME_BYTES
}

/// Refuses a file whose name is none of a table.
pub fn check_table_name(alloc: Global, file: &str, table: &str) -> Result<(), InitFault>
    ensures named { OnOk result (is_short_name table.now ≡ true) }
    ensures refused { IfErr result (IsUnnamed file.now table.now) }
{
    if is_short_name(table.as_bytes()) {
        return Ok(());
    }
    Err(of_path(alloc, file, PathFault::NoTableName))
}

// The field in lower case, if it is a name.
fn name_in(alloc: Global, field: &[u8]) -> Result<Option<Text>, AllocError>
    ensures { IfOk result (λ name. name ≡ name_of field.now) }
{
    let Some(text) = text_of(field) else {
        return Ok(None);
    };
    let name = Text::from_string(text.to_ascii_lowercase(alloc)?);
    if !is_short_name(name.as_bytes()) {
        return Ok(None);
    }
    Ok(Some(name))
}

fn has_name(names: &[Text], name: &Text) -> bool
    ensures { result ≡ has_name names.now name.now }
{
    names.iter().any(|other| *other == *name)
}

// What is wrong with the name of the column with this index.
fn misnamed(alloc: Global, file: &str, index: usize, fault: ColumnFault) -> InitFault
    requires { index < usize.MAX }
    ensures { IsColumnUnnamed file.now index (Err fault) result }
{
    match String::from_str(alloc, file) {
        Ok(file) => InitFault::Column {
            file,
            column: index + 1,
            fault,
        },
        Err(AllocError) => InitFault::Memory,
    }
}

/// The name of the column with this index, which is none of those before it.
pub fn column_name(
    alloc: Global,
    file: &str,
    before: &[Text],
    index: usize,
    field: &[u8],
) -> Result<Text, InitFault>
    requires { index < usize.MAX }
    ensures named { IfOk result (λ name. named before.now field.now ≡ Ok name) }
    ensures refused { IfErr result (IsColumnUnnamed file.now index (named before.now field.now)) }
{
    let Some(name) = name_in(alloc, field)? else {
        return Err(misnamed(alloc, file, index, ColumnFault::NoName));
    };
    if has_name(before, &name) {
        return Err(misnamed(alloc, file, index, ColumnFault::NameTwice));
    }
    Ok(name)
}
