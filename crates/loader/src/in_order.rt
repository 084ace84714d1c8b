//! A record whose fields have the order of the catalogue: each is judged and goes into its column
//! at once.
ghost use Rattle.std.specs.Prelude.{◌≡◌, length, true};
ghost use Rattle.std.specs.List.{range_with_len};
ghost use Rattle.std.specs.Str.{is_utf8};
ghost use Rattle.csv.specs.Records.{AllText, fields_of};
ghost use Rattle.meaning.specs.Records as records;
ghost use Rattle.loader.specs.Columns.{AreDeclared};
ghost use Rattle.loader.specs.Steps.{TakesField, TakesRow};

use crate::fault::LoadFault;
use crate::field::judge_text;
use crate::header::field_at;
use crate::rows::push_field;
use columns::Column;
use csv::ByteRecord;
use meaning::Column as Declared;

/// Judges a field, and puts its value behind the last of its column.
#[inline(always)]
fn take_field(
    declared: &Declared,
    row: u64,
    index: u64,
    field: &[u8],
    column: &mut Column,
) -> Result<(), LoadFault>
    requires text { is_utf8 field.now ≡ true }
    requires declared { (column.old.col_type ≡ declared.now.col_type)
        × (column.old.nullable ≡ declared.now.nullable) }
    ensures { TakesField (records.field_value row index declared.now field.now) column.old
        column.new result }
{
    let parsed = judge_text(row, index, declared, field)?;
    push_field(column, parsed, field)
}

/// Judges the fields of a record one after the other, and puts its row behind the last rows.
pub fn take_fields(
    declared: &[Declared],
    row: u64,
    fields: &ByteRecord,
    columns: &mut [Column],
) -> Result<(), LoadFault>
    requires declared { AreDeclared declared.now columns.old }
    requires fields { length (fields_of fields.now) ≡ length declared.now }
    requires texts { AllText (fields_of fields.now) }
    ensures { TakesRow (records.row_of declared.now (range_with_len 0 (length declared.now)) row
        (fields_of fields.now)) columns.old columns.new result }
{
    for i in 0..columns.len() {
        let Some(field) = field_at(fields, i) else {
            unreachable!()
        };
        take_field(&declared[i], row, i as u64, field, &mut columns[i])?;
    }
    Ok(())
}
