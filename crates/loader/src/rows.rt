//! Rows behind the last rows of columns.
ghost use Rattle.std.specs.Prelude.{◌≡◌, ◌≢◌, length, slice_index_or, Some, None, true, OnOk, IfErr};
ghost use Rattle.std.specs.Str.{is_utf8};
ghost use Rattle.csv.specs.Records.{AllText, fields_of};
ghost use Rattle.meaning.specs.declared.value.Value.TheVariants.{Null};
ghost use Rattle.meaning.specs.Records as declared;
ghost use Rattle.columns.specs.Column.{with_value, refusal};
ghost use Rattle.columns.specs.declared.fault.ColumnFault.TheVariants as refused;
ghost use Rattle.loader.specs.Columns.{take_row, with_row};
ghost use Rattle.loader.specs.declared.fault.LoadFault.TheVariants.{Memory};
ghost use Rattle.loader.specs.Steps.{value_of, values_of};

use crate::fault::LoadFault;
use crate::field::Parsed;
use crate::header::{FileOrder, field_at};
use columns::{Column, ColumnFault};
use csv::ByteRecord;

#[inline(always)]
fn push_parsed(column: &mut Column, parsed: Parsed, field: &[u8]) -> Result<(), ColumnFault>
    requires { is_utf8 field.now ≡ true }
    ensures ok { OnOk result (column.new ≡ with_value column.old (value_of (parsed, field.now))) }
    ensures returned { IfErr result (λ f. f ≢ refused.Memory
        → refusal column.old.col_type column.old.nullable (value_of (parsed, field.now)) ≡ Some f) }
{
    match parsed {
        Parsed::Null => column.push_null(),
        Parsed::Int(number) => column.push_int(number),
        Parsed::Text => column.push_utf8(field),
    }
}

/// The value of a judged field, behind the last value of its column.
#[inline(always)]
pub fn push_field(column: &mut Column, parsed: Parsed, field: &[u8]) -> Result<(), LoadFault>
    requires text { is_utf8 field.now ≡ true }
    requires taken { refusal column.old.col_type column.old.nullable (value_of (parsed, field.now))
        ≡ None }
    ensures ok { OnOk result (column.new ≡ with_value column.old (value_of (parsed, field.now))) }
    ensures memory { IfErr result (λ f. f ≡ Memory) }
{
    match push_parsed(column, parsed, field) {
        Ok(()) => Ok(()),
        Err(ColumnFault::Memory) => Err(LoadFault::Memory),
        Err(_) => unreachable!(),
    }
}

/// A judged field and its bytes; NULL where there is none.
fn judged_at<'a>(index: usize, parsed: &[Parsed], fields: &'a ByteRecord) -> (Parsed, &'a [u8])
    requires { AllText (fields_of fields.now) }
    ensures text { is_utf8 result.1.now ≡ true }
    ensures value { value_of (result.0, result.1.now)
        ≡ slice_index_or (values_of parsed.now (fields_of fields.now)) index Null }
{
    let Some(judged) = parsed.get(index) else {
        return (Parsed::Null, b"".as_slice());
    };
    let Some(field) = field_at(fields, index) else {
        return (Parsed::Null, b"".as_slice());
    };
    (*judged, field)
}

/// The row of a record whose fields were judged, behind the last rows.
pub fn push_row(
    columns: &mut [Column],
    order: &FileOrder,
    parsed: &[Parsed],
    fields: &ByteRecord,
) -> Result<(), LoadFault>
    requires texts { AllText (fields_of fields.now) }
    requires columns { length columns.old ≡ length order.now.fields.items }
    requires taken { take_row columns.old
        (declared.catalog_row order.now.columns.items (values_of parsed.now (fields_of fields.now)))
        ≡ true }
    ensures ok { OnOk result
        (columns.new ≡ with_row columns.old
        (declared.catalog_row order.now.columns.items
        (values_of parsed.now (fields_of fields.now)))) }
    ensures refused { IfErr result (λ f. f ≡ Memory) }
{
    for i in 0..columns.len() {
        let (judged, field) = judged_at(order.fields[i], parsed, fields);
        push_field(&mut columns[i], judged, field)?;
    }
    Ok(())
}
