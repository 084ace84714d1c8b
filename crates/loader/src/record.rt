//! One record: its fields, judged in the order of the file.
ghost use Rattle.std.specs.Prelude.{◌≡◌, ◌≢◌, true, slice_get, map, zip, IfErr, Result, Ok, Err};
ghost use Rattle.std.specs.Str.{is_utf8};
ghost use Rattle.csv.specs.Records.{AllText, fields_of};
ghost use Rattle.meaning.specs.Records as declared;
ghost use Rattle.meaning.specs.Wanting.{ReportsIfMemory};
ghost use Rattle.loader.specs.Fault.{fault_returned};
ghost use Rattle.loader.specs.declared.fault.LoadFault.TheVariants.{Device};
ghost use Rattle.loader.specs.Steps.{ReadsField, values_of};

use crate::fault::LoadFault;
use crate::field::{Parsed, judge_field, judge_text};
use crate::header::field_at;
use csv::ByteRecord;
use meaning::{Column, TableFault};

fn judge_at(row: u64, index: usize, columns: &[Column], field: &[u8]) -> Result<Parsed, TableFault>
    ensures { ReadsField field.now result
        (declared.value_at row index (slice_get columns.now index) field.now) }
{
    match columns.get(index) {
        Some(column) => judge_field(row, index as u64, column, field),
        None => Ok(Parsed::Null),
    }
}

fn judge_text_at(
    row: u64,
    index: usize,
    columns: &[Column],
    field: &[u8],
) -> Result<Parsed, TableFault>
    requires { is_utf8 field.now ≡ true }
    ensures { ReadsField field.now result
        (declared.value_at row index (slice_get columns.now index) field.now) }
{
    match columns.get(index) {
        Some(column) => judge_text(row, index as u64, column, field),
        None => Ok(Parsed::Null),
    }
}

/// Judges each field of a record of texts, in the order of the file, and puts their values
/// into `parsed`.
pub fn judge_texts(
    columns: &[Column],
    order: &[usize],
    row: u64,
    fields: &ByteRecord,
    parsed: &mut Vec<Parsed>,
) -> Result<(), LoadFault>
    requires { AllText (fields_of fields.now) }
    ensures read { ReportsIfMemory fault_returned (λ _. values_of parsed.new.items (fields_of fields.now))
        result (declared.file_values columns.now order.now row (fields_of fields.now)) }
    ensures refused { IfErr result (λ f. f ≢ Device) }
{
    parsed.clear();
    for (i, index) in order.iter().enumerate() {
        let Some(field) = field_at(fields, i) else {
            break;
        };
        parsed.push(judge_text_at(row, *index, columns, field)?)?;
    }
    Ok(())
}

/// The same of a record with fields that may be no texts.
pub fn judge_fields(
    columns: &[Column],
    order: &[usize],
    row: u64,
    fields: &ByteRecord,
    parsed: &mut Vec<Parsed>,
) -> Result<(), LoadFault>
    ensures read { ReportsIfMemory fault_returned (λ _. values_of parsed.new.items (fields_of fields.now))
        result (declared.file_values columns.now order.now row (fields_of fields.now)) }
    ensures refused { IfErr result (λ f. f ≢ Device) }
{
    parsed.clear();
    for (i, index) in order.iter().enumerate() {
        let Some(field) = field_at(fields, i) else {
            break;
        };
        parsed.push(judge_at(row, *index, columns, field)?)?;
    }
    Ok(())
}
