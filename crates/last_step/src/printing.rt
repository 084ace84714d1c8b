//! A header and rows as comma-separated values.
ghost use Rattle.std.specs.Prelude.{◌≡◌, ◌≢◌, ◌<◌, ◌++◌, ◌∷◌, [], get_or, length, map, OnOk};
ghost use Rattle.std.specs.Io.KnownBytes.{Appends};
ghost use Rattle.csv.specs.Records.{fields_of};
ghost use Rattle.csv.specs.Writing.{text_written};
ghost use Rattle.meaning.specs.Print.{record_text, rows_text, value_text};
ghost use Rattle.last_step.specs.Printing.{HasFields, IsBetween};

use crate::lent::Lent;
use crate::print_fault::PrintFault;
use crate::printable::{MadeRows, PrintableRows};
use csv::{ByteRecord, Writer, WriterBuilder};
use meaning::{Item, Plan, Row};
use std::alloc::{AllocError, Global};
use std::io::Write;
use std::mem::drop;

/// Prints the header and the rows as comma-separated values. NULL is `\N`.
///
/// # Errors
///
/// How much went out is open.
pub fn print_rows<W: Write>(
    alloc: Global,
    plan: &Plan,
    rows: &[Row],
    out: &mut W,
) -> Result<(), PrintFault>
    requires { HasFields plan.now rows.now }
    ensures { OnOk result (Appends (W.contents out.old) (W.contents out.new)
        (rows_text plan.now rows.now)) }
{
    print_all(alloc, plan, &MadeRows { rows }, out)
}

/// The same of rows that need not be made.
pub fn print_all<R: PrintableRows, W: Write>(
    alloc: Global,
    plan: &Plan,
    rows: &R,
    out: &mut W,
) -> Result<(), PrintFault>
    requires { HasFields plan.now (R.rows rows.now) }
    ensures { OnOk result (Appends (W.contents out.old) (W.contents out.new)
        (rows_text plan.now (R.rows rows.now))) }
{
    let mut writer = WriterBuilder::new()
        .flexible(true)
        .from_writer(Lent { out });
    match write_rows(alloc, &mut writer, plan, rows) {
        Ok(()) => {}
        Err(fault) => {
            drop(writer);
            return Err(fault);
        }
    }
    match writer.into_inner() {
        Ok(Lent { out }) => {
            // No effect at run time. The proof reads what `out` holds from this use of it.
            let _ = &*out;
            Ok(())
        }
        Err(fault) => Err(PrintFault::from(fault.into_error())),
    }
}

fn write_rows<R: PrintableRows, W: Write + Drop>(
    alloc: Global,
    writer: &mut Writer<W>,
    plan: &Plan,
    rows: &R,
) -> Result<(), PrintFault>
    requires before { IsBetween writer.old }
    requires shown { HasFields plan.now (R.rows rows.now) }
    ensures { OnOk result (Appends (text_written W.contents writer.old)
        (text_written W.contents writer.new)
        (rows_text plan.now (R.rows rows.now))) }
{
    let mut fields = ByteRecord::new(alloc);
    let written = write_records(writer, &mut fields, plan, rows);
    drop(fields);
    written
}

/// `fields` is room for the fields of one record.
fn write_records<R: PrintableRows, W: Write + Drop>(
    writer: &mut Writer<W>,
    fields: &mut ByteRecord,
    plan: &Plan,
    rows: &R,
) -> Result<(), PrintFault>
    requires before { IsBetween writer.old }
    requires shown { HasFields plan.now (R.rows rows.now) }
    ensures { OnOk result (Appends (text_written W.contents writer.old)
        (text_written W.contents writer.new)
        (rows_text plan.now (R.rows rows.now))) }
{
    write_header(writer, fields, plan.items.as_slice())?;
    for k in 0..rows.len() {
        write_row(writer, fields, rows, k)?;
    }
    Ok(())
}

/// `fields` is room for the fields of one record.
fn write_header<W: Write + Drop>(
    writer: &mut Writer<W>,
    fields: &mut ByteRecord,
    items: &[Item],
) -> Result<(), PrintFault>
    requires before { IsBetween writer.old }
    requires shown { items.now ≢ [] }
    ensures behind { OnOk result (IsBetween writer.new) }
    ensures text { OnOk result
        (Appends (text_written W.contents writer.old) (text_written W.contents writer.new)
        (record_text (map (λ i. i.header) items.now))) }
{
    fill_with_headers(fields, items)?;
    write_record(writer, fields)?;
    Ok(())
}

/// `fields` is room for the fields of one record.
fn write_row<R: PrintableRows, W: Write + Drop>(
    writer: &mut Writer<W>,
    fields: &mut ByteRecord,
    rows: &R,
    at: usize,
) -> Result<(), PrintFault>
    requires before { IsBetween writer.old }
    requires within { at < length (R.rows rows.now) }
    requires shown { get_or (R.rows rows.now) at [] ≢ [] }
    ensures behind { OnOk result (IsBetween writer.new) }
    ensures text { OnOk result
        (Appends (text_written W.contents writer.old) (text_written W.contents writer.new)
        (record_text (map value_text (get_or (R.rows rows.now) at [])))) }
{
    rows.fill(fields, at)?;
    write_record(writer, fields)?;
    Ok(())
}

fn write_record<W: Write + Drop>(
    writer: &mut Writer<W>,
    fields: &ByteRecord,
) -> Result<(), csv::Error>
    requires before { IsBetween writer.old }
    requires shown { fields_of fields.now ≢ [] }
    ensures behind { OnOk result (IsBetween writer.new) }
    ensures text { OnOk result
        (Appends (text_written W.contents writer.old) (text_written W.contents writer.new)
        (record_text (fields_of fields.now))) }
{
    writer.write_byte_record(fields)
}

fn fill_with_headers(fields: &mut ByteRecord, items: &[Item]) -> Result<(), AllocError>
    ensures { OnOk result (fields_of fields.new ≡ map (λ i. i.header) items.now) }
{
    fields.clear();
    for item in items {
        fields.push_field(item.header.as_bytes())?;
    }
    Ok(())
}
