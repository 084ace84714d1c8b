//! Records judged one after the other and put into columns.
ghost use Rattle.std.specs.Prelude.{◌≡◌, ◌-◌, slice_get, slice_index_or, [], ◌+◌, ◌<◌, ◌^◌, List, length, map, ℕ, Some, Ok, Err, IfOk, IfErr, OnOk, true, false};
ghost use Rattle.csv.specs.Records.{AllText, fields_of};
ghost use Rattle.meaning.specs.declared.value.Value.TheVariants.{Null};
ghost use Rattle.meaning.specs.declared.value.Value.TheVariants as of_value;
ghost use Rattle.meaning.specs.Records.{Record};
ghost use Rattle.meaning.specs.Records as records;
ghost use Rattle.columns.specs.Rows.{columns_of};
ghost use Rattle.loader.specs.Columns.{AreAtMost, AreDeclared, AreRowsOf, HaveMore, last_in, no_rows, row_counts};
ghost use Rattle.loader.specs.Fault.{IsOutside};
ghost use Rattle.loader.specs.Keys.{HoldsKeys};
ghost use Rattle.loader.specs.Source.{IsLeft, csv_records};
ghost use Rattle.loader.specs.Steps.{Opens, IsFaultOf, IsOrderOf, TakesAll, TakesTable, is_more, keyed_rows, TakesFragment, TakesNextRow, TakesRow, TakesRows};

use crate::fault::LoadFault;
use crate::field::Parsed;
use crate::header::{FileOrder, field_at, order_of};
use crate::in_order::take_fields;
use crate::keys::Keys;
use crate::record::{judge_fields, judge_texts};
use crate::rows::push_row;
use crate::source::{csv_reader, next_record};
use columns::Column;
use csv::{ByteRecord, Reader};
use meaning::{Column as Declared, Sequence, TableFault, Value, text_of};
use std::alloc::{AllocError, Global};
use std::io::Read;
use std::mem::drop;

/// The most rows that a column has room for at its beginning.
const MOST_ROOM: usize = 262_144;

fn new_column(alloc: Global, declared: &Declared, rows: usize) -> Result<Column, AllocError>
    ensures { IfOk result (λ column. column ≡ no_rows declared.now) }
{
    Column::with_capacity(alloc, declared.col_type, declared.nullable, rows)
}

fn no_columns(alloc: Global, declared: &[Declared], rows: usize) -> Result<Vec<Column>, AllocError>
    ensures { IfOk result (λ columns. columns.items ≡ map no_rows declared.now) }
{
    let mut columns = Vec::with_capacity(alloc, declared.len())?;
    for column in declared {
        columns.push(new_column(alloc, column, rows)?)?;
    }
    Ok(columns)
}

/// Columns without rows, as they are declared, with room for about so many.
#[tactic(auto, using(crate::proofs::Tables::no_rows_of))]
pub fn new_columns(
    alloc: Global,
    declared: &[Declared],
    rows: usize,
) -> Result<Vec<Column>, AllocError>
    ensures { IfOk result (λ columns. columns.items ≡ columns_of declared.now []) }
{
    no_columns(alloc, declared, rows.min(MOST_ROOM))
}

/// The value of the last row, and NULL where there is none.
fn last_value(alloc: Global, column: &Column) -> Result<Value, AllocError>
    ensures { IfOk result (λ v. v
        ≡ slice_index_or column.now.values (length column.now.values - 1) Null) }
{
    if column.len() == 0 {
        return Ok(Value::Null);
    }
    column.get(column.len() - 1).to_value(alloc)
}

/// The value of the last row in a column, and NULL where there is no such column.
fn last_key(alloc: Global, columns: &[Column], key: usize) -> Result<Value, AllocError>
    ensures { IfOk result (λ v. v ≡ last_in (slice_get columns.now key)) }
{
    match columns.get(key) {
        Some(column) => last_value(alloc, column),
        None => Ok(Value::Null),
    }
}

/// Judges a record of texts, and puts its row behind the last rows. `parsed` is room that is used
/// again.
pub fn load_record(
    declared: &[Declared],
    order: &FileOrder,
    row: u64,
    fields: &ByteRecord,
    parsed: &mut Vec<Parsed>,
    columns: &mut [Column],
) -> Result<(), LoadFault>
    requires columns { AreDeclared declared.now columns.old }
    requires order { IsOrderOf declared.now order.now.columns.items }
    requires texts { AllText (fields_of fields.now) }
    ensures { TakesRow (records.row_of declared.now order.now.columns.items row
        (fields_of fields.now)) columns.old columns.new result }
{
    if fields.len() != declared.len() {
        return Err(LoadFault::Table(TableFault::FieldCount { row }));
    }
    if order.in_order {
        return take_fields(declared, row, fields, columns);
    }
    judge_texts(declared, &order.columns, row, fields, parsed)?;
    push_row(columns, order, parsed, fields)
}

/// Whether a record is of ASCII alone.
fn is_ascii(fields: &ByteRecord) -> bool
    ensures { result ≡ true → AllText (fields_of fields.now) }
{
    fields.as_slice().is_ascii()
}

fn is_each_text(fields: &ByteRecord) -> bool
    ensures { result ≡ true → AllText (fields_of fields.now) }
{
    for i in 0..fields.len() {
        let Some(field) = field_at(fields, i) else {
            unreachable!()
        };
        if text_of(field).is_none() {
            return false;
        }
    }
    true
}

/// Refuses a record of which some field is no text, by its first fault. Most records are of ASCII
/// alone, so that their fields need no look one by one.
fn check_texts(
    declared: &[Declared],
    order: &FileOrder,
    row: u64,
    fields: &ByteRecord,
    parsed: &mut Vec<Parsed>,
) -> Result<(), LoadFault>
    requires { IsOrderOf declared.now order.now.columns.items }
    ensures texts { OnOk result (AllText (fields_of fields.now)) }
    ensures refused { IfErr result
        (IsFaultOf (records.row_of declared.now order.now.columns.items row
        (fields_of fields.now))) }
{
    if is_ascii(fields) || is_each_text(fields) {
        return Ok(());
    }
    if fields.len() != declared.len() {
        return Err(LoadFault::Table(TableFault::FieldCount { row }));
    }
    judge_fields(declared, &order.columns, row, fields, parsed)
}

/// The records of a file, on their way into columns.
#[derive(Drop)]
pub struct Rows<'c, R> {
    alloc: Global,
    reader: Reader<R>,
    declared: &'c [Declared],
    order: FileOrder,
    // Room that is used again from record to record.
    fields: ByteRecord,
    parsed: Vec<Parsed>,
    ghost order_is: { IsOrderOf declared.now order.columns.items },
}

/// The order of the columns that the first record names.
fn read_header<R: Read>(
    alloc: Global,
    declared: &[Declared],
    reader: &mut Reader<R>,
    fields: &mut ByteRecord,
) -> Result<FileOrder, LoadFault>
    ensures declared { IfOk result (λ order. IsOrderOf declared.now order.columns.items) }
    ensures opened { (rest : List Record) → IsLeft R.remaining reader.old rest
        → Opens (λ order. order.columns.items) (λ _. reader.new) R.remaining declared.now rest
        result }
{
    if !next_record(reader, fields)? {
        return Err(LoadFault::Table(TableFault::Header));
    }
    order_of(alloc, declared, fields)
}

/// The records behind the header of a file, whose columns are declared so.
pub fn open_rows<R: Read + Drop>(
    alloc: Global,
    declared: &[Declared],
    reader: R,
) -> Result<Rows<'_, R>, LoadFault>
    ensures declared { IfOk result (λ rows. (rows.declared.now ≡ declared.now)
        × (length declared.now ≡ length rows.order.columns.items)) }
    ensures opened { (bytes : List ℕ) → R.remaining reader ≡ Some bytes
        → Opens (λ rows. rows.order.columns.items) (λ rows. rows.reader) R.remaining declared.now
        (csv_records bytes) result }
{
    let mut reader = csv_reader(alloc, reader);
    let mut fields = ByteRecord::new(alloc);
    match read_header(alloc, declared, &mut reader, &mut fields) {
        Ok(order) => Ok(Rows {
            alloc,
            reader,
            declared,
            order,
            fields,
            parsed: Vec::new(alloc),
        }),
        Err(fault) => {
            drop(reader);
            drop(fields);
            Err(fault)
        }
    }
}

impl<R: Read> Rows<'_, R> {
    /// Puts the row of the record that was read behind the last rows.
    fn take_record(&mut self, row: u64, columns: &mut [Column]) -> Result<(), LoadFault>
        requires { AreDeclared self.old.declared.now columns.old }
        ensures declared { self.new.declared.now ≡ self.old.declared.now }
        ensures kept { OnOk result (AreDeclared self.old.declared.now columns.new) }
        ensures longer { OnOk result
            (row_counts columns.new ≡ map (λ n. n + 1) (row_counts columns.old)) }
        ensures order { self.new.order ≡ self.old.order }
        ensures reader { self.new.reader ≡ self.old.reader }
        ensures taken { TakesRow
            (records.row_of self.old.declared.now self.old.order.columns.items row
            (fields_of self.old.fields)) columns.old columns.new result }
    {
        check_texts(
            self.declared,
            &self.order,
            row,
            &self.fields,
            &mut self.parsed,
        )?;
        load_record(
            self.declared,
            &self.order,
            row,
            &self.fields,
            &mut self.parsed,
            columns,
        )
    }

    /// Puts the next record's row behind the last rows, if there is a next record.
    fn next_row(&mut self, row: u64, columns: &mut [Column]) -> Result<bool, LoadFault>
        requires { AreDeclared self.old.declared.now columns.old }
        ensures declared { self.new.declared.now ≡ self.old.declared.now }
        ensures kept { OnOk result (AreDeclared self.old.declared.now columns.new) }
        ensures longer { IfOk result (λ found. found ≡ true
            → row_counts columns.new ≡ map (λ n. n + 1) (row_counts columns.old)) }
        ensures same { IfOk result (λ found. found ≡ false → columns.new ≡ columns.old) }
        ensures order { self.new.order ≡ self.old.order }
        ensures taken { (rest : List Record) → IsLeft R.remaining self.old.reader rest
            → TakesNextRow R.remaining self.old.declared.now self.old.order.columns.items row rest
            columns.old columns.new self.new.reader result }
    {
        if !next_record(&mut self.reader, &mut self.fields)? {
            return Ok(false);
        }
        self.take_record(row, columns)?;
        Ok(true)
    }

    /// Puts the rows of so many records behind the last rows. Rows count from `first`.
    fn next_rows(&mut self, first: u64, count: u32, columns: &mut [Column]) -> Result<(), LoadFault>
        requires columns { AreDeclared self.old.declared.now columns.old }
        requires numbers { first + count < 2 ^ 64 }
        ensures declared { self.new.declared.now ≡ self.old.declared.now }
        ensures order { self.new.order ≡ self.old.order }
        ensures kept { OnOk result (AreDeclared self.old.declared.now columns.new) }
        ensures longer { OnOk result
            (row_counts columns.new ≡ map (λ n. n + count) (row_counts columns.old)) }
        ensures taken { (rest : List Record) → IsLeft R.remaining self.old.reader rest
            → TakesRows R.remaining self.old.declared.now self.old.order.columns.items first count
            rest columns.old columns.new self.new.reader result }
    {
        for i in 0..count {
            if !self.next_row(first + u64::from(i), columns)? {
                return Err(LoadFault::Table(TableFault::TooFewRows));
            }
        }
        Ok(())
    }

    /// The columns of a fragment, made of the next records. Rows count from `first`.
    pub fn fragment(
        &mut self,
        alloc: Global,
        first: u64,
        count: u32,
    ) -> Result<Sequence<Column>, LoadFault>
        requires numbers { first + count < 2 ^ 64 }
        ensures declared { self.new.declared.now ≡ self.old.declared.now }
        ensures order { self.new.order ≡ self.old.order }
        ensures rows { IfOk result (AreRowsOf self.old.declared.now count) }
        ensures taken { (rest : List Record) → IsLeft R.remaining self.old.reader rest
            → TakesFragment R.remaining self.old.declared.now self.old.order.columns.items first
            count rest self.new.reader result }
    {
        let mut columns = new_columns(alloc, self.declared, count as usize)?;
        self.next_rows(first, count, &mut columns)?;
        Ok(Sequence::from_vec(columns))
    }

    /// Whether there is a record more, which is then passed over.
    pub fn has_more(&mut self) -> Result<bool, LoadFault>
        ensures declared { self.new.declared.now ≡ self.old.declared.now }
        ensures found { IfOk result (λ found. (rest : List Record)
            → IsLeft R.remaining self.old.reader rest → found ≡ is_more rest) }
        ensures refused { IfErr result IsOutside }
    {
        next_record(&mut self.reader, &mut self.fields)
    }

    /// Puts the rows of all records behind the last rows, and their keys into `keys`.
    fn add_keyed_rows(
        &mut self,
        alloc: Global,
        key: usize,
        most: u64,
        keys: &mut Keys,
        columns: &mut [Column],
    ) -> Result<(), LoadFault>
        requires columns { AreDeclared self.old.declared.now columns.old }
        requires none { HoldsKeys keys.old.present [] }
        ensures kept { OnOk result (AreDeclared self.old.declared.now columns.new) }
        ensures longer { OnOk result (HaveMore most columns.old columns.new) }
        ensures taken { (rest : List Record) → IsLeft R.remaining self.old.reader rest
            → TakesAll self.old.declared.now self.old.order.columns.items key most rest columns.old
            columns.new result }
    {
        for row in 0..most {
            if !self.next_row(row, columns)? {
                return Ok(());
            }
            if !keys.insert(last_key(alloc, columns, key)?)? {
                return Err(LoadFault::Table(TableFault::KeyTwice { row }));
            }
        }
        if self.has_more()? {
            return Err(LoadFault::Table(TableFault::TooManyRows));
        }
        Ok(())
    }

    /// Puts the rows of all records behind the last rows. No two rows have the same key, unless it
    /// is NULL, and there are at most `most` rows.
    pub fn keyed_rows(
        &mut self,
        alloc: Global,
        key: usize,
        most: u64,
        columns: &mut [Column],
    ) -> Result<(), LoadFault>
        requires { AreDeclared self.old.declared.now columns.old }
        ensures kept { OnOk result (AreDeclared self.old.declared.now columns.new) }
        ensures longer { OnOk result (HaveMore most columns.old columns.new) }
        ensures taken { (rest : List Record) → IsLeft R.remaining self.old.reader rest
            → TakesAll self.old.declared.now self.old.order.columns.items key most rest columns.old
            columns.new result }
    {
        let mut keys = Keys::new(alloc);
        let added = self.add_keyed_rows(alloc, key, most, &mut keys, columns);
        drop(keys);
        added
    }

    /// The columns of all records, of which no two have the same key, and of which there are at
    /// most `most`.
    pub fn keyed_columns(
        &mut self,
        alloc: Global,
        key: usize,
        most: u64,
    ) -> Result<Sequence<Column>, LoadFault>
        requires { length self.old.declared.now ≡ length self.old.order.columns.items }
        ensures rows { IfOk result (AreAtMost self.old.declared.now most) }
        ensures taken { (rest : List Record) → IsLeft R.remaining self.old.reader rest
            → TakesTable self.old.declared.now
            (keyed_rows self.old.declared.now self.old.order.columns.items key most rest) result }
    {
        let mut columns = new_columns(alloc, self.declared, 0)?;
        self.keyed_rows(alloc, key, most, &mut columns)?;
        Ok(Sequence::from_vec(columns))
    }
}
