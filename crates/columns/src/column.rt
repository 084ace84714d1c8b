//! A column: values of one type, row by row.
ghost use Rattle.std.specs.Prelude.{◌≡◌, ◌≢◌, ◌<◌, [], ◌∷◌, ◌++◌, length, map, slice_index_or, vec_len, if◌then◌else◌, true, Some, None, IfOk, OnOk, OnErr, IfErr, IfSome, IsSome, ◌↔◌};
ghost use Rattle.std.specs.Str.{is_utf8};
ghost use Rattle.std.specs.Vec.{vec_capacity};
ghost use Rattle.meaning.specs.declared.value.ColType.TheVariants as of_type;
ghost use Rattle.meaning.specs.declared.value.Value.TheVariants.{Null, Int, Text};
ghost use Rattle.meaning.specs.Order.{value_in, number, bytes, is_null};
ghost use Rattle.columns.specs.Column.{with_value, refusal, IsColumn};
ghost use Rattle.columns.specs.Lent.{AreLent};
ghost use Rattle.columns.specs.declared.fault.ColumnFault.TheVariants.{Memory};

use crate::cells::Cells;
use crate::fault::ColumnFault;
use crate::text_list::TextList;
use meaning::{ColType, Value, ValueRef};
use std::alloc::{AllocError, Global};
use std::marker::Model;

/// Values of one type, row by row. Contracts see its type, whether NULL may stand in it, and the
/// list of its values.
#[derive(Drop)]
pub struct Column {
    cells: Cells,
    nullable: bool,
    // One for each row; empty in a column that isn't nullable.
    nulls: Vec<bool>,
}

/// The cells of a column, lent. A NULL row's is 0 or the empty text.
#[derive(Clone, Copy)]
pub enum LentCells<'a> {
    Ints(&'a [i64]),
    Texts(&'a TextList),
}

impl Model for Column {
    ghost use Rattle.columns.specs.Column.{ColumnSpec};
    ghost use Rattle.columns.specs.Cells.{AreCells, type_of, cells_in, values_in};

    ghost Value = { ColumnSpec };

    ghost view = { λ c. record {
      col_type = type_of c.cells;
      nullable = c.nullable;
      values = values_in c.nullable c.nulls.items (cells_in c.cells);
    } };

    ghost invariant = { λ c. AreCells (type_of c.cells) c.nullable c.nulls.items (cells_in c.cells)
        (values_in c.nullable c.nulls.items (cells_in c.cells)) };
}

impl Column {
    /// A column of no row. Takes no memory.
    pub fn new(alloc: Global, col_type: ColType, nullable: bool) -> Column
        ensures { result ≡ record { col_type = col_type; nullable = nullable; values = [] } }
    {
        Column {
            cells: Cells::new(alloc, col_type),
            nullable,
            nulls: Vec::new(alloc),
        }
    }

    /// A column of no row, with room for so many rows. The bytes of texts take their room as they
    /// come.
    pub fn with_capacity(
        alloc: Global,
        col_type: ColType,
        nullable: bool,
        rows: usize,
    ) -> Result<Column, AllocError>
        ensures { IfOk result (λ column. column
            ≡ record { col_type = col_type; nullable = nullable; values = [] }) }
    {
        Ok(Column {
            cells: Cells::with_capacity(alloc, col_type, rows)?,
            nullable,
            nulls: Vec::with_capacity(alloc, if nullable { rows } else { 0 })?,
        })
    }

    /// An equal column, in memory of its own. No value is looked at.
    pub fn copy(&self, alloc: Global) -> Result<Column, AllocError>
        ensures { IfOk result (λ copy. copy ≡ self.now) }
    {
        let cells = self.cells.copy(alloc)?;
        let nulls = Vec::from_slice(alloc, self.nulls.as_slice())?;
        Ok(Column {
            cells,
            nullable: self.nullable,
            nulls,
        })
    }

    pub fn col_type(&self) -> ColType
        ensures { result ≡ self.now.col_type }
    {
        self.cells.col_type()
    }

    pub fn nullable(&self) -> bool
        ensures { result ≡ self.now.nullable }
    {
        self.nullable
    }

    /// How many rows it has.
    pub fn len(&self) -> usize
        ensures value { result ≡ length self.now.values }
        ensures column { IsColumn self.now }
    {
        self.cells.len()
    }

    /// Whether a row is NULL.
    pub fn is_null(&self, row: usize) -> bool
        requires { row < length self.now.values }
        ensures { result ≡ is_null (slice_index_or self.now.values row Null) }
    {
        self.nullable && self.nulls[row]
    }

    /// The value of a row, lent.
    pub fn get(&self, row: usize) -> ValueRef<'_>
        requires { row < length self.now.values }
        ensures { value_in result ≡ slice_index_or self.now.values row Null }
    {
        if self.is_null(row) {
            return ValueRef::Null;
        }
        self.cells.get(row)
    }

    /// The integers of an integer column, row by row. A NULL row's is 0.
    pub fn ints(&self) -> Option<&[i64]>
        ensures some { IsSome result ↔ (self.now.col_type ≡ of_type.Int) }
        ensures values { IfSome result (λ ints. ints.now ≡ map number self.now.values) }
        ensures column { IsColumn self.now }
    {
        match &self.cells {
            Cells::Ints(ints) => Some(ints.as_slice()),
            Cells::Texts(_) => None,
        }
    }

    /// The texts of a text column, row by row. A NULL row's is empty.
    pub fn texts(&self) -> Option<&TextList>
        ensures some { IsSome result ↔ (self.now.col_type ≡ of_type.Text) }
        ensures values { IfSome result (λ texts. texts.now ≡ map bytes self.now.values) }
        ensures column { IsColumn self.now }
    {
        match &self.cells {
            Cells::Ints(_) => None,
            Cells::Texts(texts) => Some(texts),
        }
    }

    /// The integers or the texts, by the type of the column.
    pub fn cells(&self) -> LentCells<'_>
        ensures cells { AreLent result self.now }
        ensures column { IsColumn self.now }
    {
        match &self.cells {
            Cells::Ints(ints) => LentCells::Ints(ints.as_slice()),
            Cells::Texts(texts) => LentCells::Texts(texts),
        }
    }

    /// Which rows of a nullable column are NULL.
    pub fn nulls(&self) -> Option<&[bool]>
        ensures some { IsSome result ↔ (self.now.nullable ≡ true) }
        ensures values { IfSome result (λ nulls. nulls.now ≡ map is_null self.now.values) }
        ensures column { IsColumn self.now }
    {
        if !self.nullable {
            return None;
        }
        Some(self.nulls.as_slice())
    }

    /// Puts an integer behind the last row. On an error nothing changes.
    pub fn push_int(&mut self, n: i64) -> Result<(), ColumnFault>
        ensures ok { OnOk result (self.new ≡ with_value self.old (Int n)) }
        ensures taken { OnOk result (refusal self.old.col_type self.old.nullable (Int n) ≡ None) }
        ensures err { OnErr result (self.new ≡ self.old) }
        ensures returned { IfErr result (λ f. f ≢ Memory
            → refusal self.old.col_type self.old.nullable (Int n) ≡ Some f) }
    {
        make_room(&mut self.nulls, self.nullable)?;
        self.cells.push_int(n)?;
        mark(&mut self.nulls, self.nullable, false);
        Ok(())
    }

    /// Puts a text behind the last row. On an error nothing changes.
    pub fn push_text(&mut self, text: &str) -> Result<(), ColumnFault>
        ensures ok { OnOk result (self.new ≡ with_value self.old (Text text.now)) }
        ensures taken { OnOk result (refusal self.old.col_type self.old.nullable (Text text.now)
            ≡ None) }
        ensures err { OnErr result (self.new ≡ self.old) }
        ensures returned { IfErr result (λ f. f ≢ Memory
            → refusal self.old.col_type self.old.nullable (Text text.now) ≡ Some f) }
    {
        self.push_utf8(text.as_bytes())
    }

    /// The same for bytes that are known to be UTF-8, such as those of a text of another column.
    pub fn push_utf8(&mut self, text: &[u8]) -> Result<(), ColumnFault>
        requires { is_utf8 text.now ≡ true }
        ensures ok { OnOk result (self.new ≡ with_value self.old (Text text.now)) }
        ensures taken { OnOk result (refusal self.old.col_type self.old.nullable (Text text.now)
            ≡ None) }
        ensures err { OnErr result (self.new ≡ self.old) }
        ensures returned { IfErr result (λ f. f ≢ Memory
            → refusal self.old.col_type self.old.nullable (Text text.now) ≡ Some f) }
    {
        make_room(&mut self.nulls, self.nullable)?;
        self.cells.push_text(text)?;
        mark(&mut self.nulls, self.nullable, false);
        Ok(())
    }

    /// Puts a NULL behind the last row. On an error nothing changes.
    pub fn push_null(&mut self) -> Result<(), ColumnFault>
        ensures ok { OnOk result (self.new ≡ with_value self.old Null) }
        ensures taken { OnOk result (refusal self.old.col_type self.old.nullable Null ≡ None) }
        ensures err { OnErr result (self.new ≡ self.old) }
        ensures returned { IfErr result (λ f. f ≢ Memory
            → refusal self.old.col_type self.old.nullable Null ≡ Some f) }
    {
        if !self.nullable {
            return Err(ColumnFault::NullNotAllowed);
        }
        make_room(&mut self.nulls, self.nullable)?;
        self.cells.push_blank()?;
        mark(&mut self.nulls, self.nullable, true);
        Ok(())
    }

    /// Puts a value behind the last row. On an error nothing changes.
    pub fn push(&mut self, value: Value) -> Result<(), ColumnFault>
        ensures ok { OnOk result (self.new ≡ with_value self.old value) }
        ensures taken { OnOk result (refusal self.old.col_type self.old.nullable value ≡ None) }
        ensures err { OnErr result (self.new ≡ self.old) }
        ensures returned { IfErr result (λ f. f ≢ Memory
            → refusal self.old.col_type self.old.nullable value ≡ Some f) }
    {
        match value {
            Value::Null => self.push_null(),
            Value::Int(n) => self.push_int(n),
            Value::Text(text) => self.push_text(text.as_str()),
        }
    }
}

/// Room for one more row in the mask.
fn make_room(nulls: &mut Vec<bool>, nullable: bool) -> Result<(), AllocError>
    ensures same { nulls.new.items ≡ nulls.old.items }
    ensures room { OnOk result (nullable ≡ true → vec_len nulls.new < vec_capacity nulls.new) }
{
    if nullable {
        nulls.reserve(1)?;
    }
    Ok(())
}

/// One more row in the mask, for which there is room.
fn mark(nulls: &mut Vec<bool>, nullable: bool, is_null: bool)
    requires { nullable ≡ true → vec_len nulls.old < vec_capacity nulls.old }
    ensures { nulls.new.items ≡ nulls.old.items ++ (if nullable then is_null ∷ [] else []) }
{
    if nullable {
        nulls.push_reserved(is_null);
    }
}
