//! A cell for each row of a column. A NULL row's cell is 0 or the empty text.
ghost use Rattle.std.specs.Prelude.{◌≡◌, ◌≢◌, ◌<◌, [], ◌∷◌, ◌++◌, length, slice_index_or, pos, Some, None, true, IfOk, OnOk, OnErr, IfErr};
ghost use Rattle.std.specs.Str.{is_utf8};
ghost use Rattle.meaning.specs.declared.value.Value.TheVariants.{Null, Int, Text};
ghost use Rattle.meaning.specs.Order.{value_in};
ghost use Rattle.columns.specs.Cells.{type_of, cells_in, blank};
ghost use Rattle.columns.specs.Column.{refusal};
ghost use Rattle.columns.specs.declared.fault.ColumnFault.TheVariants.{Memory};

use crate::fault::ColumnFault;
use crate::text_list::TextList;
use meaning::{ColType, MAX_TEXT_BYTES, ValueRef};
use std::alloc::{AllocError, Global};

#[derive(Drop)]
pub enum Cells {
    Ints(Vec<i64>),
    Texts(TextList),
}

impl Cells {
    pub fn new(alloc: Global, col_type: ColType) -> Cells
        ensures col_type { type_of result ≡ col_type }
        ensures empty { cells_in result ≡ [] }
    {
        match col_type {
            ColType::Int => Cells::Ints(Vec::new(alloc)),
            ColType::Text => Cells::Texts(TextList::new(alloc)),
        }
    }

    pub fn with_capacity(alloc: Global, col_type: ColType, rows: usize) -> Result<Cells, AllocError>
        ensures col_type { IfOk result (λ cells. type_of cells ≡ col_type) }
        ensures empty { IfOk result (λ cells. cells_in cells ≡ []) }
    {
        match col_type {
            ColType::Int => Ok(Cells::Ints(Vec::with_capacity(alloc, rows)?)),
            ColType::Text => Ok(Cells::Texts(TextList::with_capacity(alloc, rows)?)),
        }
    }

    /// The same cells, in memory of their own.
    pub fn copy(&self, alloc: Global) -> Result<Cells, AllocError>
        ensures col_type { IfOk result (λ copy. type_of copy ≡ type_of self.now) }
        ensures cells { IfOk result (λ copy. cells_in copy ≡ cells_in self.now) }
    {
        match self {
            Cells::Ints(ints) => Ok(Cells::Ints(Vec::from_slice(alloc, ints.as_slice())?)),
            Cells::Texts(texts) => Ok(Cells::Texts(texts.copy(alloc)?)),
        }
    }

    pub fn col_type(&self) -> ColType
        ensures { result ≡ type_of self.now }
    {
        match self {
            Cells::Ints(_) => ColType::Int,
            Cells::Texts(_) => ColType::Text,
        }
    }

    pub fn len(&self) -> usize
        ensures { result ≡ length (cells_in self.now) }
    {
        match self {
            Cells::Ints(ints) => ints.len(),
            Cells::Texts(texts) => texts.len(),
        }
    }

    pub fn get(&self, row: usize) -> ValueRef<'_>
        requires { row < length (cells_in self.now) }
        ensures { value_in result ≡ slice_index_or (cells_in self.now) row Null }
    {
        match self {
            Cells::Ints(ints) => ValueRef::Int(ints[row]),
            Cells::Texts(texts) => ValueRef::Text(texts.get(row)),
        }
    }

    pub fn push_int(&mut self, n: i64) -> Result<(), ColumnFault>
        ensures col_type { type_of self.new ≡ type_of self.old }
        ensures ok { OnOk result (cells_in self.new ≡ cells_in self.old ++ Int n ∷ []) }
        ensures taken { OnOk result (refusal (type_of self.old) true (Int n) ≡ None) }
        ensures err { OnErr result (cells_in self.new ≡ cells_in self.old) }
        ensures returned { IfErr result (λ f. f ≢ Memory
            → refusal (type_of self.old) true (Int n) ≡ Some f) }
    {
        match self {
            Cells::Ints(ints) => {
                ints.push(n)?;
                Ok(())
            }
            Cells::Texts(_) => Err(ColumnFault::WrongType),
        }
    }

    /// Puts the bytes of a text behind the last cell.
    pub fn push_text(&mut self, text: &[u8]) -> Result<(), ColumnFault>
        requires { is_utf8 text.now ≡ true }
        ensures col_type { type_of self.new ≡ type_of self.old }
        ensures ok { OnOk result (cells_in self.new ≡ cells_in self.old ++ Text text.now ∷ []) }
        ensures taken { OnOk result (refusal (type_of self.old) true (Text text.now) ≡ None) }
        ensures err { OnErr result (cells_in self.new ≡ cells_in self.old) }
        ensures returned { IfErr result (λ f. f ≢ Memory
            → refusal (type_of self.old) true (Text text.now) ≡ Some f) }
    {
        match self {
            Cells::Ints(_) => Err(ColumnFault::WrongType),
            Cells::Texts(texts) => {
                if text.len() > MAX_TEXT_BYTES {
                    return Err(ColumnFault::TextTooLong);
                }
                texts.push(text)?;
                Ok(())
            }
        }
    }

    /// Puts the cell of a NULL row behind the last.
    pub fn push_blank(&mut self) -> Result<(), AllocError>
        ensures col_type { type_of self.new ≡ type_of self.old }
        ensures ok { OnOk result (cells_in self.new ≡ cells_in self.old ++ blank (type_of self.old)
            ∷ []) }
        ensures err { OnErr result (cells_in self.new ≡ cells_in self.old) }
    {
        match self {
            Cells::Ints(ints) => {
                ints.push(0)?;
                Ok(())
            }
            Cells::Texts(texts) => texts.push("".as_bytes()),
        }
    }
}
