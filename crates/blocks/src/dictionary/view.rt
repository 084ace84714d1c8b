//! The dictionary that a block lends.
ghost use Rattle.std.specs.Prelude.{◌≡◌, ◌+◌, ◌-◌, ◌*◌, ◌<◌, ◌≤◌, true, length, drop, slice_index_or, slice_index};
ghost use Rattle.meaning.specs.Order.{value_in};
ghost use Rattle.meaning.specs.declared.value.Value.TheVariants.{Null};
ghost use Rattle.blocks.specs.Dictionary.{is_dictionary, dictionary_cells, entry_bytes};
ghost use Rattle.blocks.specs.DictionaryView.{dictionary_of};

use crate::numbers::leading_count;
use crate::plain::values::value_at;
use bit_packing::short_at;
use meaning::{ColType, ValueRef};
use std::marker::Model;

/// The entries of a dictionary, and the code of each row: which entry it has. Contracts see both
/// lists.
#[derive(Drop)]
pub struct DictionaryView<'a> {
    col_type: ColType,
    count: usize,
    entries: &'a [u8],
    rows: usize,
    codes: &'a [u8],
}

impl<'a> Model for DictionaryView<'a> {
    ghost use Rattle.blocks.specs.Plain.{values_form};
    ghost use Rattle.bit_packing.specs.Bytes.{shorts};
    ghost use Rattle.blocks.specs.DictionaryView.{DictionarySpec, IsDictionaryOf};

    ghost Value = { DictionarySpec };

    ghost view = { λ d. record {
      entries = values_form d.col_type d.count d.entries.now;
      codes = shorts d.rows d.codes.now;
    } };

    ghost invariant = { λ d. IsDictionaryOf d.col_type d.count d.entries.now d.rows d.codes.now };
}

/// The bytes of the entries.
pub fn entry_bytes(rows: usize, body: &[u8]) -> &[u8]
    requires { 4 + 2 * rows ≤ length body.now }
    ensures { result.now ≡ entry_bytes rows body.now }
{
    let front = &body[..body.len() - 2 * rows];
    &front[4..]
}

/// The bytes of the codes.
pub fn code_bytes(rows: usize, body: &[u8]) -> &[u8]
    requires { 2 * rows ≤ length body.now }
    ensures { result.now ≡ drop (length body.now - 2 * rows) body.now }
{
    &body[body.len() - 2 * rows..]
}

/// What stands in the cell of a row.
pub fn dictionary_cell(col_type: ColType, rows: usize, body: &[u8], row: usize) -> ValueRef<'_>
    requires form { is_dictionary col_type rows body.now ≡ true }
    requires within { row < rows }
    ensures { value_in result ≡ slice_index_or (dictionary_cells col_type rows body.now) row Null }
{
    let code = short_at(code_bytes(rows, body), row) as usize;
    value_at(col_type, leading_count(body), entry_bytes(rows, body), code)
}

/// The dictionary that a body is.
pub fn lend_dictionary(col_type: ColType, rows: usize, body: &[u8]) -> DictionaryView<'_>
    requires { is_dictionary col_type rows body.now ≡ true }
    ensures { result ≡ dictionary_of col_type rows body.now }
{
    DictionaryView {
        col_type,
        count: leading_count(body),
        entries: entry_bytes(rows, body),
        rows,
        codes: code_bytes(rows, body),
    }
}

impl<'a> DictionaryView<'a> {
    /// The number of entries.
    pub fn len(&self) -> usize
        ensures { result ≡ length self.now.entries }
    {
        self.count
    }

    /// An entry. The entries ascend.
    pub fn entry(&self, index: usize) -> ValueRef<'a>
        requires { index < length self.now.entries }
        ensures { value_in result ≡ slice_index_or self.now.entries index Null }
    {
        value_at(self.col_type, self.count, self.entries, index)
    }

    /// The code of a row: which entry it has.
    pub fn code(&self, row: usize) -> u16
        requires { row < length self.now.codes }
        ensures value { result ≡ slice_index self.now.codes row }
        ensures known { result < length self.now.entries }
    {
        short_at(self.codes, row)
    }
}
