//! A block in bytes that stand elsewhere.
ghost use Rattle.std.specs.Prelude.{◌≡◌, ◌<◌, true, false, slice_index_or, take, drop, sum, MatchOption, IfSome};
ghost use Rattle.meaning.specs.Order.{value_in, value_cmp, is_ascending};
ghost use Rattle.meaning.specs.declared.value.Value.TheVariants.{Null};
ghost use Rattle.blocks.specs.Block.{Block, is_block, mask_of, body_of, nulls_of, values_of};
ghost use Rattle.blocks.specs.DictionaryView.{dictionary_in, coded_cells};
ghost use Rattle.blocks.specs.RunsView.{runs_in, run_cells};
ghost use Rattle.blocks.specs.Block.{StandsFor};
ghost use Rattle.meaning.specs.declared.value.ColType.TheVariants as of_type;

use crate::block_rows::{Parts, read_ints, read_rows};
use crate::cells::{are_nulls_blank, cell_at, is_body, mask_length};
use crate::dictionary::view::{DictionaryView, lend_dictionary};
use crate::int_buf::IntBuf;
use crate::kind::Kind;
use crate::runs::view::{RunsView, lend_runs};
use crate::vector_buf::VectorBuf;
use bit_packing::{has_bit, is_mask};
use meaning::{ColType, ROW_GROUP_ROWS, ValueRef};
use std::marker::Model;

/// A block whose bytes were found to be well formed. The bytes stand elsewhere. Contracts see the
/// block.
#[derive(Drop)]
pub struct BlockView<'a> {
    kind: Kind,
    col_type: ColType,
    nullable: bool,
    rows: usize,
    payload: &'a [u8],
}

impl<'a> Model for BlockView<'a> {
    ghost use Rattle.std.specs.Prelude.{◌≡◌, true};
    ghost use Rattle.blocks.specs.Block.{Block, is_block};

    ghost Value = { Block };

    ghost view = { λ b. record {
      kind = b.kind;
      col_type = b.col_type;
      nullable = b.nullable;
      rows = b.rows;
      payload = b.payload.now;
    } };

    ghost invariant = { λ b. is_block
        (record {
          kind = b.kind;
          col_type = b.col_type;
          nullable = b.nullable;
          rows = b.rows;
          payload = b.payload.now;
        }) ≡ true };
}

fn is_block(kind: Kind, col_type: ColType, nullable: bool, rows: usize, payload: &[u8]) -> bool
    ensures { result ≡ is_block
        (record {
          kind = kind;
          col_type = col_type;
          nullable = nullable;
          rows = rows;
          payload = payload.now;
        }) }
{
    if rows < 1 {
        return false;
    }
    if ROW_GROUP_ROWS < rows {
        return false;
    }
    let masked = mask_length(nullable, rows);
    if payload.len() < masked {
        return false;
    }
    let (mask, body) = payload.split_at(masked);
    if !is_mask(rows, mask) {
        return false;
    }
    if !is_body(kind, col_type, rows, body) {
        return false;
    }
    are_nulls_blank(kind, col_type, nullable, rows, mask, body)
}

impl<'a> BlockView<'a> {
    /// The view of a payload, where its bytes are a block of that kind, type and number of rows.
    /// Takes no memory.
    pub fn new(
        kind: Kind,
        col_type: ColType,
        nullable: bool,
        rows: usize,
        payload: &'a [u8],
    ) -> Option<BlockView<'a>>
        ensures { let b : Block = record {
          kind = kind;
          col_type = col_type;
          nullable = nullable;
          rows = rows;
          payload = payload.entry.now;
        } in
            MatchOption result (is_block b ≡ false) (λ view. (view ≡ b) × (is_block b ≡ true)) }
    {
        if !is_block(kind, col_type, nullable, rows, payload) {
            return None;
        }
        Some(BlockView::new_unchecked(kind, col_type, nullable, rows, payload))
    }

    /// The same for bytes that are known to be a block, such as those of a file that was opened.
    /// Looks at none of them.
    pub fn new_unchecked(
        kind: Kind,
        col_type: ColType,
        nullable: bool,
        rows: usize,
        payload: &'a [u8],
    ) -> BlockView<'a>
        requires { is_block (record {
          kind = kind;
          col_type = col_type;
          nullable = nullable;
          rows = rows;
          payload = payload.now;
        }) ≡ true }
        ensures { result ≡ record {
          kind = kind;
          col_type = col_type;
          nullable = nullable;
          rows = rows;
          payload = payload.entry.now;
        } }
    {
        BlockView {
            kind,
            col_type,
            nullable,
            rows,
            payload,
        }
    }

    /// The same view again. Takes no memory.
    pub fn copy(&self) -> BlockView<'a>
        ensures { result ≡ self.now }
    {
        BlockView {
            kind: self.kind,
            col_type: self.col_type,
            nullable: self.nullable,
            rows: self.rows,
            payload: self.payload,
        }
    }

    /// How the bytes encode the values.
    pub fn kind(&self) -> Kind
        ensures { result ≡ self.now.kind }
    {
        self.kind
    }

    /// The type of the values.
    pub fn col_type(&self) -> ColType
        ensures { result ≡ self.now.col_type }
    {
        self.col_type
    }

    /// Whether the column may have NULL, so that the payload begins with a mask.
    pub fn nullable(&self) -> bool
        ensures { result ≡ self.now.nullable }
    {
        self.nullable
    }

    /// The number of rows, 1 to 8,192.
    pub fn len(&self) -> usize
        ensures value { result ≡ self.now.rows }
        ensures sound { is_block self.now ≡ true }
    {
        self.rows
    }

    /// The mask and the body.
    pub fn payload(&self) -> &'a [u8]
        ensures { result.now ≡ self.now.payload }
    {
        self.payload
    }

    /// Fills the buffer anew with the values from row `from` on, as many as it has room for or as
    /// are left. It takes this column's type, and no memory.
    pub fn read_into(&self, from: usize, out: &mut VectorBuf<'a>)
        ensures { out.new ≡ record {
          room = out.old.room;
          col_type = self.now.col_type;
          values = take out.old.room (drop from (values_of self.now));
        } }
    {
        let block = Parts {
            kind: self.kind,
            col_type: self.col_type,
            nullable: self.nullable,
            rows: self.rows,
            payload: self.payload,
        };
        read_rows(block, from, out);
    }

    /// The same, where the values are integers. What they are read into borrows nothing.
    pub fn read_ints_into(&self, from: usize, out: &mut IntBuf)
        requires { self.now.col_type ≡ of_type.Int }
        ensures { out.new ≡ record {
          room = out.old.room;
          col_type = of_type.Int;
          values = take out.old.room (drop from (values_of self.now));
        } }
    {
        let block = Parts {
            kind: self.kind,
            col_type: self.col_type,
            nullable: self.nullable,
            rows: self.rows,
            payload: self.payload,
        };
        read_ints(block, from, out);
    }

    fn mask(&self) -> &'a [u8]
        ensures { result.now ≡ mask_of self.now }
    {
        let payload = self.payload;
        &payload[..mask_length(self.nullable, self.rows)]
    }

    fn body(&self) -> &'a [u8]
        ensures { result.now ≡ body_of self.now }
    {
        let payload = self.payload;
        &payload[mask_length(self.nullable, self.rows)..]
    }

    /// Whether the value of a row is NULL.
    pub fn is_null(&self, row: usize) -> bool
        requires { row < self.now.rows }
        ensures value { result ≡ slice_index_or (nulls_of self.now) row false }
        ensures sound { is_block self.now ≡ true }
    {
        if !self.nullable {
            return false;
        }
        has_bit(self.mask(), row)
    }

    /// The value of a row. A text is lent from the payload. Takes no memory.
    pub fn get(&self, row: usize) -> ValueRef<'a>
        requires { row < self.now.rows }
        ensures { value_in result ≡ slice_index_or (values_of self.now) row Null }
    {
        if self.is_null(row) {
            return ValueRef::Null;
        }
        cell_at(self.kind, self.col_type, self.rows, self.body(), row)
    }

    /// The entries and the codes, where the block is a dictionary. A row that isn't NULL has the
    /// entry at its code.
    pub fn dictionary(&self) -> Option<DictionaryView<'a>>
        ensures lent { MatchOption result (¬ (self.now.kind ≡ Kind.Dict))
            (λ dictionary. (self.now.kind ≡ Kind.Dict) × (dictionary ≡ dictionary_in self.now)) }
        ensures values { IfSome result (λ dictionary. StandsFor self.now (coded_cells dictionary)) }
        ensures ascending { IfSome result (λ dictionary. is_ascending value_cmp dictionary.entries
            ≡ true) }
    {
        match self.kind {
            Kind::Dict => Some(lend_dictionary(self.col_type, self.rows, self.body())),
            _ => None,
        }
    }

    /// The runs, where the block is made of such. A row that isn't NULL has the value of its run.
    pub fn runs(&self) -> Option<RunsView<'a>>
        ensures lent { MatchOption result (¬ (self.now.kind ≡ Kind.Runs))
            (λ runs. (self.now.kind ≡ Kind.Runs) × (runs ≡ runs_in self.now)) }
        ensures values { IfSome result (λ runs. StandsFor self.now (run_cells runs)) }
        ensures all_rows { IfSome result (λ runs. sum runs.lengths ≡ self.now.rows) }
    {
        match self.kind {
            Kind::Runs => Some(lend_runs(self.col_type, self.rows, self.body())),
            _ => None,
        }
    }
}
