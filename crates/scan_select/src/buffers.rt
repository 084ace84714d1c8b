//! The columns that a scan reads, and the room in which they are lent as vectors.
ghost use Rattle.std.specs.Prelude.{◌≡◌, ◌<◌, ◌≤◌, ◌+◌, ℕ, false, List, [], ◌∷◌, length, map, take, drop, get_or, slice_index_or, All, OnOk, IfOk};
ghost use Rattle.meaning.specs.declared.outcome.Outcome.TheVariants as gives;
ghost use Rattle.meaning.specs.declared.value.ColType.TheVariants as of_type;
ghost use Rattle.blocks.specs.Block.{is_block, values_of};
ghost use Rattle.fragment_file.specs.Fragment.{no_block};
ghost use Rattle.fragment_file.specs.Lent.{blocks_in};
ghost use Rattle.scan_select.specs.Buffers.{FitsGroup, HasRoom, HasRows, IsBufferOf, IsLendable, IsRoomFor, columns_of, emptied, filled, filled_unless};
ghost use Rattle.scan_select.specs.Scanned.{AddsColumns, IsMask, unpacked};
ghost use Rattle.vectors.specs.Lanes.{nulls_of};
ghost use Rattle.vectors.specs.Vector.{outcomes_of, HasLanesOf};

use blocks::{BlockView, IntBuf, Lanes, VectorBuf};
use fragment_file::GroupView;
use meaning::{ColType, Column};
use std::alloc::{AllocError, Global};
use std::mem::drop;
use vectors::{
    Batch, BatchColumn, ColumnReference, IntCells, Ints, Nulls, TextCells, Texts, Vector,
};

/// What a scan keeps for a column: room for integers. Texts stand in the bytes of a row group, so
/// that each batch makes a list of its own of them.
#[derive(Drop)]
pub enum Room {
    Ints(IntBuf),
    Texts,
}

/// A column that a scan reads.
#[derive(Drop)]
pub struct ColumnBuffer {
    // The column's number in the header.
    pub(crate) column: usize,
    pub(crate) nullable: bool,
    pub(crate) room: Room,
    // Whether the room holds the vector that stands now.
    pub(crate) is_filled: bool,
}

/// Which lanes are NULL: none, where the column isn't nullable.
fn lent_nulls(nullable: bool, mask: &[bool]) -> Nulls<'_>
    requires { IsMask nullable mask.now }
    ensures { nulls_of (length mask.entry.now) result ≡ mask.entry.now }
{
    if nullable {
        return Nulls::Lent(mask);
    }
    Nulls::None
}

/// The same of a mask that is given up.
fn owned_nulls<'a>(nullable: bool, mask: Vec<bool>) -> Nulls<'a>
    requires { IsMask nullable mask.items }
    ensures { nulls_of (length mask.items) result ≡ mask.items }
{
    if nullable {
        return Nulls::Owned(mask);
    }
    drop(mask);
    Nulls::None
}

/// A block's values from row `first` on, as lanes in a list of their own.
fn owned_lanes<'a>(
    alloc: Global,
    block: &BlockView<'a>,
    first: usize,
    rows: usize,
) -> Result<Vector<'a>, AllocError>
    requires { HasRows first rows block.now }
    ensures values { IfOk result (λ v. outcomes_of v
        ≡ map gives.Value (take rows (drop first (values_of block.now)))) }
    ensures typed { IfOk result (λ v. HasLanesOf block.now.col_type v) }
{
    let mut values = VectorBuf::new(alloc, rows)?;
    block.read_into(first, &mut values);
    let (lanes, mask) = values.into_parts();
    let nulls = owned_nulls(block.nullable(), mask);
    match lanes {
        Lanes::Ints(ints) => Ok(Vector::Ints(Ints::new(IntCells::Owned(ints), nulls))),
        Lanes::Texts(texts) => Ok(Vector::Texts(Texts::new(TextCells::Owned(texts), nulls))),
    }
}

fn room_for(alloc: Global, col_type: ColType, most: usize) -> Result<Room, AllocError>
    ensures typed { IfOk result (λ r. IsRoomFor col_type r) }
    ensures room { IfOk result (λ r. HasRoom most r) }
{
    match col_type {
        ColType::Int => Ok(Room::Ints(IntBuf::new(alloc, most)?)),
        ColType::Text => Ok(Room::Texts),
    }
}

impl ColumnBuffer {
    /// Room for `most` values of a column of the header.
    fn new(
        alloc: Global,
        columns: &[Column],
        column: usize,
        most: usize,
    ) -> Result<ColumnBuffer, AllocError>
        requires { column < length columns.now }
        ensures column { IfOk result (λ b. b.column ≡ column) }
        ensures buffer { IfOk result (λ b. IsBufferOf columns.now most b) }
    {
        let declared = &columns[column];
        let room = room_for(alloc, declared.col_type, most)?;
        Ok(ColumnBuffer {
            column,
            nullable: declared.nullable,
            room,
            is_filled: false,
        })
    }

    /// Fills the room for integers anew with the column's values in a row group, from row `first` on.
    /// It takes no memory.
    fn fill(&mut self, group: &GroupView<'_>, first: usize)
        requires { FitsGroup (blocks_in group.now) self.old }
        ensures { self.new ≡ filled (blocks_in group.now) first self.old }
    {
        self.is_filled = true;
        match &mut self.room {
            Room::Ints(values) => {
                let block = group.column(self.column);
                block.read_ints_into(first, values);
            }
            Room::Texts => {}
        }
    }

    /// The same, unless the column is marked as packed.
    fn fill_unless(&mut self, packed: &[bool], group: &GroupView<'_>, first: usize)
        requires { FitsGroup (blocks_in group.now) self.old }
        ensures { self.new ≡ filled_unless packed.now (blocks_in group.now) first self.old }
    {
        if !is_marked(packed, self.column) {
            self.fill(group, first);
        }
    }

    /// What the room holds isn't the vector that stands now.
    fn empty(&mut self)
        ensures { self.new ≡ emptied self.old }
    {
        self.is_filled = false;
    }

    /// The column's values in a row group, from row `first` on, as lanes. No integer is copied where
    /// the room holds them.
    fn lanes<'s>(
        &'s self,
        alloc: Global,
        group: &GroupView<'s>,
        first: usize,
        rows: usize,
    ) -> Result<Vector<'s>, AllocError>
        requires { IsLendable (blocks_in group.now) first rows self.now }
        ensures values { IfOk result (λ v. outcomes_of v ≡ map gives.Value (take rows (drop first
            (values_of (get_or (blocks_in group.now) self.now.column no_block))))) }
        ensures typed { IfOk result (λ v. HasLanesOf
            (get_or (blocks_in group.now) self.now.column no_block).col_type v) }
    {
        if !self.is_filled {
            return owned_lanes(alloc, &group.column(self.column), first, rows);
        }
        match &self.room {
            Room::Ints(values) => {
                let nulls = lent_nulls(self.nullable, values.nulls());
                Ok(Vector::Ints(Ints::new(IntCells::Lent(values.ints()), nulls)))
            }
            Room::Texts => owned_lanes(alloc, &group.column(self.column), first, rows),
        }
    }
}

/// Room for vectors of `most` values of the columns that are wanted, by their numbers in the
/// header.
pub fn make_buffers(
    alloc: Global,
    columns: &[Column],
    wanted: &[usize],
    most: usize,
) -> Result<Vec<ColumnBuffer>, AllocError>
    requires { All (λ p. p < length columns.now) wanted.now }
    ensures columns { IfOk result (λ buffers. columns_of buffers.items ≡ wanted.now) }
    ensures buffers { IfOk result (λ buffers. All (IsBufferOf columns.now most) buffers.items) }
{
    let mut buffers = Vec::new(alloc);
    for column in wanted {
        buffers.push(ColumnBuffer::new(alloc, columns, *column, most)?)?;
    }
    Ok(buffers)
}

/// Fills the buffers anew with their columns' values in a row group, from row `first` on, without
/// those of columns that are marked as packed.
pub fn fill_all(buffers: &mut [ColumnBuffer], packed: &[bool], group: &GroupView<'_>, first: usize)
    requires { All (FitsGroup (blocks_in group.now)) buffers.old }
    ensures { buffers.new ≡ map (filled_unless packed.now (blocks_in group.now) first) buffers.old }
{
    for buffer in buffers.iter_mut() {
        buffer.fill_unless(packed, group, first);
    }
}

/// No buffer holds the vector that stands now.
pub fn empty_all(buffers: &mut [ColumnBuffer])
    ensures { buffers.new ≡ map emptied buffers.old }
{
    for buffer in buffers.iter_mut() {
        buffer.empty();
    }
}

/// Whether the column is marked; one that isn't there is not.
fn is_marked(packed: &[bool], column: usize) -> bool
    ensures { result ≡ slice_index_or packed.now column false }
{
    packed.get(column).copied().unwrap_or(false)
}

/// Puts a column's values in a row group, from row `first` on, behind the columns of the batch. On
/// an error the batch is open.
fn lend_one<'s>(
    alloc: Global,
    batch: &mut Batch<'s>,
    buffer: &'s ColumnBuffer,
    group: &GroupView<'s>,
    first: usize,
) -> Result<(), AllocError>
    requires { IsLendable (blocks_in group.now) first batch.old.rows buffer.now }
    ensures { OnOk result (AddsColumns (blocks_in group.now) first (buffer.now.column ∷ [])
        batch.old batch.new) }
{
    let reference = ColumnReference::Fact {
        column: buffer.column,
    };
    let lanes = buffer.lanes(alloc, group, first, batch.rows())?;
    batch.push(BatchColumn { reference, lanes })
}

/// Puts the values in a row group, from row `first` on, of the columns that aren't marked as packed
/// behind the columns of the batch. On an error the batch is open.
pub fn lend_all<'s>(
    alloc: Global,
    batch: &mut Batch<'s>,
    buffers: &'s [ColumnBuffer],
    packed: &[bool],
    group: &GroupView<'s>,
    first: usize,
) -> Result<(), AllocError>
    requires { All (IsLendable (blocks_in group.now) first batch.old.rows) buffers.now }
    ensures { OnOk result (AddsColumns (blocks_in group.now) first
        (unpacked packed.now (columns_of buffers.now)) batch.old batch.new) }
{
    for buffer in buffers {
        if is_marked(packed, buffer.column) {
            continue;
        }
        lend_one(alloc, batch, buffer, group, first)?;
    }
    Ok(())
}
