//! The rows of a file, vector by vector.
ghost use Rattle.std.specs.Prelude.{◌≡◌, ◌≤◌, ◌<◌, ◌+◌, ◌-◌, ℕ, false, List, None, length, map, All, OnErr, IfErr, IfOk, IfSome};
ghost use Rattle.std.specs.List.{range_with_len};
ghost use Rattle.meaning.specs.VectorLength.{is_vector_length};
ghost use Rattle.scan_select.specs.declared.fault.ScanFault.TheVariants.{VectorLength};
ghost use Rattle.scan_select.specs.Buffers.{IsBufferOf, emptied, filled_now};
ghost use Rattle.scan_select.specs.FileGroups.{all_groups, rows_of_all};
ghost use Rattle.scan_select.specs.Groups.{current_rows};
ghost use Rattle.scan_select.specs.Scanned.{Advances, CountsRows, GivesBatch, GivesStanding, GivesUnpacked, IsFresh, IsStanding, StaysIn};

use crate::buffers::{ColumnBuffer, empty_all, fill_all, lend_all, make_buffers};
use crate::fault::ScanFault;
use crate::file_groups::FileGroups;
use crate::row_groups::RowGroups;
use fragment_file::{FileFault, FragmentView, GroupView};
use meaning::is_vector_length;
use std::alloc::{AllocError, Global};
use std::marker::Model;
use std::mem::drop;
use vectors::Batch;

/// Some rows of one row group, as vectors.
#[derive(Drop)]
pub struct ScanBatch<'s> {
    /// The columns that were asked for. Columns of joined rows may be put behind them.
    pub batch: Batch<'s>,
    pub group: GroupView<'s>,
    /// The batch's first row, counted from 0 in the row group.
    pub first_row: usize,
}

/// Where a vector is.
#[derive(Drop)]
pub struct Standing<'s> {
    pub group: GroupView<'s>,
    /// The vector's first row, counted from 0 in the row group.
    pub first_row: usize,
}

/// The rows of a file in vectors. A vector never crosses from one row group to the next. The room
/// for a vector of integers of each column is taken once, and filled anew by each. After
/// MonetDB/X100, where a scan gives vectors of the columns that a query uses, and of no others.
#[derive(Drop)]
pub struct Scan<G: RowGroups + Drop> {
    groups: G,
    // The columns that are read.
    buffers: Vec<ColumnBuffer>,
    // The most rows of a vector.
    most: usize,
    // The rows of the row group that came last; the vector's first among them, and how many the
    // vector has.
    group_rows: usize,
    first: usize,
    rows: usize,
}

impl<G: RowGroups + Drop> Model for Scan<G> {
    ghost use Rattle.std.specs.Prelude.{◌+◌, ◌-◌};
    ghost use Rattle.scan_select.specs.Buffers.{IsPosition, columns_of};
    ghost use Rattle.scan_select.specs.Pieces.{piece_now, pieces_behind};
    ghost use Rattle.scan_select.specs.Scanned.{ScanSpec};

    ghost Value = { ScanSpec G };

    ghost view = { λ s. record {
      source = s.groups;
      header = G.header_of s.groups;
      columns = columns_of s.buffers.items;
      most = s.most;
      at = piece_now (G.current s.groups) s.first s.rows;
      behind = pieces_behind s.most (G.current s.groups) (s.first + s.rows);
      rows_left = (s.group_rows - (s.first + s.rows)) + G.rows_left s.groups;
    } };

    ghost invariant = { λ s. IsPosition (G.header_of s.groups).columns s.most (G.current s.groups)
        s.group_rows s.first s.rows s.buffers.items };
}

/// The numbers of the first `n` columns.
fn all_columns(alloc: Global, n: usize) -> Result<Vec<usize>, AllocError>
    ensures { IfOk result (λ columns. columns.items ≡ range_with_len 0 n) }
{
    let mut columns = Vec::new(alloc);
    for column in 0..n {
        columns.push(column)?;
    }
    Ok(columns)
}

/// How many rows the row group has that came last.
fn rows_now<G: RowGroups>(groups: &G) -> usize
    ensures value { result ≡ current_rows (G.current groups.now) }
    ensures some { IfSome (G.current groups.now) (λ _. 1 ≤ result) }
{
    match groups.group() {
        Some(group) => group.rows(),
        None => 0,
    }
}

/// Fills the buffers from the row group that came last, if there is one, from row `first` on, without
/// those of columns that are marked as packed.
fn fill_now<G: RowGroups>(
    groups: &G,
    buffers: &mut Vec<ColumnBuffer>,
    packed: &[bool],
    first: usize,
)
    requires { (most : ℕ) × All (IsBufferOf (G.header_of groups.now).columns most)
        buffers.old.items }
    ensures { buffers.new.items
        ≡ filled_now packed.now (G.current groups.now) first buffers.old.items }
{
    if let Some(group) = groups.group() {
        fill_all(buffers.as_mut_slice(), packed, &group, first);
    }
}

fn empty_buffers(buffers: &mut Vec<ColumnBuffer>)
    ensures { buffers.new.items ≡ map emptied buffers.old.items }
{
    empty_all(buffers.as_mut_slice());
}

impl<G: RowGroups + Drop> Scan<G> {
    /// Before the first of the row groups, none of which has come yet. Reads the columns of these
    /// numbers in the header, in vectors of at most so many rows.
    ///
    /// # Errors
    ///
    /// Vectors of no row, or of more than 4,096; out of memory.
    pub fn of_groups(
        alloc: Global,
        groups: G,
        most: usize,
        wanted: &[usize],
    ) -> Result<Scan<G>, ScanFault>
        requires wanted { All (λ p. p < length (G.header_of groups).columns) wanted.now }
        requires before { G.current groups ≡ None }
        ensures ok { IfOk result
            (IsFresh groups (G.header_of groups) (G.rows_left groups) wanted.now most) }
        ensures err { IfErr result (λ f. f ≡ VectorLength → is_vector_length most ≡ false) }
    {
        if !is_vector_length(most) {
            drop(groups);
            return Err(ScanFault::VectorLength);
        }
        let columns = groups.header().columns.as_slice();
        match make_buffers(alloc, columns, wanted, most) {
            Ok(buffers) => Ok(Scan {
                groups,
                buffers,
                most,
                group_rows: 0,
                first: 0,
                rows: 0,
            }),
            Err(_) => {
                drop(groups);
                Err(ScanFault::Memory)
            }
        }
    }

    /// The same, of all columns.
    ///
    /// # Errors
    ///
    /// As of [`Scan::of_groups`].
    pub fn over(alloc: Global, groups: G, most: usize) -> Result<Scan<G>, ScanFault>
        requires { G.current groups ≡ None }
        ensures ok { IfOk result
            (IsFresh groups (G.header_of groups) (G.rows_left groups)
            (range_with_len 0 (length (G.header_of groups).columns)) most) }
        ensures err { IfErr result (λ f. f ≡ VectorLength → is_vector_length most ≡ false) }
    {
        match all_columns(alloc, groups.header().columns.len()) {
            Ok(columns) => Scan::of_groups(alloc, groups, most, columns.as_slice()),
            Err(_) => {
                drop(groups);
                Err(ScanFault::Memory)
            }
        }
    }

    /// Goes on to the next vector, and says whether there is one. Takes no memory of its own.
    ///
    /// # Errors
    ///
    /// Why the next row group can't be had, or what is wrong with the end; no vector stands then.
    pub fn advance(&mut self) -> Result<bool, FileFault>
        ensures header { self.new.header ≡ self.old.header }
        ensures columns { self.new.columns ≡ self.old.columns }
        ensures most { self.new.most ≡ self.old.most }
        ensures told { Advances G.is_coming self.old self.new result }
        ensures stands { IfOk result (λ more. IsStanding more self.new.at) }
        ensures counted { IfOk result
            (λ more. CountsRows more self.old.rows_left self.new.rows_left self.new.at) }
        ensures stays { StaysIn self.old.at self.new.at }
        ensures none { OnErr result (self.new.at ≡ None) }
    {
        empty_buffers(&mut self.buffers);
        let group_rows = self.group_rows;
        let behind = self.first + self.rows;
        if behind < group_rows {
            self.first = behind;
            self.rows = self.most.min(group_rows - behind);
            return Ok(true);
        }
        self.first = 0;
        self.rows = 0;
        self.group_rows = 0;
        match self.groups.advance() {
            Ok(more) => {
                self.group_rows = rows_now(&self.groups);
                self.rows = self.most.min(self.group_rows);
                Ok(more)
            }
            Err(fault) => Err(fault),
        }
    }

    /// Where the vector is that stands now, if any.
    pub fn standing(&self) -> Option<Standing<'_>>
        ensures { GivesStanding self.now result }
    {
        if self.rows == 0 {
            return None;
        }
        match self.groups.group() {
            Some(group) => Some(Standing {
                group,
                first_row: self.first,
            }),
            None => None,
        }
    }

    /// Unpacks the integers of the vector that stands now into the scan's buffers, from which
    /// [`Scan::batch_without`] lends them; those of columns that are marked at their number in the
    /// header stay packed. Takes no memory.
    pub fn unpack(&mut self, packed: &[bool])
        ensures { self.new ≡ self.old }
    {
        let first = self.first;
        fill_now(&self.groups, &mut self.buffers, packed, first);
    }

    /// The vector that stands now, if any, of all columns. Integers are lent from the scan's buffers
    /// where they were unpacked, and else copied; texts are lent from the bytes of the row group. All
    /// of it is gone with the next call that goes on.
    pub fn batch(&self, alloc: Global) -> Result<Option<ScanBatch<'_>>, AllocError>
        ensures { IfOk result (λ batch. GivesBatch self.now batch) }
    {
        self.batch_without(alloc, &[])
    }

    /// The same, without the columns that are marked at their number in the header: no list of their
    /// texts is made.
    pub fn batch_without(
        &self,
        alloc: Global,
        packed: &[bool],
    ) -> Result<Option<ScanBatch<'_>>, AllocError>
        ensures { IfOk result (λ batch. GivesUnpacked packed.now self.now batch) }
    {
        if self.rows == 0 {
            return Ok(None);
        }
        let Some(group) = self.groups.group() else {
            return Ok(None);
        };
        // That all blocks have as many rows.
        let _rows = group.rows();
        let mut batch = Batch::new(alloc, self.rows);
        lend_all(
            alloc,
            &mut batch,
            self.buffers.as_slice(),
            packed,
            &group,
            self.first,
        )?;
        Ok(Some(ScanBatch {
            batch,
            group,
            first_row: self.first,
        }))
    }

    /// Where the row groups come from, behind the one that stands.
    pub fn into_source(self) -> G
        ensures { result ≡ self.source }
    {
        let Scan {
            groups,
            buffers,
            ..
        } = self;
        drop(buffers);
        groups
    }
}

impl<'v> Scan<FileGroups<'v>> {
    /// Before the first row of an opened file. Reads the columns of these numbers in its header,
    /// in vectors of at most so many rows.
    ///
    /// # Errors
    ///
    /// Vectors of no row, or of more than 4,096; out of memory.
    pub fn of_columns(
        alloc: Global,
        view: &'v FragmentView<'v>,
        most: usize,
        wanted: &[usize],
    ) -> Result<Scan<FileGroups<'v>>, ScanFault>
        requires { All (λ p. p < length view.now.header.columns) wanted.now }
        ensures ok { IfOk result
            (IsFresh (all_groups view.entry.now) view.entry.now.header
            (rows_of_all view.entry.now.groups) wanted.now most) }
        ensures err { IfErr result (λ f. f ≡ VectorLength → is_vector_length most ≡ false) }
    {
        Scan::of_groups(alloc, FileGroups::new(view), most, wanted)
    }

    /// The same, of all columns.
    ///
    /// # Errors
    ///
    /// As of [`Scan::of_columns`].
    pub fn new(
        alloc: Global,
        view: &'v FragmentView<'v>,
        most: usize,
    ) -> Result<Scan<FileGroups<'v>>, ScanFault>
        ensures ok { IfOk result
            (IsFresh (all_groups view.entry.now) view.entry.now.header
            (rows_of_all view.entry.now.groups)
            (range_with_len 0 (length view.entry.now.header.columns)) most) }
        ensures err { IfErr result (λ f. f ≡ VectorLength → is_vector_length most ≡ false) }
    {
        Scan::over(alloc, FileGroups::new(view), most)
    }
}
