//! What an opened file lends.
ghost use Rattle.std.specs.Prelude.{◌≡◌, ◌<◌, ℕ, [], get_or, length, map, slice_index_or};
ghost use Rattle.fragment_file.specs.Fragment.{AreBlocks, IsFragment};
ghost use Rattle.fragment_file.specs.Lent.{AreTypedBlocks, blocks_in};
ghost use Rattle.fragment_file.specs.View.{IsGroupAt, block_in, rows_of};

use crate::group_view::GroupView;
use crate::header::Header;
use blocks::Kind;
use meaning::{ColType, Sequence};
use std::marker::Model;

/// Where the payload of a block stands in bytes, and what else is known of the block.
#[derive(Clone, Copy, Drop)]
pub struct BlockLocation {
    pub kind: Kind,
    pub col_type: ColType,
    pub nullable: bool,
    pub rows: usize,
    /// The first byte of the payload.
    pub start: usize,
    /// The first byte behind it.
    pub end: usize,
}

/// What a fragment file holds, found to be well-formed. The blocks' bytes stand elsewhere.
#[derive(Drop)]
pub struct FragmentView<'a> {
    header: Header,
    groups: Sequence<Sequence<BlockLocation>>,
    bytes: &'a [u8],
}

impl<'a> Model for FragmentView<'a> {
    ghost use Rattle.fragment_file.specs.Fragment.{FragmentSpec};
    ghost use Rattle.fragment_file.specs.View.{IsFragmentAt, fragment_in};

    ghost Value = { FragmentSpec };

    ghost view = { λ v. fragment_in v.header v.bytes.now v.groups };

    ghost invariant = { λ v. IsFragmentAt v.header v.bytes.now v.groups };
}

/// The row group whose blocks stand at these locations.
fn lend_group<'a>(locations: &'a [BlockLocation], bytes: &'a [u8]) -> GroupView<'a>
    requires { IsGroupAt bytes.now locations.now }
    ensures value { blocks_in result ≡ map (block_in bytes.entry.now) locations.entry.now }
    ensures bytes { (i : ℕ) → get_or bytes.entry.now i 0 < 256 }
{
    GroupView::new_unchecked(locations, bytes)
}

impl<'a> FragmentView<'a> {
    ghost use Rattle.fragment_file.specs.View.{IsFragmentAt, fragment_in};

    /// The view of a header and of the locations of row groups. Takes no memory.
    pub(crate) fn new(
        header: Header,
        bytes: &'a [u8],
        groups: Sequence<Sequence<BlockLocation>>,
    ) -> FragmentView<'a>
        requires { IsFragmentAt header bytes.now groups }
        ensures { result ≡ fragment_in header bytes.entry.now groups }
    {
        FragmentView {
            header,
            groups,
            bytes,
        }
    }

    /// What stands in front of the row groups.
    pub fn header(&self) -> &Header
        ensures value { result.now ≡ self.now.header }
        // There is a file that holds just this.
        ensures sound { IsFragment self.now }
    {
        &self.header
    }

    /// How many row groups there are.
    pub fn group_count(&self) -> usize
        ensures { result ≡ length self.now.groups }
    {
        self.groups.len()
    }

    /// A row group, by its index from 0: 8,192 rows each, and in the last the rest. Takes no
    /// memory.
    pub fn group(&self, index: usize) -> GroupView<'_>
        requires { index < length self.now.groups }
        ensures value { blocks_in result ≡ slice_index_or self.now.groups index [] }
        ensures count { length (blocks_in result) ≡ length self.now.header.columns }
        // A block of each column, of its type, and all of as many rows.
        ensures blocks { AreBlocks self.now.header.columns (rows_of (blocks_in result))
            (blocks_in result) }
        ensures typed { AreTypedBlocks self.now.header.columns (blocks_in result) }
    {
        let locations = &self.groups.as_slice()[index];
        lend_group(locations.as_slice(), self.bytes)
    }
}
