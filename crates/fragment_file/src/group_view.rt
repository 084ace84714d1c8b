//! A row group that stands in bytes.
ghost use Rattle.std.specs.Prelude.{◌≡◌, ◌<◌, length, map, slice_index_or, true};
ghost use Rattle.blocks.specs.Block.{is_block};
ghost use Rattle.fragment_file.specs.Fragment.{no_block};
ghost use Rattle.fragment_file.specs.View.{IsGroup, IsGroupAt, IsWithin, block_in, rows_of};

use crate::view::BlockLocation;
use blocks::BlockView;

/// The block at a location.
#[tactic(auto, unfolding(crate::specs::View::block_in))]
fn lend_block(bytes: &[u8], at: BlockLocation) -> BlockView<'_>
    requires within { IsWithin bytes.now at }
    requires sound { is_block (block_in bytes.now at) ≡ true }
    ensures { result ≡ block_in bytes.entry.now at }
{
    let payload = &bytes[at.start..at.end];
    BlockView::new_unchecked(at.kind, at.col_type, at.nullable, at.rows, payload)
}

/// A row group: the locations of its blocks, one for each column, and the bytes in which they stand.
/// It owns nothing. Contracts see the list of blocks, as `blocks_in`.
#[derive(Drop)]
pub struct GroupView<'a> {
    locations: &'a [BlockLocation],
    bytes: &'a [u8],
    ghost sound: { IsGroupAt bytes.now locations.now },
}

impl<'a> GroupView<'a> {
    ghost use Rattle.fragment_file.specs.Lent.{blocks_in};

    /// The row group whose blocks are known to stand at these locations. Looks at none of the bytes,
    /// and takes no memory.
    pub fn new_unchecked(locations: &'a [BlockLocation], bytes: &'a [u8]) -> GroupView<'a>
        requires { IsGroupAt bytes.now locations.now }
        ensures { blocks_in result ≡ map (block_in bytes.entry.now) locations.entry.now }
    {
        GroupView { locations, bytes }
    }

    /// How many columns there are, each with a block.
    pub fn column_count(&self) -> usize
        ensures { result ≡ length (blocks_in self.now) }
    {
        self.locations.len()
    }

    /// The block of a column, by its index in the header. Looks at none of its bytes, and
    /// takes no memory.
    pub fn column(&self, index: usize) -> BlockView<'a>
        requires { index < length (blocks_in self.now) }
        ensures { result ≡ slice_index_or (blocks_in self.now) index no_block }
    {
        let locations = self.locations;
        lend_block(self.bytes, locations[index])
    }

    /// How many rows each of the blocks has. Without a block 0.
    pub fn rows(&self) -> usize
        ensures value { result ≡ rows_of (blocks_in self.now) }
        ensures equal { IsGroup (blocks_in self.now) }
    {
        let locations = self.locations;
        if locations.is_empty() {
            0
        } else {
            locations[0].rows
        }
    }
}
