//! Where a scan finds row groups.
ghost use Rattle.std.specs.Prelude.{◌≡◌, ◌≤◌, ℕ, List, Option, option_map, length, IfSome, None, OnErr, IfOk};
ghost use Rattle.blocks.specs.Block.{Block};
ghost use Rattle.fragment_file.specs.declared.header.Header.{Header as AHeader};
ghost use Rattle.fragment_file.specs.Fragment.{AreBlocks, IsHeader};
ghost use Rattle.fragment_file.specs.Lent.{AreTypedBlocks, blocks_in};
ghost use Rattle.fragment_file.specs.View.{rows_of};
ghost use Rattle.group_reader.specs.Coming.{Coming};
ghost use Rattle.group_reader.specs.Reader.{Counts, IsThere};
ghost use Rattle.group_reader.specs.Source.{EndsAs};
ghost use Rattle.scan_select.specs.Groups.{GroupsGoOn};

use fragment_file::{FileFault, GroupView, Header};

/// The row groups of a file, from the first to the last. One at a time stands, and is lent for a
/// borrow of the source alone, which may read the next one over it.
pub trait RowGroups {
    // What stands in front of the row groups.
    ghost header_of: { Self → AHeader };

    // These row groups, and then this end, may be still to come: where it is known what is to come,
    // no others may.
    ghost is_coming: { Self → Coming → Type 0 };

    // How many rows the row groups have that are still to come.
    ghost rows_left: { Self → ℕ };

    // The row group that came last. There is none before the first, behind the last, and where one
    // couldn't be had.
    ghost current: { Self → Option (List Block) };

    /// What stands in front of the row groups.
    fn header(&self) -> &Header
        ensures value { result.now ≡ header_of self.now }
        ensures sound { IsHeader (header_of self.now) };

    /// Goes on to the next row group, and says whether there is one.
    ///
    /// # Errors
    ///
    /// Why it can't be had, or what is wrong with the end.
    fn advance(&mut self) -> Result<bool, FileFault>
        ensures same { header_of self.new ≡ header_of self.old }
        ensures told { GroupsGoOn (is_coming self.old) (is_coming self.new) (current self.new)
            result }
        ensures stands { IfOk result (λ more. IsThere more (current self.new)) }
        ensures counted { IfOk result
            (λ more. Counts more (rows_left self.old) (rows_left self.new) (current self.new)) }
        ensures none { OnErr result (current self.new ≡ None) };

    /// The row group that came last.
    fn group(&self) -> Option<GroupView<'_>>
        ensures value { option_map blocks_in result ≡ current self.now }
        ensures count { IfSome result (λ group. length (blocks_in group)
            ≡ length (header_of self.now).columns) }
        ensures blocks { IfSome result
            (λ group. AreBlocks (header_of self.now).columns (rows_of (blocks_in group)) (blocks_in group)) }
        ensures some { IfSome result (λ group. 1 ≤ rows_of (blocks_in group)) }
        ensures typed { IfSome result
            (λ group. AreTypedBlocks (header_of self.now).columns (blocks_in group)) };
}

/// Goes on to the end, and looks at none of the row groups that are left.
///
/// # Errors
///
/// The first thing that is wrong with what is left.
pub fn read_out<G: RowGroups>(groups: &mut G) -> Result<(), FileFault>
    ensures { EndsAs result (λ end. (c : Coming) × G.is_coming groups.old c × (c.end ≡ end)) }
{
    while groups.advance()? {}
    Ok(())
}
