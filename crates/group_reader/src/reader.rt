//! A reader of row groups, one after the other.
ghost use Rattle.std.specs.Prelude.{◌≡◌, ◌≤◌, ◌<◌, get_or, ℕ, false, None, Some, length, map, option_map, IfErr, IfOk, IfSome, Ok, Err, OnErr};
ghost use Rattle.std.specs.Borrow.{sem};
ghost use Rattle.std.specs.Io.BufRead.{Rests};
ghost use Rattle.fragment_file.specs.declared.fault.FileFault.{FileFault as AFault};
ghost use Rattle.fragment_file.specs.Fragment.{AreBlocks, IsHeader};
ghost use Rattle.fragment_file.specs.Lent.{AreTypedBlocks, blocks_in};
ghost use Rattle.fragment_file.specs.View.{IsGroupAt, block_in, rows_of};
ghost use Rattle.group_reader.specs.Coming.{Coming};
ghost use Rattle.group_reader.specs.Reader.{Advances, Counts, GoesOn, IsComing, IsFirst, IsOpen, IsThere, Opens, lends, refused_in};
ghost use Rattle.group_reader.specs.contracts.reader.GroupReader.{the_row};

use crate::ending::read_end;
use crate::front::read_front;
use crate::groups::next_locations;
use crate::source::Source;
use crate::standing::Standing;
use fragment_file::{BlockLocation, FileFault, GroupView, Header, next_rows};
use sha2::{Digest, Sha256};
use std::alloc::Global;
use std::io::Read;
use std::marker::Model;
use std::mem::drop;

/// The row groups of a fragment file, one after the other, from any reader. One row group at a time is
/// in memory, and its bytes are hashed as they come.
#[derive(Drop)]
pub struct GroupReader<R: Read + Drop> {
    alloc: Global,
    source: Source<R>,
    header: Header,
    // How many row groups came, and how many rows are left behind them.
    came: u64,
    left: u32,
    standing: Standing,
    // The payloads of the row group that came last, and where its blocks stand in them.
    bytes: Vec<u8>,
    locations: Vec<BlockLocation>,
}

impl<R: Read + Drop> Model for GroupReader<R> {
    ghost use Rattle.std.specs.Prelude.{map};
    ghost use Rattle.fragment_file.specs.View.{block_in};
    ghost use Rattle.group_reader.specs.Reader.{IsReader, ReaderSpec, current_in};

    ghost Value = { ReaderSpec R };

    ghost view = { λ g. record {
      source = g.source;
      header = g.header;
      came = g.came;
      left = g.left;
      standing = g.standing;
      current = current_in g.standing (map (block_in g.bytes.items) g.locations.items);
    } };

    ghost invariant = { λ g. IsReader g.header g.came g.left g.standing g.bytes.items
        g.locations.items };
}

/// The row group whose blocks stand at these locations.
fn lend_group<'a>(locations: &'a [BlockLocation], bytes: &'a [u8]) -> GroupView<'a>
    requires { IsGroupAt bytes.now locations.now }
    ensures value { blocks_in result ≡ map (block_in bytes.entry.now) locations.entry.now }
    ensures bytes { (i : ℕ) → get_or bytes.entry.now i 0 < 256 }
{
    GroupView::new_unchecked(locations, bytes)
}

impl<R: Read + Drop> GroupReader<R> {
    /// Reads the header. No row group stands yet.
    ///
    /// # Errors
    ///
    /// What is wrong first with the front of the file; the reader's; out of memory.
    pub fn open(alloc: Global, reader: R) -> Result<GroupReader<R>, FileFault>
        ensures before { IfOk result (λ g. g.current ≡ None) }
        ensures left { IfOk result (λ g. g.left ≡ g.header.rows) }
        ensures opened { Opens R.remaining reader result }
    {
        let mut source = Source {
            reader,
            hasher: Sha256::new(),
        };
        match read_front(alloc, &mut source) {
            Ok(header) => {
                let left = header.rows;
                Ok(GroupReader {
                    alloc,
                    source,
                    header,
                    came: 0,
                    left,
                    standing: Standing::Between,
                    bytes: Vec::new(alloc),
                    locations: Vec::new(alloc),
                })
            }
            Err(fault) => {
                drop(source);
                Err(fault)
            }
        }
    }

    /// What stands in front of the row groups.
    pub fn header(&self) -> &Header
        ensures value { result.now ≡ self.now.header }
        ensures sound { IsHeader self.now.header }
    {
        &self.header
    }

    /// Reads the next row group, or the end. No row group stands where it can't.
    fn read_on(&mut self) -> Result<bool, FileFault>
        requires { IsOpen self.old.standing }
        ensures same { self.new.header ≡ self.old.header }
        ensures told { GoesOn R.remaining self.old self.new result }
        ensures stands { IfOk result (λ more. IsThere more self.new.current) }
        ensures counted { IfOk result
            (λ more. Counts more self.old.left self.new.left self.new.current) }
    {
        self.standing = Standing::Between;
        if self.left == 0 {
            read_end(&mut self.source)?;
            self.standing = Standing::AtEnd;
            return Ok(false);
        }
        let rows = next_rows(self.left);
        self.locations = next_locations(
            self.alloc,
            &mut self.source,
            self.came,
            self.header.columns.as_slice(),
            rows,
            &mut self.bytes,
        )?;
        self.came += 1;
        self.left -= rows;
        self.standing = Standing::AtGroup;
        Ok(true)
    }

    /// The same, and a refusal is kept.
    fn go_on(&mut self) -> Result<bool, FileFault>
        requires { IsOpen self.old.standing }
        ensures same { self.new.header ≡ self.old.header }
        ensures told { GoesOn R.remaining self.old self.new result }
        ensures stands { IfOk result (λ more. IsThere more self.new.current) }
        ensures counted { IfOk result
            (λ more. Counts more self.old.left self.new.left self.new.current) }
        ensures refused { IfErr result (λ e. refused_in self.new ≡ Some e) }
        ensures none { OnErr result (self.new.current ≡ None) }
    {
        match self.read_on() {
            Ok(more) => Ok(more),
            Err(fault) => {
                self.standing = Standing::Refused(fault);
                Err(fault)
            }
        }
    }

    /// Goes on to the next row group, and says whether there is one. There is none only where the
    /// seal was compared, as the end of the file.
    ///
    /// # Errors
    ///
    /// What is wrong first with the bytes from here on; the reader's; out of memory. A reader that
    /// refused returns the same refusal from then on, and reads no more.
    pub fn advance(&mut self) -> Result<bool, FileFault>
        ensures same { self.new.header ≡ self.old.header }
        ensures told { GoesOn R.remaining self.old self.new result }
        ensures stands { IfOk result (λ more. IsThere more self.new.current) }
        ensures counted { IfOk result
            (λ more. Counts more self.old.left self.new.left self.new.current) }
        ensures refused { IfErr result (λ e. refused_in self.new ≡ Some e) }
        ensures none { OnErr result (self.new.current ≡ None) }
        ensures again { (e : AFault) → refused_in self.old ≡ Some e
            → (result ≡ Err e) × (self.new ≡ self.old) }
        ensures over { self.old.standing ≡ Standing.AtEnd
            → (result ≡ Ok false) × (self.new ≡ self.old) }
    {
        match self.standing {
            Standing::Between => self.go_on(),
            Standing::AtGroup => self.go_on(),
            Standing::AtEnd => Ok(false),
            Standing::Refused(fault) => Err(fault),
        }
    }

    /// The row group that came last. There is none before the first, at the end and after a refusal.
    /// Takes no memory.
    pub fn group(&self) -> Option<GroupView<'_>>
        ensures value { option_map blocks_in result ≡ self.now.current }
        ensures count { IfSome result
            (λ group. length (blocks_in group) ≡ length self.now.header.columns) }
        // A block of each column, of its type, and all of as many rows.
        ensures blocks { IfSome result (λ group.
            AreBlocks self.now.header.columns (rows_of (blocks_in group)) (blocks_in group)) }
        ensures some { IfSome result (λ group. 1 ≤ rows_of (blocks_in group)) }
        ensures typed { IfSome result
            (λ group. AreTypedBlocks self.now.header.columns (blocks_in group)) }
    {
        match self.standing {
            Standing::AtGroup => {
                let locations = self.locations.as_slice();
                Some(lend_group(locations, self.bytes.as_slice()))
            }
            Standing::Between => None,
            Standing::AtEnd => None,
            Standing::Refused(_) => None,
        }
    }

    /// Goes on as [`GroupReader::advance`], and lends the row group that came.
    ///
    /// # Errors
    ///
    /// As of [`GroupReader::advance`].
    pub fn next_group(&mut self) -> Result<Option<GroupView<'_>>, FileFault>
        ensures* after { sem 𝓛 (Rests (the_row R.row R.Read.own) self.entry (λ new.
            Advances R.remaining self.old new (lends result)
            × IfOk result (λ found. option_map blocks_in found ≡ new.current))) }
        ensures lent { IfOk result (λ found. (c : Coming) → IsComing R.remaining self.old c
            → IsFirst c.groups (option_map blocks_in found)) }
        ensures count { IfOk result (λ found. IfSome found
            (λ group. length (blocks_in group) ≡ length self.old.header.columns)) }
        ensures blocks { IfOk result (λ found. IfSome found (λ group.
            AreBlocks self.old.header.columns (rows_of (blocks_in group)) (blocks_in group))) }
        ensures some { IfOk result
            (λ found. IfSome found (λ group. 1 ≤ rows_of (blocks_in group))) }
        ensures typed { IfOk result (λ found. IfSome found
            (λ group. AreTypedBlocks self.old.header.columns (blocks_in group))) }
    {
        self.advance()?;
        Ok(self.group())
    }
}
