//! The row groups of a file that is read one row group after the other.
ghost use Rattle.group_reader.specs.Reader.{MayCome};

use crate::row_groups::RowGroups;
use fragment_file::{FileFault, GroupView, Header};
use group_reader::GroupReader;
use std::io::Read;

impl<R: Read + Drop> RowGroups for GroupReader<R> {
    ghost header_of = { λ g. g.header };

    ghost is_coming = { λ g c. MayCome R.remaining g c };

    ghost rows_left = { λ g. g.left };

    ghost current = { λ g. g.current };

    fn header(&self) -> &Header {
        GroupReader::header(self)
    }

    fn advance(&mut self) -> Result<bool, FileFault> {
        GroupReader::advance(self)
    }

    fn group(&self) -> Option<GroupView<'_>> {
        GroupReader::group(self)
    }
}
