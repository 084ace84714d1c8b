//! What stands in front of the row groups of a source.
ghost use Rattle.std.specs.Prelude.{IfOk};
ghost use Rattle.fragment_file.specs.Fragment.{IsHeader};
ghost use Rattle.group_reader.specs.Coming.{header_read};
ghost use Rattle.group_reader.specs.Source.{Takes};

use crate::fields::next_header;
use crate::source::{Source, next_bytes};
use fragment_file::{FRAGMENT_MAGIC, FileFault, Header};
use std::alloc::Global;
use std::io::Read;

/// The header behind the magic.
pub fn read_front<R: Read + Drop>(
    alloc: Global,
    source: &mut Source<R>,
) -> Result<Header, FileFault>
    ensures header { IfOk result IsHeader }
    ensures read { Takes R.remaining source.old source.new (λ header. header) result header_read }
{
    let mut magic = [0; 4];
    next_bytes(source, &mut magic)?;
    if magic.as_slice() != FRAGMENT_MAGIC.as_slice() {
        return Err(FileFault::Magic);
    }
    next_header(alloc, source)
}
