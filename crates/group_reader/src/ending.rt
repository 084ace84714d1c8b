//! The end of a source.
ghost use Rattle.std.specs.Prelude.{◌≡◌, List, ℕ};
ghost use Rattle.sha2.specs.Hashers.{Holds256};
ghost use Rattle.wire.specs.Bytes.{seal_of};
ghost use Rattle.group_reader.specs.Source.{EndsAs, EndsBy};

use crate::source::{Source, fill};
use fragment_file::FileFault;
use sha2::{Digest, Sha256};
use std::io::Read;
use std::mem::replace;
use wire::SEAL_BYTES;

/// The seal of what the hasher holds. The hasher then begins anew.
#[tactic(auto, unfolding(wire::specs::Bytes::seal_of))]
fn seal_now(hasher: &mut Sha256) -> [u8; 32]
    ensures { (m : List ℕ) → Holds256 hasher.old m → result ≡ seal_of m }
{
    replace(hasher, Sha256::new()).finalize()
}

/// The seal, where it is the end and that of all bytes before it.
pub fn read_end<R: Read + Drop>(source: &mut Source<R>) -> Result<(), FileFault>
    ensures { EndsAs result (EndsBy R.remaining source.old) }
{
    let mut seal = [0; SEAL_BYTES];
    let sealed = fill(&mut source.reader, &mut seal)?;
    if sealed < SEAL_BYTES {
        return Err(FileFault::Truncated);
    }
    let mut more = [0; 1];
    let trailing = fill(&mut source.reader, &mut more)?;
    if trailing > 0 {
        return Err(FileFault::TrailingBytes);
    }
    if seal.as_slice() != seal_now(&mut source.hasher).as_slice() {
        return Err(FileFault::Seal);
    }
    Ok(())
}
