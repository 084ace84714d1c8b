//! The file of a fragment or of a dimension, read and judged.
ghost use Rattle.std.specs.Prelude.{◌≡◌, IfErr, IfOk, Ok};
ghost use Rattle.fragment_file.specs.Fault.{IsReadFault};
ghost use Rattle.fragment_file.specs.Fragment.{AreTypedColumns, FragmentSpec, IsFileOf};
ghost use Rattle.fragment_file.specs.FragmentReading.{read_fragment};
ghost use Rattle.meaning.specs.Wanting.{GivesIfMemory};

use crate::fault::FileFault;
use crate::fields::take_header;
use crate::groups::take_groups;
use crate::view::FragmentView;
use std::alloc::Global;
use wire::{SEAL_BYTES, check_seal, skip_magic, take_bytes};

/// What a fragment file begins with.
pub const FRAGMENT_MAGIC: [u8; 4] = *b"XCF1";

#[tactic(auto, unfolding(crate::specs::FragmentReading::read_fragment, crate::specs::Fragment::fragment_magic))]
fn read(alloc: Global, bytes: &[u8]) -> Result<FragmentView<'_>, FileFault>
    ensures { GivesIfMemory FileFault.Memory (λ v. v) result (read_fragment bytes.now) }
{
    let rest = skip_magic(&FRAGMENT_MAGIC, bytes)?;
    let (header, rest) = take_header(alloc, rest)?;
    let (groups, rest) = take_groups(alloc, header.columns.as_slice(), header.rows, bytes, rest)?;
    let (seal, rest) = take_bytes(rest, SEAL_BYTES)?;
    check_seal(bytes, seal, rest)?;
    Ok(FragmentView::new(header, bytes, groups))
}

/// The file that the bytes are, or the first obstacle.
///
/// The bytes are judged from front to back, then come bytes behind the end, and then the seal.
/// Memory is taken for what was read alone, whatever lengths the bytes give.
pub fn open(alloc: Global, bytes: &[u8]) -> Result<FragmentView<'_>, FileFault>
    ensures exact { GivesIfMemory FileFault.Memory (λ v. v) result (read_fragment bytes.now) }
    ensures returned { IfErr result IsReadFault }
    // What is given is spelled so.
    ensures spelled { IfOk result (λ v. IsFileOf bytes.now v) }
    // What is spelled so is given, unless memory runs out.
    ensures complete { (f : FragmentSpec) → IsFileOf bytes.now f →
        GivesIfMemory FileFault.Memory (λ v. v) result (Ok f) }
    ensures typed { IfOk result (λ v. AreTypedColumns v) }
{
    read(alloc, bytes)
}
