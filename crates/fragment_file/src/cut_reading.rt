//! The file of a cut, read and judged.
ghost use Rattle.std.specs.Prelude.{◌≡◌, IfErr, IfOk, Ok};
ghost use Rattle.meaning.specs.Cut.{IsCut};
ghost use Rattle.fragment_file.specs.Fault.{IsReadFault};
ghost use Rattle.fragment_file.specs.CutFile.{CutFileSpec, IsCutFileOf, cut_file, length_at, read_cut_file};
ghost use Rattle.meaning.specs.Wanting.{GivesIfMemory};
ghost use Rattle.wire.specs.Reading.{Reads, repeat_at};

use crate::fault::FileFault;
use crate::limits::is_1_to;
use meaning::{Cut, MAX_FRAGMENTS, MAX_ROWS};
use std::alloc::Global;
use wire::{SEAL_BYTES, check_seal, skip_magic, take_bytes, take_u32, take_u64};

/// What a cut file begins with.
pub const CUT_MAGIC: [u8; 4] = *b"XCL1";

/// How many rows one fragment has, and the bytes behind it.
#[tactic(auto, unfolding(crate::specs::CutFile::length_at))]
fn take_length(bytes: &[u8]) -> Result<(u32, &[u8]), FileFault>
    ensures { Reads (λ x. (x.0, x.1.now)) result (length_at bytes.now) }
{
    let (length, rest) = take_u32(bytes)?;
    if length > MAX_ROWS {
        return Err(FileFault::Limit);
    }
    Ok((length, rest))
}

fn take_lengths(alloc: Global, count: u32, bytes: &[u8]) -> Result<(Vec<u32>, &[u8]), FileFault>
    ensures { GivesIfMemory FileFault.Memory (λ x. (x.0.items, x.1.now)) result
        (repeat_at length_at count bytes.now) }
{
    let mut lengths = Vec::new(alloc);
    let mut rest = bytes;
    for _ in 0..count {
        let (length, after) = take_length(rest)?;
        lengths.push(length)?;
        rest = after;
    }
    Ok((lengths, rest))
}

/// Lengths within the limits as a cut.
fn cut_of(lengths: Vec<u32>) -> Result<Cut, FileFault>
    requires { IsCut lengths.items }
    ensures { Reads (λ cut. cut) result (Ok lengths.items) }
{
    match Cut::new(lengths) {
        Ok(cut) => Ok(cut),
        Err(_) => Err(FileFault::Limit),
    }
}

#[tactic(auto, unfolding(crate::specs::CutFile::read_cut_file, crate::specs::CutFile::cut_magic))]
fn read(alloc: Global, bytes: &[u8]) -> Result<(u64, Cut), FileFault>
    ensures { GivesIfMemory FileFault.Memory cut_file result (read_cut_file bytes.now) }
{
    let rest = skip_magic(&CUT_MAGIC, bytes)?;
    let (load, rest) = take_u64(rest)?;
    let (count, rest) = take_u32(rest)?;
    if !is_1_to(MAX_FRAGMENTS, count) {
        return Err(FileFault::Limit);
    }
    let (lengths, rest) = take_lengths(alloc, count, rest)?;
    let (seal, rest) = take_bytes(rest, SEAL_BYTES)?;
    check_seal(bytes, seal, rest)?;
    Ok((load, cut_of(lengths)?))
}

/// The load and the cut that the bytes are a file of, or the first obstacle.
pub fn read_cut(alloc: Global, bytes: &[u8]) -> Result<(u64, Cut), FileFault>
    ensures exact { GivesIfMemory FileFault.Memory cut_file result (read_cut_file bytes.now) }
    ensures returned { IfErr result IsReadFault }
    // What is given is spelled so.
    ensures spelled { IfOk result (λ x. IsCutFileOf bytes.now (cut_file x)) }
    // What is spelled so is given, unless memory runs out.
    ensures complete { (f : CutFileSpec) → IsCutFileOf bytes.now f →
        GivesIfMemory FileFault.Memory cut_file result (Ok f) }
{
    read(alloc, bytes)
}
