//! Names behind their lengths.
ghost use Rattle.std.specs.Prelude.{◌≡◌, true, Ok, IfOk};
ghost use Rattle.meaning.specs.Catalog.{is_name};
ghost use Rattle.fragment_file.specs.FragmentReading.{name_at};
ghost use Rattle.meaning.specs.Wanting.{GivesIfMemory};
ghost use Rattle.wire.specs.Reading.{Reads};

use crate::fault::FileFault;
use crate::limits::is_1_to;
use meaning::{MAX_NAME_BYTES, Text, is_name};
use std::alloc::Global;
use wire::{take_bytes, take_u16};

/// A name's text, which is ASCII.
pub fn text_of(alloc: Global, word: &[u8]) -> Result<Text, FileFault>
    requires { is_name word.now ≡ true }
    ensures { GivesIfMemory FileFault.Memory (λ name. name) result (Ok word.now) }
{
    let Ok(name) = std::str::from_utf8(word) else {
        return Err(FileFault::Header);
    };
    Ok(Text::new(alloc, name)?)
}

/// A name, and the bytes behind it.
#[tactic(auto, unfolding(crate::specs::FragmentReading::name_at))]
pub fn take_name(bytes: &[u8]) -> Result<(&[u8], &[u8]), FileFault>
    ensures read { Reads (λ x. (x.0.now, x.1.now)) result (name_at bytes.now) }
    ensures name { IfOk result (λ x. is_name x.0.now ≡ true) }
{
    let (length, rest) = take_u16(bytes)?;
    if !is_1_to(MAX_NAME_BYTES, u32::from(length)) {
        return Err(FileFault::Limit);
    }
    let (word, rest) = take_bytes(rest, length as usize)?;
    if !is_name(word) {
        return Err(FileFault::Header);
    }
    Ok((word, rest))
}
