//! What calls make of a moment.
ghost use Rattle.std.specs.Prelude.{◌≡◌, ◌∷◌, [], ◌+◌, ◌<◌, ◌≤◌, ◌^◌, length, min, take, if◌then◌else◌, IfOk};
ghost use Rattle.disk.specs.Disk.{Synced, after_cut, also_written, overwritten};
ghost use Rattle.memory_disk.specs.Memory.{state_of};

use crate::moment::Moment;
use disk::Range;
use std::alloc::{AllocError, Global};

/// Bytes with others in their place.
fn overwritten(alloc: Global, old: &[u8], from: usize, bytes: &[u8]) -> Result<Vec<u8>, AllocError>
    requires within { from ≤ length old.now }
    requires fits { from + length bytes.now < 2 ^ 64 }
    ensures { IfOk result (λ new. new.items ≡ overwritten from bytes.now old.now) }
{
    let mut new = Vec::from_slice(alloc, &old[..from])?;
    new.extend_from_slice(bytes)?;
    let behind = from + bytes.len();
    if behind < old.len() {
        new.extend_from_slice(&old[behind..])?;
    }
    Ok(new)
}

/// One range more.
fn with_range(
    alloc: Global,
    is_synced: bool,
    old: &[Range],
    range: Range,
) -> Result<Vec<Range>, AllocError>
    ensures { IfOk result
        (λ new. new.items ≡ (if is_synced then range ∷ [] else range ∷ old.now)) }
{
    let mut new = Vec::new(alloc);
    new.push(range)?;
    if !is_synced {
        new.extend_from_slice(old)?;
    }
    Ok(new)
}

/// The least length with one more.
fn least(is_synced: bool, old: usize, len: usize) -> usize
    ensures { result ≡ (if is_synced then len else min len old) }
{
    if is_synced { len } else { len.min(old) }
}

/// Nothing but these bytes, all synced.
pub fn synced(alloc: Global, bytes: Vec<u8>) -> Moment
    ensures { state_of result ≡ record { reads = bytes.items; unsynced = Synced } }
{
    Moment {
        bytes,
        is_synced: true,
        ranges: Vec::new(alloc),
        least: 0,
    }
}

/// A write of which so many bytes were asked for, and these came.
pub fn after_write(
    alloc: Global,
    old: &Moment,
    from: usize,
    bytes: &[u8],
    count: usize,
) -> Result<Moment, AllocError>
    requires within { from ≤ length old.now.bytes.items }
    requires fits { from + length bytes.now < 2 ^ 64 }
    ensures { IfOk result (λ new. state_of new ≡ record {
      reads = overwritten from bytes.now old.now.bytes.items;
      unsynced = also_written (record { from = from; count = count })
          (length old.now.bytes.items) (state_of old.now).unsynced;
    }) }
{
    let range = Range { from, count };
    let ranges = with_range(alloc, old.is_synced, old.ranges.as_slice(), range)?;
    let new = overwritten(alloc, old.bytes.as_slice(), from, bytes)?;
    let least = least(old.is_synced, old.least, old.bytes.len());
    Ok(Moment {
        bytes: new,
        is_synced: false,
        ranges,
        least,
    })
}

/// A cut.
pub fn after_cut(alloc: Global, old: &Moment, len: usize) -> Result<Moment, AllocError>
    requires { len ≤ length old.now.bytes.items }
    ensures { IfOk result (λ new. state_of new ≡ after_cut len (state_of old.now)) }
{
    let mut ranges = Vec::new(alloc);
    if !old.is_synced {
        ranges.extend_from_slice(old.ranges.as_slice())?;
    }
    let bytes = Vec::from_slice(alloc, &old.bytes[..len])?;
    let least = least(old.is_synced, old.least, len);
    Ok(Moment {
        bytes,
        is_synced: false,
        ranges,
        least,
    })
}
