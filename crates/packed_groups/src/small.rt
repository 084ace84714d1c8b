//! Numbers that are mostly small: a byte where they are less than 255, and else eight behind one.
ghost use Rattle.std.specs.Prelude.{◌≡◌, ◌++◌, OnOk};
ghost use Rattle.packed_groups.specs.Packing.{small_bytes};
ghost use Rattle.packed_groups.specs.Reading.{small_at};
ghost use Rattle.wire.specs.Reading.{Reads};

use answer_fields::DecodeFault;
use std::alloc::AllocError;
use wire::{append_u8, append_u64, take_u8, take_u64};

#[tactic(auto, unfolding(crate::specs::Packing::small_bytes))]
#[inline(always)]
pub fn put_small(out: &mut Vec<u8>, n: u64) -> Result<(), AllocError>
    ensures { OnOk result (out.new.items ≡ out.old.items ++ small_bytes n) }
{
    if n < 255 {
        return append_u8(out, n as u8);
    }
    append_u8(out, 255)?;
    append_u64(out, n)
}

#[tactic(auto, unfolding(crate::specs::Reading::small_at, crate::specs::Reading::tagged_small_at))]
#[inline(always)]
pub fn take_small(bytes: &[u8]) -> Result<(u64, &[u8]), DecodeFault>
    ensures { Reads (λ x. (x.0, x.1.now)) result (small_at bytes.now) }
{
    let (tag, rest) = take_u8(bytes)?;
    if tag < 255 {
        return Ok((u64::from(tag), rest));
    }
    Ok(take_u64(rest)?)
}
