//! Entries of sets.
ghost use Rattle.std.specs.Prelude.{◌≡◌, IfOk};

use meaning::Value;
use std::alloc::AllocError;

/// A value that is in the set of a group.
#[derive(Clone, Drop)]
pub struct Entry {
    pub group_index: u32,
    pub value: Value,
}

/// A group index as entries have it. More than 2^32 groups are refused as more than memory holds.
#[inline(always)]
pub fn narrow(group_index: usize) -> Result<u32, AllocError>
    ensures { IfOk result (λ narrow. narrow ≡ group_index) }
{
    match u32::try_from(group_index) {
        Ok(group_index) => Ok(group_index),
        Err(_) => Err(AllocError),
    }
}
