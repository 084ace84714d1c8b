//! Counts held against their limits.
ghost use Rattle.std.specs.Prelude.{◌≡◌, nat_le, ◌&&◌};

/// Whether there is one at least, and no more than `most`.
pub fn is_1_to(most: usize, count: u32) -> bool
    ensures { result ≡ (nat_le 1 count && nat_le count most) }
{
    1 <= count && count as usize <= most
}
