//! How many bits hold a number.
ghost use Rattle.std.specs.Prelude.{◌-◌};
ghost use Rattle.bit_packing.specs.Widths.{IsWidth};

/// The least width in bits that holds a number.
pub fn width_of(number: u64) -> u32
    ensures { IsWidth number result }
{
    64 - number.leading_zeros()
}
