//! The fragments of a cut that are still to come.
ghost use Rattle.std.specs.Prelude.{◌≡◌, ◌+◌, ◌^◌, ◌<◌, sum};

use meaning::Cut;

/// The fragments that are still to come.
#[derive(Clone, Copy)]
pub struct Ahead<'c> {
    /// How many rows each of them has.
    pub lengths: &'c [u32],
    /// The number of the next row.
    pub first: u64,
    ghost few: { first + sum lengths.now < 2 ^ 64 },
}

impl<'c> Ahead<'c> {
    /// All fragments of a cut.
    pub fn of(cut: &'c Cut) -> Ahead<'c>
        ensures lengths { result.lengths.now ≡ cut.now }
        ensures first { result.first ≡ 0 }
    {
        Ahead {
            lengths: cut.lengths(),
            first: 0,
        }
    }
}
