//! The least and the greatest of some integers.
ghost use Rattle.std.specs.Prelude.{◌≡◌, ◌≤◌, length};
ghost use Rattle.std.specs.Ordering.{int_cmp, ord_min, ord_max};
ghost use Rattle.blocks.specs.Frame.{least_in, greatest_in};

/// The least and the greatest of some integers.
#[derive(Clone, Copy)]
pub struct Bounds {
    pub least: i64,
    pub greatest: i64,
}

impl Bounds {
    fn with(self, n: i64) -> Bounds
        ensures least { result.least ≡ ord_min int_cmp n self.least }
        ensures greatest { result.greatest ≡ ord_max int_cmp n self.greatest }
    {
        let least = if self.least < n { self.least } else { n };
        let greatest = if self.greatest < n { n } else { self.greatest };
        Bounds { least, greatest }
    }
}

pub fn bounds_of(ints: &[i64]) -> Bounds
    requires { 1 ≤ length ints.now }
    ensures least { result.least ≡ least_in ints.now }
    ensures greatest { result.greatest ≡ greatest_in ints.now }
{
    let last = ints[ints.len() - 1];
    let mut bounds = Bounds {
        least: last,
        greatest: last,
    };
    for row in (0..ints.len() - 1).rev() {
        bounds = bounds.with(ints[row]);
    }
    bounds
}
