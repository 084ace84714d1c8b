//! Sums of integers.
ghost use Rattle.std.specs.Prelude.{◌≡◌};
ghost use Rattle.meaning.specs.Fitting as fitting;

/// Whether n integers of 64 bits can have this sum.
#[inline(always)]
pub fn is_sum_of(n: u64, sum: i128) -> bool
    ensures { result ≡ fitting.is_sum_of n sum }
{
    let n = i128::from(n);
    n * i128::from(i64::MIN) <= sum && sum <= n * i128::from(i64::MAX)
}
