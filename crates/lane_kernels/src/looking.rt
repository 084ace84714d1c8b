//! What a load knows of the integers that it takes.
ghost use Rattle.std.specs.Prelude.{◌≤◌, ◌+◌, length};
ghost use Rattle.std.specs.Int.{w64};
ghost use Rattle.std.specs.Int.RustNames.{FitsSigned};
ghost use Rattle.std.specs.Simd.Lanes.{chunk, Each1};

/// That an integer has 64 bits. No effect at run time: the proof reads it from the load, and doesn't
/// know it of a signed integer that is lent.
#[inline(always)]
pub fn look_at(int: &i64)
    ensures { FitsSigned w64 int.now }
{
    let _int = *int;
}

/// The same of eight integers.
#[inline(always)]
pub fn look_at_eight(ints: &[i64], start: usize)
    requires { start + 8 ≤ length ints.now }
    ensures { Each1 (FitsSigned w64) (chunk start 8 ints.now) }
{
    for k in 0..8 {
        look_at(&ints[start + k]);
    }
}
