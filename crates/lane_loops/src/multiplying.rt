//! Products lane by lane, with a flag where 64 bits don't hold one.
ghost use Rattle.std.specs.Prelude.{◌≡◌, ◌<◌, ◌*ℤ◌, pos, length, set};
ghost use Rattle.std.specs.Int.{int_wrap, w64};
ghost use Rattle.lane_loops.specs.Lanes.{AreLanes, int_at, overflow_bit};

#[inline(always)]
fn product_overflow(left: &[i64], right: &[i64], lane: usize) -> u8
    requires left { lane < length left.now }
    requires right { lane < length right.now }
    ensures { result ≡ overflow_bit (int_at left.now lane *ℤ int_at right.now lane) }
{
    let (_, is_over) = left[lane].overflowing_mul(right[lane]);
    u8::from(is_over)
}

#[inline(always)]
pub fn wrapped_product(left: i64, right: i64) -> i64
    ensures { result ≡ int_wrap w64 (left *ℤ right) }
{
    left.wrapping_mul(right)
}

#[inline(always)]
fn put_product(left: &[i64], right: &[i64], lane: usize, out: &mut [i64], over: &mut [u8])
    requires left { lane < length left.now }
    requires right { lane < length right.now }
    requires out { lane < length out.old }
    requires over { lane < length over.old }
    ensures wrapped { out.new
        ≡ set out.old lane (int_wrap w64 (int_at left.now lane *ℤ int_at right.now lane)) }
    ensures over { over.new ≡ set over.old lane
        (overflow_bit (int_at left.now lane *ℤ int_at right.now lane)) }
{
    over[lane] = product_overflow(left, right, lane);
    out[lane] = wrapped_product(left[lane], right[lane]);
}

/// The products, wrapped to 64 bits, and 1 in `over` where the exact one isn't held by these, else
/// 0.
pub fn mul_ints(left: &[i64], right: &[i64], out: &mut [i64], over: &mut [u8])
    requires left { length left.now ≡ length out.old }
    requires right { length right.now ≡ length out.old }
    requires over { length over.old ≡ length out.old }
    ensures wrapped { AreLanes (pos 0) (length out.old)
        (λ i. int_wrap w64 (int_at left.now i *ℤ int_at right.now i)) out.new }
    ensures over { AreLanes 0 (length out.old)
        (λ i. overflow_bit (int_at left.now i *ℤ int_at right.now i)) over.new }
{
    for i in 0..out.len() {
        put_product(left, right, i, out, over);
    }
}
