//! Masks of lanes.
ghost use Rattle.std.specs.Prelude.{◌≡◌, ◌<◌, ◌&&◌, false, length, not};
ghost use Rattle.lane_loops.specs.Lanes.{AreLanes, null_at};

#[inline(always)]
fn in_both(left: &[bool], right: &[bool], lane: usize) -> bool
    requires left { lane < length left.now }
    requires right { lane < length right.now }
    ensures { result ≡ (null_at left.now lane && null_at right.now lane) }
{
    left[lane] & right[lane]
}

/// Which lanes both masks mark.
pub fn mark_both(left: &[bool], right: &[bool], out: &mut [bool])
    requires left { length left.now ≡ length out.old }
    requires right { length right.now ≡ length out.old }
    ensures { AreLanes false (length out.old) (λ i. null_at left.now i && null_at right.now i)
        out.new }
{
    for i in 0..out.len() {
        out[i] = in_both(left, right, i);
    }
}

#[inline(always)]
fn in_first(left: &[bool], right: &[bool], lane: usize) -> bool
    requires left { lane < length left.now }
    requires right { lane < length right.now }
    ensures { result ≡ (null_at left.now lane && not (null_at right.now lane)) }
{
    left[lane] & !right[lane]
}

/// Which lanes the first mask marks and the second doesn't.
pub fn mark_first_alone(left: &[bool], right: &[bool], out: &mut [bool])
    requires left { length left.now ≡ length out.old }
    requires right { length right.now ≡ length out.old }
    ensures { AreLanes false (length out.old) (λ i. null_at left.now i && not (null_at right.now i))
        out.new }
{
    for i in 0..out.len() {
        out[i] = in_first(left, right, i);
    }
}
