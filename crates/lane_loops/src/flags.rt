//! Flags of faults: whether a lane has one, and the least that is selected.
ghost use Rattle.std.specs.Prelude.{◌≡◌, ◌<◌, length, find, All};
ghost use Rattle.std.specs.List.{list_any, range_with_len};
ghost use Rattle.lane_loops.specs.Lanes.{AreLanes, cleared_flag, is_flag, is_flagged, kept_flag};

use vectors::Selection;

/// Whether any flag isn't 0.
pub fn has_flag(flags: &[u8]) -> bool
    ensures { result ≡ list_any is_flag flags.now }
{
    let mut is_any = false;
    for flag in flags {
        is_any |= *flag != 0;
    }
    is_any
}

#[inline(always)]
fn flag_unless_null(nulls: &[bool], flags: &[u8], lane: usize) -> u8
    requires nulls { lane < length nulls.now }
    requires flags { lane < length flags.now }
    ensures { result ≡ cleared_flag nulls.now flags.now lane }
{
    // Read in any case, so that there is no branch.
    let flag = flags[lane];
    if nulls[lane] { 0 } else { flag }
}

/// Takes the flag off each lane that is NULL: arithmetic on NULL is NULL, whatever stands in its
/// lane, and no fault.
pub fn clear_flags(nulls: &[bool], flags: &mut [u8])
    requires { length nulls.now ≡ length flags.old }
    ensures { AreLanes 0 (length flags.old) (cleared_flag nulls.now flags.old) flags.new }
{
    for i in 0..flags.len() {
        flags[i] = flag_unless_null(nulls, flags, i);
    }
}

#[inline(always)]
fn flag_if_marked(mask: &[bool], flags: &[u8], lane: usize) -> u8
    requires mask { lane < length mask.now }
    requires flags { lane < length flags.now }
    ensures { result ≡ kept_flag mask.now flags.now lane }
{
    let flag = flags[lane];
    if mask[lane] { flag } else { 0 }
}

/// Takes the flag off each lane that the mask doesn't mark.
pub fn keep_flags(mask: &[bool], flags: &mut [u8])
    requires { length mask.now ≡ length flags.old }
    ensures { AreLanes 0 (length flags.old) (kept_flag mask.now flags.old) flags.new }
{
    for i in 0..flags.len() {
        flags[i] = flag_if_marked(mask, flags, i);
    }
}

/// The least position whose flag isn't 0.
pub fn first_of_all(flags: &[u8]) -> Option<usize>
    ensures { result ≡ find (is_flagged flags.now) (range_with_len 0 (length flags.now)) }
{
    for i in 0..flags.len() {
        if flags[i] != 0 {
            return Some(i);
        }
    }
    None
}

fn first_of_positions(flags: &[u8], positions: &[u32]) -> Option<usize>
    requires { All (λ p. p < length flags.now) positions.now }
    ensures { result ≡ find (is_flagged flags.now) positions.now }
{
    for i in 0..positions.len() {
        let position = positions[i] as usize;
        if flags[position] != 0 {
            return Some(position);
        }
    }
    None
}

/// The least selected position whose flag isn't 0.
pub fn first_flagged(flags: &[u8], selection: &Selection) -> Option<usize>
    requires { selection.now.below ≡ length flags.now }
    ensures { result ≡ find (is_flagged flags.now) selection.now.list }
{
    match selection.positions() {
        None => first_of_all(flags),
        Some(positions) => first_of_positions(flags, positions),
    }
}
