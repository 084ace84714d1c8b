//! Numbers in the bytes of a body, the lowest byte first.
ghost use Rattle.std.specs.Prelude.{◌≡◌, ◌≤◌, length, ◌*◌, ◌<◌};
ghost use Rattle.blocks.specs.Numbers.{count_of};
ghost use Rattle.std.specs.Simd.{first_chunks};

use bit_packing::word_at;

/// The number of entries or of runs, with which a body begins.
#[inline(always)]
pub fn leading_count(body: &[u8]) -> usize
    requires { 4 ≤ length body.now }
    ensures { result ≡ count_of body.now }
{
    word_at(body, 0) as usize
}

/// The first `count` chunks of `N` bytes.
pub fn chunks<const N: usize>(bytes: &[u8], count: usize) -> &[[u8; N]]
    requires size { 0 < N }
    requires within { count * N ≤ length bytes.now }
    ensures value { result.now ≡ first_chunks N count bytes.now }
    ensures len { length result.now ≡ count }
{
    let (chunks, _) = bytes.as_chunks::<N>();
    &chunks[..count]
}
