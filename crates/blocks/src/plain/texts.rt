//! Texts that are joined, and where each ends.
ghost use Rattle.std.specs.Prelude.{◌≡◌, ◌-◌, ◌*◌, ◌<◌, ◌≤◌, length, slice_index_or, true, [], ◌∷◌, drop, take};
ghost use Rattle.std.specs.Simd.{first_chunks};
ghost use Rattle.blocks.specs.Plain.{ends_in, texts_in, are_texts};

use crate::numbers::chunks;

/// Texts that are joined, and where each ends.
#[derive(Clone, Copy)]
pub struct Texts<'a> {
    pub ends: &'a [[u8; 4]],
    pub joined: &'a [u8],
}

/// The texts of a values form.
pub fn texts_form<'a>(bytes: &'a [u8], count: usize) -> Texts<'a>
    requires { 4 * count ≤ length bytes.now }
    ensures ends { result.ends.now ≡ first_chunks 4 count bytes.now }
    ensures joined { result.joined.now ≡ drop (4 * count) bytes.now }
    ensures len { length result.ends.now ≡ count }
{
    Texts {
        ends: chunks::<4>(bytes, count),
        joined: &bytes[4 * count..],
    }
}

/// Where text `i` begins, and where the one before ends.
fn text_start(ends: &[[u8; 4]], i: usize) -> usize
    requires { i ≤ length ends.now }
    ensures { result ≡ slice_index_or (0 ∷ ends_in ends.now) i 0 }
{
    if i == 0 {
        return 0;
    }
    u32::from_le_bytes(ends[i - 1]) as usize
}

/// From where to where text `i` stands.
fn text_bounds(texts: Texts<'_>, i: usize) -> (usize, usize)
    requires within { i < length texts.ends.now }
    requires valid { are_texts texts.ends.now texts.joined.now ≡ true }
    ensures text { take (result.1 - result.0) (drop result.0 texts.entry.joined.now)
        ≡ slice_index_or (texts_in texts.entry.ends.now texts.entry.joined.now) i [] }
    ensures ordered { result.0 ≤ result.1 }
    ensures within { result.1 ≤ length texts.entry.joined.now }
{
    (text_start(texts.ends, i), text_start(texts.ends, i + 1))
}

/// Text `i`.
pub fn text_at<'a>(texts: Texts<'a>, i: usize) -> &'a [u8]
    requires within { i < length texts.ends.now }
    requires valid { are_texts texts.ends.now texts.joined.now ≡ true }
    ensures { result.now ≡ slice_index_or (texts_in texts.entry.ends.now texts.entry.joined.now) i
        [] }
{
    let (start, end) = text_bounds(texts, i);
    &texts.joined[start..end]
}
