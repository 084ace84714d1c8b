//! Where cells are marked, or looked for first: equal cells have one slot.
ghost use Rattle.std.specs.Prelude.{◌≡◌, ◌<◌};
ghost use Rattle.meaning.specs.declared.value.Value.TheVariants.{Int, Text};
ghost use Rattle.encodings.specs.Slots.{slot_of, mixed, word_of, value_slot};

use bit_packing::{window_at, word_at};

/// How many slots there are.
pub const HASH_SLOTS: usize = 32_768;

// The odd number nearest to 2^64 divided by the golden ratio: Knuth's multiplicative hashing.
const MULTIPLIER: u64 = 0x9E37_79B9_7F4A_7C15;

#[inline(always)]
#[tactic(auto, unfolding(crate::specs::Slots::slot_of))]
fn slot_of(word: u64) -> usize
    ensures value { result ≡ slot_of word }
    ensures below { result < 32768 }
{
    (word.wrapping_mul(MULTIPLIER) >> 49) as usize
}

#[inline(always)]
#[tactic(auto, unfolding(crate::specs::Slots::mixed))]
fn mixed(front: u64, back: u64) -> u64
    ensures { result ≡ mixed front back }
{
    let joined = front.wrapping_mul(MULTIPLIER).wrapping_add(back);
    joined.wrapping_add(joined >> 32)
}

/// The first bytes of a text, those in the middle of a longer one, and the last, as one number.
#[inline(always)]
fn word_of(text: &[u8]) -> u64
    ensures { result ≡ word_of text.now }
{
    if text.len() >= 16 {
        let front = mixed(window_at(text, 0), window_at(text, text.len() / 2 - 4));
        return mixed(front, window_at(text, text.len() - 8));
    }
    if text.len() >= 8 {
        return mixed(window_at(text, 0), window_at(text, text.len() - 8));
    }
    if text.len() >= 4 {
        let back = &text[text.len() - 4..];
        return mixed(u64::from(word_at(text, 0)), u64::from(word_at(back, 0)));
    }
    window_at(text, 0)
}

#[inline(always)]
pub fn slot_of_int(int: i64) -> usize
    ensures value { result ≡ value_slot (Int int) }
    ensures below { result < 32768 }
{
    slot_of(int.cast_unsigned())
}

#[inline(always)]
pub fn slot_of_text(text: &[u8]) -> usize
    ensures value { result ≡ value_slot (Text text.now) }
    ensures below { result < 32768 }
{
    slot_of(word_of(text))
}
