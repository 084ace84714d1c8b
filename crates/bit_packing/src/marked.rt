//! Offsets of the rows that a mask marks.
ghost use Rattle.std.specs.Prelude.{◌≡◌, ℕ, ◌+◌, ◌*◌, ◌<◌, ◌≤◌, ◌==◌, ◌||◌, true, not, length};
ghost use Rattle.std.specs.List.{list_all, range_with_len};
ghost use Rattle.meaning.specs.Limits.{row_group_rows};
ghost use Rattle.bit_packing.specs.Bits.{all_set_pass, bit_at, bytes_of_bits, is_set};
ghost use Rattle.bit_packing.specs.Offsets.{offset_at};

use crate::unpacking::row_offset;
use crate::windows::{low_bits, window_at};

/// How many rows a word of the mask has a bit for.
const WORD_ROWS: usize = 64;

/// Whether each offset that a word marks is a number. The lowest bit of the word is that of row
/// `first`.
fn are_marked_in_word(
    number: u64,
    width: u8,
    packed: &[u8],
    rows: usize,
    first: usize,
    word: u64,
) -> bool
    requires narrow { width ≤ 64 }
    requires few { rows ≤ row_group_rows }
    requires within { rows * width ≤ 8 * length packed.now }
    requires marked { (i : ℕ) → is_set word i ≡ true → first + i < rows }
    ensures { result ≡ all_set_pass (λ i. offset_at width packed.now (first + i) == number) word }
{
    let mut marks = word;
    while marks != 0 {
        let row = first + marks.trailing_zeros() as usize;
        if row_offset(packed, width, row) != number {
            return false;
        }
        marks &= marks - 1;
    }
    true
}

/// How many rows stand from row `first` on, of which a word has no more than 64.
fn word_len(rows: usize, first: usize) -> usize
    requires { first < rows }
    ensures few { result ≤ 64 }
    ensures within { first + result ≤ rows }
    ensures last { result < 64 → first + result ≡ rows }
{
    if rows - first < WORD_ROWS {
        return rows - first;
    }
    WORD_ROWS
}

/// Whether the offset of each row whose bit is set is a number. Not within its caller, where the
/// loop has too few registers.
#[inline(never)]
pub fn are_marked(number: u64, width: u8, packed: &[u8], rows: usize, mask: &[u8]) -> bool
    requires narrow { width ≤ 64 }
    requires few { rows ≤ row_group_rows }
    requires within { rows * width ≤ 8 * length packed.now }
    requires covered { length mask.now ≡ bytes_of_bits rows }
    ensures { result ≡ list_all
        (λ i. not (bit_at mask.now i) || offset_at width packed.now i == number)
        (range_with_len 0 rows) }
{
    // Offsets of no bits are all 0: no row has to be looked at.
    if width == 0 && number == 0 {
        return true;
    }
    for k in 0..(rows + WORD_ROWS - 1) / WORD_ROWS {
        let first = WORD_ROWS * k;
        let word = low_bits(window_at(mask, 8 * k), word_len(rows, first));
        if !are_marked_in_word(number, width, packed, rows, first, word) {
            return false;
        }
    }
    true
}
