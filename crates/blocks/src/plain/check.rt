//! Whether bytes are values that stand one by one: integers of 64 bits, or the ends of texts and
//! then the texts.
ghost use Rattle.std.specs.Prelude.{◌≡◌, ◌*◌, ◌-◌, ◌≤◌, true, length, ◌↔◌, IsTrue};
ghost use Rattle.std.specs.List.{list_all};
ghost use Rattle.std.specs.Str.{IsCharBoundary};
ghost use Rattle.meaning.specs.Limits.{row_group_rows, max_text_bytes};
ghost use Rattle.columns.specs.Column.{is_text};
ghost use Rattle.blocks.specs.Plain.{is_values_form, are_ends};
ghost use Rattle.bit_packing.specs.Bytes.{words};
ghost use Rattle.columns.specs.Texts.{texts_from};

use bit_packing::word_at;
use meaning::{ColType, MAX_TEXT_BYTES};

fn are_ends(count: usize, bytes: &[u8], total: usize) -> bool
    requires { 4 * count ≤ length bytes.now }
    ensures { result ≡ are_ends 0 (words count bytes.now) total }
{
    let mut start = 0;
    for i in 0..count {
        let end = word_at(bytes, i) as usize;
        if end < start {
            return false;
        }
        start = end;
    }
    start == total
}

/// Whether a text from one offset up to another isn't too long and ends between characters.
#[inline(always)]
fn is_cut(joined: &[u8], start: usize, end: usize) -> bool
    requires ordered { start ≤ end }
    requires within { end ≤ length joined.now }
    ensures { IsTrue result ↔ ((end - start ≤ max_text_bytes) × IsCharBoundary joined.now end) }
{
    if MAX_TEXT_BYTES < end - start {
        return false;
    }
    if end == joined.len() {
        return true;
    }
    joined[end] < 128 || 192 <= joined[end]
}

/// Whether all are texts: the joined bytes as a whole, cut between characters.
fn are_texts(count: usize, bytes: &[u8], joined: &[u8]) -> bool
    requires front { 4 * count ≤ length bytes.now }
    requires ends { are_ends 0 (words count bytes.now) (length joined.now) ≡ true }
    ensures { result ≡ list_all is_text (texts_from 0 (words count bytes.now) joined.now) }
{
    if str::from_utf8(joined).is_err() {
        return false;
    }
    let mut start = 0;
    for i in 0..count {
        let end = word_at(bytes, i) as usize;
        if !is_cut(joined, start, end) {
            return false;
        }
        start = end;
    }
    true
}

fn are_ended_texts(count: usize, bytes: &[u8]) -> bool
    requires { count ≤ row_group_rows }
    ensures { result ≡ is_values_form ColType.Text count bytes.now }
{
    if bytes.len() < 4 * count {
        return false;
    }
    let joined = &bytes[4 * count..];
    if !are_ends(count, bytes, joined.len()) {
        return false;
    }
    are_texts(count, bytes, joined)
}

/// Whether bytes are `count` values of a type and no more.
pub fn is_values_form(col_type: ColType, count: usize, bytes: &[u8]) -> bool
    requires { count ≤ row_group_rows }
    ensures { result ≡ is_values_form col_type count bytes.now }
{
    match col_type {
        ColType::Int => bytes.len() == 8 * count,
        ColType::Text => are_ended_texts(count, bytes),
    }
}
