//! How many bytes runs take.
ghost use Rattle.std.specs.Prelude.{◌≡◌, ◌≤◌, ◌<◌, ◌+◌, ◌-◌, if◌then◌else◌, length, map, take, drop, slice_index_or};
ghost use Rattle.meaning.specs.Limits.{row_group_rows};
ghost use Rattle.meaning.specs.declared.value.Value.TheVariants.{Null, Int, Text};
ghost use Rattle.meaning.specs.Order.{same_value, bytes};
ghost use Rattle.encodings.specs.Choosing.{body_size};
ghost use Rattle.meaning.specs.declared.value.ColType.TheVariants as of_type;
ghost use Rattle.blocks.specs.declared.kind.Kind.TheVariants as kind;

use crate::plain::encode::text_at;
use crate::runs::of_cells::{is_same_int, is_same_text};
use columns::TextList;

/// What the run takes that ends before a row, if one does.
#[inline(always)]
fn size_of_ended_int(ints: &[i64], row: usize) -> usize
    requires some { 0 < row }
    requires within { row < length ints.now }
    ensures value { result ≡ (if same_value (slice_index_or (map Int ints.now) (row - 1) Null)
        (slice_index_or (map Int ints.now) row Null) then 0 else 10) }
    ensures bound { result ≤ 10 }
{
    if is_same_int(ints, row - 1, row) {
        0
    } else {
        10
    }
}

pub fn runs_size_of_ints(ints: &[i64]) -> usize
    requires some { 1 ≤ length ints.now }
    requires few { length ints.now ≤ row_group_rows }
    ensures { result ≡ body_size kind.Runs of_type.Int (map Int ints.now) }
{
    let mut size = 0;
    for row in 1..ints.len() {
        size += size_of_ended_int(ints, row);
    }
    4 + size + 10
}

/// What the run takes that ends before a row, if one does.
fn size_of_ended_text(texts: &TextList, from: usize, to: usize, row: usize) -> usize
    requires some { 0 < row }
    requires within { to ≤ length texts.now }
    requires row { row < to - from }
    ensures value { let cells = map Text (take (to - from) (drop from texts.now)) in
        result ≡ (if same_value (slice_index_or cells (row - 1) Null)
        (slice_index_or cells row Null) then 0 else 2 +
        (4 + length (bytes (slice_index_or cells (row - 1) Null)))) }
    ensures bound { result ≤ 65541 }
{
    if is_same_text(texts, from + row - 1, from + row) {
        return 0;
    }
    6 + text_at(texts, from, to, row - 1).len()
}

pub fn runs_size_of_texts(texts: &TextList, from: usize, to: usize) -> usize
    requires some { from < to }
    requires within { to ≤ length texts.now }
    requires few { to - from ≤ row_group_rows }
    ensures { result ≡ body_size kind.Runs of_type.Text
        (map Text (take (to - from) (drop from texts.now))) }
{
    let mut size = 0;
    for row in 1..to - from {
        size += size_of_ended_text(texts, from, to, row);
    }
    4 + size + 6 + text_at(texts, from, to, to - from - 1).len()
}
