//! Keys by columns, held against vectors and rows.
ghost use Rattle.std.specs.Prelude.{◌≡◌, ◌<◌, [], length, slice_index_or, All, true};
ghost use Rattle.vectors.specs.Vector.{values_of};
ghost use Rattle.group_keys.specs.Rows.{row_at};

use aggregate_states::value_at;
use key_columns::{KeyColumns, is_same};
use vectors::Vector;

/// Whether a key is the one that these vectors have at a position.
#[inline(always)]
pub fn is_lane_key(keys: &KeyColumns, group_index: usize, lanes: &[Vector<'_>], at: usize) -> bool
    requires within { group_index < length keys.now }
    requires lanes { All (λ column. at < length (values_of column)) lanes.now }
    ensures same { result ≡ true → slice_index_or keys.now group_index [] ≡ row_at lanes.now at }
    ensures apart { slice_index_or keys.now group_index [] ≡ row_at lanes.now at → result ≡ true }
{
    if keys.width() != lanes.len() {
        return false;
    }
    for k in 0..lanes.len() {
        if !is_same(keys.value(group_index, k), value_at(&lanes[k], at)) {
            return false;
        }
    }
    true
}
