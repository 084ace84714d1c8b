//! Rows that all have one group index.
ghost use Rattle.std.specs.Prelude.{◌≡◌, ◌<◌, length, true, All, IfSome};

/// Whether all rows have this group index. Compares all of them, so that the loop has no branch.
fn are_all(group_indexes: &[u32], group_index: u32) -> bool
    ensures { result ≡ true → All (λ p. p ≡ group_index) group_indexes.now }
{
    let mut same = true;
    for k in 0..group_indexes.len() {
        same &= group_indexes[k] == group_index;
    }
    same
}

/// The group index of all rows, where they have one.
pub fn one_group_index(group_indexes: &[u32]) -> Option<u32>
    ensures all { IfSome result (λ group_index. All (λ p. p ≡ group_index) group_indexes.now) }
    ensures some { IfSome result (λ group_index. 0 < length group_indexes.now) }
{
    let group_index = *group_indexes.first()?;
    // The first and the last row show it of most that have several.
    if *group_indexes.last()? != group_index {
        return None;
    }
    if are_all(group_indexes, group_index) {
        return Some(group_index);
    }
    None
}
