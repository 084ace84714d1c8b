//! How large hash tables are.

// So many that few entries seldom share a first slot.
const LEAST_SLOTS: usize = 1024;

/// How many slots a table is to have in place of so many, where half of these are taken.
pub fn larger_size(taken: usize, slots: usize) -> Option<usize> {
    if taken < slots / 2 {
        return None;
    }
    Some(slots.saturating_mul(2).max(LEAST_SLOTS))
}
