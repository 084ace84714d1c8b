//! Group indexes: the keys of rows in the order in which they came, and a hash table that leads to
//! them.
#![tactic(auto)]

mod index;
mod row_groups;

pub use group_keys::{KeyList, are_equal, compare_keys, copy_key, key_of_value};
pub use index::KeyIndex;
pub use row_groups::RowGroups;
