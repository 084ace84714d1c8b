//! Keys of rows: in the order of their group indexes, compared, copied and hashed.
#![tactic(auto)]

mod close_ints;
mod column_keys;
mod hashing;
mod key_list;
mod keys;
mod plain_texts;
mod selected_ints;

pub use close_ints::{NOWHERE, are_known};
pub use hashing::{hash_in_group, hash_int, hash_row, hash_rows};
pub use key_list::KeyList;
pub use keys::{
    are_equal, compare_keys, copy_key, key_of, key_of_text, key_of_value, only_int, plain_key,
};
pub use plain_texts::plain_text_key;
pub use selected_ints::selected_key;
