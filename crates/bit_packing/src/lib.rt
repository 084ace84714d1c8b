//! Bits and numbers in bytes: masks of NULL rows, and offsets of a fixed width that are packed
//! without gaps.
#![tactic(auto)]

mod groups;
mod marked;
mod masks;
mod numbers;
mod offsets;
mod packing;
mod pieces;
mod raising;
mod unpacking;
mod widths;
mod windows;

pub use marked::are_marked;
pub use masks::{are_bits_clear, is_mask, read_nulls};
pub use numbers::{has_bit, integer_at, short_at, word_at};
pub use offsets::are_offsets;
pub use packing::{make_room, put_mask, put_offsets};
pub use pieces::unpack;
pub use raising::fill_raised;
pub use unpacking::row_offset;
pub use widths::width_of;
pub use windows::{are_unused_clear, window_at};
