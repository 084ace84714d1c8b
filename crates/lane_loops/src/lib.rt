//! Plain loops over lanes, one for each operator.
#![tactic(auto)]

mod choosing;
mod comparing;
mod dividing;
mod flags;
mod laws;
mod like;
mod masks;
mod multiplying;
mod nulls;
mod small;
mod truths;
mod wildcards;

pub use choosing::{
    choose, not_false_lanes, not_true_lanes, true_lanes, truths_of_bits, truths_unless_null,
};
pub use comparing::{compare_texts, compare_texts_to, compare_texts_to_at};
pub use dividing::{div_ints, div_ints_at, neg_ints};
pub use flags::{clear_flags, first_flagged, first_of_all, has_flag, keep_flags};
pub use lane_kernels::{add_ints, compare_ints, compare_ints_to, mask_to_places, sub_ints};
pub use laws::lanes_are_returned;
pub use like::{LikePattern, like_texts, like_texts_at};
pub use masks::{mark_both, mark_first_alone};
pub use multiplying::mul_ints;
pub use nulls::{are_not_null, are_null, or_nulls};
pub use small::{operate_small, operate_small_from, operate_small_to};
pub use truths::{and_truths, not_truths, or_truths};
