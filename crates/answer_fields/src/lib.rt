//! The fields of answers and states as bytes: what is written and read below a whole answer.
//!
//! `specs/` has the formats; `docs/FORMATS.md` says them in words.
#![tactic(auto)]

mod fault;
mod fields;
mod format;
mod shape;
mod spare;
mod sums;
mod values;

pub use fault::DecodeFault;
pub use fields::{JobFields, take_job, take_shape};
pub use format::{Content, Format, format_in, is_state, take_format};
pub use shape::{AggregateShape, Shape, argument_code, is_shape_of, kind_code, shape_of_aggregate};
pub use spare::refill_text;
pub use sums::is_sum_of;
pub use values::{
    put_set, put_value, put_values, refill_values, take_set, take_value, take_values, unless_null,
};
