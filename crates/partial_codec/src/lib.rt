//! Jobs, and as bytes the answers of fragments and the states of coordinators.
//!
//! An answer or a state has one spelling for a job in each format that has its kinds of aggregates.
//! Both formats are read, and the newer is written. Each refusal of bytes names the first thing from
//! front to back that is wrong with them. `specs/` has the formats; `docs/FORMATS.md` says them in words.
#![tactic(auto)]

mod check;
mod decoding;
mod encoding;
mod job;
mod laws;
mod state;
mod state_check;

pub use aggregate_states::Group;
pub use answer_fields::{Content, DecodeFault, Format, format_in, is_state};
pub use decoding::{decode, first_row};
pub use encoding::encode;
pub use job::Job;
pub use laws::{newest_has_all_kinds, one_answer, one_spelling, one_state, one_state_spelling};
pub use meaning::{Answer, Body, Cell};
pub use state::{decode_state, encode_state};
