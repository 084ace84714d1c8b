//! Cases of vectors: loops over lanes, and selections; and the words, cells and batches that cases of
//! vectors are spelled in.
#![tactic(auto)]

mod batches;
mod cells;
mod lanes;
mod selections;
mod words;

pub use batches::{CaseColumn, MOST_ROWS, batch_of, show_lane, show_lanes};
pub use cells::Cells;
pub use lanes::show_lane_loop;
pub use selections::{mask_of, show_selection};
pub use words::{Steps, Word, comparison_of, digits_of, quoted, steps_of, word_of};
