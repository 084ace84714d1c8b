//! The commands beside the four that answer queries.
#![tactic(auto)]

mod asking;
mod explaining;
mod running;
mod words;

pub use asking::asked;
pub use running::run;
pub use words::{CheckWords, ExplainWords, InitWords, ShowWords, Tool};
