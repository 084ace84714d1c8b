//! What stands in an answer, a state or a journal, as text, and how files are read for that, field by field.
#![tactic(auto)]

mod answers;
mod body;
mod cursor;
mod damage;
mod detail;
mod job_head;
mod journals;
mod numbers;
mod states;
mod values;

pub use answers::show_answer;
pub use cursor::Cursor;
pub use damage::{Damage, Stop, Wrong};
pub use detail::Detail;
pub use journals::show_journal;
pub use numbers::put_share;
pub use states::show_state;
pub use values::type_word;
