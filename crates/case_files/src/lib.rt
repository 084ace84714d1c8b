//! Case files: their records, the words of a line, and bytes and texts that are spelled in them.
#![tactic(auto)]

mod byte_lines;
mod case_file;
mod escapes;
mod lanes;
mod lines;
mod stored;
mod word_list;

pub use byte_lines::bytes_of;
pub use case_file::{Record, records};
pub use escapes::escaped_bytes;
pub use lanes::{show_int, show_text};
pub use lines::{show_line, show_lines, show_printed};
pub use stored::{StoredFile, find, put_all};
pub use word_list::{Word, words};
