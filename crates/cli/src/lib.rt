//! The commands of the program `xcols`, over a folder of files that is passed in.
#![tactic(auto)]

mod question;
mod refusal_lines;
mod running;
mod tables;
mod whole_refusal;

pub use command_line::{Command, UsageFault, command};
pub use folders::Folder;
pub use refusal_lines::print_refusal;
pub use running::{outcome, run};
