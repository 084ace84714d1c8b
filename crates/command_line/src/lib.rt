//! The command that the words of a command line ask for.
#![tactic(auto)]

mod commands;
mod found;
mod parser;
mod parsing;
mod parts;
mod reading;
mod tool_parser;
mod usage_fault;

pub use commands::{Command, GatherCommand, WorkCommand};
pub use parser::VERSION;
pub use parsing::{command, list_of_tools, refusal, text_if_any, texts};
pub use parts::Parts;
pub use reading::parts_of;
pub use usage_fault::UsageFault;
