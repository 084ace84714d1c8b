//! The folder of files that commands work on, and why a command is refused.
#![tactic(auto)]

mod files;
mod folder;
mod journal_refusal;
mod paths;
mod refusal;
mod tables;

pub use files::{
    close_file, create_file, finish_file, open_disk, open_file, put_file, read_catalog_file,
    read_file, refusal_of_file, remove_file, try_read, write_file,
};
pub use folder::Folder;
pub use journal_refusal::JournalRefusal;
pub use paths::{csv_path, cut_path, dimension_path, fragment_path};
pub use refusal::{Refusal, cannot_read_csv, load_refusal, work_refusal};
pub use tables::read_tables;
