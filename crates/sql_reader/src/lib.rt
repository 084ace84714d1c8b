//! SQL: from a text to its syntax tree, and back to its canonical text.
#![tactic(auto)]

mod clauses;
mod fault;
mod laws;
mod reading;
mod refusing;

pub use fault::SqlFault;
pub use laws::{
    canonical_text_reads_back, literals_fit, queries_are_unique, trees_are_unique, trees_have_items,
};
pub use reading::read;
pub use sql_syntax::{print, tree};
