//! Cases of lookups: a dimension that a case spells, rows that are looked up in it by their key, and its
//! columns beside them.
#![tactic(auto)]

mod dims;
mod left_looks;
mod looks;

use std::alloc::{AllocError, Global};

/// What comes of a dimension whose keys have the type that the words name, and of the lookups in
/// it.
pub fn show_lookups(alloc: Global, words: &[&str], body: &str) -> Result<String, AllocError> {
    let is_text = match words {
        [name] => *name == "text",
        _ => false,
    };
    let mut shown = String::new(alloc);
    dims::show(alloc, &mut shown, is_text, body)?;
    Ok(shown)
}
