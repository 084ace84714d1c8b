//! What each refusal means: the tables of `docs/REFUSALS.md`.
#![tactic(auto)]

mod entries;
mod layers;
mod lookup;
mod reports;
mod table;

pub use entries::Entry;
pub use layers::Layer;
pub use lookup::{entry, entry_of, print_codes, print_known};
pub use table::of_words;
