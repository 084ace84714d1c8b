//! Where in its text a query is refused, and what could be written there.
#![tactic(auto)]

mod caret;
mod clauses;
mod grammar;
mod hint;
mod left_out;
mod lookup;
mod near;
mod place;
mod plan_hints;
mod typing;
mod used;

pub use hint::{put_plan_hint, put_sql_hint};
pub use lookup::{doubtful_column, missing_column, missing_item, missing_table, ungrouped_column};
pub use place::Place;
pub use typing::{Misfit, first_misfit};
pub use used::{Used, names_used};
