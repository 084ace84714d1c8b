//! Theorems on what a query means: fragments' answers combine to the whole table's, in any order
//! and with any repeats, and what loads is such as the other laws ask for.
//!
//! A law is the contract of a function that does nothing, so that it is proved. `specs/` has the
//! statements, and `proofs/` the lemmas that a crate above cites.
#![tactic(auto)]

mod laws;

pub use laws::{
    answers_combine, cells_join, conditions_filter, evaluation_is_typed, faults_combine,
    fragments_combine, groups_fit, groups_merge, headline, joined_rows_are_matches,
    joins_are_lookups, kept_groups_merge, like_by_bytes, loaded_rows, loaded_tables_fit,
    one_combination, own_answers_fit, previews_are_meanings, previews_of_own_answers,
    reads_columns_used, reports_in_order, sets_ascend, sets_contain, sets_unite, sorts,
    sorts_are_equal, states_join, states_of_heard, statistics_merge, statistics_serve,
    whole_from_parts,
};
