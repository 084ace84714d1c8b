//! The clauses of a query, each planned by itself: the types of its expressions, the conjuncts and
//! join equalities, the aggregates, the keys, and what is shown.
#![tactic(auto)]

mod aggregates;
mod checking;
mod conjuncts;
mod keys;
mod showing;

pub use aggregates::Aggregates;
pub use checking::check;
pub use conjuncts::{Conjuncts, Equality, add_all, equality_for, left_equality_for};
pub use keys::{
    Keys, check_aggregates, check_keys, gather_having, gather_items, no_aggregates, no_keys,
    push_keys,
};
pub use showing::{having_of, push_items, push_order};
