//! The expressions of a query with their names looked up: which tables and columns FROM has, of
//! which sort an expression is, which expressions are the same, and what each becomes in a plan.
#![tactic(auto)]

mod basis;
mod building;
mod collecting;
mod fault;
mod from;
mod judging;
mod laws;
mod marks;
mod naming;
mod operators;
mod scope;
mod sort;
mod sort_rules;
mod spelling;
mod translating;
mod using;

pub use basis::{Basis, column_of, written};
pub use fault::PlanFault;
pub use from::{is_left, name_of, scope_of};
pub use judging::judge;
pub use laws::{
    found_trees_are_equal, groups_mean, rows_are_typed, rows_mean, rows_translate,
    scopes_are_tables, spelled_trees_are_equal, spelled_trees_have_sorts, spelled_trees_mean,
    spelled_trees_translate,
};
pub use marks::{Mark, Operator, Spelling};
pub use scope::{Dim, Scope, ScopeColumn};
pub use sort::Sort;
pub use spelling::find_same;
pub use translating::translate;
pub use using::names;
