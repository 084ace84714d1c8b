//! The syntax of SQL: its tokens, the tree of a query, and a tree's canonical text.
//!
//! `specs/` has the grammar, as a relation between lists of tokens and trees; `laws` the theorems
//! on it.
#![tactic(auto)]

mod keyword;
mod laws;
mod lexer;
mod printer;
mod quoting;
mod strength;
mod token;
mod token_text;
pub mod tree;

pub use keyword::Keyword;
pub use laws::{
    canonical_query_tokens_spell, canonical_text_is_utf8, canonical_text_spells_the_query,
    canonical_tokens_spell,
};
pub use lexer::tokens;
pub use printer::print;
pub use quoting::push_undoubled;
pub use strength::{Level, Operator, level_of_arithmetic, sign_of_arithmetic, sign_of_comparison};
pub use token::{Lexeme, Sign, Token};
pub use tree::{
    Aggregate, Arm, Direction, Expr, Item, JoinKind, Joined, OrderKey, OrderTarget, Query, Source,
    Table,
};
