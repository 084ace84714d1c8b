//! Expressions of SQL, read from their tokens: one function a rule of the grammar.
#![tactic(auto)]

mod expressions;
mod laws;
mod parsed;
mod stop;
mod taking;

pub use expressions::{inner, push_entries};
pub use laws::expressions_are_unique;
pub use parsed::Parsed;
pub use stop::Stop;
pub use taking::{
    begins_integer, begins_name, begins_other, if_keyword, if_sign, integer, name, past_keyword,
    stop_at,
};
