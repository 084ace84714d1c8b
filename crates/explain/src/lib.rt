//! The plan of a query as text: its operators, and where each of its conditions is tested.
#![tactic(auto)]

mod column_types;
mod conditions;
mod explaining;
mod expressions;
mod names;
mod outline;
mod placing;
mod pointing;
mod words;

pub use explaining::{explain, explanation};
pub use placing::{Place, place_of};
