//! Cases of expressions over batches: what expressions in postfix give on rows of a case, and whether
//! they give what the oracle gives.
#![tactic(auto)]

mod agreeing;
mod combinations;
mod evaluating;
mod postfix;

pub use agreeing::show_agreement;
pub use evaluating::show_expressions;
pub use postfix::postfix_expression;
