//! The last step: from groups to the rows of the answer, in their order, and their bytes.
#![tactic(auto)]

mod aggregates;
mod expanding;
mod finished;
mod finishing;
mod group_columns;
mod keyed;
mod lanes;
mod leading;
mod lent;
mod ordering;
mod print_fault;
mod printable;
mod printing;
mod repeats;
mod run;
mod runs;
mod showing;
mod shown;
mod sorting;
mod stop;
mod texts;

pub use finished::{Finished, FinishedText};
pub use finishing::{finish, finish_text};
pub use print_fault::PrintFault;
pub use printing::print_rows;
