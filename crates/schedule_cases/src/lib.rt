//! Kinds of cases: lists of events of several coordinators, written down or random, and coordinators that
//! are refused memory.
#![tactic(auto)]

mod accounts;
mod event_lists;
mod random_schedules;
mod refused_memory;

pub use event_lists::show_schedule;
pub use random_schedules::show_random_schedules;
pub use refused_memory::show_refused_memory;
