//! Coordinators through any list of events.
#![tactic(auto)]

mod copying;
mod event;
mod laws;
mod running;
mod taking;
mod world;

pub use event::Event;
pub use laws::posts_are_answers;
pub use running::run_world;
