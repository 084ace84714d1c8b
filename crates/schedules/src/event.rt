//! What may happen to coordinators.

/// An event in a run of coordinators. Coordinators are numbered from 0, and so are packets, in the
/// order in which they are sent.
#[derive(Drop)]
pub enum Event {
    /// Bytes are sent, which may encode an answer.
    Post(Vec<u8>),
    /// A coordinator sends what it holds.
    Share(usize),
    /// A packet comes to a coordinator.
    Take { to: usize, packet: usize },
    /// A coordinator saves what it holds.
    Save(usize),
    /// A coordinator goes back to what it saved last, or to nothing where it saved nothing.
    Restart(usize),
}
