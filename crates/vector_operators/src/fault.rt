//! The fault of the least position so far.
ghost use Rattle.std.specs.Prelude.{◌≡◌, Some, None};
ghost use Rattle.vector_operators.specs.Evaluated.{noted};

use meaning::Fault;

/// A fault, and the position of the row that has it.
#[derive(Clone, Copy)]
pub struct Faulted {
    pub position: usize,
    pub fault: Fault,
}

/// The fault of the least position so far, or none. Lanes past that position are open.
#[derive(Clone, Copy)]
pub struct Fault1 {
    pub held: Option<Faulted>,
}

impl Fault1 {
    /// None so far.
    pub fn new() -> Fault1
        ensures { result.held ≡ None }
    {
        Fault1 { held: None }
    }

    /// A fault more: it replaces the one that is held only at a strictly smaller position.
    pub fn note(&mut self, found: Faulted)
        ensures { self.new.held ≡ noted self.old.held (Some found) }
    {
        match self.held {
            Some(held) if held.position <= found.position => {}
            _ => self.held = Some(found),
        }
    }
}
