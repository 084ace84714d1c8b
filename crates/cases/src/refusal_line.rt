//! The line of a refusal.
use cli::print_refusal;
use folders::Refusal;
use std::alloc::{AllocError, Global};

/// The line by which the program reports a refusal.
pub fn refusal_line(alloc: Global, refusal: &Refusal) -> Result<String, AllocError> {
    let mut line = Vec::new(alloc);
    match print_refusal(refusal, &mut line) {
        Ok(()) => String::from_utf8_lossy(alloc, line.as_slice()),
        Err(_) => Err(AllocError),
    }
}
