//! The buffers in which one group after the other is read.
use aggregate_states::State;
use meaning::{Row, Value};
use std::alloc::Global;

/// The buffers of groups that were packed.
#[derive(Drop)]
pub struct Buffers {
    pub key: Vec<Value>,
    pub states: Vec<State>,
}

impl Buffers {
    /// Empty ones. Takes no memory.
    pub fn new(alloc: Global) -> Buffers {
        Buffers {
            key: Vec::new(alloc),
            states: Vec::new(alloc),
        }
    }
}

/// The buffer of a key that is given up, if there is one.
pub fn key_buffer(alloc: Global, key: Option<Row>) -> Vec<Value> {
    match key {
        Some(key) => key.into_vec(),
        None => Vec::new(alloc),
    }
}
