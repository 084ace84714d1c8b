//! What fragments answer, and what a coordinator holds.

use crate::sequence::Sequence;
use crate::value::{Row, Value};

/// Arithmetic that failed: the row of the fact table, and the fault's code.
#[derive(Clone, Copy, PartialEq, Eq, Drop)]
pub struct RowFault {
    pub row: u64,
    pub code: u8,
}

/// What is known of a list of values that are not NULL: how many there are, their sum, the least,
/// the greatest, and the set of them, ascending. What an aggregate does not keep is 0, `None` or
/// empty.
#[derive(PartialEq, Eq, Drop)]
pub struct Statistics {
    pub count: u64,
    pub sum: i128,
    pub least: Option<Value>,
    pub greatest: Option<Value>,
    pub entries: Sequence<Value>,
}

/// A group: its key, how many rows it has, and the statistics of each aggregate.
#[derive(PartialEq, Eq, Drop)]
pub struct Group {
    pub key: Row,
    pub rows: u64,
    pub states: Sequence<Statistics>,
}

/// What is known of some rows: the groups in the order of their keys, or the fault of the least
/// row. `S` is what holds the groups.
#[derive(PartialEq, Eq, Drop)]
pub enum Body<S> {
    Groups(S),
    Fault(RowFault),
}

/// What is said of a fragment.
#[derive(Drop)]
pub struct Answer<S> {
    pub k: u32,
    pub body: Body<S>,
}

/// What a coordinator holds for a fragment.
#[derive(Drop)]
pub enum Cell<S> {
    Nothing,
    One(Body<S>),
    Conflict,
}
