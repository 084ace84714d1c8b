//! The slots of a hash table of integers.

use crate::marks::{Marks, NO_MARKS};

/// An integer in the sets of the groups of a block that are marked. Where none is, the slot is empty.
#[derive(Clone, Copy)]
pub struct IntSlot {
    pub block: u32,
    pub marks: Marks,
    pub value: i64,
}

pub const EMPTY: IntSlot = IntSlot {
    block: 0,
    marks: NO_MARKS,
    value: 0,
};
