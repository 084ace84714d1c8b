//! What stands in a row's cell while a dictionary is made of it: an integer, or the bytes of a
//! text.
ghost use Rattle.std.specs.Prelude.{◌≡◌, ◌<◌};
ghost use Rattle.meaning.specs.declared.value.Value.{Value};
ghost use Rattle.meaning.specs.declared.value.Value.TheVariants.{Int, Text};
ghost use Rattle.meaning.specs.Order.{value_cmp, same_value};
ghost use Rattle.encodings.specs.Cell.{int_order, int_same, text_order, text_same};

use crate::dictionary::slots::{slot_of_int, slot_of_text};

/// Where a cell is looked for first.
pub trait Slotted {
    fn slot(&self) -> usize
        ensures { result < 32768 };
}

/// A cell with the order of its value.
pub trait Cell: Copy + Drop + Slotted + Ord {
    ghost value: { Self → Value };

    ghost order: { (a b : Self) → Self.cmp a b ≡ value_cmp (value a) (value b) };

    ghost same: { (a b : Self) → Self.eq a b ≡ same_value (value a) (value b) };
}

impl Slotted for i64 {
    fn slot(&self) -> usize {
        slot_of_int(*self)
    }
}

impl Cell for i64 {
    ghost value = { Int };

    ghost order = { int_order };

    ghost same = { int_same };
}

impl Slotted for &[u8] {
    fn slot(&self) -> usize {
        slot_of_text(self)
    }
}

impl Cell for &[u8] {
    ghost value = { λ text. Text text.now };

    ghost order = { λ a b. text_order a.now b.now };

    ghost same = { λ a b. text_same a.now b.now };
}
