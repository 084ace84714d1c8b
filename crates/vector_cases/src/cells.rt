//! The values of a column that a case spells, as lanes of a vector.
use crate::words::Word;
use std::alloc::{AllocError, Global};
use vectors::{IntCells, Ints, Nulls, TextCells, Texts, Vector};

/// A cell for each value, in the list of its type; the other list has a blank there.
#[derive(Drop)]
pub struct Cells<'a> {
    is_text: bool,
    has_mask: bool,
    nulls: Vec<bool>,
    ints: Vec<i64>,
    texts: Vec<&'a [u8]>,
}

impl<'a> Cells<'a> {
    fn with_mask(alloc: Global, is_text: bool, has_mask: bool) -> Cells<'a> {
        Cells {
            is_text,
            has_mask,
            nulls: Vec::new(alloc),
            ints: Vec::new(alloc),
            texts: Vec::new(alloc),
        }
    }

    /// No cells yet. Their lanes have a mask where one of them is NULL.
    pub fn new(alloc: Global, is_text: bool) -> Cells<'a> {
        Cells::with_mask(alloc, is_text, false)
    }

    /// No cells yet. Their lanes have a mask, even where none of them is NULL.
    pub fn masked(alloc: Global, is_text: bool) -> Cells<'a> {
        Cells::with_mask(alloc, is_text, true)
    }

    fn push_cell(&mut self, is_null: bool, int: i64, text: &'a [u8]) -> Result<(), AllocError> {
        self.has_mask |= is_null;
        self.nulls.push(is_null)?;
        self.ints.push(int)?;
        self.texts.push(text)?;
        Ok(())
    }

    pub fn push(&mut self, word: Word<'a>) -> Result<(), AllocError> {
        match word {
            Word::Null => self.push_cell(true, 0, &[]),
            Word::Int(int) => self.push_cell(false, int, &[]),
            Word::Text(text) => self.push_cell(false, 0, text.as_bytes()),
        }
    }

    fn mask(&self) -> Option<&[bool]> {
        if self.has_mask {
            return Some(self.nulls.as_slice());
        }
        None
    }

    /// The cells of its type, as lanes.
    pub fn lanes(&self) -> Option<Vector<'_>> {
        if self.is_text {
            return lent_texts(self.texts.as_slice(), self.mask());
        }
        lent_ints(self.ints.as_slice(), self.mask())
    }
}

fn lent_ints<'c>(ints: &'c [i64], mask: Option<&'c [bool]>) -> Option<Vector<'c>> {
    match mask {
        None => Some(Vector::Ints(Ints::new(IntCells::Lent(ints), Nulls::None))),
        Some(mask) => masked_ints(ints, mask),
    }
}

fn masked_ints<'c>(ints: &'c [i64], mask: &'c [bool]) -> Option<Vector<'c>> {
    if ints.len() != mask.len() {
        return None;
    }
    Some(Vector::Ints(Ints::new(IntCells::Lent(ints), Nulls::Lent(mask))))
}

fn lent_texts<'c>(texts: &'c [&'c [u8]], mask: Option<&'c [bool]>) -> Option<Vector<'c>> {
    match mask {
        None => Some(Vector::Texts(Texts::new(TextCells::Lent(texts), Nulls::None))),
        Some(mask) => masked_texts(texts, mask),
    }
}

fn masked_texts<'c>(texts: &'c [&'c [u8]], mask: &'c [bool]) -> Option<Vector<'c>> {
    if texts.len() != mask.len() {
        return None;
    }
    Some(Vector::Texts(Texts::new(TextCells::Lent(texts), Nulls::Lent(mask))))
}
