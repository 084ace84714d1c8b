//! Texts, one behind the other, and where each ends.
ghost use Rattle.std.specs.Prelude.{◌≡◌, ◌<◌, ◌≤◌, ◌-◌, [], ◌∷◌, ◌++◌, length, take, drop, slice_index_or, true, IfOk, OnOk, OnErr};
ghost use Rattle.std.specs.List.{concat, list_all};
ghost use Rattle.columns.specs.Column.{is_text};

use std::alloc::{AllocError, Global};
use std::marker::Model;

/// Texts of at most 65,535 bytes, one behind the other. Contracts see the list of their bytes.
#[derive(Drop)]
pub struct TextList {
    ends: Vec<usize>,
    joined: Vec<u8>,
}

impl Model for TextList {
    ghost use Rattle.std.specs.Prelude.{ℕ, List};
    ghost use Rattle.columns.specs.Texts.{AreTexts, texts_from};

    ghost Value = { List (List ℕ) };

    ghost view = { λ t. texts_from 0 t.ends.items t.joined.items };

    ghost invariant = { λ t. AreTexts t.ends.items t.joined.items
        (texts_from 0 t.ends.items t.joined.items) };
}

impl TextList {
    /// No text. Takes no memory.
    pub fn new(alloc: Global) -> TextList
        ensures { result ≡ [] }
    {
        TextList {
            ends: Vec::new(alloc),
            joined: Vec::new(alloc),
        }
    }

    /// No text, with room for the ends of so many.
    pub fn with_capacity(alloc: Global, texts: usize) -> Result<TextList, AllocError>
        ensures { IfOk result (λ list. list ≡ []) }
    {
        Ok(TextList {
            ends: Vec::with_capacity(alloc, texts)?,
            joined: Vec::new(alloc),
        })
    }

    /// The same texts, in memory of their own.
    pub fn copy(&self, alloc: Global) -> Result<TextList, AllocError>
        ensures { IfOk result (λ copy. copy ≡ self.now) }
    {
        let ends = Vec::from_slice(alloc, self.ends.as_slice())?;
        let joined = Vec::from_slice(alloc, self.joined.as_slice())?;
        Ok(TextList { ends, joined })
    }

    pub fn len(&self) -> usize
        ensures value { result ≡ length self.now }
        ensures texts { list_all is_text self.now ≡ true }
    {
        self.ends.len()
    }

    /// Where a text begins in the joined bytes: at index `len()`, where they end.
    fn start(&self, index: usize) -> usize
        requires { index ≤ length self.now }
        ensures { result ≡ length (concat (take index self.now)) }
    {
        if index == 0 {
            return 0;
        }
        self.ends[index - 1]
    }

    /// The bytes of the texts from one index up to another, one behind the other.
    pub fn joined(&self, from: usize, to: usize) -> &[u8]
        requires ordered { from ≤ to }
        requires within { to ≤ length self.now }
        ensures value { result.now ≡ concat (take (to - from) (drop from self.now)) }
        ensures texts { list_all is_text self.now ≡ true }
    {
        &self.joined[self.start(from)..self.start(to)]
    }

    /// The bytes of a text.
    pub fn get(&self, index: usize) -> &[u8]
        requires { index < length self.now }
        ensures value { result.now ≡ slice_index_or self.now index [] }
        ensures text { is_text result.now ≡ true }
    {
        &self.joined[self.start(index)..self.ends[index]]
    }

    /// Puts the bytes of a text behind the last. On an error nothing changes.
    pub fn push(&mut self, text: &[u8]) -> Result<(), AllocError>
        requires { is_text text.now ≡ true }
        ensures ok { OnOk result (self.new ≡ self.old ++ text.now ∷ []) }
        ensures err { OnErr result (self.new ≡ self.old) }
    {
        self.ends.reserve(1)?;
        self.joined.extend_from_slice(text)?;
        self.ends.push_reserved(self.joined.len());
        Ok(())
    }
}
