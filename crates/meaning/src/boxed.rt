//! A part of a tree on the heap, which contracts see as the part itself.

ghost use Rattle.std.specs.Prelude.{◌≡◌, IfOk};

use std::alloc::{AllocError, Global};
use std::marker::Model;

/// A part of a tree, kept on the heap. Contracts see the part itself, wherever it lies in memory.
#[derive(Drop)]
pub struct Boxed<T> {
    content: Box<T>,
}

impl<T> Model for Boxed<T> {
    ghost Value = { T };

    ghost coded = { T.code };

    ghost view = { λ b. b.content.value };
}

impl<T> Boxed<T> {
    pub fn get(&self) -> &T
        ensures { result.now ≡ self.now }
    {
        &self.content
    }

    /// Gives the part back.
    pub fn into_inner(self) -> T
        ensures { result ≡ self }
    {
        let Boxed { content } = self;
        Box::into_inner(content)
    }
}

impl<T: Drop> Boxed<T> {
    pub fn new(alloc: Global, part: T) -> Result<Boxed<T>, AllocError>
        ensures { IfOk result (λ b. b ≡ part) }
    {
        Ok(Boxed {
            content: Box::new(alloc, part)?,
        })
    }
}
