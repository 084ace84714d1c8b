//! Vectors: short pieces of columns, or what an expression gives on some rows.
ghost use Rattle.std.specs.Prelude.{◌≡◌, length};
ghost use Rattle.vectors.specs.Vector.{outcomes_of};

use crate::ints::Ints;
use crate::texts::Texts;
use crate::truths::Truths;

/// Lanes of one kind. After MonetDB/X100, a vector is what operators pass on: small enough for the
/// cache.
#[derive(Drop)]
pub enum Vector<'a> {
    Ints(Ints<'a>),
    Texts(Texts<'a>),
    Truths(Truths),
}

impl<'a> Vector<'a> {
    /// How many lanes there are.
    pub fn len(&self) -> usize
        ensures { result ≡ length (outcomes_of self.now) }
    {
        match self {
            Vector::Ints(ints) => ints.len(),
            Vector::Texts(texts) => texts.len(),
            Vector::Truths(truths) => truths.len(),
        }
    }
}
