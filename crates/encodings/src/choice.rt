//! A kind that cells are written in, and what was made for it ahead.
ghost use Rattle.std.specs.Prelude.{◌≡◌, None, Some};
ghost use Rattle.blocks.specs.declared.kind.Kind.TheVariants as kind;

use crate::dictionary::of_cells::Dictionary;
use blocks::Kind;

/// A kind, and the dictionary where it is one and was made already.
#[derive(Drop)]
pub struct Choice {
    pub kind: Kind,
    pub dictionary: Option<Dictionary>,
}

impl Choice {
    pub fn of_kind(kind: Kind) -> Choice
        ensures kind { result.kind ≡ kind }
        ensures dictionary { result.dictionary ≡ None }
    {
        Choice {
            kind,
            dictionary: None,
        }
    }

    pub fn of_dictionary(dictionary: Dictionary) -> Choice
        ensures kind { result.kind ≡ kind.Dict }
        ensures dictionary { result.dictionary ≡ Some dictionary }
    {
        Choice {
            kind: Kind::Dict,
            dictionary: Some(dictionary),
        }
    }
}
