//! How often an option stands among the words.
ghost use Rattle.std.specs.Prelude.{◌≡◌, ◌++◌, List, [], ◌∷◌, ℕ};
ghost use Rattle.command_line.specs.Found.{IsFound};
ghost use Rattle.command_line.specs.Words.{named_of, values};

use crate::parts::Given;

/// How often an option is given, and what it is.
#[derive(Copy, Clone, Drop)]
pub enum Found<'a> {
    Nothing,
    Once(&'a str),
    Often,
}

impl<'a> Found<'a> {
    /// The same when one more word was read.
    pub fn after(self, given: &Given<'a>, name: &str) -> Found<'a>
        ensures { (vs : List (List ℕ)) → IsFound vs self.entry
            → IsFound (vs ++ values name.now (named_of given.now ∷ [])) result }
    {
        if given.name != name {
            return self;
        }
        match self {
            Found::Nothing => Found::Once(given.value),
            Found::Once(_) => Found::Often,
            Found::Often => Found::Often,
        }
    }
}
