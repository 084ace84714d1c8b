//! The parts of the program that refuse something by an error code.
ghost use Rattle.std.specs.Prelude.{◌≡◌, IfSome};
ghost use Rattle.refusals.specs.Codes.{layer_of, word_of};
ghost use Rattle.refusals.specs.Texts.{span_text};

/// A part of the program that refuses something by an error code.
#[derive(Clone, Copy, Debug, Drop, PartialEq, Eq)]
pub enum Layer {
    Catalog,
    Cut,
    Sql,
    Plan,
    Load,
    File,
    Work,
    Journal,
    /// Of files that `gather` passes over.
    Gather,
}

impl Layer {
    /// All of them, in the order of the page.
    pub const ALL: [Layer; 9] = [
        Layer::Catalog,
        Layer::Cut,
        Layer::Sql,
        Layer::Plan,
        Layer::Load,
        Layer::File,
        Layer::Work,
        Layer::Journal,
        Layer::Gather,
    ];

    /// The layer of the word that stands in front of the error code.
    pub fn of_word(word: &str) -> Option<Layer>
        ensures layer { result ≡ layer_of word.now }
        ensures word { IfSome result (λ layer. word.now ≡ word_of layer) }
    {
        match word {
            "catalog" => Some(Layer::Catalog),
            "cut" => Some(Layer::Cut),
            "sql" => Some(Layer::Sql),
            "plan" => Some(Layer::Plan),
            "load" => Some(Layer::Load),
            "file" => Some(Layer::File),
            "work" => Some(Layer::Work),
            "journal" => Some(Layer::Journal),
            "gather" => Some(Layer::Gather),
            _ => None,
        }
    }

    /// The word that stands in front of its error codes.
    pub fn word(self) -> &'static str
        ensures { result.now ≡ word_of self }
    {
        match self {
            Layer::Catalog => "catalog",
            Layer::Cut => "cut",
            Layer::Sql => "sql",
            Layer::Plan => "plan",
            Layer::Load => "load",
            Layer::File => "file",
            Layer::Work => "work",
            Layer::Journal => "journal",
            Layer::Gather => "gather",
        }
    }

    /// Its word, and its error codes for people.
    pub fn codes(self) -> &'static str
        ensures { result.now ≡ span_text self }
    {
        match self {
            Layer::Catalog => "catalog 1 to 6",
            Layer::Cut => "cut 1 to 3",
            Layer::Sql => "sql 1 to 8",
            Layer::Plan => "plan 1 to 13",
            Layer::Load => "load 1 to 9",
            Layer::File => "file 1 to 4 and 7",
            Layer::Work => "work 1 to 5",
            Layer::Journal => "journal 12 to 16",
            Layer::Gather => "gather 1 to 10",
        }
    }
}
