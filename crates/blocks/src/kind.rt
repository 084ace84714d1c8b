//! The four kinds of block.
ghost use Rattle.std.specs.Prelude.{◌≡◌, ◌<◌, MatchOption};
ghost use Rattle.blocks.specs.Kind.{kind_code};

/// How a block's bytes encode its values.
#[derive(Clone, Copy, Debug, PartialEq, Eq)]
pub enum Kind {
    /// The values one by one.
    Plain,
    /// Entries in ascending order, and a code for each row.
    Dict,
    /// Values with the lengths of their runs.
    Runs,
    /// A base, and an offset of a fixed width in bits for each row. Integers only.
    Frame,
}

impl Kind {
    /// The kind as a byte.
    pub fn byte(self) -> u8
        ensures { result ≡ kind_code self }
    {
        match self {
            Kind::Plain => 0,
            Kind::Dict => 1,
            Kind::Runs => 2,
            Kind::Frame => 3,
        }
    }

    /// The kind of a byte, if there is one.
    pub fn from_byte(byte: u8) -> Option<Kind>
        ensures { MatchOption result (3 < byte) (λ kind. kind_code kind ≡ byte) }
    {
        if byte == 0 {
            return Some(Kind::Plain);
        }
        if byte == 1 {
            return Some(Kind::Dict);
        }
        if byte == 2 {
            return Some(Kind::Runs);
        }
        if byte == 3 {
            return Some(Kind::Frame);
        }
        None
    }
}
