//! Tokens and their offsets.
ghost use Rattle.std.specs.Prelude.{◌≡◌};
ghost use Rattle.sql_syntax.specs.Queries.{sign_text};

use crate::keyword::Keyword;

#[derive(Clone, Copy, PartialEq, Eq)]
pub enum Sign {
    Open,
    Close,
    Comma,
    Dot,
    Semicolon,
    Plus,
    Minus,
    Star,
    Slash,
    Equal,
    NotEqual,
    Less,
    AtMost,
    Greater,
    AtLeast,
}

impl Sign {
    pub fn spelling(self) -> &'static str
        ensures { result.now ≡ sign_text self }
    {
        match self {
            Sign::Open => "(",
            Sign::Close => ")",
            Sign::Comma => ",",
            Sign::Dot => ".",
            Sign::Semicolon => ";",
            Sign::Plus => "+",
            Sign::Minus => "-",
            Sign::Star => "*",
            Sign::Slash => "/",
            Sign::Equal => "=",
            Sign::NotEqual => "<>",
            Sign::Less => "<",
            Sign::AtMost => "<=",
            Sign::Greater => ">",
            Sign::AtLeast => ">=",
        }
    }
}

/// A token, or what stands where no token can be read.
#[derive(Clone, Copy)]
pub enum Token<'a> {
    Keyword(Keyword),
    /// As it is written, in whatever case.
    Name(&'a str),
    /// At most 9223372036854775808, which is an integer only right behind a unary minus.
    Integer(u64),
    /// What stands between the quotes, with each inner quote doubled.
    Text(&'a str),
    Sign(Sign),
    /// A word or a sign that SQL has and this grammar doesn't, as it is written.
    LeftOut(&'a str),
    /// Digits that make more than 9223372036854775808.
    IntegerOutOfRange,
    TextNotClosed,
    UnknownCharacter,
}

/// A token and its offset: how many bytes of the text stand before it.
#[derive(Clone, Copy)]
pub struct Lexeme<'a> {
    pub token: Token<'a>,
    pub offset: usize,
}
