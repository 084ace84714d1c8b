//! Reserved words, and words that are left out.
ghost use Rattle.std.specs.Prelude.{◌≡◌};
ghost use Rattle.std.specs.List.{list_any};
ghost use Rattle.sql_syntax.specs.Words.{spelling_of, same_word, keyword_of, is_left_out};

/// The reserved words of the grammar.
#[derive(Clone, Copy, PartialEq, Eq)]
pub enum Keyword {
    And,
    As,
    Asc,
    Avg,
    Between,
    By,
    Case,
    Coalesce,
    Count,
    Desc,
    Distinct,
    Else,
    End,
    From,
    Group,
    Having,
    In,
    Inner,
    Is,
    Join,
    Left,
    Like,
    Limit,
    Max,
    Min,
    Not,
    Null,
    On,
    Or,
    Order,
    Outer,
    Select,
    Sum,
    Then,
    When,
    Where,
}

const KEYWORDS: [Keyword; 36] = [
    Keyword::And,
    Keyword::As,
    Keyword::Asc,
    Keyword::Avg,
    Keyword::Between,
    Keyword::By,
    Keyword::Case,
    Keyword::Coalesce,
    Keyword::Count,
    Keyword::Desc,
    Keyword::Distinct,
    Keyword::Else,
    Keyword::End,
    Keyword::From,
    Keyword::Group,
    Keyword::Having,
    Keyword::In,
    Keyword::Inner,
    Keyword::Is,
    Keyword::Join,
    Keyword::Left,
    Keyword::Like,
    Keyword::Limit,
    Keyword::Max,
    Keyword::Min,
    Keyword::Not,
    Keyword::Null,
    Keyword::On,
    Keyword::Or,
    Keyword::Order,
    Keyword::Outer,
    Keyword::Select,
    Keyword::Sum,
    Keyword::Then,
    Keyword::When,
    Keyword::Where,
];

/// Words that no name may be, since SQL has them, though not this grammar.
const LEFT_OUT: [&str; 19] = [
    "ALL",
    "ANY",
    "CROSS",
    "ESCAPE",
    "EXCEPT",
    "EXISTS",
    "FETCH",
    "FULL",
    "INTERSECT",
    "NATURAL",
    "NULLS",
    "OFFSET",
    "OVER",
    "RIGHT",
    "ROLLUP",
    "UNION",
    "USING",
    "WINDOW",
    "WITH",
];

impl Keyword {
    /// The keyword in capitals.
    pub fn spelling(self) -> &'static str
        ensures { result.now ≡ spelling_of self }
    {
        match self {
            Keyword::And => "AND",
            Keyword::As => "AS",
            Keyword::Asc => "ASC",
            Keyword::Avg => "AVG",
            Keyword::Between => "BETWEEN",
            Keyword::By => "BY",
            Keyword::Case => "CASE",
            Keyword::Coalesce => "COALESCE",
            Keyword::Count => "COUNT",
            Keyword::Desc => "DESC",
            Keyword::Distinct => "DISTINCT",
            Keyword::Else => "ELSE",
            Keyword::End => "END",
            Keyword::From => "FROM",
            Keyword::Group => "GROUP",
            Keyword::Having => "HAVING",
            Keyword::In => "IN",
            Keyword::Inner => "INNER",
            Keyword::Is => "IS",
            Keyword::Join => "JOIN",
            Keyword::Left => "LEFT",
            Keyword::Like => "LIKE",
            Keyword::Limit => "LIMIT",
            Keyword::Max => "MAX",
            Keyword::Min => "MIN",
            Keyword::Not => "NOT",
            Keyword::Null => "NULL",
            Keyword::On => "ON",
            Keyword::Or => "OR",
            Keyword::Order => "ORDER",
            Keyword::Outer => "OUTER",
            Keyword::Select => "SELECT",
            Keyword::Sum => "SUM",
            Keyword::Then => "THEN",
            Keyword::When => "WHEN",
            Keyword::Where => "WHERE",
        }
    }

    /// The keyword that a word is, in whatever case.
    #[tactic(auto, unfolding(crate::specs::Words::keyword_of))]
    pub fn of(word: &str) -> Option<Keyword>
        ensures { result ≡ keyword_of word.now }
    {
        KEYWORDS
            .iter()
            .copied()
            .find(|keyword| same_word(keyword.spelling(), word))
    }
}

/// Whether a word is reserved, in whatever case, and no keyword.
pub fn is_left_out(word: &str) -> bool
    ensures { result ≡ is_left_out word.now }
{
    is_among(word, &LEFT_OUT)
}

fn is_among(word: &str, words: &[&str]) -> bool
    ensures { result ≡ list_any (λ w. same_word w.now word.now) words.now }
{
    words.iter().any(|other| same_word(other, word))
}

fn same_word(left: &str, right: &str) -> bool
    ensures { result ≡ same_word left.now right.now }
{
    left.eq_ignore_ascii_case(right)
}
