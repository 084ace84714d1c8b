//! The words of queries that can't be names.
ghost use Rattle.std.specs.Prelude.{◌≡◌, bytes_eq};
ghost use Rattle.std.specs.List.{list_any};
ghost use Rattle.meaning.specs.Reserved.{grammar_words, left_out_words, is_one_of, is_reserved};

/// The words of the grammar of queries, in lower case.
pub const GRAMMAR_WORDS: [&str; 36] = [
    "and", "as", "asc", "avg", "between", "by", "case", "coalesce", "count", "desc", "distinct",
    "else", "end", "from", "group", "having", "in", "inner", "is", "join", "left", "like", "limit",
    "max", "min", "not", "null", "on", "or", "order", "outer", "select", "sum", "then", "when",
    "where",
];

/// The words of SQL that queries leave out, in lower case.
pub const LEFT_OUT_WORDS: [&str; 19] = [
    "all",
    "any",
    "cross",
    "escape",
    "except",
    "exists",
    "fetch",
    "full",
    "intersect",
    "natural",
    "nulls",
    "offset",
    "over",
    "right",
    "rollup",
    "union",
    "using",
    "window",
    "with",
];

fn is_one_of(words: &[&str], word: &[u8]) -> bool
    ensures { result ≡ list_any (λ other. bytes_eq word.now other.now) words.now }
{
    words.iter().any(|other| word == other.as_bytes())
}

/// Whether the word, in lower case, is of the grammar.
pub fn is_grammar_word(word: &[u8]) -> bool
    ensures { result ≡ is_one_of grammar_words word.now }
{
    is_one_of(&GRAMMAR_WORDS, word)
}

/// Whether the word, in lower case, is one of those that queries leave out.
pub fn is_left_out_word(word: &[u8]) -> bool
    ensures { result ≡ is_one_of left_out_words word.now }
{
    is_one_of(&LEFT_OUT_WORDS, word)
}

/// Whether nothing can have the word, in lower case, for a name.
pub fn is_reserved(word: &[u8]) -> bool
    ensures { result ≡ is_reserved word.now }
{
    is_grammar_word(word) || is_left_out_word(word)
}
