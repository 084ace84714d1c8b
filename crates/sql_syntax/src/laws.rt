//! What holds of every tree of the grammar and its canonical text. The functions do nothing: their
//! contracts are the laws.

ghost use Rattle.std.specs.Prelude.{List, ℕ};
ghost use Rattle.std.specs.Str.{IsUtf8};
ghost use Rattle.sql_syntax.specs.Canonical.{canonical};
ghost use Rattle.sql_syntax.specs.CanonicalTokens.{canonical_tokens};
ghost use Rattle.sql_syntax.specs.Phrases.{Spells};
ghost use Rattle.sql_syntax.specs.Queries.{SpellsQuery, query_tokens};
ghost use Rattle.sql_syntax.specs.Tokens.{Terminal, terminals, tokens_of};
ghost use Rattle.sql_syntax.specs.declared.strength.Level.{Level};
ghost use Rattle.sql_syntax.specs.declared.strength.Level.TheVariants.{Disjunction};
ghost use Rattle.sql_syntax.specs.declared.tree.Expr.{Expr};
ghost use Rattle.sql_syntax.specs.declared.tree.Query.{Query};

/// The canonical tokens of an expression spell the same expression.
#[tactic(auto, using(crate::proofs::Canonical::canonical_spells))]
pub fn canonical_tokens_spell()
    ensures { (l : Level) (ts : List Terminal) (e : Expr) → Spells l ts e
        → Spells Disjunction (canonical_tokens e) e }
{}

/// The canonical tokens of a query spell the same query.
#[tactic(auto, using(crate::proofs::CanonicalQuery::query_good))]
pub fn canonical_query_tokens_spell()
    ensures { (ts : List Terminal) (q : Query) → SpellsQuery ts q → SpellsQuery (query_tokens q) q }
{}

/// The canonical text of a query spells the same query.
#[tactic(auto, using(crate::proofs::ApartQuery::canonical_again))]
pub fn canonical_text_spells_the_query()
    ensures { (bs : List ℕ) (q : Query) → SpellsQuery (terminals (tokens_of bs)) q
        → SpellsQuery (terminals (tokens_of (canonical q))) q }
{}

/// The canonical text of a query that a text of UTF-8 spells is UTF-8.
pub fn canonical_text_is_utf8()
    ensures { (bs : List ℕ) (q : Query) → IsUtf8 bs → SpellsQuery (terminals (tokens_of bs)) q
        → IsUtf8 (canonical q) }
{}
