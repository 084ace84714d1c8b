//! What holds of every text and every tree. The functions do nothing: their contracts are the laws.

ghost use Rattle.std.specs.Prelude.{◌≡◌, ◌≢◌, ℕ, ◌≤◌, true, List, [], length};
ghost use Rattle.meaning.specs.Limits.{max_query_bytes};
ghost use Rattle.sql_syntax.specs.Canonical.{canonical};
ghost use Rattle.sql_syntax.specs.Literals.{has_only_fitting_literals};
ghost use Rattle.sql_syntax.specs.Queries.{SpellsQuery};
ghost use Rattle.sql_syntax.specs.Tokens.{Terminal};
ghost use Rattle.sql_syntax.specs.declared.tree.Query.{Query};
ghost use Rattle.sql_reader.specs.Grammar.{IsTree};

/// A text has at most one tree.
pub fn trees_are_unique()
    ensures { (bs : List ℕ) (q r : Query) → IsTree bs q → IsTree bs r → q ≡ r }
{}

/// The canonical text of a text's tree has the same tree.
pub fn canonical_text_reads_back()
    ensures { (bs : List ℕ) (q : Query) → IsTree bs q → IsTree (canonical q) q }
{}

/// A list of tokens spells at most one query of the whole grammar.
pub fn queries_are_unique()
    ensures { (ts : List Terminal) (q r : Query) → SpellsQuery ts q → SpellsQuery ts r → q ≡ r }
{}

/// The literals of the tree of a text that is not too long are values that a table may hold.
pub fn literals_fit()
    ensures { (bs : List ℕ) (q : Query) → IsTree bs q → length bs ≤ max_query_bytes
        → has_only_fitting_literals q ≡ true }
{}

/// The tree of a text has an item.
pub fn trees_have_items()
    ensures { (bs : List ℕ) (q : Query) → IsTree bs q → q.items ≢ [] }
{}
