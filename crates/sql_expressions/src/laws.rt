//! What holds of every list of tokens. The function does nothing: its contract is the law.

ghost use Rattle.std.specs.Prelude.{◌≡◌, List};
ghost use Rattle.sql_syntax.specs.Phrases.{Spells};
ghost use Rattle.sql_syntax.specs.Tokens.{Terminal};
ghost use Rattle.sql_syntax.specs.declared.strength.Level.{Level};
ghost use Rattle.sql_syntax.specs.declared.tree.Expr.{Expr};

/// A list of tokens spells at most one expression of the whole grammar by a rule.
#[tactic(auto, using(crate::proofs::Complete::unique))]
pub fn expressions_are_unique()
    ensures { (l : Level) (ts : List Terminal) (a b : Expr) → Spells l ts a → Spells l ts b
        → a ≡ b }
{}
