//! Texts with their quotes doubled, and back.
ghost use Rattle.std.specs.Prelude.{◌≡◌, ◌==◌, ◌++◌, ◌<◌, OnOk, length, string_bytes};
ghost use Rattle.std.specs.List.{before_first, after_first, position_or_len};
ghost use Rattle.sql_syntax.specs.CanonicalTokens.{doubled};
ghost use Rattle.sql_syntax.specs.Phrases.{undoubled};
ghost use Rattle.sql_syntax.specs.Quoting.{IsCutAtQuote, without_quote};

use std::alloc::AllocError;

/// What stands before the first quote, and what behind it.
fn at_quote(text: &str) -> Option<(&str, &str)>
    ensures { IsCutAtQuote text.now result }
{
    text.split_once('\'')
}

/// What stands behind a quote at the front, where one is there.
fn without_quote(text: &str) -> &str
    ensures { result.now ≡ without_quote text.now }
{
    if text.starts_with('\'') {
        let (_, rest) = text.split_at(1);
        rest
    } else {
        text
    }
}

/// Appends a text with each quote twice.
#[tactic(auto, using(crate::proofs::Doubling::doubled_cut, crate::proofs::Doubling::doubled_same, crate::proofs::Doubling::shorter_cut))]
pub fn push_doubled(out: &mut String, content: &str) -> Result<(), AllocError>
    ensures { OnOk result (string_bytes out.new ≡ string_bytes out.old ++ doubled content.now) }
{
    let mut rest = content;
    while let Some((front, behind)) = at_quote(rest) {
        out.push_str(front)?;
        out.push_str("''")?;
        rest = behind;
    }
    out.push_str(rest)
}

/// Appends a text with each two quotes as one.
#[tactic(auto, using(crate::proofs::Doubling::undoubled_cut, crate::proofs::Doubling::undoubled_same, crate::proofs::Doubling::shorter_cut))]
pub fn push_undoubled(out: &mut String, content: &str) -> Result<(), AllocError>
    ensures { OnOk result (string_bytes out.new ≡ string_bytes out.old ++ undoubled content.now) }
{
    let mut rest = content;
    while let Some((front, behind)) = at_quote(rest) {
        out.push_str(front)?;
        out.push_str("'")?;
        rest = without_quote(behind);
    }
    out.push_str(rest)
}
