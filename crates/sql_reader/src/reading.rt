//! A query from the bytes of its text.
ghost use Rattle.std.specs.Prelude.{◌≡◌, IfOk, IfErr, length};
ghost use Rattle.sql_syntax.specs.Tokens.{all_located, tokens_of};
ghost use Rattle.sql_syntax.specs.declared.tree.Query.{Query};
ghost use Rattle.sql_reader.specs.Grammar.{IsWithin, IsRefusal, GivesQuery};
ghost use Rattle.sql_reader.specs.Refusing.{IsAnswer, IsKept};

use crate::clauses::query;
use crate::fault::SqlFault;
use crate::refusing::fault_of;
use meaning::MAX_QUERY_BYTES;
use sql_syntax::{Lexeme, Query, print, tokens};
use std::alloc::Global;
use std::mem::drop;

/// The syntax tree of a text. Where several refusals stand in a text, one of the whole text comes
/// first, then the one of the least offset, and that of the canonical text last. A text in which
/// too many are open, or whose tree is too deep, is refused for that where reading comes to it.
pub fn read(alloc: Global, text: &[u8]) -> Result<Query, SqlFault>
    // What is read is the tree of the text, within the limits.
    ensures tree { IfOk result (IsWithin text.now) }
    // A text that has a tree within the limits is read, unless memory runs out.
    ensures read { (q : Query) → IsWithin text.now q → GivesQuery q result }
    // A refusal is the first in the text.
    ensures refusal { IfErr result (IsRefusal text.now) }
{
    if text.len() > MAX_QUERY_BYTES {
        return Err(SqlFault::TooLong);
    }
    match str::from_utf8(text) {
        Ok(text) => read_text(alloc, text),
        Err(_) => Err(SqlFault::NotUtf8),
    }
}

fn read_text(alloc: Global, text: &str) -> Result<Query, SqlFault>
    ensures { IsAnswer (length text.now) (tokens_of text.now) result }
{
    let lexemes = tokens(alloc, text)?;
    read_lexemes(alloc, &lexemes, text.len())
}

/// The query of a text's tokens, and the text has so many bytes.
fn read_lexemes(alloc: Global, lexemes: &[Lexeme<'_>], end: usize) -> Result<Query, SqlFault>
    ensures { IsAnswer end (all_located lexemes.now) result }
{
    match query(alloc, lexemes) {
        Ok(query) => if_short(alloc, query),
        Err(stop) => Err(fault_of(alloc, stop, lexemes, end)),
    }
}

/// The query itself, unless its canonical text is too long.
fn if_short(alloc: Global, query: Query) -> Result<Query, SqlFault>
    ensures { IsKept query result }
{
    match print(alloc, &query) {
        Ok(canonical) => {
            if canonical.as_bytes().len() <= MAX_QUERY_BYTES {
                Ok(query)
            } else {
                drop(query);
                Err(SqlFault::TooLong)
            }
        }
        Err(_) => {
            drop(query);
            Err(SqlFault::Memory)
        }
    }
}
