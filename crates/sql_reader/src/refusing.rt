//! The refusal that a text's reader reports, by where reading stopped.
ghost use Rattle.sql_reader.specs.Grammar.{refusal, refusal_at, refusal_of};
ghost use Rattle.sql_reader.specs.Refusing.{Reports};
ghost use Rattle.sql_syntax.specs.Tokens.{terminal_of, all_located};
ghost use Rattle.sql_syntax.specs.Words.{lower};
ghost use Rattle.std.specs.Prelude.{◌≡◌, IfOk, drop};

use crate::fault::SqlFault;
use meaning::Text;
use sql_expressions::Stop;
use sql_syntax::{Lexeme, Token};
use std::alloc::{AllocError, Global};

/// Why a text of `end` bytes with these tokens isn't read.
#[tactic(auto, using(crate::proofs::Answering::length_located))]
pub fn fault_of(alloc: Global, reason: Stop, lexemes: &[Lexeme<'_>], end: usize) -> SqlFault
    ensures { Reports result (refusal_of end (all_located lexemes.now) reason) }
{
    match reason {
        Stop::Memory => SqlFault::Memory,
        Stop::TooDeep => SqlFault::TooDeep,
        Stop::At(left) => refusal_at(alloc, lexemes, lexemes.len().saturating_sub(left), end),
    }
}

/// The refusal of the token at an index of the list, or of the end.
fn refusal_at(alloc: Global, lexemes: &[Lexeme<'_>], index: usize, end: usize) -> SqlFault
    ensures { Reports result (refusal_at end (drop index (all_located lexemes.now))) }
{
    match lexemes.get(index) {
        Some(lexeme) => refusal(alloc, lexeme.token, lexeme.offset),
        None => SqlFault::UnexpectedToken { offset: end },
    }
}

fn refusal(alloc: Global, token: Token<'_>, offset: usize) -> SqlFault
    ensures { Reports result (refusal (terminal_of token.entry) offset) }
{
    match token {
        Token::Integer(number) => {
            if number <= i64::MAX as u64 {
                SqlFault::UnexpectedToken { offset }
            } else {
                SqlFault::IntegerOutOfRange { offset }
            }
        }
        Token::LeftOut(spelling) => match lower(alloc, spelling) {
            Ok(word) => SqlFault::LeftOut { offset, word },
            Err(_) => SqlFault::Memory,
        },
        Token::IntegerOutOfRange => SqlFault::IntegerOutOfRange { offset },
        Token::TextNotClosed => SqlFault::TextNotClosed { offset },
        Token::UnknownCharacter => SqlFault::UnknownCharacter { offset },
        _ => SqlFault::UnexpectedToken { offset },
    }
}

fn lower(alloc: Global, spelling: &str) -> Result<Text, AllocError>
    ensures { IfOk result (λ text. text ≡ lower spelling.now) }
{
    Ok(Text::from_string(spelling.to_ascii_lowercase(alloc)?))
}
