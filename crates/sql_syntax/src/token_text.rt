//! The text of a token, and the blanks round it.
ghost use Rattle.std.specs.Prelude.{◌≡◌, ◌++◌, OnOk, string_bytes};
ghost use Rattle.std.specs.Fmt.{decimal};
ghost use Rattle.sql_syntax.specs.CanonicalTokens.{doubled};
ghost use Rattle.sql_syntax.specs.Printing.{blank_before};
ghost use Rattle.sql_syntax.specs.Queries.{token_text, ends_operand, hugs_left, hugs_right};
ghost use Rattle.sql_syntax.specs.Tokens.{terminal_of, text};

use crate::keyword::Keyword;
use crate::quoting::push_doubled;
use crate::token::{Sign, Token};
use std::alloc::AllocError;

pub fn put_blank(out: &mut String, hugs: bool) -> Result<(), AllocError>
    ensures { OnOk result (string_bytes out.new ≡ string_bytes out.old ++ blank_before hugs) }
{
    if hugs { Ok(()) } else { out.push_str(" ") }
}

pub fn put_quoted(out: &mut String, content: &str) -> Result<(), AllocError>
    ensures { OnOk result (string_bytes out.new ≡ string_bytes out.old
        ++ token_text (text (doubled content.now))) }
{
    out.push_str("'")?;
    push_doubled(out, content)?;
    out.push_str("'")
}

pub fn put_token(out: &mut String, token: Token<'_>) -> Result<(), AllocError>
    ensures { OnOk result (string_bytes out.new ≡ string_bytes out.old
        ++ token_text (terminal_of token.entry)) }
{
    match token {
        Token::Keyword(keyword) => out.push_str(keyword.spelling()),
        Token::Name(name) => out.push_str(name),
        Token::Integer(number) => put_number(out, number),
        Token::Text(content) => put_between_quotes(out, content),
        Token::Sign(sign) => out.push_str(sign.spelling()),
        Token::LeftOut(_)
        | Token::IntegerOutOfRange
        | Token::TextNotClosed
        | Token::UnknownCharacter => Ok(()),
    }
}

fn put_between_quotes(out: &mut String, content: &str) -> Result<(), AllocError>
    ensures { OnOk result (string_bytes out.new ≡ string_bytes out.old
        ++ token_text (text content.now)) }
{
    out.push_str("'")?;
    out.push_str(content)?;
    out.push_str("'")
}

fn put_number(out: &mut String, number: u64) -> Result<(), AllocError>
    ensures { OnOk result (string_bytes out.new ≡ string_bytes out.old ++ decimal number) }
{
    write!(out, "{number}")
}

/// The token may end an operand, so that a minus behind it has two operands.
pub fn ends_operand(token: Token<'_>) -> bool
    ensures { result ≡ ends_operand (terminal_of token.entry) }
{
    matches!(
        token,
        Token::Name(_)
            | Token::Integer(_)
            | Token::Text(_)
            | Token::Sign(Sign::Close)
            | Token::Keyword(Keyword::End)
    )
}

/// No blank stands before the token.
pub fn hugs_left(token: Token<'_>) -> bool
    ensures { result ≡ hugs_left (terminal_of token.entry) }
{
    matches!(token, Token::Sign(Sign::Close | Sign::Comma | Sign::Dot))
}

/// No blank stands behind the token, which stands behind an operand or not.
pub fn hugs_right(operand: bool, token: Token<'_>) -> bool
    ensures { result ≡ hugs_right operand (terminal_of token.entry) }
{
    match token {
        Token::Sign(Sign::Open | Sign::Dot) => true,
        Token::Sign(Sign::Minus) => !operand,
        Token::Keyword(
            Keyword::Count
            | Keyword::Sum
            | Keyword::Min
            | Keyword::Max
            | Keyword::Avg
            | Keyword::Coalesce,
        ) => true,
        _ => false,
    }
}
