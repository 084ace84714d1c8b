//! Why a word or a sign can't come where it is, by those round it.
use crate::used::{token_at, token_before};
use sql_syntax::{Keyword, Lexeme, Sign, Token};

const FUNCTIONS: &str = "xcols has no functions but COUNT, SUM, MIN, MAX, AVG and COALESCE";

const RESERVED: &str = "this is a word of SQL: take another name";

/// The place in the list of the token at an offset.
pub fn token_with_offset(lexemes: &[Lexeme<'_>], offset: usize) -> Option<usize> {
    lexemes.iter().position(|lexeme| lexeme.offset == offset)
}

fn of_keyword(keyword: Keyword, before: Option<Token<'_>>) -> Option<&'static str> {
    if let Some(Token::Keyword(Keyword::As)) = before {
        return Some(RESERVED);
    }
    match keyword {
        Keyword::Null => Some("NULL equals nothing: write IS NULL or IS NOT NULL"),
        Keyword::Select => Some("there are no subqueries; a dimension is joined by its key"),
        Keyword::Distinct => Some(
            "DISTINCT comes right after SELECT, or in COUNT(DISTINCT ..) and SUM(DISTINCT ..)",
        ),
        Keyword::From => Some(
            "name what is to be shown between SELECT and FROM, without a comma at the end",
        ),
        Keyword::By => None,
        _ => None,
    }
}

fn of_star(before: Option<Token<'_>>) -> Option<&'static str> {
    match before {
        Some(Token::Keyword(Keyword::Select | Keyword::Distinct))
        | Some(Token::Sign(Sign::Comma | Sign::Dot)) => {
            Some("there is no SELECT *: name the columns")
        }
        Some(Token::Sign(Sign::Open)) => Some("only COUNT takes *"),
        _ => None,
    }
}

fn of_sign(sign: Sign, before: Option<Token<'_>>) -> Option<&'static str> {
    match (sign, before) {
        (Sign::Star, _) => of_star(before),
        (Sign::Open, Some(Token::Name(_))) => Some(FUNCTIONS),
        (Sign::Dot, Some(Token::Integer(_))) => {
            Some("there are no decimals: store cents, or another unit without a fraction")
        }
        (Sign::Semicolon, _) => Some("one query at a time, with `;` at its end alone"),
        _ => None,
    }
}

/// A sentence on the token that can't come at its place in the list.
pub fn why_not(lexemes: &[Lexeme<'_>], at: usize) -> Option<&'static str> {
    let before = token_before(lexemes, at, 1);
    if let Some(Token::Keyword(Keyword::Case)) = before {
        return Some("CASE takes conditions: `CASE WHEN x = 1 THEN .. END`");
    }
    match token_at(lexemes, at)? {
        Token::Keyword(keyword) => of_keyword(keyword, before),
        Token::Sign(sign) => of_sign(sign, before),
        Token::Integer(_) => match before {
            Some(Token::Sign(Sign::Dot)) => {
                Some("there are no decimals: store cents, or another unit without a fraction")
            }
            _ => None,
        },
        _ => None,
    }
}
