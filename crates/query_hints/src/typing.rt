//! Columns whose type doesn't fit what is beside them.
ghost use Rattle.std.specs.Prelude.{IfSome};
ghost use Rattle.query_hints.specs.Places.{Stands};

use crate::lookup::may_be;
use crate::place::Place;
use crate::used::{Role, Used};
use meaning::ColType;
use planner_expressions::Scope;
use sql_syntax::{Keyword, Lexeme, Sign, Token};

/// A column that doesn't fit, and why.
#[derive(Clone, Copy, Drop)]
pub struct Misfit<'a> {
    pub place: Place<'a>,
    pub why: &'static str,
}

fn type_of(scope: &Scope, place: &Place<'_>) -> Option<ColType> {
    let columns = scope.columns.as_slice();
    let column = columns.iter().find(|column| may_be(place, column))?;
    Some(column.col_type)
}

fn is_arithmetic(token: Option<Token<'_>>) -> bool {
    matches!(
        token,
        Some(Token::Sign(Sign::Plus | Sign::Minus | Sign::Star | Sign::Slash))
    )
}

fn is_comparison(token: Option<Token<'_>>) -> bool {
    matches!(
        token,
        Some(Token::Sign(
            Sign::Equal | Sign::NotEqual | Sign::Less | Sign::AtMost | Sign::Greater | Sign::AtLeast
        ))
    )
}

// What the name is compared with, on either side.
fn compared<'b>(name: &Used<'_>, lexemes: &[Lexeme<'b>]) -> Option<Token<'b>> {
    if is_comparison(name.behind(lexemes, 1)) {
        return name.behind(lexemes, 2);
    }
    if is_comparison(name.before(lexemes, 1)) {
        return name.before(lexemes, 2);
    }
    None
}

fn is_added(name: &Used<'_>, lexemes: &[Lexeme<'_>]) -> bool {
    matches!(
        name.before(lexemes, 2),
        Some(Token::Keyword(Keyword::Sum | Keyword::Avg))
    ) && matches!(name.before(lexemes, 1), Some(Token::Sign(Sign::Open)))
}

fn why_no_text(name: &Used<'_>, lexemes: &[Lexeme<'_>]) -> Option<&'static str> {
    if is_added(name, lexemes) {
        return Some("is a text, and SUM and AVG take integers");
    }
    if is_arithmetic(name.before(lexemes, 1)) || is_arithmetic(name.behind(lexemes, 1)) {
        return Some("is a text, and arithmetic takes integers");
    }
    match compared(name, lexemes) {
        Some(Token::Integer(_)) => Some("is a text: compare it with a text, in single quotes"),
        _ => None,
    }
}

fn why_no_integer(name: &Used<'_>, lexemes: &[Lexeme<'_>]) -> Option<&'static str> {
    if let Some(Token::Keyword(Keyword::Like)) = name.behind(lexemes, 1) {
        return Some("is an integer, and LIKE takes a text");
    }
    match compared(name, lexemes) {
        Some(Token::Text(_)) => Some("is an integer: compare it with an integer, without quotes"),
        _ => None,
    }
}

fn why(scope: &Scope, name: &Used<'_>, lexemes: &[Lexeme<'_>]) -> Option<&'static str> {
    match type_of(scope, &name.place)? {
        ColType::Text => why_no_text(name, lexemes),
        ColType::Int => why_no_integer(name, lexemes),
    }
}

/// The first column whose type doesn't fit what is beside it.
pub fn first_misfit<'a>(
    text: &str,
    scope: &Scope,
    used: &[Used<'a>],
    lexemes: &[Lexeme<'_>],
) -> Option<Misfit<'a>>
    ensures { IfSome result (λ m. Stands text.now m.place) }
{
    for name in used {
        let place = name.place;
        if name.role != Role::Column || !place.stands_in(text) {
            continue;
        }
        if let Some(why) = why(scope, name, lexemes) {
            return Some(Misfit { place, why });
        }
    }
    None
}
