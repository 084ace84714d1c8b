//! The names that a query uses, in the order of its text.
use crate::clauses::{Clause, Standing};
use crate::place::Place;
use sql_syntax::{Keyword, Lexeme, Sign, Token};
use std::alloc::{AllocError, Global};

/// What a name is used for, by what is before it.
#[derive(Clone, Copy, Debug, Drop, PartialEq, Eq)]
pub enum Role {
    Column,
    Table,
    /// Of a table or an item.
    Alias,
    /// What ORDER BY names.
    Item,
}

/// A name that a query uses.
#[derive(Clone, Copy, Drop)]
pub struct Used<'a> {
    pub place: Place<'a>,
    /// Which of the query's tokens it is, from 0.
    pub at: usize,
    pub role: Role,
    pub clause: Clause,
    pub is_aggregated: bool,
}

/// The token at a place of the list, where there is one.
pub fn token_at<'a>(lexemes: &[Lexeme<'a>], at: usize) -> Option<Token<'a>> {
    match lexemes.get(at) {
        Some(lexeme) => Some(lexeme.token),
        None => None,
    }
}

/// The token before one, where there is one.
pub fn token_before<'a>(lexemes: &[Lexeme<'a>], at: usize, back: usize) -> Option<Token<'a>> {
    if at < back {
        return None;
    }
    token_at(lexemes, at - back)
}

fn owner_of<'a>(lexemes: &[Lexeme<'a>], at: usize) -> Option<&'a str> {
    let Some(Token::Sign(Sign::Dot)) = token_before(lexemes, at, 1) else {
        return None;
    };
    match token_before(lexemes, at, 2) {
        Some(Token::Name(owner)) => Some(owner),
        _ => None,
    }
}

// Behind an operand a name is that of an item.
fn ends_operand(token: Option<Token<'_>>) -> bool {
    matches!(
        token,
        Some(
            Token::Name(_)
                | Token::Integer(_)
                | Token::Text(_)
                | Token::Sign(Sign::Close)
                | Token::Keyword(Keyword::End)
        )
    )
}

fn role_of(before: Option<Token<'_>>, clause: Clause) -> Role {
    match (clause, before) {
        (_, Some(Token::Keyword(Keyword::As))) => Role::Alias,
        (Clause::OrderBy, _) => Role::Item,
        (Clause::From | Clause::Select, _) if ends_operand(before) => Role::Alias,
        (Clause::From, _) => Role::Table,
        _ => Role::Column,
    }
}

impl Used<'_> {
    /// The token before the name, and before its table's name.
    pub fn before<'b>(&self, lexemes: &[Lexeme<'b>], back: usize) -> Option<Token<'b>> {
        let own: usize = if self.place.owner.is_some() { 2 } else { 0 };
        token_before(lexemes, self.at, own.saturating_add(back))
    }

    /// The token behind the name.
    pub fn behind<'b>(&self, lexemes: &[Lexeme<'b>], further: usize) -> Option<Token<'b>> {
        token_at(lexemes, self.at.saturating_add(further))
    }
}

// The name that the token is, but one before a dot.
fn used_at<'a>(lexemes: &[Lexeme<'a>], at: usize, standing: Standing) -> Option<Used<'a>> {
    let lexeme = lexemes.get(at)?;
    let Token::Name(name) = lexeme.token else {
        return None;
    };
    if let Some(Token::Sign(Sign::Dot)) = token_at(lexemes, at.saturating_add(1)) {
        return None;
    }
    let place = Place {
        owner: owner_of(lexemes, at),
        name,
        offset: lexeme.offset,
    };
    Some(Used {
        place,
        at,
        role: role_of(token_before(lexemes, at, 1), standing.clause),
        clause: standing.clause,
        is_aggregated: standing.aggregate.is_some(),
    })
}

/// The names that the tokens of a query use.
pub fn names_used<'a>(alloc: Global, lexemes: &[Lexeme<'a>]) -> Result<Vec<Used<'a>>, AllocError> {
    let mut found = Vec::new(alloc);
    let mut standing = Standing::START;
    for (at, lexeme) in lexemes.iter().enumerate() {
        if let Some(used) = used_at(lexemes, at, standing) {
            found.push(used)?;
        }
        standing = standing.after(lexeme.token);
    }
    Ok(found)
}
