//! In which clause of a query a token is.
use sql_syntax::{Keyword, Sign, Token};

/// A clause of a query, by the word that begins it.
#[derive(Clone, Copy, Debug, Drop, PartialEq, Eq)]
pub enum Clause {
    Select,
    From,
    On,
    Where,
    GroupBy,
    Having,
    OrderBy,
    Limit,
}

/// What is known of a token by those before it: its clause, how many brackets are open, and whether it is
/// in the brackets of an aggregate, which were so many with them.
#[derive(Clone, Copy, Drop)]
pub struct Standing {
    pub clause: Clause,
    pub depth: usize,
    pub aggregate: Option<usize>,
}

impl Standing {
    /// In front of the first token.
    pub const START: Standing = Standing {
        clause: Clause::Select,
        depth: 0,
        aggregate: None,
    };

    /// Behind one token more.
    pub fn after(self, token: Token<'_>) -> Standing {
        match token {
            Token::Keyword(keyword) => self.after_keyword(keyword),
            Token::Sign(sign) => self.after_sign(sign),
            _ => self,
        }
    }

    fn after_keyword(self, keyword: Keyword) -> Standing {
        if is_aggregate(keyword) && self.aggregate.is_none() {
            return Standing {
                aggregate: Some(self.depth.saturating_add(1)),
                ..self
            };
        }
        match clause_of(keyword) {
            Some(clause) => Standing { clause, ..self },
            None => self,
        }
    }

    fn after_sign(self, sign: Sign) -> Standing {
        match sign {
            Sign::Open => Standing {
                depth: self.depth.saturating_add(1),
                ..self
            },
            Sign::Close => self.behind_bracket(),
            // A table behind the condition of a join.
            Sign::Comma if self.depth == 0 && self.clause == Clause::On => Standing {
                clause: Clause::From,
                ..self
            },
            _ => self,
        }
    }

    fn behind_bracket(self) -> Standing {
        let aggregate = match self.aggregate {
            Some(depth) if depth < self.depth => Some(depth),
            _ => None,
        };
        Standing {
            depth: self.depth.saturating_sub(1),
            aggregate,
            ..self
        }
    }
}

fn is_aggregate(keyword: Keyword) -> bool {
    matches!(
        keyword,
        Keyword::Count | Keyword::Sum | Keyword::Min | Keyword::Max | Keyword::Avg
    )
}

fn clause_of(keyword: Keyword) -> Option<Clause> {
    match keyword {
        Keyword::Select => Some(Clause::Select),
        Keyword::From | Keyword::Join => Some(Clause::From),
        Keyword::On => Some(Clause::On),
        Keyword::Where => Some(Clause::Where),
        Keyword::Group => Some(Clause::GroupBy),
        Keyword::Having => Some(Clause::Having),
        Keyword::Order => Some(Clause::OrderBy),
        Keyword::Limit => Some(Clause::Limit),
        _ => None,
    }
}
