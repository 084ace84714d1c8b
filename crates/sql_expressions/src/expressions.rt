//! Expressions: one function a rule of the grammar.
//!
//! `left` says how many may still be opened: brackets, CASE, NOT and minus. It bounds how deep
//! these functions call one another, as `MAX_DEPTH` bounds how deep a tree they build.
ghost use Rattle.sql_expressions.specs.Rules.{Cases, Gives, Listed, aggregate_at, argument_of, arm_at, arm_of, arms_at, before_of, behind_distinct, behind_star, bounds_of, bracketed_list, case_of, chain_of, closed_list_of, column_at, column_of, else_of, entry_of, factor_of, high_of, inner_at, is_keyword, is_of, is_sign, like_test, list_at, literal_at, minus_of, named_test, negation_of, null_of, pattern_at, predicate_of, primary_of, rows_of, rule_at, terms, test_of, then_left, then_of, without_value};
ghost use Rattle.sql_syntax.specs.Strength.{rank};
ghost use Rattle.sql_syntax.specs.declared.keyword.Keyword.TheVariants as keyword;
ghost use Rattle.sql_syntax.specs.declared.token.Sign.TheVariants as sign;
ghost use Rattle.sql_expressions.specs.declared.parsed.Parsed.{Parsed as Made};
ghost use Rattle.sql_expressions.specs.declared.stop.Stop.{Stop as Reason};
ghost use Rattle.sql_expressions.specs.declared.stop.Stop.TheVariants.{TooDeep};
ghost use Rattle.std.specs.Prelude.{Err, IfOk, IfSome, Result, length, option_map, ◌<◌, ◌≡◌, ◌≤◌};

use crate::parsed::{
    Parsed, aggregate, among, between, case, coalesce, compare, is_null, joined, leaf, like, minus,
    negative, not, positive,
};
use crate::stop::Stop;
use crate::taking::{
    aggregate_of, begins_test, distinct_of, if_comparison, if_integer, if_keyword, if_operator,
    if_sign, name, past_keyword, past_sign, stop_at, text,
};
use meaning::{Sequence, Text};
use sql_syntax::{Aggregate, Arm, Expr, Keyword, Level, Lexeme, Sign, Token};
use std::alloc::Global;
use std::mem::drop;

/// A tree that was made, and what stands behind it.
fn with_rest<'a, 'b>(
    made: Result<Parsed, Stop>,
    rest: &'a [Lexeme<'b>],
) -> Result<(Parsed, &'a [Lexeme<'b>]), Stop>
    ensures reads { (meant : Result Made Reason) → Gives (λ p. p) made meant
        → Gives (λ x. (x.0, terms x.1.now)) result (then_left meant (terms rest.now)) }
    ensures behind { IfOk result (λ x. x.1.now ≡ rest.now) }
{
    match made {
        Ok(parsed) => Ok((parsed, rest)),
        Err(stop) => Err(stop),
    }
}

/// An expression behind what opens it.
#[cycle(rules)]
pub fn inner<'a, 'b>(
    alloc: Global,
    level: Level,
    lexemes: &'a [Lexeme<'b>],
    left: u16,
) -> Result<(Parsed, &'a [Lexeme<'b>]), Stop>
    ensures reads { Gives (λ x. (x.0, terms x.1.now)) result
        (inner_at 128 left level (terms lexemes.now)) }
    ensures shorter { IfOk result (λ x. length x.1.now < length lexemes.now) }
    // Where no more may be opened, that is why it stops.
    ensures full { left ≡ 0 → result ≡ Err TooDeep }
{
    if left == 0 {
        Err(Stop::TooDeep)
    } else {
        rule(alloc, level, lexemes, left - 1)
    }
}

#[cycle(rules)]
fn rule<'a, 'b>(
    alloc: Global,
    level: Level,
    lexemes: &'a [Lexeme<'b>],
    left: u16,
) -> Result<(Parsed, &'a [Lexeme<'b>]), Stop>
    ensures reads { Gives (λ x. (x.0, terms x.1.now)) result
        (rule_at 128 left level (terms lexemes.now)) }
    ensures shorter { IfOk result (λ x. length x.1.now < length lexemes.now) }
{
    match level {
        Level::Disjunction => chain(alloc, level, Level::Conjunction, lexemes, left),
        Level::Conjunction => chain(alloc, level, Level::Negation, lexemes, left),
        Level::Sum => chain(alloc, level, Level::Term, lexemes, left),
        Level::Term => chain(alloc, level, Level::Factor, lexemes, left),
        Level::Negation => negation(alloc, lexemes, left),
        Level::Predicate => predicate(alloc, lexemes, left),
        Level::Factor => factor(alloc, lexemes, left),
        Level::Primary => primary(alloc, lexemes, left),
    }
}

/// Operands of a stronger rule with operators of this one between them, which group from the left.
#[cycle(rules)]
fn chain<'a, 'b>(
    alloc: Global,
    level: Level,
    operand: Level,
    lexemes: &'a [Lexeme<'b>],
    left: u16,
) -> Result<(Parsed, &'a [Lexeme<'b>]), Stop>
    requires stronger { rank level < rank operand }
    requires known { rank operand ≤ 7 }
    ensures reads { Gives (λ x. (x.0, terms x.1.now)) result
        (chain_of 128 level (rule_at 128 left operand) (terms lexemes.now)) }
    ensures shorter { IfOk result (λ x. length x.1.now < length lexemes.now) }
{
    let (mut parsed, mut rest) = rule(alloc, operand, lexemes, left)?;
    while let Some((operator, behind)) = if_operator(level, rest) {
        match rule(alloc, operand, behind, left) {
            Ok((right, behind)) => {
                match joined(alloc, operator, parsed, right) {
                    Ok(node) => parsed = node,
                    Err(stop) => return Err(stop),
                }
                rest = behind;
            }
            Err(stop) => {
                drop(parsed);
                return Err(stop);
            }
        }
    }
    Ok((parsed, rest))
}

#[cycle(rules)]
fn negation<'a, 'b>(
    alloc: Global,
    lexemes: &'a [Lexeme<'b>],
    left: u16,
) -> Result<(Parsed, &'a [Lexeme<'b>]), Stop>
    ensures reads { Gives (λ x. (x.0, terms x.1.now)) result
        (negation_of 128 left (inner_at 128 left) (terms lexemes.now)) }
    ensures shorter { IfOk result (λ x. length x.1.now < length lexemes.now) }
{
    match if_keyword(lexemes, Keyword::Not) {
        Some(rest) => {
            let (operand, rest) = inner(alloc, Level::Negation, rest, left)?;
            with_rest(not(alloc, operand), rest)
        }
        None => predicate(alloc, lexemes, left),
    }
}

#[cycle(rules)]
fn predicate<'a, 'b>(
    alloc: Global,
    lexemes: &'a [Lexeme<'b>],
    left: u16,
) -> Result<(Parsed, &'a [Lexeme<'b>]), Stop>
    ensures reads { Gives (λ x. (x.0, terms x.1.now)) result
        (predicate_of 128 left (inner_at 128 left) (terms lexemes.now)) }
    ensures shorter { IfOk result (λ x. length x.1.now < length lexemes.now) }
{
    let (subject, rest) = rule(alloc, Level::Sum, lexemes, left)?;
    test(alloc, subject, rest, left)
}

/// What may stand behind the subject of a predicate.
#[cycle(rules)]
fn test<'a, 'b>(
    alloc: Global,
    subject: Parsed,
    lexemes: &'a [Lexeme<'b>],
    left: u16,
) -> Result<(Parsed, &'a [Lexeme<'b>]), Stop>
    ensures reads { Gives (λ x. (x.0, terms x.1.now)) result
        (test_of 128 left (inner_at 128 left) subject (terms lexemes.now)) }
    ensures shorter { IfOk result (λ x. length x.1.now ≤ length lexemes.now) }
{
    if let Some((operator, rest)) = if_comparison(lexemes) {
        return match rule(alloc, Level::Sum, rest, left) {
            Ok((right, rest)) => with_rest(compare(alloc, operator, subject, right), rest),
            Err(stop) => {
                drop(subject);
                Err(stop)
            }
        };
    }
    if let Some(rest) = if_keyword(lexemes, Keyword::Is) {
        return null_test(alloc, subject, rest);
    }
    if let Some(rest) = if_keyword(lexemes, Keyword::Not) {
        return named_test(alloc, true, subject, rest, left);
    }
    if begins_test(lexemes) {
        return named_test(alloc, false, subject, lexemes, left);
    }
    Ok((subject, lexemes))
}

/// BETWEEN, IN or LIKE, and what stands behind it.
#[cycle(rules)]
fn named_test<'a, 'b>(
    alloc: Global,
    negated: bool,
    subject: Parsed,
    lexemes: &'a [Lexeme<'b>],
    left: u16,
) -> Result<(Parsed, &'a [Lexeme<'b>]), Stop>
    ensures reads { Gives (λ x. (x.0, terms x.1.now)) result
        (named_test 128 left (inner_at 128 left) subject negated (terms lexemes.now)) }
    ensures shorter { IfOk result (λ x. length x.1.now < length lexemes.now) }
{
    if let Some(rest) = if_keyword(lexemes, Keyword::Between) {
        return match bounds(alloc, rest, left) {
            Ok((low, high, rest)) => with_rest(between(alloc, negated, subject, low, high), rest),
            Err(stop) => {
                drop(subject);
                Err(stop)
            }
        };
    }
    if let Some(rest) = if_keyword(lexemes, Keyword::In) {
        return match bracketed_list(alloc, rest, left) {
            Ok((entries, deepest, rest)) => {
                with_rest(among(alloc, negated, subject, entries, deepest), rest)
            }
            Err(stop) => {
                drop(subject);
                Err(stop)
            }
        };
    }
    like_test(alloc, negated, subject, lexemes)
}

/// The bounds behind BETWEEN. The AND between them is no conjunction.
#[cycle(rules)]
fn bounds<'a, 'b>(
    alloc: Global,
    lexemes: &'a [Lexeme<'b>],
    left: u16,
) -> Result<(Parsed, Parsed, &'a [Lexeme<'b>]), Stop>
    ensures reads { Gives (λ x. ((x.0, x.1), terms x.2.now)) result
        (bounds_of 128 left (inner_at 128 left) (terms lexemes.now)) }
    ensures shorter { IfOk result (λ x. length x.2.now < length lexemes.now) }
{
    let (low, rest) = rule(alloc, Level::Sum, lexemes, left)?;
    match high_bound(alloc, rest, left) {
        Ok((high, rest)) => Ok((low, high, rest)),
        Err(stop) => {
            drop(low);
            Err(stop)
        }
    }
}

#[cycle(rules)]
fn high_bound<'a, 'b>(
    alloc: Global,
    lexemes: &'a [Lexeme<'b>],
    left: u16,
) -> Result<(Parsed, &'a [Lexeme<'b>]), Stop>
    ensures reads { Gives (λ x. (x.0, terms x.1.now)) result
        (high_of 128 left (inner_at 128 left) (terms lexemes.now)) }
    ensures shorter { IfOk result (λ x. length x.1.now < length lexemes.now) }
{
    let rest = past_keyword(lexemes, Keyword::And)?;
    rule(alloc, Level::Sum, rest, left)
}

fn like_test<'a, 'b>(
    alloc: Global,
    negated: bool,
    subject: Parsed,
    lexemes: &'a [Lexeme<'b>],
) -> Result<(Parsed, &'a [Lexeme<'b>]), Stop>
    ensures reads { Gives (λ x. (x.0, terms x.1.now)) result
        (like_test 128 subject negated (terms lexemes.now)) }
    ensures shorter { IfOk result (λ x. length x.1.now < length lexemes.now) }
{
    match pattern(alloc, lexemes) {
        Ok((pattern, rest)) => with_rest(like(alloc, negated, subject, pattern), rest),
        Err(stop) => {
            drop(subject);
            Err(stop)
        }
    }
}

/// LIKE and its pattern.
fn pattern<'a, 'b>(
    alloc: Global,
    lexemes: &'a [Lexeme<'b>],
) -> Result<(Text, &'a [Lexeme<'b>]), Stop>
    ensures reads { Gives (λ x. (x.0, terms x.1.now)) result (pattern_at (terms lexemes.now)) }
    ensures shorter { IfOk result (λ x. length x.1.now < length lexemes.now) }
{
    let rest = past_keyword(lexemes, Keyword::Like)?;
    text(alloc, rest)
}

/// [NOT] NULL, behind IS.
fn null_test<'a, 'b>(
    alloc: Global,
    subject: Parsed,
    lexemes: &'a [Lexeme<'b>],
) -> Result<(Parsed, &'a [Lexeme<'b>]), Stop>
    ensures reads { Gives (λ x. (x.0, terms x.1.now)) result (is_of 128 subject
        (terms lexemes.now)) }
    ensures shorter { IfOk result (λ x. length x.1.now < length lexemes.now) }
{
    match if_keyword(lexemes, Keyword::Not) {
        Some(rest) => null(alloc, true, subject, rest),
        None => null(alloc, false, subject, lexemes),
    }
}

fn null<'a, 'b>(
    alloc: Global,
    negated: bool,
    subject: Parsed,
    lexemes: &'a [Lexeme<'b>],
) -> Result<(Parsed, &'a [Lexeme<'b>]), Stop>
    ensures reads { Gives (λ x. (x.0, terms x.1.now)) result
        (null_of 128 subject negated (terms lexemes.now)) }
    ensures shorter { IfOk result (λ x. length x.1.now < length lexemes.now) }
{
    match past_keyword(lexemes, Keyword::Null) {
        Ok(rest) => with_rest(is_null(alloc, negated, subject), rest),
        Err(stop) => {
            drop(subject);
            Err(stop)
        }
    }
}

#[cycle(rules)]
fn factor<'a, 'b>(
    alloc: Global,
    lexemes: &'a [Lexeme<'b>],
    left: u16,
) -> Result<(Parsed, &'a [Lexeme<'b>]), Stop>
    ensures reads { Gives (λ x. (x.0, terms x.1.now)) result
        (factor_of 128 left (inner_at 128 left) (terms lexemes.now)) }
    ensures shorter { IfOk result (λ x. length x.1.now < length lexemes.now) }
{
    let Some((first, rest)) = lexemes.split_first() else {
        return Err(stop_at(lexemes));
    };
    match first.token {
        Token::Sign(Sign::Minus) => behind_minus(alloc, rest, left),
        Token::Integer(digits) => match positive(digits) {
            Some(integer) => Ok((leaf(Expr::Integer(integer)), rest)),
            None => Err(stop_at(lexemes)),
        },
        _ => primary(alloc, lexemes, left),
    }
}

/// A minus and the integer right behind it are one literal.
#[cycle(rules)]
fn behind_minus<'a, 'b>(
    alloc: Global,
    lexemes: &'a [Lexeme<'b>],
    left: u16,
) -> Result<(Parsed, &'a [Lexeme<'b>]), Stop>
    ensures reads { Gives (λ x. (x.0, terms x.1.now)) result
        (minus_of 128 left (inner_at 128 left) (terms lexemes.now)) }
    ensures shorter { IfOk result (λ x. length x.1.now < length lexemes.now) }
{
    if let Some((digits, rest)) = if_integer(lexemes) {
        return match negative(digits) {
            Some(integer) => Ok((leaf(Expr::Integer(integer)), rest)),
            None => Err(stop_at(lexemes)),
        };
    }
    let (operand, rest) = inner(alloc, Level::Factor, lexemes, left)?;
    with_rest(minus(alloc, operand), rest)
}

#[cycle(rules)]
fn primary<'a, 'b>(
    alloc: Global,
    lexemes: &'a [Lexeme<'b>],
    left: u16,
) -> Result<(Parsed, &'a [Lexeme<'b>]), Stop>
    ensures reads { Gives (λ x. (x.0, terms x.1.now)) result
        (primary_of 128 left (inner_at 128 left) (terms lexemes.now)) }
    ensures shorter { IfOk result (λ x. length x.1.now < length lexemes.now) }
{
    let Some((first, rest)) = lexemes.split_first() else {
        return Err(stop_at(lexemes));
    };
    match first.token {
        Token::Text(_) => literal(alloc, lexemes),
        Token::Name(_) => column(alloc, lexemes),
        Token::Keyword(Keyword::Case) => case_behind(alloc, rest, left),
        Token::Keyword(Keyword::Coalesce) => {
            let (entries, deepest, rest) = bracketed_list(alloc, rest, left)?;
            with_rest(coalesce(entries, deepest), rest)
        }
        Token::Keyword(keyword) => match aggregate_of(keyword) {
            Some(kind) => aggregate_behind(alloc, kind, rest, left),
            None => Err(stop_at(lexemes)),
        },
        Token::Sign(Sign::Open) => closed(alloc, rest, left),
        _ => Err(stop_at(lexemes)),
    }
}

fn literal<'a, 'b>(
    alloc: Global,
    lexemes: &'a [Lexeme<'b>],
) -> Result<(Parsed, &'a [Lexeme<'b>]), Stop>
    ensures reads { Gives (λ x. (x.0, terms x.1.now)) result (literal_at (terms lexemes.now)) }
    ensures shorter { IfOk result (λ x. length x.1.now < length lexemes.now) }
{
    let (content, rest) = text(alloc, lexemes)?;
    Ok((leaf(Expr::Text(content)), rest))
}

/// A column, behind its table's name or without it.
fn column<'a, 'b>(
    alloc: Global,
    lexemes: &'a [Lexeme<'b>],
) -> Result<(Parsed, &'a [Lexeme<'b>]), Stop>
    ensures reads { Gives (λ x. (x.0, terms x.1.now)) result (column_at (terms lexemes.now)) }
    ensures shorter { IfOk result (λ x. length x.1.now < length lexemes.now) }
{
    let (first, rest) = name(alloc, lexemes)?;
    match if_sign(rest, Sign::Dot) {
        Some(rest) => column_of(alloc, first, rest),
        None => Ok((
            leaf(Expr::Column {
                table: None,
                name: first,
            }),
            rest,
        )),
    }
}

fn column_of<'a, 'b>(
    alloc: Global,
    table: Text,
    lexemes: &'a [Lexeme<'b>],
) -> Result<(Parsed, &'a [Lexeme<'b>]), Stop>
    ensures reads { Gives (λ x. (x.0, terms x.1.now)) result (column_of table (terms lexemes.now)) }
    ensures shorter { IfOk result (λ x. length x.1.now < length lexemes.now) }
{
    let (column, rest) = name(alloc, lexemes)?;
    Ok((
        leaf(Expr::Column {
            table: Some(table),
            name: column,
        }),
        rest,
    ))
}

/// An expression and the bracket that closes it.
#[cycle(rules)]
fn closed<'a, 'b>(
    alloc: Global,
    lexemes: &'a [Lexeme<'b>],
    left: u16,
) -> Result<(Parsed, &'a [Lexeme<'b>]), Stop>
    ensures reads { Gives (λ x. (x.0, terms x.1.now)) result
        (before_of (is_sign sign.Close) (inner_at 128 left) (terms lexemes.now)) }
    ensures shorter { IfOk result (λ x. length x.1.now < length lexemes.now) }
{
    let (parsed, rest) = inner(alloc, Level::Disjunction, lexemes, left)?;
    match past_sign(rest, Sign::Close) {
        Ok(rest) => Ok((parsed, rest)),
        Err(stop) => {
            drop(parsed);
            Err(stop)
        }
    }
}

/// An aggregate, behind its name.
#[cycle(rules)]
fn aggregate_behind<'a, 'b>(
    alloc: Global,
    kind: Aggregate,
    lexemes: &'a [Lexeme<'b>],
    left: u16,
) -> Result<(Parsed, &'a [Lexeme<'b>]), Stop>
    ensures reads { Gives (λ x. (x.0, terms x.1.now)) result
        (aggregate_at 128 left (inner_at 128 left) kind (terms lexemes.now)) }
    ensures shorter { IfOk result (λ x. length x.1.now < length lexemes.now) }
{
    let rest = past_sign(lexemes, Sign::Open)?;
    if let Some(rest) = if_star(kind, rest) {
        return rows(rest, left);
    }
    match if_distinct(kind, rest) {
        Some((distinct, rest)) => argument(alloc, distinct, rest, left),
        None => argument(alloc, kind, rest, left),
    }
}

/// An aggregate, from its argument on.
#[cycle(rules)]
fn argument<'a, 'b>(
    alloc: Global,
    kind: Aggregate,
    lexemes: &'a [Lexeme<'b>],
    left: u16,
) -> Result<(Parsed, &'a [Lexeme<'b>]), Stop>
    ensures reads { Gives (λ x. (x.0, terms x.1.now)) result
        (argument_of 128 left (inner_at 128 left) kind (terms lexemes.now)) }
    ensures shorter { IfOk result (λ x. length x.1.now < length lexemes.now) }
{
    let (argument, rest) = closed(alloc, lexemes, left)?;
    with_rest(aggregate(alloc, kind, argument), rest)
}

/// The aggregate that DISTINCT makes of one, and what stands behind it.
fn if_distinct<'a, 'b>(
    kind: Aggregate,
    lexemes: &'a [Lexeme<'b>],
) -> Option<(Aggregate, &'a [Lexeme<'b>])>
    ensures reads { option_map (λ x. (x.0, terms x.1.now)) result
        ≡ behind_distinct kind (terms lexemes.now) }
    ensures shorter { IfSome result (λ x. length x.1.now < length lexemes.now) }
{
    let distinct = distinct_of(kind)?;
    let rest = if_keyword(lexemes, Keyword::Distinct)?;
    Some((distinct, rest))
}

/// What stands behind `*`, where that is the argument of COUNT.
fn if_star<'a, 'b>(kind: Aggregate, lexemes: &'a [Lexeme<'b>]) -> Option<&'a [Lexeme<'b>]>
    ensures reads { option_map (λ x. terms x.now) result ≡ behind_star kind (terms lexemes.now) }
    ensures shorter { IfSome result (λ x. length x.now < length lexemes.now) }
{
    match kind {
        Aggregate::Count => if_sign(lexemes, Sign::Star),
        _ => None,
    }
}

/// COUNT(*), behind its `*`.
fn rows<'a, 'b>(lexemes: &'a [Lexeme<'b>], left: u16) -> Result<(Parsed, &'a [Lexeme<'b>]), Stop>
    ensures reads { Gives (λ x. (x.0, terms x.1.now)) result (rows_of left (terms lexemes.now)) }
    ensures shorter { IfOk result (λ x. length x.1.now < length lexemes.now) }
{
    let rest = past_sign(lexemes, Sign::Close)?;
    if 0 < left {
        Ok((leaf(Expr::CountRows), rest))
    } else {
        Err(Stop::TooDeep)
    }
}

/// Expressions in brackets, with commas between, and the depth of the deepest.
#[cycle(rules)]
fn bracketed_list<'a, 'b>(
    alloc: Global,
    lexemes: &'a [Lexeme<'b>],
    left: u16,
) -> Result<(Sequence<Expr>, u8, &'a [Lexeme<'b>]), Stop>
    ensures reads { Gives (λ x. (record { exprs = x.0; deepest = x.1 }, terms x.2.now)) result
        (bracketed_list (inner_at 128 left) (terms lexemes.now)) }
    ensures shorter { IfOk result (λ x. length x.2.now < length lexemes.now) }
{
    let rest = past_sign(lexemes, Sign::Open)?;
    let mut entries = Sequence::new(alloc);
    match closed_entries(alloc, rest, left, &mut entries) {
        Ok((deepest, rest)) => Ok((entries, deepest, rest)),
        Err(stop) => {
            drop(entries);
            Err(stop)
        }
    }
}

#[cycle(rules)]
fn closed_entries<'a, 'b>(
    alloc: Global,
    lexemes: &'a [Lexeme<'b>],
    left: u16,
    entries: &mut Sequence<Expr>,
) -> Result<(u8, &'a [Lexeme<'b>]), Stop>
    ensures reads { Gives (λ x. (record { exprs = entries.new; deepest = x.0 }, terms x.1.now))
        result (closed_list_of (inner_at 128 left) (record { exprs = entries.old; deepest = 0 })
        (terms lexemes.now)) }
    ensures shorter { IfOk result (λ x. length x.1.now < length lexemes.now) }
{
    let (deepest, rest) = push_entries(alloc, lexemes, left, entries)?;
    let rest = past_sign(rest, Sign::Close)?;
    Ok((deepest, rest))
}

/// Expressions with commas between, put behind others. Answers the depth of the deepest.
#[cycle(rules)]
pub fn push_entries<'a, 'b>(
    alloc: Global,
    lexemes: &'a [Lexeme<'b>],
    left: u16,
    entries: &mut Sequence<Expr>,
) -> Result<(u8, &'a [Lexeme<'b>]), Stop>
    ensures reads { Gives (λ x. (record { exprs = entries.new; deepest = x.0 }, terms x.1.now))
        result (list_at (inner_at 128 left) (record { exprs = entries.old; deepest = 0 })
        (terms lexemes.now)) }
    ensures shorter { IfOk result (λ x. length x.1.now < length lexemes.now) }
{
    let (mut deepest, mut rest) = push_entry(alloc, lexemes, left, 0, entries)?;
    while let Some(behind) = if_sign(rest, Sign::Comma) {
        (deepest, rest) = push_entry(alloc, behind, left, deepest, entries)?;
    }
    Ok((deepest, rest))
}

/// An expression, put behind others of which the deepest is so deep.
#[cycle(rules)]
fn push_entry<'a, 'b>(
    alloc: Global,
    lexemes: &'a [Lexeme<'b>],
    left: u16,
    deepest: u8,
    entries: &mut Sequence<Expr>,
) -> Result<(u8, &'a [Lexeme<'b>]), Stop>
    ensures reads { Gives (λ x. (record { exprs = entries.new; deepest = x.0 }, terms x.1.now))
        result (entry_of (inner_at 128 left) (record { exprs = entries.old; deepest = deepest })
        (terms lexemes.now)) }
    ensures shorter { IfOk result (λ x. length x.1.now < length lexemes.now) }
{
    let (parsed, rest) = inner(alloc, Level::Disjunction, lexemes, left)?;
    let Parsed { expr, depth } = parsed;
    entries.push(expr)?;
    Ok((deepest.max(depth), rest))
}

/// CASE, behind that word.
#[cycle(rules)]
fn case_behind<'a, 'b>(
    alloc: Global,
    lexemes: &'a [Lexeme<'b>],
    left: u16,
) -> Result<(Parsed, &'a [Lexeme<'b>]), Stop>
    ensures reads { Gives (λ x. (x.0, terms x.1.now)) result
        (case_of 128 left (inner_at 128 left) (terms lexemes.now)) }
    ensures shorter { IfOk result (λ x. length x.1.now < length lexemes.now) }
{
    let rest = past_keyword(lexemes, Keyword::When)?;
    let mut arms = Sequence::new(alloc);
    match push_arms(alloc, rest, left, &mut arms) {
        Ok((deepest, rest)) => match otherwise(alloc, rest, left) {
            Ok((otherwise, rest)) => with_rest(case(alloc, arms, deepest, otherwise), rest),
            Err(stop) => {
                drop(arms);
                Err(stop)
            }
        },
        Err(stop) => {
            drop(arms);
            Err(stop)
        }
    }
}

/// Arms behind a WHEN, put behind others. Answers the depth of the deepest expression.
#[cycle(rules)]
fn push_arms<'a, 'b>(
    alloc: Global,
    lexemes: &'a [Lexeme<'b>],
    left: u16,
    arms: &mut Sequence<Arm>,
) -> Result<(u8, &'a [Lexeme<'b>]), Stop>
    ensures reads { Gives (λ x. (record { arms = arms.new; deepest = x.0 }, terms x.1.now)) result
        (arms_at (inner_at 128 left) (record { arms = arms.old; deepest = 0 })
        (terms lexemes.now)) }
    ensures shorter { IfOk result (λ x. length x.1.now < length lexemes.now) }
{
    let (mut deepest, mut rest) = push_arm(alloc, lexemes, left, 0, arms)?;
    while let Some(behind) = if_keyword(rest, Keyword::When) {
        (deepest, rest) = push_arm(alloc, behind, left, deepest, arms)?;
    }
    Ok((deepest, rest))
}

/// An arm behind its WHEN, put behind others of which the deepest expression is so deep.
#[cycle(rules)]
fn push_arm<'a, 'b>(
    alloc: Global,
    lexemes: &'a [Lexeme<'b>],
    left: u16,
    deepest: u8,
    arms: &mut Sequence<Arm>,
) -> Result<(u8, &'a [Lexeme<'b>]), Stop>
    ensures reads { Gives (λ x. (record { arms = arms.new; deepest = x.0 }, terms x.1.now)) result
        (arm_at (inner_at 128 left) (record { arms = arms.old; deepest = deepest })
        (terms lexemes.now)) }
    ensures shorter { IfOk result (λ x. length x.1.now < length lexemes.now) }
{
    let (arm, depth, rest) = arm(alloc, lexemes, left)?;
    arms.push(arm)?;
    Ok((deepest.max(depth), rest))
}

/// An arm behind its WHEN, and the depth of its deeper expression.
#[cycle(rules)]
fn arm<'a, 'b>(
    alloc: Global,
    lexemes: &'a [Lexeme<'b>],
    left: u16,
) -> Result<(Arm, u8, &'a [Lexeme<'b>]), Stop>
    ensures reads { Gives (λ x. ((x.0, x.1), terms x.2.now)) result
        (arm_of (inner_at 128 left) (terms lexemes.now)) }
    ensures shorter { IfOk result (λ x. length x.2.now < length lexemes.now) }
{
    let (condition, rest) = inner(alloc, Level::Disjunction, lexemes, left)?;
    match then_value(alloc, rest, left) {
        Ok((value, rest)) => {
            let depth = condition.depth.max(value.depth);
            let arm = Arm {
                condition: condition.expr,
                value: value.expr,
            };
            Ok((arm, depth, rest))
        }
        Err(stop) => {
            drop(condition);
            Err(stop)
        }
    }
}

#[cycle(rules)]
fn then_value<'a, 'b>(
    alloc: Global,
    lexemes: &'a [Lexeme<'b>],
    left: u16,
) -> Result<(Parsed, &'a [Lexeme<'b>]), Stop>
    ensures reads { Gives (λ x. (x.0, terms x.1.now)) result
        (then_of (inner_at 128 left) (terms lexemes.now)) }
    ensures shorter { IfOk result (λ x. length x.1.now < length lexemes.now) }
{
    let rest = past_keyword(lexemes, Keyword::Then)?;
    inner(alloc, Level::Disjunction, rest, left)
}

/// ELSE, or nothing, and END. ELSE NULL is the same as nothing.
#[cycle(rules)]
fn otherwise<'a, 'b>(
    alloc: Global,
    lexemes: &'a [Lexeme<'b>],
    left: u16,
) -> Result<(Option<Parsed>, &'a [Lexeme<'b>]), Stop>
    ensures reads { Gives (λ x. (x.0, terms x.1.now)) result
        (else_of (inner_at 128 left) (terms lexemes.now)) }
    ensures shorter { IfOk result (λ x. length x.1.now < length lexemes.now) }
{
    let Some(rest) = if_keyword(lexemes, Keyword::Else) else {
        return valueless(lexemes);
    };
    if let Some(rest) = if_keyword(rest, Keyword::Null) {
        return valueless(rest);
    }
    let (value, rest) = ended(alloc, rest, left)?;
    Ok((Some(value), rest))
}

/// END, where no value stands before it.
fn valueless<'a, 'b>(lexemes: &'a [Lexeme<'b>]) -> Result<(Option<Parsed>, &'a [Lexeme<'b>]), Stop>
    ensures reads { Gives (λ x. (x.0, terms x.1.now)) result (without_value (terms lexemes.now)) }
    ensures shorter { IfOk result (λ x. length x.1.now < length lexemes.now) }
{
    let rest = past_keyword(lexemes, Keyword::End)?;
    Ok((None, rest))
}

/// An expression and END.
#[cycle(rules)]
fn ended<'a, 'b>(
    alloc: Global,
    lexemes: &'a [Lexeme<'b>],
    left: u16,
) -> Result<(Parsed, &'a [Lexeme<'b>]), Stop>
    ensures reads { Gives (λ x. (x.0, terms x.1.now)) result
        (before_of (is_keyword keyword.End) (inner_at 128 left) (terms lexemes.now)) }
    ensures shorter { IfOk result (λ x. length x.1.now < length lexemes.now) }
{
    let (value, rest) = inner(alloc, Level::Disjunction, lexemes, left)?;
    match past_keyword(rest, Keyword::End) {
        Ok(rest) => Ok((value, rest)),
        Err(stop) => {
            drop(value);
            Err(stop)
        }
    }
}
