//! The clauses of a query, from the last to the first, and the query itself.
ghost use Rattle.sql_expressions.specs.Rules.{Gives, terms};
ghost use Rattle.sql_syntax.specs.Joins.{kind_of};
ghost use Rattle.sql_reader.specs.Rules.{alias_at, clause_at, condition_at, conditions_at, direction_at, distinct_at, ended, ended_limit_at, ending_at, expr_at, from_at, group_keys_at, grouping_at, groups_at, having_at, item_at, items_at, join_at, joined_at, key_at, keys_at, limit_at, listed_at, order_at, other_at, past_if, past_join, put_item, put_key, put_other, query_at, query_of_parts, selected_at, source_at, table_at, tables_at, tail_at, target_at, within};
ghost use Rattle.std.specs.Prelude.{IfOk, length, ◌<◌, ◌≡◌, ◌≤◌};

use meaning::{JoinType, Sequence, Text};
use sql_expressions::{
    Parsed, Stop, begins_integer, begins_name, begins_other, if_keyword, if_sign, inner, integer,
    name, past_keyword, push_entries, stop_at,
};
use sql_syntax::{
    Direction, Expr, Item, JoinKind, Joined, Keyword, Level, Lexeme, OrderKey, OrderTarget, Query,
    Sign, Source, Table,
};
use std::alloc::Global;
use std::mem::drop;

/// How many expressions may stand one within the other: the outermost, and what is opened.
const MAX_NESTED: u16 = 257;

fn expr<'a, 'b>(
    alloc: Global,
    lexemes: &'a [Lexeme<'b>],
) -> Result<(Parsed, &'a [Lexeme<'b>]), Stop>
    ensures reads { Gives (λ x. (x.0, terms x.1.now)) result (expr_at within (terms lexemes.now)) }
    ensures shorter { IfOk result (λ x. length x.1.now < length lexemes.now) }
{
    inner(alloc, Level::Disjunction, lexemes, MAX_NESTED)
}

/// A name behind AS or alone, or none.
fn alias<'a, 'b>(
    alloc: Global,
    lexemes: &'a [Lexeme<'b>],
) -> Result<(Option<Text>, &'a [Lexeme<'b>]), Stop>
    ensures reads { Gives (λ x. (x.0, terms x.1.now)) result (alias_at (terms lexemes.now)) }
    ensures shorter { IfOk result (λ x. length x.1.now ≤ length lexemes.now) }
{
    if let Some(rest) = if_keyword(lexemes, Keyword::As) {
        let (alias, rest) = name(alloc, rest)?;
        return Ok((Some(alias), rest));
    }
    if begins_name(lexemes) {
        let (alias, rest) = name(alloc, lexemes)?;
        return Ok((Some(alias), rest));
    }
    Ok((None, lexemes))
}

fn item<'a, 'b>(alloc: Global, lexemes: &'a [Lexeme<'b>]) -> Result<(Item, &'a [Lexeme<'b>]), Stop>
    ensures reads { Gives (λ x. (x.0, terms x.1.now)) result (item_at within (terms lexemes.now)) }
    ensures shorter { IfOk result (λ x. length x.1.now < length lexemes.now) }
{
    let (parsed, rest) = expr(alloc, lexemes)?;
    match alias(alloc, rest) {
        Ok((alias, rest)) => {
            let item = Item {
                expr: parsed.expr,
                alias,
            };
            Ok((item, rest))
        }
        Err(stop) => {
            drop(parsed);
            Err(stop)
        }
    }
}

/// Items with commas between, put behind others.
fn push_items<'a, 'b>(
    alloc: Global,
    lexemes: &'a [Lexeme<'b>],
    items: &mut Sequence<Item>,
) -> Result<&'a [Lexeme<'b>], Stop>
    ensures reads { Gives (λ x. (items.new, terms x.now)) result
        (items_at within items.old (terms lexemes.now)) }
    ensures shorter { IfOk result (λ x. length x.now < length lexemes.now) }
{
    let mut rest = push_item(alloc, lexemes, items)?;
    while let Some(behind) = if_sign(rest, Sign::Comma) {
        rest = push_item(alloc, behind, items)?;
    }
    Ok(rest)
}

fn push_item<'a, 'b>(
    alloc: Global,
    lexemes: &'a [Lexeme<'b>],
    items: &mut Sequence<Item>,
) -> Result<&'a [Lexeme<'b>], Stop>
    ensures reads { Gives (λ x. (items.new, terms x.now)) result
        (put_item within items.old (terms lexemes.now)) }
    ensures shorter { IfOk result (λ x. length x.now < length lexemes.now) }
{
    let (item, rest) = item(alloc, lexemes)?;
    items.push(item)?;
    Ok(rest)
}

fn table<'a, 'b>(
    alloc: Global,
    lexemes: &'a [Lexeme<'b>],
) -> Result<(Table, &'a [Lexeme<'b>]), Stop>
    ensures reads { Gives (λ x. (x.0, terms x.1.now)) result (table_at (terms lexemes.now)) }
    ensures shorter { IfOk result (λ x. length x.1.now < length lexemes.now) }
{
    let (name, rest) = name(alloc, lexemes)?;
    let (alias, rest) = alias(alloc, rest)?;
    Ok((Table { name, alias }, rest))
}

/// A keyword that has to stand there, and an expression.
fn condition<'a, 'b>(
    alloc: Global,
    keyword: Keyword,
    lexemes: &'a [Lexeme<'b>],
) -> Result<(Expr, &'a [Lexeme<'b>]), Stop>
    ensures reads { Gives (λ x. (x.0, terms x.1.now)) result
        (condition_at within keyword (terms lexemes.now)) }
    ensures shorter { IfOk result (λ x. length x.1.now < length lexemes.now) }
{
    let rest = past_keyword(lexemes, keyword)?;
    let (parsed, rest) = expr(alloc, rest)?;
    Ok((parsed.expr, rest))
}

/// What stands behind a keyword that may be left out.
fn past_if<'a, 'b>(lexemes: &'a [Lexeme<'b>], keyword: Keyword) -> &'a [Lexeme<'b>]
    ensures reads { terms result.now ≡ past_if keyword (terms lexemes.now) }
    ensures shorter { length result.now ≤ length lexemes.now }
{
    if let Some(rest) = if_keyword(lexemes, keyword) {
        return rest;
    }
    lexemes
}

/// A word that may be left out, and JOIN.
fn past_join<'a, 'b>(
    lexemes: &'a [Lexeme<'b>],
    keyword: Keyword,
    join_type: JoinType,
) -> Result<(JoinType, &'a [Lexeme<'b>]), Stop>
    ensures reads { Gives (λ x. (x.0, terms x.1.now)) result
        (past_join keyword join_type (terms lexemes.now)) }
    ensures shorter { IfOk result (λ x. length x.1.now < length lexemes.now) }
{
    let rest = past_keyword(past_if(lexemes, keyword), Keyword::Join)?;
    Ok((join_type, rest))
}

/// LEFT [OUTER] JOIN, or [INNER] JOIN.
fn join<'a, 'b>(lexemes: &'a [Lexeme<'b>]) -> Result<(JoinType, &'a [Lexeme<'b>]), Stop>
    ensures reads { Gives (λ x. (x.0, terms x.1.now)) result (join_at (terms lexemes.now)) }
    ensures shorter { IfOk result (λ x. length x.1.now < length lexemes.now) }
{
    match if_keyword(lexemes, Keyword::Left) {
        Some(rest) => past_join(rest, Keyword::Outer, JoinType::Left),
        None => past_join(lexemes, Keyword::Inner, JoinType::Inner),
    }
}

fn kind_of(join_type: JoinType, on: Expr) -> JoinKind
    ensures { result ≡ kind_of join_type on }
{
    match join_type {
        JoinType::Inner => JoinKind::Inner(on),
        JoinType::Left => JoinKind::Left(on),
    }
}

/// A table behind a comma.
fn listed<'a, 'b>(
    alloc: Global,
    lexemes: &'a [Lexeme<'b>],
) -> Result<(Joined, &'a [Lexeme<'b>]), Stop>
    ensures reads { Gives (λ x. (x.0, terms x.1.now)) result (listed_at (terms lexemes.now)) }
    ensures shorter { IfOk result (λ x. length x.1.now < length lexemes.now) }
{
    let (table, rest) = table(alloc, lexemes)?;
    let kind = JoinKind::Comma;
    Ok((Joined { table, kind }, rest))
}

/// A table behind JOIN, and its condition.
fn joined<'a, 'b>(
    alloc: Global,
    join_type: JoinType,
    lexemes: &'a [Lexeme<'b>],
) -> Result<(Joined, &'a [Lexeme<'b>]), Stop>
    ensures reads { Gives (λ x. (x.0, terms x.1.now)) result (joined_at within join_type
        (terms lexemes.now)) }
    ensures shorter { IfOk result (λ x. length x.1.now < length lexemes.now) }
{
    let (table, rest) = table(alloc, lexemes)?;
    match condition(alloc, Keyword::On, rest) {
        Ok((on, rest)) => {
            let kind = kind_of(join_type, on);
            Ok((Joined { table, kind }, rest))
        }
        Err(stop) => Err(stop),
    }
}

/// A further table: behind a comma, or behind JOIN.
fn other<'a, 'b>(
    alloc: Global,
    lexemes: &'a [Lexeme<'b>],
) -> Result<(Joined, &'a [Lexeme<'b>]), Stop>
    ensures reads { Gives (λ x. (x.0, terms x.1.now)) result (other_at within (terms lexemes.now)) }
    ensures shorter { IfOk result (λ x. length x.1.now < length lexemes.now) }
{
    if let Some(rest) = if_sign(lexemes, Sign::Comma) {
        return listed(alloc, rest);
    }
    let (join_type, rest) = join(lexemes)?;
    joined(alloc, join_type, rest)
}

fn push_other<'a, 'b>(
    alloc: Global,
    lexemes: &'a [Lexeme<'b>],
    others: &mut Sequence<Joined>,
) -> Result<&'a [Lexeme<'b>], Stop>
    ensures reads { Gives (λ x. (others.new, terms x.now)) result
        (put_other within others.old (terms lexemes.now)) }
    ensures shorter { IfOk result (λ x. length x.now < length lexemes.now) }
{
    let (joined, rest) = other(alloc, lexemes)?;
    others.push(joined)?;
    Ok(rest)
}

/// The first table, and the others, put behind others.
fn tables<'a, 'b>(
    alloc: Global,
    lexemes: &'a [Lexeme<'b>],
    others: &mut Sequence<Joined>,
) -> Result<(Table, &'a [Lexeme<'b>]), Stop>
    ensures reads { Gives (λ x. ((x.0, others.new), terms x.1.now)) result
        (tables_at within others.old (terms lexemes.now)) }
    ensures shorter { IfOk result (λ x. length x.1.now < length lexemes.now) }
{
    let (first, mut rest) = table(alloc, lexemes)?;
    while begins_other(rest) {
        match push_other(alloc, rest, others) {
            Ok(behind) => rest = behind,
            Err(stop) => {
                drop(first);
                return Err(stop);
            }
        }
    }
    Ok((first, rest))
}

/// FROM and the tables.
fn source<'a, 'b>(
    alloc: Global,
    lexemes: &'a [Lexeme<'b>],
) -> Result<(Source, &'a [Lexeme<'b>]), Stop>
    ensures reads { Gives (λ x. (x.0, terms x.1.now)) result (source_at within
        (terms lexemes.now)) }
    ensures shorter { IfOk result (λ x. length x.1.now < length lexemes.now) }
{
    let rest = past_keyword(lexemes, Keyword::From)?;
    let mut others = Sequence::new(alloc);
    match tables(alloc, rest, &mut others) {
        Ok((first, rest)) => Ok((Source { first, others }, rest)),
        Err(stop) => {
            drop(others);
            Err(stop)
        }
    }
}

/// A keyword and an expression, or nothing.
fn clause<'a, 'b>(
    alloc: Global,
    keyword: Keyword,
    lexemes: &'a [Lexeme<'b>],
) -> Result<(Option<Expr>, &'a [Lexeme<'b>]), Stop>
    ensures reads { Gives (λ x. (x.0, terms x.1.now)) result
        (clause_at within keyword (terms lexemes.now)) }
    ensures shorter { IfOk result (λ x. length x.1.now ≤ length lexemes.now) }
{
    match if_keyword(lexemes, keyword) {
        Some(rest) => {
            let (parsed, rest) = expr(alloc, rest)?;
            Ok((Some(parsed.expr), rest))
        }
        None => Ok((None, lexemes)),
    }
}

/// The expressions of GROUP BY, or none.
fn groups<'a, 'b>(
    alloc: Global,
    lexemes: &'a [Lexeme<'b>],
) -> Result<(Sequence<Expr>, &'a [Lexeme<'b>]), Stop>
    ensures reads { Gives (λ x. (x.0, terms x.1.now)) result (groups_at within
        (terms lexemes.now)) }
    ensures shorter { IfOk result (λ x. length x.1.now ≤ length lexemes.now) }
{
    let mut keys = Sequence::new(alloc);
    let Some(rest) = if_keyword(lexemes, Keyword::Group) else {
        return Ok((keys, lexemes));
    };
    match push_groups(alloc, rest, &mut keys) {
        Ok(rest) => Ok((keys, rest)),
        Err(stop) => {
            drop(keys);
            Err(stop)
        }
    }
}

fn push_groups<'a, 'b>(
    alloc: Global,
    lexemes: &'a [Lexeme<'b>],
    keys: &mut Sequence<Expr>,
) -> Result<&'a [Lexeme<'b>], Stop>
    ensures reads { Gives (λ x. (keys.new, terms x.now)) result
        (group_keys_at within keys.old (terms lexemes.now)) }
    ensures shorter { IfOk result (λ x. length x.now < length lexemes.now) }
{
    let rest = past_keyword(lexemes, Keyword::By)?;
    let (_, rest) = push_entries(alloc, rest, MAX_NESTED, keys)?;
    Ok(rest)
}

/// What ORDER BY names.
fn target<'a, 'b>(
    alloc: Global,
    lexemes: &'a [Lexeme<'b>],
) -> Result<(OrderTarget, &'a [Lexeme<'b>]), Stop>
    ensures reads { Gives (λ x. (x.0, terms x.1.now)) result (target_at (terms lexemes.now)) }
    ensures shorter { IfOk result (λ x. length x.1.now < length lexemes.now) }
{
    if begins_integer(lexemes) {
        let (position, rest) = integer(lexemes)?;
        return Ok((OrderTarget::Position(position), rest));
    }
    let (name, rest) = name(alloc, lexemes)?;
    Ok((OrderTarget::Name(name), rest))
}

fn direction<'a, 'b>(lexemes: &'a [Lexeme<'b>]) -> (Direction, &'a [Lexeme<'b>])
    ensures value { (result.0, terms result.1.now) ≡ direction_at (terms lexemes.now) }
    ensures shorter { length result.1.now ≤ length lexemes.now }
{
    if let Some(rest) = if_keyword(lexemes, Keyword::Desc) {
        return (Direction::Descending, rest);
    }
    if let Some(rest) = if_keyword(lexemes, Keyword::Asc) {
        return (Direction::Ascending, rest);
    }
    (Direction::Ascending, lexemes)
}

fn key<'a, 'b>(
    alloc: Global,
    lexemes: &'a [Lexeme<'b>],
) -> Result<(OrderKey, &'a [Lexeme<'b>]), Stop>
    ensures reads { Gives (λ x. (x.0, terms x.1.now)) result (key_at (terms lexemes.now)) }
    ensures shorter { IfOk result (λ x. length x.1.now < length lexemes.now) }
{
    let (target, rest) = target(alloc, lexemes)?;
    let (direction, rest) = direction(rest);
    Ok((OrderKey { target, direction }, rest))
}

/// Keys with commas between, put behind others.
fn push_keys<'a, 'b>(
    alloc: Global,
    lexemes: &'a [Lexeme<'b>],
    keys: &mut Sequence<OrderKey>,
) -> Result<&'a [Lexeme<'b>], Stop>
    ensures reads { Gives (λ x. (keys.new, terms x.now)) result
        (keys_at keys.old (terms lexemes.now)) }
    ensures shorter { IfOk result (λ x. length x.now < length lexemes.now) }
{
    let mut rest = push_key(alloc, lexemes, keys)?;
    while let Some(behind) = if_sign(rest, Sign::Comma) {
        rest = push_key(alloc, behind, keys)?;
    }
    Ok(rest)
}

fn push_key<'a, 'b>(
    alloc: Global,
    lexemes: &'a [Lexeme<'b>],
    keys: &mut Sequence<OrderKey>,
) -> Result<&'a [Lexeme<'b>], Stop>
    ensures reads { Gives (λ x. (keys.new, terms x.now)) result
        (put_key keys.old (terms lexemes.now)) }
    ensures shorter { IfOk result (λ x. length x.now < length lexemes.now) }
{
    let (key, rest) = key(alloc, lexemes)?;
    keys.push(key)?;
    Ok(rest)
}

/// The keys of ORDER BY, or none.
fn order<'a, 'b>(
    alloc: Global,
    lexemes: &'a [Lexeme<'b>],
) -> Result<(Sequence<OrderKey>, &'a [Lexeme<'b>]), Stop>
    ensures reads { Gives (λ x. (x.0, terms x.1.now)) result (order_at (terms lexemes.now)) }
    ensures shorter { IfOk result (λ x. length x.1.now ≤ length lexemes.now) }
{
    let mut keys = Sequence::new(alloc);
    let Some(rest) = if_keyword(lexemes, Keyword::Order) else {
        return Ok((keys, lexemes));
    };
    let rest = past_keyword(rest, Keyword::By)?;
    match push_keys(alloc, rest, &mut keys) {
        Ok(rest) => Ok((keys, rest)),
        Err(stop) => {
            drop(keys);
            Err(stop)
        }
    }
}

fn limit<'a, 'b>(lexemes: &'a [Lexeme<'b>]) -> Result<(Option<u64>, &'a [Lexeme<'b>]), Stop>
    ensures reads { Gives (λ x. (x.0, terms x.1.now)) result (limit_at (terms lexemes.now)) }
    ensures shorter { IfOk result (λ x. length x.1.now ≤ length lexemes.now) }
{
    match if_keyword(lexemes, Keyword::Limit) {
        Some(rest) => {
            let (number, rest) = integer(rest)?;
            Ok((Some(number), rest))
        }
        None => Ok((None, lexemes)),
    }
}

/// Nothing or a semicolon, and then the end.
fn ending(lexemes: &[Lexeme<'_>]) -> Result<(), Stop>
    ensures { Gives (λ x. x) result (ending_at (terms lexemes.now)) }
{
    match if_sign(lexemes, Sign::Semicolon) {
        Some(rest) => nothing(rest),
        None => nothing(lexemes),
    }
}

fn nothing(lexemes: &[Lexeme<'_>]) -> Result<(), Stop>
    ensures { Gives (λ x. x) result (ended (terms lexemes.now)) }
{
    if lexemes.is_empty() {
        Ok(())
    } else {
        Err(stop_at(lexemes))
    }
}

/// ORDER BY and LIMIT, and the end.
type Tail = (Sequence<OrderKey>, Option<u64>);

fn tail(alloc: Global, lexemes: &[Lexeme<'_>]) -> Result<Tail, Stop>
    ensures { Gives (λ x. x) result (tail_at (terms lexemes.now)) }
{
    let (keys, rest) = order(alloc, lexemes)?;
    match ended_limit(rest) {
        Ok(limit) => Ok((keys, limit)),
        Err(stop) => {
            drop(keys);
            Err(stop)
        }
    }
}

fn ended_limit(lexemes: &[Lexeme<'_>]) -> Result<Option<u64>, Stop>
    ensures { Gives (λ x. x) result (ended_limit_at (terms lexemes.now)) }
{
    let (limit, rest) = limit(lexemes)?;
    ending(rest)?;
    Ok(limit)
}

/// HAVING, and all behind it.
fn having(alloc: Global, lexemes: &[Lexeme<'_>]) -> Result<(Option<Expr>, Tail), Stop>
    ensures { Gives (λ x. x) result (having_at within (terms lexemes.now)) }
{
    let (condition, rest) = clause(alloc, Keyword::Having, lexemes)?;
    match tail(alloc, rest) {
        Ok(tail) => Ok((condition, tail)),
        Err(stop) => {
            drop(condition);
            Err(stop)
        }
    }
}

/// GROUP BY, and all behind it.
type Grouping = (Sequence<Expr>, (Option<Expr>, Tail));

fn grouping(alloc: Global, lexemes: &[Lexeme<'_>]) -> Result<Grouping, Stop>
    ensures { Gives (λ x. x) result (grouping_at within (terms lexemes.now)) }
{
    let (keys, rest) = groups(alloc, lexemes)?;
    match having(alloc, rest) {
        Ok(having) => Ok((keys, having)),
        Err(stop) => {
            drop(keys);
            Err(stop)
        }
    }
}

/// WHERE, and all behind it.
fn conditions(alloc: Global, lexemes: &[Lexeme<'_>]) -> Result<(Option<Expr>, Grouping), Stop>
    ensures { Gives (λ x. x) result (conditions_at within (terms lexemes.now)) }
{
    let (filter, rest) = clause(alloc, Keyword::Where, lexemes)?;
    match grouping(alloc, rest) {
        Ok(grouping) => Ok((filter, grouping)),
        Err(stop) => {
            drop(filter);
            Err(stop)
        }
    }
}

/// FROM, and all behind it.
type From = (Source, (Option<Expr>, Grouping));

fn from(alloc: Global, lexemes: &[Lexeme<'_>]) -> Result<From, Stop>
    ensures { Gives (λ x. x) result (from_at within (terms lexemes.now)) }
{
    let (source, rest) = source(alloc, lexemes)?;
    match conditions(alloc, rest) {
        Ok(conditions) => Ok((source, conditions)),
        Err(stop) => {
            drop(source);
            Err(stop)
        }
    }
}

fn query_of(distinct: bool, items: Sequence<Item>, from: From) -> Query
    ensures { result ≡ query_of_parts distinct items from }
{
    let (source, (filter, (group_by, (having, (order_by, limit))))) = from;
    Query {
        distinct,
        items,
        source,
        filter,
        group_by,
        having,
        order_by,
        limit,
    }
}

/// Whether DISTINCT is at the front, and what stands behind it.
fn distinct<'a, 'b>(lexemes: &'a [Lexeme<'b>]) -> (bool, &'a [Lexeme<'b>])
    ensures { (result.0, terms result.1.now) ≡ distinct_at (terms lexemes.now) }
{
    match if_keyword(lexemes, Keyword::Distinct) {
        Some(rest) => (true, rest),
        None => (false, lexemes),
    }
}

/// A whole query.
pub fn query(alloc: Global, lexemes: &[Lexeme<'_>]) -> Result<Query, Stop>
    ensures { Gives (λ q. q) result (query_at within (terms lexemes.now)) }
{
    let rest = past_keyword(lexemes, Keyword::Select)?;
    let (distinct, rest) = distinct(rest);
    let mut items = Sequence::new(alloc);
    match selected(alloc, rest, &mut items) {
        Ok(from) => Ok(query_of(distinct, items, from)),
        Err(stop) => {
            drop(items);
            Err(stop)
        }
    }
}

/// The items, put behind others, and FROM and all behind it.
fn selected(alloc: Global, lexemes: &[Lexeme<'_>], items: &mut Sequence<Item>) -> Result<From, Stop>
    ensures { Gives (λ x. (items.new, x)) result (selected_at within items.old
        (terms lexemes.now)) }
{
    let rest = push_items(alloc, lexemes, items)?;
    from(alloc, rest)
}
