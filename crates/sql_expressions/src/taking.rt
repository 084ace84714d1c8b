//! Single tokens, taken from the front of those that are left.
ghost use Rattle.sql_expressions.specs.Rules.{Gives, aggregate_of, begins_integer, begins_name, begins_other, begins_test, behind, comparison_of, digits_of, distinct_of, first_is, integer_at, is_keyword, is_sign, name_at, names_other, names_test, operator_of, past, terms, text_at};
ghost use Rattle.sql_syntax.specs.Phrases.{undoubled};
ghost use Rattle.sql_syntax.specs.Tokens.{terminal_of};
ghost use Rattle.sql_syntax.specs.Words.{lower};
ghost use Rattle.sql_expressions.specs.declared.stop.Stop.TheVariants.{At};
ghost use Rattle.std.specs.Prelude.{IfOk, IfSome, IsOkUnless, length, option_map, ◌<◌, ◌≡◌};

use crate::stop::Stop;
use meaning::{ArithmeticOperator, ComparisonOperator, Text};
use sql_syntax::{Aggregate, Keyword, Level, Lexeme, Operator, Sign, Token, push_undoubled};
use std::alloc::{AllocError, Global};

/// A token isn't expected at the front, or the end isn't.
#[tactic(auto, using(crate::proofs::Chains::length_terms))]
pub fn stop_at(lexemes: &[Lexeme<'_>]) -> Stop
    ensures { result ≡ At (length (terms lexemes.now)) }
{
    Stop::At(lexemes.len())
}

fn is_keyword(token: Token<'_>, keyword: Keyword) -> bool
    ensures { result ≡ is_keyword keyword (terminal_of token.entry) }
{
    match token {
        Token::Keyword(found) => found == keyword,
        _ => false,
    }
}

fn is_sign(token: Token<'_>, sign: Sign) -> bool
    ensures { result ≡ is_sign sign (terminal_of token.entry) }
{
    match token {
        Token::Sign(found) => found == sign,
        _ => false,
    }
}

/// What stands behind a keyword, where it is at the front.
pub fn if_keyword<'a, 'b>(lexemes: &'a [Lexeme<'b>], keyword: Keyword) -> Option<&'a [Lexeme<'b>]>
    ensures reads { option_map (λ x. terms x.now) result
        ≡ behind (is_keyword keyword) (terms lexemes.now) }
    ensures shorter { IfSome result (λ x. length x.now < length lexemes.now) }
{
    match lexemes.split_first() {
        Some((first, rest)) if is_keyword(first.token, keyword) => Some(rest),
        _ => None,
    }
}

/// What stands behind a sign, where it is at the front.
pub fn if_sign<'a, 'b>(lexemes: &'a [Lexeme<'b>], sign: Sign) -> Option<&'a [Lexeme<'b>]>
    ensures reads { option_map (λ x. terms x.now) result
        ≡ behind (is_sign sign) (terms lexemes.now) }
    ensures shorter { IfSome result (λ x. length x.now < length lexemes.now) }
{
    match lexemes.split_first() {
        Some((first, rest)) if is_sign(first.token, sign) => Some(rest),
        _ => None,
    }
}

/// What stands behind a keyword, which has to be at the front.
pub fn past_keyword<'a, 'b>(
    lexemes: &'a [Lexeme<'b>],
    keyword: Keyword,
) -> Result<&'a [Lexeme<'b>], Stop>
    ensures reads { Gives (λ x. terms x.now) result
        (past (is_keyword keyword) (terms lexemes.now)) }
    ensures shorter { IfOk result (λ x. length x.now < length lexemes.now) }
    ensures stops { IsOkUnless result (At (length (terms lexemes.now))) }
{
    match if_keyword(lexemes, keyword) {
        Some(rest) => Ok(rest),
        None => Err(stop_at(lexemes)),
    }
}

/// What stands behind a sign, which has to be at the front.
pub fn past_sign<'a, 'b>(lexemes: &'a [Lexeme<'b>], sign: Sign) -> Result<&'a [Lexeme<'b>], Stop>
    ensures reads { Gives (λ x. terms x.now) result (past (is_sign sign) (terms lexemes.now)) }
    ensures shorter { IfOk result (λ x. length x.now < length lexemes.now) }
    ensures stops { IsOkUnless result (At (length (terms lexemes.now))) }
{
    match if_sign(lexemes, sign) {
        Some(rest) => Ok(rest),
        None => Err(stop_at(lexemes)),
    }
}

fn lower(alloc: Global, spelling: &str) -> Result<Text, AllocError>
    ensures { IfOk result (λ text. text ≡ lower spelling.now) }
{
    Ok(Text::from_string(spelling.to_ascii_lowercase(alloc)?))
}

fn undoubled(alloc: Global, content: &str) -> Result<Text, AllocError>
    ensures { IfOk result (λ text. text ≡ undoubled content.now) }
{
    let mut out = String::new(alloc);
    push_undoubled(&mut out, content)?;
    Ok(Text::from_string(out))
}

/// A name in lower case.
pub fn name<'a, 'b>(
    alloc: Global,
    lexemes: &'a [Lexeme<'b>],
) -> Result<(Text, &'a [Lexeme<'b>]), Stop>
    ensures reads { Gives (λ x. (x.0, terms x.1.now)) result (name_at (terms lexemes.now)) }
    ensures shorter { IfOk result (λ x. length x.1.now < length lexemes.now) }
{
    let Some((first, rest)) = lexemes.split_first() else {
        return Err(stop_at(lexemes));
    };
    match first.token {
        Token::Name(spelling) => Ok((lower(alloc, spelling)?, rest)),
        _ => Err(stop_at(lexemes)),
    }
}

/// A text without its quotes.
pub fn text<'a, 'b>(
    alloc: Global,
    lexemes: &'a [Lexeme<'b>],
) -> Result<(Text, &'a [Lexeme<'b>]), Stop>
    ensures reads { Gives (λ x. (x.0, terms x.1.now)) result (text_at (terms lexemes.now)) }
    ensures shorter { IfOk result (λ x. length x.1.now < length lexemes.now) }
{
    let Some((first, rest)) = lexemes.split_first() else {
        return Err(stop_at(lexemes));
    };
    match first.token {
        Token::Text(content) => Ok((undoubled(alloc, content)?, rest)),
        _ => Err(stop_at(lexemes)),
    }
}

/// An integer that no minus has to stand before.
pub fn integer<'a, 'b>(lexemes: &'a [Lexeme<'b>]) -> Result<(u64, &'a [Lexeme<'b>]), Stop>
    ensures reads { Gives (λ x. (x.0, terms x.1.now)) result (integer_at (terms lexemes.now)) }
    ensures shorter { IfOk result (λ x. length x.1.now < length lexemes.now) }
    ensures stops { IsOkUnless result (At (length (terms lexemes.now))) }
{
    let Some((first, rest)) = lexemes.split_first() else {
        return Err(stop_at(lexemes));
    };
    match first.token {
        Token::Integer(number) if number <= 9223372036854775807 => Ok((number, rest)),
        _ => Err(stop_at(lexemes)),
    }
}

fn operator_of(level: Level, token: Token<'_>) -> Option<Operator>
    ensures { result ≡ operator_of level (terminal_of token.entry) }
{
    match (level, token) {
        (Level::Disjunction, Token::Keyword(Keyword::Or)) => Some(Operator::Or),
        (Level::Conjunction, Token::Keyword(Keyword::And)) => Some(Operator::And),
        (Level::Sum, Token::Sign(Sign::Plus)) => Some(Operator::Reckon(ArithmeticOperator::Add)),
        (Level::Sum, Token::Sign(Sign::Minus)) => Some(Operator::Reckon(
            ArithmeticOperator::Subtract,
        )),
        (Level::Term, Token::Sign(Sign::Star)) => Some(Operator::Reckon(
            ArithmeticOperator::Multiply,
        )),
        (Level::Term, Token::Sign(Sign::Slash)) => Some(Operator::Reckon(
            ArithmeticOperator::Divide,
        )),
        _ => None,
    }
}

/// The operator of a rule at the front, and what stands behind it.
pub fn if_operator<'a, 'b>(
    level: Level,
    lexemes: &'a [Lexeme<'b>],
) -> Option<(Operator, &'a [Lexeme<'b>])>
    ensures reads { option_map (λ x. (x.0, terms x.1.now)) result
        ≡ first_is (operator_of level) (terms lexemes.now) }
    ensures shorter { IfSome result (λ x. length x.1.now < length lexemes.now) }
{
    let (first, rest) = lexemes.split_first()?;
    let operator = operator_of(level, first.token)?;
    Some((operator, rest))
}

fn comparison_of(token: Token<'_>) -> Option<ComparisonOperator>
    ensures { result ≡ comparison_of (terminal_of token.entry) }
{
    match token {
        Token::Sign(Sign::Equal) => Some(ComparisonOperator::Equal),
        Token::Sign(Sign::NotEqual) => Some(ComparisonOperator::NotEqual),
        Token::Sign(Sign::Less) => Some(ComparisonOperator::Less),
        Token::Sign(Sign::AtMost) => Some(ComparisonOperator::LessOrEqual),
        Token::Sign(Sign::Greater) => Some(ComparisonOperator::Greater),
        Token::Sign(Sign::AtLeast) => Some(ComparisonOperator::GreaterOrEqual),
        _ => None,
    }
}

/// The comparison at the front, and what stands behind it.
pub fn if_comparison<'a, 'b>(
    lexemes: &'a [Lexeme<'b>],
) -> Option<(ComparisonOperator, &'a [Lexeme<'b>])>
    ensures reads { option_map (λ x. (x.0, terms x.1.now)) result
        ≡ first_is comparison_of (terms lexemes.now) }
    ensures shorter { IfSome result (λ x. length x.1.now < length lexemes.now) }
{
    let (first, rest) = lexemes.split_first()?;
    let comparison = comparison_of(first.token)?;
    Some((comparison, rest))
}

/// The aggregate that a keyword names.
pub fn aggregate_of(keyword: Keyword) -> Option<Aggregate>
    ensures { result ≡ aggregate_of keyword }
{
    match keyword {
        Keyword::Count => Some(Aggregate::Count),
        Keyword::Sum => Some(Aggregate::Sum),
        Keyword::Min => Some(Aggregate::Min),
        Keyword::Max => Some(Aggregate::Max),
        Keyword::Avg => Some(Aggregate::Average),
        _ => None,
    }
}

/// The aggregate that DISTINCT makes of one.
pub fn distinct_of(kind: Aggregate) -> Option<Aggregate>
    ensures { result ≡ distinct_of kind }
{
    match kind {
        Aggregate::Count => Some(Aggregate::CountDistinct),
        Aggregate::Sum => Some(Aggregate::SumDistinct),
        _ => None,
    }
}

fn digits_of(token: Token<'_>) -> Option<u64>
    ensures { result ≡ digits_of (terminal_of token.entry) }
{
    match token {
        Token::Integer(digits) => Some(digits),
        _ => None,
    }
}

/// The number that the digits at the front make, and what stands behind them.
pub fn if_integer<'a, 'b>(lexemes: &'a [Lexeme<'b>]) -> Option<(u64, &'a [Lexeme<'b>])>
    ensures reads { option_map (λ x. (x.0, terms x.1.now)) result
        ≡ first_is digits_of (terms lexemes.now) }
    ensures shorter { IfSome result (λ x. length x.1.now < length lexemes.now) }
{
    let (first, rest) = lexemes.split_first()?;
    let digits = digits_of(first.token)?;
    Some((digits, rest))
}

fn names_test(token: Token<'_>) -> bool
    ensures { result ≡ names_test (terminal_of token.entry) }
{
    is_keyword(token, Keyword::Between)
        || is_keyword(token, Keyword::In)
        || is_keyword(token, Keyword::Like)
}

/// BETWEEN, IN or LIKE is at the front.
pub fn begins_test(lexemes: &[Lexeme<'_>]) -> bool
    ensures { result ≡ begins_test (terms lexemes.now) }
{
    match lexemes.split_first() {
        Some((first, _)) => names_test(first.token),
        None => false,
    }
}

/// A name is at the front.
pub fn begins_name(lexemes: &[Lexeme<'_>]) -> bool
    ensures { result ≡ begins_name (terms lexemes.now) }
{
    match lexemes.split_first() {
        Some((first, _)) => matches!(first.token, Token::Name(_)),
        None => false,
    }
}

/// An integer is at the front.
pub fn begins_integer(lexemes: &[Lexeme<'_>]) -> bool
    ensures { result ≡ begins_integer (terms lexemes.now) }
{
    match lexemes.split_first() {
        Some((first, _)) => matches!(first.token, Token::Integer(_)),
        None => false,
    }
}

fn names_other(token: Token<'_>) -> bool
    ensures { result ≡ names_other (terminal_of token.entry) }
{
    is_sign(token, Sign::Comma)
        || is_keyword(token, Keyword::Inner)
        || is_keyword(token, Keyword::Join)
        || is_keyword(token, Keyword::Left)
}

/// A comma, INNER, JOIN or LEFT is at the front.
pub fn begins_other(lexemes: &[Lexeme<'_>]) -> bool
    ensures { result ≡ begins_other (terms lexemes.now) }
{
    match lexemes.split_first() {
        Some((first, _)) => names_other(first.token),
        None => false,
    }
}
