//! The canonical text of a tree, written token by token with no blank that isn't needed.
ghost use Rattle.std.specs.Prelude.{◌≡◌, ◌++◌, ◌∷◌, [], true, false, Some, IfOk, OnOk, map, flat_map, option_map};
ghost use Rattle.sql_syntax.specs.Canonical.{canonical};
ghost use Rattle.sql_syntax.specs.CanonicalTokens.{doubled, at_level, printed, printed_arm, integer_tokens, column_tokens, list_tokens, arms_tokens, else_tokens};
ghost use Rattle.sql_syntax.specs.Phrases.{aggregate_word, is_distinct, bracketed, mark, not_if, distinct_if};
ghost use Rattle.sql_syntax.specs.Printing.{written, with_token, with_tokens, aggregate_tokens, behind_commas, more_items, more_keys, joined_tokens, end_tokens, condition_tokens, source_tokens};
ghost use Rattle.sql_syntax.specs.Queries.{query_tokens, with_commas, item_tokens, alias_tokens, table_tokens, on_tokens, others_tokens_of, clause_tokens, groups_tokens_of, key_tokens, target_token, direction_tokens, order_tokens_of, limit_tokens_of};
ghost use Rattle.sql_syntax.specs.Strength.{next, level_of, token_of, compares};
ghost use Rattle.sql_syntax.specs.Tokens.{terminal_of, keyword, text, sign_is, integer};
ghost use Rattle.sql_syntax.specs.declared.keyword.Keyword.TheVariants.{Case, Count, End, Is, Null, Like};
ghost use Rattle.sql_syntax.specs.declared.strength.Operator.TheVariants.{Reckon};
ghost use Rattle.sql_syntax.specs.declared.token.Sign.TheVariants.{Minus, Star};
ghost use Rattle.sql_syntax.specs.declared.tree.Expr.TheVariants as node;

use crate::keyword::Keyword;
use crate::strength::{Level, level_of_arithmetic, sign_of_arithmetic, sign_of_comparison};
use crate::token::{Sign, Token};
use crate::token_text::{ends_operand, hugs_left, hugs_right, put_blank, put_quoted, put_token};
use crate::tree::{
    Aggregate, Arm, Direction, Expr, Item, JoinKind, Joined, OrderKey, OrderTarget, Query, Table,
};
use meaning::{ArithmeticOperator, Boxed, ComparisonOperator, Text};
use std::alloc::{AllocError, Global};

/// The text so far, whether its last token may end an operand, and whether no blank may stand
/// behind it.
#[derive(Drop)]
pub struct Printer {
    pub out: String,
    pub operand: bool,
    pub hugs: bool,
}

/// The canonical text of a query: keywords in capitals, names in lower case, brackets only where
/// the grammar needs them, and no blank that isn't needed.
#[tactic(auto, using(crate::proofs::Writing::writes), unfolding(crate::specs::Canonical::canonical))]
pub fn print(alloc: Global, query: &Query) -> Result<Text, AllocError>
    ensures { IfOk result (λ printed. printed ≡ canonical query.now) }
{
    let mut printer = Printer::new(alloc);
    printer.put_query(query)?;
    let Printer { out, .. } = printer;
    Ok(Text::from_string(out))
}

/// The strongest rule that gives an expression without brackets.
pub fn strength(expr: &Expr) -> Level
    ensures { result ≡ (printed expr.now).level }
{
    match expr {
        Expr::Or { .. } => Level::Disjunction,
        Expr::And { .. } => Level::Conjunction,
        Expr::Not(_) => Level::Negation,
        Expr::Compare { .. }
        | Expr::IsNull { .. }
        | Expr::Between { .. }
        | Expr::In { .. }
        | Expr::Like { .. } => Level::Predicate,
        Expr::Arithmetic { operator, .. } => level_of_arithmetic(*operator),
        Expr::Minus(_) | Expr::Integer(_) => Level::Factor,
        _ => Level::Primary,
    }
}

impl Printer {
    pub fn new(alloc: Global) -> Printer
        ensures { written result ≡ record { bytes = []; operand = false; hugs = true } }
    {
        Printer {
            out: String::new(alloc),
            operand: false,
            hugs: true,
        }
    }

    /// Writes a token, and a blank before it where one belongs there.
    pub fn put(&mut self, token: Token<'_>) -> Result<(), AllocError>
        ensures { OnOk result (written self.new
            ≡ with_token (written self.old) (terminal_of token.entry)) }
    {
        put_blank(&mut self.out, self.hugs || hugs_left(token))?;
        put_token(&mut self.out, token)?;
        self.hugs = hugs_right(self.operand, token);
        self.operand = ends_operand(token);
        Ok(())
    }

    /// Writes a text with its quotes doubled.
    pub fn put_text(&mut self, content: &str) -> Result<(), AllocError>
        ensures { OnOk result (written self.new
            ≡ with_token (written self.old) (text (doubled content.now))) }
    {
        put_blank(&mut self.out, self.hugs)?;
        put_quoted(&mut self.out, content)?;
        self.hugs = false;
        self.operand = true;
        Ok(())
    }

    /// An integer, where a negative one is a minus and digits.
    pub fn put_integer(&mut self, integer: i64) -> Result<(), AllocError>
        ensures { OnOk result (written self.new
            ≡ with_tokens (written self.old) (integer_tokens integer)) }
    {
        if integer < 0 {
            self.put_negative(integer.unsigned_abs())
        } else {
            self.put(Token::Integer(integer.unsigned_abs()))
        }
    }

    fn put_negative(&mut self, digits: u64) -> Result<(), AllocError>
        ensures { OnOk result (written self.new
            ≡ with_tokens (written self.old) (sign_is Minus ∷ integer digits ∷ [])) }
    {
        self.put(Token::Sign(Sign::Minus))?;
        self.put(Token::Integer(digits))
    }

    pub fn put_column(&mut self, table: &Option<Text>, name: &Text) -> Result<(), AllocError>
        ensures { OnOk result (written self.new
            ≡ with_tokens (written self.old) (column_tokens table.now name.now)) }
    {
        match table {
            Some(table) => self.put_column_of(table, name),
            None => self.put(Token::Name(name.as_str())),
        }
    }

    fn put_column_of(&mut self, table: &Text, name: &Text) -> Result<(), AllocError>
        ensures { OnOk result (written self.new
            ≡ with_tokens (written self.old) (column_tokens (Some table.now) name.now)) }
    {
        self.put(Token::Name(table.as_str()))?;
        self.put(Token::Sign(Sign::Dot))?;
        self.put(Token::Name(name.as_str()))
    }

    pub fn put_not_if(&mut self, negated: bool) -> Result<(), AllocError>
        ensures { OnOk result (written self.new ≡ with_tokens (written self.old) (not_if negated)) }
    {
        if negated {
            self.put(Token::Keyword(Keyword::Not))
        } else {
            Ok(())
        }
    }

    fn put_distinct_if(&mut self, distinct: bool) -> Result<(), AllocError>
        ensures { OnOk result (written self.new
            ≡ with_tokens (written self.old) (distinct_if distinct)) }
    {
        if distinct {
            self.put(Token::Keyword(Keyword::Distinct))
        } else {
            Ok(())
        }
    }

    #[tactic(auto, using(crate::proofs::Writing::with_append))]
    fn put_query(&mut self, query: &Query) -> Result<(), AllocError>
        ensures { OnOk result (written self.new
            ≡ with_tokens (written self.old) (query_tokens query.now)) }
    {
        self.put(Token::Keyword(Keyword::Select))?;
        self.put_distinct_if(query.distinct)?;
        self.put_items(query.items.as_slice())?;
        self.put_source(query)
    }

    #[tactic(auto, using(crate::proofs::Writing::with_append))]
    fn put_source(&mut self, query: &Query) -> Result<(), AllocError>
        ensures { OnOk result (written self.new
            ≡ with_tokens (written self.old) (source_tokens query.now)) }
    {
        self.put(Token::Keyword(Keyword::From))?;
        self.put_table(&query.source.first)?;
        self.put_others(query.source.others.as_slice())?;
        self.put_conditions(query)
    }

    #[tactic(auto, using(crate::proofs::Writing::with_append))]
    fn put_conditions(&mut self, query: &Query) -> Result<(), AllocError>
        ensures { OnOk result (written self.new
            ≡ with_tokens (written self.old) (condition_tokens query.now)) }
    {
        self.put_clause(Keyword::Where, &query.filter)?;
        self.put_groups(query.group_by.as_slice())?;
        self.put_clause(Keyword::Having, &query.having)?;
        self.put_end(query)
    }

    #[tactic(auto, using(crate::proofs::Writing::with_append))]
    fn put_end(&mut self, query: &Query) -> Result<(), AllocError>
        ensures { OnOk result (written self.new
            ≡ with_tokens (written self.old) (end_tokens query.now)) }
    {
        self.put_order(query.order_by.as_slice())?;
        self.put_limit(query.limit)
    }

    #[tactic(auto, using(crate::proofs::Writing::items_first))]
    fn put_items(&mut self, items: &[Item]) -> Result<(), AllocError>
        ensures { OnOk result (written self.new
            ≡ with_tokens (written self.old) (with_commas (map item_tokens items.now))) }
    {
        let Some((first, rest)) = items.split_first() else {
            return Ok(());
        };
        self.put_item(first)?;
        self.put_more_items(rest)
    }

    #[tactic(auto, using(crate::proofs::Writing::items_step))]
    fn put_more_items(&mut self, items: &[Item]) -> Result<(), AllocError>
        ensures { OnOk result (written self.new
            ≡ with_tokens (written self.old) (more_items items.now)) }
    {
        for item in items {
            self.put(Token::Sign(Sign::Comma))?;
            self.put_item(item)?;
        }
        Ok(())
    }

    #[tactic(auto, using(crate::proofs::Writing::with_append))]
    fn put_item(&mut self, item: &Item) -> Result<(), AllocError>
        ensures { OnOk result (written self.new
            ≡ with_tokens (written self.old) (item_tokens item.now)) }
    {
        self.put_at(Level::Disjunction, &item.expr)?;
        self.put_alias(&item.alias)
    }

    fn put_alias(&mut self, alias: &Option<Text>) -> Result<(), AllocError>
        ensures { OnOk result (written self.new
            ≡ with_tokens (written self.old) (alias_tokens alias.now)) }
    {
        match alias {
            Some(name) => {
                self.put(Token::Keyword(Keyword::As))?;
                self.put(Token::Name(name.as_str()))
            }
            None => Ok(()),
        }
    }

    fn put_table(&mut self, table: &Table) -> Result<(), AllocError>
        ensures { OnOk result (written self.new
            ≡ with_tokens (written self.old) (table_tokens table.now)) }
    {
        self.put(Token::Name(table.name.as_str()))?;
        self.put_alias(&table.alias)
    }

    #[tactic(auto, using(crate::proofs::Writing::others_step))]
    fn put_others(&mut self, others: &[Joined]) -> Result<(), AllocError>
        ensures { OnOk result (written self.new
            ≡ with_tokens (written self.old) (others_tokens_of others.now)) }
    {
        for joined in others {
            self.put_joined(joined)?;
        }
        Ok(())
    }

    #[tactic(auto, using(crate::proofs::Writing::with_append))]
    fn put_joined(&mut self, joined: &Joined) -> Result<(), AllocError>
        ensures { OnOk result (written self.new
            ≡ with_tokens (written self.old) (joined_tokens joined.now)) }
    {
        match &joined.kind {
            JoinKind::Inner(on) => self.put_on(&joined.table, on),
            JoinKind::Left(on) => {
                self.put(Token::Keyword(Keyword::Left))?;
                self.put_on(&joined.table, on)
            }
            JoinKind::Comma => {
                self.put(Token::Sign(Sign::Comma))?;
                self.put_table(&joined.table)
            }
        }
    }

    /// JOIN, a table and its condition.
    #[tactic(auto, using(crate::proofs::Writing::with_append))]
    fn put_on(&mut self, table: &Table, on: &Expr) -> Result<(), AllocError>
        ensures { OnOk result (written self.new
            ≡ with_tokens (written self.old) (on_tokens table.now on.now [])) }
    {
        self.put(Token::Keyword(Keyword::Join))?;
        self.put_table(table)?;
        self.put_behind(Token::Keyword(Keyword::On), Level::Disjunction, on)
    }

    fn put_clause(&mut self, keyword: Keyword, condition: &Option<Expr>) -> Result<(), AllocError>
        ensures { OnOk result (written self.new
            ≡ with_tokens (written self.old) (clause_tokens keyword condition.now)) }
    {
        match condition {
            Some(condition) => {
                self.put_behind(Token::Keyword(keyword), Level::Disjunction, condition)
            }
            None => Ok(()),
        }
    }

    #[tactic(auto, using(crate::proofs::Writing::with_append))]
    fn put_groups(&mut self, groups: &[Expr]) -> Result<(), AllocError>
        ensures { OnOk result (written self.new
            ≡ with_tokens (written self.old) (groups_tokens_of groups.now)) }
    {
        if groups.is_empty() {
            return Ok(());
        }
        self.put(Token::Keyword(Keyword::Group))?;
        self.put(Token::Keyword(Keyword::By))?;
        self.put_list(groups)
    }

    fn put_order(&mut self, keys: &[OrderKey]) -> Result<(), AllocError>
        ensures { OnOk result (written self.new
            ≡ with_tokens (written self.old) (order_tokens_of keys.now)) }
    {
        let Some((first, rest)) = keys.split_first() else {
            return Ok(());
        };
        self.put(Token::Keyword(Keyword::Order))?;
        self.put(Token::Keyword(Keyword::By))?;
        self.put_keys(first, rest)
    }

    #[tactic(auto, using(crate::proofs::Writing::keys_first))]
    fn put_keys(&mut self, first: &OrderKey, rest: &[OrderKey]) -> Result<(), AllocError>
        ensures { OnOk result (written self.new
            ≡ with_tokens (written self.old) (with_commas (map key_tokens
            (first.now ∷ rest.now)))) }
    {
        self.put_key(first)?;
        self.put_more_keys(rest)
    }

    #[tactic(auto, using(crate::proofs::Writing::keys_step))]
    fn put_more_keys(&mut self, keys: &[OrderKey]) -> Result<(), AllocError>
        ensures { OnOk result (written self.new
            ≡ with_tokens (written self.old) (more_keys keys.now)) }
    {
        for key in keys {
            self.put(Token::Sign(Sign::Comma))?;
            self.put_key(key)?;
        }
        Ok(())
    }

    fn put_key(&mut self, key: &OrderKey) -> Result<(), AllocError>
        ensures { OnOk result (written self.new
            ≡ with_tokens (written self.old) (key_tokens key.now)) }
    {
        self.put(target_token(&key.target))?;
        match key.direction {
            Direction::Ascending => Ok(()),
            Direction::Descending => self.put(Token::Keyword(Keyword::Desc)),
        }
    }

    fn put_limit(&mut self, limit: Option<u64>) -> Result<(), AllocError>
        ensures { OnOk result (written self.new
            ≡ with_tokens (written self.old) (limit_tokens_of limit)) }
    {
        match limit {
            Some(number) => {
                self.put(Token::Keyword(Keyword::Limit))?;
                self.put(Token::Integer(number))
            }
            None => Ok(()),
        }
    }

    /// An expression where those of a rule are taken, in brackets where it binds less.
    #[cycle(printing)]
    #[tactic(auto, using(crate::proofs::Writing::with_append))]
    fn put_at(&mut self, level: Level, expr: &Expr) -> Result<(), AllocError>
        ensures { OnOk result (written self.new
            ≡ with_tokens (written self.old) (at_level level (printed expr.now))) }
    {
        if level.rank() <= strength(expr).rank() {
            self.put_expr(expr)
        } else {
            self.put(Token::Sign(Sign::Open))?;
            self.put_expr(expr)?;
            self.put(Token::Sign(Sign::Close))
        }
    }

    /// An expression behind a token.
    #[cycle(printing)]
    fn put_behind(&mut self, token: Token<'_>, level: Level, expr: &Expr) -> Result<(), AllocError>
        ensures { OnOk result (written self.new
            ≡ with_tokens (written self.old) (terminal_of token.entry
            ∷ at_level level (printed expr.now))) }
    {
        self.put(token)?;
        self.put_at(level, expr)
    }

    #[cycle(printing)]
    #[tactic(auto, using(crate::proofs::Writing::case_step))]
    fn put_expr(&mut self, expr: &Expr) -> Result<(), AllocError>
        ensures { OnOk result (written self.new
            ≡ with_tokens (written self.old) (printed expr.now).tokens) }
    {
        match expr {
            Expr::Column { table, name } => self.put_column(table, name),
            Expr::Integer(integer) => self.put_integer(*integer),
            Expr::Text(content) => self.put_text(content.as_str()),
            Expr::CountRows => self.put_count_rows(),
            Expr::Aggregate { kind, argument } => self.put_aggregate_of(*kind, argument.get()),
            Expr::Minus(operand) => self.put_minus(operand.get()),
            Expr::Arithmetic {
                operator,
                left,
                right,
            } => self.put_arithmetic(*operator, left.get(), right.get()),
            Expr::Compare {
                operator,
                left,
                right,
            } => self.put_compare(*operator, left.get(), right.get()),
            Expr::Not(operand) => self.put_not(operand.get()),
            Expr::And { left, right } => self.put_and(left.get(), right.get()),
            Expr::Or { left, right } => self.put_or(left.get(), right.get()),
            Expr::IsNull { negated, subject } => self.put_null_test(*negated, subject.get()),
            Expr::Between {
                negated,
                subject,
                low,
                high,
            } => self.put_between(*negated, subject.get(), low.get(), high.get()),
            Expr::In {
                negated,
                subject,
                entries,
            } => self.put_in(*negated, entries.as_slice(), subject.get()),
            Expr::Like {
                negated,
                subject,
                pattern,
            } => self.put_like_test(*negated, subject.get(), pattern),
            Expr::Coalesce(entries) => self.put_coalesce(entries.as_slice()),
            Expr::Case { arms, otherwise } => {
                self.put_case(arms.as_slice())?;
                self.put_case_end(otherwise)
            }
        }
    }

    #[cycle(printing)]
    fn put_minus(&mut self, operand: &Expr) -> Result<(), AllocError>
        ensures { OnOk result (written self.new
            ≡ with_tokens (written self.old) (printed (node.Minus operand.now)).tokens) }
    {
        self.put_behind(Token::Sign(Sign::Minus), Level::Primary, operand)
    }

    #[cycle(printing)]
    fn put_not(&mut self, operand: &Expr) -> Result<(), AllocError>
        ensures { OnOk result (written self.new
            ≡ with_tokens (written self.old) (printed (node.Not operand.now)).tokens) }
    {
        self.put_behind(Token::Keyword(Keyword::Not), Level::Negation, operand)
    }

    #[cycle(printing)]
    #[tactic(auto, using(crate::proofs::Writing::aggregate_step))]
    fn put_aggregate_of(&mut self, kind: Aggregate, argument: &Expr) -> Result<(), AllocError>
        ensures { OnOk result (written self.new
            ≡ with_tokens (written self.old) (printed (node.Aggregate kind argument.now)).tokens) }
    {
        self.put_aggregate(kind)?;
        self.put_at(Level::Disjunction, argument)?;
        self.put(Token::Sign(Sign::Close))
    }

    #[cycle(printing)]
    #[tactic(auto, using(crate::proofs::Writing::reckon_step))]
    fn put_arithmetic(
        &mut self,
        operator: ArithmeticOperator,
        left: &Expr,
        right: &Expr,
    ) -> Result<(), AllocError>
        ensures { OnOk result (written self.new
            ≡ with_tokens (written self.old) (printed (node.Arithmetic operator left.now right.now)).tokens) }
    {
        self.put_at(level_of_arithmetic(operator), left)?;
        self.put_right(operator, right)
    }

    #[cycle(printing)]
    #[tactic(auto, using(crate::proofs::Writing::compare_step))]
    fn put_compare(
        &mut self,
        operator: ComparisonOperator,
        left: &Expr,
        right: &Expr,
    ) -> Result<(), AllocError>
        ensures { OnOk result (written self.new
            ≡ with_tokens (written self.old) (printed (node.Compare operator left.now right.now)).tokens) }
    {
        self.put_at(Level::Sum, left)?;
        let sign = sign_of_comparison(operator);
        self.put_behind(Token::Sign(sign), Level::Sum, right)
    }

    #[cycle(printing)]
    #[tactic(auto, using(crate::proofs::Writing::and_step))]
    fn put_and(&mut self, left: &Expr, right: &Expr) -> Result<(), AllocError>
        ensures { OnOk result (written self.new
            ≡ with_tokens (written self.old) (printed (node.And left.now right.now)).tokens) }
    {
        self.put_at(Level::Conjunction, left)?;
        self.put_behind(Token::Keyword(Keyword::And), Level::Negation, right)
    }

    #[cycle(printing)]
    #[tactic(auto, using(crate::proofs::Writing::or_step))]
    fn put_or(&mut self, left: &Expr, right: &Expr) -> Result<(), AllocError>
        ensures { OnOk result (written self.new
            ≡ with_tokens (written self.old) (printed (node.Or left.now right.now)).tokens) }
    {
        self.put_at(Level::Disjunction, left)?;
        self.put_behind(Token::Keyword(Keyword::Or), Level::Conjunction, right)
    }

    #[cycle(printing)]
    #[tactic(auto, using(crate::proofs::Writing::null_step))]
    fn put_null_test(&mut self, negated: bool, subject: &Expr) -> Result<(), AllocError>
        ensures { OnOk result (written self.new
            ≡ with_tokens (written self.old) (printed (node.IsNull negated subject.now)).tokens) }
    {
        self.put_at(Level::Sum, subject)?;
        self.put_is_null(negated)
    }

    #[cycle(printing)]
    #[tactic(auto, using(crate::proofs::Writing::between_step))]
    fn put_between(
        &mut self,
        negated: bool,
        subject: &Expr,
        low: &Expr,
        high: &Expr,
    ) -> Result<(), AllocError>
        ensures { OnOk result (written self.new
            ≡ with_tokens (written self.old) (printed (node.Between negated subject.now low.now high.now)).tokens) }
    {
        self.put_at(Level::Sum, subject)?;
        self.put_not_if(negated)?;
        self.put_behind(Token::Keyword(Keyword::Between), Level::Sum, low)?;
        self.put_behind(Token::Keyword(Keyword::And), Level::Sum, high)
    }

    #[cycle(printing)]
    #[tactic(auto, using(crate::proofs::Writing::in_step))]
    fn put_in(&mut self, negated: bool, entries: &[Expr], subject: &Expr) -> Result<(), AllocError>
        ensures { OnOk result (written self.new
            ≡ with_tokens (written self.old) (printed (node.In negated subject.now entries.now)).tokens) }
    {
        self.put_at(Level::Sum, subject)?;
        self.put_not_if(negated)?;
        self.put(Token::Keyword(Keyword::In))?;
        self.put_in_brackets(entries)
    }

    #[cycle(printing)]
    #[tactic(auto, using(crate::proofs::Writing::like_step))]
    fn put_like_test(
        &mut self,
        negated: bool,
        subject: &Expr,
        pattern: &Text,
    ) -> Result<(), AllocError>
        ensures { OnOk result (written self.new
            ≡ with_tokens (written self.old) (printed (node.Like negated subject.now pattern.now)).tokens) }
    {
        self.put_at(Level::Sum, subject)?;
        self.put_like(negated, pattern)
    }

    #[cycle(printing)]
    fn put_coalesce(&mut self, entries: &[Expr]) -> Result<(), AllocError>
        ensures { OnOk result (written self.new
            ≡ with_tokens (written self.old) (printed (node.Coalesce entries.now)).tokens) }
    {
        self.put(Token::Keyword(Keyword::Coalesce))?;
        self.put_in_brackets(entries)
    }

    /// CASE and its arms.
    #[cycle(printing)]
    fn put_case(&mut self, arms: &[Arm]) -> Result<(), AllocError>
        ensures { OnOk result (written self.new
            ≡ with_tokens (with_token (written self.old) (keyword Case))
            (arms_tokens (map printed_arm arms.now))) }
    {
        self.put(Token::Keyword(Keyword::Case))?;
        self.put_arms(arms)
    }

    /// ELSE and END.
    #[cycle(printing)]
    fn put_case_end(&mut self, otherwise: &Option<Boxed<Expr>>) -> Result<(), AllocError>
        ensures { OnOk result (written self.new
            ≡ with_token (with_tokens (written self.old)
            (else_tokens (option_map printed otherwise.now))) (keyword End)) }
    {
        self.put_else(otherwise)?;
        self.put(Token::Keyword(Keyword::End))
    }

    /// An operator of arithmetic and what stands behind it.
    #[cycle(printing)]
    fn put_right(&mut self, operator: ArithmeticOperator, right: &Expr) -> Result<(), AllocError>
        ensures { OnOk result (written self.new
            ≡ with_tokens (written self.old) (token_of (Reckon operator)
            ∷ at_level (next (level_of (Reckon operator))) (printed right.now))) }
    {
        let sign = sign_of_arithmetic(operator);
        let level = level_of_arithmetic(operator).next();
        self.put_behind(Token::Sign(sign), level, right)
    }

    /// An aggregate's name and what stands before its argument.
    fn put_aggregate(&mut self, kind: Aggregate) -> Result<(), AllocError>
        ensures { OnOk result (written self.new
            ≡ with_tokens (written self.old) (aggregate_tokens kind)) }
    {
        self.put(Token::Keyword(aggregate_word(kind)))?;
        self.put(Token::Sign(Sign::Open))?;
        self.put_distinct_if(is_distinct(kind))
    }

    #[tactic(auto, using(crate::proofs::Writing::with_append))]
    fn put_count_rows(&mut self) -> Result<(), AllocError>
        ensures { OnOk result (written self.new
            ≡ with_tokens (written self.old) (keyword Count ∷ bracketed (mark Star ∷ []))) }
    {
        self.put(Token::Keyword(Keyword::Count))?;
        self.put(Token::Sign(Sign::Open))?;
        self.put(Token::Sign(Sign::Star))?;
        self.put(Token::Sign(Sign::Close))
    }

    #[tactic(auto, using(crate::proofs::Writing::with_append))]
    fn put_is_null(&mut self, negated: bool) -> Result<(), AllocError>
        ensures { OnOk result (written self.new
            ≡ with_tokens (written self.old) (keyword Is ∷ not_if negated ++ keyword Null ∷ [])) }
    {
        self.put(Token::Keyword(Keyword::Is))?;
        self.put_not_if(negated)?;
        self.put(Token::Keyword(Keyword::Null))
    }

    #[tactic(auto, using(crate::proofs::Writing::with_append))]
    fn put_like(&mut self, negated: bool, pattern: &Text) -> Result<(), AllocError>
        ensures { OnOk result (written self.new
            ≡ with_tokens (written self.old) (not_if negated ++ keyword Like
            ∷ text (doubled pattern.now) ∷ [])) }
    {
        self.put_not_if(negated)?;
        self.put(Token::Keyword(Keyword::Like))?;
        self.put_text(pattern.as_str())
    }

    #[cycle(printing)]
    #[tactic(auto, using(crate::proofs::Writing::with_append))]
    fn put_in_brackets(&mut self, entries: &[Expr]) -> Result<(), AllocError>
        ensures { OnOk result (written self.new
            ≡ with_tokens (written self.old) (bracketed (list_tokens (map printed entries.now)))) }
    {
        self.put(Token::Sign(Sign::Open))?;
        self.put_list(entries)?;
        self.put(Token::Sign(Sign::Close))
    }

    /// Expressions with commas between.
    #[cycle(printing)]
    #[tactic(auto, using(crate::proofs::Writing::list_step, crate::proofs::Writing::more_step))]
    fn put_list(&mut self, entries: &[Expr]) -> Result<(), AllocError>
        ensures { OnOk result (written self.new
            ≡ with_tokens (written self.old) (list_tokens (map printed entries.now))) }
    {
        let Some((first, rest)) = entries.split_first() else {
            return Ok(());
        };
        self.put_at(Level::Disjunction, first)?;
        for entry in rest {
            self.put_behind(Token::Sign(Sign::Comma), Level::Disjunction, entry)?;
        }
        Ok(())
    }

    #[cycle(printing)]
    #[tactic(auto, using(crate::proofs::Writing::arms_step))]
    fn put_arms(&mut self, arms: &[Arm]) -> Result<(), AllocError>
        ensures { OnOk result (written self.new
            ≡ with_tokens (written self.old) (arms_tokens (map printed_arm arms.now))) }
    {
        for arm in arms {
            self.put_behind(
                Token::Keyword(Keyword::When),
                Level::Disjunction,
                &arm.condition,
            )?;
            self.put_behind(
                Token::Keyword(Keyword::Then),
                Level::Disjunction,
                &arm.value,
            )?;
        }
        Ok(())
    }

    /// No ELSE is the same as ELSE NULL.
    #[cycle(printing)]
    fn put_else(&mut self, otherwise: &Option<Boxed<Expr>>) -> Result<(), AllocError>
        ensures { OnOk result (written self.new
            ≡ with_tokens (written self.old) (else_tokens (option_map printed otherwise.now))) }
    {
        match otherwise {
            Some(value) => self.put_behind(
                Token::Keyword(Keyword::Else),
                Level::Disjunction,
                value.get(),
            ),
            None => Ok(()),
        }
    }
}

fn target_token(target: &OrderTarget) -> Token<'_>
    ensures { terminal_of result ≡ target_token target.now }
{
    match target {
        OrderTarget::Position(position) => Token::Integer(*position),
        OrderTarget::Name(name) => Token::Name(name.as_str()),
    }
}

fn aggregate_word(kind: Aggregate) -> Keyword
    ensures { result ≡ aggregate_word kind }
{
    match kind {
        Aggregate::Count | Aggregate::CountDistinct => Keyword::Count,
        Aggregate::Sum | Aggregate::SumDistinct => Keyword::Sum,
        Aggregate::Min => Keyword::Min,
        Aggregate::Max => Keyword::Max,
        Aggregate::Average => Keyword::Avg,
    }
}

fn is_distinct(kind: Aggregate) -> bool
    ensures { result ≡ is_distinct kind }
{
    matches!(kind, Aggregate::CountDistinct | Aggregate::SumDistinct)
}
