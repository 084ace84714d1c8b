//! A plan as an indented tree, one operator a line.
ghost use Rattle.std.specs.Prelude.{◌≡◌, ◌++◌, ◌∷◌, [], IfOk, OnOk, string_bytes};
ghost use Rattle.explain.specs.Explaining.{EndsWithText, IsOutline, with_text};

use crate::column_types::type_over;
use crate::conditions::condition_lines;
use crate::expressions::{phrase_aggregates, phrase_keys, put};
use crate::names::{NamedTable, Names, Phrase};
use crate::words::type_word;
use meaning::{Expr, Item, Join, JoinType, OrderKey, Plan};
use sql_syntax::Query;
use std::alloc::{AllocError, Global};
use std::mem::drop;

/// Lines of a tree: each operator stands one step further in than the one that takes its rows.
#[derive(Drop)]
struct OperatorLines {
    text: String,
    depth: usize,
}

impl OperatorLines {
    fn indent(&mut self) -> Result<(), AllocError> {
        for _ in 0..self.depth {
            self.text.push_str("  ")?;
        }
        Ok(())
    }

    /// Begins the line of an operator.
    fn begin(&mut self, word: &str) -> Result<(), AllocError> {
        self.indent()?;
        self.depth = self.depth.saturating_add(1);
        self.text.push_str(word)
    }

    fn end(&mut self) -> Result<(), AllocError>
        ensures { OnOk result
            (string_bytes self.new.text ≡ string_bytes self.old.text ++ 10 ∷ []) }
    {
        self.text.push_str("\n")
    }

    fn put_limit(&mut self, limit: Option<u64>) -> Result<(), AllocError> {
        let Some(limit) = limit else {
            return Ok(());
        };
        self.begin("limit ")?;
        let text = &mut self.text;
        write!(text, "{limit}")?;
        self.end()
    }

    fn put_order_key(&mut self, items: &[Item], key: &OrderKey) -> Result<(), AllocError> {
        match items.get(key.item) {
            Some(item) => self.text.push_str(item.header.as_str())?,
            None => self.text.push_str("?")?,
        }
        self.text
            .push_str(if key.descending { " DESC" } else { "" })
    }

    fn put_sort(&mut self, items: &[Item], order: &[OrderKey]) -> Result<(), AllocError> {
        if order.is_empty() {
            return Ok(());
        }
        self.begin("sort")?;
        let mut between = " ";
        for key in order {
            self.text.push_str(between)?;
            self.put_order_key(items, key)?;
            between = ", ";
        }
        self.end()
    }

    fn put_distinct(&mut self, distinct: bool) -> Result<(), AllocError> {
        if !distinct {
            return Ok(());
        }
        self.begin("distinct")?;
        self.end()
    }

    /// An item, with its header where that isn't its text.
    fn put_item(
        &mut self,
        alloc: Global,
        names: &Names<'_>,
        item: &Item,
    ) -> Result<(), AllocError> {
        let mut text = String::new(alloc);
        put(&mut text, names, &item.expr)?;
        self.text.push_str(text.as_str())?;
        let header = item.header.as_str();
        if text.as_str() == header {
            return Ok(());
        }
        self.text.push_str(" AS ")?;
        self.text.push_str(header)
    }

    fn put_project(
        &mut self,
        alloc: Global,
        names: &Names<'_>,
        items: &[Item],
    ) -> Result<(), AllocError> {
        self.begin("project")?;
        let mut between = " ";
        for item in items {
            self.text.push_str(between)?;
            self.put_item(alloc, names, item)?;
            between = ", ";
        }
        self.end()
    }

    fn put_having(&mut self, names: &Names<'_>, having: &Option<Expr>) -> Result<(), AllocError> {
        let Some(condition) = having else {
            return Ok(());
        };
        self.begin("having ")?;
        put(&mut self.text, names, condition)?;
        self.end()
    }

    fn put_phrases(&mut self, phrases: &[Phrase], word: &str) -> Result<(), AllocError> {
        let mut between = word;
        for phrase in phrases {
            self.text.push_str(between)?;
            self.text.push_str(phrase.text.as_str())?;
            between = ", ";
        }
        Ok(())
    }

    fn put_aggregate(&mut self, names: &Names<'_>) -> Result<(), AllocError> {
        self.begin("aggregate")?;
        self.put_phrases(names.aggregates.as_slice(), " ")?;
        self.put_phrases(names.keys.as_slice(), " by ")?;
        self.end()
    }

    /// The line behind which the conditions come, if there are any.
    fn put_filter(&mut self, conditions: &[Expr]) -> Result<(), AllocError> {
        if conditions.is_empty() {
            return Ok(());
        }
        self.begin("filter")?;
        self.end()
    }

    /// A table's name, with the one that it goes by, and the columns that are read of it.
    fn put_table(&mut self, named: &NamedTable<'_>) -> Result<(), AllocError> {
        let name = named.table.name.as_str();
        self.text.push_str(name)?;
        if name != named.called {
            self.text.push_str(" AS ")?;
            self.text.push_str(named.called)?;
        }
        self.put_columns(named)
    }

    fn put_columns(&mut self, named: &NamedTable<'_>) -> Result<(), AllocError> {
        let columns = named.columns();
        if columns.is_empty() {
            return Ok(());
        }
        let mut between = " (";
        for column in columns {
            self.text.push_str(between)?;
            self.text.push_str(column.name.as_str())?;
            self.text.push_str(" ")?;
            self.text.push_str(type_word(column.col_type))?;
            between = ", ";
        }
        self.text.push_str(")")
    }

    fn put_join(
        &mut self,
        names: &Names<'_>,
        table: &NamedTable<'_>,
        join: &Join,
    ) -> Result<(), AllocError> {
        self.begin(match join.join_type {
            JoinType::Inner => "join ",
            JoinType::Left => "left join ",
        })?;
        self.put_table(table)?;
        self.text.push_str(" ON ")?;
        names.put_column(&mut self.text, &names.fact, join.foreign)?;
        self.text.push_str(" = ")?;
        names.put_column(&mut self.text, table, join.key)?;
        self.end()
    }

    /// The joins, the last of FROM first, since it takes the rows of those before it.
    fn put_joins(&mut self, plan: &Plan, names: &Names<'_>) -> Result<(), AllocError> {
        let joins = plan.joins.as_slice();
        for at in (0..joins.len()).rev() {
            if let Some(table) = names.dims.get(at) {
                self.put_join(names, table, &joins[at])?;
            }
        }
        Ok(())
    }

    fn put_scan(&mut self, names: &Names<'_>) -> Result<(), AllocError> {
        self.begin("scan ")?;
        self.put_table(&names.fact)?;
        self.end()
    }

    fn put_groups(&mut self, plan: &Plan, names: &Names<'_>) -> Result<(), AllocError> {
        if plan.plain {
            return Ok(());
        }
        self.put_having(names, &plan.having)?;
        self.put_aggregate(names)
    }

    /// What takes the groups.
    fn put_shown(
        &mut self,
        alloc: Global,
        plan: &Plan,
        names: &Names<'_>,
    ) -> Result<(), AllocError> {
        let items = plan.items.as_slice();
        self.put_limit(plan.limit)?;
        self.put_sort(items, plan.order.as_slice())?;
        self.put_distinct(plan.distinct)?;
        self.put_project(alloc, names, items)
    }

    /// What stands in front of the conditions.
    fn put_head(
        &mut self,
        alloc: Global,
        plan: &Plan,
        names: &Names<'_>,
    ) -> Result<(), AllocError> {
        self.put_shown(alloc, plan, names)?;
        self.put_groups(plan, names)?;
        self.put_filter(plan.conjuncts.as_slice())
    }

    /// What stands behind them.
    fn put_tail(&mut self, plan: &Plan, names: &Names<'_>) -> Result<(), AllocError>
        ensures { OnOk result (EndsWithText plan.now (string_bytes self.new.text)) }
    {
        self.put_joins(plan, names)?;
        self.put_scan(names)?;
        self.put_printed(plan)?;
        self.put_text(plan)
    }

    /// The names and the types of what is printed.
    fn put_printed(&mut self, plan: &Plan) -> Result<(), AllocError> {
        let mut between = "columns: ";
        for item in plan.items.as_slice() {
            self.text.push_str(between)?;
            self.text.push_str(item.header.as_str())?;
            self.text.push_str(" ")?;
            self.text.push_str(match type_over(plan, &item.expr) {
                Some(col_type) => type_word(col_type),
                None => "null",
            })?;
            between = ", ";
        }
        self.end()
    }

    fn put_text(&mut self, plan: &Plan) -> Result<(), AllocError>
        ensures { OnOk result
            (string_bytes self.new.text ≡ with_text (string_bytes self.old.text) plan.now) }
    {
        self.text.push_str("text: ")?;
        self.text.push_str(plan.text.as_str())?;
        self.end()
    }
}

/// What the numbers of a plan are called in its query.
fn names_of<'a>(alloc: Global, query: &'a Query, plan: &'a Plan) -> Result<Names<'a>, AllocError> {
    let mut names = Names::of_tables(alloc, plan, &query.source)?;
    let keys = phrase_keys(alloc, &names, plan.keys.as_slice())?;
    let aggregates = phrase_aggregates(alloc, &names, plan.aggs.as_slice())?;
    names.keys = keys;
    names.aggregates = aggregates;
    Ok(names)
}

fn head_of(alloc: Global, plan: &Plan, names: &Names<'_>) -> Result<OperatorLines, AllocError> {
    let mut lines = OperatorLines {
        text: String::new(alloc),
        depth: 0,
    };
    match lines.put_head(alloc, plan, names) {
        Ok(()) => Ok(lines),
        Err(error) => {
            drop(lines);
            Err(error)
        }
    }
}

fn tail_of(
    alloc: Global,
    plan: &Plan,
    names: &Names<'_>,
    depth: usize,
) -> Result<String, AllocError>
    ensures { IfOk result (λ text. EndsWithText plan.now (string_bytes text)) }
{
    let mut lines = OperatorLines {
        text: String::new(alloc),
        depth,
    };
    match lines.put_tail(plan, names) {
        Ok(()) => Ok(lines.text),
        Err(error) => {
            drop(lines);
            Err(error)
        }
    }
}

fn outline_of(alloc: Global, plan: &Plan, names: &Names<'_>) -> Result<String, AllocError>
    ensures { IfOk result (λ text. IsOutline plan.now (string_bytes text)) }
{
    let OperatorLines { text: head, depth } = head_of(alloc, plan, names)?;
    let conditions = condition_lines(alloc, names, plan, depth)?;
    let tail = tail_of(alloc, plan, names, depth)?;
    let (head, conditions, tail) = (head.as_str(), conditions.as_str(), tail.as_str());
    format!(in alloc; "{head}{conditions}{tail}")
}

/// The plan of a query as a tree, and behind it the columns of the report and the canonical text.
pub fn outline(alloc: Global, query: &Query, plan: &Plan) -> Result<String, AllocError>
    ensures { IfOk result (λ text. IsOutline plan.now (string_bytes text)) }
{
    let names = names_of(alloc, query, plan)?;
    let text = outline_of(alloc, plan, &names);
    drop(names);
    text
}
