//! Queries over the groups: their key and their sum are shown.
ghost use Rattle.std.specs.Prelude.{◌≡◌, [], ◌∷◌, pos, map, IfOk};
ghost use Rattle.meaning.specs.declared.expr.ArithmeticOperator.TheVariants as arithmetic;
ghost use Rattle.meaning.specs.declared.expr.ComparisonOperator.TheVariants as comparison;
ghost use Rattle.meaning.specs.declared.expr.Expr.TheVariants as the_expr;
ghost use Rattle.meaning.specs.declared.plan.AggregateKind.TheVariants.{Sum};
ghost use Rattle.meaning.specs.declared.value.ColType.TheVariants as of_type;
ghost use Rattle.meaning.specs.declared.value.Value.TheVariants.{Int};
ghost use Rattle.group_tests.specs.Shapes.{AreKeys, AreSums, IsHaving, IsSumPlan};

use meaning::{
    Aggregate, AggregateKind, ArithmeticOperator, Boxed, ColType, ComparisonOperator, Expr,
    GroupingKey, Item, OrderKey, Plan, Sequence, TableUse, Text, Value,
};
use std::alloc::{AllocError, Global};
use std::mem::drop;

/// What HAVING asks.
#[derive(Clone, Copy)]
pub enum Having {
    Nothing,
    SumAboveTwo,
    HundredBySumAboveTwo,
}

/// A query over the groups. An order is by the sum.
#[derive(Clone, Copy)]
pub struct Query {
    pub having: Having,
    pub descending: Option<bool>,
    pub limit: Option<u64>,
    pub plain: bool,
    pub distinct: bool,
}

/// All groups, in the order of their keys.
pub const ALL: Query = Query {
    having: Having::Nothing,
    descending: None,
    limit: None,
    plain: false,
    distinct: false,
};

fn above_two(alloc: Global, left: Expr) -> Result<Expr, AllocError>
    ensures { IfOk result (λ e. e ≡ the_expr.Compare comparison.Greater left (the_expr.Literal
        (Int (pos 2)))) }
{
    let left = Boxed::new(alloc, left)?;
    let right = Boxed::new(alloc, Expr::Literal(Value::Int(2)))?;
    Ok(Expr::Compare(ComparisonOperator::Greater, left, right))
}

fn hundred_by_sum(alloc: Global) -> Result<Expr, AllocError>
    ensures { IfOk result (λ e. e ≡ the_expr.Arithmetic arithmetic.Divide (the_expr.Literal (Int
        (pos 100))) (the_expr.Aggregate 0)) }
{
    let left = Boxed::new(alloc, Expr::Literal(Value::Int(100)))?;
    let right = Boxed::new(alloc, Expr::Aggregate(0))?;
    Ok(Expr::Arithmetic(ArithmeticOperator::Divide, left, right))
}

#[tactic(auto, using(crate::proofs::SumPlans::nothing_asked, crate::proofs::SumPlans::sum_asked, crate::proofs::SumPlans::hundred_asked))]
fn having_of(alloc: Global, having: Having) -> Result<Option<Expr>, AllocError>
    ensures { IfOk result IsHaving }
{
    match having {
        Having::Nothing => Ok(None),
        Having::SumAboveTwo => Ok(Some(above_two(alloc, Expr::Aggregate(0))?)),
        Having::HundredBySumAboveTwo => Ok(Some(above_two(alloc, hundred_by_sum(alloc)?)?)),
    }
}

fn item(alloc: Global, expr: Expr) -> Result<Item, AllocError>
    ensures { IfOk result (λ i. i.expr ≡ expr) }
{
    let header = Text::new(alloc, "c")?;
    Ok(Item { header, expr })
}

fn items(alloc: Global) -> Result<Sequence<Item>, AllocError>
    ensures { IfOk result (λ is. map (λ i. i.expr) is ≡ the_expr.Key 0 ∷ the_expr.Aggregate 0 ∷ []) }
{
    let mut items = Sequence::new(alloc);
    items.push(item(alloc, Expr::Key(0))?)?;
    items.push(item(alloc, Expr::Aggregate(0))?)?;
    Ok(items)
}

/// A key that is an integer.
pub fn int_key() -> GroupingKey
    ensures { result.col_type ≡ of_type.Int }
{
    GroupingKey {
        expr: Expr::Literal(Value::Null),
        col_type: ColType::Int,
    }
}

fn keys(alloc: Global) -> Result<Sequence<GroupingKey>, AllocError>
    ensures { IfOk result AreKeys }
{
    let mut keys = Sequence::new(alloc);
    keys.push(int_key())?;
    Ok(keys)
}

/// One sum of integers.
pub fn sums(alloc: Global) -> Result<Sequence<Aggregate>, AllocError>
    ensures sums { IfOk result AreSums }
    ensures kinds { IfOk result (λ aggregates. map (λ a. a.kind) aggregates ≡ Sum ∷ []) }
{
    let mut aggregates = Sequence::new(alloc);
    aggregates.push(Aggregate {
        kind: AggregateKind::Sum,
        argument: Expr::Literal(Value::Int(1)),
        col_type: ColType::Int,
    })?;
    Ok(aggregates)
}

fn order_of(alloc: Global, descending: Option<bool>) -> Result<Sequence<OrderKey>, AllocError> {
    let mut order = Sequence::new(alloc);
    if let Some(descending) = descending {
        order.push(OrderKey {
            item: 1,
            descending,
        })?;
    }
    Ok(order)
}

/// The lists of a plan.
#[derive(Drop)]
pub struct Lists {
    pub keys: Sequence<GroupingKey>,
    pub aggs: Sequence<Aggregate>,
    pub items: Sequence<Item>,
    pub order: Sequence<OrderKey>,
}

fn lists_of(alloc: Global, descending: Option<bool>) -> Result<Lists, AllocError>
    ensures keys { IfOk result (λ lists. AreKeys lists.keys) }
    ensures sums { IfOk result (λ lists. AreSums lists.aggs) }
    ensures items { IfOk result (λ lists. map (λ i. i.expr) lists.items
        ≡ the_expr.Key 0 ∷ the_expr.Aggregate 0 ∷ []) }
{
    let keys = keys(alloc)?;
    let aggs = sums(alloc)?;
    let order = order_of(alloc, descending)?;
    let items = items(alloc)?;
    Ok(Lists {
        keys,
        aggs,
        items,
        order,
    })
}

/// A plan over one table with these lists.
pub fn plan_with(
    alloc: Global,
    query: Query,
    name: Text,
    lists: Lists,
    having: Option<Expr>,
) -> Plan
    ensures keys { result.keys ≡ lists.keys }
    ensures aggs { result.aggs ≡ lists.aggs }
    ensures items { result.items ≡ lists.items }
    ensures having { result.having ≡ having }
{
    Plan {
        text: Text::from_string(String::new(alloc)),
        fact: TableUse {
            name,
            columns: Sequence::new(alloc),
        },
        joins: Sequence::new(alloc),
        conjuncts: Sequence::new(alloc),
        keys: lists.keys,
        aggs: lists.aggs,
        having,
        items: lists.items,
        order: lists.order,
        limit: query.limit,
        plain: query.plain,
        distinct: query.distinct,
    }
}

fn sum_plan(alloc: Global, query: Query, name: Text, lists: Lists, having: Option<Expr>) -> Plan
    requires keys { AreKeys lists.keys }
    requires sums { AreSums lists.aggs }
    requires items { map (λ i. i.expr) lists.items ≡ the_expr.Key 0 ∷ the_expr.Aggregate 0 ∷ [] }
    requires having { IsHaving having }
    ensures { IsSumPlan result }
{
    plan_with(alloc, query, name, lists, having)
}

/// The query's plan, as far as the last step reads it.
pub fn plan_of(alloc: Global, query: Query) -> Result<Plan, AllocError>
    ensures { IfOk result IsSumPlan }
{
    let name = Text::new(alloc, "t")?;
    let lists = lists_of(alloc, query.descending)?;
    match having_of(alloc, query.having) {
        Ok(having) => Ok(sum_plan(alloc, query, name, lists, having)),
        Err(fault) => {
            drop(lists);
            drop(name);
            Err(fault)
        }
    }
}
