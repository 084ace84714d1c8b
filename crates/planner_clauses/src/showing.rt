//! What a query shows of its groups, and in which order.
ghost use Rattle.std.specs.Prelude.{◌≡◌, ◌++◌, ◌∷◌, [], ◌+◌, ◌<◌, IfOk, map, option_map, List, ℕ, ◌^◌, codes, decimal, position, filter, length};
ghost use Rattle.std.specs.List.{enumerate_from};
ghost use Rattle.meaning.specs.Results.{all_ok};
ghost use Rattle.planner_expressions.specs.Results.{map_ok, Reports};
ghost use Rattle.planner_clauses.specs.Shown.{item_name as named_by, header as headed, has_name as goes_by, one_named, item_meant, is_descending as descends, order_key, order_of as ordered, over_group as built, item_of, items_of, having_of as having_from, with_header};

use meaning::{Sequence, Text, expr, plan};
use planner_expressions::{Basis, PlanFault, Scope, translate};
use sql_syntax::{Direction, Expr, Item, OrderKey, OrderTarget};
use std::alloc::{AllocError, Global};

/// The name by which ORDER BY may name an item.
fn item_name(item: &Item) -> Option<&Text>
    ensures { option_map (λ t. t.now) result ≡ named_by item.now }
{
    match &item.alias {
        Some(alias) => Some(alias),
        None => match &item.expr {
            Expr::Column { name, .. } => Some(name),
            _ => None,
        },
    }
}

fn numbered(alloc: Global, number: usize) -> Result<Text, AllocError>
    ensures { IfOk result (λ t. t ≡ codes "c" ++ decimal number) }
{
    Ok(Text::from_string(format!(in alloc; "c{}", number)?))
}

fn header(alloc: Global, index: usize, item: &Item) -> Result<Text, AllocError>
    requires { index + 1 < 2 ^ 64 }
    ensures { IfOk result (λ t. t ≡ headed (index, item.now)) }
{
    match item_name(item) {
        Some(name) => name.clone(),
        None => numbered(alloc, index + 1),
    }
}

/// An expression over groups.
fn over_group(
    alloc: Global,
    scope: &Scope,
    basis: &Basis,
    expr: &Expr,
) -> Result<expr::Expr, PlanFault>
    ensures { Reports result (built scope.now basis.now expr.now) }
{
    match translate(alloc, scope, basis, expr) {
        Ok(Some(found)) => Ok(found),
        Ok(None) => Err(PlanFault::NotGrouped),
        Err(_) => Err(PlanFault::Memory),
    }
}

fn with_name(expr: expr::Expr, header: Result<Text, AllocError>) -> Result<plan::Item, PlanFault>
    ensures { (name : List ℕ) → IfOk header (λ t. t ≡ name)
        → Reports result (Ok (with_header name expr)) }
{
    match header {
        Ok(header) => Ok(plan::Item { header, expr }),
        Err(_) => {
            drop(expr);
            Err(PlanFault::Memory)
        }
    }
}

fn item_at(
    alloc: Global,
    scope: &Scope,
    basis: &Basis,
    index: usize,
    item: &Item,
) -> Result<plan::Item, PlanFault>
    requires { index + 1 < 2 ^ 64 }
    ensures { Reports result (item_of scope.now basis.now (index, item.now)) }
{
    match over_group(alloc, scope, basis, &item.expr) {
        Ok(found) => with_name(found, header(alloc, index, item)),
        Err(e) => Err(e),
    }
}

fn put_item(
    item: Result<plan::Item, PlanFault>,
    out: &mut Sequence<plan::Item>,
) -> Result<(), PlanFault>
    ensures { Reports (map_ok (λ _. out.new) result) (map_ok (λ i. out.old ++ i ∷ []) item) }
{
    match item {
        Ok(item) => match out.push(item) {
            Ok(()) => Ok(()),
            Err(_) => Err(PlanFault::Memory),
        },
        Err(e) => Err(e),
    }
}

/// Puts the items behind the others.
pub fn push_items(
    alloc: Global,
    scope: &Scope,
    basis: &Basis,
    items: &[Item],
    out: &mut Sequence<plan::Item>,
) -> Result<(), PlanFault>
    ensures { Reports (map_ok (λ _. out.new) result)
        (map_ok (λ is. out.old ++ is) (items_of scope.now basis.now items.now)) }
{
    for (index, item) in items.iter().enumerate() {
        match put_item(item_at(alloc, scope, basis, index, item), out) {
            Ok(()) => {}
            Err(e) => return Err(e),
        }
    }
    Ok(())
}

pub fn having_of(
    alloc: Global,
    scope: &Scope,
    basis: &Basis,
    having: &Option<Expr>,
) -> Result<Option<expr::Expr>, PlanFault>
    ensures { Reports result (having_from scope.now basis.now having.now) }
{
    match having {
        Some(having) => match over_group(alloc, scope, basis, having) {
            Ok(found) => Ok(Some(found)),
            Err(e) => Err(e),
        },
        None => Ok(None),
    }
}

fn has_name(item: &Item, name: &Text) -> bool
    ensures { result ≡ goes_by name.now item.now }
{
    match item_name(item) {
        Some(found) => name.as_str() == found.as_str(),
        None => false,
    }
}

fn first_named(items: &[Item], name: &Text) -> Option<usize>
    ensures { result ≡ position (goes_by name.now) items.now }
{
    items.iter().position(|item| has_name(item, name))
}

fn count_named(items: &[Item], name: &Text) -> usize
    ensures { result ≡ length (filter (goes_by name.now) items.now) }
{
    items.iter().filter(|item| has_name(item, name)).count()
}

fn item_named(items: &[Item], name: &Text) -> Result<usize, PlanFault>
    ensures { result ≡ one_named (position (goes_by name.now) items.now)
        (length (filter (goes_by name.now) items.now)) }
{
    let count = count_named(items, name);
    match first_named(items, name) {
        Some(item) => {
            if count == 1 {
                Ok(item)
            } else {
                Err(PlanFault::Ambiguous)
            }
        }
        None => Err(PlanFault::PositionNotAllowed),
    }
}

fn item_for(items: &[Item], target: &OrderTarget) -> Result<usize, PlanFault>
    ensures { result ≡ item_meant items.now target.now }
{
    match target {
        OrderTarget::Position(position) => {
            let position = *position;
            if position == 0 || position > items.len() as u64 {
                Err(PlanFault::PositionNotAllowed)
            } else {
                Ok((position - 1) as usize)
            }
        }
        OrderTarget::Name(name) => item_named(items, name),
    }
}

fn is_descending(direction: Direction) -> bool
    ensures { result ≡ descends direction }
{
    match direction {
        Direction::Ascending => false,
        Direction::Descending => true,
    }
}

fn key_for(items: &[Item], key: &OrderKey) -> Result<plan::OrderKey, PlanFault>
    ensures { result ≡ order_key items.now key.now }
{
    match item_for(items, &key.target) {
        Ok(item) => Ok(plan::OrderKey {
            item,
            descending: is_descending(key.direction),
        }),
        Err(e) => Err(e),
    }
}

fn put_key(
    key: Result<plan::OrderKey, PlanFault>,
    out: &mut Sequence<plan::OrderKey>,
) -> Result<(), PlanFault>
    ensures { Reports (map_ok (λ _. out.new) result) (map_ok (λ i. out.old ++ i ∷ []) key) }
{
    match key {
        Ok(key) => match out.push(key) {
            Ok(()) => Ok(()),
            Err(_) => Err(PlanFault::Memory),
        },
        Err(e) => Err(e),
    }
}

/// Puts the keys of ORDER BY behind the others.
pub fn push_order(
    items: &[Item],
    keys: &[OrderKey],
    out: &mut Sequence<plan::OrderKey>,
) -> Result<(), PlanFault>
    ensures { Reports (map_ok (λ _. out.new) result)
        (map_ok (λ ks. out.old ++ ks) (ordered items.now keys.now)) }
{
    for key in keys {
        match put_key(key_for(items, key), out) {
            Ok(()) => {}
            Err(e) => return Err(e),
        }
    }
    Ok(())
}
