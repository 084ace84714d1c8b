//! The names of a query that mean nothing, or too much.
ghost use Rattle.std.specs.Prelude.{◌≡◌, ◌≤◌, ◌||◌, IfSome, false, true, length, bytes_eq, not, option_map};
ghost use Rattle.std.specs.List.{list_any};
ghost use Rattle.query_hints.specs.Places.{Stands, has_table, is_owned, may_be, meant_at};

use crate::clauses::Clause;
use crate::place::Place;
use crate::used::{Role, Used};
use meaning::Catalog;
use planner_expressions::{Scope, ScopeColumn};

fn is_owned(owner: Option<&str>, column: &ScopeColumn) -> bool
    ensures { result ≡ is_owned (option_map (λ o. o.now) owner.entry) column.now }
{
    match owner {
        Some(owner) => column.owner.as_str() == owner,
        None => true,
    }
}

/// Whether the name may be that of this column.
pub fn may_be(place: &Place<'_>, column: &ScopeColumn) -> bool
    ensures { result
        ≡ may_be (option_map (λ o. o.now) place.now.owner) place.now.name.now column.now }
{
    if column.name.as_str() != place.name {
        return false;
    }
    is_owned(place.owner, column)
}

/// How many columns of the tables of FROM the name may be.
pub fn count_meant(scope: &Scope, place: &Place<'_>) -> usize
    ensures { result
        ≡ length (meant_at scope.now (option_map (λ o. o.now) place.now.owner) place.now.name.now) }
{
    let columns = scope.columns.as_slice();
    columns
        .iter()
        .filter(|column| may_be(place, column))
        .count()
}

fn has_dimension(catalog: &Catalog, name: &str) -> bool
    ensures { result ≡ list_any (λ d. bytes_eq d.table.name name.now) catalog.now.dims }
{
    let dims = catalog.dims.as_slice();
    dims.iter().any(|d| d.table.name.as_str() == name)
}

/// Whether the catalogue has a table of this name.
pub fn has_table(catalog: &Catalog, name: &str) -> bool
    ensures { result ≡ has_table catalog.now name.now }
{
    if catalog.fact.name.as_str() == name {
        return true;
    }
    has_dimension(catalog, name)
}

/// The first column's name that no table of FROM has.
pub fn missing_column<'a>(text: &str, scope: &Scope, used: &[Used<'a>]) -> Option<Place<'a>>
    ensures stands { IfSome result (Stands text.now) }
    ensures missing { IfSome result
        (λ p. length (meant_at scope.now (option_map (λ o. o.now) p.owner) p.name.now) ≡ 0) }
{
    for name in used {
        let place = name.place;
        if name.role == Role::Column && count_meant(scope, &place) == 0 && place.stands_in(text) {
            return Some(place);
        }
    }
    None
}

/// The first column's name that several tables of FROM have.
pub fn doubtful_column<'a>(text: &str, scope: &Scope, used: &[Used<'a>]) -> Option<Place<'a>>
    ensures stands { IfSome result (Stands text.now) }
    ensures doubtful { IfSome result
        (λ p. 2 ≤ length (meant_at scope.now (option_map (λ o. o.now) p.owner) p.name.now)) }
{
    for name in used {
        let place = name.place;
        if name.role == Role::Column && count_meant(scope, &place) >= 2 && place.stands_in(text) {
            return Some(place);
        }
    }
    None
}

/// The first table's name that the catalogue doesn't have.
pub fn missing_table<'a>(text: &str, catalog: &Catalog, used: &[Used<'a>]) -> Option<Place<'a>>
    ensures stands { IfSome result (Stands text.now) }
    ensures missing { IfSome result (λ p. has_table catalog.now p.name.now ≡ false) }
{
    for name in used {
        let place = name.place;
        if name.role == Role::Table && !has_table(catalog, place.name) && place.stands_in(text) {
            return Some(place);
        }
    }
    None
}

fn is_grouped(used: &[Used<'_>], name: &str) -> bool {
    used.iter().any(|key| key.clause == Clause::GroupBy && key.place.name == name)
}

fn is_shown(used: &Used<'_>) -> bool {
    matches!(used.clause, Clause::Select | Clause::Having)
        && used.role == Role::Column
        && !used.is_aggregated
}

/// The first column's name of SELECT or HAVING that GROUP BY doesn't have and no aggregate.
pub fn ungrouped_column<'a>(text: &str, used: &[Used<'a>]) -> Option<Place<'a>>
    ensures { IfSome result (Stands text.now) }
{
    for name in used {
        let place = name.place;
        if is_shown(name) && !is_grouped(used, place.name) && place.stands_in(text) {
            return Some(place);
        }
    }
    None
}

/// The first name of ORDER BY that is none of these.
pub fn missing_item<'a>(text: &str, items: &[&str], used: &[Used<'a>]) -> Option<Place<'a>>
    ensures stands { IfSome result (Stands text.now) }
    ensures missing { IfSome result
        (λ p. list_any (λ item. bytes_eq item.now p.name.now) items.now ≡ false) }
{
    for name in used {
        let place = name.place;
        if name.role == Role::Item && !is_among(items, place.name) && place.stands_in(text) {
            return Some(place);
        }
    }
    None
}

fn is_among(items: &[&str], name: &str) -> bool
    ensures { result ≡ list_any (λ item. bytes_eq item.now name.now) items.now }
{
    items.iter().any(|item| *item == name)
}
