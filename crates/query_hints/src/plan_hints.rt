//! What is wrong with the names of a query that has no plan.
use crate::caret::put_caret;
use crate::clauses::Clause;
use crate::lookup::{
    doubtful_column, may_be, missing_column, missing_item, missing_table, ungrouped_column,
};
use crate::near::{put_names, put_near};
use crate::place::Place;
use crate::typing::first_misfit;
use crate::used::{Role, Used, token_before};
use meaning::Catalog;
use planner_expressions::{Dim, Scope};
use sql_syntax::{Expr, Item, Keyword, Lexeme, Query, Sign, Token};
use std::alloc::{AllocError, Global};
use std::io;
use std::io::Write;

/// A query, the same in lower case, its tokens, and the names that it uses.
#[derive(Drop)]
pub struct Parts<'a> {
    pub query: &'a str,
    pub text: &'a str,
    pub lexemes: &'a [Lexeme<'a>],
    pub used: &'a [Used<'a>],
}

fn tables_of<'a>(alloc: Global, catalog: &'a Catalog) -> Result<Vec<&'a str>, AllocError> {
    let mut names = Vec::new(alloc);
    names.push(catalog.fact.name.as_str())?;
    for dimension in catalog.dims.as_slice() {
        names.push(dimension.table.name.as_str())?;
    }
    Ok(names)
}

/// A table that the catalogue doesn't have.
pub fn put_table<E: Write>(
    alloc: Global,
    catalog: &Catalog,
    parts: &Parts<'_>,
    err: &mut E,
) -> io::Result<()> {
    let Some(place) = missing_table(parts.text, catalog, parts.used) else {
        return Ok(());
    };
    put_caret(parts.query, place.offset, err)?;
    write!(err, "the catalogue has no table `{}`", place.name)?;
    match tables_of(alloc, catalog) {
        Ok(names) => put_near(alloc, place.name, names.as_slice(), err),
        Err(_) => err.write_all(b"\n"),
    }
}

fn columns_of<'a>(
    alloc: Global,
    scope: &'a Scope,
    owner: Option<&str>,
) -> Result<Vec<&'a str>, AllocError> {
    let mut names = Vec::new(alloc);
    for column in scope.columns.as_slice() {
        if owner.is_none() || owner == Some(column.owner.as_str()) {
            names.push(column.name.as_str())?;
        }
    }
    Ok(names)
}

/// A column that no table of FROM has.
pub fn put_column<E: Write>(
    alloc: Global,
    scope: &Scope,
    parts: &Parts<'_>,
    err: &mut E,
) -> io::Result<()> {
    let Some(place) = missing_column(parts.text, scope, parts.used) else {
        return Ok(());
    };
    put_caret(parts.query, place.offset, err)?;
    match place.owner {
        Some(owner) => write!(err, "`{owner}` has no column `{}`", place.name)?,
        None => write!(err, "no table of FROM has a column `{}`", place.name)?,
    }
    match columns_of(alloc, scope, place.owner) {
        Ok(names) => put_near(alloc, place.name, names.as_slice(), err),
        Err(_) => err.write_all(b"\n"),
    }
}

/// A column that several tables of FROM have.
pub fn put_doubt<E: Write>(scope: &Scope, parts: &Parts<'_>, err: &mut E) -> io::Result<()> {
    let Some(place) = doubtful_column(parts.text, scope, parts.used) else {
        return Ok(());
    };
    put_caret(parts.query, place.offset, err)?;
    write!(err, "several tables have a column `{}`: write ", place.name)?;
    put_owned(scope, &place, err)
}

fn put_owned<E: Write>(scope: &Scope, place: &Place<'_>, err: &mut E) -> io::Result<()> {
    let mut or = "";
    for column in scope.columns.as_slice() {
        if may_be(place, column) {
            write!(
                err,
                "{or}`{}.{}`",
                column.owner.as_str(),
                column.name.as_str()
            )?;
            or = " or ";
        }
    }
    err.write_all(b"\n")
}

/// A column whose type doesn't fit.
pub fn put_misfit<E: Write>(scope: &Scope, parts: &Parts<'_>, err: &mut E) -> io::Result<()> {
    let Some(misfit) = first_misfit(parts.text, scope, parts.used, parts.lexemes) else {
        return Ok(());
    };
    put_caret(parts.query, misfit.place.offset, err)?;
    writeln!(err, "`{}` {}", misfit.place.name, misfit.why)
}

/// A column that is neither grouped nor in an aggregate.
pub fn put_ungrouped<E: Write>(parts: &Parts<'_>, err: &mut E) -> io::Result<()> {
    let Some(place) = ungrouped_column(parts.text, parts.used) else {
        return Ok(());
    };
    put_caret(parts.query, place.offset, err)?;
    writeln!(
        err,
        "`{}` is neither in GROUP BY nor in an aggregate",
        place.name
    )
}

// The name of the key of a dimension of FROM.
fn key_of<'a>(scope: &'a Scope, join: usize) -> Option<&'a str> {
    let columns = scope.columns.as_slice();
    let column = columns
        .iter()
        .find(|column| column.is_key && column.join == Some(join))?;
    Some(column.name.as_str())
}

fn is_equal(token: Option<Token<'_>>) -> bool {
    matches!(token, Some(Token::Sign(Sign::Equal)))
}

fn is_key_of(name: &Used<'_>, dim: &Dim, key: &str) -> bool {
    if name.role != Role::Column || name.place.name != key {
        return false;
    }
    match name.place.owner {
        Some(owner) => owner == dim.called.as_str(),
        None => true,
    }
}

// Whether the key is beside an equals sign.
fn is_joined(parts: &Parts<'_>, dim: &Dim, key: &str) -> bool {
    parts.used.iter().any(|name| {
        is_key_of(name, dim, key)
            && (is_equal(name.before(parts.lexemes, 1)) || is_equal(name.behind(parts.lexemes, 1)))
    })
}

fn put_key<E: Write>(dim: &Dim, key: &str, err: &mut E) -> io::Result<()> {
    let (called, name) = (dim.called.as_str(), dim.name.as_str());
    writeln!(
        err,
        "the key of {name} is {key}: join it by `.. = {called}.{key}`, with a column of the fact"
    )
}

/// Dimensions whose key is in no equality.
pub fn put_keys<E: Write>(scope: &Scope, parts: &Parts<'_>, err: &mut E) -> io::Result<()> {
    for (join, dim) in scope.dims.as_slice().iter().enumerate() {
        let Some(key) = key_of(scope, join) else {
            continue;
        };
        if !is_joined(parts, dim, key) {
            put_key(dim, key, err)?;
        }
    }
    Ok(())
}

// The name of an item's column in the result, where it has one.
fn header_of(item: &Item) -> Option<&str> {
    match (&item.alias, &item.expr) {
        (Some(alias), _) => Some(alias.as_str()),
        (None, Expr::Column { name, .. }) => Some(name.as_str()),
        _ => None,
    }
}

fn headers_of<'a>(alloc: Global, tree: &'a Query) -> Result<Vec<&'a str>, AllocError> {
    tree.items
        .as_slice()
        .iter()
        .filter_map(header_of)
        .collect(alloc)
}

// The offset of the first position that GROUP BY or ORDER BY names.
fn position_in(parts: &Parts<'_>) -> Option<usize> {
    let mut standing = crate::clauses::Standing::START;
    for (at, lexeme) in parts.lexemes.iter().enumerate() {
        standing = standing.after(lexeme.token);
        if is_position(parts.lexemes, at, standing.clause) {
            return Some(lexeme.offset);
        }
    }
    None
}

fn is_position(lexemes: &[Lexeme<'_>], at: usize, clause: Clause) -> bool {
    let begins = matches!(
        token_before(lexemes, at, 1),
        Some(Token::Keyword(Keyword::By)) | Some(Token::Sign(Sign::Comma))
    );
    let is_number = matches!(token_before(lexemes, at, 0), Some(Token::Integer(_)));
    begins && is_number && matches!(clause, Clause::GroupBy | Clause::OrderBy)
}

/// A name or a position of ORDER BY or GROUP BY that is no item's.
pub fn put_item<E: Write>(
    alloc: Global,
    tree: &Query,
    parts: &Parts<'_>,
    err: &mut E,
) -> io::Result<()> {
    let Ok(items) = headers_of(alloc, tree) else {
        return Ok(());
    };
    let Some(place) = missing_item(parts.text, items.as_slice(), parts.used) else {
        return put_position(tree, parts, err);
    };
    put_caret(parts.query, place.offset, err)?;
    write!(
        err,
        "no item has the name `{}`; the items with a name: ",
        place.name
    )?;
    put_names(items.as_slice(), err)?;
    err.write_all(b"\n")
}

fn put_position<E: Write>(tree: &Query, parts: &Parts<'_>, err: &mut E) -> io::Result<()> {
    let Some(offset) = position_in(parts) else {
        return Ok(());
    };
    put_caret(parts.query, offset, err)?;
    let items = tree.items.len();
    writeln!(
        err,
        "GROUP BY takes no position, and ORDER BY one of the {items} items, from 1"
    )
}
