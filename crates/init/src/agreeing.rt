//! Whether a catalogue declares given tables.
ghost use Rattle.std.specs.Prelude.{◌≡◌, map};
ghost use Rattle.std.specs.Bool.{Decides};

use crate::keys::Keyed;
use meaning::{Catalog, Column, Dimension, Table};

fn is_same_column(own: &Column, other: &Column) -> bool
    ensures { Decides result (own.now ≡ other.now) }
{
    own.name == other.name && own.col_type == other.col_type && own.nullable == other.nullable
}

fn are_same_columns(own: &[Column], others: &[Column]) -> bool
    ensures { Decides result (own.now ≡ others.now) }
{
    if own.len() != others.len() {
        return false;
    }
    for index in 0..own.len() {
        if !is_same_column(&own[index], &others[index]) {
            return false;
        }
    }
    true
}

fn is_same_table(own: &Table, other: &Table) -> bool
    ensures { Decides result (own.now ≡ other.now) }
{
    own.name == other.name && are_same_columns(own.columns.as_slice(), other.columns.as_slice())
}

fn is_same_dimension(own: &Dimension, other: &Dimension) -> bool
    ensures { Decides result (own.now ≡ other.now) }
{
    own.key == other.key && is_same_table(&own.table, &other.table)
}

fn are_dimensions(own: &[Dimension], others: &[Keyed]) -> bool
    ensures { Decides result (own.now ≡ map (λ keyed. keyed.dimension) others.now) }
{
    if own.len() != others.len() {
        return false;
    }
    for index in 0..own.len() {
        if !is_same_dimension(&own[index], &others[index].dimension) {
            return false;
        }
    }
    true
}

/// Whether the catalogue has this fact and these dimensions.
pub fn has_tables(catalog: &Catalog, fact: &Table, dims: &[Keyed]) -> bool
    ensures { Decides result ((catalog.now.fact ≡ fact.now)
        × (catalog.now.dims ≡ map (λ keyed. keyed.dimension) dims.now)) }
{
    is_same_table(&catalog.fact, fact) && are_dimensions(catalog.dims.as_slice(), dims)
}
