//! Where a condition of a query is tested.
ghost use Rattle.std.specs.Prelude.{◌≡◌, false, true};
ghost use Rattle.pushdown.specs.Pushdown.{IsOfNoDimension};
ghost use Rattle.explain.specs.Places.{AreAhead, IsAhead, IsPlaceOf};

use meaning::Expr;
use pushdown::{dimension_of, fact_column_of};

/// Where a condition is tested.
#[derive(Clone, Copy)]
pub enum Place {
    /// On the rows of the dimension of this join, ahead of the rows of the fact.
    Dimension(usize),
    /// On the blocks of this column of the fact that have a dictionary or runs, else on rows.
    Blocks(usize),
    /// On rows alone.
    Rows,
}

/// Where a condition over so many joins is tested.
pub fn place_of(condition: &Expr, joins: usize) -> Place
    ensures { IsPlaceOf joins condition.now result }
{
    match dimension_of(condition, joins) {
        Some(join) => Place::Dimension(join),
        None => match fact_column_of(condition) {
            Some(column) => Place::Blocks(column),
            None => Place::Rows,
        },
    }
}

/// Whether a condition over so many joins is tested on no dimension.
fn is_elsewhere(condition: &Expr, joins: usize) -> bool
    ensures ahead { result ≡ false → IsAhead joins condition.now }
    ensures other { result ≡ true → IsOfNoDimension joins condition.now }
{
    match place_of(condition, joins) {
        Place::Dimension(_) => false,
        Place::Blocks(_) => true,
        Place::Rows => true,
    }
}

/// How many of the first conditions are tested on dimensions.
pub fn count_leading(conditions: &[Expr], joins: usize) -> usize
    ensures { AreAhead joins conditions.now result }
{
    for at in 0..conditions.len() {
        if is_elsewhere(&conditions[at], joins) {
            return at;
        }
    }
    conditions.len()
}
