//! Which column a name refers to.
ghost use Rattle.std.specs.Prelude.{◌≡◌, length, find, filter, option_copied};
ghost use Rattle.planner_expressions.specs.Results.{map_ok};
ghost use Rattle.planner_expressions.specs.Scope.{is_meant as meant_by, meant, one_of};
ghost use Rattle.planner_expressions.specs.Judged.{name_sort};

use crate::fault::PlanFault;
use crate::scope::{Scope, ScopeColumn};
use crate::sort::Sort;
use meaning::Text;

/// The column has the name, and its table goes by the name that is written before it.
pub fn is_meant(column: &ScopeColumn, table: &Option<Text>, name: &Text) -> bool
    ensures { result ≡ meant_by table.now name.now column.now }
{
    if column.name.as_str() != name.as_str() {
        return false;
    }
    match table {
        Some(table) => column.owner.as_str() == table.as_str(),
        None => true,
    }
}

fn count_meant(scope: &Scope, table: &Option<Text>, name: &Text) -> usize
    ensures { result ≡ length (meant scope.now table.now name.now) }
{
    let columns = scope.columns.as_slice();
    columns
        .iter()
        .filter(|column| is_meant(column, table, name))
        .count()
}

fn first_meant<'a>(scope: &'a Scope, table: &Option<Text>, name: &Text) -> Option<&'a ScopeColumn>
    ensures { option_copied result ≡ find (meant_by table.now name.now) scope.now.columns }
{
    let columns = scope.columns.as_slice();
    columns.iter().find(|column| is_meant(column, table, name))
}

/// The one column that a name refers to.
pub fn look_up<'a>(
    scope: &'a Scope,
    table: &Option<Text>,
    name: &Text,
) -> Result<&'a ScopeColumn, PlanFault>
    ensures { map_ok (λ p. p.now) result ≡ one_of (meant scope.now table.now name.now) }
{
    let count = count_meant(scope, table, name);
    match first_meant(scope, table, name) {
        None => Err(PlanFault::ColumnUnknown),
        Some(column) => {
            if count == 1 {
                Ok(column)
            } else {
                Err(PlanFault::Ambiguous)
            }
        }
    }
}

/// The sort of the column that a name refers to.
pub fn sort_of_name(scope: &Scope, table: &Option<Text>, name: &Text) -> Result<Sort, PlanFault>
    ensures { result ≡ name_sort scope.now table.now name.now }
{
    match look_up(scope, table, name) {
        Ok(column) => Ok(Sort::of_type(column.col_type)),
        Err(e) => Err(e),
    }
}
