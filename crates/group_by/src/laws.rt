//! Laws on groups, each a contract.
ghost use Rattle.group_by.specs.Groups.{SaysAs, TablesGrow};

use meaning::Plan;

/// The words of this crate say what the plan's own do.
pub fn says_as(plan: &Plan)
    ensures { SaysAs plan.now }
{}

/// Rows and groups may come in any order and in any pieces.
pub fn tables_grow(plan: &Plan)
    ensures { TablesGrow plan.now }
{}
