//! The faults and the groups of the answers in cells: the fault of the least row, and all groups merged.
ghost use Rattle.std.specs.Prelude.{◌≡◌, length, IfOk};
ghost use Rattle.std.specs.Ordering.{ord_min};
ghost use Rattle.meaning.specs.Judge.{fault_cmp};
ghost use Rattle.meaning.specs.Order.{lesser};
ghost use Rattle.group_by.specs.Groups.{with_groups};
ghost use Rattle.gathering.specs.Faults.{fault_in, least_fault};
ghost use Rattle.gathering.specs.Merging.{AreMergeable, all_groups, groups_in, table_with};
ghost use Rattle.gathering.specs.Totals.{CanTake, IsTableWith, all_behind, behind};

use crate::batches::absorb_packed;
use crate::packing::HeldCell;
use group_by::GroupTable;
use meaning::{Body, Cell, Plan, RowFault};
use std::alloc::{AllocError, Global};

/// The fault that the answer in a cell is, if it is one.
fn fault_in(cell: &HeldCell) -> Option<RowFault>
    ensures { result ≡ fault_in cell.now }
{
    match cell {
        Cell::One(Body::Fault(fault)) => Some(*fault),
        _ => None,
    }
}

/// Of two faults the one of the lesser row.
fn first_of(one: RowFault, other: RowFault) -> RowFault
    ensures { result ≡ ord_min fault_cmp one other }
{
    let order = other.row.cmp(&one.row).then(other.code.cmp(&one.code));
    if order.is_lt() { other } else { one }
}

/// Of two faults that may be absent the one of the lesser row.
pub fn earlier(one: Option<RowFault>, other: Option<RowFault>) -> Option<RowFault>
    ensures { result ≡ lesser fault_cmp one other }
{
    match (one, other) {
        (None, other) => other,
        (one, None) => one,
        (Some(one), Some(other)) => Some(first_of(one, other)),
    }
}

/// The fault of the least row that an answer has.
pub fn least_fault(cells: &[HeldCell]) -> Option<RowFault>
    ensures { result ≡ least_fault cells.now }
{
    let mut least = None;
    let mut k = cells.len();
    while k > 0 {
        k -= 1;
        least = earlier(fault_in(&cells[k]), least);
    }
    least
}

/// The table with the groups of the answer in a cell more, if it is one.
fn merge_cell(alloc: Global, table: GroupTable, cell: &HeldCell) -> Result<GroupTable, AllocError>
    requires { CanTake table (groups_in cell.now) }
    ensures { IfOk result (λ t. t ≡ with_groups table (groups_in cell.now)) }
{
    match cell {
        Cell::One(Body::Groups(groups)) => absorb_packed(alloc, table, groups),
        _ => table.absorb_groups(alloc, &[]),
    }
}

/// The table with the groups of the answers in some cells more.
pub fn merge_cells(
    alloc: Global,
    table: GroupTable,
    cells: &[HeldCell],
) -> Result<GroupTable, AllocError>
    requires { CanTake table (all_groups cells.now) }
    ensures { IfOk result (IsTableWith table (all_groups cells.now)) }
{
    let mut table = table;
    for cell in cells {
        table = merge_cell(alloc, table, cell)?;
    }
    Ok(table)
}

/// A cell behind its delta.
fn behind<'a>(cell: &'a HeldCell, delta: &'a HeldCell) -> &'a HeldCell
    ensures { result.now ≡ behind cell.now delta.now }
{
    match delta {
        Cell::Nothing => cell,
        Cell::One(_) => delta,
        Cell::Conflict => delta,
    }
}

/// The groups of the answers in the cells behind their deltas, in one table.
pub fn merge_behind(
    alloc: Global,
    plan: &Plan,
    cells: &[HeldCell],
    deltas: &[HeldCell],
) -> Result<GroupTable, AllocError>
    requires lengths { length cells.now ≡ length deltas.now }
    requires mergeable { AreMergeable plan.now (all_groups (all_behind cells.now deltas.now)) }
    ensures { IfOk result (λ t. t
        ≡ table_with plan.now (all_groups (all_behind cells.now deltas.now))) }
{
    let mut table = GroupTable::new(alloc, plan)?;
    for k in 0..cells.len() {
        table = merge_cell(alloc, table, behind(&cells[k], &deltas[k]))?;
    }
    Ok(table)
}

/// The fault of the least row that an answer has in the cells behind their deltas.
pub fn least_behind(cells: &[HeldCell], deltas: &[HeldCell]) -> Option<RowFault>
    requires { length cells.now ≡ length deltas.now }
    ensures { result ≡ least_fault (all_behind cells.now deltas.now) }
{
    let mut least = None;
    let mut k = cells.len();
    while k > 0 {
        k -= 1;
        least = earlier(fault_in(behind(&cells[k], &deltas[k])), least);
    }
    least
}
