//! What the answers in the cells say together, kept while they come.
ghost use Rattle.std.specs.Prelude.{◌≡◌, ◌+◌, ◌<◌, length, IfOk, OnErr, OnOk, None};
ghost use Rattle.std.specs.List.{list_any};
ghost use Rattle.meaning.specs.declared.answer.Cell.TheVariants.{One};
ghost use Rattle.meaning.specs.Answer.{groups_of};
ghost use Rattle.meaning.specs.Gather.{is_conflict};
ghost use Rattle.group_by.specs.Groups.{fresh};
ghost use Rattle.group_by.specs.Shape.{shape_of};
ghost use Rattle.gathering.specs.Faults.{fault_in, least_fault};
ghost use Rattle.gathering.specs.Merging.{AreMergeable, all_groups};
ghost use Rattle.gathering.specs.Totals.{AreDeltas, AreTotalsOf, AreTotalsWith, CanTake, all_behind, handed_at_join, merges_of};

use crate::combining::{earlier, least_behind, least_fault, merge_behind, merge_cells};
use crate::live_table::LiveTable;
use crate::packing::{HeldBody, HeldCell};
use group_by::GroupTable;
use meaning::{Body, Cell, Plan, RowFault};
use packed_groups::PackedGroups;
use std::alloc::{AllocError, Global};

/// The groups of the answers, merged, and the least of their faults.
#[derive(Drop)]
pub struct Totals {
    pub table: LiveTable,
    pub least: Option<RowFault>,
    // How many groups were handed to the tables before this one.
    pub earlier: u64,
}

impl Totals {
    /// Those of no answer.
    pub fn none(alloc: Global, plan: &Plan) -> Result<Totals, AllocError>
        ensures { IfOk result (λ t. (t.table ≡ fresh (shape_of plan.now)) × (t.least ≡ None)
            × (t.earlier ≡ 0)) }
    {
        let table = GroupTable::new(alloc, plan)?;
        Ok(Totals {
            table: LiveTable::of(table),
            least: None,
            earlier: 0,
        })
    }

    /// How many groups were handed to the tables.
    pub fn merges(&self) -> u64
        requires { merges_of self.now < 18446744073709551616 }
        ensures { result ≡ merges_of self.now }
    {
        self.earlier + self.table.table().merged()
    }

    /// Takes groups.
    fn add_groups(&mut self, alloc: Global, groups: &PackedGroups) -> Result<(), AllocError>
        requires { CanTake self.old.table groups.now }
        ensures added { OnOk result (AreTotalsWith self.old groups.now None self.new) }
        ensures unchanged { OnErr result (self.new ≡ self.old) }
    {
        self.table.take(alloc, groups)?;
        Ok(())
    }

    /// Takes an answer. On an error nothing changes.
    pub fn add(&mut self, alloc: Global, body: &HeldBody) -> Result<(), AllocError>
        requires { CanTake self.old.table (groups_of body.now) }
        ensures added { OnOk result
            (AreTotalsWith self.old (groups_of body.now) (fault_in (One body.now)) self.new) }
        ensures unchanged { OnErr result (self.new ≡ self.old) }
    {
        match body {
            Body::Groups(groups) => self.add_groups(alloc, groups),
            Body::Fault(fault) => {
                self.least = earlier(self.least, Some(*fault));
                Ok(())
            }
        }
    }

    /// Those with the answers in some cells more, in a table of their own.
    pub fn with_cells(&self, alloc: Global, cells: &[HeldCell]) -> Result<Totals, AllocError>
        requires { CanTake self.now.table (all_groups cells.now) }
        ensures { IfOk result
            (AreTotalsWith self.now (all_groups cells.now) (least_fault cells.now)) }
    {
        let table = self.table.table().copy(alloc)?;
        let table = merge_cells(alloc, table, cells)?;
        Ok(Totals {
            table: LiveTable::of(table),
            least: earlier(self.least, least_fault(cells)),
            earlier: self.earlier,
        })
    }

    /// Those of the cells behind their deltas, in a table made anew.
    fn anew(
        alloc: Global,
        plan: &Plan,
        cells: &[HeldCell],
        deltas: &[HeldCell],
        earlier: u64,
    ) -> Result<Totals, AllocError>
        requires lengths { length cells.now ≡ length deltas.now }
        requires mergeable { AreMergeable plan.now (all_groups (all_behind cells.now deltas.now)) }
        ensures totals { IfOk result (AreTotalsOf plan.now (all_behind cells.now deltas.now)) }
        ensures merges { IfOk result (λ t. merges_of t
            ≡ earlier + length (all_groups (all_behind cells.now deltas.now))) }
    {
        let table = merge_behind(alloc, plan, cells, deltas)?;
        Ok(Totals {
            table: LiveTable::of(table),
            least: least_behind(cells, deltas),
            earlier,
        })
    }

    /// Those of the cells behind their deltas: of the table and the deltas, or, where a delta is a
    /// conflict, of the answers that are kept.
    pub fn with_deltas(
        &self,
        alloc: Global,
        plan: &Plan,
        cells: &[HeldCell],
        deltas: &[HeldCell],
    ) -> Result<Totals, AllocError>
        requires totals { AreTotalsOf plan.now cells.now self.now }
        requires deltas { AreDeltas cells.now deltas.now }
        requires mergeable { AreMergeable plan.now (all_groups (all_behind cells.now deltas.now)) }
        requires handed { merges_of self.now
            + length (all_groups (all_behind cells.now deltas.now)) < 9223372036854775808 }
        ensures totals { IfOk result (AreTotalsOf plan.now (all_behind cells.now deltas.now)) }
        ensures merges { IfOk result (λ t. merges_of t
            ≡ merges_of self.now + handed_at_join cells.now deltas.now) }
    {
        if has_conflict(deltas) {
            Totals::anew(alloc, plan, cells, deltas, self.merges())
        } else {
            self.with_cells(alloc, deltas)
        }
    }
}

/// Whether one of these is a conflict.
fn has_conflict(cells: &[HeldCell]) -> bool
    ensures { result ≡ list_any is_conflict cells.now }
{
    cells.iter().any(|cell| is_conflict(cell))
}

fn is_conflict(cell: &HeldCell) -> bool
    ensures { result ≡ is_conflict cell.now }
{
    match cell {
        Cell::Nothing => false,
        Cell::One(_) => false,
        Cell::Conflict => true,
    }
}

/// The totals of the answers in the cells.
pub fn totals_of(alloc: Global, plan: &Plan, cells: &[HeldCell]) -> Result<Totals, AllocError>
    requires { AreMergeable plan.now (all_groups cells.now) }
    ensures totals { IfOk result (AreTotalsOf plan.now cells.now) }
    ensures merges { IfOk result (λ t. merges_of t ≡ length (all_groups cells.now)) }
{
    let none = Totals::none(alloc, plan)?;
    none.with_cells(alloc, cells)
}
