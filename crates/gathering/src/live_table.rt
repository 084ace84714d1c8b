//! A table of groups that takes more of them, or stays as it was.
ghost use Rattle.std.specs.Prelude.{◌≡◌, IfOk, IfSome, OnErr, OnOk};
ghost use Rattle.group_by.specs.Groups.{with_groups};
ghost use Rattle.gathering.specs.Totals.{CanTake};

use crate::batches::absorb_packed;
use group_by::GroupTable;
use packed_groups::PackedGroups;
use std::alloc::{AllocError, Global};
use std::marker::Model;
use std::mem::{drop, replace};

/// A table of groups, which is all that contracts see. Merging into a table can't be undone where
/// memory runs out, so groups go into its copy first, which is then the table. Where they are few
/// beside those of the table, the table before takes them too and is the copy, so that no table is
/// copied anew. Where they are many, a copy costs less than to merge them twice, and it is made when
/// the next groups come.
#[derive(Drop)]
pub struct LiveTable {
    table: GroupTable,
    copy: Option<GroupTable>,
}

impl Model for LiveTable {
    ghost use Rattle.std.specs.Prelude.{◌≡◌, IfSome};
    ghost use Rattle.group_by.specs.Shape.{GroupsSpec};

    ghost Value = { GroupsSpec };

    ghost view = { λ t. t.table };

    ghost invariant = { λ t. IfSome t.copy (λ c. c ≡ t.table) };
}

/// How many times as many groups a table has taken as come, where its copy is kept.
const TIMES_AS_MANY: u64 = 8;

/// The table with these groups more, where they are few beside those that it took and memory is
/// there.
fn copy_with(alloc: Global, before: GroupTable, groups: &PackedGroups) -> Option<GroupTable>
    requires { CanTake before groups.now }
    ensures { IfSome result (λ copy. copy ≡ with_groups before groups.now) }
{
    if (groups.len() as u64).saturating_mul(TIMES_AS_MANY) > before.merged() {
        drop(before);
        return None;
    }
    absorb_packed(alloc, before, groups).ok()
}

impl LiveTable {
    /// The table, without a copy yet.
    pub fn of(table: GroupTable) -> LiveTable
        ensures { result ≡ table }
    {
        LiveTable { table, copy: None }
    }

    /// The table.
    pub fn table(&self) -> &GroupTable
        ensures { result.now ≡ self.now }
    {
        &self.table
    }

    /// A copy that may be given up.
    fn take_copy(&mut self, alloc: Global) -> Result<GroupTable, AllocError>
        ensures copy { IfOk result (λ t. t ≡ self.old) }
        ensures unchanged { self.new ≡ self.old }
    {
        match self.copy.take() {
            Some(copy) => Ok(copy),
            None => self.table.copy(alloc),
        }
    }

    /// Takes groups, each merged with that of its key. On an error nothing changes.
    pub fn take(&mut self, alloc: Global, groups: &PackedGroups) -> Result<(), AllocError>
        requires { CanTake self.old groups.now }
        ensures taken { OnOk result (self.new ≡ with_groups self.old groups.now) }
        ensures unchanged { OnErr result (self.new ≡ self.old) }
    {
        let copy = self.take_copy(alloc)?;
        let changed = absorb_packed(alloc, copy, groups)?;
        let before = replace(&mut self.table, changed);
        self.copy = copy_with(alloc, before, groups);
        Ok(())
    }
}
