//! The groups of a table, packed a batch at a time.
ghost use Rattle.std.specs.Prelude.{◌≡◌, ◌≤◌, ◌++◌, length, take, IfOk};
ghost use Rattle.std.specs.Cow.{cow_slice_items};

use aggregate_states::Group;
use group_by::{GroupTable, OrderedGroups, spare_groups};
use packed_groups::PackedGroups;
use std::alloc::{AllocError, Global};
use std::borrow::CowSlice;
use std::mem::drop;

/// How many groups are made at a time: some hundred thousand bytes of them.
const BATCH: usize = 256;

/// Packs a batch of groups behind others, and then gives them up.
fn pack_batch(
    alloc: Global,
    packed: PackedGroups,
    batch: CowSlice<'_, Group>,
) -> Result<(PackedGroups, Vec<Group>), AllocError>
    ensures { IfOk result (λ x. x.0 ≡ packed ++ cow_slice_items batch.entry) }
{
    match packed.with_all(batch.as_slice()) {
        Ok(packed) => Ok((packed, spare_groups(alloc, batch))),
        Err(fault) => {
            drop(batch);
            Err(fault)
        }
    }
}

/// Packs the groups from one place up to another behind those before them.
fn pack_from(
    alloc: Global,
    groups: &OrderedGroups<'_>,
    packed: PackedGroups,
    from: usize,
    to: usize,
    spare: Vec<Group>,
) -> Result<(PackedGroups, Vec<Group>), AllocError>
    requires ordered { from ≤ to }
    requires within { to ≤ length groups.now }
    requires before { packed ≡ take from groups.now }
    ensures { IfOk result (λ x. x.0 ≡ take to groups.now) }
{
    match groups.batch(alloc, from, to, spare) {
        Ok(batch) => pack_batch(alloc, packed, batch),
        Err(fault) => {
            drop(packed);
            Err(fault)
        }
    }
}

/// Packs all groups.
fn pack_all(alloc: Global, groups: &OrderedGroups<'_>) -> Result<PackedGroups, AllocError>
    ensures { IfOk result (λ packed. packed ≡ groups.now) }
{
    let many = groups.len();
    let mut packed = PackedGroups::new(alloc);
    let mut spare = Vec::new(alloc);
    let mut from = 0;
    while from < many {
        let to = from + BATCH.min(many - from);
        (packed, spare) = pack_from(alloc, groups, packed, from, to, spare)?;
        from = to;
    }
    drop(spare);
    packed.fitted(alloc)
}

/// The table's groups in the order of their keys, packed as they are made, into no more memory than
/// their bytes take.
pub fn pack_table(alloc: Global, table: GroupTable) -> Result<PackedGroups, AllocError>
    ensures { IfOk result (λ packed. packed ≡ table.groups) }
{
    let groups = table.ordered(alloc)?;
    let packed = pack_all(alloc, &groups);
    drop(groups);
    packed
}
