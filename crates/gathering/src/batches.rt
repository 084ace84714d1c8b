//! Packed groups, taken by a table a batch at a time.
ghost use Rattle.std.specs.Prelude.{◌≡◌, take, drop, IfOk, OnOk};
ghost use Rattle.group_by.specs.Groups.{with_groups};
ghost use Rattle.gathering.specs.Totals.{CanTake};

use aggregate_states::Group;
use group_by::GroupTable;
use packed_groups::{PackedGroups, Unpacking};
use std::alloc::{AllocError, Global};
use std::mem::drop;

/// How many groups are unpacked at a time. An unpacked group takes some 400 bytes, and so a batch
/// some 100 kB, whatever the number of groups in an answer; and what each batch costs by itself is
/// little beside the merging of so many groups.
const BATCH_GROUPS: usize = 256;

/// The table with the next batch of groups more, and the batch, which is given up. It is made in the
/// buffers of groups that are given up.
fn absorb_batch(
    alloc: Global,
    table: GroupTable,
    rest: &mut Unpacking<'_>,
    spare: Vec<Group>,
) -> Result<(GroupTable, Vec<Group>), AllocError>
    requires { CanTake table rest.old }
    ensures taken { IfOk result (λ x. x.0 ≡ with_groups table (take BATCH_GROUPS rest.old)) }
    ensures left { OnOk result (rest.new ≡ drop BATCH_GROUPS rest.old) }
{
    match rest.take(alloc, BATCH_GROUPS, spare) {
        Ok(batch) => match table.absorb_groups(alloc, batch.as_slice()) {
            Ok(taken) => Ok((taken, batch)),
            Err(fault) => {
                drop(batch);
                Err(fault)
            }
        },
        Err(fault) => {
            drop(table);
            Err(fault)
        }
    }
}

/// The table with these groups more. No more than a batch of them is unpacked at any time.
pub fn absorb_packed(
    alloc: Global,
    table: GroupTable,
    groups: &PackedGroups,
) -> Result<GroupTable, AllocError>
    requires { CanTake table groups.now }
    ensures { IfOk result (λ t. t ≡ with_groups table groups.now) }
{
    let mut rest = groups.batches();
    let (mut taken, mut spare) = absorb_batch(alloc, table, &mut rest, Vec::new(alloc))?;
    while rest.len() > 0 {
        (taken, spare) = absorb_batch(alloc, taken, &mut rest, spare)?;
    }
    drop(spare);
    Ok(taken)
}
