//! What rows come to.

use group_by::GroupTable;
use meaning::RowFault;

/// What the rows that were gone through come to: the groups of those that were kept, or the fault
/// of the least row.
#[derive(Drop)]
pub enum Progress {
    Groups(GroupTable),
    Fault(RowFault),
}
