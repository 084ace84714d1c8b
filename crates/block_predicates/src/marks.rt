//! What a condition is of the entries of a block.
ghost use Rattle.std.specs.Prelude.{◌≡◌, ◌<◌, ◌≤◌, ℕ, true, false, length, map, get_or, IfOk, IfSome, IsNone};
ghost use Rattle.std.specs.List.{list_all};
ghost use Rattle.meaning.specs.Limits.{row_group_rows};
ghost use Rattle.meaning.specs.declared.outcome.Outcome.TheVariants as gives;
ghost use Rattle.meaning.specs.Typing.{RowTypes, is_of_type};
ghost use Rattle.pushdown.specs.FactColumn.{StandsOn};
ghost use Rattle.block_predicates.specs.Entries.{AreEntriesOf, AreFound, entries_in, has_entries, lane_count, lanes_of, rows_in, rows_long};
ghost use Rattle.block_predicates.specs.Marks.{AreMarksFor, AreMarksOf, IsTypedOn};
ghost use Rattle.vectors.specs.Vector.{HasLanesOf, outcomes_of};

use crate::entries::{Entries, entries_of};
use crate::evaluating::marks_of;
use crate::lanes::entry_lanes;
use crate::spreading::{is_marked, spread};
use blocks::BlockView;
use meaning::Expr;
use pushdown::fact_column_of;
use std::alloc::{AllocError, Global};
use std::mem::drop;
use vectors::Vector;

/// What a condition on one column of the fact is of the entries of a block of that column. It is
/// made once for a block, and lends nothing from it.
#[derive(Drop)]
pub struct EntryMarks {
    pub(crate) column: usize,
    pub(crate) count: usize,
    // Whether the condition is TRUE of NULL.
    pub(crate) null: bool,
    // The same of each entry of a dictionary, or of the value of each row among runs.
    pub(crate) marks: Vec<bool>,
}

/// That these are bytes. No effect at run time.
fn are_bytes(bytes: &[u8])
    ensures { (i : ℕ) → get_or bytes.now i 0 < 256 }
{}

/// The entries of a block as so many lanes, NULL behind the last.
fn block_lanes<'a>(
    alloc: Global,
    block: &BlockView<'a>,
    entries: &Entries<'a>,
    count: usize,
) -> Result<Vector<'a>, AllocError>
    requires { AreEntriesOf block.now entries.now }
    ensures fits { list_all (is_of_type block.now.col_type) (lanes_of (entries_in block.now) count)
        ≡ true }
    ensures values { IfOk result (λ v. outcomes_of v
        ≡ map gives.Value (lanes_of (entries_in block.now) count)) }
    ensures typed { IfOk result (HasLanesOf block.now.col_type) }
{
    // No effect at run time. The proof reads from these calls that this is a block, of bytes.
    let _rows = block.len();
    are_bytes(block.payload());
    entry_lanes(alloc, block.col_type(), entries, count)
}

/// How many lanes are evaluated: the entries, and NULL behind them where the column is nullable.
fn count_lanes(block: &BlockView<'_>, entries: &Entries<'_>) -> usize
    requires { AreEntriesOf block.now entries.now }
    ensures value { result ≡ lane_count block.now }
    ensures few { result ≤ 8193 }
{
    // No effect at run time. The proof reads from this call that this is a block.
    let _rows = block.len();
    if block.nullable() {
        return entries.len() + 1;
    }
    entries.len()
}

/// Of each lane of a block whether a condition on its column is TRUE.
fn lane_marks(
    alloc: Global,
    condition: &Expr,
    column: usize,
    block: &BlockView<'_>,
    entries: &Entries<'_>,
    count: usize,
) -> Result<Vec<bool>, AllocError>
    requires entries { AreEntriesOf block.now entries.now }
    requires few { count ≤ 8193 }
    requires stands { StandsOn column condition.now }
    ensures long { IfOk result (λ marks. length marks.items ≡ count) }
    ensures marked { IfOk result (λ marks. (types : RowTypes)
        → IsTypedOn types condition.now column block.now
        → AreMarksOf condition.now column (entries_in block.now) marks.items count) }
{
    let lanes = block_lanes(alloc, block, entries, count)?;
    marks_of(alloc, condition, column, lanes, count)
}

/// Marks of lanes, as a dictionary's codes or the rows among runs find them.
fn found_marks(
    alloc: Global,
    entries: &Entries<'_>,
    marks: Vec<bool>,
) -> Result<Vec<bool>, AllocError>
    requires few { rows_in entries.now ≤ row_group_rows }
    requires long { rows_long entries.now (length marks.items) }
    ensures { IfOk result (λ found. AreFound entries.now marks.items found.items) }
{
    match entries {
        Entries::Dictionary(_) => Ok(marks),
        Entries::Runs(runs) => {
            let rows = spread(alloc, runs, marks.as_slice());
            drop(marks);
            rows
        }
    }
}

impl EntryMarks {
    fn of_entries(
        alloc: Global,
        condition: &Expr,
        column: usize,
        block: &BlockView<'_>,
        entries: &Entries<'_>,
    ) -> Result<EntryMarks, AllocError>
        requires entries { AreEntriesOf block.now entries.now }
        requires stands { StandsOn column condition.now }
        ensures { IfOk result (AreMarksFor condition.now block.now) }
    {
        // No effect at run time. The proof reads from this call that this is a block.
        let _rows = block.len();
        let count = count_lanes(block, entries);
        let marks = lane_marks(alloc, condition, column, block, entries, count)?;
        let null = is_marked(marks.as_slice(), entries.len());
        let marks = found_marks(alloc, entries, marks)?;
        Ok(EntryMarks {
            column,
            count,
            null,
            marks,
        })
    }

    /// Evaluates a condition once on the entries of a block, where it stands on the block: it names
    /// one column of the fact and nothing else, has no arithmetic, and the block is a dictionary or
    /// runs. The block has to be one of that column.
    pub fn new(
        alloc: Global,
        condition: &Expr,
        block: &BlockView<'_>,
    ) -> Result<Option<EntryMarks>, AllocError>
        ensures some { IfOk result (λ found. IfSome found (AreMarksFor condition.now block.now)) }
        ensures none { IfOk result (λ found. IsNone found → (column : ℕ)
            → StandsOn column condition.now → has_entries block.now.kind ≡ false) }
    {
        let Some(column) = fact_column_of(condition) else {
            return Ok(None);
        };
        let Some(entries) = entries_of(block) else {
            return Ok(None);
        };
        let marks = EntryMarks::of_entries(alloc, condition, column, block, &entries)?;
        Ok(Some(marks))
    }

    /// How many lanes a condition on a block is evaluated on; `None` where the block has no entries.
    pub fn lanes(block: &BlockView<'_>) -> Option<usize>
        ensures some { IfSome result (λ lanes. lanes ≡ lane_count block.now) }
        ensures entries { IfSome result (λ lanes. has_entries block.now.kind ≡ true) }
        ensures none { IsNone result → has_entries block.now.kind ≡ false }
    {
        let entries = entries_of(block)?;
        Some(count_lanes(block, &entries))
    }

    /// The column of the fact that the condition is on, by its number.
    pub fn column(&self) -> usize
        ensures { result ≡ self.now.column }
    {
        self.column
    }

    /// How many lanes were evaluated: the entries of the dictionary or the runs, one more where the
    /// column is nullable.
    pub fn count(&self) -> usize
        ensures { result ≡ self.now.count }
    {
        self.count
    }
}
