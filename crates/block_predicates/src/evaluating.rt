//! A condition over lanes of one column of the fact.
ghost use Rattle.std.specs.Prelude.{◌≡◌, ◌<◌, ◌^◌, true, List, Some, length, map, slice_get, IfOk};
ghost use Rattle.std.specs.List.{list_all};
ghost use Rattle.meaning.specs.declared.outcome.Outcome.TheVariants as gives;
ghost use Rattle.meaning.specs.declared.value.ColType.{ColType};
ghost use Rattle.meaning.specs.declared.value.Value.{Value};
ghost use Rattle.meaning.specs.Typing.{Boolean, RowTypes, has_type, is_of_type};
ghost use Rattle.pushdown.specs.FactColumn.{StandsOn};
ghost use Rattle.vectors.specs.Vector.{HasLanesOf, outcomes_of};
ghost use Rattle.block_predicates.specs.Marks.{AreMarksOf, one_column};

use meaning::Expr;
use primitives::{Fault1, keep_where};
use std::alloc::{AllocError, Global};
use vectors::{Batch, BatchColumn, ColumnReference, Selection, Vector};

/// A batch of one column of the fact.
fn batch_of(
    alloc: Global,
    column: usize,
    lanes: Vector<'_>,
    count: usize,
) -> Result<Batch<'_>, AllocError>
    requires { length (outcomes_of lanes) ≡ count }
    ensures { IfOk result (λ batch. batch ≡ one_column column count lanes.entry) }
{
    let mut batch = Batch::new(alloc, count);
    let reference = ColumnReference::Fact { column };
    batch.push(BatchColumn { reference, lanes })?;
    Ok(batch)
}

/// Of each lane whether a condition on the column is TRUE of it. The lanes are evaluated together,
/// as one batch.
pub fn marks_of(
    alloc: Global,
    condition: &Expr,
    column: usize,
    lanes: Vector<'_>,
    count: usize,
) -> Result<Vec<bool>, AllocError>
    requires long { length (outcomes_of lanes) ≡ count }
    requires few { count < 2 ^ 32 }
    ensures long { IfOk result (λ marks. length marks.items ≡ count) }
    ensures marked { IfOk result (λ marks. (types : RowTypes) (type : ColType) (vs : List Value)
        → outcomes_of lanes.entry ≡ map gives.Value vs → HasLanesOf type lanes.entry
        → list_all (is_of_type type) vs ≡ true → StandsOn column condition.now
        → slice_get types.fact column ≡ Some type → has_type types condition.now Boolean ≡ true
        → AreMarksOf condition.now column vs marks.items count) }
{
    let batch = batch_of(alloc, column, lanes, count)?;
    let mut selection = Selection::all(alloc, count as u32)?;
    let mut fault = Fault1::new();
    keep_where(alloc, condition, &batch, &mut selection, &mut fault)?;
    selection.mask(alloc)
}
