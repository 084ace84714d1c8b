//! Integers that are keys alone, where some rows are selected.
ghost use Rattle.std.specs.Prelude.{◌≡◌, ◌<◌, length, map, slice_index_or, pos, All, IfOk, IfSome};
ghost use Rattle.meaning.specs.declared.value.Value.TheVariants.{Int, Null};
ghost use Rattle.group_keys.specs.Rows.{int_keys, rows_at, AreLanesOf};

use std::alloc::{AllocError, Global};
use vectors::{IntCells, Ints, Selection, Vector};

/// The integers at these positions.
fn gathered(alloc: Global, cells: &[i64], positions: &[u32]) -> Result<Vec<i64>, AllocError>
    requires { All (λ position. position < length cells.now) positions.now }
    ensures { IfOk result (λ ints. ints.items
        ≡ map (λ position. slice_index_or cells.now position (pos 0)) positions.now) }
{
    let mut ints = Vec::with_capacity(alloc, positions.len())?;
    for position in positions {
        ints.push(cells[*position as usize])?;
    }
    Ok(ints)
}

fn selected_cells(
    alloc: Global,
    ints: &Ints<'_>,
    selection: &Selection,
) -> Result<Option<Vec<i64>>, AllocError>
    requires { length ints.now ≡ selection.now.below }
    ensures { IfOk result (λ found. IfSome found (λ own. map Int own.items
        ≡ map (λ at. slice_index_or ints.now at Null) selection.now.list)) }
{
    let Some(positions) = selection.positions() else {
        return Ok(None);
    };
    let Some(cells) = ints.plain() else {
        return Ok(None);
    };
    Ok(Some(gathered(alloc, cells, positions)?))
}

/// The integers of one key at the selected rows, where not all are selected and none is NULL.
pub fn selected_key(
    alloc: Global,
    lanes: &[Vector<'_>],
    selection: &Selection,
) -> Result<Option<Vec<i64>>, AllocError>
    requires { AreLanesOf selection.now.below lanes.now }
    ensures { IfOk result (λ found. IfSome found (λ ints. int_keys ints.items
        ≡ rows_at lanes.now selection.now.list)) }
{
    if lanes.len() != 1 {
        return Ok(None);
    }
    let Vector::Ints(ints) = &lanes[0] else {
        return Ok(None);
    };
    let found = selected_cells(alloc, ints, selection)?;
    Ok(found)
}
