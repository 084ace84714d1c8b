//! The vectors of a batch.
ghost use Rattle.std.specs.Prelude.{length, IfOk};
ghost use Rattle.group_keys.specs.Rows.{AreLanesOf};

use short_vectors::vector_of;
use std::alloc::{AllocError, Global};
use vectors::Vector;

/// A vector of each of these lists.
pub fn vectors_of(
    alloc: Global,
    lists: &[&[i64]],
    lanes: usize,
) -> Result<Vec<Vector<'static>>, AllocError>
    ensures { IfOk result (λ vectors. AreLanesOf lanes vectors.items) }
{
    let mut vectors = Vec::new(alloc);
    for list in lists {
        vectors.push(vector_of(alloc, list, lanes)?)?;
    }
    Ok(vectors)
}

/// So many vectors of one list.
pub fn alike(alloc: Global, list: &[i64], many: usize) -> Result<Vec<Vector<'static>>, AllocError>
    ensures { IfOk result (λ vectors. AreLanesOf (length list.now) vectors.items) }
{
    let mut vectors = Vec::new(alloc);
    for _ in 0..many {
        vectors.push(vector_of(alloc, list, list.len())?)?;
    }
    Ok(vectors)
}
