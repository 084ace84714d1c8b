//! Vectors of integers and of a text.
ghost use Rattle.std.specs.Prelude.{◌≡◌, length, true, All, IfOk};
ghost use Rattle.aggregate_states.specs.Values.{is_spelled};
ghost use Rattle.vectors.specs.Vector.{values_of};

use std::alloc::{AllocError, Global};
use vectors::{IntCells, Ints, Nulls, TextCells, Texts, Vector};

/// What stands for NULL in a list of integers.
pub const NULL: i64 = 404;

fn cells_of(alloc: Global, list: &[i64], lanes: usize) -> Result<Vec<i64>, AllocError>
    ensures { IfOk result (λ cells. length cells.items ≡ lanes) }
{
    let mut cells = Vec::from_slice(alloc, list)?;
    cells.resize(lanes, 0)?;
    Ok(cells)
}

fn nulls_of(alloc: Global, list: &[i64]) -> Result<Vec<bool>, AllocError>
    ensures { IfOk result (λ nulls. length nulls.items ≡ length list.now) }
{
    let mut nulls = vec![in alloc; false; list.len()]?;
    for i in 0..list.len() {
        nulls[i] = list[i] == NULL;
    }
    Ok(nulls)
}

/// A vector of so many lanes with these integers; 404 is NULL.
pub fn vector_of(alloc: Global, list: &[i64], lanes: usize) -> Result<Vector<'static>, AllocError>
    ensures long { IfOk result (λ vector. length (values_of vector) ≡ lanes) }
    ensures spelled { IfOk result (λ vector. All (λ v. is_spelled v ≡ true) (values_of vector)) }
{
    let cells = cells_of(alloc, list, lanes)?;
    let nulls = nulls_of(alloc, cells.as_slice())?;
    Ok(Vector::Ints(Ints::new(IntCells::Owned(cells), Nulls::Owned(nulls))))
}

/// A vector of these integers, none of them NULL.
pub fn plain(list: &[i64]) -> Vector<'_>
    ensures long { length (values_of result) ≡ length list.now }
    ensures spelled { All (λ v. is_spelled v ≡ true) (values_of result) }
{
    Vector::Ints(Ints::new(IntCells::Lent(list), Nulls::None))
}

/// A vector of two lanes with this text.
pub fn twice(text: &str) -> Vector<'_>
    ensures long { length (values_of result) ≡ 2 }
    ensures spelled { All (λ v. is_spelled v ≡ true) (values_of result) }
{
    Vector::Texts(Texts::new(
        TextCells::Repeated {
            cell: text.as_bytes(),
            lanes: 2,
        },
        Nulls::None,
    ))
}
