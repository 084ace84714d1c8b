//! How many rows a vector has.
ghost use Rattle.std.specs.Prelude.{◌≡◌, ◌≤◌, true};
ghost use Rattle.meaning.specs.Limits.{max_vector_rows};
ghost use Rattle.meaning.specs.VectorLength.{is_vector_length};

use crate::limits::MAX_VECTOR_ROWS;

/// Whether a vector may have so many rows: from 1 to 4,096.
pub fn is_vector_length(rows: usize) -> bool
    ensures value { result ≡ is_vector_length rows }
    ensures within { result ≡ true → (1 ≤ rows) × (rows ≤ max_vector_rows) }
{
    1 <= rows && rows <= MAX_VECTOR_ROWS
}
