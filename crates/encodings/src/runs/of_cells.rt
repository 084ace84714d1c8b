//! The longest runs of equal cells.
ghost use Rattle.std.specs.Prelude.{◌≡◌, ◌≤◌, ◌<◌, ◌-◌, ◌++◌, ◌∷◌, [], length, map, take, drop, slice_index_or, ◌+◌, IfOk, OnOk};
ghost use Rattle.meaning.specs.Limits.{row_group_rows};
ghost use Rattle.meaning.specs.declared.value.Value.TheVariants.{Null, Int, Text};
ghost use Rattle.meaning.specs.Order.{same_value};
ghost use Rattle.blocks.specs.Runs.{AreRuns};

use columns::TextList;
use std::alloc::{AllocError, Global};

/// Where each run begins, and how many rows it has.
#[derive(Drop)]
pub struct Runs {
    pub starts: Vec<usize>,
    pub lengths: Vec<u16>,
}

impl Runs {
    fn put(&mut self, start: usize, end: usize) -> Result<(), AllocError>
        requires ordered { start < end }
        requires few { end ≤ row_group_rows }
        ensures starts { OnOk result (self.new.starts.items ≡ self.old.starts.items ++ start ∷ []) }
        ensures lengths { OnOk result (self.new.lengths.items ≡ self.old.lengths.items
            ++ (end - start) ∷ []) }
    {
        self.starts.push(start)?;
        self.lengths.push((end - start) as u16)?;
        Ok(())
    }
}

/// Whether two rows have the same integer.
pub fn is_same_int(ints: &[i64], row: usize, other: usize) -> bool
    requires row { row < length ints.now }
    requires other { other < length ints.now }
    ensures { result ≡ same_value (slice_index_or (map Int ints.now) row Null)
        (slice_index_or (map Int ints.now) other Null) }
{
    ints[row] == ints[other]
}

/// Whether two rows have the same text.
pub fn is_same_text(texts: &TextList, row: usize, other: usize) -> bool
    requires row { row < length texts.now }
    requires other { other < length texts.now }
    ensures { result ≡ same_value (Text (slice_index_or texts.now row []))
        (Text (slice_index_or texts.now other [])) }
{
    texts.get(row) == texts.get(other)
}

pub fn runs_of_ints(alloc: Global, ints: &[i64]) -> Result<Runs, AllocError>
    requires some { 1 ≤ length ints.now }
    requires few { length ints.now ≤ row_group_rows }
    ensures { IfOk result (λ r. AreRuns (map Int ints.now) r.starts.items r.lengths.items) }
{
    let mut runs = Runs {
        starts: Vec::new(alloc),
        lengths: Vec::new(alloc),
    };
    let mut start = 0;
    for row in 1..ints.len() {
        if !is_same_int(ints, row, start) {
            runs.put(start, row)?;
            start = row;
        }
    }
    runs.put(start, ints.len())?;
    Ok(runs)
}

pub fn runs_of_texts(
    alloc: Global,
    texts: &TextList,
    from: usize,
    to: usize,
) -> Result<Runs, AllocError>
    requires some { from < to }
    requires within { to ≤ length texts.now }
    requires few { to - from ≤ row_group_rows }
    ensures { IfOk result (λ r. AreRuns (map Text (take (to - from) (drop from texts.now)))
        r.starts.items r.lengths.items) }
{
    let mut runs = Runs {
        starts: Vec::new(alloc),
        lengths: Vec::new(alloc),
    };
    let mut start = 0;
    for row in 1..to - from {
        if !is_same_text(texts, from + row, from + start) {
            runs.put(start, row)?;
            start = row;
        }
    }
    runs.put(start, to - from)?;
    Ok(runs)
}
