//! Laws on scans and conditions, each the contract of a function that does nothing.
ghost use Rattle.scan_select.specs.Laws.{BatchesAreRows, BatchesAreTyped, ConditionsJudge};

/// The rows of all batches, one after the other, are the rows of all row groups.
pub fn batches_are_rows()
    ensures { BatchesAreRows }
{}

/// A batch of a file whose columns have values of their types fits these types, as evaluation asks.
pub fn batches_are_typed()
    ensures { BatchesAreTyped }
{}

/// Conditions keep a row, drop it or fault as they do when the row is judged.
pub fn conditions_judge()
    ensures { ConditionsJudge }
{}
