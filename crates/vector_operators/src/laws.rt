//! Laws on evaluation, each the contract of a function that does nothing.
ghost use Rattle.vector_operators.specs.Laws.{LeastIsHeld};

/// What evaluations in turn hold is the fault of the least selected position that has one.
pub fn least_is_held()
    ensures { LeastIsHeld }
{}
