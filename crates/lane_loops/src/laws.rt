//! Laws on lanes, each the contract of a function that does nothing.
ghost use Rattle.lane_loops.specs.Outcomes.{LanesAreReturned};

/// What the loops leave, with which operands are NULL, is what evaluation gives on each lane.
pub fn lanes_are_returned()
    ensures { LanesAreReturned }
{}
