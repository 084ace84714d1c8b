//! Laws of coordinators side by side, each the contract of an empty function: a theorem on the
//! definitions.
ghost use Rattle.gathering.specs.Laws.{AnswersDecide, StatesJoin};

/// The same answers, in any order and however often, make equal states, equal bytes and equal
/// prints.
pub fn answers_decide()
    ensures { AnswersDecide }
{}

/// States may be joined in any order, in any tree, and again.
pub fn states_join()
    ensures { StatesJoin }
{}
