//! Theorems on the definitions: each is the contract of a function that does nothing.
ghost use Rattle.planner.specs.DeclaredPlans.{PlansAreDeclared};
ghost use Rattle.planner.specs.Forms.{FormsAgree, CommaIsJoin};
ghost use Rattle.planner.specs.Limited.{PlansAreLimited};
ghost use Rattle.planner.specs.PlanOf.{PlansMean, PlansAgree};
ghost use Rattle.planner.specs.Typed.{PlansAreTyped, PlansServe, GroupsAreTyped};
ghost use Rattle.planner.specs.Sound.{PlansAreSound};

/// The plan that is defined is the query's.
pub fn plans_mean()
    ensures { PlansMean }
{}

/// Whatever is a query's plan means the same over all tables.
pub fn plans_agree()
    ensures { PlansAgree }
{}

/// The plan of a query whose literals fit is typed over the catalogue's tables.
pub fn plans_are_typed()
    ensures { PlansAreTyped }
{}

/// Over tables that load, the plan of a query whose literals fit is typed on each fragment.
pub fn plans_serve()
    ensures { PlansServe }
{}

/// The plan of a query that shows something, whose literals fit and whose text is short is sound.
pub fn plans_are_sound()
    ensures { PlansAreSound }
{}

/// Queries that differ at most in which conditions stand behind ON have one plan but for its text,
/// or one fault.
pub fn forms_agree()
    ensures { FormsAgree }
{}

/// A comma with its condition behind WHERE asks what JOIN with ON asks.
pub fn comma_is_join()
    ensures { CommaIsJoin }
{}

/// A plan has the canonical text, and is within the limits on a query's keys and aggregates.
pub fn plans_are_limited()
    ensures { PlansAreLimited }
{}

/// A plan's tables and columns are those of the catalogue, by their names.
pub fn plans_are_declared()
    ensures { PlansAreDeclared }
{}

/// Over a plan's groups each item is a value of one type, and HAVING a truth.
pub fn groups_are_typed()
    ensures { GroupsAreTyped }
{}
