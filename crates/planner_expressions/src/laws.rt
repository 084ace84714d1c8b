//! Theorems on the definitions: each is the contract of a function that does nothing.
ghost use Rattle.planner_expressions.specs.Alike.{FoundAlike, SpelledAlike, SpelledMean, SpelledTranslate, SpelledSorts};
ghost use Rattle.planner_expressions.specs.Meant.{RowsMean, GroupsMean, RowsTranslate};
ghost use Rattle.planner_expressions.specs.Typed.{RowsAreTyped, ScopesAreTables};

/// Over rows the plan's expression gives what the tree gives, whose names are looked up.
pub fn rows_mean()
    ensures { RowsMean }
{}

/// Over groups the plan's expression gives what the tree gives, where parts that are keys or
/// aggregates have their values.
pub fn groups_mean()
    ensures { GroupsMean }
{}

/// What has no fault where no aggregate may stand has an expression over rows.
pub fn rows_translate()
    ensures { RowsTranslate }
{}

/// What has no fault where no aggregate may stand, and has literals that fit, has an expression of
/// its sort's type.
pub fn rows_are_typed()
    ensures { RowsAreTyped }
{}

/// The columns of FROM stand where the catalogue's tables have them, with their types.
pub fn scopes_are_tables()
    ensures { ScopesAreTables }
{}

/// Trees are spelled alike exactly where they are equal once their names are looked up.
pub fn spelled_trees_are_equal()
    ensures { SpelledAlike }
{}

/// Trees are found to be the same exactly where they are equal once their names are looked up.
pub fn found_trees_are_equal()
    ensures { FoundAlike }
{}

/// Trees that are spelled alike give the same on every row.
pub fn spelled_trees_mean()
    ensures { SpelledMean }
{}

/// Trees that are spelled alike have one expression over rows.
pub fn spelled_trees_translate()
    ensures { SpelledTranslate }
{}

/// Trees that are spelled alike are of one sort.
pub fn spelled_trees_have_sorts()
    ensures { SpelledSorts }
{}
