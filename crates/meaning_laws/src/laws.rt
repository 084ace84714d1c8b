//! The laws that other crates rest on. A body does nothing: the clause is a theorem on the
//! definitions.

ghost use Rattle.std.specs.Prelude.{Bool, List};
ghost use Rattle.meaning.specs.Said.{Cell};
ghost use Rattle.meaning.specs.declared.plan.AggregateKind.{AggregateKind as Kind};
ghost use Rattle.meaning.specs.declared.plan.OrderKey.{OrderKey};
ghost use Rattle.meaning.specs.declared.plan.Plan.{Plan};
ghost use Rattle.meaning.specs.Finish.{order_cmp};
ghost use Rattle.meaning.specs.Order.{row_cmp, value_cmp};
ghost use Rattle.meaning_laws.specs.Laws.{CellsJoin, StatesJoin, StatisticsMerge, StatisticsServe, SetsAscend, FaultsCombine, AnswersCombine, GroupsMerge, PreviewsAreMeanings, WholeFromParts, PreviewsOfOwnAnswers, StatesOfHeard, KeptGroupsMerge, Sorts, SetsContain, SetsUnite, GroupsFit, JoinedRowsAreMatches, FragmentsCombine, ReportsInOrder, FragmentsAscend, OneCombination, OwnAnswersFit, SortsAreEqual, JoinsAreLookups, Headline};
ghost use Rattle.meaning.specs.ExpressionLaws.{ReadsColumnsUsed, JudgesColumnsUsed, EvaluationIsTyped, ConditionsFilter, LikeByBytes};
ghost use Rattle.meaning.specs.TableLaws.{TablesAreTyped, KeysAreUnique, LoadedTablesFit};

/// Joining cells is commutative, associative and idempotent.
pub fn cells_join()
    ensures { CellsJoin }
{}

/// A state depends on the set of answers alone.
pub fn states_join()
    ensures { StatesJoin }
{}

/// Statistics are a commutative monoid.
pub fn statistics_merge()
    ensures { StatisticsMerge }
{}

/// Each aggregate can be computed in parts.
pub fn statistics_serve()
    ensures { (kind : Kind) → StatisticsServe kind }
{}

/// The keys of groups ascend, and depend on what they are alone.
pub fn sets_ascend()
    ensures rows { SetsAscend row_cmp }
    ensures values { SetsAscend value_cmp }
{}

/// The least fault can be found in parts.
pub fn faults_combine()
    ensures { FaultsCombine }
{}

/// Answers over any parts say together what one answer over all their rows says.
pub fn answers_combine()
    ensures { AnswersCombine }
{}

/// Groups may be merged in any order, and into a table that was merged before.
pub fn groups_merge()
    ensures { (plan : Plan) → GroupsMerge plan }
{}

/// A preview of the own answers of some fragments is the query's meaning over their rows.
pub fn previews_are_meanings()
    ensures { PreviewsAreMeanings }
{}

/// The report of just every fragment's own answer is the query's meaning over the whole table.
pub fn whole_from_parts()
    ensures { WholeFromParts }
{}

/// The whole table's fault and kept rows are those of its fragments.
pub fn fragments_combine()
    ensures { FragmentsCombine }
{}

/// A conflict is reported first, then what is missing; both are named in ascending order.
pub fn reports_in_order()
    ensures order { (plan : Plan) (cells : List Cell) → ReportsInOrder plan cells }
    ensures fragments { (test : Cell → Bool) (cells : List Cell) → FragmentsAscend test cells }
{}

/// A fact row meets at most one row of each dimension.
pub fn one_combination()
    ensures { OneCombination }
{}

/// A fragment's own answer fits its plan and its cut.
pub fn own_answers_fit()
    ensures { OwnAnswersFit }
{}

/// Any sort of the rows gives them in the answer's order.
pub fn sorts_are_equal()
    ensures { SortsAreEqual }
{}

/// Each join can be looked up by itself.
pub fn joins_are_lookups()
    ensures { JoinsAreLookups }
{}

/// Once every fragment's own answer is in and none conflicts, what is printed is the query's
/// meaning over the whole table.
pub fn headline()
    ensures { Headline }
{}

/// Evaluation reads only the columns that the expression names, and judging a row only those that
/// the plan's expressions name.
pub fn reads_columns_used()
    ensures evaluated { ReadsColumnsUsed }
    ensures judged { JudgesColumnsUsed }
{}

/// An expression that has a type gives a value or a truth of it, or a fault.
pub fn evaluation_is_typed()
    ensures { EvaluationIsTyped }
{}

/// What conditions make of a row can be found apart from its keys and arguments, list by list.
pub fn conditions_filter()
    ensures { ConditionsFilter }
{}

/// Rows may be kept and grouped in parts.
pub fn kept_groups_merge()
    ensures { (plan : Plan) → KeptGroupsMerge plan }
{}

/// A preview is the query's meaning over the rows of the fragments that hold one answer, if these
/// are their own.
pub fn previews_of_own_answers()
    ensures { PreviewsOfOwnAnswers }
{}

/// A coordinator that holds cells alone holds the state of what it has heard, after any events.
pub fn states_of_heard()
    ensures { StatesOfHeard }
{}

/// A sorted list has the elements of the list, in order.
pub fn sorts()
    ensures rows { Sorts row_cmp }
    ensures answers { (order : List OrderKey) → Sorts (order_cmp order) }
{}

/// A set has the members of its list.
pub fn sets_contain()
    ensures rows { SetsContain row_cmp }
    ensures values { SetsContain value_cmp }
{}

/// LIKE with `%` at the ends alone is a comparison of bytes.
pub fn like_by_bytes()
    ensures { LikeByBytes }
{}

/// A table that loads has a value for each column in each row, and no key twice.
pub fn loaded_rows()
    ensures typed { TablesAreTyped }
    ensures unique { KeysAreUnique }
{}

/// Over tables that load, each fragment's own answer fits a typed plan.
pub fn loaded_tables_fit()
    ensures { LoadedTablesFit }
{}

/// Sets are a commutative monoid under union, also where one of them is a list of no element.
pub fn sets_unite()
    ensures rows { SetsUnite row_cmp }
    ensures values { SetsUnite value_cmp }
{}

/// The joined rows of a fact row are the choices of one match from each join.
pub fn joined_rows_are_matches()
    ensures { JoinedRowsAreMatches }
{}

/// Groups that fit are merged into one that fits, and give the last step values of their types.
pub fn groups_fit()
    ensures { (plan : Plan) → GroupsFit plan }
{}
