//! Laws of gathered files. A body does nothing: the clause is a theorem on the definitions.
ghost use Rattle.jobs.specs.Laws.{AnswersAreJoined, OwnAnswersMean};

/// The same files, in any order and however often, make equal states, equal bytes and equal prints.
pub fn answers_are_joined()
    ensures { AnswersAreJoined }
{}

/// Once every fragment's own answer is among the files and none conflicts, what is printed is the
/// query's meaning over the whole table.
pub fn own_answers_mean()
    ensures { OwnAnswersMean }
{}
