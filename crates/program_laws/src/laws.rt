//! A law on the commands. A body does nothing: the clause is a theorem on the definitions.
ghost use Rattle.program_laws.specs.Program.{RunsMean};

/// What `gather` prints of the answers that `work` wrote over the files that `load` wrote is the
/// query's meaning over the tables that the CSV files are, in whatever order the answers are taken,
/// and however often.
pub fn runs_mean()
    ensures { RunsMean }
{}
