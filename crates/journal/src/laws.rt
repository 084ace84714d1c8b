//! The laws of journals. A body does nothing: each clause is a theorem on the definitions.
ghost use Rattle.std.specs.Prelude.{◌≡◌, ◌*◌, ◌≤◌, [], ℕ, List, length};
ghost use Rattle.meaning.specs.Gather.{joined};
ghost use Rattle.meaning.specs.Said.{Answer as AnAnswer};
ghost use Rattle.partial_codec.specs.Job.{IsJob, JobSpec};
ghost use Rattle.gathering.specs.Gathering.{GatherSpec};
ghost use Rattle.journal.specs.Fault.{IsNoFile};
ghost use Rattle.journal.specs.Journal.{IsJournal, IsJournalOf, IsLean};
ghost use Rattle.journal.specs.Runs.{HoldsAcknowledged, RunsTo, Step};

/// A file is the journal of one state at most.
pub fn one_state()
    ensures { (g h : GatherSpec) (file : List ℕ) → IsJob g.job → g.job ≡ h.job
        → IsJournalOf g file → IsJournalOf h file → g.cells ≡ h.cells }
{}

/// A journal without a record too many, as one is that `create` began, has at most two records a
/// fragment, and is never refused as no journal.
pub fn lean_journals_open()
    ensures few { (job : JobSpec) (file : List ℕ) → IsJob job → IsLean job file
        → (answers : List AnAnswer) → IsJournal job answers file
        → length answers ≤ 2 * length job.cut }
    ensures never_refused { (job : JobSpec) (file : List ℕ) → IsJob job → IsLean job file
        → IsNoFile job file → ⊥ }
{}

/// Over a whole run, from an empty journal on and through any crashes: what is gathered is the state
/// of answers among which each acknowledged one is, and none that wasn't presented.
pub fn runs_hold_acknowledged()
    ensures { (steps : List Step) (first last : GatherSpec) → IsJob first.job
        → first.cells ≡ joined first.job.cut [] → RunsTo steps first last
        → HoldsAcknowledged first.job steps last }
{}
