//! What answers and states are for.
ghost use Rattle.std.specs.Prelude.{◌≡◌, ◌≤◌, length};
ghost use Rattle.meaning.specs.SoundPlan.{IsWithinLimits};
ghost use Rattle.partial_codec.specs.Job.{JobSpec};

use meaning::{Cut, Plan};
use std::marker::Model;

/// What a query's answers are for: the load of the tables, the query's plan, and the cut of the
/// fact table.
#[derive(Drop)]
pub struct Job {
    load: u64,
    plan: Plan,
    cut: Cut,
}

impl Model for Job {
    ghost use Rattle.std.specs.Coded.{codes};
    ghost use Rattle.meaning.specs.contracts.plan.Plan as a_plan;
    ghost use Rattle.partial_codec.specs.Job.{JobSpec, IsJob};

    ghost Value = { JobSpec };

    ghost coded = { Prim.hlevel (codes, a_plan.the_row.coded) };

    ghost view = { λ j. record { load = j.load; plan = j.plan; cut = j.cut } };

    ghost invariant = { λ j. IsJob (record { load = j.load; plan = j.plan; cut = j.cut }) };
}

impl Job {
    ghost use Rattle.partial_codec.specs.Job.{IsJob};

    /// The job of a plan within the limits on a query. Takes no memory.
    pub fn new(load: u64, plan: Plan, cut: Cut) -> Job
        requires { IsWithinLimits plan }
        ensures { result ≡ record { load = load; plan = plan; cut = cut } }
    {
        // No effect at run time. The proof reads from this call that the text is UTF-8.
        let _text = plan.text.as_str();
        // No effect at run time. The proof reads from this call the limits of a cut.
        let _lengths = cut.lengths();
        Job { load, plan, cut }
    }

    pub fn load(&self) -> u64
        ensures { result ≡ self.now.load }
    {
        self.load
    }

    pub fn plan(&self) -> &Plan
        ensures value { result.now ≡ self.now.plan }
        ensures within_limits { IsJob self.now }
    {
        &self.plan
    }

    pub fn cut(&self) -> &Cut
        ensures { result.now ≡ self.now.cut }
    {
        &self.cut
    }
}
