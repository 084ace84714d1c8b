//! Whether two coordinators' jobs are one.
ghost use Rattle.std.specs.Prelude.{◌≡◌, ◌↔◌, IsTrue};

use partial_codec::Job;
use plan_equality::is_same_plan;

/// Whether two jobs have the same load, plan and cut.
pub fn is_same_job(a: &Job, b: &Job) -> bool
    ensures { IsTrue result ↔ (a.now ≡ b.now) }
{
    a.load() == b.load()
        && a.cut().lengths() == b.cut().lengths()
        && is_same_plan(a.plan(), b.plan())
}
